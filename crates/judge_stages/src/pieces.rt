//! The sections that the image has, those among them that linkers don't edit, those that they merge, and those of call frames.
ghost use Rattle.std.specs.Prelude.{◌≡◌, ◌&&◌, IfOk, filter};
ghost use Rattle.std.specs.List.{list_any};
ghost use Rattle.check_link.specs.Views.{piece_view, piece_views};
ghost use Rattle.judge_model.specs.Links.{is_property};
ghost use Rattle.judge_stages.specs.Stages.{has_own_by, is_framed_by, is_merged_by, is_plain_by, is_there};

use check_link::Piece;
use link_fields::{Drops, is_frames, is_mergeable};
use std::alloc::{AllocError, Global};

/// Whether a section has the notes of properties, which linkers join.
fn is_property(piece: &Piece<'_>) -> bool
    ensures { result ≡ is_property (piece_view piece.now) }
{
    piece.name == b".note.gnu.property".as_slice()
}

/// Whether a section isn't left out.
fn is_there(piece: &Piece<'_>, drops: &Drops<'_>) -> bool
    ensures { result ≡ is_there drops.now (piece_view piece.now) }
{
    !drops.has(piece.object, piece.section)
}

/// The sections that aren't left out.
pub fn those_there<'a>(
    alloc: Global,
    pieces: &[Piece<'a>],
    drops: &Drops<'_>,
) -> Result<Vec<Piece<'a>>, AllocError>
    ensures { IfOk result (λ v. piece_views v.items
        ≡ filter (is_there drops.now) (piece_views pieces.now)) }
{
    let mut there = Vec::with_capacity(alloc, pieces.len())?;
    for piece in pieces {
        if is_there(piece, drops) {
            there.push(*piece)?;
        }
    }
    Ok(there)
}

/// Whether a section has a place line, given those that have one, or is neither one that linkers merge nor one of call frames or of
/// notes of properties.
fn is_plain(piece: &Piece<'_>, keys: &Drops<'_>) -> bool
    ensures { result ≡ is_plain_by keys.now (piece_view piece.now) }
{
    keys.has(piece.object, piece.section)
        || !(is_mergeable(piece) || is_frames(piece) || is_property(piece))
}

/// The sections that have a place line, given those that have one, or that linkers don't edit.
pub fn plain_among<'a>(
    alloc: Global,
    pieces: &[Piece<'a>],
    keys: &Drops<'_>,
) -> Result<Vec<Piece<'a>>, AllocError>
    ensures { IfOk result (λ v. piece_views v.items
        ≡ filter (is_plain_by keys.now) (piece_views pieces.now)) }
{
    let mut plain = Vec::with_capacity(alloc, pieces.len())?;
    for piece in pieces {
        if is_plain(piece, keys) {
            plain.push(*piece)?;
        }
    }
    Ok(plain)
}

/// Whether linkers merge what a section has, which has no place line, given those that have one.
fn is_merged(piece: &Piece<'_>, keys: &Drops<'_>) -> bool
    ensures { result ≡ is_merged_by keys.now (piece_view piece.now) }
{
    is_mergeable(piece) && !keys.has(piece.object, piece.section)
}

/// The sections that linkers merged, given those that have a place line.
pub fn merged_among<'a>(
    alloc: Global,
    pieces: &[Piece<'a>],
    keys: &Drops<'_>,
) -> Result<Vec<Piece<'a>>, AllocError>
    ensures { IfOk result (λ v. piece_views v.items
        ≡ filter (is_merged_by keys.now) (piece_views pieces.now)) }
{
    let mut merged = Vec::new(alloc);
    for piece in pieces {
        if is_merged(piece, keys) {
            merged.push(*piece)?;
        }
    }
    Ok(merged)
}

/// Whether a section has call frames and no place line, given those that have one.
fn is_framed(piece: &Piece<'_>, keys: &Drops<'_>) -> bool
    ensures { result ≡ is_framed_by keys.now (piece_view piece.now) }
{
    is_frames(piece) && !keys.has(piece.object, piece.section)
}

/// The sections of call frames of which linkers made one list, given those that have a place line.
pub fn framed_among<'a>(
    alloc: Global,
    pieces: &[Piece<'a>],
    keys: &Drops<'_>,
) -> Result<Vec<Piece<'a>>, AllocError>
    ensures { IfOk result (λ v. piece_views v.items
        ≡ filter (is_framed_by keys.now) (piece_views pieces.now)) }
{
    let mut framed = Vec::new(alloc);
    for piece in pieces {
        if is_framed(piece, keys) {
            framed.push(*piece)?;
        }
    }
    Ok(framed)
}

/// Whether one of some sections of call frames has no place line.
fn has_framed(pieces: &[Piece<'_>], keys: &Drops<'_>) -> bool
    ensures { result ≡ list_any (is_framed_by keys.now) (piece_views pieces.now) }
{
    for piece in pieces {
        if is_framed(piece, keys) {
            return true;
        }
    }
    false
}

/// Whether a section has call frames and a place line, given those that have one.
fn has_own_place(piece: &Piece<'_>, keys: &Drops<'_>) -> bool
    ensures { result ≡ has_own_by keys.now (piece_view piece.now) }
{
    is_frames(piece) && keys.has(piece.object, piece.section)
}

/// Whether one of some sections of call frames has one.
pub fn has_own(pieces: &[Piece<'_>], keys: &Drops<'_>) -> bool
    ensures { result ≡ list_any (has_own_by keys.now) (piece_views pieces.now) }
{
    for piece in pieces {
        if has_own_place(piece, keys) {
            return true;
        }
    }
    false
}

/// Whether some sections of call frames have place lines and others have none.
pub fn are_mixed(pieces: &[Piece<'_>], keys: &Drops<'_>) -> bool
    ensures { result ≡ (list_any (has_own_by keys.now) (piece_views pieces.now)
        && list_any (is_framed_by keys.now) (piece_views pieces.now)) }
{
    has_own(pieces, keys) && has_framed(pieces, keys)
}

//! Whether the sections are in an image that it is to have; without --gc-sections all but those that no image has.
ghost use Rattle.std.specs.Prelude.{◌≡◌, ◌↔◌, ◌∷◌, All, IfOk, IsTrue, None, false};
ghost use Rattle.check_link.specs.Views.{piece_view, piece_views};
ghost use Rattle.check_load.specs.Views.{loaded_views};
ghost use Rattle.judge_model.specs.Kept.{root_symbols};
ghost use Rattle.judge_model.specs.Links.{ForeignLink, objects_of};
ghost use Rattle.judge_model.specs.RightForeign.{Holds};
ghost use Rattle.judge_model.specs.declared.judgement.Requirement.TheVariants as requirement;
ghost use Rattle.keep_judge.specs.Kept.{IsKeptIn, is_excluded};

use crate::collected::are_collected;
use crate::presence::is_never_there;
use check_link::{Names, Piece, pieces_of};
use check_load::Loaded;
use command::Plan;
use link_fields::Drops;
use std::alloc::{AllocError, Global};

/// Whether no image has a section.
pub fn is_excluded(piece: &Piece<'_>) -> bool
    ensures { result ≡ is_excluded (piece_view piece.now) }
{
    is_never_there(&piece.header)
}

/// Whether a section is left out exactly where no image has it.
fn is_kept_right(piece: &Piece<'_>, drops: &Drops<'_>) -> bool
    ensures { IsTrue result ↔ IsKeptIn drops.now (piece_view piece.now) }
{
    drops.has(piece.object, piece.section) == is_excluded(piece)
}

fn are_kept_right(pieces: &[Piece<'_>], drops: &Drops<'_>) -> bool
    ensures { IsTrue result ↔ All (λ p. IsKeptIn drops.now (piece_view p)) pieces.now }
{
    for piece in pieces {
        if !is_kept_right(piece, drops) {
            return false;
        }
    }
    true
}

/// Whether all sections of objects that COMDAT groups leave are in an image, but those with SHF_EXCLUDE, which aren't; the words
/// have neither --gc-sections nor a script.
fn are_all_kept(
    alloc: Global,
    objects: &[Loaded<'_>],
    drops: &Drops<'_>,
) -> Result<bool, AllocError>
    ensures { (l : ForeignLink) → objects_of l ≡ loaded_views objects.now
        → l.certificate.drops ≡ drops.now → l.plan.collects ≡ false → l.plan.script ≡ None
        → IfOk result (λ b. IsTrue b ↔ Holds requirement.F2 l) }
{
    let pieces = pieces_of(alloc, objects)?;
    Ok(are_kept_right(&pieces, drops))
}

/// Whether an image has the sections that it is to have, by words that ask for --gc-sections or don't, and have no script; given the
/// names of the objects, and the plan with the entry and the names of -u.
///
/// # Errors
///
/// Only where memory is refused.
pub fn are_sections_kept(
    alloc: Global,
    names: &Names<'_, '_>,
    plan: &Plan<'_>,
    collects: bool,
    drops: &Drops<'_>,
) -> Result<bool, AllocError>
    ensures { (l : ForeignLink) → objects_of l ≡ names.now
        → root_symbols l ≡ plan.now.entry ∷ plan.now.undefined
        → l.certificate.drops ≡ drops.now → l.plan.collects ≡ collects → l.plan.script ≡ None
        → IfOk result (λ b. IsTrue b ↔ Holds requirement.F2 l) }
{
    if collects {
        are_collected(alloc, names, plan, drops)
    } else {
        are_all_kept(alloc, names.objects(), drops)
    }
}

//! Debug data joined by their names.
ghost use Rattle.std.specs.Prelude.{◌≡◌, ◌+◌, ◌≤◌, ◌^◌, ◌++◌, ◌∷◌, [], All, IfErr, IfOk, List, OnErr, OnOk, length};
ghost use Rattle.elf_model.specs.Link.Loading as loading;
ghost use Rattle.elf_model.specs.Link.Placement.{round_up};
ghost use Rattle.placing.specs.PlaceViews.{place_view, place_views};
ghost use Rattle.placing.specs.Views.{piece_view, piece_views};
ghost use Rattle.search.specs.Views.{loaded_view, loaded_views};
ghost use Rattle.debug_image.specs.DataIndexes.{AreAll};
ghost use Rattle.debug_image.specs.DebugSections as spec;
ghost use Rattle.debug_image.specs.DebugViews.{joined_view, joined_views, row_views};
ghost use Rattle.debug_image.specs.declared.faults.DebugFault.TheVariants as fault;

use crate::data_index::{DataSection, index_of};
use crate::debug_sections::debug_pieces;
use crate::faults::DebugFault;
use crate::left_objects::is_flagged;
use layout::{Piece, Place};
use search::LoadedObject;
use std::alloc::{AllocError, Global};
use std::collections::BTreeMap;

/// The sections of one name, joined: its size, and the greatest alignment of them, in bytes.
#[derive(Clone, Copy, Debug)]
pub struct Joined<'a> {
    pub title: &'a [u8],
    pub end: u64,
    pub align: u64,
}

/// The sections of all objects that go into the image, at their offsets in what is joined of their names, in a row for each
/// object; what is joined; and an index of each row.
#[derive(Drop)]
pub struct JoinedData<'a> {
    pub rows: Vec<Vec<Place<'a>>>,
    pub joined: Vec<Joined<'a>>,
    pub index: Vec<BTreeMap<u64, DataSection>>,
}

/// The greatest alignment that is heeded, in bytes.
const MOST_ALIGNMENT: u64 = 1 << 21;

/// Where joined data may end, in bytes.
const MOST_BYTES: u64 = 1 << 40;

/// The names of debug data that there may be, so that looking through them takes little for each section.
const MOST_NAMES: usize = 256;

/// The alignment of a section, in bytes; one of more than 2^21 counts as 1.
fn alignment(piece: &Piece<'_>) -> u64
    ensures exact { result ≡ spec.alignment (piece_view piece.now) }
    ensures some { 1 ≤ result }
    ensures low { result ≤ 2 ^ 21 }
{
    let align = piece.header.sh_addralign.max(1);
    if align <= MOST_ALIGNMENT { align } else { 1 }
}

/// The least multiple of an alignment that isn't below an offset.
pub fn round_up(align: u64, offset: u64) -> u64
    requires some { 1 ≤ align }
    requires low { align ≤ 2 ^ 21 }
    requires offset { offset ≤ 2 ^ 60 }
    ensures exact { result ≡ round_up align offset }
    ensures above { offset ≤ result }
    ensures near { result ≤ offset + align }
{
    (offset + (align - 1)) / align * align
}

/// The sections of one name, and one more behind them, which is at an offset.
fn grown<'a>(joined: &Joined<'a>, piece: &Piece<'_>, at: u64) -> Joined<'a>
    requires joined { spec.IsLow (joined_view joined.now) }
    requires at { at ≡ round_up (spec.alignment (piece_view piece.now)) joined.now.end }
    requires low { at + spec.size_of (piece_view piece.now) ≤ 2 ^ 40 }
    ensures exact { joined_view result
        ≡ spec.grown (joined_view joined.now) (piece_view piece.now) }
    ensures low { spec.IsLow (joined_view result) }
{
    Joined {
        title: joined.title,
        end: at + piece.bytes.len() as u64,
        align: joined.align.max(alignment(piece)),
    }
}

/// Nothing, joined of a name.
fn empty<'a>(name: &'a [u8]) -> Joined<'a>
    ensures { joined_view result ≡ spec.empty name.now }
{
    Joined {
        title: name,
        end: 0,
        align: 1,
    }
}

/// What is joined of a name; nothing where there is none of it.
fn named<'a>(joined: &[Joined<'a>], name: &'a [u8]) -> Joined<'a>
    requires { All spec.IsLow (joined_views joined.now) }
    ensures exact { joined_view result ≡ spec.named (joined_views joined.now) name.now }
    ensures low { spec.IsLow (joined_view result) }
{
    for one in joined {
        if one.title == name {
            return *one;
        }
    }
    empty(name)
}

/// Puts what is joined of a name in place of what was joined of it, or behind all where that was nothing.
fn put<'a>(joined: &mut Vec<Joined<'a>>, more: Joined<'a>) -> Result<(), AllocError>
    ensures { OnOk result (joined_views joined.new.items
        ≡ spec.replaced (joined_views joined.old.items) (joined_view more.entry)) }
{
    for k in 0..joined.len() {
        if joined[k].title == more.title {
            joined[k] = more;
            return Ok(());
        }
    }
    joined.push(more)?;
    Ok(())
}

/// A section at its offset behind what is joined of its name; TooLarge where it ends too high.
fn place_behind<'a>(joined: &Joined<'a>, piece: &Piece<'a>) -> Result<Place<'a>, DebugFault>
    requires { spec.IsLow (joined_view joined.now) }
    ensures place { IfOk result (λ q. place_view q
        ≡ spec.place_behind (joined_view joined.now) (piece_view piece.now)) }
    ensures low { IfOk result (λ q. spec.EndsLow (place_view q)) }
    ensures large { OnErr result (¬ spec.EndsLow
        (spec.place_behind (joined_view joined.now) (piece_view piece.now))) }
{
    let at = round_up(alignment(piece), joined.end);
    let size = piece.bytes.len() as u64;
    if at > MOST_BYTES || size > MOST_BYTES - at {
        return Err(DebugFault::TooLarge);
    }
    Ok(Place { at, piece: *piece })
}

/// Adds a section to what is joined of its name, and its offset there; TooLarge where it ends too high, or there are more names
/// than there may be.
fn add<'a>(
    places: &mut Vec<Place<'a>>,
    joined: &mut Vec<Joined<'a>>,
    piece: &Piece<'a>,
) -> Result<(), DebugFault>
    requires { All spec.IsLow (joined_views joined.old.items) }
    ensures places { OnOk result (place_views places.new.items
        ≡ place_views places.old.items
        ++ spec.place_in (joined_views joined.old.items) (piece_view piece.now) ∷ []) }
    ensures ends { OnOk result (spec.EndsLow
        (spec.place_in (joined_views joined.old.items) (piece_view piece.now))) }
    ensures joined { OnOk result (joined_views joined.new.items
        ≡ spec.joined_with (joined_views joined.old.items) (piece_view piece.now)) }
    ensures low { OnOk result (All spec.IsLow (joined_views joined.new.items)) }
    ensures few { OnOk result (length joined.new.items ≤ spec.most_names) }
    ensures large { IfErr result (λ f. f ≡ fault.TooLarge
        → ¬ spec.HaveRoom (joined_views joined.old.items) (piece_view piece.now ∷ [])) }
{
    let one = named(joined, piece.name);
    let place = match place_behind(&one, piece) {
        Ok(place) => place,
        Err(fault) => return Err(fault),
    };
    put(joined, grown(&one, piece, place.at))?;
    places.push(place)?;
    if joined.len() > MOST_NAMES {
        return Err(DebugFault::TooLarge);
    }
    Ok(())
}

/// Adds sections of an object, and their offsets.
fn add_all<'a>(
    alloc: Global,
    joined: &mut Vec<Joined<'a>>,
    pieces: &[Piece<'a>],
) -> Result<Vec<Place<'a>>, DebugFault>
    requires low { All spec.IsLow (joined_views joined.old.items) }
    requires few { length joined.old.items ≤ spec.most_names }
    ensures places { IfOk result (λ v. place_views v.items
        ≡ spec.places_from (joined_views joined.old.items) (piece_views pieces.now)) }
    ensures ends { IfOk result (λ v. All spec.EndsLow (place_views v.items)) }
    ensures joined { OnOk result (joined_views joined.new.items
        ≡ spec.joined_all (joined_views joined.old.items) (piece_views pieces.now)) }
    ensures low { OnOk result (All spec.IsLow (joined_views joined.new.items)) }
    ensures few { OnOk result (length joined.new.items ≤ spec.most_names) }
    ensures large { IfErr result (λ f. f ≡ fault.TooLarge
        → ¬ spec.HaveRoom (joined_views joined.old.items) (piece_views pieces.now)) }
{
    let mut places = Vec::new(alloc);
    for piece in pieces {
        if let Err(fault) = add(&mut places, joined, piece) {
            return Err(fault);
        }
    }
    Ok(places)
}

/// Adds the sections of object `number`, unless it is left out, a row of their offsets, and an index of that.
fn add_object<'a>(
    alloc: Global,
    rows: &mut Vec<Vec<Place<'a>>>,
    joined: &mut Vec<Joined<'a>>,
    index: &mut Vec<BTreeMap<u64, DataSection>>,
    number: u64,
    loaded: &LoadedObject<'a>,
    left_out: bool,
) -> Result<(), DebugFault>
    requires low { All spec.IsLow (joined_views joined.old.items) }
    requires few { length joined.old.items ≤ spec.most_names }
    ensures rows { OnOk result (row_views rows.new.items
        ≡ row_views rows.old.items
        ++ spec.places_from (joined_views joined.old.items)
        (spec.pieces_unless left_out number (loaded_view loaded.now)) ∷ []) }
    ensures ends { OnOk result (All spec.EndsLow
        (spec.places_from (joined_views joined.old.items)
        (spec.pieces_unless left_out number (loaded_view loaded.now)))) }
    ensures joined { OnOk result (joined_views joined.new.items
        ≡ spec.joined_all (joined_views joined.old.items)
        (spec.pieces_unless left_out number (loaded_view loaded.now))) }
    ensures low { OnOk result (All spec.IsLow (joined_views joined.new.items)) }
    ensures few { OnOk result (length joined.new.items ≤ spec.most_names) }
    ensures large { IfErr result (λ f. f ≡ fault.TooLarge
        → ¬ spec.HaveRoom (joined_views joined.old.items)
        (spec.pieces_unless left_out number (loaded_view loaded.now))) }
    ensures index { OnOk result ((os : List loading.LoadedObject) →
        AreAll os (row_views rows.old.items) index.old.items
        → AreAll (os ++ loaded_view loaded.now ∷ []) (row_views rows.new.items) index.new.items) }
{
    let pieces = debug_pieces(alloc, number, loaded, left_out)?;
    let places = add_all(alloc, joined, &pieces)?;
    index.push(index_of(alloc, loaded, &places)?)?;
    rows.push(places)?;
    Ok(())
}

/// The debug data of objects, of which there is a flag for each whether it is left out.
///
/// # Errors
///
/// TooLarge where a section of them would end above 2^40 in what is joined of its name, or there are more than 256 names; Memory.
pub fn joined_data<'a>(
    alloc: Global,
    flags: &[bool],
    objects: &[LoadedObject<'a>],
) -> Result<JoinedData<'a>, DebugFault>
    ensures rows { IfOk result (λ d. row_views d.rows.items
        ≡ spec.rows_from flags.now [] 0 (loaded_views objects.now)) }
    ensures joined { IfOk result (λ d. joined_views d.joined.items
        ≡ spec.joined_from flags.now [] 0 (loaded_views objects.now)) }
    ensures low { IfOk result (λ d. All spec.IsLow (joined_views d.joined.items)) }
    ensures ends { IfOk result (λ d. spec.AreLow (row_views d.rows.items)) }
    ensures few { IfOk result (λ d. length d.joined.items ≤ spec.most_names) }
    ensures large { IfErr result (λ f. f ≡ fault.TooLarge
        → ¬ spec.AreFew (spec.rows_from flags.now [] 0 (loaded_views objects.now))
        (spec.joined_from flags.now [] 0 (loaded_views objects.now))) }
    ensures index { IfOk result (λ d. AreAll (loaded_views objects.now)
        (row_views d.rows.items) d.index.items) }
{
    let mut rows = Vec::new(alloc);
    let mut joined = Vec::new(alloc);
    let mut index = Vec::new(alloc);
    for (k, loaded) in objects.iter().enumerate() {
        if let Err(fault) = add_object(
            alloc,
            &mut rows,
            &mut joined,
            &mut index,
            k as u64,
            loaded,
            is_flagged(flags, k as u64),
        ) {
            return Err(fault);
        }
    }
    Ok(JoinedData {
        rows,
        joined,
        index,
    })
}

//! C9 and C10 of an object whose fields rise: each field is judged and compared with memory as it comes, and none is listed.
ghost use Rattle.std.specs.Prelude.{◌≡◌, ◌==◌, ◌∷◌, ◌≤◌, [], AllPairs, IfOk, IfSome, Some, length, map, slice_get, true};
ghost use Rattle.std.specs.List.{prefix_len};
ghost use Rattle.check_load.specs.Kept.{kept_relas};
ghost use Rattle.check_load.specs.KeptRelocations.{relocations_of_rela};
ghost use Rattle.check_load.specs.Views.{loaded_view};
ghost use Rattle.check_link.specs.Views.{placed_view, placed_views};
ghost use Rattle.check_relocs.specs.Bytes.{EndsBefore};
ghost use Rattle.check_relocs.specs.Fields.{AreRight};
ghost use Rattle.check_relocs.specs.KnownSlots.{AreSymbolsKnown};
ghost use Rattle.check_relocs.specs.LawfulFields.{IsRelocated};
ghost use Rattle.check_relocs.specs.Referrers.{entry_here, object_here, relocation_here};
ghost use Rattle.checker.specs.Comparing.{AreHeld, AreOwn};
ghost use Rattle.checker.specs.Rising.{AreInOrder, AreMatched, AreRightHere, Follows, HasFields, IsRightHere, MatchesOn, field_here, fields_of, relocations_of};
ghost use Rattle.elf_model.specs.Link.Relocation.{relocations_from};
ghost use Rattle.elf_model.specs.Image.RightLink.{objects_of, where_of};

use crate::c10_bytes::{has_value_at, same_between};
use check_link::{Placed, load_size};
use check_load::{KeptRela, KeptRelocation, Loaded};
use check_relocs::{
    Field, KnownSymbols, Referrer, Relocated, is_some_kind, relocated, right_field, unknown_symbols,
};
use check_stages::BoundLink;
use elf_model::Rela;
use loader_model::Memory;
use std::alloc::{AllocError, Global};

/// Whether a field comes after a byte up to which a piece is compared, and memory has what is wanted up to the field's end.
fn follows(held: &[u8], bytes: &[u8], from: u64, field: &Field) -> bool
    requires { field.now.width ≤ 8 }
    ensures { result ≡ true → Follows held.now bytes.now from field.now }
{
    if field.at < from {
        return false;
    }
    if !same_between(held, bytes, from, field.at) {
        return false;
    }
    has_value_at(held, field)
}

/// The field of a kept relocation, given what it relocates, for which an entry of a kept RELA section stands; None where it isn't
/// right.
#[inline(always)]
fn field_at(
    here: &Referrer<'_, '_, '_, '_>,
    known: &mut KnownSymbols,
    to: &Relocated,
    rela: &KeptRela,
    number: usize,
    entry: Rela,
) -> Option<Field>
    requires known { AreSymbolsKnown here.now known.old }
    requires to { IsRelocated here.now to.now }
    requires section { to.now.section ≡ rela.now.target }
    ensures kept { AreSymbolsKnown here.now known.new }
    ensures right { IfSome result (λ f. IsRightHere here.now
        (entry_here here.now rela.now.target entry)) }
    ensures field { IfSome result (λ f. f ≡ field_here here.now
        (entry_here here.now rela.now.target entry)) }
{
    let relocation = KeptRelocation {
        section: rela.target,
        table: rela.number,
        number,
        entry,
    };
    right_field(here, known, to, &relocation)
}

/// Compares the field of an entry of a kept RELA section with memory, given up to which byte the piece is compared. Where the field
/// ends; None where the relocation isn't right, the field begins before that byte, and where memory has other bytes.
#[inline(always)]
fn end_of_field(
    here: &Referrer<'_, '_, '_, '_>,
    known: &mut KnownSymbols,
    to: &Relocated,
    rela: &KeptRela,
    number: usize,
    entry: Rela,
    held: &[u8],
    bytes: &[u8],
    from: u64,
) -> Option<u64>
    requires known { AreSymbolsKnown here.now known.old }
    requires to { IsRelocated here.now to.now }
    requires section { to.now.section ≡ rela.now.target }
    ensures kept { AreSymbolsKnown here.now known.new }
    ensures right { IfSome result (λ end. IsRightHere here.now
        (entry_here here.now rela.now.target entry)) }
    ensures matched { IfSome result (MatchesOn here.now held.now bytes.now from
        (entry_here here.now rela.now.target entry ∷ [])) }
{
    let Some(field) = field_at(here, known, to, rela, number, entry) else {
        return None;
    };
    if !follows(held, bytes, from, &field) {
        return None;
    }
    field.at.checked_add(field.width as u64)
}

/// Compares the fields of the entries of a kept RELA section with memory, given up to which byte the piece is compared. Where the
/// last of them ends; None where an entry isn't right, fields don't rise, and where memory has other bytes.
#[inline(never)]
fn end_of_entries(
    here: &Referrer<'_, '_, '_, '_>,
    known: &mut KnownSymbols,
    rela: &KeptRela,
    held: &[u8],
    bytes: &[u8],
    from: u64,
) -> Option<u64>
    requires { AreSymbolsKnown here.now known.old }
    ensures kept { AreSymbolsKnown here.now known.new }
    ensures right { IfSome result (λ end. AreRightHere here.now
        (map (relocation_here here.now) (relocations_of_rela (object_here here.now).bytes rela.now))) }
    ensures matched { IfSome result (MatchesOn here.now held.now bytes.now from
        (map (relocation_here here.now) (relocations_of_rela (object_here here.now).bytes rela.now))) }
{
    let to = relocated(here.bindings, here.number, &here.loaded.object, rela.target);
    let entries = here.loaded.object.entries(rela.number as usize);
    let mut end = from;
    for number in 0..entries.len() {
        let entry = entries.at(number);
        if !is_some_kind(&entry) {
            continue;
        }
        let Some(next) = end_of_field(here, known, &to, rela, number, entry, held, bytes, end)
        else {
            return None;
        };
        end = next;
    }
    Some(end)
}

/// Compares the fields of kept RELA sections that relocate one section with memory. Where the last of them ends, 0 without fields;
/// None where an entry isn't right, fields don't rise, and where memory has other bytes.
fn end_of_fields(
    here: &Referrer<'_, '_, '_, '_>,
    known: &mut KnownSymbols,
    relas: &[KeptRela],
    held: &[u8],
    bytes: &[u8],
) -> Option<u64>
    requires { AreSymbolsKnown here.now known.old }
    ensures kept { AreSymbolsKnown here.now known.new }
    ensures right { IfSome result (λ end.
        AreRightHere here.now (relocations_of here.now relas.now)) }
    ensures matched { IfSome result (AreMatched held.now bytes.now (fields_of here.now relas.now)) }
{
    let mut end = 0;
    for rela in relas {
        let Some(next) = end_of_entries(here, known, rela, held, bytes, end) else {
            return None;
        };
        end = next;
    }
    Some(end)
}

/// Whether memory holds the wanted bytes of a piece, given the kept RELA sections that relocate it: false also where an entry of
/// these isn't right, and where their fields don't rise or the piece takes up no memory.
fn has_fields(
    memory: &Memory<'_>,
    here: &Referrer<'_, '_, '_, '_>,
    known: &mut KnownSymbols,
    relas: &[KeptRela],
    placed: &Placed<'_>,
) -> bool
    requires { AreSymbolsKnown here.now known.old }
    ensures kept { AreSymbolsKnown here.now known.new }
    ensures right { result ≡ true → AreRightHere here.now (relocations_of here.now relas.now) }
    ensures rising { result ≡ true → AllPairs EndsBefore (fields_of here.now relas.now) }
    ensures held { result ≡ true → HasFields memory.now (fields_of here.now relas.now)
        (placed_view placed.now) }
{
    let size = load_size(&placed.piece);
    if size == 0 {
        return relas.is_empty();
    }
    let bytes = placed.piece.bytes;
    let Some(run) = memory.run(placed.at, size) else {
        return false;
    };
    let Some(end) = end_of_fields(here, known, relas, run.bytes, bytes) else {
        return false;
    };
    end <= size && same_between(run.bytes, bytes, end, size)
}

/// How many of the first kept RELA sections relocate a section.
fn relas_of(relas: &[KeptRela], section: u64) -> usize
    ensures count { result ≡ prefix_len (λ k. k.target == section) relas.now }
    ensures within { result ≤ length relas.now }
{
    relas
        .iter()
        .take_while(|rela| rela.target as u64 == section)
        .count()
}

/// Whether the kept relocations of an object are right and memory holds the wanted bytes of its pieces, as far as pieces, RELA
/// sections and fields rise alike.
fn have_fields(
    memory: &Memory<'_>,
    here: &Referrer<'_, '_, '_, '_>,
    known: &mut KnownSymbols,
    own: &[Placed<'_>],
) -> bool
    requires { AreSymbolsKnown here.now known.old }
    ensures { result ≡ true → AreInOrder here.now memory.now
        (kept_relas (object_here here.now)) own.now }
{
    let mut relas = here.loaded.kept_relas();
    let mut low: u64 = 0;
    for placed in own {
        let section = placed.piece.section;
        if section < low || section == u64::MAX {
            return false;
        }
        let (mine, others) = relas.split_at(relas_of(relas, section));
        if !has_fields(memory, here, known, mine, placed) {
            return false;
        }
        relas = others;
        low = section + 1;
    }
    relas.is_empty()
}

/// Whether the kept relocations of object `number` are right, and memory holds the wanted bytes of its pieces. Where
/// fields don't rise it is false.
pub fn are_held_in_order<'a>(
    alloc: Global,
    bound: &BoundLink<'_, 'a>,
    number: u64,
    loaded: &Loaded<'a>,
    own: &[Placed<'a>],
) -> Result<bool, AllocError>
    requires there { slice_get (objects_of bound.now) number ≡ Some (loaded_view loaded.now) }
    requires own { AreOwn bound.now number (placed_views own.now) }
    ensures right { IfOk result (λ b. b ≡ true
        → AreRight (objects_of bound.now) (where_of bound.now)
        (relocations_from number (loaded_view loaded.now))) }
    ensures held { IfOk result (λ b. b ≡ true → AreHeld bound.now (placed_views own.now)) }
{
    let here = Referrer {
        bindings: bound.bindings(),
        number,
        loaded,
    };
    let mut known = unknown_symbols(alloc, &here)?;
    Ok(have_fields(bound.memory(), &here, &mut known, own))
}

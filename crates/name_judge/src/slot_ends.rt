//! Whether the names for the end of all and for where zeros begin leave out the slots that fields ask for.
ghost use Rattle.std.specs.Prelude.{◌≡◌, ◌↔◌, ◌≤◌, ℕ, All, IfSome, IsTrue};
ghost use Rattle.elf_model.specs.Link.LinkerValues.{start_of_pieces};
ghost use Rattle.judge_model.specs.Certificates.{name_row};
ghost use Rattle.judge_model.specs.Fill.{IsBehindSlots, SparesSlots};
ghost use Rattle.judge_model.specs.Links.{ForeignLink};
ghost use Rattle.judge_model.specs.Names.{is_some_zeros};
ghost use Rattle.link_fields.specs.Parts.{parts_of};
ghost use Rattle.link_fields.specs.Slots.{AreSlots};
ghost use Rattle.name_judge.specs.Bounds.{IsRowBehind, end_for};
ghost use Rattle.name_judge.specs.Clear.{IsEndOfSlots, IsInZeros, IsSlotBy};

use crate::nonempty::start_of_zeros;
use crate::rows::{bound_of, is_meant};
use elf_model::Bound;
use judge_model::NameLine;
use link_fields::LinkParts;

/// Whether an address is where zeros begin or behind.
fn is_in_zeros(zeros: Option<u64>, at: u64) -> bool
    ensures { IsTrue result ↔ IsInZeros zeros at }
{
    match zeros {
        Some(start) => start <= at,
        None => false,
    }
}

/// The greater of an end and that of a slot of eight bytes, unless this is among zeros.
fn further_slot(end: u128, slot: u64, zeros: Option<u64>) -> u128
    ensures { (v : ℕ) → (result ≤ v) ↔ ((end ≤ v) × IsSlotBy zeros v slot) }
{
    if is_in_zeros(zeros, slot) {
        return end;
    }
    end.max(slot as u128 + 8)
}

/// The greatest end of slots, of eight bytes each, that don't begin where zeros do or behind, where there are any; 0 without one.
fn end_of_slots(slots: &[u64], zeros: Option<u64>) -> u128
    ensures { IsEndOfSlots zeros slots.now result }
{
    let mut end = 0u128;
    for slot in slots {
        end = further_slot(end, *slot, zeros);
    }
    end
}

/// The end of what a bound is behind: of all slots, where it is the end of all; of those before zeros, where these begin.
fn end_for(all: u128, before: u128, bound: Bound) -> u128
    ensures { result ≡ end_for all before bound }
{
    match bound {
        Bound::ImageEnd => all,
        Bound::ZeroStart => before,
        Bound::ImageStart
        | Bound::CodeEnd
        | Bound::DataEnd
        | Bound::GotStart
        | Bound::OutputStart
        | Bound::OutputEnd => 0,
    }
}

/// Whether a value is at or behind the end of its bound.
fn is_behind(all: u128, before: u128, bound: Option<Bound>, value: u64) -> bool
    ensures { IsTrue result ↔ IfSome bound (λ b. end_for all before b ≤ value) }
{
    match bound {
        Some(kind) => end_for(all, before, kind) <= value as u128,
        None => true,
    }
}

/// Whether the value of a line is at an end or behind it, where its name is one for the end of all or for where zeros begin that
/// no object defines.
fn is_row_behind(parts: &LinkParts<'_, '_, '_>, all: u128, before: u128, row: &NameLine) -> bool
    ensures { IsTrue result ↔ IsRowBehind parts.now all before (name_row row.now) }
{
    let name = row.name.as_slice();
    if is_meant(parts.names, name) {
        return true;
    }
    is_behind(all, before, bound_of(parts.outputs, name), row.value)
}

fn are_rows_behind(
    parts: &LinkParts<'_, '_, '_>,
    all: u128,
    before: u128,
    rows: &[NameLine],
) -> bool
    ensures { IsTrue result ↔ All (λ r. IsRowBehind parts.now all before (name_row r)) rows.now }
{
    for row in rows {
        if !is_row_behind(parts, all, before, row) {
            return false;
        }
    }
    true
}

/// Where the zeros of a link begin; None without any.
fn zeros_of(parts: &LinkParts<'_, '_, '_>) -> Option<u64>
    ensures { result ≡ start_of_pieces is_some_zeros parts.now.placed }
{
    start_of_zeros(parts.addresses.placed())
}

/// Whether the names for the end of all, where no object defines them, are behind the slots that fields ask for, and no slot is
/// between the name for where zeros begin and these, nor behind it where there are none; given a link's parts and the
/// addresses of these slots.
pub fn do_bounds_spare_slots(parts: &LinkParts<'_, '_, '_>, slots: &[u64]) -> bool
    ensures { (l : ForeignLink) → parts_of l ≡ parts.now → AreSlots l slots.now
        → IsTrue result ↔ (All (IsBehindSlots l) l.certificate.names
        × All (SparesSlots l) l.certificate.names) }
{
    let all = end_of_slots(slots, None);
    let before = end_of_slots(slots, zeros_of(parts));
    are_rows_behind(parts, all, before, parts.rows)
}

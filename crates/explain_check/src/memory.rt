//! C7: a GOT that isn't where, or isn't what, the relocations ask for, slots that no relocation asks for or that stand twice, and
//! relocations that have none. C8: a block of thread-local storage that isn't as the placed pieces ask for it.
ghost use Rattle.std.specs.Prelude.{◌≡◌, ◌↔◌, IfSome, IsTrue, OnOk, Some};
ghost use Rattle.std.specs.List.{slice_get};
ghost use Rattle.elf_model.specs.Image.MemoryImage.{thread_blocks};
ghost use Rattle.elf_model.specs.Image.RightLink.{HoldsBefore, objects_of, placed_of, thread_data_end, where_of};
ghost use Rattle.elf_model.specs.Link.Slots.{got_bytes};
ghost use Rattle.elf_model.specs.declared.verdict.Clause.TheVariants as clause;
ghost use Rattle.linkmap.specs.Borrowed.{slot_row};
ghost use Rattle.check_link.specs.PieceParts.{AreInLimit, IsGotInLimit, IsInLimit};
ghost use Rattle.check_link.specs.Views.{placed_view};
ghost use Rattle.check_relocs.specs.Needs.{AreNeeds};
ghost use Rattle.checker.specs.ThreadBlock.{BeginsAfter, IsPlaceClear};
ghost use Rattle.explain_check.specs.Places.{AreFailures, FailsIn};

use crate::bytes::{at, byte_of, placed_at, sum, wrong_byte, wrong_number};
use crate::found::{Added, Found};
use crate::place::{ByteOf, CheckPlace, Failure, NumberName};
use crate::relocations::{place_at, referrer_at};
use check_link::{Part, Placed, base_of, end_of, request_of_line};
use check_load::KeptRelocation;
use check_relocs::{Needs, needs_of, request_of};
use checker::BoundLink;
use checker::c07_got::wanted_bytes;
use checker::c08_thread_block::{
    are_headers_right, begins_after, holds_initial, is_got_clear_of, is_place_clear_of,
    wanted_header,
};
use elf_model::ProgramHeader;
use linkmap::BorrowedSlot;
use std::collections::BTreeSet;

/// The slot line that has a number.
fn line_at<'m>(bound: &BoundLink<'_, 'm>, number: usize) -> Option<&'m BorrowedSlot<'m>>
    ensures { IfSome result (λ line. slice_get bound.now.map.slots number
        ≡ Some (slot_row line.now)) }
{
    bound.slots().lines().get(number)
}

/// The line that has a number, where it is for the slot of an earlier line, or no relocation asks for its slot.
fn wrong_line<'a>(bound: &BoundLink<'_, 'a>, needs: &Needs, number: usize) -> Failure<'a>
    requires { AreNeeds (objects_of bound.now) bound.now.map.slots needs.now }
    ensures { IfSome result (FailsIn bound.now) }
{
    let request = request_of_line(line_at(bound, number)?);
    let first = bound.slots().position(&request)?;
    if first != number {
        let first = Some(first as u64);
        return Some(CheckPlace::SlotLine(number as u64, first, request));
    }
    let asked = at(&needs.asked, first)?;
    if asked {
        return None;
    }
    Some(CheckPlace::SlotLine(number as u64, None, request))
}

/// A GOT that is there and that no relocation asks for, or the other way round.
fn wrong_presence<'a>(bound: &BoundLink<'_, 'a>, needs: &Needs) -> Failure<'a>
    requires { AreNeeds (objects_of bound.now) bound.now.map.slots needs.now }
    ensures { IfSome result (FailsIn bound.now) }
{
    let there = bound.link().map.got.is_some();
    if there == needs.got {
        return None;
    }
    Some(CheckPlace::Got(there))
}

/// Byte `k` of the GOT, which is to have these bytes, where memory has another one or none.
fn wrong_got_byte<'a>(bound: &BoundLink<'_, 'a>, wanted: &[u8], k: u64) -> Failure<'a>
    requires { wanted.now ≡ got_bytes (objects_of bound.now) (where_of bound.now) }
    ensures { IfSome result (FailsIn bound.now) }
{
    let got = bound.link().map.got?;
    if k >= got.size {
        return None;
    }
    let there = bound.memory().byte(sum(got.address, k)?);
    wrong_byte(bound, ByteOf::Got(got), k, there, Some(byte_of(wanted, k)))
}

/// The first wrong byte of word `i` of the GOT, which is to have these bytes.
fn first_of_word<'a>(bound: &BoundLink<'_, 'a>, wanted: &[u8], i: usize) -> Failure<'a>
    requires { wanted.now ≡ got_bytes (objects_of bound.now) (where_of bound.now) }
    ensures { IfSome result (FailsIn bound.now) }
{
    let from = (i as u64).checked_mul(8)?;
    for k in from..from.checked_add(8)? {
        let place = wrong_got_byte(bound, wanted, k);
        if place.is_some() {
            return place;
        }
    }
    None
}

/// A relocation that asks for a slot that isn't there, of the object that has a number.
fn no_slot<'a>(bound: &BoundLink<'_, 'a>, object: usize, relocation: &KeptRelocation) -> Failure<'a>
    ensures { IfSome result (FailsIn bound.now) }
{
    let here = referrer_at(bound.bindings(), object)?;
    let place = place_at(&here, relocation)?;
    let request = request_of(here.loaded, here.number, &place.entry)?;
    if bound.slots().has(&request) {
        return None;
    }
    Some(CheckPlace::NoSlot(place, request))
}

/// The PT_TLS header that is there and the wanted one, where they differ.
fn wrong_header<'a>(bound: &BoundLink<'_, 'a>) -> Failure<'a>
    requires { AreInLimit (placed_of bound.now) }
    ensures { IfSome result (FailsIn bound.now) }
{
    let headers = bound.memory().thread_blocks();
    let base = base_of(&bound.link().plan);
    if are_headers_right(headers, base, bound.placed()) {
        return None;
    }
    let wanted = wanted_header(base, bound.placed());
    Some(CheckPlace::ThreadHeader(at(headers, 0), wanted))
}

/// The PT_TLS header of the image.
fn header_there(bound: &BoundLink<'_, '_>) -> Option<ProgramHeader>
    ensures { IfSome result (λ h. slice_get (thread_blocks bound.now.image) 0 ≡ Some h) }
{
    bound.memory().thread_blocks().get(0).copied()
}

/// The GOT, where it has an address from the beginning of the block on and below `end`, the end of its initial bytes.
fn inner_got<'a>(bound: &BoundLink<'_, 'a>, end: u64) -> Failure<'a>
    requires got { IsGotInLimit bound.now.map.got }
    requires data_end { end ≡ thread_data_end bound.now }
    ensures { IfSome result (FailsIn bound.now) }
{
    let start = header_there(bound)?.p_vaddr;
    let got = &bound.link().map.got;
    if is_got_clear_of(start, end, got) {
        return None;
    }
    let at = bound.bindings().got_start();
    Some(CheckPlace::InThreadBlock(None, at, start, end))
}

/// Whether a piece that isn't thread-local has no address from `start` on and below `end`, and one of thread-local zeros
/// begins there or later.
fn is_out_of(start: u64, end: u64, placed: &Placed<'_>) -> bool
    requires { IsInLimit (placed_view placed.now) }
    ensures { IsTrue result ↔ (BeginsAfter end (placed_view placed.now)
        × IsPlaceClear start end (placed_view placed.now)) }
{
    begins_after(end, placed) && is_place_clear_of(start, end, placed)
}

/// The piece that has a number, where it stands among the block's initial bytes, or before their end if it has none.
fn inner_piece<'a>(bound: &BoundLink<'_, 'a>, end: u64, number: usize) -> Failure<'a>
    requires pieces { AreInLimit (placed_of bound.now) }
    requires data_end { end ≡ thread_data_end bound.now }
    ensures { IfSome result (FailsIn bound.now) }
{
    let start = header_there(bound)?.p_vaddr;
    let placed = placed_at(bound.placed(), number)?;
    if is_out_of(start, end, &placed) {
        return None;
    }
    Some(CheckPlace::InThreadBlock(Some(placed), placed.at, start, end))
}

/// A block whose initial bytes no PT_LOAD holds.
fn unheld<'a>(bound: &BoundLink<'_, 'a>) -> Failure<'a>
    ensures { IfSome result (FailsIn bound.now) }
{
    let header = header_there(bound)?;
    if holds_initial(bound.memory(), &header) {
        return None;
    }
    Some(CheckPlace::ThreadBytes(header))
}

impl<'a> Found<'a> {
    /// Adds the relocations that ask for slots that aren't there, the first for each slot.
    fn add_unserved(&mut self, bound: &BoundLink<'_, 'a>) -> Added
        requires { AreFailures bound.now self.old.places.items }
        ensures { OnOk result (AreFailures bound.now self.new.places.items) }
    {
        let mut told = BTreeSet::new(self.alloc);
        for (object, one) in bound.bindings().objects().iter().enumerate() {
            for relocation in one.relocations() {
                let Some(request) = request_of(one, object as u64, &relocation.entry) else {
                    continue;
                };
                if !bound.slots().has(&request) && told.insert(request)? {
                    self.add_some(no_slot(bound, object, &relocation))?;
                }
            }
        }
        Ok(())
    }

    /// Adds where the seventh clause fails: the GOT as a whole, relocations without a slot, the GOT's size, and slot by slot the
    /// line, the address and the bytes, those of the GOT's first word with the first slot.
    pub(crate) fn add_c7(&mut self, bound: &BoundLink<'_, 'a>) -> Added
        requires { AreFailures bound.now self.old.places.items }
        ensures { OnOk result (AreFailures bound.now self.new.places.items) }
    {
        let needs = needs_of(self.alloc, bound.bindings())?;
        let slots = bound.slots().lines();
        let wanted = wanted_bytes(self.alloc, bound.bindings(), slots)?;
        self.add_some(wrong_presence(bound, &needs))?;
        self.add_unserved(bound)?;
        self.add_some(wrong_number(bound, NumberName::GotSize))?;
        for number in 0..wanted.len() / 8 {
            self.add_some(wrong_line(bound, &needs, number))?;
            let address = NumberName::SlotAddress(number as u64);
            self.add_some(wrong_number(bound, address))?;
            self.add_some(first_of_word(bound, &wanted, number))?;
        }
        Ok(())
    }

    /// Adds where the eighth clause fails.
    pub(crate) fn add_c8(&mut self, bound: &BoundLink<'_, 'a>) -> Added
        requires before { AreFailures bound.now self.old.places.items }
        requires clauses { HoldsBefore clause.C8 bound.now }
        ensures { OnOk result (AreFailures bound.now self.new.places.items) }
    {
        let end = end_of(Part::ThreadData, bound.placed());
        self.add_some(wrong_header(bound))?;
        self.add_some(inner_got(bound, end))?;
        for number in 0..bound.placed().len() {
            self.add_some(inner_piece(bound, end, number))?;
        }
        self.add_some(unheld(bound))
    }
}

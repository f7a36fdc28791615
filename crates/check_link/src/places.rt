//! The addresses of placed pieces, found by their sections.
ghost use Rattle.std.specs.Prelude.{◌≡◌, ◌==◌, ◌&&◌, ℕ, IfOk, None, OnOk, Option, Some, cond, find, map, option_map, unwrap_or};
ghost use Rattle.std.specs.Option.{option_or};
ghost use Rattle.elf_model.specs.Link.LinkerValues.{bound_value, end_of_pieces, start_of_pieces};
ghost use Rattle.elf_model.specs.Link.Pieces.{is_of_output};
ghost use Rattle.elf_model.specs.Link.Placement.{got_start, is_of_section};
ghost use Rattle.linkmap.specs.Borrowed.{slot_row};
ghost use Rattle.check_link.specs.PieceParts.{AreInLimit, IsGotInLimit};
ghost use Rattle.check_link.specs.PlaceIndex.{IsPlaceIndex, address_in};
ghost use Rattle.check_link.specs.ThreadStorage.{thread_pointer};
ghost use Rattle.check_link.specs.Views.{placed_view, placed_views};

use crate::bounds::{Bounds, Span, bounds_of, spans_of};
use crate::linker_names::named_output;
use crate::things::Placed;
use crate::thread_storage::thread_pointer;
use elf_model::{Bound, GotLine};
use linkmap::BorrowedSlot;
use std::alloc::{AllocError, Global};
use std::collections::{BTreeMap, HashMap};
use std::marker::Model;

/// The base, pieces at addresses and the GOT with its slots, with an index of the addresses by object and section, the
/// bounds of parts and of output names, and the thread pointer.
#[derive(Drop)]
pub struct Places<'p, 'a> {
    base: u64,
    placed: &'p [Placed<'a>],
    got: Option<GotLine>,
    slots: &'p [BorrowedSlot<'a>],
    addresses: HashMap<(u64, u64), u64>,
    bounds: Bounds,
    spans: BTreeMap<&'a [u8], Span>,
    thread_pointer: u64,
}

impl<'p, 'a> Model for Places<'p, 'a> {
    ghost use Rattle.std.specs.Prelude.{map};
    ghost use Rattle.elf_model.specs.Link.Placement.{Where};
    ghost use Rattle.linkmap.specs.Borrowed.{slot_row};
    ghost use Rattle.check_link.specs.PlaceIndex.{ArePlaces};
    ghost use Rattle.check_link.specs.Views.{placed_views};

    ghost Value = { Where };

    ghost view = { λ p. record { base = p.base; placed = placed_views p.placed.now; got = p.got; slots = map slot_row p.slots.now } };

    ghost invariant = { λ p. ArePlaces (placed_views p.placed.now) p.got p.addresses p.bounds p.spans p.thread_pointer };
}

impl<'p, 'a> Places<'p, 'a> {
    /// An index of pieces at addresses, in an image that begins at the base and has the GOT with its slots.
    pub fn new(
        alloc: Global,
        base: u64,
        placed: &'p [Placed<'a>],
        got: Option<GotLine>,
        slots: &'p [BorrowedSlot<'a>],
    ) -> Result<Places<'p, 'a>, AllocError>
        requires pieces { AreInLimit (placed_views placed.now) }
        requires got { IsGotInLimit got }
        ensures { IfOk result (λ p. p
            ≡ record {
              base = base;
              placed = placed_views placed.entry.now;
              got = got;
              slots = map slot_row slots.entry.now;
            }) }
    {
        let addresses = index_places(alloc, placed)?;
        let spans = spans_of(alloc, placed)?;
        Ok(Places {
            base,
            placed,
            got,
            slots,
            addresses,
            bounds: bounds_of(placed, got),
            spans,
            thread_pointer: thread_pointer(placed),
        })
    }

    /// Where the pieces of an output name begin, 0 without any.
    fn output_start(&self, name: &[u8]) -> u64
        ensures { result ≡ unwrap_or (start_of_pieces (is_of_output name.now) self.now.placed) 0 }
    {
        match self.spans.get(name) {
            Some(span) => span.start,
            None => 0,
        }
    }

    /// Where they end, 0 without any.
    fn output_end(&self, name: &[u8]) -> u64
        ensures { result ≡ end_of_pieces (is_of_output name.now) self.now.placed }
    {
        match self.spans.get(name) {
            Some(span) => span.end,
            None => 0,
        }
    }

    /// The address of the GOT, 0 without one.
    pub fn got_start(&self) -> u64
        ensures { result ≡ got_start self.now.got }
    {
        match self.got {
            Some(got) => got.address,
            None => 0,
        }
    }

    /// The thread pointer, modulo 2^64; 0 without thread-local pieces.
    pub fn thread_pointer(&self) -> u64
        ensures { result ≡ thread_pointer self.now.placed }
    {
        self.thread_pointer
    }

    /// Where the bound is for which a name of the linker's stands.
    pub fn bound(&self, name: &[u8], bound: Bound) -> u64
        ensures { result ≡ bound_value self.now name.now bound }
    {
        match bound {
            Bound::ImageStart => self.base,
            Bound::CodeEnd => self.bounds.code_end,
            Bound::DataEnd => self.bounds.data_end,
            Bound::ZeroStart => self.bounds.zero_start,
            Bound::ImageEnd => self.bounds.image_end,
            Bound::GotStart => self.got_start(),
            Bound::OutputStart => self.output_start(named_output(name)),
            Bound::OutputEnd => self.output_end(named_output(name)),
        }
    }

    /// The address of a section, where it is placed.
    pub fn address(&self, object: u64, section: u64) -> Option<u64>
        ensures { result ≡ option_map (λ q. q.at)
            (find (is_of_section object section) self.now.placed) }
    {
        self.addresses.get(&(object, section)).copied()
    }
}

/// Puts a placed piece into the index, unless one of its section is there.
fn add_place(
    addresses: &mut HashMap<(u64, u64), u64>,
    placed: &Placed<'_>,
) -> Result<(), AllocError>
    ensures { OnOk result ((object section : ℕ) →
        address_in addresses.new object section
        ≡ option_or (address_in addresses.old object section)
        (cond (is_of_section object section (placed_view placed.now)) (Some placed.now.at) None)) }
{
    let key = (placed.piece.object, placed.piece.section);
    if !addresses.contains_key(&key) {
        addresses.insert(key, placed.at)?;
    }
    Ok(())
}

/// The address of the first piece of each section.
fn index_places(
    alloc: Global,
    placed: &[Placed<'_>],
) -> Result<HashMap<(u64, u64), u64>, AllocError>
    ensures { IfOk result (IsPlaceIndex (placed_views placed.now)) }
{
    let mut addresses = HashMap::with_capacity(alloc, placed.len())?;
    for q in placed {
        add_place(&mut addresses, q)?;
    }
    Ok(addresses)
}

//! Numbers and bytes that aren't the wanted ones. C10: the first wrong byte of each piece. C11: PT_LOADs and a file that don't
//! end as they should, and bytes of the file and of memory that are neither of a thing nor fill, the first of each gap.
ghost use Rattle.std.specs.Prelude.{◌≡◌, ◌+◌, ◌-◌, ◌↔◌, ◌≤◌, ◌⊎◌, All, Any, IfSome, IsTrue, OnOk};
ghost use Rattle.std.specs.Prelude.{Some, cond, find, option_copied, option_map, slice_index};
ghost use Rattle.std.specs.List.{slice_get};
ghost use Rattle.byteview.specs.Numbers.{le_bytes};
ghost use Rattle.elf_model.specs.Image.MemoryImage.{loads};
ghost use Rattle.elf_model.specs.Image.RightLink.{IsInFilePart, fill_of, objects_of, where_of};
ghost use Rattle.elf_model.specs.Link.Placement.{Covers};
ghost use Rattle.loader_model.specs.Rights as loader;
ghost use Rattle.check_link.specs.Views.{placed_view, placed_views};
ghost use Rattle.check_relocs.specs.Bytes as bytes;
ghost use Rattle.check_relocs.specs.Fields.{AreRows};
ghost use Rattle.explain_check.specs.Places.{AreFailures, FailsIn, IsAmong, IsWanted, byte_there, number_there, number_wanted};

use crate::found::{Added, Found};
use crate::place::NumberName::{HeadersCount, HeadersOffset, NamesSection};
use crate::place::{ByteOf, BytePlace, CheckPlace, Failure, NumberName};
use crate::relocations::field_place;
use check_link::{Placed, load_size};
use check_relocs::{Field, fields_in};
use check_stages::file_end;
use checker::BoundLink;
use checker::c11_fill::{begun_between, ends_right, is_of_segment};
use elf_model::{ProgramHeader, Thing};
use loader_model::{Memory, Rights};

/// A number as the map or the image has it.
fn number_there(bound: &BoundLink<'_, '_>, name: NumberName) -> Option<u64>
    ensures { IfSome result (λ n. number_there bound.now name ≡ Some n) }
{
    let (map, memory) = (&bound.link().map, bound.memory());
    let number = match name {
        NumberName::GotSize => map.got?.size,
        NumberName::SlotAddress(k) => bound.slots().lines().get(k as usize)?.address,
        NumberName::Length => memory.image().len() as u64,
        NumberName::TableOffset => map.symtab?.offset,
        NumberName::TableCount => map.symtab?.count,
        NumberName::HeadersOffset => memory.header().e_shoff,
        NumberName::HeadersCount => memory.header().e_shnum as u64,
        NumberName::NamesSection => memory.header().e_shstrndx as u64,
    };
    Some(number)
}

/// A number as it should be, but for where a symbol table is and how many entries it has.
fn wanted_number(bound: &BoundLink<'_, '_>, name: NumberName) -> Option<u64>
    ensures { IfSome result (λ n. number_wanted bound.now name ≡ Some n) }
{
    let map = &bound.link().map;
    match (name, map.symtab) {
        (NumberName::GotSize, _) => {
            let slots = (bound.slots().lines().len() as u64).checked_mul(8)?;
            slots.checked_add(8)
        }
        (NumberName::SlotAddress(k), _) => {
            let behind = k.checked_mul(8)?.checked_add(8)?;
            map.got?.address.checked_add(behind)
        }
        (NumberName::Length, None) => Some(file_end(bound.memory())),
        (HeadersCount, Some(_)) => Some(4),
        (NamesSection, Some(_)) => Some(3),
        (HeadersOffset | HeadersCount | NamesSection, None) => Some(0),
        _ => None,
    }
}

/// A number that isn't as it should be, where that is told without a symbol table.
pub fn wrong_number<'a>(bound: &BoundLink<'_, 'a>, name: NumberName) -> Failure<'a>
    ensures { IfSome result (FailsIn bound.now) }
{
    other_number(bound, name, wanted_number(bound, name)?)
}

/// A number that isn't the wanted one.
pub fn other_number<'a>(bound: &BoundLink<'_, 'a>, name: NumberName, wanted: u64) -> Failure<'a>
    requires { number_wanted bound.now name ≡ Some wanted }
    ensures { IfSome result (FailsIn bound.now) }
{
    let number = number_there(bound, name)?;
    if number == wanted {
        return None;
    }
    Some(CheckPlace::Number(name, number, wanted))
}

/// A byte, where there is another one than the wanted one or none, or where there should be none.
pub fn wrong_byte<'a>(
    bound: &BoundLink<'_, 'a>,
    of: ByteOf<'a>,
    offset: u64,
    there: Option<u8>,
    wanted: Option<u8>,
) -> Failure<'a>
    requires there { there ≡ byte_there bound.now of offset }
    requires wanted { IsWanted bound.now of offset wanted }
    ensures { IfSome result (FailsIn bound.now) }
{
    let _bound = bound;
    if there == wanted {
        return None;
    }
    let place = BytePlace {
        offset,
        there,
        wanted,
    };
    Some(CheckPlace::Byte(of, place))
}

/// The element that has a number.
pub fn at<T: Copy>(xs: &[T], k: usize) -> Option<T>
    ensures { result ≡ slice_get xs.now k }
{
    xs.get(k).copied()
}

/// The sum of two numbers; None where it has more than 64 bits.
pub fn sum(a: u64, b: u64) -> Option<u64>
    ensures { IfSome result (λ n. n ≡ a + b) }
{
    a.checked_add(b)
}

/// Byte `k` of a run; 0 past its end.
pub fn byte_of(run: &[u8], k: u64) -> u8
    ensures { result ≡ slice_index run.now k }
{
    match run.get(k as usize) {
        Some(byte) => *byte,
        None => 0,
    }
}

/// Whether byte `k` of a section lies in a field.
fn covers(field: &Field, k: u64) -> bool
    ensures { result ≡ bytes.covers k field.now }
{
    field.at <= k && k - field.at < field.width as u64
}

/// The first of the fields in which byte `k` of their section lies.
fn field_over(fields: &[Field], k: u64) -> Option<&Field>
    ensures { option_copied result ≡ find (bytes.covers k) fields.now }
{
    fields.iter().find(|f| covers(f, k))
}

/// Byte `k` of a field's value, counted from the beginning of its section, the least significant first.
fn byte_in(field: &Field, k: u64) -> Option<u8>
    ensures { IfSome result (λ b. b
        ≡ slice_index (le_bytes field.now.width field.now.value) (k - field.now.at)) }
{
    if field.width > 8 {
        return None;
    }
    let spelled = field.value.to_le_bytes();
    let (low, _high) = spelled.split_at(field.width as usize);
    Some(byte_of(low, k.saturating_sub(field.at)))
}

/// Byte `k` that fields want of a section that has these bytes: that of a field's value, else the section's own.
fn wanted_with(own: &[u8], fields: &[Field], k: u64) -> Option<u8>
    ensures { IfSome result (λ b. b ≡ bytes.byte_of own.now k (find (bytes.covers k) fields.now)) }
{
    match field_over(fields, k) {
        Some(field) => byte_in(field, k),
        None => Some(byte_of(own, k)),
    }
}

/// The first of the indices below an end, from one on, at which what memory holds of a section isn't what a field and its own bytes
/// want.
fn first_between(held: &[u8], own: &[u8], near: &[Field], from: u64, to: u64) -> Option<u64> {
    (from..to).find(|k| wanted_with(own, near, *k) != Some(byte_of(held, *k)))
}

/// The first index below a size at which what memory holds of a section isn't what its fields, which are in order, and its own bytes
/// want; bytes past an end count as 0. After both ends only fields are looked at, since all else is 0 and wanted so.
fn first_unwanted(held: &[u8], own: &[u8], fields: &[Field], size: u64) -> Option<u64> {
    let end = held.len().max(own.len()) as u64;
    let mut from = 0;
    for i in 0..=fields.len() {
        let near = &fields[i..fields.len().min(i + 1)];
        let at = near.first().map_or(size, |f| f.at);
        let to = near
            .first()
            .map_or(size, |f| f.at.saturating_add(f.width as u64));
        let before = first_between(held, own, near, from, at.min(end));
        if before.is_some() {
            return before;
        }
        let inside = first_between(held, own, near, from.max(at), to);
        if inside.is_some() {
            return inside;
        }
        from = to;
    }
    None
}

/// The piece that has a number among pieces.
pub fn placed_at<'a>(pieces: &[Placed<'a>], k: usize) -> Option<Placed<'a>>
    ensures { slice_get (placed_views pieces.now) k ≡ option_map placed_view result }
{
    pieces.get(k).copied()
}

/// The first wrong byte of the piece that has a number. The relocation in whose field it lies is left out where the place is
/// only counted.
fn wrong_piece<'a>(
    bound: &BoundLink<'_, 'a>,
    rows: &[Vec<Field>],
    number: usize,
    told: bool,
) -> Failure<'a>
    requires { AreRows (objects_of bound.now) (where_of bound.now) rows.now }
    ensures { IfSome result (FailsIn bound.now) }
{
    let placed = placed_at(bound.placed(), number)?;
    let piece = &placed.piece;
    let fields = fields_in(rows, piece.object, piece.section);
    let size = load_size(piece);
    let held = bound.memory().run(placed.at, size)?;
    let k = first_unwanted(held.bytes, piece.bytes, fields, size)?;
    if k >= size {
        return None;
    }
    let there = bound.memory().byte(sum(placed.at, k)?);
    let wanted = wanted_with(piece.bytes, fields, k)?;
    let relocation = field_place(bound, piece.object, piece.section, k, told);
    let of = ByteOf::Piece(number as u64, placed, relocation);
    wrong_byte(bound, of, k, there, Some(wanted))
}

/// Whether a thing is a nonempty one of a segment, and has bytes in the file, where this is asked for.
fn is_among(segment: &ProgramHeader, thing: &Thing, in_file: bool) -> bool
    ensures { IsTrue result ↔ IsAmong in_file segment.now thing.now }
{
    is_of_segment(segment, thing) && (!in_file || thing.in_file)
}

/// Whether one of these things ends at an address, or the segment begins there.
fn is_end(things: &[Thing], segment: &ProgramHeader, in_file: bool, end: u64) -> bool
    ensures { IsTrue result ↔ ((end ≡ segment.now.p_vaddr)
        ⊎ Any (λ t. IsAmong in_file segment.now t × (t.at + t.size ≡ end)) things.now) }
{
    end == segment.p_vaddr
        || things.iter().any(|t| is_among(segment, t, in_file)
            && t.at <= end
            && end - t.at == t.size)
}

/// Whether none of these things ends above an address.
fn has_none_later(things: &[Thing], segment: &ProgramHeader, in_file: bool, end: u64) -> bool
    ensures { IsTrue result ↔ All
        (λ t. IsAmong in_file segment.now t → t.at + t.size ≤ end) things.now }
{
    things.iter().all(|t| !is_among(segment, t, in_file) || t.at <= end && t.size <= end - t.at)
}

/// Where the last of these things ends, or the segment begins if it has none.
fn last_end(things: &[Thing], segment: &ProgramHeader, in_file: bool) -> u64 {
    let among = things.iter().filter(|t| is_among(segment, t, in_file));
    let last = among.map(|t| t.at.saturating_add(t.size)).max();
    last.unwrap_or(segment.p_vaddr)
}

/// The size of a segment in memory, or in the file.
fn size_in(segment: &ProgramHeader, in_file: bool) -> u64
    ensures { result ≡ cond in_file segment.now.p_filesz segment.now.p_memsz }
{
    if in_file {
        segment.p_filesz
    } else {
        segment.p_memsz
    }
}

/// How the PT_LOAD that has a number ends, or its file part, otherwise than where the things in it do.
fn wrong_end<'a>(bound: &BoundLink<'_, 'a>, number: usize, in_file: bool) -> Failure<'a>
    ensures { IfSome result (FailsIn bound.now) }
{
    let header = at(bound.memory().segments(), number)?;
    let things = bound.things();
    let end = last_end(things, &header, in_file);
    if ends_right(things, &header) || sum(header.p_vaddr, size_in(&header, in_file))? == end {
        return None;
    }
    if !is_end(things, &header, in_file, end) || !has_none_later(things, &header, in_file, end) {
        return None;
    }
    Some(CheckPlace::SegmentEnd(number as u64, header, in_file, end))
}

/// Whether an address lies in no thing.
fn is_outside(things: &[Thing], address: u64) -> bool
    ensures { IsTrue result ↔ All (λ t. ¬ Covers t address) things.now }
{
    things
        .iter()
        .all(|t| address < t.at || address - t.at >= t.size)
}

/// Rights as the sum of X 1, W 2 and R 4.
fn rights_sum(rights: Rights) -> u64
    ensures { result ≡ loader.rights_sum rights }
{
    match rights {
        Rights::Read => 4,
        Rights::ReadExecute => 5,
        Rights::ReadWrite => 6,
    }
}

/// The byte that fills memory of these rights.
fn fill_of(rights: u64) -> u8
    ensures { result ≡ fill_of rights }
{
    if rights == 5 { 0x90 } else { 0 }
}

/// An address that is mapped and lies in no thing, where its byte isn't fill.
fn wrong_fill<'a>(bound: &BoundLink<'_, 'a>, address: u64) -> Failure<'a>
    ensures { IfSome result (FailsIn bound.now) }
{
    let memory = bound.memory();
    let rights = rights_sum(memory.rights(address)?);
    if !is_outside(bound.things(), address) {
        return None;
    }
    let (there, wanted) = (memory.byte(address), Some(fill_of(rights)));
    wrong_byte(bound, ByteOf::Fill(rights), address, there, wanted)
}

/// The first address from one on and below another, all of one segment, whose byte isn't fill.
fn first_unfilled(memory: &Memory<'_>, from: u64, to: u64, fill: u8) -> Option<u64> {
    let run = memory.run(from, to.checked_sub(from)?)?;
    match run.bytes.iter().position(|b| *b != fill) {
        Some(k) => Some(from.saturating_add(k as u64)),
        None if run.zeros > 0 && fill != 0 => Some(from.saturating_add(run.bytes.len() as u64)),
        None => None,
    }
}

/// Whether an offset lies in no file part.
fn is_in_no_part(segments: &[ProgramHeader], i: u64) -> bool
    ensures { IsTrue result ↔ All (λ h. ¬ IsInFilePart h i) segments.now }
{
    segments
        .iter()
        .all(|h| i < h.p_offset || i - h.p_offset >= h.p_filesz)
}

/// The byte of the file at an offset, where that is in no file part and below the end of the last, and the byte isn't 0.
fn wrong_gap<'a>(bound: &BoundLink<'_, 'a>, i: u64) -> Failure<'a>
    ensures { IfSome result (FailsIn bound.now) }
{
    let memory = bound.memory();
    if i >= file_end(memory) || !is_in_no_part(memory.segments(), i) {
        return None;
    }
    let there = Some(byte_of(memory.image(), i));
    wrong_byte(bound, ByteOf::Gap, i, there, Some(0))
}

impl<'a> Found<'a> {
    /// Adds the first wrong byte of each piece: where the tenth clause fails, given the fields of the link's relocations by
    /// objects.
    pub(crate) fn add_c10(&mut self, bound: &BoundLink<'_, 'a>, rows: &[Vec<Field>]) -> Added
        requires before { AreFailures bound.now self.old.places.items }
        requires rows { AreRows (objects_of bound.now) (where_of bound.now) rows.now }
        ensures { OnOk result (AreFailures bound.now self.new.places.items) }
    {
        for number in 0..bound.placed().len() {
            let place = wrong_piece(bound, rows, number, !self.is_full());
            self.add_some(place)?;
        }
        Ok(())
    }

    /// Adds the bytes of the file between its parts that aren't 0, the first of each gap.
    fn add_gaps(&mut self, bound: &BoundLink<'_, 'a>) -> Added
        requires { AreFailures bound.now self.old.places.items }
        ensures { OnOk result (AreFailures bound.now self.new.places.items) }
    {
        let image = bound.memory().image();
        let mut from = 0;
        for segment in bound.memory().segments() {
            if segment.p_filesz == 0 {
                continue;
            }
            let mut gap = from..segment.p_offset;
            let first = gap.find(|i| byte_of(image, *i) != 0);
            from = from.max(segment.p_offset.saturating_add(segment.p_filesz));
            let Some(i) = first else {
                continue;
            };
            if self.is_full() {
                self.count();
                continue;
            }
            self.add_some(wrong_gap(bound, i))?;
        }
        Ok(())
    }

    /// Adds the bytes that aren't fill between the things of a segment, the first of each gap.
    fn add_unfilled(&mut self, bound: &BoundLink<'_, 'a>, segment: &ProgramHeader) -> Added
        requires { AreFailures bound.now self.old.places.items }
        ensures { OnOk result (AreFailures bound.now self.new.places.items) }
    {
        let fill = fill_of(segment.p_flags as u64);
        let top = segment.p_vaddr.saturating_add(segment.p_memsz);
        let things = begun_between(bound.things_by_address(), segment.p_vaddr, top);
        let mut from = segment.p_vaddr;
        for i in 0..=things.len() {
            let next = things.get(i).copied();
            let to = next.map_or(top, |t| t.at);
            let first = first_unfilled(bound.memory(), from, to, fill);
            from = from.max(next.map_or(top, |t| t.at.saturating_add(t.size)));
            let Some(address) = first else {
                continue;
            };
            if self.is_full() {
                self.count();
                continue;
            }
            self.add_some(wrong_fill(bound, address))?;
        }
        Ok(())
    }

    /// Adds where the eleventh clause fails.
    pub(crate) fn add_c11(&mut self, bound: &BoundLink<'_, 'a>) -> Added
        requires { AreFailures bound.now self.old.places.items }
        ensures { OnOk result (AreFailures bound.now self.new.places.items) }
    {
        for number in 0..bound.memory().segments().len() {
            self.add_some(wrong_end(bound, number, false))?;
            self.add_some(wrong_end(bound, number, true))?;
        }
        self.add_some(wrong_number(bound, NumberName::Length))?;
        self.add_gaps(bound)?;
        for segment in bound.memory().segments() {
            self.add_unfilled(bound, segment)?;
        }
        Ok(())
    }
}

//! The lines of merged strings and constants, found by bisection.
ghost use Rattle.std.specs.Prelude.{◌≡◌, ◌≤◌, ◌<◌, ◌+◌, ◌-◌, ℕ, None, Some, cond, false, length, slice_index_or, true};
ghost use Rattle.elf_model.specs.Image.MapText.{Ascends};
ghost use Rattle.judge_model.specs.Certificates.{MergedBefore, is_line_with, merged_at};
ghost use Rattle.link_fields.specs.MergedLines.{ends_before};

use judge_model::MergedLine;
use std::marker::Model;

/// The lines of merged strings and constants, by rising object, section and offset, no two of one byte.
#[derive(Drop)]
pub struct MergedLines<'m> {
    lines: &'m [MergedLine],
}

impl<'m> Model for MergedLines<'m> {
    ghost use Rattle.std.specs.Prelude.{List};
    ghost use Rattle.elf_model.specs.Image.MapText.{Ascends};
    ghost use Rattle.judge_model.specs.Certificates.{MergedBefore};
    ghost use Rattle.judge_model.specs.declared.certificate.MergedLine.{MergedLine};

    ghost Value = { List MergedLine };

    ghost view = { λ m. m.lines.now };

    ghost invariant = { λ m. Ascends MergedBefore m.lines.now };
}

/// Whether a line ends at or before an offset of a section.
fn ends_before(line: &MergedLine, object: u64, section: u64, offset: u128) -> bool
    ensures { result ≡ ends_before object section offset line.now }
{
    if line.object != object {
        return line.object < object;
    }
    if line.section != section {
        return line.section < section;
    }
    line.offset as u128 + line.size as u128 <= offset
}

/// How many of the lines end at or before an offset of a section.
fn count_before(lines: &[MergedLine], object: u64, section: u64, offset: u128) -> usize
    requires { Ascends MergedBefore lines.now }
    ensures before { (k : ℕ) (d : MergedLine) → k < result
        → ends_before object section offset (slice_index_or lines.now k d) ≡ true }
    ensures behind { (k : ℕ) (d : MergedLine) → result ≤ k → k < length lines.now
        → ends_before object section offset (slice_index_or lines.now k d) ≡ false }
{
    lines.partition_point(|line| ends_before(line, object, section, offset))
}

/// Whether a line has a byte of a section.
fn is_line_with(line: &MergedLine, object: u64, section: u64, offset: u128) -> bool
    ensures { result ≡ is_line_with object section offset line.now }
{
    if line.object != object || line.section != section {
        return false;
    }
    line.offset as u128 <= offset && offset < line.offset as u128 + line.size as u128
}

/// Where a line that has a byte of a section has it.
fn address_by(line: &MergedLine, offset: u128) -> u128
    requires front { line.now.offset ≤ offset }
    requires inside { offset < line.now.offset + line.now.size }
    ensures { result ≡ line.now.address + (offset - line.now.offset) }
{
    line.address as u128 + (offset - line.offset as u128)
}

/// Where a line has a byte of a section; None where it hasn't.
fn address_in(line: &MergedLine, object: u64, section: u64, offset: u128) -> Option<u128>
    ensures { result ≡ cond (is_line_with object section offset line.now)
        (Some (line.now.address + (offset - line.now.offset))) None }
{
    if is_line_with(line, object, section, offset) {
        Some(address_by(line, offset))
    } else {
        None
    }
}

/// The address of what a section has at an offset, by its line; None without one.
fn address_at(lines: &[MergedLine], object: u64, section: u64, offset: u128) -> Option<u128>
    requires { Ascends MergedBefore lines.now }
    ensures { result ≡ merged_at lines.now object section offset }
{
    match lines.get(count_before(lines, object, section, offset)) {
        Some(line) => address_in(line, object, section, offset),
        None => None,
    }
}

impl<'m> MergedLines<'m> {
    /// Lines that come by object, section and offset.
    pub fn new(lines: &'m [MergedLine]) -> MergedLines<'m>
        requires { Ascends MergedBefore lines.now }
        ensures { result ≡ lines.entry.now }
    {
        MergedLines { lines }
    }

    /// The lines.
    pub fn lines(&self) -> &'m [MergedLine]
        ensures { result.now ≡ self.entry.now }
    {
        self.lines
    }

    /// The address of what a section has at an offset, by its line; None without one. It takes the logarithm of the number of lines.
    pub fn at(&self, object: u64, section: u64, offset: u128) -> Option<u128>
        ensures { result ≡ merged_at self.now object section offset }
    {
        address_at(self.lines, object, section, offset)
    }
}

//! The lines of the sections that are left out, found by bisection.
ghost use Rattle.std.specs.Prelude.{◌≡◌, ◌≤◌, ◌<◌, ℕ, false, length, slice_index_or, true};
ghost use Rattle.elf_model.specs.Image.MapText.{Ascends, DropBefore};
ghost use Rattle.judge_model.specs.Certificates.{is_left_out};
ghost use Rattle.link_fields.specs.Drops.{is_before, is_of};

use elf_model::DropLine;
use std::marker::Model;

/// The lines of the sections that are left out, by rising object and section.
#[derive(Drop)]
pub struct Drops<'d> {
    lines: &'d [DropLine],
}

impl<'d> Model for Drops<'d> {
    ghost use Rattle.std.specs.Prelude.{List};
    ghost use Rattle.elf_model.specs.Image.MapText.{Ascends, DropBefore};
    ghost use Rattle.elf_model.specs.declared.link_map.DropLine.{DropLine};

    ghost Value = { List DropLine };

    ghost view = { λ d. d.lines.now };

    ghost invariant = { λ d. Ascends DropBefore d.lines.now };
}

/// Whether a line is of a section before one.
fn is_before(line: &DropLine, object: u64, section: u64) -> bool
    ensures { result ≡ is_before object section line.now }
{
    line.object < object || (line.object == object && line.section < section)
}

/// How many of the lines are of sections before one.
fn count_before(lines: &[DropLine], object: u64, section: u64) -> usize
    requires { Ascends DropBefore lines.now }
    ensures before { (k : ℕ) (d : DropLine) → k < result
        → is_before object section (slice_index_or lines.now k d) ≡ true }
    ensures behind { (k : ℕ) (d : DropLine) → result ≤ k → k < length lines.now
        → is_before object section (slice_index_or lines.now k d) ≡ false }
{
    lines.partition_point(|line| is_before(line, object, section))
}

fn is_of(line: &DropLine, object: u64, section: u64) -> bool
    ensures { result ≡ is_of object section line.now }
{
    line.object == object && line.section == section
}

/// Whether a section has one of the lines.
fn is_out(lines: &[DropLine], object: u64, section: u64) -> bool
    requires { Ascends DropBefore lines.now }
    ensures { result ≡ is_left_out lines.now object section }
{
    match lines.get(count_before(lines, object, section)) {
        Some(line) => is_of(line, object, section),
        None => false,
    }
}

impl<'d> Drops<'d> {
    /// Lines that come by object and section.
    pub fn new(lines: &'d [DropLine]) -> Drops<'d>
        requires { Ascends DropBefore lines.now }
        ensures { result ≡ lines.entry.now }
    {
        Drops { lines }
    }

    /// Whether a section is left out. It takes the logarithm of the number of lines.
    pub fn has(&self, object: u64, section: u64) -> bool
        ensures { result ≡ is_left_out self.now object section }
    {
        is_out(self.lines, object, section)
    }
}

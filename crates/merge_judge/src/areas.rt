//! Areas of memory in which a linker put merged strings and constants.
ghost use Rattle.std.specs.Prelude.{◌≡◌, ◌↔◌, ◌+◌, ◌≤◌, ◌<◌, ℕ, All, Any, IsTrue, length, slice_index_or, true};
ghost use Rattle.elf_model.specs.Image.MapText.{Ascends};
ghost use Rattle.elf_model.specs.Image.MemoryImage.{loads};
ghost use Rattle.judge_model.specs.Certificates.{StretchBefore};
ghost use Rattle.judge_model.specs.Merged.{HoldsArea, IsWithin};
ghost use Rattle.merge_judge.specs.Areas.{IsHeld, ends_by};
ghost use Rattle.merge_judge.specs.Lines.{AreEnclosed};
ghost use Rattle.judge_model.specs.declared.certificate.StretchLine.{StretchLine as Stretch};

use elf_model::{PF_R, PF_W, ProgramHeader};
use foreign_image::ForeignImage;
use judge_model::{MergedLine, StretchLine};

/// Whether the file part of a segment has an area.
fn is_in_file(h: &ProgramHeader, a: &StretchLine) -> bool
    ensures { IsTrue result ↔ ((h.now.p_vaddr ≤ a.now.address)
        × (a.now.address + a.now.size ≤ h.now.p_vaddr + h.now.p_filesz)) }
{
    if a.address < h.p_vaddr {
        return false;
    }
    let front = a.address - h.p_vaddr;
    front <= h.p_filesz && a.size <= h.p_filesz - front
}

/// Whether a segment has an area in its file part, is read, and isn't written, unless it may be anyway.
fn holds_area(h: &ProgramHeader, a: &StretchLine, anyway: bool) -> bool
    ensures { IsTrue result ↔ HoldsArea anyway a.now h.now }
{
    if h.p_flags & PF_R != PF_R {
        return false;
    }
    if !anyway && h.p_flags & PF_W != 0 {
        return false;
    }
    is_in_file(h, a)
}

fn is_held(segments: &[ProgramHeader], a: &StretchLine, anyway: bool) -> bool
    ensures { IsTrue result ↔ IsHeld anyway segments.now a.now }
{
    segments.iter().any(|h| holds_area(h, a, anyway))
}

fn are_held(segments: &[ProgramHeader], areas: &[StretchLine], anyway: bool) -> bool
    ensures { IsTrue result ↔ All (IsHeld anyway segments.now) areas.now }
{
    for a in areas {
        if !is_held(segments, a, anyway) {
            return false;
        }
    }
    true
}

/// Whether each area lies in the file part of a segment that is read and isn't written, unless it may be anyway. It looks at each
/// segment for each area: programs have few.
pub fn are_areas_right(image: &ForeignImage<'_>, areas: &[StretchLine], anyway: bool) -> bool
    ensures right { IsTrue result
        ↔ All (λ a. Any (HoldsArea anyway a) (loads image.now)) areas.now }
    ensures enclosed { IsTrue result → AreEnclosed image.now areas.now }
{
    let _program = image.image();
    are_held(image.segments(), areas, anyway)
}

/// Whether an area ends at or below an address.
fn ends_by(a: &StretchLine, at: u64) -> bool
    ensures { result ≡ ends_by at a.now }
{
    a.address as u128 + a.size as u128 <= at as u128
}

/// How many of the areas end at or below an address.
fn count_ended(areas: &[StretchLine], at: u64) -> usize
    requires { Ascends StretchBefore areas.now }
    ensures ended { (k : ℕ) (d : Stretch) → k < result
        → (slice_index_or areas.now k d).address + (slice_index_or areas.now k d).size ≤ at }
    ensures not_yet { (k : ℕ) (d : Stretch) → result ≤ k → k < length areas.now
        → at < (slice_index_or areas.now k d).address + (slice_index_or areas.now k d).size }
{
    areas.partition_point(|a| ends_by(a, at))
}

fn is_within(m: &MergedLine, a: &StretchLine) -> bool
    ensures { IsTrue result ↔ IsWithin m.now a.now }
{
    if m.address < a.address {
        return false;
    }
    let front = m.address - a.address;
    front <= a.size && m.size <= a.size - front
}

/// Whether an area has what a line says, which is something. It takes the logarithm of the number of areas.
pub fn has_area(areas: &[StretchLine], m: &MergedLine) -> bool
    requires rising { Ascends StretchBefore areas.now }
    requires some { 0 < m.now.size }
    ensures { IsTrue result ↔ Any (IsWithin m.now) areas.now }
{
    match areas.get(count_ended(areas, m.address)) {
        Some(area) => is_within(m, area),
        None => false,
    }
}

//! Whether the notes of a certificate are right.
ghost use Rattle.std.specs.Prelude.{◌≡◌, ◌↔◌, ◌≤◌, ◌+◌, ◌<◌, ◌%◌, ℕ, All, Any, IsSome, IsTrue, bit_and, bit_or};
ghost use Rattle.elf_model.specs.Image.MemoryImage.{program_headers};
ghost use Rattle.elf_model.specs.Image.RightLink.{byte_at};
ghost use Rattle.check_load.specs.Views.{loaded_views};
ghost use Rattle.judge_model.specs.Links.{ForeignLink};
ghost use Rattle.judge_model.specs.Notes.{AreNotesRight, IsBuildId};
ghost use Rattle.note_judge.specs.Notes.{AreNotesBy, HoldsFew, HoldsFront, HoldsProperty, IsMapped, IsNoteBy, IsOfLink, IsPropertyBy, LiesIn};

use crate::features::common_bits;
use check_load::Loaded;
use elf_model::ProgramHeader;
use foreign_image::ForeignImage;
use judge_model::StretchLine;
use memory_judge::{holds_number, number_at};

const PT_NOTE: u32 = 4;

const PT_GNU_PROPERTY: u32 = 0x6474_e553;

const NT_GNU_BUILD_ID: u64 = 3;

const NT_GNU_PROPERTY: u64 = 5;

/// The type of the property whose bits are features that each object must bear.
const FEATURE_1_AND: u64 = 0xc000_0002;

/// How many bytes a note of GNU has before its description, and the most that a build id has with these.
const FRONT_SIZE: u64 = 16;

const MOST_OF_ID: u64 = 80;

/// How many notes a linker makes at most.
const MOST_NOTES: usize = 2;

/// "GNU" with its NUL, as a number.
const GNU: u64 = 0x0055_4e47;

/// Whether a header is one of notes, and a note lies where it says.
fn lies_in(h: &ProgramHeader, n: &StretchLine) -> bool
    ensures { IsTrue result ↔ LiesIn n.now h.now }
{
    if h.p_type != PT_NOTE && h.p_type != PT_GNU_PROPERTY {
        return false;
    }
    if n.address < h.p_vaddr {
        return false;
    }
    let front = n.address - h.p_vaddr;
    front <= h.p_memsz && n.size <= h.p_memsz - front
}

/// Whether a note lies where a header of notes says.
fn is_inside(headers: &[ProgramHeader], n: &StretchLine) -> bool
    ensures { IsTrue result ↔ Any (LiesIn n.now) headers.now }
{
    headers.iter().any(|h| lies_in(h, n))
}

/// Whether memory holds what a note of GNU begins with: the sizes of its name and of its description, its type, its name.
fn holds_front(image: &ForeignImage<'_>, at: u64, size: u64, kind: u64) -> bool
    ensures { IsTrue result ↔ HoldsFront image.now at size kind }
{
    holds_number(image, at, 0, 4, 4)
        && holds_number(image, at, 4, 4, size)
        && holds_number(image, at, 8, 4, kind)
        && holds_number(image, at, 12, 4, GNU)
}

/// Whether memory has a byte at an offset behind an address.
fn has_byte(image: &ForeignImage<'_>, at: u64, offset: u64) -> bool
    ensures { IsTrue result ↔ IsSome (byte_at image.now (at + offset)) }
{
    let _program = image.image();
    match at.checked_add(offset) {
        Some(address) => image.byte(address).is_some(),
        None => false,
    }
}

/// Whether memory has bytes at so many addresses.
fn is_mapped(image: &ForeignImage<'_>, at: u64, size: u64) -> bool
    ensures { IsTrue result ↔ IsMapped image.now at size }
{
    for offset in 0..size {
        if !has_byte(image, at, offset) {
            return false;
        }
    }
    true
}

/// Whether a note is a build id.
fn is_build_id(image: &ForeignImage<'_>, n: &StretchLine) -> bool
    ensures { IsTrue result ↔ IsBuildId image.now n.now }
{
    if n.size < FRONT_SIZE || n.size > MOST_OF_ID {
        return false;
    }
    if !holds_front(image, n.address, n.size - FRONT_SIZE, NT_GNU_BUILD_ID) {
        return false;
    }
    is_mapped(image, n.address, n.size)
}

/// Whether memory holds the type and the size of a property of four bytes, behind the front of a note, and the zeros behind its bits.
fn holds_property(image: &ForeignImage<'_>, at: u64) -> bool
    ensures { IsTrue result ↔ HoldsProperty image.now at }
{
    holds_number(image, at, 16, 4, FEATURE_1_AND)
        && holds_number(image, at, 20, 4, 4)
        && holds_number(image, at, 28, 4, 0)
}

/// Whether memory holds no bits at an address but those allowed.
fn holds_few(image: &ForeignImage<'_>, at: u64, allowed: u64) -> bool
    ensures { IsTrue result ↔ HoldsFew image.now at allowed }
{
    match number_at(image, at, 24, 4) {
        Some(bits) => bits & allowed == bits,
        None => false,
    }
}

/// Whether a note is a property note with no bits but those allowed.
fn is_property_note(image: &ForeignImage<'_>, allowed: u64, n: &StretchLine) -> bool
    ensures { IsTrue result ↔ IsPropertyBy image.now allowed n.now }
{
    if n.size != 32 {
        return false;
    }
    if !holds_front(image, n.address, 16, NT_GNU_PROPERTY) {
        return false;
    }
    if !holds_property(image, n.address) {
        return false;
    }
    holds_few(image, n.address, allowed)
}

/// Whether a note is right, where a property note may have some bits.
fn is_note_right(image: &ForeignImage<'_>, allowed: u64, n: &StretchLine) -> bool
    ensures { IsTrue result ↔ IsNoteBy image.now allowed n.now }
{
    if n.address % 4 != 0 {
        return false;
    }
    if !is_inside(image.headers(), n) {
        return false;
    }
    is_build_id(image, n) || is_property_note(image, allowed, n)
}

/// Whether each of some notes is right.
fn is_each_right(image: &ForeignImage<'_>, allowed: u64, notes: &[StretchLine]) -> bool
    ensures { IsTrue result ↔ All (IsNoteBy image.now allowed) notes.now }
{
    for n in notes {
        if !is_note_right(image, allowed, n) {
            return false;
        }
    }
    true
}

/// Whether notes are right, where a property note may have some bits: each is, and there are at most two.
fn are_right_by(image: &ForeignImage<'_>, allowed: u64, notes: &[StretchLine]) -> bool
    ensures { IsTrue result ↔ AreNotesBy image.now allowed notes.now }
{
    if notes.len() > MOST_NOTES {
        return false;
    }
    is_each_right(image, allowed, notes)
}

/// Whether the notes that the linker of a link itself made are right: each is a build id, or the property note, whose bits all
/// objects or the words (`features`) have; and there are at most two.
pub fn are_notes_right(
    image: &ForeignImage<'_>,
    objects: &[Loaded<'_>],
    notes: &[StretchLine],
    features: u64,
) -> bool
    ensures { (l : ForeignLink)
        → IsOfLink l image.now (loaded_views objects.now) notes.now features
        → IsTrue result ↔ AreNotesRight l }
{
    let allowed = common_bits(objects) | features;
    are_right_by(image, allowed, notes)
}

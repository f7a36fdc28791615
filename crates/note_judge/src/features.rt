//! Which features of a processor objects bear, as their property notes say: a bit each.
ghost use Rattle.std.specs.Prelude.{◌≡◌, ◌<◌, ◌≤◌, ◌^◌, bit_and, drop, length, true};
ghost use Rattle.check_load.specs.Views.{loaded_views};
ghost use Rattle.elf_model.specs.Inputs.ObjectFile as object_file;
ghost use Rattle.judge_model.specs.Notes as spec;
ghost use Rattle.note_judge.specs.Notes.{bits_of_bytes};

use crate::numbers::four_at;
use byteview::{View, equal_run};
use check_load::Loaded;
use elf_model::SHT_NOTE;
use elf_read::ObjectFile;

/// The type of the property whose bits are features that each object must bear.
const FEATURE_1_AND: u64 = 0xc000_0002;

const NT_GNU_PROPERTY: u64 = 5;

/// What stands behind so many bytes; nothing where there are no more.
fn behind(bytes: &[u8], size: u64) -> &[u8]
    ensures { result.now ≡ drop size bytes.entry.now }
{
    let (_front, rest) = bytes.split_at(size.min(bytes.len() as u64) as usize);
    rest
}

/// The bits in the properties of a description, of which there are at most so many; 0 without any.
fn bits_behind(properties: &[u8], most: usize) -> u64
    ensures exact { result ≡ spec.bits_behind most properties.now }
    ensures small { result < 2 ^ 32 }
{
    let mut rest = properties;
    for _ in 0..most {
        if rest.len() < 8 {
            return 0;
        }
        if four_at(rest, 0) == FEATURE_1_AND {
            return four_at(rest, 8);
        }
        rest = behind(rest, (8 + four_at(rest, 4) + 7) / 8 * 8);
    }
    0
}

/// Whether bytes begin with a property note of GNU.
#[tactic(auto, unfolding(byteview::specs::Numbers::le_bytes))]
fn is_property_note(bytes: &[u8]) -> bool
    ensures { result ≡ spec.is_property_note bytes.now }
{
    let note = View::new(bytes);
    if !equal_run(note.part(0, 4), &[4, 0, 0, 0]) {
        return false;
    }
    if four_at(bytes, 8) != NT_GNU_PROPERTY {
        return false;
    }
    equal_run(note.part(12, 4), b"GNU\0")
}

/// The bits of the first note of a section; 0 where this is no property note.
fn bits_of_note(bytes: &[u8]) -> u64
    ensures exact { result ≡ spec.bits_of_note bytes.now }
    ensures small { result < 2 ^ 32 }
{
    if !is_property_note(bytes) {
        return 0;
    }
    let size = four_at(bytes, 4);
    bits_behind(View::new(bytes).part(16, size as usize), bytes.len())
}

/// Whether section `i` of an object is one of properties.
fn is_property_section(object: &ObjectFile<'_>, i: usize) -> bool
    requires { i < length (object_file.sections object.now) }
    ensures { result ≡ spec.is_property_section object.now (object_file.section (object_file.sections object.now) i) }
{
    if object.section(i).sh_type != SHT_NOTE {
        return false;
    }
    match object.section_name(i) {
        Some(name) => name == b".note.gnu.property".as_slice(),
        None => false,
    }
}

/// The bits of the first note of section `i`.
fn bits_of_section(object: &ObjectFile<'_>, i: usize) -> u64
    requires { i < length (object_file.sections object.now) }
    ensures exact { result ≡ spec.bits_of_note (object_file.contents object.now
        (object_file.section (object_file.sections object.now) i)) }
    ensures small { result < 2 ^ 32 }
{
    let section = object.section(i);
    let file = View::new(object.bytes());
    bits_of_note(file.part(section.sh_offset as usize, section.sh_size as usize))
}

/// The features that an object bears.
fn bits_of_object(object: &ObjectFile<'_>) -> u64
    ensures exact { result ≡ bits_of_bytes object.now }
    ensures small { result < 2 ^ 32 }
{
    for i in 0..object.sections().len() {
        if is_property_section(object, i) {
            return bits_of_section(object, i);
        }
    }
    0
}

/// The features of some that an object bears.
fn borne(bits: u64, object: &ObjectFile<'_>) -> u64
    requires { bits < 2 ^ 32 }
    ensures exact { result ≡ bit_and bits (bits_of_bytes object.now) }
    ensures small { result < 2 ^ 32 }
{
    bits & bits_of_object(object)
}

/// The features that all objects bear.
pub fn common_bits(objects: &[Loaded<'_>]) -> u64
    ensures exact { result ≡ spec.common_bits (loaded_views objects.now) }
    ensures small { result < 2 ^ 32 }
{
    let mut bits = 0xffff_ffff;
    for loaded in objects {
        bits = borne(bits, &loaded.object);
    }
    bits
}

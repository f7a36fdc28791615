//! The sections of objects that hold debug data.
ghost use Rattle.std.specs.Prelude.{◌≡◌, [], IfOk, cond, option_map, unwrap_or};
ghost use Rattle.elf_model.specs.Inputs.ObjectFile.{section, section_name, sections};
ghost use Rattle.elf_model.specs.Link.Pieces as pieces;
ghost use Rattle.placing.specs.Views.{piece_view, piece_views};
ghost use Rattle.search.specs.Views.{loaded_view};
ghost use Rattle.debug_image.specs.DebugSections as spec;
ghost use Rattle.debug_image.specs.ObjectSections.{name_in};

use crate::lists::add_some;
use elf_model::{SHF_COMPRESSED, SHT_PROGBITS, SectionHeader};
use layout::Piece;
use search::LoadedObject;
use std::alloc::{AllocError, Global};

/// The flag of a section that no image takes (System V gABI 4, "Section Attribute Flags").
const SHF_EXCLUDE: u64 = 0x8000_0000;

/// The name of a section; empty where there is no such section.
pub fn name_of<'a>(loaded: &LoadedObject<'a>, i: usize) -> &'a [u8]
    ensures { result.now ≡ name_in (loaded_view loaded.now) i }
{
    match loaded.object.section_name(i) {
        Some(name) => name,
        None => &[],
    }
}

/// The bytes of a section; none where it has none.
fn bytes_of<'a>(loaded: &LoadedObject<'a>, i: usize) -> &'a [u8]
    ensures { result.now ≡ (pieces.piece_of 0 loaded.now.object i
        (section (sections loaded.now.object) i)).bytes }
{
    match loaded.object.section_bytes(i) {
        Some(bytes) => bytes,
        None => &[],
    }
}

/// Section `i` of an object as a piece.
pub fn piece_in<'a>(number: u64, loaded: &LoadedObject<'a>, i: usize) -> Piece<'a>
    ensures { piece_view result
        ≡ pieces.piece_of number loaded.now.object i (section (sections loaded.now.object) i) }
{
    Piece {
        object: number,
        section: i as u64,
        header: loaded.object.section(i),
        name: name_of(loaded, i),
        bytes: bytes_of(loaded, i),
    }
}

/// Whether a name is one of data that were compressed before there was a flag for it.
fn is_old_name(name: &[u8]) -> bool
    ensures { result ≡ spec.is_old_name name.now }
{
    name.starts_with(b".zdebug_")
}

/// Whether a name is one of debug data for an image.
fn is_debug_name(name: &[u8]) -> bool
    ensures { result ≡ spec.is_debug_name name.now }
{
    (name.starts_with(b".debug_") || is_old_name(name)) && !name.ends_with(b".dwo")
}

/// Whether section `i` of an object is one of debug data, dropped or not.
pub fn is_debug_section(loaded: &LoadedObject<'_>, i: usize) -> bool
    ensures { result ≡ spec.is_debug_section (loaded_view loaded.now) i }
{
    !loaded.object.section(i).is_alloc() && is_debug_name(name_of(loaded, i))
}

/// Whether section `i` of an object holds debug data, and isn't dropped.
pub fn holds_debug_data(loaded: &LoadedObject<'_>, i: usize) -> bool
    ensures { result ≡ spec.holds_debug_data (loaded_view loaded.now) i }
{
    is_debug_section(loaded, i) && !loaded.is_dropped(i)
}

/// Whether a section has the flag of those that are compressed.
fn has_compressed_flag(header: &SectionHeader) -> bool
    ensures { result ≡ pieces.has_flag spec.compressed_flag header.now }
{
    header.sh_flags & SHF_COMPRESSED != 0
}

/// Whether a section has the flag of those that no image takes.
fn has_exclude_flag(header: &SectionHeader) -> bool
    ensures { result ≡ pieces.has_flag spec.exclude_flag header.now }
{
    header.sh_flags & SHF_EXCLUDE != 0
}

/// Whether section `i` of an object, one of debug data, is compressed.
pub fn is_compressed(loaded: &LoadedObject<'_>, i: usize) -> bool
    ensures { result ≡ spec.is_compressed (loaded_view loaded.now) i }
{
    has_compressed_flag(&loaded.object.section(i)) || is_old_name(name_of(loaded, i))
}

/// Whether section `i` of an object, one of debug data, can be joined with those of other objects.
fn is_joinable(loaded: &LoadedObject<'_>, i: usize) -> bool
    ensures { result ≡ spec.is_joinable (loaded_view loaded.now) i }
{
    let header = loaded.object.section(i);
    header.sh_type == SHT_PROGBITS && !has_exclude_flag(&header) && !is_compressed(loaded, i)
}

/// Whether section `i` of an object holds debug data that can't be joined.
fn is_unjoinable(loaded: &LoadedObject<'_>, i: usize) -> bool
    ensures { result ≡ spec.is_unjoinable (loaded_view loaded.now) i }
{
    holds_debug_data(loaded, i) && !is_joinable(loaded, i)
}

/// Whether an object has debug data that can't be joined.
pub fn has_unjoinable(loaded: &LoadedObject<'_>) -> bool
    ensures { result ≡ spec.has_unjoinable (loaded_view loaded.now) }
{
    for i in 0..loaded.object.sections().len() {
        if is_unjoinable(loaded, i) {
            return true;
        }
    }
    false
}

/// Section `i` of an object, where it holds debug data.
fn debug_piece<'a>(number: u64, loaded: &LoadedObject<'a>, i: usize) -> Option<Piece<'a>>
    ensures { option_map piece_view result ≡ spec.debug_piece number (loaded_view loaded.now) i }
{
    if holds_debug_data(loaded, i) {
        Some(piece_in(number, loaded, i))
    } else {
        None
    }
}

/// The sections of an object that go into the image, in their order; none where the object is left out.
pub fn debug_pieces<'a>(
    alloc: Global,
    number: u64,
    loaded: &LoadedObject<'a>,
    left_out: bool,
) -> Result<Vec<Piece<'a>>, AllocError>
    ensures { IfOk result (λ v. piece_views v.items
        ≡ spec.pieces_unless left_out number (loaded_view loaded.now)) }
{
    let mut pieces = Vec::new(alloc);
    if left_out {
        return Ok(pieces);
    }
    let count = loaded.object.sections().len();
    for i in 0..count {
        add_some(&mut pieces, debug_piece(number, loaded, i))?;
    }
    Ok(pieces)
}

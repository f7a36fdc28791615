//! Links of which a debuggable image is made, as rows of tables: the files, and what comes of them.
ghost use Rattle.std.specs.Prelude.{◌≡◌};
ghost use Rattle.debug_image.specs.DebugLayouts.{IsDataLayout, IsFound};

use crate::tests::found::{bytes_of, find, has_section};
use debug_image::{
    Chunk, DataLayout, DebugParts, LeftData, Wanted, chunk_data, data_layout, debug_image,
    debug_parts, plain_image,
};
use elf_model::{InputFile, ObjectId, SHT_PROGBITS, SectionRef};
use ld_main::{Linkage, definitions, image, prepare};
use link_samples::links::{File, files_of};
use link_samples::one_object::words_of;
use resolve::{Definition, Resolved, resolve};
use std::alloc::Global;
use std::test::Fail;

/// What came of a link: its debuggable image, its plain one, what is left out, and the sections that are named on standard error.
#[derive(Drop)]
struct Made {
    debuggable: Vec<u8>,
    plain: Vec<u8>,
    left: LeftData,
    unrelocated: Vec<SectionRef>,
}

/// Files that are linked by `-s a.o`, `-s a.o b.o` or `-s a.o b.o c.o`; whether debug data are wanted; what the header of a
/// section says, and what its bytes are; which sections there are none of; how many objects and how many sections of them are left
/// out, and how many objects for compressed ones; and the numbers of the objects and the sections that aren't relocated.
pub struct Row {
    pub files: &'static [File],
    pub debug: bool,
    pub headers: &'static [Header],
    pub held: &'static [(&'static str, &'static [u8])],
    pub absent: &'static [&'static str],
    pub left: [u64; 3],
    pub unrelocated: &'static [(u64, u64)],
}

/// The name of a section of debug data, its offset in the file, its alignment, its flags and the size of its entries; its type is
/// PROGBITS, and its address is 0.
pub type Header = (&'static str, u64, u64, u64, u64);

/// The sections with an entry that can't be relocated.
fn unrelocated<'a>(
    alloc: Global,
    layout: &DataLayout<'_, 'a>,
    chunks: &[Chunk<'a>],
) -> Result<Vec<SectionRef>, Fail>
    requires { IsDataLayout layout.now }
{
    let mut found = Vec::new(alloc);
    for chunk in chunks {
        let made = chunk_data(alloc, layout, chunk)?;
        if made.has_left {
            found.push(SectionRef {
                object: ObjectId(chunk.place.piece.object),
                section: chunk.place.piece.section,
            })?;
        }
    }
    Ok(found)
}

/// The sections of a link that are named on standard error, since they can't be relocated.
fn named<'a>(
    alloc: Global,
    linkage: &Linkage<'a>,
    resolved: &Resolved<'a>,
    parts: &DebugParts<'a>,
) -> Result<Vec<SectionRef>, Fail>
    requires resolved { resolved.now ≡ linkage.now.objects }
    requires found { IsFound linkage.now.objects parts.now.data }
{
    let layout = data_layout(alloc, linkage, resolved, &parts.data)?;
    unrelocated(alloc, &layout, &parts.chunks)
}

/// What comes of a link whose names are resolved.
fn made_by<'a>(
    alloc: Global,
    linkage: &Linkage<'a>,
    resolved: &Resolved<'a>,
    names: &[Definition<'a>],
    wanted: Wanted,
) -> Result<Made, Fail>
    requires { resolved.now ≡ linkage.now.objects }
{
    let Ok(parts) = debug_parts(alloc, linkage, names, wanted) else {
        return Err(Fail::from("the parts are refused"));
    };
    let unrelocated = named(alloc, linkage, resolved, &parts)?;
    let Ok(debuggable) = debug_image(alloc, linkage, resolved, names, wanted) else {
        return Err(Fail::from("the image is refused"));
    };
    Ok(Made {
        debuggable,
        plain: image(alloc, linkage)?,
        left: parts.data.left,
        unrelocated,
    })
}

/// What comes of a link, with debug data or without.
fn made_with(alloc: Global, linkage: &Linkage<'_>, debug: bool) -> Result<Made, Fail> {
    let wanted = Wanted {
        locals: true,
        debug,
    };
    let names = definitions(alloc, linkage)?;
    let Ok(resolved) = resolve(alloc, linkage.loaded()) else {
        return Err(Fail::from("the names are refused"));
    };
    made_by(alloc, linkage, &resolved, &names, wanted)
}

/// What comes of the link of files by words.
fn made_of(
    alloc: Global,
    files: &[InputFile],
    words: &[String],
    debug: bool,
) -> Result<Made, Fail> {
    let Ok(linkage) = prepare(alloc, files, words) else {
        return Err(Fail::from("the link is refused"));
    };
    made_with(alloc, &linkage, debug)
}

/// Whether the headers of sections are as a row says.
fn are_headers(image: &[u8], headers: &[Header]) -> Result<bool, Fail> {
    for (name, offset, align, flags, entry) in headers {
        let there = find(image, name)?;
        if there.sh_type != SHT_PROGBITS || there.sh_flags != *flags || there.sh_addr != 0 {
            return Ok(false);
        }
        if there.sh_offset != *offset || there.sh_addralign != *align {
            return Ok(false);
        }
        if there.sh_entsize != *entry || there.sh_link != 0 || there.sh_info != 0 {
            return Ok(false);
        }
    }
    Ok(true)
}

/// Whether sections hold these bytes.
fn are_held(image: &[u8], held: &[(&'static str, &'static [u8])]) -> Result<bool, Fail> {
    for (name, bytes) in held {
        if bytes_of(image, name)? != *bytes {
            return Ok(false);
        }
    }
    Ok(true)
}

/// Whether there are no sections of these names.
fn are_absent(image: &[u8], names: &[&'static str]) -> Result<bool, Fail> {
    for name in names {
        if has_section(image, name)? {
            return Ok(false);
        }
    }
    Ok(true)
}

/// Whether some sections are those that have these numbers.
fn are_numbers(sections: &[SectionRef], numbers: &[(u64, u64)]) -> bool {
    for (k, section) in sections.iter().enumerate() {
        if numbers.get(k) != Some(&(section.object.0, section.section)) {
            return false;
        }
    }
    sections.len() == numbers.len()
}

/// Whether so much is left out.
fn is_left(left: &LeftData, counts: &[u64; 3]) -> bool {
    [left.objects, left.sections, left.compressed] == *counts
}

/// Whether an image is as a row says.
fn is_image(image: &[u8], row: &Row) -> Result<bool, Fail> {
    Ok(
        are_headers(image, row.headers)?
            && are_held(image, row.held)?
            && are_absent(image, row.absent)?,
    )
}

/// Whether what comes of a link is as a row says, and its image begins with the plain one.
fn is_made(alloc: Global, made: &Made, row: &Row) -> Result<bool, Fail> {
    let plain = plain_image(alloc, &made.debuggable)?;
    Ok(
        plain == made.plain
            && is_left(&made.left, &row.left)
            && are_numbers(&made.unrelocated, row.unrelocated)
            && is_image(&made.debuggable, row)?,
    )
}

/// What comes of the link of a row.
fn row_made(alloc: Global, row: &Row) -> Result<Made, Fail> {
    let files = files_of(alloc, row.files)?;
    let line = match row.files.len() {
        1 => "-s a.o",
        2 => "-s a.o b.o",
        _ => "-s a.o b.o c.o",
    };
    let words = words_of(alloc, line)?;
    made_of(alloc, &files, &words, row.debug)
}

/// Whether the link of a row is as it says.
pub fn is_right(alloc: Global, row: &Row) -> Result<bool, Fail> {
    let made = row_made(alloc, row)?;
    is_made(alloc, &made, row)
}

/// A row that asks for nothing.
pub const NOTHING: Row = Row {
    files: &[],
    debug: true,
    headers: &[],
    held: &[],
    absent: &[],
    left: [0, 0, 0],
    unrelocated: &[],
};

//! The lines of an explanation: a line a place, and what is told beside it.

use crate::archive_text::write_archive;
use crate::hint_text::write_hint;
use crate::hints::undefined_name;
use crate::note_text::write_note;
use crate::place::{Found, Place};
use crate::text::{Inputs, PlaceText};
use byteview::View;
use elf_model::InputFile;
use elf_read::ObjectFile;
use input_names::Name;
use std::alloc::Global;
use std::io;
use std::io::Write;

/// The symbol of an object that gcc makes by -flto without -ffat-lto-objects.
const SLIM: &[u8] = b"__gnu_lto_slim";

/// Writes how many references to the name of an undefined one there are beside it; nothing where there are none.
fn write_others<W: Write>(out: &mut W, place: &Place<'_>) -> io::Result<()> {
    match place {
        Place::Relocation(_, _, _, 1) => out.write_all(b"; and 1 more reference to it"),
        Place::Relocation(_, _, _, others) if *others > 1 => {
            write!(out, "; and {others} more references to it")
        }
        _ => Ok(()),
    }
}

/// Writes a place, and what is told beside it: after the reference to an undefined name what an archive has to do with the name,
/// which defined name is like it, and how many more references there are.
fn write_line<W: Write>(
    out: &mut W,
    inputs: Inputs<'_>,
    found: &Found<'_>,
    place: &Place<'_>,
) -> io::Result<()> {
    write!(out, "{}", PlaceText { inputs, place })?;
    write_note(out, inputs, &found.notes, place)?;
    if let Some(name) = undefined_name(place) {
        write_archive(out, inputs, &found.archives, name)?;
        write_hint(out, inputs, &found.hints, name)?;
        write_others(out, place)?;
    }
    out.write_all(b"\n")
}

/// Whether a place asks for a definition that no object has.
fn asks_for_code(place: &Place<'_>) -> bool {
    matches!(place, Place::Entry(_)) || undefined_name(place).is_some()
}

/// Whether an object file has a symbol by which gcc says that it has no code, only data for optimization at link time.
fn is_slim(alloc: Global, file: &InputFile) -> bool {
    let object = ObjectFile::read(alloc, View::new(file.bytes.as_slice()));
    object.is_ok_and(|object| (0..object.symbols().len()).any(|j| object.symbol_name(j) == SLIM))
}

/// Writes how many places there are beside those that are written; nothing where there are none.
pub fn write_more<W: Write>(out: &mut W, more: u64) -> io::Result<()> {
    match more {
        0 => Ok(()),
        1 => out.write_all(b"and 1 more place\n"),
        _ => writeln!(out, "and {more} more places"),
    }
}

/// Writes a line of the first object file that has no code of its own, and how many more there are; nothing where there is none.
fn write_slim<W: Write>(out: &mut W, inputs: Inputs<'_>) -> io::Result<()> {
    let files = inputs.files.iter();
    let mut slim = files.filter(|file| is_slim(inputs.alloc, file));
    let Some(first) = slim.next() else {
        return Ok(());
    };
    let name = Name(first.name.as_bytes());
    write!(
        out,
        "{name}: no code, only data for optimization at link time: compile it without -flto, or with -ffat-lto-objects"
    )?;
    match slim.count() {
        0 => out.write_all(b"\n"),
        1 => out.write_all(b"; and 1 more file\n"),
        more => writeln!(out, "; and {more} more files"),
    }
}

/// Writes the places that were found, a line each, and how many more there are. Where a definition is missing, a line more if
/// object files have no code of their own.
pub fn write_places<W: Write>(
    out: &mut W,
    inputs: Inputs<'_>,
    found: &Found<'_>,
) -> io::Result<()> {
    for place in &found.places {
        write_line(out, inputs, found, place)?;
    }
    write_more(out, found.more)?;
    if found.places.iter().any(asks_for_code) {
        write_slim(out, inputs)?;
    }
    Ok(())
}

//! How a note reads, after the place beside which it is told.

use crate::notes::{Fact, Note};
use crate::place::Place;
use crate::text::{At, Inputs};
use crate::unlike_sections::KeptSection;
use input_names::{Called, Name, ObjectName, RelocationSymbol, SectionFlags, SectionType};
use std::io;
use std::io::Write;

/// Writes a section of an output name: its object, its number, its name, its type and its flags.
fn write_section<W: Write>(
    out: &mut W,
    inputs: Inputs<'_>,
    section: &KeptSection<'_>,
) -> io::Result<()> {
    let (object, place) = (section.object, &section.place);
    let object = ObjectName::new(inputs.files, object.path, object.offset);
    let (number, name) = (place.number, Name(place.name));
    let (kind, flags) = (
        SectionType(place.entry.sh_type),
        SectionFlags(place.entry.sh_flags),
    );
    write!(
        out,
        "; {object} has section {number} {name}: {kind}, {flags}"
    )
}

/// Writes what is told beside a place, where something is.
pub fn write_note<W: Write>(
    out: &mut W,
    inputs: Inputs<'_>,
    notes: &[Note<'_>],
    place: &Place<'_>,
) -> io::Result<()> {
    let Place::Relocation(_, place, _, _) = place else {
        return Ok(());
    };
    let mut notes = notes.iter();
    let Some(note) = notes.find(|note| note.is_beside(place)) else {
        return Ok(());
    };
    match &note.fact {
        Fact::Undefined => write!(out, "; {} is not defined", RelocationSymbol(place)),
        Fact::Defined(object, symbol, inside) => {
            let (name, number) = (Name(symbol.name), symbol.number);
            let of = Called("of ", At { inputs, object }.section_of(number as usize));
            let object = ObjectName::new(inputs.files, object.path, object.offset);
            let storage = if *inside { "in" } else { "outside" };
            write!(
                out,
                "; {object} defines {name} {storage} thread-local storage (symbol {number}{of})"
            )
        }
        Fact::Bounds(first, second) => {
            write_section(out, inputs, first)?;
            write_section(out, inputs, second)
        }
    }
}

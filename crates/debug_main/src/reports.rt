//! The lines that say which debug data aren't in an image as they should be.
use debug_image::LeftData;
use elf_model::{InputFile, SectionRef};
use input_names::{Name, ObjectName};
use search::LoadedObject;
use std::fmt::{Display, Formatter};
use std::io::Write;
use std::{fmt, io};

/// Writes the name of an object, and that of a section of it.
fn write_place<E: Write>(
    err: &mut E,
    files: &[InputFile],
    loaded: &LoadedObject<'_>,
    section: u64,
) -> io::Result<()> {
    let object = ObjectName::new(files, loaded.path, loaded.offset);
    let name = loaded.object.section_name(section as usize);
    write!(err, "ld: {object}: {}", Name(name.unwrap_or(&[])))
}

/// Prints a line for each section of debug data of which some relocations can't be done.
pub fn print_unrelocated<E: Write>(
    err: &mut E,
    files: &[InputFile],
    objects: &[LoadedObject<'_>],
    sections: &[SectionRef],
) -> io::Result<()> {
    for section in sections {
        if let Some(loaded) = objects.get(section.object.0 as usize) {
            write_place(err, files, loaded, section.section)?;
            err.write_all(b": some relocations of debug data can't be done\n")?;
        }
    }
    Ok(())
}

/// How many there are of what has a name.
#[derive(Clone, Copy)]
struct Counted(u64, &'static str);

impl Display for Counted {
    fn fmt<W: fmt::Write>(&self, f: &mut Formatter<W>) -> fmt::Result {
        let end = if self.0 == 1 { "" } else { "s" };
        write!(f, "{} {}{end}", self.0, self.1)
    }
}

/// Prints how many objects' debug data are left out, in one line, and nothing where none are.
pub fn print_left<E: Write>(err: &mut E, left: LeftData) -> io::Result<()> {
    if left.objects == 0 {
        return Ok(());
    }
    write!(
        err,
        "ld: left out the debug data of {} ({})",
        Counted(left.objects, "object"),
        Counted(left.sections, "section")
    )?;
    if left.compressed > 0 {
        write!(
            err,
            "; compressed in {}: compile with -gz=none",
            Counted(left.compressed, "object")
        )?;
    }
    err.write_all(b"\n")
}

/// Prints how many objects' LOCAL symbols are left out for their long names, in one line, and nothing where none are.
pub fn print_long_named<E: Write>(err: &mut E, objects: u64) -> io::Result<()> {
    if objects == 0 {
        return Ok(());
    }
    writeln!(
        err,
        "ld: left out the LOCAL symbols of {}: their names come to more bytes than the object has",
        Counted(objects, "object")
    )
}

//! Inputs that leave open what a right link of them is, and such that don't: objects for link-time optimization, arrays that aren't
//! whole (System V gABI 4, .init_array), what linkers edit (SHF_MERGE), fields beyond their sections (AMD64 psABI 4.4).
ghost use Rattle.check_load.specs.Numbered.{AreNumbered};

use crate::tests::images::{BLOCK, HEADERS};
use crate::tests::sample_objects::{
    Named, Part, Place, file, loaded, object, put_relocation, words,
};
use check_link::{Names, Piece};
use check_load::NamedObjects;
use elf_model::{
    DropLine, PlaceLine, ProgramHeader, SHF_ALLOC, SHF_EXECINSTR, SHF_MERGE, SHF_WRITE,
    SHT_PROGBITS, SHT_RELA, SectionHeader,
};
use foreign_image::has_frame_table;
use input_judge::{
    are_arrays_whole, are_compiled, are_fields_apart, are_fields_inside, are_notes_joined,
    are_unedited, are_unique,
};
use link_fields::Drops;
use std::alloc::Global;
use std::test::Fail;

const TEXT: Part = Part(".text", SHT_PROGBITS, SHF_ALLOC + SHF_EXECINSTR, 1, 8);

/// Whether an object that has a section of this name beside its code is one of machine code.
fn is_compiled(alloc: Global, name: &'static str) -> Result<bool, Fail> {
    let parts = [TEXT, Part(name, SHT_PROGBITS, 0, 1, 8)];
    let bytes = object(alloc, &parts, &[Named("_start", 0x12, 1, 0)])?;
    let files = file(alloc, bytes)?;
    let words = words(alloc)?;
    let named = loaded(alloc, &words, &files)?;
    Ok(are_compiled(&named.objects))
}

#[test]
fn objects_of_compilers_own_code_are_told(rt: HostRuntime) -> Result<(), Fail> {
    assert!(rt; !is_compiled(rt.alloc(), ".gnu.lto_.decls")?);
    assert!(rt; !is_compiled(rt.alloc(), ".gnu.lto_main.1")?);
    assert!(rt; is_compiled(rt.alloc(), ".gnu.lto")?);
    assert!(rt; is_compiled(rt.alloc(), ".comment")?);
    Ok(())
}

/// GLOBAL and WEAK functions, a common symbol and an absolute one, a LOCAL one, and one that is asked for.
const F: Named = Named("f", 0x12, 1, 0);

const G: Named = Named("g", 0x12, 1, 0);

const WEAK_F: Named = Named("f", 0x22, 1, 4);

const COMMON_F: Named = Named("f", 0x11, 0xfff2, 8);

const ABSOLUTE_F: Named = Named("f", 0x10, 0xfff1, 4);

const LOCAL_F: Named = Named("f", 0x02, 1, 0);

const ASKED_F: Named = Named("f", 0x10, 0, 0);

/// Symbols of objects of which no name has two strong definitions, and such of which one has.
static SINGLE: [&[Named]; 6] = [
    &[F, G],
    &[F, WEAK_F],
    &[WEAK_F, WEAK_F, G],
    &[COMMON_F, COMMON_F, F],
    &[LOCAL_F, F],
    &[ASKED_F, F, ASKED_F],
];

static DOUBLE: [&[Named]; 4] = [
    &[F, G, F],
    &[WEAK_F, G, G],
    &[F, ABSOLUTE_F],
    &[COMMON_F, F, ABSOLUTE_F],
];

/// Whether no name has two strong definitions in objects.
fn has_single_names(alloc: Global, named: NamedObjects<'_>) -> Result<bool, Fail>
    requires { AreNumbered named.names named.objects.items }
{
    let NamedObjects { objects, names } = named;
    let names = Names::new(alloc, &objects, names)?;
    Ok(are_unique(&names))
}

/// Whether no name has two strong definitions in an object that has these symbols.
fn is_unique(alloc: Global, symbols: &[Named]) -> Result<bool, Fail> {
    let bytes = object(alloc, &[TEXT], symbols)?;
    let files = file(alloc, bytes)?;
    let words = words(alloc)?;
    let named = loaded(alloc, &words, &files)?;
    has_single_names(alloc, named)
}

#[test]
fn names_have_one_strong_definition(rt: HostRuntime) -> Result<(), Fail> {
    for symbols in &SINGLE {
        assert!(rt; is_unique(rt.alloc(), symbols)?);
    }
    for symbols in &DOUBLE {
        assert!(rt; !is_unique(rt.alloc(), symbols)?);
    }
    Ok(())
}

/// A section of an array, or of another name: its name, alignment and size.
static WHOLE: [(&str, u64, u64); 6] = [
    (".init_array", 8, 16),
    (".fini_array.5", 8, 8),
    (".ctors", 8, 0),
    (".data", 1, 3),
    (".init_arrays", 1, 3),
    (".dtor", 4, 12),
];

static BROKEN: [(&str, u64, u64); 6] = [
    (".init_array", 4, 8),
    (".init_array.00001", 8, 12),
    (".fini_array", 16, 16),
    (".preinit_array", 0, 8),
    (".ctors.65535", 8, 4),
    (".dtors", 1, 8),
];

fn is_whole(row: &(&'static str, u64, u64)) -> bool {
    let header = SectionHeader {
        sh_addralign: row.1,
        sh_size: row.2,
        ..SectionHeader::NULL
    };
    are_arrays_whole(&[Piece {
        object: 0,
        section: 1,
        header,
        name: row.0.as_bytes(),
        bytes: &[],
    }])
}

#[test]
fn arrays_have_whole_entries(rt: HostRuntime) -> Result<(), Fail> {
    for row in &WHOLE {
        assert!(rt; is_whole(row), "{}", row.0);
    }
    for row in &BROKEN {
        assert!(rt; !is_whole(row), "{}", row.0);
    }
    Ok(())
}

/// A section: its name, flags and entry size.
static PLAIN: [(&str, u64, u64); 9] = [
    (".rodata", SHF_ALLOC, 1),
    (".strings", SHF_ALLOC + SHF_MERGE, 0),
    (".strings", SHF_ALLOC + SHF_MERGE + SHF_WRITE, 1),
    (".rodata.str1.1", SHF_ALLOC + SHF_MERGE, 1),
    (".rodata.cst16", SHF_ALLOC + SHF_MERGE, 16),
    (".lrodata", SHF_ALLOC + SHF_MERGE, 1),
    (".eh_frame", SHF_ALLOC, 0),
    (".eh_frame_hdr", SHF_ALLOC, 0),
    (".note.gnu.property", SHF_ALLOC, 0),
];

static EDITED: [(&str, u64, u64); 3] = [
    (".strings", SHF_ALLOC + SHF_MERGE, 1),
    (".rodatas", SHF_ALLOC + SHF_MERGE, 16),
    (".eh_frame", SHF_ALLOC + SHF_MERGE, 1),
];

/// Section 2 of object 1.
fn section(row: &(&'static str, u64, u64)) -> Piece<'static> {
    let header = SectionHeader {
        sh_flags: row.1,
        sh_entsize: row.2,
        ..SectionHeader::NULL
    };
    Piece {
        object: 1,
        section: 2,
        header,
        name: row.0.as_bytes(),
        bytes: &[],
    }
}

/// The line of a section of an object.
fn line_at(alloc: Global, line: (u64, u64)) -> PlaceLine {
    PlaceLine {
        address: 0x20_1000,
        size: 8,
        object: line.0,
        section: line.1,
        name: Vec::new(alloc),
    }
}

/// Whether it is judged what linkers make of section 2 of object 1, which is no object's that is loaded, given one line.
fn is_plain(alloc: Global, row: &(&'static str, u64, u64), line: (u64, u64)) -> Result<bool, Fail> {
    let piece = section(row);
    let place = line_at(alloc, line);
    Ok(are_unedited(alloc, &[], &[piece], &[place])?)
}

/// Whether a property note has no line, given one line.
fn is_joined(
    alloc: Global,
    row: &(&'static str, u64, u64),
    line: (u64, u64),
) -> Result<bool, Fail> {
    let piece = section(row);
    let place = line_at(alloc, line);
    Ok(are_notes_joined(alloc, &[piece], &[place])?)
}

/// Linkers join the property notes of objects, so that none may stand for all (Linux Extensions to gABI, "Program Property").
#[test]
fn property_notes_have_no_lines(rt: HostRuntime) -> Result<(), Fail> {
    let note = (".note.gnu.property", SHF_ALLOC, 0);
    let other = (".note.ABI-tag", SHF_ALLOC, 0);
    let told = (
        is_joined(rt.alloc(), &note, (1, 2))?,
        is_joined(rt.alloc(), &note, (2, 1))?,
        is_joined(rt.alloc(), &other, (1, 2))?,
    );
    assert!(rt; told == (false, true, true));
    Ok(())
}

/// The header of a table of call frames is one by its type.
#[test]
fn tables_of_frames_are_told(rt: HostRuntime) -> Result<(), Fail> {
    let table = ProgramHeader {
        p_type: 0x6474_e550,
        ..BLOCK
    };
    assert!(rt; !has_frame_table(&[HEADERS, BLOCK]));
    assert!(rt; has_frame_table(&[HEADERS, BLOCK, table]));
    assert!(rt; has_frame_table(&[table, HEADERS, BLOCK]));
    Ok(())
}

#[test]
fn strings_of_other_names_are_edited(rt: HostRuntime) -> Result<(), Fail> {
    for row in &PLAIN {
        assert!(rt; is_plain(rt.alloc(), row, (2, 1))?, "{}", row.0);
    }
    for row in &EDITED {
        assert!(rt; !is_plain(rt.alloc(), row, (2, 1))?, "{}", row.0);
        assert!(rt; !is_plain(rt.alloc(), row, (0, 2))?, "{}", row.0);
        assert!(rt; is_plain(rt.alloc(), row, (1, 2))?, "{}", row.0);
    }
    Ok(())
}

/// Code, and two sections of one relocation each, whose entries begin behind the file header and the code.
static RELOCATED: [Part; 3] = [
    TEXT,
    Part(".rela.text", SHT_RELA, 0, 8, 24),
    Part(".rela.text", SHT_RELA, 0, 8, 24),
];

const ENTRY: usize = 72;

/// An object with two relocations in its eight bytes of code. Its section headers are its last bytes: those of no section, the
/// three of `RELOCATED`, the symbol table, its names and the names of sections.
fn relocated(alloc: Global, first: Place, second: Place) -> Result<Vec<u8>, Fail> {
    let mut bytes = object(alloc, &RELOCATED, &[Named("_start", 0x12, 1, 0)])?;
    let headers = bytes.len().saturating_sub(5 * 64);
    put_relocation(&mut bytes, headers, ENTRY, first);
    put_relocation(&mut bytes, headers.saturating_add(64), ENTRY + 24, second);
    Ok(bytes)
}

/// Whether the fields of these relocations are inside, given the lines of sections that are left out.
fn are_inside(alloc: Global, first: Place, second: Place, drops: &Drops<'_>) -> Result<bool, Fail> {
    let files = file(alloc, relocated(alloc, first, second)?)?;
    let words = words(alloc)?;
    let named = loaded(alloc, &words, &files)?;
    Ok(are_fields_inside(&named.objects, drops))
}

/// R_X86_64_64 (1) has eight bytes, R_X86_64_PC32 (2) and R_X86_64_PLT32 (4) have four, R_X86_64_8 (14) has one, and 200 is no type.
static INSIDE: [Place; 6] = [(0, 1), (4, 2), (3, 4), (7, 14), (8, 200), (0, 2)];

static BEYOND: [Place; 6] = [(1, 1), (5, 2), (8, 4), (8, 14), (9, 200), (u64::MAX, 1)];

#[test]
fn fields_lie_inside_their_sections(rt: HostRuntime) -> Result<(), Fail> {
    for place in &INSIDE {
        assert!(rt; are_inside(rt.alloc(), *place, (0, 14), &Drops::new(&[]))?);
    }
    for place in &BEYOND {
        assert!(rt; !are_inside(rt.alloc(), *place, (0, 14), &Drops::new(&[]))?);
        assert!(rt; !are_inside(rt.alloc(), (0, 14), *place, &Drops::new(&[]))?);
    }
    Ok(())
}

const CODE: DropLine = DropLine {
    object: 0,
    section: 1,
};

const OTHER: DropLine = DropLine {
    object: 1,
    section: 1,
};

#[test]
fn fields_of_sections_that_are_left_out_may_be_anywhere(rt: HostRuntime) -> Result<(), Fail> {
    assert!(rt; are_inside(rt.alloc(), (9, 1), (9, 1), &Drops::new(&[CODE]))?);
    assert!(rt; !are_inside(rt.alloc(), (9, 1), (0, 14), &Drops::new(&[OTHER]))?);
    Ok(())
}

/// Whether the fields of these relocations are apart.
fn are_apart(alloc: Global, pair: (Place, Place), drops: &Drops<'_>) -> Result<bool, Fail> {
    let files = file(alloc, relocated(alloc, pair.0, pair.1)?)?;
    let words = words(alloc)?;
    let named = loaded(alloc, &words, &files)?;
    Ok(are_fields_apart(alloc, &named.objects, drops)?)
}

/// Side by side, in either order; those of no type have no bytes.
static APART: [(Place, Place); 5] = [
    ((0, 2), (4, 2)),
    ((4, 2), (0, 4)),
    ((7, 14), (6, 14)),
    ((0, 200), (0, 1)),
    ((2, 1), (3, 200)),
];

static OVERLAPPING: [(Place, Place); 5] = [
    ((0, 2), (3, 2)),
    ((3, 14), (0, 2)),
    ((0, 1), (0, 1)),
    ((4, 4), (0, 1)),
    ((0, 1), (7, 14)),
];

#[test]
fn no_byte_lies_in_two_fields(rt: HostRuntime) -> Result<(), Fail> {
    for pair in &APART {
        assert!(rt; are_apart(rt.alloc(), *pair, &Drops::new(&[]))?);
    }
    for pair in &OVERLAPPING {
        assert!(rt; !are_apart(rt.alloc(), *pair, &Drops::new(&[]))?);
        assert!(rt; !are_apart(rt.alloc(), *pair, &Drops::new(&[OTHER]))?);
        assert!(rt; are_apart(rt.alloc(), *pair, &Drops::new(&[CODE]))?);
    }
    Ok(())
}

/// Whether it is judged what linkers make of the code of that object, if its section were one of constants, whose relocations have these types.
fn is_judged(alloc: Global, first: u64, second: u64) -> Result<bool, Fail> {
    let files = file(alloc, relocated(alloc, (0, first), (4, second))?)?;
    let words = words(alloc)?;
    let named = loaded(alloc, &words, &files)?;
    let piece = Piece {
        object: 0,
        section: 1,
        header: SectionHeader {
            sh_flags: SHF_ALLOC + SHF_MERGE,
            sh_entsize: 8,
            ..SectionHeader::NULL
        },
        name: b".rodata.cst8",
        bytes: &[],
    };
    Ok(are_unedited(alloc, &named.objects, &[piece], &[])?)
}

#[test]
fn constants_that_relocations_change_are_edited(rt: HostRuntime) -> Result<(), Fail> {
    assert!(rt; !is_judged(rt.alloc(), 1, 0)?);
    assert!(rt; !is_judged(rt.alloc(), 0, 2)?);
    assert!(rt; is_judged(rt.alloc(), 0, 0)?);
    Ok(())
}

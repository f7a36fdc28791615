//! The symbol table of an image, byte for byte, and what the check says of wrong ones.
use elf_model::InputFile;
use ld_main::{Clause, Output, Verdict, check};
use link_samples::links::{has_bytes, linked_by, replaced};
use link_samples::objects::{NamedSymbol, Relocation, relocatable};
use link_samples::one_object::{one_file, words_of};
use link_samples::parts::{COMMON, NO_F, R_PC32, START, TEXT, THREAD_DATA};
use link_samples::vectors::{MAP, OBJECT, OLD_MAP, image};
use std::alloc::Global;
use std::process::Abort;
use std::test::Fail;

/// The map of the image with a symbol table.
const TABLE_MAP: &[u8] = b"ldmap 2\n\
    object 0 0 0 a.o\n\
    place 0000000000401000 9 0 1 .text\n\
    symbol 0000000000401000 strong 0 1 _start\n\
    symtab 4112 2\n\
    end\n";

/// What stands behind the text: `.symtab` at 0x1010, `.strtab` at 0x1040, `.shstrtab` at 0x1048, four section headers at
/// 0x1068.
static TABLE: [u8; 351] = [
    0x00, 0x00, 0x00, 0x00, 0x00, 0x00, 0x00, 0x00, 0x00, 0x00, 0x00, 0x00, 0x00, 0x00, 0x00, 0x00,
    0x00, 0x00, 0x00, 0x00, 0x00, 0x00, 0x00, 0x00, 0x00, 0x00, 0x00, 0x00, 0x00, 0x00, 0x00, 0x01,
    0x00, 0x00, 0x00, 0x12, 0x00, 0xf1, 0xff, 0x00, 0x10, 0x40, 0x00, 0x00, 0x00, 0x00, 0x00, 0x09,
    0x00, 0x00, 0x00, 0x00, 0x00, 0x00, 0x00, 0x00, 0x5f, 0x73, 0x74, 0x61, 0x72, 0x74, 0x00, 0x00,
    0x2e, 0x73, 0x79, 0x6d, 0x74, 0x61, 0x62, 0x00, 0x2e, 0x73, 0x74, 0x72, 0x74, 0x61, 0x62, 0x00,
    0x2e, 0x73, 0x68, 0x73, 0x74, 0x72, 0x74, 0x61, 0x62, 0x00, 0x00, 0x00, 0x00, 0x00, 0x00, 0x00,
    0x00, 0x00, 0x00, 0x00, 0x00, 0x00, 0x00, 0x00, 0x00, 0x00, 0x00, 0x00, 0x00, 0x00, 0x00, 0x00,
    0x00, 0x00, 0x00, 0x00, 0x00, 0x00, 0x00, 0x00, 0x00, 0x00, 0x00, 0x00, 0x00, 0x00, 0x00, 0x00,
    0x00, 0x00, 0x00, 0x00, 0x00, 0x00, 0x00, 0x00, 0x00, 0x00, 0x00, 0x00, 0x00, 0x00, 0x00, 0x00,
    0x00, 0x00, 0x00, 0x00, 0x00, 0x00, 0x00, 0x00, 0x00, 0x00, 0x00, 0x00, 0x00, 0x00, 0x00, 0x01,
    0x00, 0x00, 0x00, 0x02, 0x00, 0x00, 0x00, 0x00, 0x00, 0x00, 0x00, 0x00, 0x00, 0x00, 0x00, 0x00,
    0x00, 0x00, 0x00, 0x00, 0x00, 0x00, 0x00, 0x10, 0x10, 0x00, 0x00, 0x00, 0x00, 0x00, 0x00, 0x30,
    0x00, 0x00, 0x00, 0x00, 0x00, 0x00, 0x00, 0x02, 0x00, 0x00, 0x00, 0x01, 0x00, 0x00, 0x00, 0x08,
    0x00, 0x00, 0x00, 0x00, 0x00, 0x00, 0x00, 0x18, 0x00, 0x00, 0x00, 0x00, 0x00, 0x00, 0x00, 0x09,
    0x00, 0x00, 0x00, 0x03, 0x00, 0x00, 0x00, 0x00, 0x00, 0x00, 0x00, 0x00, 0x00, 0x00, 0x00, 0x00,
    0x00, 0x00, 0x00, 0x00, 0x00, 0x00, 0x00, 0x40, 0x10, 0x00, 0x00, 0x00, 0x00, 0x00, 0x00, 0x08,
    0x00, 0x00, 0x00, 0x00, 0x00, 0x00, 0x00, 0x00, 0x00, 0x00, 0x00, 0x00, 0x00, 0x00, 0x00, 0x01,
    0x00, 0x00, 0x00, 0x00, 0x00, 0x00, 0x00, 0x00, 0x00, 0x00, 0x00, 0x00, 0x00, 0x00, 0x00, 0x11,
    0x00, 0x00, 0x00, 0x03, 0x00, 0x00, 0x00, 0x00, 0x00, 0x00, 0x00, 0x00, 0x00, 0x00, 0x00, 0x00,
    0x00, 0x00, 0x00, 0x00, 0x00, 0x00, 0x00, 0x48, 0x10, 0x00, 0x00, 0x00, 0x00, 0x00, 0x00, 0x1b,
    0x00, 0x00, 0x00, 0x00, 0x00, 0x00, 0x00, 0x00, 0x00, 0x00, 0x00, 0x00, 0x00, 0x00, 0x00, 0x01,
    0x00, 0x00, 0x00, 0x00, 0x00, 0x00, 0x00, 0x00, 0x00, 0x00, 0x00, 0x00, 0x00, 0x00, 0x00,
];

/// The same image with a symbol table: the header's fields e_shoff, e_shnum and e_shstrndx, and the table.
fn image_with_table(alloc: Global) -> Result<Vec<u8>, Fail> {
    let mut bytes = image(alloc)?;
    for (at, byte) in [(40, 0x68), (41, 0x10), (60, 4), (62, 3)] {
        *bytes.get_mut(at).ok_or("the image")? = byte;
    }
    bytes.extend_from_slice(&TABLE)?;
    Ok(bytes)
}

/// The link of files by a line.
fn link_of(alloc: Global, files: &[InputFile], line: &str) -> Result<Output, Fail> {
    let words = words_of(alloc, line)?;
    Ok(linked_by(alloc, files, &words)??)
}

/// Asserts the image and the map of a command line over the object alone.
fn assert_output<R: Abort + AllocGlobal>(
    rt: &R,
    line: &str,
    image: &[u8],
    map: &[u8],
) -> Result<(), Fail> {
    let files = one_file(rt.alloc(), "a.o", &OBJECT)?;
    let output = link_of(rt.alloc(), &files, line)?;
    assert!(rt; output.image.as_slice() == image, "{line}");
    assert!(rt; output.map.as_slice() == map, "{line}");
    Ok(())
}

#[test]
fn an_image_ends_with_its_symbol_table(rt: HostRuntime) -> Result<(), Fail> {
    let whole = image_with_table(rt.alloc())?;
    assert_eq!(rt; whole.len(), 4456);
    assert_output(&rt, "a.o", &whole, TABLE_MAP)?;
    assert_output(&rt, "a.o -s", &image(rt.alloc())?, MAP)
}

/// The image of the object, with or without a symbol table, with a byte changed where one is given.
fn changed_image(alloc: Global, table: bool, change: Option<(usize, u8)>) -> Result<Vec<u8>, Fail> {
    let mut bytes = if table {
        image_with_table(alloc)?
    } else {
        image(alloc)?
    };
    if let Some((at, byte)) = change {
        *bytes.get_mut(at).ok_or("the image")? = byte;
    }
    Ok(bytes)
}

/// What the check says of an image.
fn verdict_of(alloc: Global, line: &str, map: &[u8], image: &[u8]) -> Result<Verdict, Fail> {
    let files = one_file(alloc, "a.o", &OBJECT)?;
    let words = words_of(alloc, line)?;
    Ok(check(alloc, &files, &words, image, map)?)
}

/// What it says of the image of the object, with or without a symbol table, with a byte changed where one is given.
fn verdict_on(
    alloc: Global,
    line: &str,
    map: &[u8],
    table: bool,
    change: Option<(usize, u8)>,
) -> Result<Verdict, Fail> {
    let image = changed_image(alloc, table, change)?;
    verdict_of(alloc, line, map, &image)
}

/// Texts of the map with a table, others that are put for them, and what the check says of the map.
static CHANGED_MAPS: [(&str, &str, Verdict); 3] = [
    ("symtab 4112 2", "symtab 4112 3", Verdict::No(Clause::C14)),
    ("symtab 4112 2", "symtab 4120 2", Verdict::No(Clause::C14)),
    ("ldmap 2", "ldmap 1", Verdict::No(Clause::C1)),
];

#[test]
fn the_check_asks_for_the_table_that_words_and_map_name(rt: HostRuntime) -> Result<(), Fail> {
    let rows = [
        ("a.o", OLD_MAP, false, Verdict::Yes),
        ("-s a.o", OLD_MAP, false, Verdict::Yes),
        ("-s a.o", MAP, false, Verdict::Yes),
        ("a.o", MAP, false, Verdict::No(Clause::C14)),
        ("a.o", TABLE_MAP, true, Verdict::Yes),
        ("-s a.o", TABLE_MAP, true, Verdict::No(Clause::C14)),
        ("a.o", TABLE_MAP, false, Verdict::No(Clause::C14)),
        // Without the line the file ends with its last part.
        ("-s a.o", MAP, true, Verdict::No(Clause::C11)),
    ];
    for (number, (line, map, table, wanted)) in rows.into_iter().enumerate() {
        let verdict = verdict_on(rt.alloc(), line, map, table, None)?;
        assert_eq!(rt; verdict, wanted, "{number}");
    }
    for (old, new, wanted) in &CHANGED_MAPS {
        let map = replaced(rt.alloc(), TABLE_MAP, old, new)?;
        let verdict = verdict_on(rt.alloc(), "a.o", &map, true, None)?;
        assert_eq!(rt; verdict, *wanted, "{new}");
    }
    Ok(())
}

#[test]
fn each_byte_of_a_table_counts(rt: HostRuntime) -> Result<(), Fail> {
    for (offset, byte) in TABLE.iter().enumerate() {
        let at = 0x1009_usize.saturating_add(offset);
        let verdict = verdict_on(rt.alloc(), "a.o", TABLE_MAP, true, Some((at, !byte)))?;
        assert_eq!(rt; verdict, Verdict::No(Clause::C14), "{at}");
    }
    let one = verdict_on(rt.alloc(), "a.o", TABLE_MAP, true, Some((0x1009, 1)))?;
    assert_eq!(rt; one, Verdict::No(Clause::C14));
    // e_shoff: another multiple of 8 inside the file.
    let moved = verdict_on(rt.alloc(), "a.o", TABLE_MAP, true, Some((40, 0x60)))?;
    assert_eq!(rt; moved, Verdict::No(Clause::C14));
    Ok(())
}

/// A weak absolute object, a thread-local one, and the linker's name `__bss_start`.
const WEAK_OBJECT: NamedSymbol<'static> = NamedSymbol {
    name: "w",
    st_info: 0x21,
    st_shndx: 0xfff1,
    st_value: 0x1234,
    st_size: 5,
};

const THREAD_OBJECT: NamedSymbol<'static> = NamedSymbol {
    name: "t",
    st_info: 0x16,
    st_shndx: 2,
    st_value: 0,
    st_size: 4,
};

const ZERO_START: NamedSymbol<'static> = NamedSymbol {
    name: "__bss_start",
    ..NO_F
};

/// The entries of `__bss_start`, `_start`, `c` and `w`, in this order, behind that of number 0, and their names.
static EACH_KIND: [u8; 120] = [
    0x01, 0x00, 0x00, 0x00, 0x10, 0x00, 0xf1, 0xff, 0x08, 0x20, 0x40, 0x00, 0x00, 0x00, 0x00, 0x00,
    0x00, 0x00, 0x00, 0x00, 0x00, 0x00, 0x00, 0x00, 0x0d, 0x00, 0x00, 0x00, 0x12, 0x00, 0xf1, 0xff,
    0x00, 0x10, 0x40, 0x00, 0x00, 0x00, 0x00, 0x00, 0x09, 0x00, 0x00, 0x00, 0x00, 0x00, 0x00, 0x00,
    0x14, 0x00, 0x00, 0x00, 0x11, 0x00, 0xf1, 0xff, 0x08, 0x20, 0x40, 0x00, 0x00, 0x00, 0x00, 0x00,
    0x08, 0x00, 0x00, 0x00, 0x00, 0x00, 0x00, 0x00, 0x16, 0x00, 0x00, 0x00, 0x21, 0x00, 0xf1, 0xff,
    0x34, 0x12, 0x00, 0x00, 0x00, 0x00, 0x00, 0x00, 0x05, 0x00, 0x00, 0x00, 0x00, 0x00, 0x00, 0x00,
    0x00, 0x5f, 0x5f, 0x62, 0x73, 0x73, 0x5f, 0x73, 0x74, 0x61, 0x72, 0x74, 0x00, 0x5f, 0x73, 0x74,
    0x61, 0x72, 0x74, 0x00, 0x63, 0x00, 0x77, 0x00,
];

/// The link of an object with a definition of each kind.
fn output_of_kinds(alloc: Global) -> Result<Output, Fail> {
    let symbols = [START, WEAK_OBJECT, COMMON, THREAD_OBJECT, ZERO_START];
    let relocations = [Relocation(1, 1, R_PC32, 5, 0)];
    let bytes = relocatable(alloc, &[TEXT, THREAD_DATA], &symbols, &relocations)?;
    let files = one_file(alloc, "a.o", &bytes)?;
    link_of(alloc, &files, "a.o")
}

#[test]
fn each_kind_of_definition_has_its_entry(rt: HostRuntime) -> Result<(), Fail> {
    let output = output_of_kinds(rt.alloc())?;
    assert_eq!(rt; output.image.len(), 0x21b8);
    assert!(rt; has_bytes(&output.image, 0x2020, &EACH_KIND));
    assert!(rt; output.map.ends_with(b"symtab 8200 5\nend\n"));
    Ok(())
}

//! C12 and C14: the entry, and the symbol table with what the map and the file header tell of it.
use crate::tests::lines::{Row, assert_rows, changed_lines, row_lines};
use crate::tests::samples::PLAIN;
use link_samples::links::Change;
use std::test::Fail;

/// A byte of `e_entry`, and an entry that nothing defines.
static ENTRY: [Row; 2] = [
    (
        PLAIN,
        Change::Image(24, 1),
        "the entry _start is at 0x401000, and e_entry is 0x401001\n",
    ),
    (
        PLAIN,
        Change::Words("-s a.o -e x"),
        "the entry x has no definition outside thread-local storage\n",
    ),
];

#[test]
fn the_entry_is_explained(rt: HostRuntime) -> Result<(), Fail> {
    assert_rows(&rt, &ENTRY)
}

/// A line of a table under -s.
const TOLD: Row = (
    PLAIN,
    Change::Text("end\n", "symtab 4112 2\nend\n"),
    "the map has a symtab line, and -s is among the words\n\
     the file header: e_shnum is 0, and should be 4\n\
     the file header: e_shstrndx is 0, and should be 3\n\
     the file header: e_shoff is 0x0, and should be 0x1068\n\
     the image at byte 0x1009, after its last segment, is the end of the file, and should be 0x00\n",
);

/// The offset and the count of a line; a byte of an entry and one of a name; `e_shoff`.
static TABLES: [(Change, &str); 5] = [
    (
        Change::Text("symtab 4112 2", "symtab 4120 2"),
        "the map's symtab line: the offset is 4120, and should be 4112\n",
    ),
    (
        Change::Text("symtab 4112 2", "symtab 4112 3"),
        "the map's symtab line: the number of entries is 3, and should be 2\n",
    ),
    (
        Change::Image(4144, 1),
        "the image at byte 0x1030, after its last segment, in entry 1 of the symbol table, of _start, is 0x01, and should be 0x00\n",
    ),
    (
        Change::Image(4161, 0x78),
        "the image at byte 0x1041, after its last segment, is 0x78, and should be 0x5f\n",
    ),
    (
        Change::Image(40, 0x60),
        "the file header: e_shoff is 0x1060, and should be 0x1068\n",
    ),
];

#[test]
fn symbol_tables_are_explained(rt: HostRuntime) -> Result<(), Fail> {
    for (change, wanted) in &TABLES {
        let lines = changed_lines(rt.alloc(), PLAIN, "a.o", change, 9)?;
        assert_eq!(rt; lines.as_str(), *wanted);
    }
    assert_rows(&rt, &[TOLD])
}

/// How many lines of five are told.
static COUNTED: [(usize, &str); 2] = [
    (0, "and 5 more\n"),
    (
        1,
        "the map has a symtab line, and -s is among the words\n\
         and 4 more\n",
    ),
];

#[test]
fn places_beyond_the_most_are_counted(rt: HostRuntime) -> Result<(), Fail> {
    for (most, wanted) in &COUNTED {
        let lines = row_lines(rt.alloc(), &TOLD, *most)?;
        assert_eq!(rt; lines.as_str(), *wanted, "{most}");
    }
    Ok(())
}

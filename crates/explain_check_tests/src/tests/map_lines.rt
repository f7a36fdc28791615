//! C2, C3 and C13: lines of the map that are others than they should be, too many, or missing.
use crate::tests::lines::{Row, assert_rows};
use crate::tests::samples::{PLAIN, TWO, WITH_COMMON};
use link_samples::links::Change;
use std::test::Fail;

static OBJECT_LINES: [Row; 3] = [
    (
        PLAIN,
        Change::Text("0 0 0 a.o", "0 0 0 b.o"),
        "line 2 of the map: object 0 0 0 b.o: should be object 0 0 0 a.o\n",
    ),
    (
        TWO,
        Change::Text("object 1 1 0 b.o\n", ""),
        "the map lacks: object 1 1 0 b.o\n",
    ),
    (
        PLAIN,
        Change::Text("a.o\n", "a.o\nobject 1 1 0 b.o\nobject 2 2 0 c.o\n"),
        "line 3 of the map: object 1 1 0 b.o: no more objects are loaded\n",
    ),
];

#[test]
fn object_lines_are_explained(rt: HostRuntime) -> Result<(), Fail> {
    assert_rows(&rt, &OBJECT_LINES)
}

static SECTION_LINES: [Row; 6] = [
    (
        PLAIN,
        Change::Text("place", "drop 0 2\nplace"),
        "line 3 of the map: drop 0 2: no more sections are dropped\n",
    ),
    (
        PLAIN,
        Change::Text(" 9 0 1 .text", " 8 0 1 .texu"),
        "line 3 of the map: place 0000000000401000 8 0 1 .texu: should be place 0000000000000000 9 0 1 .text, at any address\n",
    ),
    (
        TWO,
        Change::Text("place 0000000000401009 9 1 1 .text\n", ""),
        "the map lacks: place 0000000000000000 9 1 1 .text, at any address\n",
    ),
    (
        PLAIN,
        Change::Text(".text\n", ".text\ncommon 0000000000402000 8 8 c\n"),
        "line 4 of the map: common 0000000000402000 8 8 c: the name has no common block\n",
    ),
    (
        WITH_COMMON,
        Change::Text("8 8 c\n", "8 4 c\n"),
        "line 4 of the map: common 0000000000402000 8 4 c: should be common 0000000000000000 8 8 c, at any address\n",
    ),
    (
        WITH_COMMON,
        Change::Text("common 0000000000402000 8 8 c\n", ""),
        "the map lacks: common 0000000000000000 8 8 c, at any address\n",
    ),
];

#[test]
fn section_lines_are_explained(rt: HostRuntime) -> Result<(), Fail> {
    assert_rows(&rt, &SECTION_LINES)
}

static SYMBOL_LINES: [Row; 5] = [
    (
        PLAIN,
        Change::Text("strong 0 1 _start", "weak 0 1 _start"),
        "line 4 of the map: symbol 0000000000401000 weak 0 1 _start: should be symbol 0000000000401000 strong 0 1 _start\n",
    ),
    (
        PLAIN,
        Change::Text(
            "symbol 0000000000401000 strong",
            "symbol 0000000000401001 strong",
        ),
        "line 4 of the map: symbol 0000000000401001 strong 0 1 _start: should be symbol 0000000000401000 strong 0 1 _start\n",
    ),
    (
        PLAIN,
        Change::Text("symbol 0000000000401000 strong 0 1 _start\n", ""),
        "the map lacks: symbol 0000000000401000 strong 0 1 _start\n",
    ),
    (
        PLAIN,
        Change::Text("end\n", "symbol 0000000000401000 strong 0 1 f\nend\n"),
        "line 5 of the map: symbol 0000000000401000 strong 0 1 f: the name has no line\n",
    ),
    (
        WITH_COMMON,
        Change::Text("common c\n", "linker c\n"),
        "line 6 of the map: symbol 0000000000402000 linker c: should be symbol 0000000000402000 common c\n",
    ),
];

#[test]
fn symbol_lines_are_explained(rt: HostRuntime) -> Result<(), Fail> {
    assert_rows(&rt, &SYMBOL_LINES)
}

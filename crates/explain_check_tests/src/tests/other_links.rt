//! Images that are changed in several bytes, or checked with other files and another map.
use crate::tests::lines::lines_of;
use crate::tests::samples::{PLAIN, WITH_DATA};
use link_samples::links::{File, files_of, linked_by};
use link_samples::objects::Section;
use link_samples::one_object::words_of;
use link_samples::parts::{BSS, START, TEXT, THREAD_DATA};
use std::alloc::Global;
use std::test::Fail;

/// Files that are linked by `-s a.o`, bytes of the image that are changed, the files and the map with which it is checked,
/// and the lines of where that fails.
type Row = (
    &'static [File],
    &'static [(usize, u8)],
    &'static [File],
    &'static [u8],
    &'static str,
);

/// The lines of where the check of a row fails.
fn row_lines(alloc: Global, row: &Row) -> Result<String, Fail> {
    let (linked, bytes, checked, map, _) = row;
    let words = words_of(alloc, "-s a.o")?;
    let files = files_of(alloc, linked)?;
    let mut output = linked_by(alloc, &files, &words)??;
    for (at, byte) in bytes.iter() {
        *output.image.get_mut(*at).ok_or("the image")? = *byte;
    }
    let files = files_of(alloc, checked)?;
    lines_of(alloc, &files, &words, &output.image, map, 9)
}

/// A segment of no bytes in the file and eight in memory.
const ZEROED: &[File] = &[File::Object("a.o", &[TEXT, BSS], &[START], &[])];

/// A thread-local section of no bytes, which may be anywhere.
const EARLY: Section<'static> = Section {
    name: "early",
    sh_addralign: 1,
    bytes: &[],
    ..THREAD_DATA
};

const WITH_EARLY: &[File] = &[File::Object("a.o", &[TEXT, EARLY, THREAD_DATA], &[START], &[])];

/// A segment for a section that isn't there; a GOT for which no relocation asks; and thread-local sections that begin with
/// the empty one 16 bytes before the segment of the others, in the map and in PT_TLS, the header at byte 0xe8.
static OTHERS: [Row; 3] = [
    (
        ZEROED,
        &[],
        PLAIN,
        b"ldmap 2\nobject 0 0 0 a.o\nplace 0000000000401000 9 0 1 .text\nsymbol 0000000000401000 strong 0 1 _start\nend\n",
        "segment 2 at 0x402000: nothing is in it\n",
    ),
    (
        WITH_DATA,
        &[],
        WITH_DATA,
        b"ldmap 2\nobject 0 0 0 a.o\nplace 0000000000401000 9 0 1 .text\nplace 0000000000402000 8 0 2 .data\n\
          got 0000000000402008 0\nsymbol 0000000000401000 strong 0 1 _start\nend\n",
        "the map has a GOT, for which no relocation asks\n\
         the map's got line: the size is 0, and should be 8\n",
    ),
    (
        WITH_EARLY,
        &[
            (0xf0, 0xf0),
            (0xf1, 0x1f),
            (0xf8, 0xf0),
            (0xf9, 0x1f),
            (0x100, 0xf0),
            (0x101, 0x1f),
            (0x108, 0x14),
            (0x110, 0x14),
        ],
        WITH_EARLY,
        b"ldmap 2\nobject 0 0 0 a.o\nplace 0000000000401000 9 0 1 .text\nplace 0000000000401ff0 0 0 2 early\n\
          place 0000000000402000 4 0 3 .tdata\nsymbol 0000000000401000 strong 0 1 _start\nend\n",
        "PT_TLS: no segment holds its 0x14 bytes from 0x401ff0 on\n",
    ),
];

#[test]
fn other_links_are_explained(rt: HostRuntime) -> Result<(), Fail> {
    for (number, row) in OTHERS.iter().enumerate() {
        let lines = row_lines(rt.alloc(), row)?;
        assert_eq!(rt; lines.as_str(), row.4, "row {number}");
    }
    Ok(())
}

//! Archives as they are read. Offsets, sizes and index data were counted by hand from ar(5).
use ar_index::{Archive, IndexEntry, Member};
use byteview::View;
use std::alloc::{AllocError, Global};
use std::test::Fail;

/// A member as a file has it: its name and its size as the header spells them, and the bytes behind the
/// header, the one that makes their number even too.
type Part = (&'static str, &'static str, &'static [u8]);

/// A member of two bytes, one without bytes, and indexes without entries.
const AB: Part = ("a.o/", "2", b"ab");

const EMPTY: Part = ("a.o/", "0", b"");

const NO_ENTRY: Part = ("/", "4", b"\0\0\0\0");

const NO_WIDE_ENTRY: Part = ("/SYM64/", "8", b"\0\0\0\0\0\0\0\0");

/// Good archives, with what their index and their ordinary members are.
static ARCHIVES: [(&[Part], &str); 12] = [
    (&[], "no index;"),
    (
        &[("/", "10", b"\0\0\0\x01\0\0\0\x4ef\0"), AB],
        "f=78; 78:ab;",
    ),
    // The index with numbers of 8 bytes.
    (
        &[
            ("/SYM64/", "18", b"\0\0\0\0\0\0\0\x01\0\0\0\0\0\0\0\x56f\0"),
            AB,
        ],
        "f=86; 86:ab;",
    ),
    // Two entries of one member, out of the order of names and of members, then zeros.
    (
        &[
            (
                "/",
                "24",
                b"\0\0\0\x03\0\0\0\x9a\0\0\0\x5c\0\0\0\x9ag\0f\0h\0\0\0",
            ),
            ("a.o/", "1", b"a\n"),
            ("b.o/", "0", b""),
        ],
        "g=154; f=92; h=154; 92:a; 154:;",
    ),
    // An index without entries, and one of entries without a name.
    (&[NO_ENTRY, EMPTY], "72:;"),
    (
        &[("/", "14", b"\0\0\0\x02\0\0\0\x52\0\0\0\x52\0\0"), EMPTY],
        "=82; =82; 82:;",
    ),
    // No index.
    (
        &[("a.o/", "3", b"abc\n"), ("b c.o/", "2", b"de")],
        "no index; 8:abc; 72:de;",
    ),
    // A name that fills its field, a size that fills its own.
    (
        &[("abcdefghijklmno/", "0000000001", b"a\n")],
        "no index; 8:a;",
    ),
    // Long names: the first text, one that begins inside it, the next one, one with zeros in front, an empty
    // one and one with a slash.
    (
        &[
            ("//", "18", b"alpha.o/\nb/c.o/\n/\n"),
            ("/0", "0", b""),
            ("/4", "0", b""),
            ("/9", "0", b""),
            ("/0009", "0", b""),
            ("/16", "0", b""),
            ("/000000000000010", "0", b""),
        ],
        "no index; 86:; 146:; 206:; 266:; 326:; 386:;",
    ),
    // Long names behind an index and behind a short name.
    (
        &[
            ("/", "10", b"\0\0\0\x01\0\0\x01\0f\0"),
            ("s.o/", "0", b""),
            (
                "//",
                "58",
                b"a_name_of_more_than_fifteen_bytes.o/\nand_another_one.oo/\n\n",
            ),
            ("/0", "1", b"x\n"),
        ],
        "f=256; 78:; 256:x;",
    ),
    // Long names without a member that uses them.
    (&[("//", "1", b"\n\n")], "no index;"),
    // What GNU ar 2.40 made of a.o and a_long_object_name.o (`ar rcsD`), of which each has 4 of its 496 bytes.
    (
        &[
            ("/", "26", b"\0\0\0\x02\0\0\0\xb0\0\0\0\xf0_start\0_start\0"),
            ("//", "22", b"a_long_object_name.o/\n"),
            ("a.o/", "4", b"\x7fELF"),
            ("/0", "4", b"\x7fELF"),
        ],
        "_start=176; _start=240; 176:\x7fELF; 240:\x7fELF;",
    ),
];

fn put_padded(bytes: &mut Vec<u8>, field: &str, width: usize) -> Result<(), AllocError> {
    bytes.extend_from_slice(field.as_bytes())?;
    for _ in field.len()..width {
        bytes.push(b' ')?;
    }
    Ok(())
}

fn put_part(bytes: &mut Vec<u8>, part: &Part) -> Result<(), AllocError> {
    put_padded(bytes, part.0, 16)?;
    bytes.extend_from_slice(b"0           0     0     644     ")?;
    put_padded(bytes, part.1, 10)?;
    bytes.extend_from_slice(b"`\n")?;
    bytes.extend_from_slice(part.2)
}

/// The archive of some members.
fn archive_of(alloc: Global, parts: &[Part]) -> Result<Vec<u8>, AllocError> {
    let mut bytes = Vec::from_slice(alloc, b"!<arch>\n")?;
    for part in parts {
        put_part(&mut bytes, part)?;
    }
    Ok(bytes)
}

fn put_index(
    told: &mut Vec<u8>,
    alloc: Global,
    entries: &[IndexEntry<'_>],
) -> Result<(), AllocError> {
    for entry in entries {
        told.extend_from_slice(entry.name())?;
        let offset = entry.offset();
        told.extend_from_slice(format!(in alloc; "={offset}; ")?.as_bytes())?;
    }
    Ok(())
}

fn put_members(
    told: &mut Vec<u8>,
    alloc: Global,
    members: &[Member<'_>],
) -> Result<(), AllocError> {
    for member in members {
        let offset = member.offset();
        told.extend_from_slice(format!(in alloc; "{offset}:")?.as_bytes())?;
        told.extend_from_slice(member.bytes())?;
        told.extend_from_slice(b"; ")?;
    }
    Ok(())
}

/// What an archive's index and its ordinary members are, or the fault of the bytes.
fn told(alloc: Global, bytes: &[u8]) -> Result<Vec<u8>, AllocError> {
    let mut told = Vec::new(alloc);
    match Archive::read(alloc, View::new(bytes)) {
        Ok(archive) => {
            match archive.index() {
                Some(entries) => put_index(&mut told, alloc, entries)?,
                None => told.extend_from_slice(b"no index; ")?,
            }
            put_members(&mut told, alloc, archive.members())?;
        }
        Err(fault) => told.extend_from_slice(format!(in alloc; "{fault}; ")?.as_bytes())?,
    }
    Ok(told)
}

/// The number of the first row whose archive is told otherwise.
fn first_other(
    alloc: Global,
    rows: &[(&'static [Part], &'static str)],
) -> Result<Option<usize>, AllocError> {
    for (number, (parts, text)) in rows.iter().enumerate() {
        let bytes = archive_of(alloc, parts)?;
        let told = told(alloc, &bytes)?;
        if told.as_slice().trim_ascii_end() != text.as_bytes() {
            return Ok(Some(number));
        }
    }
    Ok(None)
}

/// Members that are faulty behind the magic, and the fault.
static FAULTS: [(&[Part], &str); 38] = [
    // A member's bytes, and the byte behind an odd number of them, run past the end.
    (&[("a.o/", "9999999999", b"ab")], "Truncated (3);"),
    (&[("a.o/", "3", b"ab")], "Truncated (3);"),
    (&[("a.o/", "1", b"a")], "Truncated (3);"),
    (&[("/", "10", b"\0\0\0\x01\0\0\0\x4e")], "Truncated (3);"),
    // No header fits.
    (&[("a.o/", "0", b"\n")], "Truncated (3);"),
    // No size, one behind a space, one with more behind it; another byte than a line feed.
    (&[("a.o/", "", b"")], "BadHeader (4);"),
    (&[("a.o/", " 0", b"")], "BadHeader (4);"),
    (&[("a.o/", "0x", b"")], "BadHeader (4);"),
    (&[("a.o/", "0 0", b"")], "BadHeader (4);"),
    (&[("a.o/", "-1", b"")], "BadHeader (4);"),
    (&[("a.o/", "1", b"a\0")], "BadHeader (4);"),
    // An index behind a member, behind long names, behind another one of either kind.
    (&[EMPTY, NO_ENTRY], "BadIndex (5);"),
    (&[("//", "0", b""), NO_ENTRY], "BadIndex (5);"),
    (&[NO_ENTRY, NO_ENTRY], "BadIndex (5);"),
    (&[NO_ENTRY, NO_WIDE_ENTRY], "BadIndex (5);"),
    (&[NO_WIDE_ENTRY, NO_ENTRY], "BadIndex (5);"),
    // No count; more entries than numbers, by far; more than texts; other bytes than zeros behind them.
    (&[("/", "0", b"")], "BadIndex (5);"),
    (&[("/", "3", b"\0\0\0\n")], "BadIndex (5);"),
    (&[("/SYM64/", "4", b"\0\0\0\0")], "BadIndex (5);"),
    (
        &[("/", "10", b"\xff\xff\xff\xff\0\0\0\x4ef\0"), AB],
        "BadIndex (5);",
    ),
    (
        &[
            ("/SYM64/", "18", b"\x20\0\0\0\0\0\0\0\0\0\0\0\0\0\0\x56f\0"),
            AB,
        ],
        "BadIndex (5);",
    ),
    (
        &[("/", "10", b"\0\0\0\x01\0\0\0\x4efg"), AB],
        "BadIndex (5);",
    ),
    (
        &[("/", "14", b"\0\0\0\x02\0\0\0\x52\0\0\0\x52f\0"), AB],
        "BadIndex (5);",
    ),
    (
        &[("/", "12", b"\0\0\0\x01\0\0\0\x50f\0\0x"), AB],
        "BadIndex (5);",
    ),
    // An entry of the index itself, of the member's data, of the long names, of the end, of nothing.
    (
        &[("/", "10", b"\0\0\0\x01\0\0\0\x08f\0"), AB],
        "BadIndex (5);",
    ),
    (
        &[("/", "10", b"\0\0\0\x01\0\0\0\x8af\0"), AB],
        "BadIndex (5);",
    ),
    (
        &[("/", "10", b"\0\0\0\x01\0\0\0\x4ef\0"), ("//", "2", b"ab")],
        "BadIndex (5);",
    ),
    (
        &[("/", "10", b"\0\0\0\x01\0\0\0\x8cf\0"), AB],
        "BadIndex (5);",
    ),
    (
        &[("/", "10", b"\0\0\0\x01\0\0\0\0f\0"), AB],
        "BadIndex (5);",
    ),
    // No slash, only a slash too many, more behind it, no name.
    (&[("a.o", "0", b"")], "BadName (6);"),
    (&[("a.o//", "0", b"")], "BadName (6);"),
    (&[("a.o/ b", "0", b"")], "BadName (6);"),
    (&[("", "0", b"")], "BadName (6);"),
    // A long name past the long names, without an end, without them, before them; long names a second time.
    (&[("//", "4", b"ab/\n"), ("/99", "0", b"")], "BadName (6);"),
    (&[("//", "4", b"a/b\n"), ("/0", "0", b"")], "BadName (6);"),
    (&[("/0", "0", b"")], "BadName (6);"),
    (&[("/0", "0", b""), ("//", "4", b"ab/\n")], "BadName (6);"),
    (&[("//", "0", b""), ("//", "0", b"")], "BadName (6);"),
];

#[test]
fn archives_are_read(rt: HostRuntime) -> Result<(), Fail> {
    assert_eq!(rt; first_other(rt.alloc(), &ARCHIVES)?, None);
    assert_eq!(rt; first_other(rt.alloc(), &FAULTS)?, None);
    Ok(())
}

/// Whole files, and what they are: what GNU ar 2.40 made of three files, two of them with long names
/// (`ar rcD`), and files without the magic, without a whole header, or with one that ends otherwise.
static FILES: [(&[u8], &str); 9] = [
    (
        b"!<arch>\n//                                              54        `\na_rather_long_member_name.txt/\nanother_long_name.txt/\nshort.txt/      0           0     0     644     3         `\nabc\n/0              0           0     0     644     6         `\nhello\n/31             0           0     0     644     1         `\nx\n",
        "no index; 122:abc; 186:hello\n; 252:x;",
    ),
    (b"", "NotArchive (2);"),
    (b"!<arch>", "NotArchive (2);"),
    (b"!<thin>\n", "NotArchive (2);"),
    (b"\x7fELF\x02\x01\x01\0", "NotArchive (2);"),
    (b"!<arch>\n\n", "Truncated (3);"),
    (
        b"!<arch>\na.o/            0           0     0     644     0         `",
        "Truncated (3);",
    ),
    (
        b"!<arch>\na.o/            0           0     0     644     0         \n`",
        "BadHeader (4);",
    ),
    (
        b"!<arch>\na.o/            0           0     0     644     0         `\n\n",
        "Truncated (3);",
    ),
];

#[test]
fn files_are_told(rt: HostRuntime) -> Result<(), Fail> {
    for (bytes, text) in &FILES {
        let told = told(rt.alloc(), bytes)?;
        assert_eq!(rt; told.as_slice().trim_ascii_end(), text.as_bytes());
    }
    Ok(())
}

/// Offsets in an archive of an index, a member of one byte at 78, one without bytes at 140 and long names at
/// 200, with the data of the member whose header is there.
static PLACES: [(u64, Option<&[u8]>); 11] = [
    (0, None),
    (8, None),
    (77, None),
    (78, Some(b"a")),
    (79, None),
    (138, None),
    (140, Some(b"")),
    (141, None),
    (200, None),
    (260, None),
    (u64::MAX, None),
];

#[test]
fn members_are_found_by_offset(rt: HostRuntime) -> Result<(), Fail> {
    let parts: [Part; 4] = [
        ("/", "10", b"\0\0\0\x01\0\0\0\x4ef\0"),
        ("a.o/", "1", b"a\n"),
        ("b.o/", "0", b""),
        ("//", "0", b""),
    ];
    let bytes = archive_of(rt.alloc(), &parts)?;
    let archive = Archive::read(rt.alloc(), View::new(&bytes))?;
    for (offset, data) in PLACES {
        let found = archive.member_at(offset).map(|v| v.bytes());
        assert_eq!(rt; found, data);
    }
    Ok(())
}

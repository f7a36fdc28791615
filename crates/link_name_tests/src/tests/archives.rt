//! Links with archives (ar(5)): which members are loaded, in which order, what is refused, and what the map says.
use link_samples::links::{File, Member, Row, Wanted, files_of, first_wrong, linked, text_of};
use link_samples::objects::{NamedSymbol, Relocation};
use link_samples::parts::{F, NO_F, R_64, START, TEXT, WEAK_NO_F};
use link_samples::vectors::MAP;
use std::alloc::Global;
use std::test::Fail;

const G: NamedSymbol<'static> = NamedSymbol { name: "g", ..F };

const H: NamedSymbol<'static> = NamedSymbol { name: "h", ..F };

const NO_G: NamedSymbol<'static> = NamedSymbol { name: "g", ..NO_F };

const NO_H: NamedSymbol<'static> = NamedSymbol { name: "h", ..NO_F };

/// The address of symbol 2 and 5 more.
const WANTS: Relocation = Relocation(1, 0, R_64, 2, 5);

/// Members that define a name in their text, or that also have the address of another one there.
const DEFINES_F: Member = Member {
    sections: &[TEXT],
    symbols: &[F],
    relocations: &[],
};

const DEFINES_G: Member = Member {
    symbols: &[G],
    ..DEFINES_F
};

const DEFINES_H: Member = Member {
    symbols: &[H],
    ..DEFINES_F
};

const F_WANTS_G: Member = Member {
    symbols: &[F, NO_G],
    relocations: &[WANTS],
    ..DEFINES_F
};

const G_WANTS_H: Member = Member {
    symbols: &[G, NO_H],
    ..F_WANTS_G
};

/// `a.o` wants `f`, `c.o` wants `g`, `w.o` wants `f` weakly, and `o.o` wants nothing. `libx.a` and one in a directory have
/// `f`, `libq.a` has `g`, which wants `h`, and `libn.a` has `f` and no index. `libp.a` has `f`, which wants `g`, and `h`;
/// `libr.a` has `f` and `g`, which its index has the other way round.
static FILES: [File; 12] = [
    File::Object("a.o", &[TEXT], &[START, NO_F], &[WANTS]),
    File::Object(
        "c.o",
        &[TEXT],
        &[NamedSymbol { name: "c", ..F }, NO_G],
        &[WANTS],
    ),
    File::Object("w.o", &[TEXT], &[START, WEAK_NO_F], &[WANTS]),
    File::Object("o.o", &[TEXT], &[START], &[]),
    File::Archive("libx.a", &[(b"f\0", 0)], &[DEFINES_F]),
    File::Archive("d2/libz.a", &[(b"f\0", 0)], &[DEFINES_F]),
    File::Archive("libq.a", &[(b"g\0", 0)], &[G_WANTS_H]),
    File::Archive("libn.a", &[], &[DEFINES_F]),
    File::Archive(
        "libp.a",
        &[(b"f\0", 0), (b"h\0", 1)],
        &[F_WANTS_G, DEFINES_H],
    ),
    File::Archive(
        "libr.a",
        &[(b"g\0", 1), (b"f\0", 0)],
        &[DEFINES_F, DEFINES_G],
    ),
    File::Bytes("e.a", b"!<arch>\n"),
    File::Bytes("t.a", b"!<arch>"),
];

/// A field of a line, whose fields are cut at spaces; empty where the line has fewer.
fn field<'a>(line: &'a str, number: usize) -> &'a str {
    line.split(' ').nth(number).unwrap_or("")
}

/// Adds what a line of the map tells: the item and the path of an object, or a name and its object's number.
fn add_told(told: &mut String, line: &str) -> Result<(), Fail> {
    let (first, second) = match field(line, 0) {
        "object" => (field(line, 2), field(line, 4)),
        "symbol" => (field(line, 5), field(line, 3)),
        _ => return Ok(()),
    };
    told.push_str(first)?;
    told.push(' ')?;
    told.push_str(second)?;
    told.push(';')?;
    Ok(())
}

/// What the map of a link of those files tells of objects and names, or the refusal.
fn told(alloc: Global, line: &str) -> Result<String, Fail> {
    let files = files_of(alloc, &FILES)?;
    let mut told = String::new(alloc);
    match linked(alloc, &files, line)? {
        Ok(output) => {
            for line in str::from_utf8(&output.map)?.lines() {
                add_told(&mut told, line)?;
            }
        }
        Err(error) => told.push_str(&text_of(alloc, &error)?)?,
    }
    Ok(told)
}

/// Lines, and what is told of their links.
static ROWS: [(&str, &str); 16] = [
    ("a.o libx.a", "0 a.o;1 libx.a;_start 0;f 1;"),
    ("libx.a a.o", "Undefined (10): f"),
    ("w.o libx.a", "0 w.o;_start 0;"),
    ("a.o libp.a libq.a", "Undefined (10): h"),
    (
        "a.o -( libp.a libq.a -)",
        "0 a.o;1 libp.a;2 libq.a;1 libp.a;_start 0;f 1;g 2;h 3;",
    ),
    (
        "a.o c.o libr.a",
        "0 a.o;1 c.o;2 libr.a;2 libr.a;_start 0;c 1;f 3;g 2;",
    ),
    ("a.o libn.a", "NoIndex (6)"),
    ("a.o --whole-archive libn.a", "0 a.o;1 libn.a;_start 0;f 1;"),
    (
        "a.o --whole-archive libx.a --no-whole-archive libx.a",
        "0 a.o;1 libx.a;_start 0;f 1;",
    ),
    (
        "o.o --whole-archive libr.a",
        "0 o.o;1 libr.a;1 libr.a;_start 0;f 1;g 2;",
    ),
    ("a.o -lz", "FileMissing (3)"),
    ("a.o -lz -L d1 -L d2", "0 a.o;1 d2/libz.a;_start 0;f 1;"),
    ("o.o libx.a -u f", "0 o.o;1 libx.a;_start 0;f 1;"),
    ("a.o e.a", "Undefined (10): f"),
    ("o.o t.a", "BadArchive (5): NotArchive (2)"),
    ("-e f libx.a", "0 libx.a;f 0;"),
];

#[test]
fn members_are_linked_for_needed_names(rt: HostRuntime) -> Result<(), Fail> {
    for (line, wanted) in &ROWS {
        assert_eq!(rt; told(rt.alloc(), line)?.as_str(), *wanted, "{line}");
    }
    Ok(())
}

/// The map of `a.o` and the member of `libx.a`, whose header stands behind the index of 10 bytes.
const MEMBER_MAP: &[u8] = b"ldmap 2\n\
    object 0 0 0 a.o\n\
    object 1 1 78 libx.a\n\
    place 0000000000401000 9 0 1 .text\n\
    place 0000000000401009 9 1 1 .text\n\
    symbol 0000000000401000 strong 0 1 _start\n\
    symbol 0000000000401009 strong 1 1 f\n\
    end\n";

const LIBX: File = File::Archive("libx.a", &[(b"f\0", 0)], &[DEFINES_F]);

static LINKS: [Row; 3] = [
    // An archive without members changes nothing.
    (
        &[
            File::Object("a.o", &[TEXT], &[START], &[]),
            File::Bytes("e.a", b"!<arch>\n"),
        ],
        "a.o e.a",
        Wanted::Vectors(MAP),
    ),
    (
        &[File::Object("a.o", &[TEXT], &[START, NO_F], &[WANTS]), LIBX],
        "a.o libx.a",
        Wanted::Linked(0, &[], MEMBER_MAP),
    ),
    // A weak name takes no member.
    (
        &[
            File::Object("w.o", &[TEXT], &[START, WEAK_NO_F], &[WANTS]),
            LIBX,
        ],
        "w.o libx.a",
        Wanted::Linked(0, &[(0x1000, &[5, 0, 0, 0, 0, 0, 0, 0])], b""),
    ),
];

#[test]
fn members_stand_at_their_headers(rt: HostRuntime) -> Result<(), Fail> {
    assert_eq!(rt; first_wrong(rt.alloc(), &LINKS)?, None);
    Ok(())
}

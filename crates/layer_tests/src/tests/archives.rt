//! Loading of archives: which members are taken, and in which order.
use crate::tests::loading::{load_words, put_file, words};
use crate::tests::objects::{F_NAME, G_NAME, H_NAME, START_NAME, SYMBOLS, TEXT, object_with};
use elf_model::{InputFile, STB_GLOBAL, STB_WEAK, Symbol};
use search::Loaded;
use std::alloc::{AllocError, Global};
use std::test::Fail;

/// Strong definitions at the beginning of the text, which is section 2.
const START: Symbol = Symbol {
    st_name: START_NAME,
    st_info: STB_GLOBAL << 4,
    st_shndx: 2,
    ..Symbol::NULL
};

const F: Symbol = Symbol {
    st_name: F_NAME,
    ..START
};

const G: Symbol = Symbol {
    st_name: G_NAME,
    ..START
};

const H: Symbol = Symbol {
    st_name: H_NAME,
    ..START
};

/// Undefined symbols, strong but for the last.
const WANTS_F: Symbol = Symbol { st_shndx: 0, ..F };

const WANTS_G: Symbol = Symbol { st_shndx: 0, ..G };

const WANTS_H: Symbol = Symbol { st_shndx: 0, ..H };

const MAY_WANT_F: Symbol = Symbol {
    st_info: STB_WEAK << 4,
    ..WANTS_F
};

/// An object of 520 bytes with two symbols behind the null one.
fn object(alloc: Global, first: Symbol, second: Symbol) -> Result<Vec<u8>, AllocError> {
    object_with(alloc, &[TEXT, SYMBOLS], &[first, second], &[])
}

/// Puts the header of a member (ar(5)): its name, and the size of its data, which is below 1000.
fn put_header(bytes: &mut Vec<u8>, name: &[u8; 16], size: usize) -> Result<(), AllocError> {
    bytes.extend_from_slice(name)?;
    bytes.extend_from_slice(b"0           0     0     644     ")?;
    for unit in [100, 10, 1] {
        bytes.push(b'0' + (size / unit % 10) as u8)?;
    }
    bytes.extend_from_slice(b"       `\n")
}

/// Puts a member and its pad byte.
fn put_member(bytes: &mut Vec<u8>, name: &[u8; 16], data: &[u8]) -> Result<(), AllocError> {
    put_header(bytes, name, data.len())?;
    bytes.extend_from_slice(data)?;
    if data.len() % 2 == 1 {
        bytes.push(b'\n')?;
    }
    Ok(())
}

/// The index of an archive: the offsets of the members that define names, and the names with their NULs.
fn index_of(alloc: Global, offsets: &[u32], names: &[u8]) -> Result<Vec<u8>, AllocError> {
    let count = u32::try_from(offsets.len()).unwrap_or(u32::MAX);
    let mut data = Vec::from_slice(alloc, &count.to_be_bytes())?;
    for offset in offsets {
        data.extend_from_slice(&offset.to_be_bytes())?;
    }
    data.extend_from_slice(names)?;
    Ok(data)
}

/// The two symbols of a member's object.
type Member = (Symbol, Symbol);

/// A file: an object with two symbols; an archive with the offsets and the names of its index, which it lacks where there
/// are none, and with members; or any bytes.
enum File {
    Object(Symbol, Symbol),
    Archive(&'static [u32], &'static [u8], &'static [Member]),
    Bytes(&'static [u8]),
}

/// An archive of members, with an index where there are names.
fn archive(
    alloc: Global,
    offsets: &[u32],
    names: &[u8],
    members: &[Member],
) -> Result<Vec<u8>, AllocError> {
    let mut bytes = Vec::from_slice(alloc, b"!<arch>\n")?;
    if !names.is_empty() {
        let index = index_of(alloc, offsets, names)?;
        put_member(&mut bytes, b"/               ", &index)?;
    }
    for (first, second) in members {
        let object = object(alloc, *first, *second)?;
        put_member(&mut bytes, b"m.o/            ", &object)?;
    }
    Ok(bytes)
}

/// `a.o` wants `f`, `b.o` wants `f` and `g`, `w.o` wants `f` weakly. `libx.a` and three in directories have `f`, `libq.a`
/// has `g`, which wants `h`, `libs.a` has the entry, `libn.a` has no index, and the member of `libt.a` is no object.
/// `libp.a` has `f`, which wants `g`, and `h`; the index of `libr.a` has `g` before `f`, and its members stand the other
/// way round.
static FILES: [(&str, File); 15] = [
    ("a.o", File::Object(START, WANTS_F)),
    ("b.o", File::Object(WANTS_F, WANTS_G)),
    ("w.o", File::Object(START, MAY_WANT_F)),
    ("libx.a", File::Archive(&[78], b"f\0", &[(F, START)])),
    ("d1/liby.a", File::Archive(&[78], b"f\0", &[(F, START)])),
    ("d2/liby.a", File::Archive(&[78], b"f\0", &[(F, START)])),
    ("d2/libz.a", File::Archive(&[78], b"f\0", &[(F, START)])),
    ("libq.a", File::Archive(&[78], b"g\0", &[(G, WANTS_H)])),
    ("libs.a", File::Archive(&[84], b"_start\0", &[(START, F)])),
    ("libn.a", File::Archive(&[], b"", &[(START, F)])),
    (
        "libt.a",
        File::Bytes(
            b"!<arch>\n/               0           0     0     644     10        `\n\0\0\0\x01\0\0\0\x4ef\0m.o/            0           0     0     644     63        `\n\0\0\0\0\0\0\0\0\0\0\0\0\0\0\0\0\0\0\0\0\0\0\0\0\0\0\0\0\0\0\0\0\0\0\0\0\0\0\0\0\0\0\0\0\0\0\0\0\0\0\0\0\0\0\0\0\0\0\0\0\0\0\0\n",
        ),
    ),
    (
        "libp.a",
        File::Archive(&[84, 664], b"f\0h\0", &[(F, WANTS_G), (H, START)]),
    ),
    (
        "libr.a",
        File::Archive(&[664, 84], b"g\0f\0", &[(F, WANTS_H), (G, WANTS_H)]),
    ),
    ("e.a", File::Bytes(b"!<arch>\n")),
    ("t.a", File::Bytes(b"!<arch>")),
];

/// All files.
fn files(alloc: Global) -> Result<Vec<InputFile>, AllocError> {
    let mut files = Vec::new(alloc);
    for (path, file) in &FILES {
        let bytes = match file {
            File::Object(first, second) => object(alloc, *first, *second)?,
            File::Archive(offsets, names, members) => archive(alloc, offsets, names, members)?,
            File::Bytes(bytes) => Vec::from_slice(alloc, bytes)?,
        };
        put_file(&mut files, alloc, path, bytes)?;
    }
    Ok(files)
}

/// Of each loaded object its item, the offset of its member and its path.
fn contents_of(alloc: Global, loaded: &Loaded<'_>) -> Result<String, AllocError> {
    let mut text = String::new(alloc);
    for o in loaded.objects() {
        let line = format!(in alloc; "{} {} {};", o.item, o.offset, o.path)?;
        text.push_str(&line)?;
    }
    Ok(text)
}

/// What words load, told so; or the fault.
fn loads_words(alloc: Global, words: &[String], files: &[InputFile]) -> Result<String, Fail> {
    match load_words(alloc, words, files)? {
        Ok(loaded) => Ok(contents_of(alloc, &loaded)?),
        Err(fault) => Ok(format!(in alloc; "{fault}")?),
    }
}

/// What the words of a line load: of each object its item, the offset of its member and its path; or the fault.
fn loads(alloc: Global, line: &str) -> Result<String, Fail> {
    let files = files(alloc)?;
    let words = words(alloc, line)?;
    loads_words(alloc, &words, &files)
}

/// Lines, and what they load.
static ROWS: [(&str, &str); 19] = [
    ("a.o libx.a", "0 0 a.o;1 78 libx.a;"),
    ("libx.a a.o", "1 0 a.o;"),
    ("w.o libx.a", "0 0 w.o;"),
    ("a.o libp.a libq.a", "0 0 a.o;1 84 libp.a;2 78 libq.a;"),
    (
        "a.o -( libp.a libq.a -)",
        "0 0 a.o;1 84 libp.a;2 78 libq.a;1 664 libp.a;",
    ),
    (
        "a.o -( libq.a libp.a -)",
        "0 0 a.o;2 84 libp.a;1 78 libq.a;2 664 libp.a;",
    ),
    ("b.o libr.a", "0 0 b.o;1 664 libr.a;1 84 libr.a;"),
    ("a.o libn.a", "NoIndex (5)"),
    ("a.o --whole-archive libn.a", "0 0 a.o;1 8 libn.a;"),
    (
        "a.o --whole-archive libx.a --no-whole-archive libx.a",
        "0 0 a.o;1 78 libx.a;",
    ),
    (
        "a.o -( --whole-archive libp.a -) libq.a",
        "0 0 a.o;1 84 libp.a;1 664 libp.a;2 78 libq.a;",
    ),
    ("a.o -lq", "FileMissing (2)"),
    ("a.o -ly -L d1 -L d2", "0 0 a.o;1 78 d1/liby.a;"),
    ("a.o -L d1 -L d2 -lz", "0 0 a.o;1 78 d2/libz.a;"),
    ("libx.a -u f", "0 78 libx.a;"),
    ("libs.a", "0 84 libs.a;"),
    ("a.o e.a", "0 0 a.o;"),
    ("a.o t.a libn.a", "BadArchive (4): NotArchive (2)"),
    ("a.o libt.a", "BadObject (3): Truncated (2)"),
];

#[test]
fn members_are_taken_for_needed_names(rt: HostRuntime) -> Result<(), Fail> {
    for (line, loaded) in &ROWS {
        assert_eq!(rt; loads(rt.alloc(), line)?.as_str(), *loaded);
    }
    Ok(())
}

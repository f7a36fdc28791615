//! Orders in which a link's objects may be loaded, and such as loading never comes to (ld(1): items in the command's order,
//! members of archives as they are asked for, -u, --start-group and --whole-archive). GNU ld 2.40, gold 1.16 and LLD 14 load in orders
//! of the first kind; mold 1.10 lays the members of an archive out in the archive's order, whichever of them asks for which.
use crate::tests::sample_objects::{Named, Part, object};
use command::read_words;
use elf_model::{InputFile, NameSeed, ObjectLine, SHF_ALLOC, SHF_EXECINSTR, SHT_PROGBITS};
use order_judge::{OrderFault, load_in_order};
use std::alloc::{AllocError, Global};
use std::test::Fail;

static PARTS: [Part; 1] = [Part(".text", SHT_PROGBITS, SHF_ALLOC + SHF_EXECINSTR, 1, 4)];

/// The symbols of an object: GLOBAL functions, and GLOBAL names that it asks for.
type Symbols = &'static [Named];

const HAS_START: Named = Named("_start", 0x12, 1, 0);

const ASKS_RIGHT: Named = Named("right", 0x10, 0, 0);

const ASKS_LEFT: Named = Named("left", 0x10, 0, 0);

const HAS_B1: Named = Named("b1", 0x12, 1, 0);

const HAS_B2: Named = Named("b2", 0x12, 1, 0);

const ASKS_NEAR: Named = Named("near", 0x10, 0, 0);

const ASKS_ONE: Named = Named("one", 0x10, 0, 0);

const HAS_LEFT: Named = Named("left", 0x12, 1, 0);

const HAS_RIGHT: Named = Named("right", 0x12, 1, 0);

const HAS_FAR: Named = Named("far", 0x12, 1, 0);

const HAS_NEAR: Named = Named("near", 0x12, 1, 0);

const ASKS_FAR: Named = Named("far", 0x10, 0, 0);

const HAS_ONE: Named = Named("one", 0x12, 1, 0);

const ASKS_TWO: Named = Named("two", 0x10, 0, 0);

const HAS_THREE: Named = Named("three", 0x12, 1, 0);

const HAS_TWO: Named = Named("two", 0x12, 1, 0);

const ASKS_THREE: Named = Named("three", 0x10, 0, 0);

/// An archive: the names of its index with the numbers of their members from 1 on, and the symbols of its members.
struct Archive(&'static [(&'static str, usize)], &'static [Symbols]);

/// `a.o` asks for `left` and `right`, `b.o` for nothing, `c.o` for `near` and `d.o` for `one`.
static OBJECTS: [(&str, Symbols); 4] = [
    ("a.o", &[HAS_START, ASKS_RIGHT, ASKS_LEFT]),
    ("b.o", &[HAS_B1, HAS_B2]),
    ("c.o", &[HAS_START, ASKS_NEAR]),
    ("d.o", &[HAS_START, ASKS_ONE]),
];

/// `pair.a` has `left` and `right`. In `chain.a` `near` asks for `far`, which stands before it. In `x.a` and `y.a` `one` asks for
/// `two`, and this for `three`. In `ring.a` each of two members asks for the other.
static ARCHIVES: [(&str, Archive); 5] = [
    (
        "pair.a",
        Archive(&[("left", 1), ("right", 2)], &[&[HAS_LEFT], &[HAS_RIGHT]]),
    ),
    (
        "chain.a",
        Archive(
            &[("far", 1), ("near", 2)],
            &[&[HAS_FAR], &[HAS_NEAR, ASKS_FAR]],
        ),
    ),
    (
        "x.a",
        Archive(
            &[("one", 1), ("three", 2)],
            &[&[HAS_ONE, ASKS_TWO], &[HAS_THREE]],
        ),
    ),
    ("y.a", Archive(&[("two", 1)], &[&[HAS_TWO, ASKS_THREE]])),
    (
        "ring.a",
        Archive(
            &[("left", 1), ("right", 2)],
            &[&[HAS_LEFT, ASKS_RIGHT], &[HAS_RIGHT, ASKS_LEFT]],
        ),
    ),
];

/// Puts a member: its header, its data and the pad byte.
fn put_member(bytes: &mut Vec<u8>, name: &[u8; 16], data: &[u8]) -> Result<(), AllocError> {
    bytes.extend_from_slice(name)?;
    bytes.extend_from_slice(b"0           0     0     644     ")?;
    for unit in [1000, 100, 10, 1] {
        bytes.push(b'0' + (data.len() / unit % 10) as u8)?;
    }
    bytes.extend_from_slice(b"      `\n")?;
    bytes.extend_from_slice(data)?;
    if data.len() % 2 == 1 {
        bytes.push(b'\n')?;
    }
    Ok(())
}

/// How many bytes a member takes up, with its header and the pad byte.
fn stored(data: &[u8]) -> usize {
    data.len().saturating_add(61) / 2 * 2
}

/// The members of an archive.
fn members_of(alloc: Global, archive: &Archive) -> Result<Vec<Vec<u8>>, Fail> {
    let mut members = Vec::new(alloc);
    for symbols in archive.1 {
        members.push(object(alloc, &PARTS, symbols)?)?;
    }
    Ok(members)
}

/// The names of an archive's index, with their NULs.
fn index_names(alloc: Global, archive: &Archive) -> Result<Vec<u8>, AllocError> {
    let mut names = Vec::new(alloc);
    for (name, _) in archive.0 {
        names.extend_from_slice(name.as_bytes())?;
        names.push(0)?;
    }
    Ok(names)
}

/// The offset of the header of a member, which has a number from 1 on.
fn offset_of(archive: &Archive, names: &[u8], members: &[Vec<u8>], number: usize) -> usize {
    let index = archive.0.len().saturating_mul(4).saturating_add(4);
    let mut offset = index.saturating_add(names.len()).saturating_add(69) / 2 * 2;
    for member in members.iter().take(number.saturating_sub(1)) {
        offset = offset.saturating_add(stored(member));
    }
    offset
}

/// The index of an archive.
fn index_of(alloc: Global, archive: &Archive, members: &[Vec<u8>]) -> Result<Vec<u8>, Fail> {
    let names = index_names(alloc, archive)?;
    let count = u32::try_from(archive.0.len())?;
    let mut bytes = Vec::from_slice(alloc, &count.to_be_bytes())?;
    for (_, number) in archive.0 {
        let offset = u32::try_from(offset_of(archive, &names, members, *number))?;
        bytes.extend_from_slice(&offset.to_be_bytes())?;
    }
    bytes.extend_from_slice(&names)?;
    Ok(bytes)
}

/// The bytes of an archive.
fn archive_bytes(alloc: Global, archive: &Archive) -> Result<Vec<u8>, Fail> {
    let members = members_of(alloc, archive)?;
    let mut bytes = Vec::from_slice(alloc, b"!<arch>\n")?;
    put_member(
        &mut bytes,
        b"/               ",
        &index_of(alloc, archive, &members)?,
    )?;
    for member in &members {
        put_member(&mut bytes, b"m.o/            ", member)?;
    }
    Ok(bytes)
}

fn put_file(
    alloc: Global,
    files: &mut Vec<InputFile>,
    name: &str,
    bytes: Vec<u8>,
) -> Result<(), Fail> {
    let name = String::from_str(alloc, name)?;
    files.push(InputFile { name, bytes })?;
    Ok(())
}

fn put_objects(alloc: Global, files: &mut Vec<InputFile>) -> Result<(), Fail> {
    for (name, symbols) in &OBJECTS {
        put_file(alloc, files, name, object(alloc, &PARTS, symbols)?)?;
    }
    Ok(())
}

fn put_archives(alloc: Global, files: &mut Vec<InputFile>) -> Result<(), Fail> {
    for (name, archive) in &ARCHIVES {
        put_file(alloc, files, name, archive_bytes(alloc, archive)?)?;
    }
    Ok(())
}

/// All files.
fn files_of(alloc: Global) -> Result<Vec<InputFile>, Fail> {
    let mut files = Vec::new(alloc);
    put_objects(alloc, &mut files)?;
    put_archives(alloc, &mut files)?;
    Ok(files)
}

/// The offset of the header of a member of an archive of that name; 0 of an object.
fn offset_in(alloc: Global, path: &str, number: usize) -> Result<u64, Fail> {
    let Some((_, archive)) = ARCHIVES.iter().find(|a| a.0 == path) else {
        return Ok(0);
    };
    let members = members_of(alloc, archive)?;
    let names = index_names(alloc, archive)?;
    Ok(u64::try_from(offset_of(archive, &names, &members, number))?)
}

/// A line without its number: the number of the item, the path of its file, the number of the member.
#[derive(Clone, Copy)]
struct Line(u64, &'static str, usize);

/// A command's words, and lines of objects in an order that a linker may come to, or may not.
struct Order(&'static str, &'static [Line]);

/// Members are asked for by what stands before them, whatever their order in the archive and in the index: two at once in
/// either order, one after the other where one asks for the other, also in a group. What -u asks for may stand before all objects.
/// A whole archive has all its members, in their order, at its place.
static RIGHT: [Order; 12] = [
    Order(
        "a.o pair.a",
        &[
            Line(0, "a.o", 0),
            Line(1, "pair.a", 1),
            Line(1, "pair.a", 2),
        ],
    ),
    Order(
        "a.o pair.a",
        &[
            Line(0, "a.o", 0),
            Line(1, "pair.a", 2),
            Line(1, "pair.a", 1),
        ],
    ),
    Order("a.o b.o", &[Line(0, "a.o", 0), Line(1, "b.o", 0)]),
    Order(
        "c.o chain.a",
        &[
            Line(0, "c.o", 0),
            Line(1, "chain.a", 2),
            Line(1, "chain.a", 1),
        ],
    ),
    Order(
        "a.o ring.a",
        &[
            Line(0, "a.o", 0),
            Line(1, "ring.a", 1),
            Line(1, "ring.a", 2),
        ],
    ),
    Order(
        "a.o ring.a",
        &[
            Line(0, "a.o", 0),
            Line(1, "ring.a", 2),
            Line(1, "ring.a", 1),
        ],
    ),
    Order(
        "-u left pair.a b.o",
        &[Line(0, "pair.a", 1), Line(1, "b.o", 0)],
    ),
    Order(
        "b.o -u right pair.a",
        &[Line(1, "pair.a", 2), Line(0, "b.o", 0)],
    ),
    Order(
        "--whole-archive pair.a --no-whole-archive b.o",
        &[
            Line(0, "pair.a", 1),
            Line(0, "pair.a", 2),
            Line(1, "b.o", 0),
        ],
    ),
    Order(
        "d.o --start-group x.a y.a --end-group",
        &[
            Line(0, "d.o", 0),
            Line(1, "x.a", 1),
            Line(2, "y.a", 1),
            Line(1, "x.a", 2),
        ],
    ),
    Order(
        "d.o --start-group y.a x.a --end-group",
        &[
            Line(0, "d.o", 0),
            Line(2, "x.a", 1),
            Line(1, "y.a", 1),
            Line(2, "x.a", 2),
        ],
    ),
    Order(
        "a.o pair.a b.o",
        &[
            Line(0, "a.o", 0),
            Line(2, "b.o", 0),
            Line(1, "pair.a", 2),
            Line(1, "pair.a", 1),
        ],
    ),
];

/// A member before what asks for it; items, and members of a whole archive, out of order; a member that is missing, one twice, one
/// that nothing asks for; the path of another item, an item that isn't there, an offset at which no member is.
static WRONG: [Order; 16] = [
    Order(
        "c.o chain.a",
        &[
            Line(0, "c.o", 0),
            Line(1, "chain.a", 1),
            Line(1, "chain.a", 2),
        ],
    ),
    Order(
        "a.o pair.a",
        &[
            Line(1, "pair.a", 1),
            Line(0, "a.o", 0),
            Line(1, "pair.a", 2),
        ],
    ),
    Order(
        "d.o --start-group x.a y.a --end-group",
        &[
            Line(0, "d.o", 0),
            Line(2, "y.a", 1),
            Line(1, "x.a", 1),
            Line(1, "x.a", 2),
        ],
    ),
    Order(
        "d.o --start-group x.a y.a --end-group",
        &[
            Line(0, "d.o", 0),
            Line(1, "x.a", 1),
            Line(1, "x.a", 2),
            Line(2, "y.a", 1),
        ],
    ),
    Order("a.o b.o", &[Line(1, "b.o", 0), Line(0, "a.o", 0)]),
    Order(
        "--whole-archive pair.a --no-whole-archive b.o",
        &[
            Line(0, "pair.a", 2),
            Line(0, "pair.a", 1),
            Line(1, "b.o", 0),
        ],
    ),
    Order(
        "--whole-archive pair.a --no-whole-archive b.o",
        &[
            Line(0, "pair.a", 1),
            Line(1, "b.o", 0),
            Line(0, "pair.a", 2),
        ],
    ),
    Order("a.o pair.a", &[Line(0, "a.o", 0), Line(1, "pair.a", 1)]),
    Order("a.o pair.a", &[]),
    Order(
        "a.o pair.a",
        &[
            Line(0, "a.o", 0),
            Line(1, "pair.a", 1),
            Line(1, "pair.a", 1),
        ],
    ),
    Order(
        "a.o pair.a",
        &[
            Line(0, "a.o", 0),
            Line(1, "pair.a", 1),
            Line(1, "pair.a", 2),
            Line(1, "pair.a", 2),
        ],
    ),
    Order(
        "-u left pair.a b.o",
        &[
            Line(0, "pair.a", 1),
            Line(1, "b.o", 0),
            Line(0, "pair.a", 2),
        ],
    ),
    Order("a.o b.o", &[Line(0, "a.o", 0), Line(1, "a.o", 0)]),
    Order(
        "a.o b.o",
        &[Line(0, "a.o", 0), Line(1, "b.o", 0), Line(2, "b.o", 0)],
    ),
    Order(
        "a.o pair.a",
        &[
            Line(0, "a.o", 0),
            Line(1, "pair.a", 1),
            Line(1, "pair.a", 3),
        ],
    ),
    Order(
        "pair.a b.o",
        &[
            Line(1, "b.o", 0),
            Line(0, "pair.a", 1),
            Line(0, "pair.a", 2),
        ],
    ),
];

fn words_of(alloc: Global, words: &str) -> Result<Vec<String>, AllocError> {
    let mut all = Vec::new(alloc);
    for word in words.split_ascii_whitespace() {
        all.push(String::from_str(alloc, word)?)?;
    }
    Ok(all)
}

/// Lines with the numbers of objects from 0 on.
fn lines_of(alloc: Global, lines: &[Line]) -> Result<Vec<ObjectLine>, Fail> {
    let mut rows = Vec::new(alloc);
    for line in lines {
        rows.push(ObjectLine {
            object: u64::try_from(rows.len())?,
            item: line.0,
            offset: offset_in(alloc, line.1, line.2)?,
            path: Vec::from_slice(alloc, line.1.as_bytes())?,
        })?;
    }
    Ok(rows)
}

/// Whether words load the objects of lines in an order that a linker may come to.
fn is_order(
    alloc: Global,
    files: &[InputFile],
    words: &str,
    rows: &[ObjectLine],
    seed: Option<NameSeed>,
) -> Result<bool, Fail> {
    let words = words_of(alloc, words)?;
    let plan = read_words(alloc, &words)?;
    match load_in_order(alloc, &plan, files, rows, seed) {
        Ok(named) => Ok(named.objects.len() == rows.len()),
        Err(OrderFault::Unordered) => Ok(false),
        Err(_) => Err(Fail::from("not read")),
    }
}

/// Whether an order is one that a linker may come to.
fn may_be(alloc: Global, files: &[InputFile], order: &Order) -> Result<bool, Fail> {
    let rows = lines_of(alloc, order.1)?;
    is_order(alloc, files, order.0, &rows, None)
}

#[test]
fn orders_that_linkers_come_to_are_right(rt: HostRuntime) -> Result<(), Fail> {
    let files = files_of(rt.alloc())?;
    for order in &RIGHT {
        assert!(rt; may_be(rt.alloc(), &files, order)?, "{}", order.0);
    }
    Ok(())
}

#[test]
fn other_orders_are_not(rt: HostRuntime) -> Result<(), Fail> {
    let files = files_of(rt.alloc())?;
    for order in &WRONG {
        assert!(rt; !may_be(rt.alloc(), &files, order)?, "{}", order.0);
    }
    Ok(())
}

/// Lines of `a.o` and `b.o` with these numbers.
fn numbered(alloc: Global, first: u64, second: u64) -> Result<bool, Fail> {
    let files = files_of(alloc)?;
    let mut rows = lines_of(alloc, &[Line(0, "a.o", 0), Line(1, "b.o", 0)])?;
    for (row, number) in rows.iter_mut().zip([first, second]) {
        row.object = number;
    }
    is_order(alloc, &files, "a.o b.o", &rows, None)
}

#[test]
fn lines_have_the_numbers_of_their_objects(rt: HostRuntime) -> Result<(), Fail> {
    assert!(rt; numbered(rt.alloc(), 0, 1)?);
    assert!(rt; !numbered(rt.alloc(), 1, 0)?);
    assert!(rt; !numbered(rt.alloc(), 0, 0)?);
    Ok(())
}

/// Whether the files of words can't be read.
fn is_unread(alloc: Global, files: &[InputFile], words: &str) -> Result<bool, Fail> {
    let words = words_of(alloc, words)?;
    let plan = read_words(alloc, &words)?;
    let rows = lines_of(alloc, &[])?;
    match load_in_order(alloc, &plan, files, &rows, None) {
        Ok(_) => Ok(false),
        Err(OrderFault::Unreadable) => Ok(true),
        Err(_) => Ok(false),
    }
}

#[test]
fn files_that_are_not_there_are_not_read(rt: HostRuntime) -> Result<(), Fail> {
    let files = files_of(rt.alloc())?;
    assert!(rt; is_unread(rt.alloc(), &files, "e.o")?);
    assert!(rt; is_unread(rt.alloc(), &files, "a.o b.a")?);
    assert!(rt; !is_unread(rt.alloc(), &files, "a.o b.o")?);
    Ok(())
}

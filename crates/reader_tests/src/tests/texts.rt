//! Texts of link maps.
use byteview::View;
use elf_model::{
    Definition, DropLine, GotLine, ObjectId, ObjectLine, PlaceLine, SlotKind, SymbolLine,
    SymbolRef, SymtabLine, Target,
};
use linkmap::{
    BorrowedMap, Line, LinkMap, MapFault, escape, ordered, print, put_line, read, read_borrowed,
};
use std::alloc::{AllocError, Global};
use std::borrow::CowSlice;
use std::process::Abort;
use std::test::Fail;

const ONE_OBJECT: &[u8] = b"ldmap 1\n\
    object 0 0 0 a.o\n\
    place 0000000000401000 9 0 1 .text\n\
    symbol 0000000000401000 strong 0 1 _start\n\
    end\n";

/// The same map in version 2, of an image with a symbol table.
const WITH_TABLE: &[u8] = b"ldmap 2\n\
    object 0 0 0 a.o\n\
    place 0000000000401000 9 0 1 .text\n\
    symbol 0000000000401000 strong 0 1 _start\n\
    symtab 4112 2\n\
    end\n";

/// One line of each kind of version 1, every form of a slot and of a symbol, escapes and an empty name.
const EACH_KIND: &[u8] = b"ldmap 1\n\
    object 0 0 0 a.o\n\
    object 1 2 78 lib\\x20dir/b.a\n\
    drop 1 3\n\
    drop 1 10\n\
    place 0000000000401000 9 0 1 .text\n\
    place 0000000000401010 18446744073709551615 1 2 \n\
    common 0000001200403000 24 16 \\x5c\\xff\n\
    got 0000000000402000 16\n\
    slot 0000000000402000 value name f\n\
    slot 0000000000402008 thread local 1 5\n\
    symbol 0000000000403000 common \\x5c\\xff\n\
    symbol ffffffffffffffff linker _end\n\
    symbol 0000000000401000 strong 0 1 _start\n\
    symbol 00000000abcdef09 weak 1 4 f\n\
    end\n";

fn reads_back(rt: &impl Abort, alloc: Global, bytes: &[u8]) -> Result<(), Fail> {
    let map = read(alloc, bytes)?;
    assert!(rt; ordered(&map));
    let printed = print(alloc, &map)?;
    assert!(rt; printed.as_slice() == bytes);
    Ok(())
}

/// The line that the fault names, or 0 where there is no such fault.
fn wrong_line(alloc: Global, bytes: &[u8]) -> u64 {
    match read(alloc, bytes) {
        Err(MapFault::Line(number)) => number,
        Ok(_) | Err(MapFault::Memory) => 0,
    }
}

#[test]
fn reads_what_it_prints(rt: HostRuntime) -> Result<(), Fail> {
    assert_eq!(rt; ONE_OBJECT.len(), 106);
    reads_back(&rt, rt.alloc(), ONE_OBJECT)?;
    reads_back(&rt, rt.alloc(), EACH_KIND)?;
    assert_eq!(rt; WITH_TABLE.len(), 120);
    reads_back(&rt, rt.alloc(), WITH_TABLE)?;
    reads_back(&rt, rt.alloc(), b"ldmap 2\nend\n")?;
    Ok(())
}

/// Lines, each of which is wrong as the second one of a text: each field of each kind of line is, in one of them.
static WRONG_LINES: [&str; 27] = [
    "object x 0 0 a.o\nend\n",
    "object 0 x 0 a.o\nend\n",
    "object 0 0 x a.o\nend\n",
    "object 0 0 0 a o\nend\n",
    "object 0 0 0 a.o",
    "object 0 0 0 \\x61.o\nend\n",
    "object 1 0 0 a.o\nend\n",
    "drop x 1\nend\n",
    "drop 0 1 \nend\n",
    "place 000000000040100 9 0 1 .text\nend\n",
    "place 0000000000401000 x 0 1 .text\nend\n",
    "place 0000000000401000 9 x 1 .text\nend\n",
    "place 0000000000401000 9 0 x .text\nend\n",
    "common 000000000040100X 8 8 c\nend\n",
    "common 0000000000401000 x 8 c\nend\n",
    "common 0000000000401000 8 x c\nend\n",
    "got 000000000040200 16\nend\n",
    "got 0000000000402000 x\nend\n",
    "slot 000000000040200 value name f\nend\n",
    "slot 0000000000402000 other name f\nend\n",
    "slot 0000000000402000 value other f\nend\n",
    "slot 0000000000402000 value local x 5\nend\n",
    "slot 0000000000402000 value local 1 x\nend\n",
    "symbol 000000000040100 strong 0 1 f\nend\n",
    "symbol 0000000000401000 other 0 1 f\nend\n",
    "symbol 0000000000401000 weak 0 x f\nend\n",
    "End\n",
];

/// The number of the first of those lines after which the text has another fault.
fn first_other(alloc: Global) -> Result<Option<usize>, Fail> {
    for (number, line) in WRONG_LINES.iter().enumerate() {
        let text = format!(in alloc; "ldmap 1\n{line}")?;
        if wrong_line(alloc, text.as_bytes()) != 2 {
            return Ok(Some(number));
        }
    }
    Ok(None)
}

#[test]
fn wrong_lines_are_found(rt: HostRuntime) -> Result<(), Fail> {
    assert_eq!(rt; first_other(rt.alloc())?, None);
    Ok(())
}

/// Texts, how many of their bytes are there, and the line at which these are no beginning of a map: of the last two, the
/// one lacks its last newline, the other its last line.
static WRONG_TEXTS: [(&[u8], usize, u64); 12] = [
    (b"", 0, 1),
    (b"ldmap 1\n", usize::MAX, 2),
    (b"ldmap 1\nend\n\n", usize::MAX, 3),
    (b"ldmap 3\nend\n", usize::MAX, 1),
    (b"ldmap 02\nend\n", usize::MAX, 1),
    (b"ldmap 2\nsymtab x 2\nend\n", usize::MAX, 2),
    (b"ldmap 2\nsymtab 4112 x\nend\n", usize::MAX, 2),
    (
        b"ldmap 2\nsymtab 4112 2\nsymtab 4112 2\nend\n",
        usize::MAX,
        3,
    ),
    (
        b"ldmap 2\nsymtab 4112 2\nsymbol 0000000000401000 linker _end\nend\n",
        usize::MAX,
        3,
    ),
    (WITH_TABLE, 116, 6),
    (ONE_OBJECT, 105, 5),
    (ONE_OBJECT, 102, 5),
];

/// Maps, texts in them, what is put where they first occur, and the line at which that is no beginning of a map: a `place` line
/// twice, a zero before a number, and a symbol table in version 1.
static WRONG_CHANGES: [(&[u8], &str, &str, u64); 3] = [
    (ONE_OBJECT, "symbol", PLACE_AND_SYMBOL, 4),
    (ONE_OBJECT, " 9 ", " 09 ", 3),
    (WITH_TABLE, "ldmap 2", "ldmap 1", 5),
];

const PLACE_AND_SYMBOL: &str = "place 0000000000401000 9 0 1 .text\nsymbol";

/// The line at which a map is none once a text in it is another.
fn changed_line(alloc: Global, map: &[u8], old: &str, new: &str) -> Result<u64, Fail> {
    let (front, rest) = str::from_utf8(map)?.split_once(old).ok_or("no such text")?;
    let text = format!(in alloc; "{front}{new}{rest}")?;
    Ok(wrong_line(alloc, text.as_bytes()))
}

#[test]
fn finds_the_first_wrong_line(rt: HostRuntime) -> Result<(), Fail> {
    for (text, len, line) in WRONG_TEXTS {
        let found = wrong_line(rt.alloc(), View::new(text).part(0, len));
        assert_eq!(rt; found, line, "{len} of it");
    }
    for (map, old, new, line) in &WRONG_CHANGES {
        assert_eq!(rt; changed_line(rt.alloc(), map, old, new)?, *line, "{new}");
    }
    Ok(())
}

/// Names, and how a map spells them: short ones, and ones of 16 bytes and more, with what doesn't stand for itself at their
/// beginning, within, at either side of byte 16, and at their end.
static SPELLINGS: [(&[u8], &[u8]); 11] = [
    (b"a b\\", b"a\\x20b\\x5c"),
    (b".text", b".text"),
    (b"\n\x7f\xc3!~", b"\\x0a\\x7f\\xc3!~"),
    (b"!bcdefghijklmno~", b"!bcdefghijklmno~"),
    (b"\\bcdefghijklmnopq", b"\\x5cbcdefghijklmnopq"),
    (b"abcd\xffefghijklmnop", b"abcd\\xffefghijklmnop"),
    (b"abcdefghijklmno qrst", b"abcdefghijklmno\\x20qrst"),
    (b"abcdefghijklmnop\x7frst", b"abcdefghijklmnop\\x7frst"),
    (b"abcdefghijklmnop\x80", b"abcdefghijklmnop\\x80"),
    (
        b"_ZN4llvm12DenseMapBase16getBucketsEndEv\0",
        b"_ZN4llvm12DenseMapBase16getBucketsEndEv\\x00",
    ),
    (
        b"_ZN4llvm12DenseMapBase16getBuckets\x1fEndEv",
        b"_ZN4llvm12DenseMapBase16getBuckets\\x1fEndEv",
    ),
];

#[test]
fn escapes_names(rt: HostRuntime) -> Result<(), Fail> {
    for (name, spelling) in &SPELLINGS {
        let found = escape(rt.alloc(), name)?;
        assert!(rt; found.as_slice() == *spelling, "{name:?}");
    }
    Ok(())
}

/// The map of one object with one section and one symbol, or one with another number of the object.
fn map_of(alloc: Global, number: u64) -> Result<LinkMap, AllocError> {
    let mut objects = Vec::new(alloc);
    objects.push(ObjectLine {
        object: number,
        item: 0,
        offset: 0,
        path: Vec::from_slice(alloc, b"a.o")?,
    })?;
    let mut places = Vec::new(alloc);
    places.push(PlaceLine {
        address: 0x40_1000,
        size: 9,
        object: 0,
        section: 1,
        name: Vec::from_slice(alloc, b".text")?,
    })?;
    let mut symbols = Vec::new(alloc);
    symbols.push(SymbolLine {
        address: 0x40_1000,
        definition: Definition::Strong {
            object: 0,
            symbol: 1,
        },
        name: Vec::from_slice(alloc, b"_start")?,
    })?;
    Ok(LinkMap {
        version: 1,
        objects,
        drops: Vec::new(alloc),
        places,
        commons: Vec::new(alloc),
        got: None,
        slots: Vec::new(alloc),
        symbols,
        symtab: None,
    })
}

#[test]
fn keys_ascend(rt: HostRuntime) -> Result<(), Fail> {
    let alloc = rt.alloc();
    assert!(rt; !ordered(&map_of(alloc, 1)?));
    let mut map = map_of(alloc, 0)?;
    assert!(rt; ordered(&map) && print(alloc, &map)?.as_slice() == ONE_OBJECT);
    for (object, section) in [(0, 9), (0, 10), (1, 2)] {
        map.drops.push(DropLine { object, section })?;
        assert!(rt; ordered(&map));
    }
    map.drops.push(DropLine {
        object: 1,
        section: 2,
    })?;
    assert!(rt; !ordered(&map));
    Ok(())
}

#[test]
fn versions_are_two(rt: HostRuntime) -> Result<(), Fail> {
    let alloc = rt.alloc();
    let mut map = map_of(alloc, 0)?;
    map.symtab = Some(SymtabLine {
        offset: 4112,
        count: 2,
    });
    for version in [0, 1, 3] {
        map.version = version;
        assert!(rt; !ordered(&map), "{version}");
    }
    map.version = 2;
    assert!(rt; ordered(&map) && print(alloc, &map)?.as_slice() == WITH_TABLE);
    Ok(())
}

/// The version of a text's map, and the offset and the count of its symbol table, if there is one.
fn table_of(alloc: Global, text: &[u8]) -> Result<(u64, Option<(u64, u64)>), Fail> {
    let map = read(alloc, text)?;
    Ok((map.version, map.symtab.map(|t| (t.offset, t.count))))
}

#[test]
fn reads_the_table(rt: HostRuntime) -> Result<(), Fail> {
    assert_eq!(rt; table_of(rt.alloc(), ONE_OBJECT)?, (1, None));
    assert_eq!(rt; table_of(rt.alloc(), WITH_TABLE)?, (2, Some((4112, 2))));
    assert_eq!(rt; table_of(rt.alloc(), b"ldmap 2\nend\n")?, (2, None));
    Ok(())
}

/// Whether a map has the second object and the second `place` line of the text with each kind of line.
fn has_second_lines(map: &LinkMap) -> bool {
    let (Some(object), Some(place)) = (map.objects.get(1), map.places.get(1)) else {
        return false;
    };
    let numbers = [object.object, object.item, object.offset] == [1, 2, 78];
    let path = object.path.as_slice() == b"lib dir/b.a".as_slice();
    let numbers = numbers && [place.address, place.size] == [0x40_1010, u64::MAX];
    numbers && path && place.name.is_empty()
}

#[test]
fn reads_fields(rt: HostRuntime) -> Result<(), Fail> {
    let map = read(rt.alloc(), EACH_KIND)?;
    assert!(rt; has_second_lines(&map));
    assert!(rt;
        matches!(
            map.got,
            Some(GotLine {
                address: 0x40_2000,
                size: 16
            })
        )
    );
    let counts = [
        map.drops.len(),
        map.commons.len(),
        map.slots.len(),
        map.symbols.len(),
    ];
    assert_eq!(rt; counts, [2, 1, 2, 4]);
    Ok(())
}

/// The lines of the text with each kind of line, and that of a symbol table before the last.
const LINES: [Line<'static>; 17] = [
    Line::Version(1),
    Line::Object {
        object: 0,
        item: 0,
        offset: 0,
        path: b"a.o",
    },
    Line::Object {
        object: 1,
        item: 2,
        offset: 78,
        path: b"lib dir/b.a",
    },
    Line::Drop(DropLine {
        object: 1,
        section: 3,
    }),
    Line::Drop(DropLine {
        object: 1,
        section: 10,
    }),
    Line::Place {
        address: 0x40_1000,
        size: 9,
        object: 0,
        section: 1,
        name: b".text",
    },
    Line::Place {
        address: 0x40_1010,
        size: u64::MAX,
        object: 1,
        section: 2,
        name: b"",
    },
    Line::Common {
        address: 0x12_0040_3000,
        size: 24,
        align: 16,
        name: b"\\\xff",
    },
    Line::Got(GotLine {
        address: 0x40_2000,
        size: 16,
    }),
    Line::Slot {
        address: 0x40_2000,
        kind: SlotKind::Value,
        target: Target::Name(b"f"),
    },
    Line::Slot {
        address: 0x40_2008,
        kind: SlotKind::Thread,
        target: Target::Local(SymbolRef {
            object: ObjectId(1),
            symbol: 5,
        }),
    },
    Line::Symbol {
        address: 0x40_3000,
        definition: Definition::Common,
        name: b"\\\xff",
    },
    Line::Symbol {
        address: u64::MAX,
        definition: Definition::Linker,
        name: b"_end",
    },
    Line::Symbol {
        address: 0x40_1000,
        definition: Definition::Strong {
            object: 0,
            symbol: 1,
        },
        name: b"_start",
    },
    Line::Symbol {
        address: 0xabcd_ef09,
        definition: Definition::Weak {
            object: 1,
            symbol: 4,
        },
        name: b"f",
    },
    Line::Symtab(SymtabLine {
        offset: 4112,
        count: 2,
    }),
    Line::End,
];

/// The line of a symbol table, which the text with each kind of line doesn't have.
const TABLE_LINE: &[u8] = b"symtab 4112 2\n";

/// Whether a map of two objects has the path of the first as it stands in the text, and that of the second as it is
/// spelled there.
fn has_paths(map: &BorrowedMap<'_>, plain: &[u8], spelled: &[u8]) -> bool {
    let [first, second] = map.objects.as_slice() else {
        return false;
    };
    match (&first.path, &second.path) {
        (CowSlice::Borrowed(a), CowSlice::Owned(b)) => *a == plain && b.as_slice() == spelled,
        _ => false,
    }
}

#[test]
fn plain_names_are_borrowed(rt: HostRuntime) -> Result<(), Fail> {
    let map = read_borrowed(rt.alloc(), EACH_KIND)?;
    assert!(rt; has_paths(&map, b"a.o", b"lib dir/b.a"));
    Ok(())
}

/// A map of four symbols, of which the second has a name with an escape.
const FOUR_SYMBOLS: &[u8] = b"ldmap 1\n\
    symbol 0000000000400010 strong 0 1 a\n\
    symbol 0000000000400020 weak 1 2 b\\x20c\n\
    symbol 0000000000400030 common d\n\
    symbol 0000000000400040 linker e\n\
    end\n";

/// The addresses of its lines, with their names.
const FOUR_NAMES: [(u64, &[u8]); 4] = [
    (0x40_0010, b"a"),
    (0x40_0020, b"b c"),
    (0x40_0030, b"d"),
    (0x40_0040, b"e"),
];

#[test]
fn symbol_lines_are_read_again(rt: HostRuntime) -> Result<(), Fail> {
    let map = read_borrowed(rt.alloc(), FOUR_SYMBOLS)?;
    assert!(rt; map.symbols.len() == 4);
    assert!(rt; !map.symbols.is_empty());
    for (line, wanted) in map.symbols.iter().zip(FOUR_NAMES.iter()) {
        assert!(rt; line.address == wanted.0 && line.name == wanted.1);
    }
    Ok(())
}

#[test]
fn lines_are_put_one_by_one(rt: HostRuntime) -> Result<(), Fail> {
    let mut wanted = Vec::from_slice(rt.alloc(), EACH_KIND)?;
    wanted.truncate(EACH_KIND.len() - b"end\n".len());
    wanted.extend_from_slice(TABLE_LINE)?;
    wanted.extend_from_slice(b"end\n")?;
    let mut text = Vec::new(rt.alloc());
    for line in &LINES {
        put_line(&mut text, line)?;
    }
    assert!(rt; text.as_slice() == wanted.as_slice());
    Ok(())
}

/// More lines than a number of 16 bits counts.
const MANY: u64 = 70_000;

/// The text of a map of so many dropped sections.
fn many_lines(alloc: Global) -> Result<String, Fail> {
    let mut text = String::from_str(alloc, "ldmap 1\n")?;
    for section in 0..MANY {
        text.push_str(&format!(in alloc; "drop 0 {section}\n")?)?;
    }
    text.push_str("end\n")?;
    Ok(text)
}

#[test]
fn many_lines_are_read_and_printed(rt: HostRuntime) -> Result<(), Fail> {
    let text = many_lines(rt.alloc())?;
    let map = read(rt.alloc(), text.as_bytes())?;
    assert!(rt; map.drops.len() as u64 == MANY);
    assert!(rt; print(rt.alloc(), &map)?.as_slice() == text.as_bytes());
    Ok(())
}

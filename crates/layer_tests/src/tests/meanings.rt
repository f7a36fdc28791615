//! What names and symbols mean.
use crate::tests::objects::{
    DATA, F_NAME, G_NAME, START_NAME, SYMBOLS, TEXT, load_files, object_with, two_files,
};
use elf_model::{
    InputFile, ObjectId, SHF_ALLOC, SHF_TLS, SHF_WRITE, SHN_COMMON, SectionHeader, Symbol,
    SymbolRef, Target,
};
use resolve::{
    Block, Definition, Definitions, ResolveFault, Resolved, SymbolOf, resolve, resolve_in,
};
use search::Loaded;
use std::alloc::{AllocError, Global};
use std::process::Abort;
use std::test::Fail;
use symbols::ListTable;

/// A GLOBAL symbol at the beginning of a section, or an undefined one at section 0.
pub fn global(st_name: u32, st_shndx: u16) -> Symbol {
    Symbol {
        st_name,
        st_info: 0x10,
        st_shndx,
        ..Symbol::NULL
    }
}

/// A LOCAL symbol of a section.
pub fn local(st_shndx: u16) -> Symbol {
    Symbol {
        st_info: 3,
        ..global(0, st_shndx)
    }
}

/// An object with `.text`, section 2, and `.data`, section 3, which has TLS, and two symbols.
fn object_of(alloc: Global, symbols: &[Symbol; 2]) -> Result<Vec<u8>, AllocError> {
    let thread = SectionHeader {
        sh_flags: SHF_ALLOC | SHF_WRITE | SHF_TLS,
        ..DATA
    };
    object_with(alloc, &[TEXT, thread, SYMBOLS], symbols, &[])
}

/// Two files, each with an object of these symbols.
fn files_of(alloc: Global, a: &[Symbol; 2], b: &[Symbol; 2]) -> Result<Vec<InputFile>, AllocError> {
    let a = object_of(alloc, a)?;
    let b = object_of(alloc, b)?;
    two_files(alloc, &a, &b)
}

/// The number of an object, and of a symbol or a block of it.
type Numbers = Option<(u64, u64)>;

/// The object's and the own number of a symbol.
fn numbers(symbol: Option<SymbolOf<'_>>) -> Option<(u64, u64)> {
    let symbol = symbol?;
    Some((symbol.object, symbol.number))
}

fn symbol_ref(object: u64, symbol: u64) -> SymbolRef {
    SymbolRef {
        object: ObjectId(object),
        symbol,
    }
}

/// Those of the symbol or of the block that is meant; None for the linker's names.
fn meant_numbers(meaning: Option<Definition<'_>>) -> Option<(u64, u64)> {
    match meaning? {
        Definition::Symbol(symbol) => numbers(Some(symbol)),
        Definition::Common(block) => Some((block.object, block.number)),
        Definition::Linker(_, _) => None,
    }
}

/// Asserts that the chosen definitions are `g` of the first object and `f` of the second.
fn assert_names(rt: &impl Abort, definitions: Definitions<'_, '_>) {
    assert_eq!(rt; definitions.len(), 2);
    assert!(rt; definitions.name(0) == b"g".as_slice());
    assert!(rt; definitions.name(1) == b"f".as_slice());
    assert!(rt; definitions.name(2).is_empty() && definitions.get(2).is_none());
}

/// The name that a reference to a symbol is to; None where it is to the symbol itself.
fn target_name<'a>(resolved: &Resolved<'a>, symbol: SymbolRef) -> Option<&'a [u8]> {
    match resolved.definition(symbol) {
        Target::Name(name) => Some(name),
        Target::Local(_) => None,
    }
}

/// The number of an object and of a symbol, the name that a reference to it is to, and what it means: of names; a LOCAL
/// symbol itself; symbol number 0, no such symbol, no such object.
type TargetRow = (u64, u64, Option<&'static [u8]>, Option<(u64, u64)>);

static TARGETS: [TargetRow; 6] = [
    (0, 1, Some(b"g"), Some((0, 1))),
    (0, 2, Some(b"f"), Some((1, 2))),
    (1, 1, None, Some((1, 1))),
    (1, 0, None, None),
    (1, 9, None, None),
    (2, 1, None, None),
];

/// Whether a reference to a symbol is to what a row says, and means that.
fn is_target(resolved: &Resolved<'_>, row: &TargetRow) -> bool {
    let (object, number, name, meaning) = *row;
    let symbol = symbol_ref(object, number);
    let target = resolved.definition(symbol);
    target_name(resolved, symbol) == name
        && meant_numbers(resolved.used(symbol)) == meaning
        && meant_numbers(resolved.chosen(&target)) == meaning
}

/// Asserts what hand-made targets of symbols mean: each its own symbol, where that is there and defined.
fn assert_own(rt: &impl Abort, resolved: &Resolved<'_>) {
    // A GLOBAL symbol, an undefined one, a LOCAL one, symbol number 0, no such symbol, no such object.
    for (object, number, own) in [
        (0, 1, Some((0, 1))),
        (0, 2, None),
        (1, 1, Some((1, 1))),
        (1, 0, None),
        (1, 9, None),
        (2, 1, None),
    ] {
        let target = Target::Local(symbol_ref(object, number));
        let chosen = meant_numbers(resolved.chosen(&target));
        assert!(rt;
            chosen == own,
            "of symbol {number} of object {object} as a target"
        );
    }
}

/// Asserts what names mean where the second object has the strong definition of `f`.
fn assert_strong(rt: &impl Abort, resolved: &Resolved<'_>) {
    let f = numbers(resolved.symbol(b"f"));
    assert!(rt; f == Some((1, 2)) && resolved.symbol(b"h").is_none());
    let first_other = TARGETS.iter().position(|row| !is_target(resolved, row));
    assert_eq!(rt; first_other, None);
    assert_own(rt, resolved);
    assert_names(rt, resolved.definitions());
}

#[test]
fn references_mean_strong_definitions(rt: HostRuntime) -> Result<(), Fail> {
    let first = [global(G_NAME, 2), global(F_NAME, 0)];
    let files = files_of(rt.alloc(), &first, &[local(2), global(F_NAME, 2)])?;
    let loaded = load_files(rt.alloc(), &files)?;
    let resolved = resolve(rt.alloc(), &loaded)?;
    assert_strong(&rt, &resolved);
    Ok(())
}

/// A WEAK symbol at the beginning of a section.
fn weak(st_name: u32, st_shndx: u16) -> Symbol {
    Symbol {
        st_info: 0x20,
        ..global(st_name, st_shndx)
    }
}

/// What `g` and `f` mean, and what symbols of these names do, and how many definitions are chosen.
fn weak_meanings(alloc: Global, loaded: &Loaded<'_>) -> Result<([Numbers; 4], usize), Fail> {
    let resolved = resolve(alloc, loaded)?;
    let found = [
        numbers(resolved.symbol(b"g")),
        numbers(resolved.symbol(b"f")),
        meant_numbers(resolved.used(symbol_ref(1, 1))),
        meant_numbers(resolved.used(symbol_ref(0, 2))),
    ];
    Ok((found, resolved.definitions().len()))
}

#[test]
fn names_mean_weak_definitions_where_none_is_strong(rt: HostRuntime) -> Result<(), Fail> {
    let first = [weak(G_NAME, 2), weak(F_NAME, 2)];
    let files = files_of(rt.alloc(), &first, &[weak(G_NAME, 2), global(F_NAME, 2)])?;
    let loaded = load_files(rt.alloc(), &files)?;
    let wanted = [Some((0, 1)), Some((1, 2)), Some((0, 1)), Some((1, 2))];
    assert!(rt; weak_meanings(rt.alloc(), &loaded)? == (wanted, 2));
    Ok(())
}

/// Numbers of objects and of symbols, and whether the symbol is thread-local.
static INSIDE: [(u64, u64, bool); 4] = [(0, 1, false), (0, 2, true), (1, 1, true), (1, 2, false)];

/// The number of the first of those rows that is wrong.
fn first_misplaced(resolved: &Resolved<'_>) -> Option<usize> {
    INSIDE.iter().position(|(object, number, inside)| {
        resolved.is_thread_local(symbol_ref(*object, *number)) != *inside
    })
}

/// Whether the first symbol of the first object is the entry, and no other name is one.
fn has_entry(resolved: &Resolved<'_>) -> bool {
    meant_numbers(resolved.entry(b"_start")) == Some((0, 1))
        && resolved.entry(b"f").is_none()
        && resolved.entry(b"g").is_none()
}

/// Whether that holds of objects, and the number of the first of those rows that is wrong.
fn entry_of(alloc: Global, loaded: &Loaded<'_>) -> Result<(bool, Option<usize>), Fail> {
    let resolved = resolve_in(alloc, loaded, ListTable::new(alloc))?;
    Ok((has_entry(&resolved), first_misplaced(&resolved)))
}

#[test]
fn the_entry_stands_outside_thread_storage(rt: HostRuntime) -> Result<(), Fail> {
    let first = [global(START_NAME, 2), global(F_NAME, 0)];
    let files = files_of(rt.alloc(), &first, &[global(F_NAME, 3), global(G_NAME, 0)])?;
    let loaded = load_files(rt.alloc(), &files)?;
    assert_eq!(rt; entry_of(rt.alloc(), &loaded)?, (true, None));
    Ok(())
}

/// What the names of two objects are refused for, with the name that has two definitions, or `sound`.
fn told(alloc: Global, a: &[Symbol; 2], b: &[Symbol; 2]) -> Result<String, Fail> {
    let files = files_of(alloc, a, b)?;
    let loaded = load_files(alloc, &files)?;
    Ok(told_of(alloc, resolve(alloc, &loaded).err())?)
}

/// What a fault of names is told as, with the name that has two definitions; `sound` where there is none.
fn told_of(alloc: Global, fault: Option<ResolveFault>) -> Result<String, AllocError> {
    match fault {
        Some(ResolveFault::Duplicate(name)) => format!(in alloc; "Duplicate {name:?}"),
        Some(fault) => format!(in alloc; "{fault}"),
        None => String::from_str(alloc, "sound"),
    }
}

const GLOBAL_F: Symbol = Symbol {
    st_name: F_NAME,
    st_info: 0x10,
    st_shndx: 2,
    ..Symbol::NULL
};

const NAMELESS: Symbol = Symbol {
    st_name: 0,
    ..GLOBAL_F
};

/// The symbol of `.text`, which has 9 bytes.
const TEXT_SYMBOL: Symbol = Symbol {
    st_info: 3,
    ..NAMELESS
};

/// A symbol of an object behind the one of `.text`, whose value is given, and what becomes of it after an object
/// that defines `f`.
static UNSOUND: [(Symbol, u64, &str); 5] = [
    (GLOBAL_F, 0, "Duplicate [102]"),
    (NAMELESS, 0, "BadSymbol (4)"),
    (TEXT_SYMBOL, 0, "sound"),
    (TEXT_SYMBOL, 9, "sound"),
    (TEXT_SYMBOL, 10, "BadSymbol (4)"),
];

#[test]
fn unsound_symbols_are_refused(rt: HostRuntime) -> Result<(), Fail> {
    let sound = [global(START_NAME, 2), global(F_NAME, 2)];
    for (second, st_value, text) in UNSOUND {
        let own = Symbol {
            st_value,
            ..TEXT_SYMBOL
        };
        assert_eq!(rt; told(rt.alloc(), &sound, &[own, second])?.as_str(), text);
    }
    Ok(())
}

/// A GLOBAL common symbol.
fn common(st_name: u32, st_size: u64, st_value: u64) -> Symbol {
    Symbol {
        st_name,
        st_value,
        st_size,
        ..COMMON_F
    }
}

/// A block's numbers, name, size and alignment.
type BlockRow = (u64, u64, &'static [u8], u64, u64);

fn are_blocks(resolved: &Resolved<'_>, rows: &[BlockRow]) -> bool {
    let row_of = |b: &Block<'_>| (b.object, b.number, b.size, b.align);
    let blocks = resolved.blocks();
    blocks.len() == rows.len()
        && blocks.iter().zip(rows).all(|(block, row)| {
            let (object, number, name, size, align) = *row;
            row_of(block) == (object, number, size, align) && block.name == name
        })
}

/// Whether names of objects have these blocks, and what two symbols mean.
fn loaded_share(
    alloc: Global,
    loaded: &Loaded<'_>,
    blocks: &[BlockRow],
    used: [SymbolRef; 2],
) -> Result<(bool, [Numbers; 2]), Fail> {
    let resolved = resolve(alloc, loaded)?;
    let used = used.map(|symbol| meant_numbers(resolved.used(symbol)));
    Ok((are_blocks(&resolved, blocks), used))
}

/// Whether the names of two objects have these blocks, and what two symbols of these objects mean.
fn share(
    alloc: Global,
    objects: [[Symbol; 2]; 2],
    blocks: &[BlockRow],
    used: [SymbolRef; 2],
) -> Result<(bool, [Numbers; 2]), Fail> {
    let files = files_of(alloc, &objects[0], &objects[1])?;
    let loaded = load_files(alloc, &files)?;
    loaded_share(alloc, &loaded, blocks, used)
}

static SHARED: [BlockRow; 2] = [(2, 0, b"g", 4, 16), (2, 1, b"f", 8, 4)];

static ONE_BLOCK: [BlockRow; 1] = [(2, 0, b"f", 8, 4)];

#[test]
fn common_symbols_share_blocks(rt: HostRuntime) -> Result<(), Fail> {
    // Those of one name share a block.
    let found = share(
        rt.alloc(),
        [
            [common(G_NAME, 4, 16), common(F_NAME, 2, 1)],
            [common(F_NAME, 8, 4), common(G_NAME, 3, 2)],
        ],
        &SHARED,
        [symbol_ref(0, 1), symbol_ref(1, 1)],
    )?;
    assert!(rt; found == (true, [Some((2, 0)), Some((2, 1))]));
    // They stand before a weak definition alone.
    let found = share(
        rt.alloc(),
        [
            [weak(F_NAME, 2), common(G_NAME, 4, 16)],
            [common(F_NAME, 8, 4), global(G_NAME, 2)],
        ],
        &ONE_BLOCK,
        [symbol_ref(0, 1), symbol_ref(0, 2)],
    )?;
    assert!(rt; found == (true, [Some((2, 0)), Some((1, 2))]));
    Ok(())
}

/// A common `f` of 8 bytes.
const COMMON_F: Symbol = Symbol {
    st_name: F_NAME,
    st_info: 0x11,
    st_shndx: SHN_COMMON,
    st_value: 8,
    st_size: 8,
    ..Symbol::NULL
};

/// Bindings and types, and alignments of common symbols, and what becomes of them.
static COMMONS: [(u8, u64, &str); 9] = [
    (0x10, 1, "sound"),
    (0x11, 0x20_0000, "sound"),
    (0x15, 8, "sound"),
    // LOCAL, WEAK, and of type TLS.
    (0x01, 8, "BadCommon (3)"),
    (0x21, 8, "BadCommon (3)"),
    (0x16, 8, "BadCommon (3)"),
    // No powers of two, and one too great.
    (0x11, 0, "BadCommon (3)"),
    (0x11, 24, "BadCommon (3)"),
    (0x11, 0x40_0000, "BadCommon (3)"),
];

#[test]
fn unsound_common_symbols_are_refused(rt: HostRuntime) -> Result<(), Fail> {
    let start = [local(2), global(START_NAME, 2)];
    for (st_info, st_value, text) in COMMONS {
        let symbol = Symbol {
            st_info,
            st_value,
            ..COMMON_F
        };
        let found = told(rt.alloc(), &[symbol, global(G_NAME, 2)], &start)?;
        assert_eq!(rt; found.as_str(), text, "{st_info} aligned {st_value}");
    }
    Ok(())
}

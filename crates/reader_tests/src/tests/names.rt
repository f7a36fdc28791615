//! Tables of names.
ghost use Rattle.std.specs.Prelude.{◌≡◌, OnOk, map};
ghost use Rattle.symbols.specs.Offers.{all_offered};

use elf_model::{Name, NameSeed};
use std::alloc::{AllocError, Global};
use std::hash::{BuildHasher, RandomState};
use std::process::Abort;
use std::test::Fail;
use symbols::{
    Candidate, CandidateKind, IndexedTable, ListTable, NameTable, ObjectId, Row, SymbolRef,
};

/// The row of a name that has no candidate.
const NO_ROW: Row = Row {
    strong: None,
    twice: false,
    weak: None,
    common: None,
    common_size: 0,
    common_align: 0,
};

fn symbol(object: u64, number: u64) -> SymbolRef {
    SymbolRef {
        object: ObjectId(object),
        symbol: number,
    }
}

/// The first symbol of an object, as a candidate with a size and an alignment that only a common one's row
/// takes up.
fn candidate(kind: CandidateKind, object: u64) -> Candidate {
    Candidate {
        symbol: symbol(object, 1),
        kind,
        size: 100,
        align: 64,
    }
}

fn common(object: u64, size: u64, align: u64) -> Candidate {
    Candidate {
        symbol: symbol(object, 1),
        kind: CandidateKind::Common,
        size,
        align,
    }
}

/// Offers candidates for names, in order.
fn offer_all<'a, T: NameTable<'a>>(
    table: &mut T,
    offers: &[(&'a [u8], Candidate)],
) -> Result<(), AllocError>
    ensures { OnOk result (T.rows table.new
        ≡ all_offered (map (λ o. record { name = o.0.now; candidate = o.1 }) offers.now)
        (T.rows table.old)) }
{
    for (name, candidate) in offers {
        table.offer(name, *candidate)?;
    }
    Ok(())
}

/// The rows of `f` as its definitions come: a weak one, a strong one, a common one, and a second strong one.
fn growing_rows() -> [Row; 4] {
    let weak = Row {
        weak: Some(symbol(0, 1)),
        ..NO_ROW
    };
    let strong = Row {
        strong: Some(symbol(1, 1)),
        ..weak
    };
    let mixed = Row {
        common: Some(symbol(4, 1)),
        common_size: 24,
        common_align: 8,
        ..strong
    };
    let twice = Row {
        twice: true,
        ..mixed
    };
    [weak, strong, mixed, twice]
}

/// Weak, strong and common definitions of one name: `f` of six objects, between them one of `g`.
fn mixes_kinds<'a, T: NameTable<'a>>(rt: &impl Abort, table: &mut T) -> Result<(), Fail> {
    let [weak, strong, mixed, twice] = growing_rows();
    let other = Row {
        strong: Some(symbol(2, 1)),
        ..NO_ROW
    };
    assert_eq!(rt; table.get(b"f"), None);
    for (name, candidate, row) in [
        (b"f", candidate(CandidateKind::Weak, 0), weak),
        (b"f", candidate(CandidateKind::Strong, 1), strong),
        (b"g", candidate(CandidateKind::Strong, 2), other),
        (b"f", candidate(CandidateKind::Weak, 3), strong),
        (b"f", common(4, 24, 8), mixed),
        (b"f", candidate(CandidateKind::Strong, 5), twice),
        (b"f", candidate(CandidateKind::Strong, 6), twice),
    ] {
        table.offer(name, candidate)?;
        assert_eq!(rt; table.get(name), Some(row), "after {candidate:?}");
    }
    let rows = [table.get(b"f"), table.get(b"g"), table.get(b"F")];
    assert_eq!(rt; rows, [Some(twice), Some(other), None]);
    Ok(())
}

/// Two strong definitions of one name behind a weak one, offered at once.
fn takes_a_list<'a, T: NameTable<'a>>(
    rt: &impl Abort,
    table: &mut T,
    name: &'a [u8],
) -> Result<(), Fail> {
    let offers = [
        (name, candidate(CandidateKind::Weak, 0)),
        (name, candidate(CandidateKind::Strong, 1)),
        (name, candidate(CandidateKind::Strong, 2)),
    ];
    assert_eq!(rt; table.get(name), None);
    offer_all(table, &offers)?;
    let row = Row {
        strong: Some(symbol(1, 1)),
        twice: true,
        weak: Some(symbol(0, 1)),
        ..NO_ROW
    };
    assert_eq!(rt; table.get(name), Some(row));
    Ok(())
}

/// Common definitions: `int c;`, `long c;`, and a small one with a large alignment.
fn grows_commons<'a, T: NameTable<'a>>(rt: &impl Abort, table: &mut T) -> Result<(), Fail> {
    let grown = [(0, 4, 4, 4, 4), (1, 8, 8, 8, 8), (2, 2, 16, 8, 16)];
    for (object, size, align, common_size, common_align) in grown {
        table.offer(b"c", common(object, size, align))?;
        let row = Row {
            common: Some(symbol(0, 1)),
            common_size,
            common_align,
            ..NO_ROW
        };
        assert_eq!(rt; table.get(b"c"), Some(row), "after object {object}");
    }
    Ok(())
}

/// Its prefixes are the names of a table.
static NAMES: &[u8] =
    b"_ZNSt6vectorIiSaIiEE17_M_realloc_insertIJiEEEvN9__gnu_cxx17__normal_iterator";

/// Offers each prefix of a name; in another round, by other objects.
fn offer_prefixes<'a, T: NameTable<'a>>(
    table: &mut T,
    longest: &'a [u8],
    round: u64,
) -> Result<(), Fail> {
    for number in 0..64_u64 {
        let (name, _) = longest.split_at_checked(number as usize).ok_or("64 bytes")?;
        table.offer(name, candidate(CandidateKind::Weak, number ^ round))?;
    }
    Ok(())
}

/// The prefixes of a name as names: an offer for one leaves the others' rows.
fn keeps_prefixes_apart<'a, T: NameTable<'a>>(
    rt: &impl Abort,
    table: &mut T,
    longest: &'a [u8],
) -> Result<(), Fail> {
    offer_prefixes(table, longest, 0)?;
    offer_prefixes(table, longest, 1)?;
    for number in 0..64_u64 {
        let (name, _) = longest.split_at_checked(number as usize).ok_or("64 bytes")?;
        let row = Row {
            weak: Some(symbol(number, 1)),
            ..NO_ROW
        };
        assert_eq!(rt; table.get(name), Some(row), "a name of {number} bytes");
    }
    assert_eq!(rt; table.get(longest), None);
    Ok(())
}

fn indexed<'a>(alloc: Global) -> IndexedTable<'a, NameSeed> {
    IndexedTable::with_hasher(alloc, NameSeed::fixed())
}

/// All of it, in four tables without names.
fn are_tables<'a, T: NameTable<'a>>(rt: &impl Abort, tables: &mut [T; 4]) -> Result<(), Fail> {
    mixes_kinds(rt, &mut tables[0])?;
    takes_a_list(rt, &mut tables[1], b"f")?;
    grows_commons(rt, &mut tables[2])?;
    keeps_prefixes_apart(rt, &mut tables[3], NAMES)
}

#[test]
fn the_list_is_a_table(rt: HostRuntime) -> Result<(), Fail> {
    let list = || ListTable::new(rt.alloc());
    are_tables(&rt, &mut [list(), list(), list(), list()])
}

#[test]
fn the_index_is_a_table(rt: HostRuntime) -> Result<(), Fail> {
    let index = || indexed(rt.alloc());
    are_tables(&rt, &mut [index(), index(), index(), index()])
}

#[test]
fn any_hasher_serves(rt: HostRuntime) -> Result<(), Fail> {
    let random = RandomState::new(&rt)?;
    let mut table = IndexedTable::with_hasher(rt.alloc(), random);
    mixes_kinds(&rt, &mut table)?;
    grows_commons(&rt, &mut table)?;
    let mut drawn = IndexedTable::with_hasher(rt.alloc(), NameSeed::drawn(&random));
    mixes_kinds(&rt, &mut drawn)?;
    keeps_prefixes_apart(&rt, &mut drawn, NAMES)
}

/// The hashes of names by two seeds, as a program in another language computes them.
static HASHES: [(u64, &[u8], u64); 8] = [
    (0, b"", 0x38ca_033c_09a6_1cae),
    (0, b"main", 0xb20f_e665_b012_b8c0),
    (0, b"_ZN4llvm5Value", 0x7d1a_a1e1_07e1_ef1a),
    (
        0,
        b"_ZN4llvm5Value11setNameImplERKNS_5TwineE",
        0x920a_8c67_6eb0_75e4,
    ),
    (7, b"", 0xa73f_3304_d56f_1851),
    (7, b"main", 0xe500_4926_e55c_eb5e),
    (7, b"_ZN4llvm5Value", 0xad87_7c3c_cc50_7b11),
    (
        7,
        b"_ZN4llvm5Value11setNameImplERKNS_5TwineE",
        0x0e3e_67e4_3795_68a4,
    ),
];

#[test]
fn names_are_hashed_by_their_seed(rt: HostRuntime) {
    for (seed, name, hash) in &HASHES {
        assert_eq!(rt; NameSeed::new(*seed).hash_one(Name(name)), *hash);
    }
}

//! Sections that programs walk over, where LLD 14 put them, and where they can't be: arrays by priority, constructors by
//! number, sections with SHF_LINK_ORDER by those to which they are linked (GNU ld 2.40 puts them so too, mold 1.10 and gold
//! 1.16 don't), and two sections of a name of their own, with code and data beside them.
use check_link::{Piece, Placed};
use elf_model::{
    SHF_ALLOC, SHF_EXECINSTR, SHF_LINK_ORDER, SHF_WRITE, SHT_PROGBITS, SectionHeader, Thing,
};
use run_judge::{are_runs_right, run_gaps, run_pairs, taken_of};
use std::alloc::{AllocError, Global};
use std::test::Fail;

const CODE: u64 = SHF_ALLOC + SHF_EXECINSTR;

const DATA: u64 = SHF_ALLOC + SHF_WRITE;

const LINKED: u64 = SHF_ALLOC + SHF_LINK_ORDER;

/// A section: its object and number, its name, flags, alignment and size, the number of the section to which it is linked,
/// and its address.
#[derive(Clone, Copy)]
struct Row(u64, u64, &'static str, u64, u64, u64, u32, u64);

/// In the order of the objects.
static BY_LLD: [Row; 19] = [
    Row(0, 1, ".init_array.00200", DATA, 8, 8, 0, 0x20_2210),
    Row(0, 2, ".init_array", DATA, 8, 8, 0, 0x20_2218),
    Row(0, 3, ".init_array.00009", DATA, 8, 16, 0, 0x20_21f8),
    Row(0, 4, ".fini_array", DATA, 8, 8, 0, 0x20_2228),
    Row(0, 5, "set", DATA, 1, 3, 0, 0x20_3250),
    Row(0, 6, ".init", CODE, 4, 1, 0, 0x20_11ec),
    Row(0, 7, ".ctors.00300", DATA, 8, 8, 0, 0x20_2240),
    Row(0, 8, ".ctors.00020", DATA, 8, 8, 0, 0x20_2238),
    Row(0, 9, ".ctors", DATA, 8, 8, 0, 0x20_2230),
    Row(1, 1, ".init_array.00010", DATA, 8, 8, 0, 0x20_2208),
    Row(1, 2, ".fini_array.00001", DATA, 8, 8, 0, 0x20_2220),
    Row(1, 3, "set", DATA, 8, 5, 0, 0x20_3258),
    Row(1, 4, ".init", CODE, 4, 2, 0, 0x20_11f0),
    Row(1, 5, ".data", DATA, 1, 1, 0, 0x20_3248),
    Row(2, 4, ".text.c", CODE, 1, 1, 0, 0x20_11e7),
    Row(2, 5, ".text.d", CODE, 1, 1, 0, 0x20_11e8),
    Row(2, 6, "meta", LINKED, 1, 4, 5, 0x20_01d0),
    Row(2, 7, "meta", LINKED, 1, 4, 4, 0x20_01cc),
    Row(2, 8, "set", SHF_ALLOC, 1, 1, 0, 0x20_4000),
];

/// Sections at other addresses: up to two of them, each with its place above.
struct Moved(&'static [(usize, u64)]);

/// Code and data elsewhere, right before and in front of `set`; .init without a gap, `set` behind one of seven bytes; and a
/// read-only section of that name in the gap of the others.
static RIGHT: [Moved; 6] = [
    Moved(&[]),
    Moved(&[(13, 0x20_3258), (15, 0x20_324f)]),
    Moved(&[(13, 0x20_3252)]),
    Moved(&[(12, 0x20_11ed)]),
    Moved(&[(11, 0x20_325a)]),
    Moved(&[(18, 0x20_3254)]),
];

/// Arrays and constructors that change places, priorities by their texts, linked sections as mold has them; gaps as large as the
/// alignment of what comes behind; a section before the one that it follows; data and code in the gap of `set`.
static WRONG: [Moved; 10] = [
    Moved(&[(0, 0x20_2208), (9, 0x20_2210)]),
    Moved(&[(3, 0x20_2220), (10, 0x20_2228)]),
    Moved(&[(7, 0x20_2238), (8, 0x20_2240)]),
    Moved(&[(8, 0x20_2230), (9, 0x20_2238)]),
    Moved(&[(16, 0x20_01cc), (17, 0x20_01d0)]),
    Moved(&[(12, 0x20_11f1)]),
    Moved(&[(11, 0x20_325b)]),
    Moved(&[(11, 0x20_3248)]),
    Moved(&[(13, 0x20_3253)]),
    Moved(&[(15, 0x20_3257)]),
];

fn placed_row(row: &Row, at: u64) -> Placed<'static> {
    let header = SectionHeader {
        sh_type: SHT_PROGBITS,
        sh_flags: row.3,
        sh_size: row.5,
        sh_link: row.6,
        sh_addralign: row.4,
        ..SectionHeader::NULL
    };
    Placed {
        at,
        piece: Piece {
            object: row.0,
            section: row.1,
            header,
            name: row.2.as_bytes(),
            bytes: &[],
        },
    }
}

/// The sections, some of them moved.
fn placed(alloc: Global, moved: &[(usize, u64)]) -> Result<Vec<Placed<'static>>, AllocError> {
    let mut placed = Vec::new(alloc);
    for (k, row) in BY_LLD.iter().enumerate() {
        let at = moved.iter().find(|m| m.0 == k).map_or(row.7, |m| m.1);
        placed.push(placed_row(row, at))?;
    }
    Ok(placed)
}

/// Whether the runs of the sections are right, some of them moved, with headers or notes.
fn judged(alloc: Global, moved: &[(usize, u64)], made: &[Thing]) -> Result<bool, AllocError> {
    let placed = placed(alloc, moved)?;
    let pairs = run_pairs(alloc, &placed)?;
    are_runs_right(alloc, &pairs, made, &placed)
}

#[test]
fn runs_of_lld_are_right(rt: HostRuntime) -> Result<(), Fail> {
    let mut all = true;
    for moved in &RIGHT {
        all = judged(rt.alloc(), moved.0, &[])? && all;
    }
    assert!(rt; all);
    Ok(())
}

#[test]
fn other_runs_are_not(rt: HostRuntime) -> Result<(), Fail> {
    let mut all = true;
    for moved in &WRONG {
        all = !judged(rt.alloc(), moved.0, &[])? && all;
    }
    assert!(rt; all);
    Ok(())
}

/// A note of two bytes.
fn note(at: u64) -> Thing {
    Thing {
        at,
        size: 2,
        align: 1,
        rights: 4,
        in_file: true,
    }
}

#[test]
fn notes_lie_in_no_gap(rt: HostRuntime) -> Result<(), Fail> {
    let before = judged(rt.alloc(), &[], &[note(0x20_3251)])?;
    let inside = judged(rt.alloc(), &[], &[note(0x20_3252)])?;
    let last = judged(rt.alloc(), &[], &[note(0x20_3256)])?;
    assert!(rt; (before, inside, last) == (true, false, false));
    Ok(())
}

/// Of all gaps that between the sections of .init alone is of code.
#[test]
fn gaps_of_code_are_told(rt: HostRuntime) -> Result<(), Fail> {
    let placed = placed(rt.alloc(), &[])?;
    let pairs = run_pairs(rt.alloc(), &placed)?;
    let gaps = run_gaps(rt.alloc(), &pairs)?;
    let first = gaps.first().map_or((0, 0), |s| (s.from, s.to));
    assert!(rt; (gaps.len(), first) == (1, (0x20_11ed, 0x20_11f0)));
    Ok(())
}

/// Whether one of some things has an address.
fn has(things: &[Thing], a: u64) -> bool {
    things
        .iter()
        .any(|t| t.at <= a && a.wrapping_sub(t.at) < t.size)
}

/// No slot is in a gap, nor where a note is.
#[test]
fn gaps_are_taken(rt: HostRuntime) -> Result<(), Fail> {
    let placed = placed(rt.alloc(), &[])?;
    let pairs = run_pairs(rt.alloc(), &placed)?;
    let taken = taken_of(rt.alloc(), &[note(0x20_4000)], &pairs)?;
    let gaps = has(&taken, 0x20_11ed) && has(&taken, 0x20_3253) && has(&taken, 0x20_3257);
    let sections = has(&taken, 0x20_11ec) || has(&taken, 0x20_3258);
    assert!(rt; (gaps, sections, has(&taken, 0x20_4001)) == (true, false, true));
    Ok(())
}

//! Where GNU ld 2.40, gold 1.16 and LLD 14 put the names of ends and of beginnings in links that lack data, zeros or arrays, in gold's
//! where read-only data come behind code, and in GNU ld's with large data: the addresses are those that they wrote.
use crate::tests::images::HEADERS;
use crate::tests::linker_names::{Layout, judged_in, lines};
use crate::tests::sample_objects::Part;
use elf_model::{ProgramHeader, SHF_ALLOC, SHF_EXECINSTR, SHF_WRITE, SHT_NOBITS, SHT_PROGBITS};
use judge_model::StretchLine;
use std::alloc::Global;
use std::test::Fail;

const CODE_FLAGS: u64 = SHF_ALLOC + SHF_EXECINSTR;

const DATA_FLAGS: u64 = SHF_ALLOC + SHF_WRITE;

/// SHF_X86_64_LARGE.
const LARGE: u64 = 0x1000_0000;

/// GNU ld: code, read-only data, an empty `.data` beside all segments, and zeros.
static ZEROS_BY_GNU: Layout = Layout {
    segments: &[
        ProgramHeader {
            p_vaddr: 0x40_0000,
            p_paddr: 0x40_0000,
            p_filesz: 0x158,
            p_memsz: 0x158,
            ..HEADERS
        },
        ProgramHeader {
            p_flags: 5,
            p_vaddr: 0x40_1000,
            p_paddr: 0x40_1000,
            p_offset: 0x1000,
            p_filesz: 0x1b,
            p_memsz: 0x1b,
            ..HEADERS
        },
        ProgramHeader {
            p_vaddr: 0x40_2000,
            p_paddr: 0x40_2000,
            p_offset: 0x2000,
            p_filesz: 8,
            p_memsz: 8,
            ..HEADERS
        },
        ProgramHeader {
            p_flags: 6,
            p_vaddr: 0x40_3100,
            p_paddr: 0x40_3100,
            p_offset: 0x100,
            p_filesz: 0,
            p_memsz: 0x20,
            ..HEADERS
        },
    ],
    parts: &[
        Part(".text", SHT_PROGBITS, CODE_FLAGS, 1, 0x1b),
        Part(".data", SHT_PROGBITS, DATA_FLAGS, 1, 0),
        Part(".bss", SHT_NOBITS, DATA_FLAGS, 256, 0x20),
        Part(".rodata", SHT_PROGBITS, SHF_ALLOC, 1, 8),
    ],
    places: &[0x40_1000, 0x40_3008, 0x40_3100, 0x40_2000],
};

/// LLD: code alone, of an object that has no other section.
static CODE_BY_LLD: Layout = Layout {
    segments: &[
        ProgramHeader {
            p_filesz: 0x158,
            p_memsz: 0x158,
            ..HEADERS
        },
        ProgramHeader {
            p_flags: 5,
            p_vaddr: 0x20_1158,
            p_paddr: 0x20_1158,
            p_offset: 0x158,
            p_filesz: 0x20,
            p_memsz: 0x20,
            ..HEADERS
        },
    ],
    parts: &[Part(".text", SHT_PROGBITS, CODE_FLAGS, 1, 0x20)],
    places: &[0x20_1158],
};

/// GNU ld: code, and data without zeros.
static DATA_BY_GNU: Layout = Layout {
    segments: &[
        ProgramHeader {
            p_vaddr: 0x40_0000,
            p_paddr: 0x40_0000,
            p_filesz: 0x120,
            p_memsz: 0x120,
            ..HEADERS
        },
        ProgramHeader {
            p_flags: 5,
            p_vaddr: 0x40_1000,
            p_paddr: 0x40_1000,
            p_offset: 0x1000,
            p_filesz: 0x1b,
            p_memsz: 0x1b,
            ..HEADERS
        },
        ProgramHeader {
            p_flags: 6,
            p_vaddr: 0x40_2000,
            p_paddr: 0x40_2000,
            p_offset: 0x2000,
            p_filesz: 0x1f,
            p_memsz: 0x1f,
            ..HEADERS
        },
    ],
    parts: &[
        Part(".text", SHT_PROGBITS, CODE_FLAGS, 1, 0x1b),
        Part(".data", SHT_PROGBITS, DATA_FLAGS, 1, 0x1f),
    ],
    places: &[0x40_1000, 0x40_2000],
};

/// gold: read-only data behind code, in its segment.
static ALL_BY_GOLD: Layout = Layout {
    segments: &[
        ProgramHeader {
            p_flags: 5,
            p_vaddr: 0x40_0000,
            p_paddr: 0x40_0000,
            p_filesz: 0x120,
            p_memsz: 0x120,
            ..HEADERS
        },
        ProgramHeader {
            p_flags: 6,
            p_vaddr: 0x40_1120,
            p_paddr: 0x40_1120,
            p_offset: 0x120,
            p_filesz: 8,
            p_memsz: 0x28,
            ..HEADERS
        },
    ],
    parts: &[
        Part(".text", SHT_PROGBITS, CODE_FLAGS, 1, 0x20),
        Part(".data", SHT_PROGBITS, DATA_FLAGS, 1, 8),
        Part(".bss", SHT_NOBITS, DATA_FLAGS, 1, 0x20),
        Part(".rodata", SHT_PROGBITS, SHF_ALLOC, 1, 0x18),
    ],
    places: &[0x40_00e8, 0x40_1120, 0x40_1128, 0x40_0108],
};

/// GNU ld: large data behind zeros, in a segment of their own.
static LARGE_BY_GNU: Layout = Layout {
    segments: &[
        ProgramHeader {
            p_vaddr: 0x40_0000,
            p_paddr: 0x40_0000,
            p_filesz: 0x120,
            p_memsz: 0x120,
            ..HEADERS
        },
        ProgramHeader {
            p_flags: 5,
            p_vaddr: 0x40_1000,
            p_paddr: 0x40_1000,
            p_offset: 0x1000,
            p_filesz: 0x1e,
            p_memsz: 0x1e,
            ..HEADERS
        },
        ProgramHeader {
            p_flags: 6,
            p_vaddr: 0x40_2000,
            p_paddr: 0x40_2000,
            p_offset: 0x2000,
            p_filesz: 4,
            p_memsz: 0x58,
            ..HEADERS
        },
        ProgramHeader {
            p_flags: 6,
            p_vaddr: 0x40_4058,
            p_paddr: 0x40_4058,
            p_offset: 0x2058,
            p_filesz: 0x18,
            p_memsz: 0x18,
            ..HEADERS
        },
    ],
    parts: &[
        Part(".text", SHT_PROGBITS, CODE_FLAGS, 1, 0x1e),
        Part(".data", SHT_PROGBITS, DATA_FLAGS, 1, 4),
        Part(".bss", SHT_NOBITS, DATA_FLAGS, 1, 0x10),
        Part(".ldata", SHT_PROGBITS, DATA_FLAGS + LARGE, 1, 0x18),
        Part(".lbss", SHT_NOBITS, DATA_FLAGS + LARGE, 1, 0x40),
    ],
    places: &[0x40_1000, 0x40_2000, 0x40_2004, 0x40_4058, 0x40_2018],
};

/// Code whose segment goes on to that of zeros.
static WHOLE_PAGES: Layout = Layout {
    segments: &[
        ProgramHeader {
            p_flags: 5,
            p_vaddr: 0x40_0000,
            p_paddr: 0x40_0000,
            p_filesz: 0x1000,
            p_memsz: 0x1000,
            ..HEADERS
        },
        ProgramHeader {
            p_flags: 6,
            p_vaddr: 0x40_1000,
            p_paddr: 0x40_1000,
            p_offset: 0x1000,
            p_filesz: 0,
            p_memsz: 0x20,
            ..HEADERS
        },
    ],
    parts: &[
        Part(".text", SHT_PROGBITS, CODE_FLAGS, 1, 0x20),
        Part(".bss", SHT_NOBITS, DATA_FLAGS, 1, 0x18),
    ],
    places: &[0x40_0e00, 0x40_1008],
};

/// LLD: code, and empty sections of data and zeros, as GNU as makes them in each object.
static NONE_BY_LLD: Layout = Layout {
    segments: &[
        ProgramHeader {
            p_filesz: 0x158,
            p_memsz: 0x158,
            ..HEADERS
        },
        ProgramHeader {
            p_flags: 5,
            p_vaddr: 0x20_1158,
            p_paddr: 0x20_1158,
            p_offset: 0x158,
            p_filesz: 0x1e,
            p_memsz: 0x1e,
            ..HEADERS
        },
    ],
    parts: &[
        Part(".text", SHT_PROGBITS, CODE_FLAGS, 1, 0x1e),
        Part(".data", SHT_PROGBITS, DATA_FLAGS, 1, 0),
        Part(".bss", SHT_NOBITS, DATA_FLAGS, 1, 0),
    ],
    places: &[0x20_1158, 0x20_1158, 0x20_2176],
};

/// LLD: data, and an empty section of zeros with a large alignment behind their segment.
static DATA_BY_LLD: Layout = Layout {
    segments: &[
        ProgramHeader {
            p_filesz: 0x1c8,
            p_memsz: 0x1c8,
            ..HEADERS
        },
        ProgramHeader {
            p_flags: 6,
            p_vaddr: 0x20_3200,
            p_paddr: 0x20_3200,
            p_offset: 0x200,
            p_filesz: 0x20,
            p_memsz: 0x20,
            ..HEADERS
        },
    ],
    parts: &[
        Part(".data", SHT_PROGBITS, DATA_FLAGS, 1, 5),
        Part(".bss", SHT_NOBITS, DATA_FLAGS, 64, 0),
    ],
    places: &[0x20_3200, 0x20_3240],
};

/// Which layout it is.
enum Link {
    ZerosByGnu,
    CodeByLld,
    NoneByLld,
    DataByLld,
    DataByGnu,
    AllByGold,
    LargeByGnu,
    WholePages,
}

fn layout_of(link: &Link) -> &'static Layout {
    match link {
        Link::ZerosByGnu => &ZEROS_BY_GNU,
        Link::CodeByLld => &CODE_BY_LLD,
        Link::NoneByLld => &NONE_BY_LLD,
        Link::DataByLld => &DATA_BY_LLD,
        Link::DataByGnu => &DATA_BY_GNU,
        Link::AllByGold => &ALL_BY_GOLD,
        Link::LargeByGnu => &LARGE_BY_GNU,
        Link::WholePages => &WHOLE_PAGES,
    }
}

/// A layout, a name, and its value.
struct Row(Link, &'static str, u64);

static RIGHT: [Row; 28] = [
    Row(Link::ZerosByGnu, "_etext", 0x40_101b),
    Row(Link::ZerosByGnu, "_edata", 0x40_3008),
    Row(Link::ZerosByGnu, "__bss_start", 0x40_3008),
    Row(Link::ZerosByGnu, "_end", 0x40_3120),
    Row(Link::ZerosByGnu, "__init_array_start", 0x40_3008),
    Row(Link::CodeByLld, "_etext", 0x20_1178),
    Row(Link::CodeByLld, "_edata", 0x20_2178),
    Row(Link::CodeByLld, "__bss_start", 0x20_2178),
    Row(Link::CodeByLld, "__bss_start", 0x20_1178),
    Row(Link::CodeByLld, "_end", 0x20_2178),
    Row(Link::NoneByLld, "__bss_start", 0x20_2176),
    Row(Link::DataByLld, "_edata", 0x20_3220),
    Row(Link::DataByLld, "__bss_start", 0x20_3240),
    Row(Link::DataByGnu, "_edata", 0x40_201f),
    Row(Link::DataByGnu, "__bss_start", 0x40_201f),
    Row(Link::DataByGnu, "_end", 0x40_2020),
    Row(Link::DataByGnu, "__init_array_end", 0x40_2000),
    Row(Link::AllByGold, "_etext", 0x40_0120),
    Row(Link::AllByGold, "_etext", 0x40_0108),
    Row(Link::AllByGold, "_edata", 0x40_1128),
    Row(Link::AllByGold, "__bss_start", 0x40_1128),
    Row(Link::AllByGold, "_end", 0x40_1148),
    Row(Link::LargeByGnu, "_edata", 0x40_2004),
    Row(Link::LargeByGnu, "_edata", 0x40_4070),
    Row(Link::LargeByGnu, "__bss_start", 0x40_2004),
    Row(Link::LargeByGnu, "_end", 0x40_4070),
    Row(Link::WholePages, "__bss_start", 0x40_1000),
    Row(Link::WholePages, "__bss_start", 0x40_1008),
];

/// Zeros from the page before on, data that are none, and before or far behind all segments; code up to the middle of what comes
/// behind it, or to the end of a segment that can be written; zeros that begin with data; an end before large data that isn't
/// that of the others; zeros from the end of a segment on that can't be written.
static WRONG: [Row; 21] = [
    Row(Link::ZerosByGnu, "__bss_start", 0x40_2fff),
    Row(Link::ZerosByGnu, "__bss_start", 0x40_3101),
    Row(Link::ZerosByGnu, "_edata", 0x40_3009),
    Row(Link::CodeByLld, "_edata", 0x1f_ffff),
    Row(Link::CodeByLld, "_edata", 0x60_1179),
    Row(Link::CodeByLld, "__bss_start", 0x60_1179),
    Row(Link::CodeByLld, "__bss_start", 0x20_0000),
    Row(Link::CodeByLld, "__bss_start", 0x20_1177),
    Row(Link::NoneByLld, "__bss_start", 0x20_1158),
    Row(Link::DataByLld, "__bss_start", 0x20_3200),
    Row(Link::CodeByLld, "_etext", 0x20_1177),
    Row(Link::DataByGnu, "__bss_start", 0x40_2000),
    Row(Link::DataByGnu, "__bss_start", 0),
    Row(Link::AllByGold, "_etext", 0x40_0110),
    Row(Link::AllByGold, "_etext", 0x40_0121),
    Row(Link::AllByGold, "_etext", 0x40_1148),
    Row(Link::LargeByGnu, "_edata", 0x40_2005),
    Row(Link::LargeByGnu, "_edata", 0x40_4058),
    Row(Link::LargeByGnu, "_end", 0x40_2058),
    Row(Link::WholePages, "__bss_start", 0x40_0e20),
    Row(Link::WholePages, "__bss_start", 0x40_0fff),
];

/// Whether the value of a row is right; None where the image isn't read.
fn judged(alloc: Global, row: &Row) -> Result<Option<bool>, Fail> {
    let rows = lines(alloc, &[(row.1, row.2)])?;
    judged_in(alloc, layout_of(&row.0), &rows, &[])
}

#[test]
fn ends_by_other_linkers_are_right(rt: HostRuntime) -> Result<(), Fail> {
    let mut all = true;
    for row in &RIGHT {
        all = judged(rt.alloc(), row)? == Some(true) && all;
    }
    assert!(rt; all);
    Ok(())
}

#[test]
fn ends_beyond_theirs_are_not(rt: HostRuntime) -> Result<(), Fail> {
    let mut all = true;
    for row in &WRONG {
        all = judged(rt.alloc(), row)? == Some(false) && all;
    }
    assert!(rt; all);
    Ok(())
}

/// What the linker filled behind the code.
const FILLED: StretchLine = StretchLine {
    address: 0x20_1178,
    size: 8,
};

/// Where there are no data and no zeros, programs that clear from `__bss_start` on spare what the linker filled.
#[test]
fn zeros_that_are_none_spare_what_is_filled(rt: HostRuntime) -> Result<(), Fail> {
    let before = lines(rt.alloc(), &[("__bss_start", 0x20_1178)])?;
    let behind = lines(rt.alloc(), &[("__bss_start", 0x20_1180)])?;
    let wrong = judged_in(rt.alloc(), &CODE_BY_LLD, &before, &[FILLED])?;
    let right = judged_in(rt.alloc(), &CODE_BY_LLD, &behind, &[FILLED])?;
    assert_eq!(rt; (wrong, right), (Some(false), Some(true)));
    Ok(())
}

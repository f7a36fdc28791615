//! Layouts: where pieces stand, and in which segments, and what the linker's names for output sections stand for.
ghost use Rattle.std.specs.Prelude.{◌≡◌, IfOk};
ghost use Rattle.elf_model.specs.Link.Pieces.{AreLawfulKinds};

use crate::tests::objects::{
    A_NAME, BSS, DATA, F_NAME, G_NAME, NOTES_NAME, RODATA, RODATA_B_NAME, SYMBOLS, TEXT,
    load_files, object_of, object_with, two_files,
};
use elf_model::{
    Bound, ObjectId, PT_LOAD, ProgramHeader, SHF_ALLOC, SHF_EXECINSTR, SHF_LINK_ORDER, SHF_TLS,
    SHF_WRITE, SHN_COMMON, SHT_STRTAB, SectionHeader, SectionRef, Symbol,
};
use got_tls::slots;
use layout::{LayoutFault, Place, Placement, kinds, place};
use resolve::{Resolved, output_name, resolve};
use search::Loaded;
use std::alloc::{AllocError, Global};
use std::test::Fail;

/// What a layout says: its base, the object, the section and the address of each place, the segments, how many places
/// have the address that is told for their numbers, and the addresses of the blocks of `f`, `g` and `h` and of the GOT.
#[derive(Drop)]
struct Summary {
    base: u64,
    places: Vec<(u64, u64, u64)>,
    segments: Vec<ProgramHeader>,
    told: usize,
    named: [Option<u64>; 4],
}

/// Whether a layout tells the address of a place by its numbers.
fn tells(placement: &Placement<'_>, place: &Place<'_>) -> bool {
    let section = SectionRef {
        object: ObjectId(place.piece.object),
        section: place.piece.section,
    };
    placement.numbered_address(section) == Some(place.at)
}

/// The object, the section and the address of each place of a layout.
fn places_of(alloc: Global, placement: &Placement<'_>) -> Result<Vec<(u64, u64, u64)>, AllocError> {
    let mut places = Vec::new(alloc);
    for place in placement.places() {
        places.push((place.piece.object, place.piece.section, place.at))?;
    }
    Ok(places)
}

/// How many places of a layout have the address that is told for their numbers.
fn told_count(placement: &Placement<'_>) -> usize {
    placement
        .places()
        .iter()
        .filter(|p| tells(placement, p))
        .count()
}

/// The addresses of the blocks of `f`, `g` and `h` and of the GOT.
fn named_addresses(placement: &Placement<'_>) -> [Option<u64>; 4] {
    [
        placement.common(b"f"),
        placement.common(b"g"),
        placement.common(b"h"),
        placement.got(),
    ]
}

fn summary_of(alloc: Global, placement: &Placement<'_>) -> Result<Summary, AllocError> {
    let places = places_of(alloc, placement)?;
    let segments = Vec::from_slice(alloc, placement.segments())?;
    Ok(Summary {
        base: placement.base(),
        places,
        segments,
        told: told_count(placement),
        named: named_addresses(placement),
    })
}

/// The layout of objects from 0x400000 on.
pub fn placed<'a>(
    alloc: Global,
    loaded: &Loaded<'a>,
    resolved: &Resolved<'a>,
) -> Result<Placement<'a>, LayoutFault>
    requires { resolved.now ≡ loaded.now.objects }
    ensures { IfOk result (λ p. p.objects ≡ loaded.now.objects) }
{
    let got = slots(alloc, loaded, resolved)?.got();
    place(alloc, loaded, resolved, got, 0x400000)
}

/// What the layout of objects says whose names are resolved.
fn resolved_summary<'a>(
    alloc: Global,
    loaded: &Loaded<'a>,
    resolved: &Resolved<'a>,
) -> Result<Summary, LayoutFault>
    requires { resolved.now ≡ loaded.now.objects }
{
    let placement = placed(alloc, loaded, resolved)?;
    Ok(summary_of(alloc, &placement)?)
}

/// What the layout of objects says.
fn summary_in(alloc: Global, loaded: &Loaded<'_>) -> Result<Summary, Fail> {
    let resolved = resolve(alloc, loaded)?;
    Ok(resolved_summary(alloc, loaded, &resolved)?)
}

/// What the layout of the objects of two files says.
fn lay_out(alloc: Global, a: &[u8], b: &[u8]) -> Result<Summary, Fail> {
    let files = two_files(alloc, a, b)?;
    let loaded = load_files(alloc, &files)?;
    summary_in(alloc, &loaded)
}

/// What the kinds of an object with one section are refused for.
fn refusal(alloc: Global, section: SectionHeader) -> Result<Option<LayoutFault>, Fail> {
    let text = object_of(alloc, &[TEXT])?;
    let other = object_of(alloc, &[section])?;
    let files = two_files(alloc, &text, &other)?;
    let loaded = load_files(alloc, &files)?;
    Ok(kinds(&loaded).err())
}

/// A section with these flags and the other fields of `header`.
fn with_flags(sh_flags: u64, header: SectionHeader) -> SectionHeader {
    SectionHeader { sh_flags, ..header }
}

/// Whether the layout of objects is too large.
fn is_too_large_in(alloc: Global, loaded: &Loaded<'_>) -> Result<bool, Fail> {
    let resolved = resolve(alloc, loaded)?;
    let placement = placed(alloc, loaded, &resolved);
    Ok(matches!(placement, Err(LayoutFault::TooLarge)))
}

/// That of the objects of two files.
fn is_too_large_of(alloc: Global, a: &[u8], b: &[u8]) -> Result<bool, Fail> {
    let files = two_files(alloc, a, b)?;
    let loaded = load_files(alloc, &files)?;
    is_too_large_in(alloc, &loaded)
}

/// Whether the layout of an object is too large.
fn is_too_large(alloc: Global, sections: &[SectionHeader]) -> Result<bool, Fail> {
    let none = object_of(alloc, &[])?;
    let other = object_of(alloc, sections)?;
    is_too_large_of(alloc, &none, &other)
}

/// A PT_LOAD that the linker lays out from 0x400000 on.
fn segment(p_flags: u32, p_offset: u64, p_filesz: u64, p_memsz: u64) -> ProgramHeader {
    let address = p_offset.saturating_add(0x40_0000);
    ProgramHeader {
        p_type: PT_LOAD,
        p_flags,
        p_offset,
        p_vaddr: address,
        p_paddr: address,
        p_filesz,
        p_memsz,
        p_align: 4096,
    }
}

/// The sections of two objects and the symbols of the first, the places, the segments by their rights, offsets and sizes,
/// and the addresses of the blocks of `f`, `g` and `h` and of the GOT.
type LayoutRow = (
    &'static [SectionHeader],
    &'static [Symbol],
    &'static [SectionHeader],
    &'static [(u64, u64, u64)],
    &'static [(u32, u64, u64, u64)],
    [Option<u64>; 4],
);

/// Common symbols.
const COMMON_G: Symbol = Symbol {
    st_name: G_NAME,
    st_info: 0x11,
    st_shndx: SHN_COMMON,
    st_value: 4,
    st_size: 4,
    ..Symbol::NULL
};

const COMMON_F: Symbol = Symbol {
    st_name: F_NAME,
    st_value: 16,
    st_size: 16,
    ..COMMON_G
};

/// Sections of other names, and a text of another alignment.
const NOTES: SectionHeader = SectionHeader {
    sh_name: NOTES_NAME,
    ..RODATA
};

const RODATA_B: SectionHeader = SectionHeader {
    sh_name: RODATA_B_NAME,
    ..RODATA
};

const TEXT_16: SectionHeader = SectionHeader {
    sh_addralign: 16,
    ..TEXT
};

static LAYOUTS: [LayoutRow; 3] = [
    // One object with three segments.
    (
        &[RODATA, TEXT, DATA, BSS],
        &[],
        &[],
        &[
            (0, 2, 0x400120),
            (0, 3, 0x401000),
            (0, 4, 0x402000),
            (0, 5, 0x402008),
        ],
        &[
            (4, 0, 0x125, 0x125),
            (5, 0x1000, 9, 9),
            (6, 0x2000, 8, 0x10),
        ],
        [None; 4],
    ),
    // Two objects that share output sections.
    (
        &[NOTES, TEXT, RODATA],
        &[],
        &[RODATA_B, TEXT_16],
        &[
            (0, 2, 0x4000e8),
            (0, 4, 0x4000f0),
            (1, 2, 0x4000f8),
            (0, 3, 0x401000),
            (1, 3, 0x401010),
        ],
        &[(4, 0, 0xfd, 0xfd), (5, 0x1000, 0x19, 0x19)],
        [None; 4],
    ),
    // Blocks after all sections, numbered as those of an object of number 2: `.data` at 0x401000, `.bss` at 0x401008, `g`
    // behind it, `f` at the next multiple of 16; no GOT.
    (
        &[DATA, SYMBOLS],
        &[COMMON_G, COMMON_F],
        &[BSS],
        &[
            (0, 2, 0x401000),
            (1, 2, 0x401008),
            (2, 0, 0x401010),
            (2, 1, 0x401020),
        ],
        &[(4, 0, 0xe8, 0xe8), (6, 0x1000, 8, 0x30)],
        [Some(0x401020), Some(0x401010), None, None],
    ),
];

/// Whether a layout is that of a row.
fn is_as_wanted(found: &Summary, row: &LayoutRow) -> bool {
    let (_, _, _, places, segments, named) = *row;
    found.base == 0x400000
        && found.places.as_slice() == places
        && found.told == places.len()
        && found.named == named
        && found.segments.len() == segments.len()
        && found.segments.iter().zip(segments).all(|(found, (flags, offset, filesz, memsz))| {
            *found == segment(*flags, *offset, *filesz, *memsz)
        })
}

/// The layout of a row's objects.
fn layout_of(alloc: Global, row: &LayoutRow) -> Result<Summary, Fail> {
    let a = object_with(alloc, row.0, row.1, &[])?;
    let b = object_of(alloc, row.2)?;
    lay_out(alloc, &a, &b)
}

#[test]
fn pieces_have_their_places(rt: HostRuntime) -> Result<(), Fail> {
    for (number, row) in LAYOUTS.iter().enumerate() {
        let found = layout_of(rt.alloc(), row)?;
        assert!(rt; is_as_wanted(&found, row), "row {number}");
    }
    Ok(())
}

/// The linker's names and their bounds, with what these are where two sections named `a`, of 5 and of 8 bytes, stand
/// at 0x401000 and at 0x401008.
static BOUNDS: [(&[u8], Bound, u64); 6] = [
    (b"__start_a", Bound::OutputStart, 0x401000),
    (b"__stop_a", Bound::OutputEnd, 0x401010),
    (b"__init_array_start", Bound::OutputStart, 0),
    (b"__fini_array_end", Bound::OutputEnd, 0),
    (b"_edata", Bound::DataEnd, 0x401010),
    (b"_end", Bound::ImageEnd, 0x401010),
];

/// The number of the first of those bounds that has another value.
fn first_wrong(placement: &Placement<'_>) -> Option<usize>
    requires { AreLawfulKinds placement.now.objects }
{
    BOUNDS.iter().position(|(name, bound, value)| placement.bound(name, *bound) != *value)
}

/// That of the layout of objects whose names are resolved.
fn first_wrong_placed<'a>(
    alloc: Global,
    loaded: &Loaded<'a>,
    resolved: &Resolved<'a>,
) -> Result<Option<usize>, LayoutFault>
    requires kinds { AreLawfulKinds loaded.now.objects }
    requires resolved { resolved.now ≡ loaded.now.objects }
{
    let placement = placed(alloc, loaded, resolved)?;
    Ok(first_wrong(&placement))
}

/// That of the layout of objects.
fn first_wrong_in(alloc: Global, loaded: &Loaded<'_>) -> Result<Option<usize>, Fail> {
    kinds(loaded)?;
    let resolved = resolve(alloc, loaded)?;
    Ok(first_wrong_placed(alloc, loaded, &resolved)?)
}

/// That of the layout of the objects of two files.
fn first_wrong_of(alloc: Global, a: &[u8], b: &[u8]) -> Result<Option<usize>, Fail> {
    let files = two_files(alloc, a, b)?;
    let loaded = load_files(alloc, &files)?;
    first_wrong_in(alloc, &loaded)
}

#[test]
fn names_of_output_sections_have_bounds(rt: HostRuntime) -> Result<(), Fail> {
    let first = SectionHeader {
        sh_name: A_NAME,
        ..with_flags(SHF_ALLOC | SHF_WRITE, RODATA)
    };
    let second = SectionHeader {
        sh_name: A_NAME,
        ..DATA
    };
    let a = object_of(rt.alloc(), &[first])?;
    let b = object_of(rt.alloc(), &[second])?;
    assert_eq!(rt; first_wrong_of(rt.alloc(), &a, &b)?, None);
    Ok(())
}

/// Sizes of a `.bss`, which stands at 0x401000, and whether its layout is too large.
static SIZES: [(u64, bool); 3] = [
    ((1 << 46) - 0x401000, false),
    ((1 << 46) - 0x400fff, true),
    (u64::MAX, true),
];

/// A byte at the next multiple of 0x200000.
const FAR: SectionHeader = SectionHeader {
    sh_size: 1,
    sh_addralign: 0x20_0000,
    ..RODATA
};

#[test]
fn a_layout_is_too_large_past_the_limit(rt: HostRuntime) -> Result<(), Fail> {
    for (sh_size, large) in SIZES {
        let section = SectionHeader { sh_size, ..BSS };
        assert_eq!(rt;
            is_too_large(rt.alloc(), &[section])?,
            large,
            "of {sh_size} bytes"
        );
    }
    // They stand at 0x600000 and on, so the file ends with byte 0x200000 * count.
    for (count, large) in [(2047, false), (2048, true)] {
        let sections = vec![in rt.alloc(); FAR; count]?;
        let found = is_too_large(rt.alloc(), &sections)?;
        assert_eq!(rt; found, large, "of {count} sections");
    }
    Ok(())
}

#[test]
fn kinds_are_judged(rt: HostRuntime) -> Result<(), Fail> {
    let alloc = rt.alloc();
    let thread = with_flags(SHF_ALLOC | SHF_WRITE | SHF_TLS, DATA);
    let read_only_thread = with_flags(SHF_ALLOC | SHF_TLS, DATA);
    let writable_code = with_flags(SHF_ALLOC | SHF_WRITE | SHF_EXECINSTR, TEXT);
    let read_only_zeros = with_flags(SHF_ALLOC, BSS);
    let linked = with_flags(SHF_ALLOC | SHF_LINK_ORDER, RODATA);
    let strings = SectionHeader {
        sh_type: SHT_STRTAB,
        ..RODATA
    };
    for (section, lawful) in [
        (BSS, true),
        (thread, true),
        (read_only_thread, false),
        (writable_code, false),
        (read_only_zeros, false),
        (linked, false),
        (strings, false),
    ] {
        let flags = section.sh_flags;
        let refused = matches!(refusal(alloc, section)?, Some(LayoutFault::SectionKind));
        assert_eq!(rt; refused, !lawful, "with flags {flags}");
    }
    Ok(())
}

#[test]
fn output_names_gather(rt: HostRuntime) {
    for (name, output) in [
        (".text", ".text"),
        (".text.f", ".text"),
        (".textual", ".textual"),
        (".data.rel.ro", ".data"),
        (".preinit_array.1", ".preinit_array"),
        ("foo.text", "foo.text"),
    ] {
        let found = output_name(name.as_bytes());
        assert!(rt; found == output.as_bytes(), "{name}");
    }
}

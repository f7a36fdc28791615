//! Relocations: their values, whether these fit, and the bytes that they want.
ghost use Rattle.std.specs.Prelude.{◌≡◌, ◌<◌, IfOk, IfSome, length};
ghost use Rattle.std.specs.List.{slice_get};
ghost use Rattle.elf_model.specs.Inputs.ObjectFile as object_file;
ghost use Rattle.elf_model.specs.Link.Pieces.{AreLawfulKinds};
ghost use Rattle.elf_model.specs.Link.Resolution.{sections_of_object};
ghost use Rattle.elf_model.specs.Link.Slots as wanted;

use crate::tests::objects::{
    A_NAME, BSS, DATA, ENTRY, ETEXT_NAME, F_NAME, RODATA, STOP_NAME, SYMBOLS, TEXT, load_files,
    object_with, one_file,
};
use elf_model::{
    Bound, ObjectId, Rela, SHF_ALLOC, SHF_WRITE, STT_SECTION, SectionHeader, SectionRef, Symbol,
};
use got_tls::{Slots, slots};
use layout::{LayoutFault, Placement, kinds, place};
use relocate::{
    Kind, Patches, RelocFault, Terms, apply, apply_part, fits, linker_lines, next_field, patches,
    references, value,
};
use resolve::{Resolved, resolve};
use search::Loaded;
use std::alloc::{AllocError, Global};
use std::process::Abort;
use std::test::Fail;

/// The symbol of a section.
fn section_symbol(number: u16) -> Symbol {
    Symbol {
        st_info: STT_SECTION,
        st_shndx: number,
        ..Symbol::NULL
    }
}

/// An undefined GLOBAL symbol with the name `_etext`.
const TEXT_END: Symbol = Symbol {
    st_name: ETEXT_NAME,
    st_info: 0x10,
    ..Symbol::NULL
};

/// An object with an entry that relocates `.rodata`, section 2 of 5 bytes, and one for another section, of which `.data`
/// is number 4 and has 8 bytes. Symbol 2 is `.rodata`.
fn object_over(
    alloc: Global,
    first: Symbol,
    rodata: Rela,
    section: u32,
    second: Rela,
) -> Result<Vec<u8>, AllocError> {
    let rodata_entries = SectionHeader {
        sh_link: 6,
        sh_info: 2,
        ..ENTRY
    };
    let second_entries = SectionHeader {
        sh_link: 6,
        sh_info: section,
        sh_offset: 288,
        ..ENTRY
    };
    let sections = [
        RODATA,
        TEXT,
        DATA,
        BSS,
        SYMBOLS,
        rodata_entries,
        second_entries,
    ];
    let symbols = [first, section_symbol(2)];
    object_with(alloc, &sections, &symbols, &[rodata, second])
}

/// The input bytes of a section of the first object.
fn input_of<'a>(loaded: &Loaded<'a>, number: usize) -> Option<&'a [u8]>
    ensures { IfSome result (λ bytes. length bytes.now
        ≡ (object_file.section
        (sections_of_object (slice_get loaded.now.objects 0)) number).sh_size) }
{
    let first = loaded.objects().first()?;
    first.object.section_bytes(number)
}

/// The bytes that are wanted of a section of a file's object, laid out from 0x400000 on.
fn wanted(alloc: Global, file: &[u8], number: usize) -> Result<Vec<u8>, Fail> {
    let files = one_file(alloc, file)?;
    let loaded = load_files(alloc, &files)?;
    applied(alloc, &loaded, number)
}

/// Judges the relocations of objects, and makes their patches where these are laid out.
fn judged_patches<'a>(
    alloc: Global,
    loaded: &Loaded<'a>,
    resolved: &Resolved<'a>,
    placement: &Placement<'a>,
    slots: &Slots<'a>,
) -> Result<Patches<'a>, RelocFault>
    requires resolved { resolved.now ≡ loaded.now.objects }
    requires slots { slots.now.slots ≡ wanted.slots loaded.now.objects }
    requires slots_of { slots.now.objects ≡ loaded.now.objects }
    requires placed { placement.now.objects ≡ loaded.now.objects }
    requires kinds { AreLawfulKinds loaded.now.objects }
    ensures { IfOk result (λ p. p ≡ placement.now) }
{
    references(alloc, loaded, resolved)?;
    patches(alloc, loaded, resolved, placement, slots)
}

/// The bytes that are wanted of a section of the first object, laid out from 0x400000 on.
fn applied(alloc: Global, loaded: &Loaded<'_>, number: usize) -> Result<Vec<u8>, Fail> {
    let input = input_of(loaded, number).ok_or("no section's bytes")?;
    let patches = laid_out(alloc, loaded)?;
    let mut bytes = Vec::from_slice(alloc, input)?;
    let section = SectionRef {
        object: ObjectId(0),
        section: number as u64,
    };
    apply(&patches, section, &mut bytes);
    Ok(bytes)
}

/// The patches of objects whose slots are known, laid out from 0x400000 on, or what their relocations are refused for.
fn slotted_patches<'a>(
    alloc: Global,
    loaded: &Loaded<'a>,
    resolved: &Resolved<'a>,
    slots: &Slots<'a>,
) -> Result<Result<Patches<'a>, RelocFault>, LayoutFault>
    requires resolved { resolved.now ≡ loaded.now.objects }
    requires slots { slots.now.slots ≡ wanted.slots loaded.now.objects }
    requires slots_of { slots.now.objects ≡ loaded.now.objects }
    requires got { slots.now.got ≡ wanted.got_size loaded.now.objects }
    requires kinds { AreLawfulKinds loaded.now.objects }
    ensures { IfOk result (λ r. IfOk r (λ p. p.objects ≡ loaded.now.objects)) }
{
    let placement = place(alloc, loaded, resolved, slots.got(), 0x400000)?;
    Ok(judged_patches(alloc, loaded, resolved, &placement, slots))
}

/// Those of objects whose names are resolved.
fn resolved_patches<'a>(
    alloc: Global,
    loaded: &Loaded<'a>,
    resolved: &Resolved<'a>,
) -> Result<Result<Patches<'a>, RelocFault>, LayoutFault>
    requires resolved { resolved.now ≡ loaded.now.objects }
    requires kinds { AreLawfulKinds loaded.now.objects }
    ensures { IfOk result (λ r. IfOk r (λ p. p.objects ≡ loaded.now.objects)) }
{
    let slots = slots(alloc, loaded, resolved)?;
    slotted_patches(alloc, loaded, resolved, &slots)
}

/// Those of objects.
fn loaded_patches<'a>(
    alloc: Global,
    loaded: &Loaded<'a>,
) -> Result<Result<Patches<'a>, RelocFault>, Fail>
    ensures { IfOk result (λ r. IfOk r (λ p. p.objects ≡ loaded.now.objects)) }
{
    kinds(loaded)?;
    let resolved = resolve(alloc, loaded)?;
    Ok(resolved_patches(alloc, loaded, &resolved)?)
}

/// The patches of objects that are laid out from 0x400000 on.
fn laid_out<'a>(alloc: Global, loaded: &Loaded<'a>) -> Result<Patches<'a>, Fail>
    ensures { IfOk result (λ p. p.objects ≡ loaded.now.objects) }
{
    Ok(loaded_patches(alloc, loaded)??)
}

/// Section 2 of the first object, `.rodata`.
fn rodata() -> SectionRef {
    SectionRef {
        object: ObjectId(0),
        section: 2,
    }
}

/// The bytes that are wanted of `.rodata`, written in two parts.
fn in_two_parts(
    alloc: Global,
    patches: &Patches<'_>,
    input: &[u8],
    middle: usize,
) -> Result<Vec<u8>, Fail> {
    let mut bytes = Vec::from_slice(alloc, input)?;
    let middle = middle.min(bytes.len());
    let (front, back) = bytes.split_at_mut(middle);
    apply_part(patches, rodata(), 0, front);
    apply_part(patches, rodata(), middle as u64, back);
    Ok(bytes)
}

/// An entry of a type for the field at an offset, which names a symbol.
fn entry(offset: u64, kind: u64, symbol: u64, addend: i64) -> Rela
    requires symbol { symbol < 16 }
    requires kind { kind < 256 }
{
    Rela {
        r_offset: offset,
        r_info: symbol << 32 | kind,
        r_addend: addend,
    }
}

/// The value of a relocation of a type, and whether it fits the type's field.
fn judged(number: u32, terms: Terms) -> Option<(u64, bool)> {
    let kind = Kind::of(number)?;
    let value = value(kind, terms);
    Some((value, fits(kind, value)))
}

/// Terms of 0.
const ZEROS: Terms = Terms {
    symbol: 0,
    addend: 0,
    place: 0,
    slot: 0,
    got: 0,
    size: 0,
    thread: 0,
};

/// A type whose value is S + 0, for a field at 0x401001, S, the value, and whether it fits.
type SymbolRow = (u32, u64, u64, bool);

/// Type 10 wants an unsigned number of 32 bits, 11 a signed one of 32, 12 either of 16 and 14 either of 8.
static SYMBOLS_ALONE: [SymbolRow; 10] = [
    (10, 0xffff_ffff, 0xffff_ffff, true),
    (10, 0x8000_0000, 0x8000_0000, true),
    (10, 0x1_0000_0000, 0x1_0000_0000, false),
    (11, 0xffff_ffff_ffff_ffff, 0xffff_ffff_ffff_ffff, true),
    (11, 0x8000_0000, 0x8000_0000, false),
    (12, 0xffff, 0xffff, true),
    (12, 0xffff_ffff_ffff_8000, 0xffff_ffff_ffff_8000, true),
    (12, 0x1_0000, 0x1_0000, false),
    (14, 0xffff_ffff_ffff_ff80, 0xffff_ffff_ffff_ff80, true),
    (14, 0xffff_ffff_ffff_ff7f, 0xffff_ffff_ffff_ff7f, false),
];

/// A type, the terms S, P, G, GOT and Z, the addend, the value, and whether it fits.
type ValueRow = (u32, [u64; 5], i64, u64, bool);

static VALUES: [ValueRow; 13] = [
    // Types 2 and 4 are S + A - P, 1 is S + A and 33 is Z + A, modulo 2 to the 64; 2 and 4 want a signed number of 32
    // bits.
    (4, [0x401010, 0x401001, 0, 0, 8], -4, 0xb, true),
    (2, [0x402000, 0x400120, 0, 0, 8], 0, 0x1ee0, true),
    (2, [0, 0x401001, 0, 0, 8], -4, 0xffff_ffff_ffbf_effb, true),
    (
        2,
        [0, 0x1_0000_1001, 0, 0, 8],
        -4,
        0xffff_fffe_ffff_effb,
        false,
    ),
    (1, [0xffff_ffff_ffff_ffff, 0x402000, 0, 0, 8], 2, 1, true),
    (33, [0x402000, 0x400130, 0, 0, 8], 1, 9, true),
    // Types 9 and 42 are G + GOT + A - P, as 22 is for the slot of a thread offset; 3 and 27 are G + A, 26 is GOT + A - P
    // and 25 is S + A - GOT.
    (9, [0x402000, 0x401003, 8, 0x402008, 0], -4, 0x1009, true),
    (42, [0x402000, 0x401003, 8, 0x402008, 0], -4, 0x1009, true),
    (22, [0x402000, 0x401003, 8, 0x402010, 0], -4, 0x1011, true),
    (3, [0x402000, 0x400120, 8, 0x402008, 0], 0, 8, true),
    (27, [0x402000, 0x400138, 8, 0x402008, 0], 0, 8, true),
    (26, [0x402000, 0x400124, 8, 0x402008, 0], 0, 0x1ee4, true),
    (
        25,
        [0x402000, 0x400128, 8, 0x402008, 0],
        0,
        0xffff_ffff_ffff_fff8,
        true,
    ),
];

/// A type whose value is an offset from the thread pointer plus A, the offset, A, the value, and whether it fits: 23 wants a
/// signed number of 32 bits.
type ThreadRow = (u32, u64, i64, u64, bool);

static THREAD_OFFSETS: [ThreadRow; 4] = [
    (23, 0xffff_ffff_ffff_fff0, 0, 0xffff_ffff_ffff_fff0, true),
    (23, 0xffff_ffff_ffff_fff8, 0, 0xffff_ffff_ffff_fff8, true),
    (23, 0xffff_ffff_8000_0000, -1, 0xffff_ffff_7fff_ffff, false),
    (18, 0xffff_ffff_ffff_fff8, 12, 4, true),
];

#[test]
fn values_are_made_of_their_terms(rt: HostRuntime) {
    for (number, symbol, value, fit) in SYMBOLS_ALONE {
        let place = 0x401001;
        let terms = Terms {
            symbol,
            place,
            ..ZEROS
        };
        assert!(rt;
            judged(number, terms) == Some((value, fit)),
            "type {number} of {value}"
        );
    }
    for (number, [symbol, place, slot, got, size], addend, value, fit) in VALUES {
        let terms = Terms {
            symbol,
            addend,
            place,
            slot,
            got,
            size,
            ..ZEROS
        };
        assert!(rt;
            judged(number, terms) == Some((value, fit)),
            "type {number} of {value}"
        );
    }
    for (number, thread, addend, value, fit) in THREAD_OFFSETS {
        let terms = Terms {
            thread,
            addend,
            ..ZEROS
        };
        assert!(rt;
            judged(number, terms) == Some((value, fit)),
            "type {number} of {value}"
        );
    }
}

/// Whether a type has a kind of its own number, whose field has a width.
fn is_of_width(number: u32, width: u8) -> bool {
    match Kind::of(number) {
        Some(kind) => kind.width == width && kind.number == number,
        None => false,
    }
}

#[test]
fn fields_have_their_types_width(rt: HostRuntime) {
    // AMD64 psABI, "Relocation Types": word8, word16, word32 and word64.
    let rows = [
        (1, [14, 15].as_slice()),
        (2, [12, 13].as_slice()),
        (4, [2, 3, 4, 9, 10, 11, 22, 23, 26, 32, 41, 42].as_slice()),
        (8, [1, 18, 24, 25, 27, 28, 29, 33].as_slice()),
    ];
    for (width, numbers) in rows {
        for number in numbers {
            assert!(rt; is_of_width(*number, width), "at type {number}");
        }
    }
    // NONE, COPY and the first type behind the table have none.
    for number in [0, 5, 43] {
        assert!(rt; Kind::of(number).is_none(), "at type {number}");
    }
}

/// S + A - P of symbol 1 in four bytes, and S + A of `.rodata`, symbol 2, in eight; that of symbol 1 in four, and one more
/// in eight.
const DISTANCE: Rela = Rela {
    r_offset: 0,
    r_info: 0x1_0000_0002,
    r_addend: 0,
};

const ADDRESS: Rela = Rela {
    r_offset: 0,
    r_info: 0x2_0000_0001,
    r_addend: 1,
};

const SHORT: Rela = Rela {
    r_info: 0x1_0000_000a,
    ..DISTANCE
};

const LONG: Rela = Rela {
    r_info: 0x1_0000_0001,
    ..ADDRESS
};

/// Symbol 1 of an object, entries for `.rodata` and for `.data`, a section and the bytes that are wanted of it. Three
/// segments: `.rodata` stands behind headers of 64 + 4 * 56 = 0x120 bytes, `.text` of 9 bytes at 0x401000 and `.data` at
/// 0x402000.
static FIELDS: [(Symbol, Rela, Rela, usize, &[u8]); 5] = [
    // 0x402000 - 0x400120 and 0x400120 + 1.
    (DATA_SYMBOL, DISTANCE, ADDRESS, 2, &[0xe0, 0x1e, 0, 0, 5]),
    (
        DATA_SYMBOL,
        DISTANCE,
        ADDRESS,
        3,
        &[0xb8, 0x3c, 0, 0, 0, 0x31, 0xff, 0x0f, 0x05],
    ),
    (
        DATA_SYMBOL,
        DISTANCE,
        ADDRESS,
        4,
        &[0x21, 0x01, 0x40, 0, 0, 0, 0, 0],
    ),
    // The end of the text.
    (TEXT_END, SHORT, LONG, 2, &[0x09, 0x10, 0x40, 0, 5]),
    (TEXT_END, SHORT, LONG, 4, &[0x0a, 0x10, 0x40, 0, 0, 0, 0, 0]),
];

#[test]
fn fields_have_their_values(rt: HostRuntime) -> Result<(), Fail> {
    for (first, rodata, other, number, bytes) in &FIELDS {
        let file = object_over(rt.alloc(), *first, *rodata, 4, *other)?;
        let found = wanted(rt.alloc(), &file, *number)?;
        assert!(rt; found.as_slice() == *bytes, "section {number}");
    }
    Ok(())
}

/// Where to begin in the section, and the first byte from there on that has a field.
static NEXT_FIELDS: [(u64, u64); 5] = [(0, 0), (1, 1), (3, 3), (4, u64::MAX), (5, u64::MAX)];

/// Asserts what patches write in two parts, cut at each byte, and where they have fields: the field has the first four
/// of five bytes, so a cut is before it, in it, at its end or at the section's end.
fn assert_parts<R: Abort + AllocGlobal>(
    rt: &R,
    patches: &Patches<'_>,
    input: &[u8],
) -> Result<(), Fail> {
    for middle in 0..6 {
        let bytes = in_two_parts(rt.alloc(), patches, input, middle)?;
        assert!(rt;
            bytes.as_slice() == [0xe0, 0x1e, 0, 0, 5].as_slice(),
            "at {middle}"
        );
    }
    for (from, next) in NEXT_FIELDS {
        assert_eq!(rt; next_field(patches, rodata(), from), next, "from {from}");
    }
    Ok(())
}

/// Asserts it of the patches of the object in a file.
fn assert_parts_of<R: Abort + AllocGlobal>(rt: &R, file: &[u8]) -> Result<(), Fail> {
    let files = one_file(rt.alloc(), file)?;
    let loaded = load_files(rt.alloc(), &files)?;
    let input = input_of(&loaded, 2).ok_or("no section's bytes")?;
    let patches = laid_out(rt.alloc(), &loaded)?;
    assert_parts(rt, &patches, input)
}

#[test]
fn fields_are_written_in_parts(rt: HostRuntime) -> Result<(), Fail> {
    // As above.
    let file = object_over(rt.alloc(), DATA_SYMBOL, DISTANCE, 4, ADDRESS)?;
    assert_parts_of(&rt, &file)
}

/// Whether the only line of a name of the linker's is that of `_etext`, the end of the code.
fn has_line_of_etext(alloc: Global, loaded: &Loaded<'_>) -> Result<bool, Fail> {
    let resolved = resolve(alloc, loaded)?;
    let lines = linker_lines(alloc, loaded, &resolved)?;
    let [(name, bound)] = lines.as_slice() else {
        return Ok(false);
    };
    Ok(*name == b"_etext".as_slice() && matches!(bound, Bound::CodeEnd))
}

/// Whether it is that of the object in a file.
fn tells_etext(alloc: Global, file: &[u8]) -> Result<bool, Fail> {
    let files = one_file(alloc, file)?;
    let loaded = load_files(alloc, &files)?;
    has_line_of_etext(alloc, &loaded)
}

#[test]
fn linkers_names_in_use_have_lines(rt: HostRuntime) -> Result<(), Fail> {
    let file = object_over(rt.alloc(), TEXT_END, SHORT, 4, LONG)?;
    assert!(rt; tells_etext(rt.alloc(), &file)?);
    Ok(())
}

/// What the relocations of objects are refused for, or `lawful`.
fn refusal(alloc: Global, loaded: &Loaded<'_>) -> Result<String, Fail> {
    match loaded_patches(alloc, loaded)? {
        Ok(_) => Ok(String::from_str(alloc, "lawful")?),
        Err(fault) => Ok(format!(in alloc; "{fault}")?),
    }
}

/// That of a file's object.
fn refusal_of(alloc: Global, file: &[u8]) -> Result<String, Fail> {
    let files = one_file(alloc, file)?;
    let loaded = load_files(alloc, &files)?;
    refusal(alloc, &loaded)
}

/// The symbols of the sections `.data` and of the symbols, which isn't kept, and an undefined `f`.
const DATA_SYMBOL: Symbol = Symbol {
    st_info: STT_SECTION,
    st_shndx: 4,
    ..Symbol::NULL
};

const SYMBOLS_SYMBOL: Symbol = Symbol {
    st_shndx: 6,
    ..DATA_SYMBOL
};

const UNDEFINED_F: Symbol = Symbol {
    st_name: F_NAME,
    ..TEXT_END
};

/// Symbol 1 of an object, an entry for `.rodata`, the section of another entry and this entry, and what they are
/// refused for.
static REFUSALS: [(Symbol, Rela, u32, Rela, &str); 10] = [
    // A field of 4 bytes at 1 ends with the 5 bytes of `.rodata`.
    (
        DATA_SYMBOL,
        Rela {
            r_offset: 1,
            ..DISTANCE
        },
        4,
        ADDRESS,
        "lawful",
    ),
    (
        DATA_SYMBOL,
        Rela {
            r_offset: 2,
            ..DISTANCE
        },
        4,
        ADDRESS,
        "FieldOutside (5)",
    ),
    (UNDEFINED_F, DISTANCE, 4, ADDRESS, "Undefined (2)"),
    (SYMBOLS_SYMBOL, DISTANCE, 4, ADDRESS, "RefToDropped (3)"),
    // Type 5 is COPY, 23 a thread offset, and 14 wants a number of 8 bits, which 0x402000 isn't.
    (
        DATA_SYMBOL,
        Rela {
            r_info: 0x1_0000_0005,
            ..DISTANCE
        },
        4,
        ADDRESS,
        "RelocKind (4)",
    ),
    (
        DATA_SYMBOL,
        Rela {
            r_info: 0x1_0000_0017,
            ..DISTANCE
        },
        4,
        ADDRESS,
        "TlsMismatch (8)",
    ),
    (
        DATA_SYMBOL,
        Rela {
            r_info: 0x1_0000_000e,
            ..DISTANCE
        },
        4,
        ADDRESS,
        "Overflow (7)",
    ),
    // Two fields of `.rodata` share three bytes, or one byte; with type NONE there is one field.
    (
        DATA_SYMBOL,
        DISTANCE,
        2,
        Rela {
            r_offset: 1,
            ..DISTANCE
        },
        "OverlappingFields (6)",
    ),
    (
        DATA_SYMBOL,
        DISTANCE,
        2,
        Rela {
            r_offset: 3,
            r_info: 0x1_0000_000c,
            r_addend: 0,
        },
        "OverlappingFields (6)",
    ),
    (
        DATA_SYMBOL,
        DISTANCE,
        2,
        Rela {
            r_offset: 1,
            r_info: 0,
            r_addend: 0,
        },
        "lawful",
    ),
];

#[test]
fn unlawful_relocations_are_refused(rt: HostRuntime) -> Result<(), Fail> {
    for (first, rodata, section, second, text) in &REFUSALS {
        let file = object_over(rt.alloc(), *first, *rodata, *section, *second)?;
        assert_eq!(rt; refusal_of(rt.alloc(), &file)?.as_str(), *text);
    }
    Ok(())
}

/// An undefined GLOBAL symbol with the name `__stop_a`.
const STOP: Symbol = Symbol {
    st_name: STOP_NAME,
    ..TEXT_END
};

/// An object of two sections named `a`, of which the first, section 2, has flags, and of an entry of the second, which
/// is data of 8 bytes, for the address of `__stop_a`.
fn object_with_bound(alloc: Global, sh_flags: u64) -> Result<Vec<u8>, AllocError> {
    let first = SectionHeader {
        sh_name: A_NAME,
        sh_flags,
        ..RODATA
    };
    let second = SectionHeader {
        sh_name: A_NAME,
        ..DATA
    };
    let entries = SectionHeader {
        sh_link: 4,
        sh_info: 3,
        ..ENTRY
    };
    let sections = [first, second, SYMBOLS, entries];
    let symbols = [STOP, section_symbol(2)];
    object_with(alloc, &sections, &symbols, &[entry(0, 1, 1, 0)])
}

#[test]
fn a_bound_is_that_of_one_output_section(rt: HostRuntime) -> Result<(), Fail> {
    let alloc = rt.alloc();
    let one = object_with_bound(alloc, SHF_ALLOC | SHF_WRITE)?;
    let second = wanted(alloc, &one, 3)?;
    // The sections stand at 0x401000 and at 0x401008.
    assert!(rt; second.as_slice() == [0x10, 0x10, 0x40, 0, 0, 0, 0, 0].as_slice());
    let two = object_with_bound(alloc, SHF_ALLOC)?;
    assert_eq!(rt; refusal_of(alloc, &two)?.as_str(), "MixedSection (9)");
    Ok(())
}

//! Instructions that linkers may rewrite: no other field and no symbol may be in what a relocation's type tells of them (AMD64 psABI
//! 4.4, "Relocation Types"; B.2).
use crate::tests::sample_objects::{
    Named, Part, Place, file, loaded, object, put, put_relocation, words,
};
use elf_model::{DropLine, SHF_ALLOC, SHF_EXECINSTR, SHT_PROGBITS, SHT_RELA};
use input_judge::{are_fields_apart, are_instructions_whole};
use link_fields::Drops;
use std::alloc::Global;
use std::test::Fail;

/// Code, and two sections of one relocation each, whose entries begin behind the file header and the code.
static RELOCATED: [Part; 3] = [
    Part(".text", SHT_PROGBITS, SHF_ALLOC + SHF_EXECINSTR, 1, 8),
    Part(".rela.text", SHT_RELA, 0, 8, 24),
    Part(".rela.text", SHT_RELA, 0, 8, 24),
];

/// An object whose code has two relocations with an addend, and with these symbols.
fn object_of(
    alloc: Global,
    pair: (Place, Place),
    addend: i64,
    symbols: &[Named],
) -> Result<Vec<u8>, Fail> {
    let mut bytes = object(alloc, &RELOCATED, symbols)?;
    let headers = bytes.len().saturating_sub(5 * 64);
    put_relocation(&mut bytes, headers, 72, pair.0);
    put_relocation(&mut bytes, headers.saturating_add(64), 96, pair.1);
    put(&mut bytes, 88, addend.cast_unsigned(), 8);
    put(&mut bytes, 112, addend.cast_unsigned(), 8);
    Ok(bytes)
}

const START: Named = Named("_start", 0x12, 1, 0);

/// Whether no byte lies in the places of two relocations with an addend.
fn are_apart(alloc: Global, pair: (Place, Place), addend: i64) -> Result<bool, Fail> {
    let files = file(alloc, object_of(alloc, pair, addend, &[START])?)?;
    let words = words(alloc)?;
    let named = loaded(alloc, &words, &files)?;
    Ok(are_fields_apart(alloc, &named.objects, &Drops::new(&[]))?)
}

/// R_X86_64_GOTPCREL (9) and R_X86_64_GOTPCRELX (41) tell two bytes in front of four, R_X86_64_GOTTPOFF (22) and
/// R_X86_64_REX_GOTPCRELX (42) three, where the section has them; R_X86_64_PC32 (2) and R_X86_64_8 (14) tell none.
static APART: [(Place, Place); 6] = [
    ((0, 14), (3, 41)),
    ((0, 14), (3, 9)),
    ((0, 14), (4, 42)),
    ((0, 14), (4, 22)),
    ((0, 2), (4, 2)),
    ((0, 14), (1, 41)),
];

static OVERLAPPING: [(Place, Place); 6] = [
    ((1, 14), (3, 41)),
    ((2, 14), (3, 9)),
    ((1, 14), (4, 42)),
    ((3, 14), (4, 22)),
    ((0, 2), (4, 41)),
    ((4, 42), (0, 2)),
];

#[test]
fn no_field_is_in_front_of_another(rt: HostRuntime) -> Result<(), Fail> {
    for pair in &APART {
        assert!(rt; are_apart(rt.alloc(), *pair, -4)?);
    }
    for pair in &OVERLAPPING {
        assert!(rt; !are_apart(rt.alloc(), *pair, -4)?);
        assert!(rt; are_apart(rt.alloc(), *pair, -5)?);
    }
    Ok(())
}

/// Whether no symbol is inside an instruction of an object that has these, given the lines of sections that are left out.
fn are_whole(
    alloc: Global,
    place: Place,
    addend: i64,
    symbol: Named,
    drops: &Drops<'_>,
) -> Result<bool, Fail> {
    let bytes = object_of(alloc, ((0, 200), place), addend, &[START, symbol])?;
    let files = file(alloc, bytes)?;
    let words = words(alloc)?;
    let named = loaded(alloc, &words, &files)?;
    Ok(are_instructions_whole(alloc, &named.objects, drops)?)
}

const CODE: DropLine = DropLine {
    object: 0,
    section: 1,
};

/// At the first byte and behind the last one of an instruction of seven bytes, and of one of six; elsewhere; and in a field of no
/// instruction.
static WHOLE: [(Place, Named); 7] = [
    ((3, 42), Named("f", 0x12, 1, 0)),
    ((3, 42), Named("f", 0x12, 1, 7)),
    ((3, 41), Named("f", 0x12, 1, 1)),
    ((4, 22), Named("f", 0x12, 1, 8)),
    ((3, 42), Named("f", 0x10, 0xfff1, 4)),
    ((3, 42), Named("f", 0x12, 2, 4)),
    ((3, 2), Named("f", 0x12, 1, 4)),
];

static BROKEN: [(Place, Named); 6] = [
    ((3, 42), Named("f", 0x12, 1, 1)),
    ((3, 42), Named("f", 0x12, 1, 6)),
    ((3, 41), Named("f", 0x22, 1, 2)),
    ((3, 9), Named("f", 0x10, 1, 3)),
    ((4, 22), Named("f", 0x12, 1, 7)),
    ((4, 22), Named("f", 0x12, 1, 2)),
];

#[test]
fn no_symbol_is_inside_an_instruction(rt: HostRuntime) -> Result<(), Fail> {
    for row in &WHOLE {
        assert!(rt; are_whole(rt.alloc(), row.0, -4, row.1, &Drops::new(&[]))?);
    }
    for row in &BROKEN {
        assert!(rt; !are_whole(rt.alloc(), row.0, -4, row.1, &Drops::new(&[]))?);
        assert!(rt; are_whole(rt.alloc(), row.0, 0, row.1, &Drops::new(&[]))?);
        assert!(rt; are_whole(rt.alloc(), row.0, -4, row.1, &Drops::new(&[CODE]))?);
    }
    Ok(())
}

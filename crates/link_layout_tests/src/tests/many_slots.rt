//! A link whose global offset table has more slots than a number of 16 bits counts.
use link_samples::links::{Part, Wanted, is_as_wanted, linked_bytes};
use link_samples::objects::{NamedSymbol, Relocation, Section, relocatable};
use link_samples::parts::{START, TEXT};
use std::alloc::Global;
use std::test::Fail;

const MANY: u32 = 70_000;

const R_GOTPCREL: u32 = 9;

/// A LOCAL symbol at the beginning of the text.
const LOCAL: NamedSymbol<'static> = NamedSymbol {
    name: "",
    st_info: 0,
    st_size: 0,
    ..START
};

/// An object of so many LOCAL symbols, and a text with a GOTPCREL to each, four bytes a relocation.
fn many_slots(alloc: Global) -> Result<Vec<u8>, Fail> {
    let mut symbols = Vec::new(alloc);
    symbols.resize(MANY as usize, LOCAL)?;
    symbols.push(START)?;
    let mut relocations = Vec::new(alloc);
    for before in 0..MANY {
        let (offset, symbol) = (4 * u64::from(before), before + 1);
        relocations.push(Relocation(1, offset, R_GOTPCREL, symbol, -4))?;
    }
    let mut bytes = Vec::new(alloc);
    bytes.resize(4 * MANY as usize, 0)?;
    let text = Section {
        bytes: &bytes,
        ..TEXT
    };
    relocatable(alloc, &[text], &symbols, &relocations)
}

/// The text is at 0x401000, the table at 0x446000, 0x46000 in the file; the first field is 0x45004 (G + GOT + A - P), and
/// the last slot has the text's address.
const PARTS: [Part; 2] = [
    (0x1000, &[0x04, 0x50, 0x04, 0]),
    (846_720, &[0, 0x10, 0x40, 0, 0, 0, 0, 0]),
];

const WANTED: Wanted = Wanted::Linked(
    846_728,
    &PARTS,
    b"slot 00000000004ceb80 value local 0 70000\n\
    symbol 0000000000401000 strong 0 70001 _start\n\
    end\n",
);

#[test]
fn slots_and_lines_may_be_many(rt: HostRuntime) -> Result<(), Fail> {
    let object = many_slots(rt.alloc())?;
    let answer = linked_bytes(rt.alloc(), object)?;
    assert!(rt; is_as_wanted(rt.alloc(), &answer, &WANTED)?);
    Ok(())
}

//! C7: a GOT that should be there or not, its slots, their places and the bytes that memory has of it.
use crate::tests::lines::{Row, assert_rows};
use crate::tests::samples::LOADING;
use link_samples::links::Change;
use std::test::Fail;

/// The lines of the map of an object with one slot.
const SLOT: &str = "got 0000000000402008 16\nslot 0000000000402010 value name v\n";

static GOTS: [Row; 7] = [
    (
        LOADING,
        Change::Text(SLOT, "slot 0000000000402010 value name v\n"),
        "the map has no GOT, and a relocation asks for one\n",
    ),
    (
        LOADING,
        Change::Text(SLOT, "got 0000000000402008 16\n"),
        "a.o: .text+0x3: relocation 0 of section 5, R_X86_64_REX_GOTPCRELX, to symbol 2 v: no line of the map has its slot\n\
         the map's got line: the size is 16, and should be 8\n",
    ),
    (
        LOADING,
        Change::Text(
            SLOT,
            "got 0000000000402008 16\nslot 0000000000402008 value name v\n",
        ),
        "line 6 of the map: the address of the slot is 0x402008, and should be 0x402010\n",
    ),
    (
        LOADING,
        Change::Text(
            SLOT,
            "got 0000000000402008 16\nslot 0000000000402010 thread name v\n",
        ),
        "a.o: .text+0x3: relocation 0 of section 5, R_X86_64_REX_GOTPCRELX, to symbol 2 v: no line of the map has its slot\n\
         line 6 of the map: no relocation asks for this slot\n",
    ),
    (
        LOADING,
        Change::Text(
            SLOT,
            "got 0000000000402008 16\nslot 0000000000402008 value name v\nslot 0000000000402010 value name v\n",
        ),
        "the map's got line: the size is 16, and should be 24\n\
         line 6 of the map: the address of the slot is 0x402008, and should be 0x402010\n\
         line 7 of the map: the slot of line 6 again\n\
         line 7 of the map: the address of the slot is 0x402010, and should be 0x402018\n",
    ),
    (
        LOADING,
        Change::Image(0x2008, 0x55),
        "the GOT: byte 0x0 at 0x402008 is 0x55, and should be 0x00\n",
    ),
    (
        LOADING,
        Change::Image(0x2012, 0x55),
        "the GOT: byte 0xa at 0x402012 is 0x55, and should be 0x40\n",
    ),
];

#[test]
fn wrong_offset_tables_are_told(rt: HostRuntime) -> Result<(), Fail> {
    assert_rows(&rt, &GOTS)
}

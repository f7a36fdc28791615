//! C8: a PT_TLS header that is another than the thread-local sections ask for, and what stands among their bytes.
use crate::tests::lines::{Row, assert_rows};
use crate::tests::samples::WITH_THREAD_ZEROS;
use elf_model::{SHF_ALLOC, SHF_WRITE};
use link_samples::links::{Change, File};
use link_samples::objects::{Relocation, Section};
use link_samples::parts::{DATA, LOADER, START, TEXT, THREAD_DATA, WEAK_NO_F};
use std::test::Fail;

/// The thread-local data as plain data.
const NO_THREAD_DATA: Section<'static> = Section {
    sh_flags: SHF_ALLOC | SHF_WRITE,
    ..THREAD_DATA
};

const THREADED: &[File] = &[File::Object("a.o", &[TEXT, THREAD_DATA], &[START], &[])];

const UNTHREADED: &[File] = &[File::Object("a.o", &[TEXT, NO_THREAD_DATA], &[START], &[])];

/// Thread-local data 32 bytes behind others, of another output section: there is room between the two.
const APART: Section<'static> = Section {
    name: "apart",
    sh_addralign: 32,
    ..THREAD_DATA
};

const WITH_ROOM: &[File] = &[File::Object("a.o", &[TEXT, THREAD_DATA, APART, DATA], &[START], &[])];

/// A slot for a name without a definition holds zeros, as the room does.
const ROOM_AND_SLOT: &[File] = &[File::Object(
    "a.o",
    &[LOADER, THREAD_DATA, APART],
    &[START, WEAK_NO_F],
    &[Relocation(1, 3, 42, 2, -4)],
)];

/// The PT_TLS header of the third one is the fourth, after R, RX and RW; its p_filesz is changed. Then the zeros of the
/// map are elsewhere, and a section and the GOT stand in the room.
static THREAD_BLOCKS: [Row; 6] = [
    (
        THREADED,
        Change::Files(UNTHREADED),
        "PT_TLS: at 0x402000, file offset 0x2000, 0x4 bytes in the file and 0x4 in memory, alignment 0x4; it should be: \
         none\n",
    ),
    (
        UNTHREADED,
        Change::Files(THREADED),
        "PT_TLS: none; it should be: at 0x402000, file offset 0x2000, 0x4 bytes in the file and 0x4 in memory, alignment \
         0x4\n",
    ),
    (
        WITH_THREAD_ZEROS,
        Change::Image(0x108, 3),
        "PT_TLS: at 0x402000, file offset 0x2000, 0x3 bytes in the file and 0xc in memory, alignment 0x8; it should be: \
         at 0x402000, file offset 0x2000, 0x4 bytes in the file and 0xc in memory, alignment 0x8\n",
    ),
    (
        WITH_THREAD_ZEROS,
        Change::Text("place 0000000000402008", "place 0000000000401ff8"),
        "PT_TLS: at 0x402000, file offset 0x2000, 0x4 bytes in the file and 0xc in memory, alignment 0x8; it should be: \
         at 0x401ff8, file offset 0x1ff8, 0xc bytes in the file and 0xc in memory, alignment 0x8\n\
         a.o: section 3 .tbss at 0x401ff8 begins before the end of the thread-local bytes, from 0x402000 to 0x402004\n",
    ),
    (
        WITH_ROOM,
        Change::Text("place 0000000000402028", "place 0000000000402008"),
        "a.o: section 4 .data at 0x402008 begins before the end of the thread-local bytes, from 0x402000 to 0x402024\n",
    ),
    (
        ROOM_AND_SLOT,
        Change::Text(
            "got 0000000000402028 16\nslot 0000000000402030",
            "got 0000000000402008 16\nslot 0000000000402010",
        ),
        "the GOT at 0x402008 begins before the end of the thread-local bytes, from 0x402000 to 0x402024\n",
    ),
];

#[test]
fn wrong_thread_blocks_are_told(rt: HostRuntime) -> Result<(), Fail> {
    assert_rows(&rt, &THREAD_BLOCKS)
}

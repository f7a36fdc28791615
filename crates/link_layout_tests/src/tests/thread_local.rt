//! Links with thread-local storage: PT_TLS, offsets from the thread pointer, slots that hold them, and zeros that take up
//! no memory.
use elf_model::LinkError;
use ld_main::{Clause, Output, Verdict, check};
use link_samples::links::{
    Change, File, Judged, Row, Wanted, files_of, first_misjudged, first_wrong, is_as_wanted,
    linked, linked_bytes, replaced,
};
use link_samples::objects::{NamedSymbol, Relocation, Section, relocatable};
use link_samples::one_object::words_of;
use link_samples::parts::{
    DATA, LOADER, R_PC32, SECTION_2, START, TEXT, THREAD_DATA, THREAD_ZEROS,
};
use std::alloc::Global;
use std::test::Fail;

const R_TPOFF64: u32 = 18;

const R_GOTTPOFF: u32 = 22;

const R_TPOFF32: u32 = 23;

/// Twelve bytes of code.
const NOPS: Section<'static> = Section {
    bytes: &[0x90; 12],
    ..TEXT
};

/// `.tbss` of 8 bytes.
const EIGHT_ZEROS: Section<'static> = Section {
    memory: 8,
    ..THREAD_ZEROS
};

/// Thread-local data of 4 bytes, at the beginnings of sections 2 and 3.
const D: NamedSymbol<'static> = NamedSymbol {
    name: "d",
    st_info: 0x16,
    st_shndx: 2,
    st_value: 0,
    st_size: 4,
};

const T: NamedSymbol<'static> = NamedSymbol {
    name: "t",
    st_shndx: 3,
    ..D
};

/// A text with TPOFF32 to `d` and to `t`, and one that loads the offset of `t` from a slot (`mov t@GOTTPOFF(%rip), %rax`).
const OFFSETTING: File = File::Object(
    "a.o",
    &[NOPS, THREAD_DATA, THREAD_ZEROS],
    &[START, D, T],
    &[
        Relocation(1, 0, R_TPOFF32, 2, 0),
        Relocation(1, 4, R_TPOFF32, 3, 0),
    ],
);

const LOADING: File = File::Object(
    "a.o",
    &[LOADER, THREAD_DATA, THREAD_ZEROS],
    &[START, D, T],
    &[Relocation(1, 3, R_GOTTPOFF, 3, -4)],
);

/// PT_TLS: 4 bytes of the file and 12 of memory at 0x402000, aligned 8.
const THREAD_HEADER: [u8; 56] = [
    7, 0, 0, 0, 4, 0, 0, 0, 0, 0x20, 0, 0, 0, 0, 0, 0, 0, 0x20, 0x40, 0, 0, 0, 0, 0, 0, 0x20, 0x40,
    0, 0, 0, 0, 0, 4, 0, 0, 0, 0, 0, 0, 0, 12, 0, 0, 0, 0, 0, 0, 0, 8, 0, 0, 0, 0, 0, 0, 0,
];

/// Where p_filesz and p_memsz of RW stand in an image with R, RX and RW, and where PT_TLS does.
const DATA_FILE_SIZE: usize = 0xd0;

const DATA_MEMORY_SIZE: usize = 0xd8;

const THREAD_HEADER_AT: usize = 0xe8;

const OFFSET_MAP: &[u8] = b"ldmap 2\n\
    object 0 0 0 a.o\n\
    place 0000000000401000 12 0 1 .text\n\
    place 0000000000402000 4 0 2 .tdata\n\
    place 0000000000402008 4 0 3 .tbss\n\
    symbol 0000000000401000 strong 0 1 _start\n\
    symbol 0000000000402000 strong 0 2 d\n\
    symbol 0000000000402008 strong 0 3 t\n\
    end\n";

const SLOT_MAP: &[u8] = b"ldmap 2\n\
    object 0 0 0 a.o\n\
    place 0000000000401000 16 0 1 .text\n\
    place 0000000000402000 4 0 2 .tdata\n\
    place 0000000000402008 4 0 3 .tbss\n\
    got 0000000000402008 16\n\
    slot 0000000000402010 thread name t\n\
    symbol 0000000000401000 strong 0 1 _start\n\
    symbol 0000000000402000 strong 0 2 d\n\
    symbol 0000000000402008 strong 0 3 t\n\
    end\n";

/// A word of zeros, and a slot with the offset -8.
const GOT_BYTES: [u8; 16] = [
    0, 0, 0, 0, 0, 0, 0, 0, 0xf8, 0xff, 0xff, 0xff, 0xff, 0xff, 0xff, 0xff,
];

const ZEROS_MAP: &[u8] = b"ldmap 2\n\
    object 0 0 0 a.o\n\
    place 0000000000401000 9 0 1 .text\n\
    place 0000000000402000 8 0 2 .tbss\n\
    symbol 0000000000401000 strong 0 1 _start\n\
    end\n";

const ZEROS_AND_DATA_MAP: &[u8] = b"ldmap 2\n\
    object 0 0 0 a.o\n\
    place 0000000000401000 9 0 1 .text\n\
    place 0000000000402000 8 0 2 .tbss\n\
    place 0000000000402000 8 0 3 .data\n\
    symbol 0000000000401000 strong 0 1 _start\n\
    end\n";

static LINKS: [Row; 6] = [
    // The entry is not thread-local.
    (&[OFFSETTING], "a.o -e t", Wanted::Refused("NoEntry (18)")),
    // Offsets are from the thread pointer, of four bytes and of eight.
    (
        &[OFFSETTING],
        "a.o",
        Wanted::Linked(
            8196,
            &[
                (0x1000, &[0xf0, 0xff, 0xff, 0xff, 0xf8, 0xff, 0xff, 0xff]),
                (DATA_FILE_SIZE, &[4, 0, 0, 0, 0, 0, 0, 0]),
                (DATA_MEMORY_SIZE, &[4, 0, 0, 0, 0, 0, 0, 0]),
                (THREAD_HEADER_AT, &THREAD_HEADER),
            ],
            OFFSET_MAP,
        ),
    ),
    (
        &[File::Object(
            "a.o",
            &[NOPS, THREAD_DATA, THREAD_ZEROS],
            &[START, D, T],
            &[Relocation(1, 2, R_TPOFF64, 3, 5)],
        )],
        "a.o",
        Wanted::Linked(
            0,
            &[(0x1002, &[0xfd, 0xff, 0xff, 0xff, 0xff, 0xff, 0xff, 0xff])],
            b"",
        ),
    ),
    // A slot holds an offset.
    (
        &[LOADING],
        "a.o",
        Wanted::Linked(
            8216,
            &[
                (0x1003, &[0x09, 0x10, 0, 0]),
                (0x2008, &GOT_BYTES),
                (DATA_FILE_SIZE, &[0x18, 0, 0, 0, 0, 0, 0, 0]),
                (DATA_MEMORY_SIZE, &[0x18, 0, 0, 0, 0, 0, 0, 0]),
            ],
            SLOT_MAP,
        ),
    ),
    // Zeros of threads make no segment (p_filesz and p_memsz of the one in front of the code), and push no data.
    (
        &[File::Object("a.o", &[TEXT, EIGHT_ZEROS], &[START], &[])],
        "a.o",
        Wanted::Linked(
            4105,
            &[(0x60, &[0x20, 1, 0, 0, 0, 0, 0, 0, 0x20, 1, 0, 0])],
            ZEROS_MAP,
        ),
    ),
    (
        &[File::Object(
            "a.o",
            &[
                TEXT,
                EIGHT_ZEROS,
                Section {
                    sh_addralign: 1,
                    bytes: &[7; 8],
                    ..DATA
                },
            ],
            &[START],
            &[],
        )],
        "a.o",
        Wanted::Linked(0x2008, &[(0x2000, &[7; 8])], ZEROS_AND_DATA_MAP),
    ),
];

#[test]
fn thread_storage_is_linked(rt: HostRuntime) -> Result<(), Fail> {
    assert_eq!(rt; first_wrong(rt.alloc(), &LINKS)?, None);
    Ok(())
}

/// What comes of a text with a relocation, data, whose section is symbol 1, and `t`, symbol 3.
fn link_mixed(alloc: Global, kind: u32, symbol: u32) -> Result<Result<Output, LinkError>, Fail> {
    let bytes = relocatable(
        alloc,
        &[TEXT, DATA, THREAD_ZEROS],
        &[SECTION_2, START, T],
        &[Relocation(1, 0, kind, symbol, 0)],
    )?;
    linked_bytes(alloc, bytes)
}

const MISMATCH: Wanted = Wanted::Refused("TlsMismatch (16)");

const LINKED: Wanted = Wanted::Linked(0, &[], b"");

/// A kind, a symbol, and what comes of the link; SIZE32 may be of anything.
static MATCHES: [(u32, u32, Wanted); 6] = [
    (R_PC32, 3, MISMATCH),
    (R_TPOFF32, 1, MISMATCH),
    (R_GOTTPOFF, 1, MISMATCH),
    (R_TPOFF32, 3, LINKED),
    (R_GOTTPOFF, 3, LINKED),
    (32, 3, LINKED),
];

#[test]
fn kinds_and_storage_match(rt: HostRuntime) -> Result<(), Fail> {
    for (kind, symbol, wanted) in &MATCHES {
        let answer = link_mixed(rt.alloc(), *kind, *symbol)?;
        let right = is_as_wanted(rt.alloc(), &answer, wanted)?;
        assert!(rt; right, "{kind} to {symbol}");
    }
    Ok(())
}

/// An image that gives the zeros of threads memory of their own has a segment that ends with nothing.
static WRONG_MEMORY: [Judged; 1] = [(
    Change::Image(DATA_MEMORY_SIZE, 12),
    Verdict::No(Clause::C11),
)];

/// A slot with another offset; PT_TLS with p_filesz of 3 and of 5, p_memsz of 16, p_align of 16.
static WRONG_BYTES: [Judged; 5] = [
    (Change::Image(0x2010, 8), Verdict::No(Clause::C7)),
    (
        Change::Image(THREAD_HEADER_AT + 32, 3),
        Verdict::No(Clause::C8),
    ),
    (
        Change::Image(THREAD_HEADER_AT + 32, 5),
        Verdict::No(Clause::C8),
    ),
    (
        Change::Image(THREAD_HEADER_AT + 40, 16),
        Verdict::No(Clause::C8),
    ),
    (
        Change::Image(THREAD_HEADER_AT + 48, 16),
        Verdict::No(Clause::C8),
    ),
];

#[test]
fn wrong_thread_storage_is_found(rt: HostRuntime) -> Result<(), Fail> {
    let memory = first_misjudged(rt.alloc(), &[OFFSETTING], "a.o", &WRONG_MEMORY)?;
    let bytes = first_misjudged(rt.alloc(), &[LOADING], "a.o", &WRONG_BYTES)?;
    assert_eq!(rt; [memory, bytes], [None, None]);
    Ok(())
}

/// The image with the table behind the addresses of the zeros.
fn far_image(alloc: Global, near: &[u8]) -> Result<Vec<u8>, Fail> {
    let mut image = Vec::from_slice(alloc, near.get(..0x2008).ok_or("the image")?)?;
    image.extend_from_slice(&[0; 8])?;
    image.extend_from_slice(&GOT_BYTES)?;
    for (at, byte) in [
        (DATA_FILE_SIZE, 0x20),
        (DATA_MEMORY_SIZE, 0x20),
        (0x1003, 0x11),
    ] {
        *image.get_mut(at).ok_or("the image")? = byte;
    }
    Ok(image)
}

/// The length of that image, and the verdict on it.
fn far_verdict(alloc: Global) -> Result<(usize, Verdict), Fail> {
    let files = files_of(alloc, &[LOADING])?;
    let words = words_of(alloc, "-s a.o")?;
    let near = linked(alloc, &files, "a.o")??;
    let image = far_image(alloc, &near.image)?;
    let map = replaced(
        alloc,
        SLOT_MAP,
        "got 0000000000402008 16\nslot 0000000000402010",
        "got 0000000000402010 16\nslot 0000000000402018",
    )?;
    let verdict = check(alloc, &files, &words, &image, &map)?;
    Ok((image.len(), verdict))
}

#[test]
fn the_table_may_stand_behind_the_zeros(rt: HostRuntime) -> Result<(), Fail> {
    let (len, verdict) = far_verdict(rt.alloc())?;
    assert_eq!(rt; len, 8224);
    assert_eq!(rt; verdict, Verdict::Yes);
    Ok(())
}

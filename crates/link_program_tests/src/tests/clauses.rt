//! The least clause that fails, of links with one mistake.
use elf_model::{InputFile, NameSeed};
use ld_main::{Clause, Verdict, check, check_in};
use link_samples::links::{Change, File, Judged, first_misjudged, linked};
use link_samples::objects::{NamedSymbol, Relocation, relocatable};
use link_samples::one_object::{one_file, words_of};
use link_samples::parts::{ABSOLUTE_F, R_64, R_PC32, START, TEXT as TEXT_SECTION};
use link_samples::vectors::{IMAGE_HEADERS, MAP, OBJECT, TEXT, TEXT_OFFSET, image};
use std::alloc::Global;
use std::test::Fail;

/// The object of `vectors`, of its parts.
const PLAIN: &[File] = &[File::Object("a.o", &[TEXT_SECTION], &[START], &[])];

static ROWS: [Judged; 24] = [
    (Change::Nothing, Verdict::Yes),
    // A word without its path, and no input.
    (Change::Words("a.o -o"), Verdict::No(Clause::C1)),
    (Change::Words(""), Verdict::No(Clause::C1)),
    (Change::Map(b"ldmap 3\nend\n"), Verdict::No(Clause::C1)),
    // No such file.
    (Change::Words("a.o b.o"), Verdict::No(Clause::C2)),
    // e_machine; the path of the object.
    (Change::Input(18, 3), Verdict::No(Clause::C2)),
    (
        Change::Map(
            b"ldmap 2\nobject 0 0 0 b.o\nplace 0000000000401000 9 0 1 .text\nsymbol 0000000000401000 strong 0 1 _start\nend\n",
        ),
        Verdict::No(Clause::C2),
    ),
    // WRITE beside EXECINSTR; the name of the section; its size; a dropped section; a common block.
    (Change::Input(248, 7), Verdict::No(Clause::C3)),
    (
        Change::Map(
            b"ldmap 2\nobject 0 0 0 a.o\nplace 0000000000401000 9 0 1 .texu\nsymbol 0000000000401000 strong 0 1 _start\nend\n",
        ),
        Verdict::No(Clause::C3),
    ),
    (
        Change::Map(
            b"ldmap 2\nobject 0 0 0 a.o\nplace 0000000000401000 8 0 1 .text\nsymbol 0000000000401000 strong 0 1 _start\nend\n",
        ),
        Verdict::No(Clause::C3),
    ),
    (
        Change::Map(
            b"ldmap 2\nobject 0 0 0 a.o\ndrop 0 2\nplace 0000000000401000 9 0 1 .text\nsymbol 0000000000401000 strong 0 1 _start\nend\n",
        ),
        Verdict::No(Clause::C3),
    ),
    (
        Change::Map(
            b"ldmap 2\nobject 0 0 0 a.o\nplace 0000000000401000 9 0 1 .text\ncommon 0000000000402000 8 8 c\nsymbol 0000000000401000 strong 0 1 _start\nend\n",
        ),
        Verdict::No(Clause::C3),
    ),
    // EI_DATA; p_align of the first segment.
    (Change::Image(5, 2), Verdict::No(Clause::C4)),
    (Change::Image(113, 0x20), Verdict::No(Clause::C4)),
    // Below the base; a byte past the segment's end.
    (
        Change::Map(
            b"ldmap 2\nobject 0 0 0 a.o\nplace 0000000000000000 9 0 1 .text\nsymbol 0000000000401000 strong 0 1 _start\nend\n",
        ),
        Verdict::No(Clause::C5),
    ),
    (
        Change::Map(
            b"ldmap 2\nobject 0 0 0 a.o\nplace 0000000000401001 9 0 1 .text\nsymbol 0000000000401000 strong 0 1 _start\nend\n",
        ),
        Verdict::No(Clause::C6),
    ),
    // A slot without a GOT.
    (
        Change::Map(
            b"ldmap 2\nobject 0 0 0 a.o\nplace 0000000000401000 9 0 1 .text\nslot 0000000000401000 value name f\nsymbol 0000000000401000 strong 0 1 _start\nend\n",
        ),
        Verdict::No(Clause::C7),
    ),
    // The text; a byte of no segment; e_entry.
    (Change::Image(0x1000, 0), Verdict::No(Clause::C10)),
    (Change::Image(0x200, 1), Verdict::No(Clause::C11)),
    (Change::Image(24, 1), Verdict::No(Clause::C12)),
    // The binding, the value, and no line.
    (
        Change::Map(
            b"ldmap 2\nobject 0 0 0 a.o\nplace 0000000000401000 9 0 1 .text\nsymbol 0000000000401000 weak 0 1 _start\nend\n",
        ),
        Verdict::No(Clause::C13),
    ),
    (
        Change::Map(
            b"ldmap 2\nobject 0 0 0 a.o\nplace 0000000000401000 9 0 1 .text\nsymbol 0000000000401001 strong 0 1 _start\nend\n",
        ),
        Verdict::No(Clause::C13),
    ),
    (
        Change::Map(b"ldmap 2\nobject 0 0 0 a.o\nplace 0000000000401000 9 0 1 .text\nend\n"),
        Verdict::No(Clause::C13),
    ),
    // The last line but one.
    (
        Change::Map(
            b"ldmap 2\nobject 0 0 0 a.o\nplace 0000000000401000 9 0 1 .text\nsymbol 0000000000401000 strong 0 1 _start\n",
        ),
        Verdict::No(Clause::C1),
    ),
];

#[test]
fn the_least_clause_that_fails_is_told(rt: HostRuntime) -> Result<(), Fail> {
    assert_eq!(rt; first_misjudged(rt.alloc(), PLAIN, "a.o", &ROWS)?, None);
    Ok(())
}

/// The image with a PT_TLS of nothing before its last program header, and R longer by that header.
fn image_with_thread_block(alloc: Global) -> Result<Vec<u8>, Fail> {
    let mut bytes = Vec::from_slice(alloc, &IMAGE_HEADERS[..176])?;
    bytes[56] = 4;
    bytes[96..98].copy_from_slice(&[0x20, 1]);
    bytes[104..106].copy_from_slice(&[0x20, 1]);
    bytes.extend_from_slice(&[7, 0, 0, 0, 4, 0, 0, 0, 0, 0x10, 0, 0, 0, 0, 0, 0])?;
    bytes.extend_from_slice(&[0, 0x10, 0x40, 0, 0, 0, 0, 0, 0, 0x10, 0x40, 0, 0, 0, 0, 0])?;
    bytes.extend_from_slice(&[0; 16])?;
    bytes.extend_from_slice(&[1, 0, 0, 0, 0, 0, 0, 0])?;
    bytes.extend_from_slice(&IMAGE_HEADERS[176..])?;
    bytes.resize(TEXT_OFFSET, 0)?;
    bytes.extend_from_slice(&TEXT)?;
    Ok(bytes)
}

#[test]
fn a_thread_block_without_thread_storage_is_wrong(rt: HostRuntime) -> Result<(), Fail> {
    let image = image_with_thread_block(rt.alloc())?;
    let files = one_file(rt.alloc(), "a.o", &OBJECT)?;
    let words = words_of(rt.alloc(), "a.o")?;
    let verdict = check(rt.alloc(), &files, &words, &image, MAP)?;
    assert_eq!(rt; verdict, Verdict::No(Clause::C8));
    Ok(())
}

/// What the check says of an image where names are hashed from a seed.
fn seeded_verdict(alloc: Global, image: &[u8], seed: u64) -> Result<Verdict, Fail> {
    let files = one_file(alloc, "a.o", &OBJECT)?;
    let words = words_of(alloc, "-s a.o")?;
    let verdict = check_in(alloc, &files, &words, image, MAP, NameSeed::new(seed))?;
    Ok(verdict)
}

#[test]
fn a_right_link_is_right_by_a_seed(rt: HostRuntime) -> Result<(), Fail> {
    let right = image(rt.alloc())?;
    assert_eq!(rt; seeded_verdict(rt.alloc(), &right, 7)?, Verdict::Yes);
    Ok(())
}

#[test]
fn a_wrong_link_is_wrong_by_a_seed(rt: HostRuntime) -> Result<(), Fail> {
    let image = image_with_thread_block(rt.alloc())?;
    assert_eq!(rt;
        seeded_verdict(rt.alloc(), &image, 7)?,
        Verdict::No(Clause::C8)
    );
    Ok(())
}

/// `f` without a definition.
const NOWHERE: NamedSymbol<'static> = NamedSymbol {
    st_shndx: 0,
    ..ABSOLUTE_F
};

/// A symbol, and an unlawful relocation of it: COPY, and 32, of which the value doesn't fit; PC32 with a field past the end;
/// 64 without a definition.
static UNLAWFUL: [(NamedSymbol, Relocation); 4] = [
    (ABSOLUTE_F, Relocation(1, 0, 5, 2, 0)),
    (ABSOLUTE_F, Relocation(1, 0, 10, 2, 0)),
    (ABSOLUTE_F, Relocation(1, 6, R_PC32, 2, 0)),
    (NOWHERE, Relocation(1, 0, R_64, 2, 0)),
];

/// An object with a symbol and a relocation of it.
fn referring(
    alloc: Global,
    symbol: NamedSymbol<'_>,
    relocation: Relocation,
) -> Result<Vec<InputFile>, Fail> {
    let bytes = relocatable(alloc, &[TEXT_SECTION], &[START, symbol], &[relocation])?;
    one_file(alloc, "a.o", &bytes)
}

/// What the check says where an object has a relocation, and was linked with one of type NONE in its stead.
fn verdict_with(
    alloc: Global,
    symbol: NamedSymbol<'_>,
    relocation: Relocation,
) -> Result<Verdict, Fail> {
    let Relocation(section, offset, _, number, addend) = relocation;
    let files = referring(
        alloc,
        symbol,
        Relocation(section, offset, 0, number, addend),
    )?;
    let output = linked(alloc, &files, "a.o")??;
    let files = referring(alloc, symbol, relocation)?;
    let words = words_of(alloc, "-s a.o")?;
    Ok(check(alloc, &files, &words, &output.image, &output.map)?)
}

#[test]
fn wrong_relocations_fail_the_ninth_clause(rt: HostRuntime) -> Result<(), Fail> {
    for (number, (symbol, relocation)) in UNLAWFUL.iter().enumerate() {
        let verdict = verdict_with(rt.alloc(), *symbol, *relocation)?;
        assert_eq!(rt; verdict, Verdict::No(Clause::C9), "row {number}");
    }
    Ok(())
}

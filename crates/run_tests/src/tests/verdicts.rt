//! The line that a check prints for each clause, of links with one mistake.
use crate::tests::machine::StoredFile;
use crate::tests::runs::run_line;
use elf_model::{SHF_ALLOC, SHF_TLS, SHF_WRITE};
use link_samples::links::{Change, File, changed};
use link_samples::objects::{NamedSymbol, Relocation, Section};
use link_samples::one_object::words_of;
use link_samples::parts::{DATA, F, START, TEXT};
use std::alloc::Global;
use std::test::Fail;

const PLAIN: &[File] = &[File::Object("a.o", &[TEXT], &[START], &[])];

/// An absolute symbol, and a relocation of it: NONE, and COPY, which the profile hasn't.
const ABSOLUTE: NamedSymbol<'static> = NamedSymbol {
    st_shndx: 0xfff1,
    ..F
};

const RELOCATED: &[File] = &[File::Object(
    "a.o",
    &[TEXT],
    &[START, ABSOLUTE],
    &[Relocation(1, 0, 0, 2, 0)],
)];

const COPIED: &[File] = &[File::Object(
    "a.o",
    &[TEXT],
    &[START, ABSOLUTE],
    &[Relocation(1, 0, 5, 2, 0)],
)];

/// Thread-local data of 8 zeros. PT_TLS is the fourth program header, at 64 + 3 * 56, its p_memsz 40 bytes behind.
const THREADED: &[File] = &[File::Object(
    "a.o",
    &[
        TEXT,
        Section {
            name: ".tdata",
            sh_flags: SHF_ALLOC | SHF_WRITE | SHF_TLS,
            ..DATA
        },
    ],
    &[START],
    &[],
)];

const THREAD_MEMORY_SIZE: usize = 272;

/// Files, the words of their link and its check, what is changed between them, and the line that is printed.
static ROWS: [(&[File], &str, Change, &str); 15] = [
    (PLAIN, "-s a.o", Change::Nothing, "yes"),
    (PLAIN, "-s a.o", Change::Text("ldmap 2", "ldmap 3"), "no C1"),
    // e_machine.
    (PLAIN, "-s a.o", Change::Input(18, 3), "no C2"),
    (PLAIN, "-s a.o", Change::Text(" 9 0 1 ", " 8 0 1 "), "no C3"),
    // EI_DATA.
    (PLAIN, "-s a.o", Change::Image(5, 2), "no C4"),
    // The text below the base; a byte past its segment's end.
    (
        PLAIN,
        "-s a.o",
        Change::Text("place 0000000000401000", "place 0000000000000000"),
        "no C5",
    ),
    (
        PLAIN,
        "-s a.o",
        Change::Text("place 0000000000401000", "place 0000000000401001"),
        "no C6",
    ),
    // A slot without a GOT.
    (
        PLAIN,
        "-s a.o",
        Change::Text("symbol", "slot 0000000000402000 value name f\nsymbol"),
        "no C7",
    ),
    (
        THREADED,
        "-s a.o",
        Change::Image(THREAD_MEMORY_SIZE, 9),
        "no C8",
    ),
    (RELOCATED, "-s a.o", Change::Files(COPIED), "no C9"),
    // The first byte of the text; one of no segment; e_entry.
    (PLAIN, "-s a.o", Change::Image(0x1000, 0), "no C10"),
    (PLAIN, "-s a.o", Change::Image(0x200, 1), "no C11"),
    (PLAIN, "-s a.o", Change::Image(24, 1), "no C12"),
    (PLAIN, "-s a.o", Change::Text("strong", "weak"), "no C13"),
    // A byte between the text and the symbol table.
    (PLAIN, "a.o", Change::Image(0x1009, 1), "no C14"),
];

/// All that comes of a check of the link of files by a line, once it is changed.
fn told(alloc: Global, files: &[File], line: &str, change: &Change) -> Result<String, Fail> {
    let words = words_of(alloc, line)?;
    let (files, output) = changed(alloc, files, &words, change)?;
    let mut stored = Vec::new(alloc);
    for file in &files {
        stored.push(StoredFile::sound(&file.name, &file.bytes))?;
    }
    stored.push(StoredFile::sound("a.out", &output.image))?;
    stored.push(StoredFile::sound("a.map", &output.map))?;
    let line = format!(in alloc; "{line} -Map=a.map --check")?;
    Ok(run_line(alloc, &stored, &line)?.told)
}

#[test]
fn a_check_prints_the_least_clause_that_fails(rt: HostRuntime) -> Result<(), Fail> {
    for (files, line, change, answer) in &ROWS {
        let status = u8::from(*answer != "yes");
        let wanted = format!(in rt.alloc();
            "read a.o\nread a.out\nread a.map\nout: {answer}\n\nerr: \nstatus {status}"
        )?;
        assert_eq!(rt; told(rt.alloc(), files, line, change)?, wanted);
    }
    Ok(())
}

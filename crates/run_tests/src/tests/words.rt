//! The words that the system hands to the program.
use crate::tests::machine::{SOUND, StoredFile};
use crate::tests::runs::run;
use link_samples::vectors::OBJECT;
use std::test::Fail;

/// A path of 300 bytes, more than a word has room for at first.
const LONG: &str =
    "aaaaaaaaaaaaaaaaaaaaaaaaaaaaaaaaaaaaaaaaaaaaaaaaaaaaaaaaaaaaaaaaaaaaaaaaaaaaaaaaaaaaaaaaaaaaaaaaaaaa\
    aaaaaaaaaaaaaaaaaaaaaaaaaaaaaaaaaaaaaaaaaaaaaaaaaaaaaaaaaaaaaaaaaaaaaaaaaaaaaaaaaaaaaaaaaaaaaaaaaaaa\
    aaaaaaaaaaaaaaaaaaaaaaaaaaaaaaaaaaaaaaaaaaaaaaaaaaaaaaaaaaaaaaaaaaaaaaaaaaaaaaaaaaaaaaaaaaaaaaaaaaaa";

const LD: &[u8] = b"ld";

/// Words, the program's name first, and what comes of a run with them where only `a.o` and that path are there.
static ROWS: [(&[&[u8]], &str); 7] = [
    // The program's name is no word, whatever it is, and may be missing.
    (
        &[LD],
        "out: \nerr: ld: Command (2): NoInput (6)\n\nstatus 2",
    ),
    (
        &[b"a.o"],
        "out: \nerr: ld: Command (2): NoInput (6)\n\nstatus 2",
    ),
    (&[], "out: \nerr: ld: Command (2): NoInput (6)\n\nstatus 2"),
    (
        &[LD, b"-s", b"a.o"],
        "stat a.out\nread a.o\nopen a.out\nnew .a.out.ld-0\nmode 100755\nrename .a.out.ld-0 to a.out\nout: \nerr: \nstatus 0",
    ),
    // An empty word is an option's value, or the path of no file.
    (
        &[LD, b"a.o", b"-o", b""],
        "out: \nerr: ld: Command (2): MissingValue (3)\n\nstatus 2",
    ),
    // A word that isn't UTF-8, also behind a fault of the words.
    (
        &[LD, b"a\xff.o"],
        "out: \nerr: ld: a word is not UTF-8\n\nstatus 2",
    ),
    (
        &[LD, b"-x", b"a.o", b"\xc3"],
        "out: \nerr: ld: a word is not UTF-8\n\nstatus 2",
    ),
];

#[test]
fn words_stand_behind_the_programs_name(rt: HostRuntime) -> Result<(), Fail> {
    let stored = [StoredFile::sound("a.o", &OBJECT)];
    for (words, wanted) in &ROWS {
        let told = run(rt.alloc(), &stored, SOUND, words)?.told;
        assert_eq!(rt; told.as_str(), *wanted);
    }
    Ok(())
}

#[test]
fn a_long_word_is_read_whole(rt: HostRuntime) -> Result<(), Fail> {
    let stored = [StoredFile::sound(LONG, &OBJECT)];
    let words = [LD, b"-s", LONG.as_bytes()];
    let told = run(rt.alloc(), &stored, SOUND, &words)?.told;
    let wanted = format!(in rt.alloc();
        "stat a.out\nread {LONG}\nopen a.out\nnew .a.out.ld-0\nmode 100755\nrename .a.out.ld-0 to a.out\nout: \nerr: \nstatus 0"
    )?;
    assert_eq!(rt; told, wanted);
    Ok(())
}

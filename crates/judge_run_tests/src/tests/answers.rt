//! What `ld-judge` reads and prints, and its status: of a right link, and of such in which one thing isn't right.
use crate::tests::machine::{Disk, Machine, StoredFile};
use crate::tests::samples::{
    CERTIFICATE, ENTRY, FIELD, GAP, KIND, PHYSICAL, SECOND, THIRD_TYPE, first_object, image,
    second_object,
};
use judge_main::{Answer, run_args};
use std::alloc::Global;
use std::io;
use std::io::{ErrorKind, Write};
use std::test::Fail;

/// What is changed of the right link before it is judged: the line of words, a text of the certificate where it first occurs, bytes of
/// the image at an offset; or which file is missing, or can't be opened.
enum Change {
    Nothing,
    Words(&'static str),
    Text(&'static str, &'static str),
    Image(usize, &'static [u8]),
    Missing(&'static str),
    Locked(&'static str),
}

const WORDS: &str = "--certificate=a.cert -static -o x a.o b.o";

/// All files, in the order in which they are read.
const READ: &str = "read a.cert\nread a.o\nread b.o\nread x\n";

/// What is changed, and what is printed on `out`, with the status, where all files are read.
static ROWS: [(Change, &str, u8); 16] = [
    (Change::Nothing, "yes", 0),
    // The objects in another order than that of the words.
    (
        Change::Text(
            "object 0 0 0 a.o\nobject 1 1 0 b.o",
            "object 0 1 0 b.o\nobject 1 0 0 a.o",
        ),
        "no F1",
        1,
    ),
    // A section that is left out.
    (
        Change::Text(
            "place 00000000002010e8 5 0 1 .text\nplace 00000000002010f0 3 1 1 .text",
            "drop 1 1\nplace 00000000002010e8 5 0 1 .text",
        ),
        "no F2",
        1,
    ),
    // The second section where it isn't aligned; the first one behind it.
    (
        Change::Text("place 00000000002010f0", "place 00000000002010ed"),
        "no F3",
        1,
    ),
    (
        Change::Text("place 00000000002010e8", "place 0000000000201200"),
        "no F3",
        1,
    ),
    // A name of the linker's with another value than the end of all sections.
    (
        Change::Text("end\n", "symbol 00000000002010f0 linker _end\nend\n"),
        "no F4",
        1,
    ),
    // A call that jumps one byte further; another instruction behind it.
    (
        Change::Image(FIELD, &[4]),
        "no F5\n  object 0, section 1, offset 1: the field of a relocation of type 4",
        1,
    ),
    (
        Change::Image(SECOND, &[0x33]),
        "no F7\n  object 1, section 1: bytes beside the fields of relocations",
        1,
    ),
    // A list of call frames that is in no area.
    (
        Change::Text("ldmap 2", "frames 2101480 5\nldmap 2"),
        "no F8",
        1,
    ),
    // A block of thread-local storage that no section has.
    (Change::Image(THIRD_TYPE, &[7, 0, 0, 0]), "no F9", 1),
    // Another byte between the sections.
    (Change::Image(GAP, &[0x91]), "no F10", 1),
    // The entry in the second object; another physical address; an object.
    (Change::Image(ENTRY, &[0xf0]), "no F11", 1),
    (Change::Image(PHYSICAL, &[1]), "no F12", 1),
    (Change::Image(KIND, &[1]), "no F12", 1),
    // Words for --gc-sections, where no section is left out.
    (
        Change::Words("--certificate=a.cert --gc-sections -o x a.o b.o"),
        "yes",
        0,
    ),
    // The line of a record of call frames in a section of code.
    (
        Change::Text(
            "ldmap 2",
            "area 2097384 8\nframes 2097384 8\nframe 0 1 0 5 2097384\nldmap 2",
        ),
        "not judged: call frames that can't be judged",
        5,
    ),
];

/// What is changed, and all that comes of it, where another line is printed or a file isn't read.
static OTHER_ROWS: [(Change, &str); 13] = [
    // An input that is missing.
    (
        Change::Missing("b.o"),
        "read a.cert\nread a.o\nread b.o\nread x\nout: not judged: an input that can't be read\n\nerr: \nstatus 5",
    ),
    // Words that aren't known: no file of a link is read.
    (
        Change::Words("--certificate=a.cert --wrap=f -o x a.o b.o"),
        "read a.cert\nout: not judged: words that aren't known\n\nerr: \nstatus 5",
    ),
    (
        Change::Words("--certificate=a.cert"),
        "read a.cert\nout: not judged: words that aren't known\n\nerr: \nstatus 5",
    ),
    // No certificate.
    (
        Change::Words(""),
        "out: \nerr: ld-judge: the first word is --certificate=FILE\n\nstatus 2",
    ),
    (
        Change::Words("-static --certificate=a.cert -o x a.o b.o"),
        "out: \nerr: ld-judge: the first word is --certificate=FILE\n\nstatus 2",
    ),
    // A line that is none of a certificate: of the map, of those in front of it, and behind these.
    (
        Change::Text("5 0 1 .text", "5 0 1 .data\nplace"),
        "read a.cert\nout: \nerr: ld-judge: a.cert: line 5 is none of a certificate\n\nstatus 2",
    ),
    (
        Change::Text("ldmap 2", "note 1 x\nldmap 2"),
        "read a.cert\nout: \nerr: ld-judge: a.cert: line 1 is none of a certificate\n\nstatus 2",
    ),
    (
        Change::Text("ldmap 2", "frames 4096 8\nframe 0 1 0 5\nldmap 2"),
        "read a.cert\nout: \nerr: ld-judge: a.cert: line 2 is none of a certificate\n\nstatus 2",
    ),
    (
        Change::Text("ldmap 2", "note 4096 8\nldmap 3"),
        "read a.cert\nout: \nerr: ld-judge: a.cert: line 2 is none of a certificate\n\nstatus 2",
    ),
    // Files that are missing or can't be opened.
    (
        Change::Missing("a.cert"),
        "read a.cert\nout: \nerr: ld: cannot read a.cert\n\nstatus 3",
    ),
    (
        Change::Missing("x"),
        "read a.cert\nread a.o\nread b.o\nread x\nout: \nerr: ld: cannot read x\n\nstatus 3",
    ),
    (
        Change::Locked("b.o"),
        "read a.cert\nread a.o\nread b.o\nout: \nerr: ld: cannot read b.o\n\nstatus 3",
    ),
    (
        Change::Locked("x"),
        "read a.cert\nread a.o\nread b.o\nread x\nout: \nerr: ld: cannot read x\n\nstatus 3",
    ),
];

/// The line of words after a change.
fn line_after(change: &Change) -> &'static str {
    match change {
        Change::Words(line) => *line,
        _ => WORDS,
    }
}

/// The certificate after a change.
fn certificate_after(alloc: Global, change: &Change) -> Result<String, Fail> {
    match change {
        Change::Text(old, new) => {
            let (front, rest) = CERTIFICATE.split_once(*old).ok_or("no such text")?;
            Ok(format!(in alloc; "{front}{new}{rest}")?)
        }
        _ => Ok(String::from_str(alloc, CERTIFICATE)?),
    }
}

/// The image after a change.
fn image_after(alloc: Global, change: &Change) -> Result<Vec<u8>, Fail> {
    let mut image = image(alloc)?;
    if let Change::Image(at, bytes) = change {
        for (place, byte) in image.iter_mut().skip(*at).zip(bytes.iter()) {
            *place = *byte;
        }
    }
    Ok(image)
}

/// A file with some bytes at a path, unless it is missing after a change.
fn store<'a>(
    stored: &mut Vec<StoredFile<'a>>,
    change: &Change,
    path: &'a str,
    bytes: &'a [u8],
) -> Result<(), Fail> {
    let locked = match change {
        Change::Missing(missing) if *missing == path => return Ok(()),
        Change::Locked(shut) if *shut == path => Some(ErrorKind::PermissionDenied),
        _ => None,
    };
    stored.push(StoredFile {
        path,
        bytes,
        locked,
    })?;
    Ok(())
}

/// The words of a line, behind the program's name.
fn words_of<'a>(alloc: Global, line: &'a str) -> Result<Vec<&'a [u8]>, Fail> {
    let mut words = Vec::new(alloc);
    words.push("ld-judge".as_bytes())?;
    for word in line.split_ascii_whitespace() {
        words.push(word.as_bytes())?;
    }
    Ok(words)
}

/// What comes of a run with the words of a line where these files are: what is opened, what is printed, and the status.
fn told(alloc: Global, stored: &[StoredFile<'_>], line: &str) -> Result<String, Fail> {
    let disk = Disk::new(alloc, stored);
    let words = words_of(alloc, line)?;
    let machine = Machine {
        disk: &disk,
        words: &words,
    };
    let mut out = Vec::new(alloc);
    let mut err = Vec::new(alloc);
    let status = run_args(&machine, &mut out, &mut err).status;
    let journal = disk.into_journal();
    let out = String::from_utf8(out)?;
    let err = String::from_utf8(err)?;
    Ok(format!(in alloc; "{journal}out: {out}\nerr: {err}\nstatus {status}")?)
}

/// What comes of a run after a change.
fn told_after(alloc: Global, change: &Change) -> Result<String, Fail> {
    let certificate = certificate_after(alloc, change)?;
    let image = image_after(alloc, change)?;
    let (first, second) = (first_object(alloc)?, second_object(alloc)?);
    let mut stored = Vec::new(alloc);
    store(&mut stored, change, "a.cert", certificate.as_bytes())?;
    store(&mut stored, change, "a.o", &first)?;
    store(&mut stored, change, "b.o", &second)?;
    store(&mut stored, change, "x", &image)?;
    told(alloc, &stored, line_after(change))
}

#[test]
fn links_are_judged(rt: HostRuntime) -> Result<(), Fail> {
    for (change, line, status) in &ROWS {
        let wanted = format!(in rt.alloc(); "{READ}out: {line}\n\nerr: \nstatus {status}")?;
        assert_eq!(rt; told_after(rt.alloc(), change)?, wanted);
    }
    Ok(())
}

#[test]
fn other_links_are_not_judged(rt: HostRuntime) -> Result<(), Fail> {
    for (change, wanted) in &OTHER_ROWS {
        let told = told_after(rt.alloc(), change)?;
        assert_eq!(rt; told.as_str(), *wanted);
    }
    Ok(())
}

/// A writer that takes nothing.
#[derive(Drop)]
struct Full;

impl Write for Full {
    fn write(&mut self, _buf: &[u8]) -> io::Result<usize> {
        Err(io::Error::from(ErrorKind::StorageFull))
    }

    fn flush(&mut self) -> io::Result<()> {
        Ok(())
    }
}

/// What is answered where nothing can be printed and no file is there.
fn answer_to_none(alloc: Global, line: &str) -> Result<Answer, Fail> {
    let disk = Disk::new(alloc, &[]);
    let words = words_of(alloc, line)?;
    let machine = Machine {
        disk: &disk,
        words: &words,
    };
    Ok(run_args(&machine, &mut Full, &mut Full))
}

#[test]
fn a_line_that_is_not_printed_changes_no_status(rt: HostRuntime) -> Result<(), Fail> {
    let unnamed = answer_to_none(rt.alloc(), "a.o b.o")?;
    assert_eq!(rt; (unnamed.status, unnamed.printed.is_err()), (2, true));
    let missing = answer_to_none(rt.alloc(), WORDS)?;
    assert_eq!(rt; (missing.status, missing.printed.is_err()), (3, true));
    Ok(())
}

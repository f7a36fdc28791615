//! What a plan of an object and of an archive that holds it loads, as the checker does it, by order and by hash.
use crate::tests::objects::start_object;
use crate::tests::words::words;
use check_load::{Loaded, open};
use command::read_words;
use elf_model::{CmdFault, InputFile, NameSeed};
use std::alloc::{AllocError, Global};
use std::test::Fail;

/// What stands before the object in an archive whose index says that the member at 84 defines `_start`.
const FRONT: &[u8] =
    b"!<arch>\n/                                               15        `\n\0\0\0\x01\0\0\0T_start\0\na.o/                                            496       `\n";

/// The same without an index, and with the first seven bytes alone.
const BARE_FRONT: &[u8] = b"!<arch>\na.o/                                            496       `\n";

const SEVEN_BYTES: &[u8] = b"!<arch>";

/// Files: the path, what stands before the object, and how many bytes of it there are. The last three are no archive,
/// one whose member is cut, and no object.
static FILES: [(&str, &[u8], usize); 6] = [
    ("a.o", b"", 496),
    ("lib.a", FRONT, 496),
    ("bare.a", BARE_FRONT, 496),
    ("short.a", SEVEN_BYTES, 0),
    ("cut.a", FRONT, 100),
    ("cut.o", b"", 63),
];

/// Those files, and the archive with zeros in place of the object.
fn files(alloc: Global) -> Result<Vec<InputFile>, AllocError> {
    let object = start_object(alloc)?;
    let mut list = Vec::new(alloc);
    for (path, front, len) in &FILES {
        let mut bytes = Vec::from_slice(alloc, front)?;
        bytes.extend_from_slice(object.get(..*len).unwrap_or(&[]))?;
        list.push(InputFile {
            name: String::from_str(alloc, path)?,
            bytes,
        })?;
    }
    let mut bytes = Vec::from_slice(alloc, FRONT)?;
    bytes.resize(FRONT.len().saturating_add(496), 0)?;
    list.push(InputFile {
        name: String::from_str(alloc, "zeros.a")?,
        bytes,
    })?;
    Ok(list)
}

/// The objects that words load.
fn open_words<'a>(
    alloc: Global,
    words: &'a [String],
    files: &'a [InputFile],
    seed: Option<NameSeed>,
) -> Result<Option<Vec<Loaded<'a>>>, CmdFault> {
    let plan = read_words(alloc, words)?;
    Ok(open(alloc, &plan, files, seed)?)
}

/// The item and the offset of each object that a line loads, or that it can't be loaded.
fn told(alloc: Global, line: &str, seed: Option<NameSeed>) -> Result<String, Fail> {
    let files = files(alloc)?;
    let words = words(alloc, line)?;
    let mut text = String::new(alloc);
    match open_words(alloc, &words, &files, seed)? {
        Some(objects) => {
            for o in &objects {
                text.push_str(&format!(in alloc; "{} {};", o.item, o.offset)?)?;
            }
        }
        None => text.push_str("refused")?,
    }
    Ok(text)
}

/// Lines, and what each loads.
static LINES: [(&str, &str); 17] = [
    ("a.o", "0 0;"),
    ("lib.a", "0 84;"),
    ("a.o lib.a", "0 0;"),
    ("lib.a a.o", "0 84;1 0;"),
    ("-e main lib.a", ""),
    ("a.o --whole-archive lib.a", "0 0;1 84;"),
    ("--start-group lib.a lib.a --end-group", "0 84;"),
    ("a.o c.o", "refused"),
    // Faults of archives and objects, an index that a search lacks, a member that isn't needed, and one that is.
    ("a.o short.a", "refused"),
    ("a.o cut.a", "refused"),
    ("cut.o", "refused"),
    ("a.o bare.a", "refused"),
    ("--whole-archive bare.a", "0 8;"),
    ("--start-group bare.a --end-group", "refused"),
    ("-e main zeros.a", ""),
    ("zeros.a", "refused"),
    ("a.o --whole-archive zeros.a", "refused"),
];

#[test]
fn plans_load_what_is_needed(rt: HostRuntime) -> Result<(), Fail> {
    for (line, wanted) in &LINES {
        assert_eq!(rt; told(rt.alloc(), line, None)?.as_str(), *wanted, "{line}");
    }
    Ok(())
}

#[test]
fn plans_load_the_same_with_a_seed(rt: HostRuntime) -> Result<(), Fail> {
    for (line, wanted) in &LINES {
        let seed = Some(NameSeed::new(7));
        assert_eq!(rt; told(rt.alloc(), line, seed)?.as_str(), *wanted, "{line}");
    }
    Ok(())
}

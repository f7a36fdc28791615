//! LOCAL symbols of which many have one long name: where their names come to more bytes than their object has, tools don't get them.
use crate::tests::found::{find, symbol_named};
use crate::tests::tables::debuggable_of;
use debug_image::long_named;
use elf_model::InputFile;
use ld_main::prepare;
use link_samples::objects::{NamedSymbol, object};
use link_samples::one_object::words_of;
use link_samples::parts::{F, START, TEXT};
use std::alloc::Global;
use std::process::Abort;
use std::test::Fail;

/// A name of a hundred bytes.
const LONG: &str =
    "lllllllllllllllllllllllllllllllllllllllllllllllllllllllllllllllllllllllllllllllllllllllllllllllllllll";

/// A LOCAL function of that name in section 1, and one of another.
const NAMED: NamedSymbol<'static> = NamedSymbol {
    name: LONG,
    st_info: 2,
    ..START
};

const HERE: NamedSymbol<'static> = NamedSymbol {
    name: "here",
    ..NAMED
};

/// An object with so many LOCAL functions of the long name, and one that others see.
fn long_object(alloc: Global, count: usize) -> Result<Vec<u8>, Fail> {
    let mut symbols = Vec::new(alloc);
    for _ in 0..count {
        symbols.push(NAMED)?;
    }
    symbols.push(F)?;
    object(alloc, &[TEXT], &symbols)
}

/// Two files: an object with one LOCAL function, and such an object.
fn files_of(alloc: Global, count: usize) -> Result<Vec<InputFile>, Fail> {
    let mut files = Vec::new(alloc);
    files.push(InputFile {
        name: String::from_str(alloc, "a.o")?,
        bytes: object(alloc, &[TEXT], &[HERE, START])?,
    })?;
    files.push(InputFile {
        name: String::from_str(alloc, "b.o")?,
        bytes: long_object(alloc, count)?,
    })?;
    Ok(files)
}

/// The image of the link of such files, and how many objects have such names.
fn image_of(alloc: Global, count: usize) -> Result<(Vec<u8>, u64), Fail> {
    let files = files_of(alloc, count)?;
    let words = words_of(alloc, "a.o b.o -s")?;
    let Ok(linkage) = prepare(alloc, &files, &words) else {
        return Err(Fail::from("the link is refused"));
    };
    let long = long_named(linkage.loaded().objects());
    let Ok(image) = debuggable_of(alloc, &linkage, true)? else {
        return Err(Fail::from("the image is refused"));
    };
    Ok((image, long))
}

/// How many symbols of the long name there are, how many entries are LOCAL then, with that of number 0, and how many objects
/// have names that are too long.
static ROWS: [(usize, u32, u64); 2] = [(5, 7, 0), (20, 2, 1)];

/// Asserts the LOCAL symbols of an image: that of the first object, and behind it those of the long name.
fn assert_locals<R: Abort>(rt: &R, image: &[u8], locals: u32) -> Result<(), Fail> {
    assert_eq!(rt; find(image, ".symtab")?.sh_info, locals);
    assert!(rt; symbol_named(image, 1, "here")?.is_some());
    for number in 2..locals as usize {
        assert!(rt; symbol_named(image, number, LONG)?.is_some());
    }
    Ok(())
}

#[test]
fn local_symbols_are_left_out_where_their_names_are_longer_than_their_object(
    rt: HostRuntime,
) -> Result<(), Fail> {
    for (count, locals, long) in ROWS {
        let (image, found) = image_of(rt.alloc(), count)?;
        assert_eq!(rt; found, long);
        assert_locals(&rt, &image, locals)?;
    }
    Ok(())
}

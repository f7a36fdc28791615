//! How many names debug data may have.
use crate::tests::tables::debuggable_of;
use debug_image::DebugFault;
use ld_main::prepare;
use link_samples::objects::{Section, object};
use link_samples::one_object::{one_file, words_of};
use link_samples::parts::{START, TEXT};
use std::alloc::Global;
use std::test::Fail;

/// A section of debug data, but for its name.
const DEBUG: Section<'static> = Section {
    sh_flags: 0,
    bytes: &[1],
    ..TEXT
};

/// So many names of debug data, each a byte longer than the one before.
fn names_of(alloc: Global, count: usize) -> Result<Vec<String>, Fail> {
    let mut names = Vec::new(alloc);
    for k in 0..count {
        let mut name = String::from_str(alloc, ".debug_")?;
        for _ in 0..k {
            name.push('x')?;
        }
        names.push(name)?;
    }
    Ok(names)
}

/// An object with a text and debug data of names.
fn object_of(alloc: Global, names: &[String]) -> Result<Vec<u8>, Fail> {
    let mut sections = Vec::new(alloc);
    sections.push(TEXT)?;
    for name in names {
        sections.push(Section {
            name: name.as_str(),
            ..DEBUG
        })?;
    }
    object(alloc, &sections, &[START])
}

/// The fault of the image of an object's link.
fn fault_of(alloc: Global, object: &[u8]) -> Result<Option<DebugFault>, Fail> {
    let files = one_file(alloc, "a.o", object)?;
    let words = words_of(alloc, "a.o -s")?;
    let Ok(linkage) = prepare(alloc, &files, &words) else {
        return Err(Fail::from("the link is refused"));
    };
    Ok(debuggable_of(alloc, &linkage, true)?.err())
}

/// The fault of an image with debug data of so many names.
fn fault_with(alloc: Global, count: usize) -> Result<Option<DebugFault>, Fail> {
    let names = names_of(alloc, count)?;
    fault_of(alloc, &object_of(alloc, &names)?)
}

#[test]
fn debug_data_have_at_most_256_names(rt: HostRuntime) -> Result<(), Fail> {
    assert!(rt; matches!(fault_with(rt.alloc(), 256)?, None));
    assert!(rt; matches!(fault_with(rt.alloc(), 257)?, Some(DebugFault::TooLarge)));
    Ok(())
}

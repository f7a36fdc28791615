//! The tables behind an image, byte for byte.
use crate::tests::vectors::{TEXT_FIELDS, TEXT_TABLES, THREAD_END, THREAD_FIELDS, THREAD_TABLES};
use debug_image::{DebugFault, Wanted, debug_image, plain_image};
use elf_model::InputFile;
use ld_main::{Linkage, definitions, image, prepare};
use link_samples::objects::{NamedSymbol, Section, relocatable};
use link_samples::one_object::{one_file, words_of};
use link_samples::parts::{START, TEXT, THREAD_DATA, THREAD_ZEROS};
use link_samples::vectors::{OBJECT, image as text_image};
use resolve::resolve;
use std::alloc::Global;
use std::process::Abort;
use std::test::Fail;

/// A plain image of a link without a symbol table, and a debuggable one.
#[derive(Drop)]
struct Images {
    plain: Vec<u8>,
    debuggable: Vec<u8>,
}

/// The debuggable image of a link, or its fault.
pub fn debuggable_of(
    alloc: Global,
    linkage: &Linkage<'_>,
    with_locals: bool,
) -> Result<Result<Vec<u8>, DebugFault>, Fail> {
    let Ok(resolved) = resolve(alloc, linkage.loaded()) else {
        return Err(Fail::from("the names are refused"));
    };
    let names = definitions(alloc, linkage)?;
    let wanted = Wanted {
        locals: with_locals,
        debug: true,
    };
    Ok(debug_image(alloc, linkage, &resolved, &names, wanted))
}

/// The images of a link.
fn both_of(alloc: Global, linkage: &Linkage<'_>, with_locals: bool) -> Result<Images, Fail> {
    let Ok(debuggable) = debuggable_of(alloc, linkage, with_locals)? else {
        return Err(Fail::from("the image is refused"));
    };
    Ok(Images {
        plain: image(alloc, linkage)?,
        debuggable,
    })
}

/// The images of the link of a file.
fn images_of(alloc: Global, files: &[InputFile], with_locals: bool) -> Result<Images, Fail> {
    let words = words_of(alloc, "a.o -s")?;
    let Ok(linkage) = prepare(alloc, files, &words) else {
        return Err(Fail::from("the link is refused"));
    };
    both_of(alloc, &linkage, with_locals)
}

/// An image with the fields of its file header that speak of sections, and bytes behind it.
fn with_tables(image: Vec<u8>, fields: [(usize, u8); 4], tables: &[u8]) -> Result<Vec<u8>, Fail> {
    let mut file = image;
    for (at, byte) in fields {
        *file.get_mut(at).ok_or("the image")? = byte;
    }
    file.extend_from_slice(tables)?;
    Ok(file)
}

/// Asserts that the plain image of a link is its debuggable one without what tools read.
fn assert_plain<R: Abort + AllocGlobal>(rt: &R, images: &Images) -> Result<(), Fail> {
    assert!(rt; plain_image(rt.alloc(), &images.debuggable)? == images.plain);
    Ok(())
}

/// Asserts the debuggable image of a link, and that of its plain one.
fn assert_images<R: Abort + AllocGlobal>(
    rt: &R,
    images: &Images,
    wanted: &[u8],
) -> Result<(), Fail> {
    assert!(rt; images.debuggable.as_slice() == wanted);
    assert_plain(rt, images)
}

#[test]
fn an_image_of_one_text_has_its_section_and_its_symbol(rt: HostRuntime) -> Result<(), Fail> {
    let wanted = with_tables(text_image(rt.alloc())?, TEXT_FIELDS, &TEXT_TABLES)?;
    let files = one_file(rt.alloc(), "a.o", &OBJECT)?;
    let images = images_of(rt.alloc(), &files, true)?;
    assert_images(&rt, &images, &wanted)
}

/// Thread-local zeros, eight bytes.
const TBSS: Section<'static> = Section {
    sh_addralign: 4,
    memory: 8,
    ..THREAD_ZEROS
};

/// A source file, the symbol of the text, a name of the compiler's own, a function and a thread-local symbol, all LOCAL, then the
/// names.
static SYMBOLS: [NamedSymbol<'static>; 8] = [
    NamedSymbol {
        name: "a.c",
        st_info: 0x4,
        st_shndx: 0xfff1,
        st_value: 0,
        st_size: 0,
    },
    NamedSymbol {
        name: "",
        st_info: 0x3,
        st_shndx: 1,
        st_value: 0,
        st_size: 0,
    },
    NamedSymbol {
        name: ".L1",
        st_info: 0x0,
        st_shndx: 1,
        st_value: 2,
        st_size: 0,
    },
    NamedSymbol {
        name: "here",
        st_info: 0x2,
        st_shndx: 1,
        st_value: 4,
        st_size: 5,
    },
    NamedSymbol {
        name: "own",
        st_info: 0x6,
        st_shndx: 3,
        st_value: 0,
        st_size: 8,
    },
    START,
    NamedSymbol {
        name: "block",
        st_info: 0x11,
        st_shndx: 0xfff2,
        st_value: 8,
        st_size: 16,
    },
    NamedSymbol {
        name: "each",
        st_info: 0x16,
        st_shndx: 2,
        st_value: 0,
        st_size: 4,
    },
];

/// The images of an object with thread-local storage.
fn thread_images(alloc: Global, with_locals: bool) -> Result<Images, Fail> {
    let object = relocatable(alloc, &[TEXT, THREAD_DATA, TBSS], &SYMBOLS, &[])?;
    let files = one_file(alloc, "a.o", &object)?;
    images_of(alloc, &files, with_locals)
}

#[test]
fn symbols_are_of_their_sections_and_thread_local_ones_are_offsets(
    rt: HostRuntime,
) -> Result<(), Fail> {
    let images = thread_images(rt.alloc(), true)?;
    let plain = Vec::from_slice(rt.alloc(), &images.plain)?;
    assert_eq!(rt; plain.len(), THREAD_END);
    let wanted = with_tables(plain, THREAD_FIELDS, &THREAD_TABLES)?;
    assert_images(&rt, &images, &wanted)
}

#[test]
fn an_image_without_local_symbols_begins_with_the_same_bytes(rt: HostRuntime) -> Result<(), Fail> {
    let images = thread_images(rt.alloc(), false)?;
    // The entries of three symbols are left out, and 13 bytes of names, which 3 bytes of padding follow.
    assert_eq!(rt;
        images.debuggable.len() + 3 * 24 + 16,
        THREAD_END + THREAD_TABLES.len()
    );
    assert_plain(&rt, &images)
}

//! A prepared link, its image and its map; and a link of many names, kept in either table of names.
use elf_model::{InputFile, NameSeed, SHF_WRITE};
use ld_main::{Linkage, link_map, prepare, prepare_in};
use link_samples::objects::{NamedSymbol, Relocation, object, relocatable};
use link_samples::one_object::{function, one_file, text_section, words_of};
use link_samples::several_objects::{R_64, add_file, in_text, section, undefined};
use link_samples::vectors::{MAP, OBJECT, image};
use std::alloc::Global;
use std::process::Abort;
use std::test::Fail;
use symbols::{IndexedTable, ListTable};

const NAMES: usize = 3000;

/// The names n0000 to n2999 one behind the other, each of five bytes, in no order of theirs.
fn names_text(alloc: Global) -> Result<String, Fail> {
    let mut text = String::new(alloc);
    for k in 0..NAMES {
        let number = k * 7919 % NAMES;
        text.push('n')?;
        for unit in [1000, 100, 10, 1] {
            let digit = u32::try_from(number / unit % 10)?;
            text.push(char::from_digit(digit, 10).ok_or("a digit")?)?;
        }
    }
    Ok(text)
}

/// An object that defines `_start` and all those names at the beginning of its text.
fn many_names(alloc: Global, text: &str) -> Result<Vec<u8>, Fail> {
    let mut functions: Vec<NamedSymbol<'_>> = Vec::new(alloc);
    functions.push(function("_start"))?;
    for k in 0..NAMES {
        let name = text.get(5 * k..5 * k + 5).ok_or("a name")?;
        functions.push(function(name))?;
    }
    object(alloc, &[text_section()], &functions)
}

/// An object with a word of data for each of those names, which is to hold its value and the word's number.
fn many_references(alloc: Global, text: &str) -> Result<Vec<u8>, Fail> {
    let words = vec![in alloc; 0u8; 8 * NAMES]?;
    let mut names: Vec<NamedSymbol<'_>> = Vec::new(alloc);
    let mut references: Vec<Relocation> = Vec::new(alloc);
    for k in 0..NAMES {
        let name = text.get(5 * k..5 * k + 5).ok_or("a name")?;
        names.push(undefined(name))?;
        let number = u32::try_from(k)?;
        references.push(in_text(
            8 * u64::from(number),
            R_64,
            number.saturating_add(1),
            i64::from(number),
        ))?;
    }
    relocatable(
        alloc,
        &[section(".data", SHF_WRITE, 8, &words)],
        &names,
        &references,
    )
}

/// The bytes of a link's image and of its map.
fn bytes_of(alloc: Global, linkage: &Linkage<'_>) -> Result<(Vec<u8>, Vec<u8>), Fail> {
    let image = ld_main::image(alloc, linkage)?;
    let map = link_map(alloc, linkage)?;
    Ok((image, linkmap::print(alloc, &map)?))
}

/// A link of files by each table of names: the bytes by hash, and those by the list.
fn by_hash(
    alloc: Global,
    files: &[InputFile],
    words: &[String],
) -> Result<(Vec<u8>, Vec<u8>), Fail> {
    let loading = IndexedTable::with_hasher(alloc, NameSeed::new(1));
    let resolution = IndexedTable::with_hasher(alloc, NameSeed::new(2));
    let linkage = prepare_in(alloc, files, words, loading, resolution)?;
    bytes_of(alloc, &linkage)
}

fn by_list(
    alloc: Global,
    files: &[InputFile],
    words: &[String],
) -> Result<(Vec<u8>, Vec<u8>), Fail> {
    let loading = ListTable::new(alloc);
    let resolution = ListTable::new(alloc);
    let linkage = prepare_in(alloc, files, words, loading, resolution)?;
    bytes_of(alloc, &linkage)
}

#[test]
fn a_prepared_link_has_an_image_and_a_map(rt: HostRuntime) -> Result<(), Fail> {
    let alloc = rt.alloc();
    let files = one_file(alloc, "a.o", &OBJECT)?;
    let words = words_of(alloc, "-s a.o")?;
    let linkage = prepare(alloc, &files, &words)?;
    let (bytes, map) = bytes_of(alloc, &linkage)?;
    assert!(rt; bytes == image(alloc)?);
    assert!(rt; map.as_slice() == MAP);
    Ok(())
}

/// Asserts that the many names, as files, link alike in both tables.
fn assert_alike(
    rt: &impl Abort,
    alloc: Global,
    files: &[InputFile],
    words: &[String],
) -> Result<(), Fail> {
    let (image, map) = by_hash(alloc, files, words)?;
    let (image_by_list, map_by_list) = by_list(alloc, files, words)?;
    assert!(rt; image == image_by_list);
    assert!(rt; map == map_by_list);
    assert_eq!(rt; [image.len(), map.len()], [0x2000 + 8 * NAMES, 131_058]);
    // The last word: the value of its name, 0x401000, and 2999.
    assert!(rt; image.ends_with(&[0xb7, 0x1b, 0x40, 0, 0, 0, 0, 0]));
    assert!(rt; map.ends_with(b"symbol 0000000000401000 strong 0 1323 n2999\nend\n"));
    Ok(())
}

#[test]
fn many_names_link_alike_in_both_tables(rt: HostRuntime) -> Result<(), Fail> {
    let text = names_text(rt.alloc())?;
    let mut files = one_file(rt.alloc(), "a.o", &many_names(rt.alloc(), &text)?)?;
    add_file(&mut files, "b.o", &many_references(rt.alloc(), &text)?)?;
    let words = words_of(rt.alloc(), "-s a.o b.o")?;
    assert_alike(&rt, rt.alloc(), &files, &words)
}

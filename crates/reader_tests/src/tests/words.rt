//! Words of a command, and the files that its plan may read.
use command::{Item, Plan, Source, candidates, read_words};
use std::alloc::{AllocError, Global};
use std::test::Fail;

/// The words of a line, cut at spaces.
pub fn words(alloc: Global, line: &str) -> Result<Vec<String>, AllocError> {
    let mut list = Vec::new(alloc);
    for word in line.split_whitespace() {
        list.push(String::from_str(alloc, word)?)?;
    }
    Ok(list)
}

/// Puts an item: its path or its library, whether it is an archive and a whole one, and its group.
fn put_item(text: &mut String, alloc: Global, item: &Item<'_>) -> Result<(), Fail> {
    match item.source {
        Source::Path(path) => text.push_str(path)?,
        Source::Library(name) => {
            text.push_str("-l")?;
            text.push_str(name)?;
        }
    }
    let (archive, whole, group) = (item.archive, item.whole, item.group);
    text.push_str(&format!(in alloc; " {archive} {whole} {group:?};")?)?;
    Ok(())
}

/// Puts the settings of a plan.
fn put_settings(text: &mut String, alloc: Global, plan: &Plan<'_>) -> Result<(), Fail> {
    let map = plan.map.unwrap_or("no map");
    let (entry, output, base, check) = (plan.entry, plan.output, plan.base, plan.check);
    text.push_str(&format!(in alloc; "{entry} {output} {base} {map} {check};")?)?;
    if plan.strip {
        text.push_str("stripped;")?;
    }
    Ok(())
}

/// Puts the settings and the items of a plan.
fn put_plan(text: &mut String, alloc: Global, plan: &Plan<'_>) -> Result<(), Fail> {
    put_settings(text, alloc, plan)?;
    for name in &plan.undefined {
        text.push_str(name)?;
        text.push(';')?;
    }
    for item in &plan.items {
        put_item(text, alloc, item)?;
    }
    Ok(())
}

/// Puts the settings and the items of the plan of some words, or its fault.
fn put_read(text: &mut String, alloc: Global, words: &[String]) -> Result<(), Fail> {
    match read_words(alloc, words) {
        Ok(plan) => put_plan(text, alloc, &plan),
        Err(fault) => Ok(text.push_str(&format!(in alloc; "{fault}")?)?),
    }
}

/// The settings and the items of the plan of a line, or its fault.
fn told(alloc: Global, line: &str) -> Result<String, Fail> {
    let mut text = String::new(alloc);
    put_read(&mut text, alloc, &words(alloc, line)?)?;
    Ok(text)
}

/// Lines, and what is told of their plans.
static LINES: [(&str, &str); 19] = [
    ("", "NoInput (6)"),
    ("a.o -o", "MissingValue (3)"),
    ("-( a.o -)", "NotArchiveInGroup (7)"),
    ("a.o -( libx.a", "GroupNesting (5)"),
    ("a.o -( libx.a -( -)", "GroupNesting (5)"),
    ("a.o -)", "GroupNesting (5)"),
    ("a.o -Ttext-segment=0x1001", "BadNumber (4)"),
    ("a.o -Ttext-segment=", "MissingValue (3)"),
    ("-m elf_i386 a.o", "UnknownOption (2)"),
    ("a.o --check", "MissingValue (3)"),
    ("a.o -z now", "UnknownOption (2)"),
    ("a.o -s0", "UnknownOption (2)"),
    // Defaults; words that say what is so anyway; a check.
    (
        "a.o",
        "_start a.out 4194304 no map false;a.o false false None;",
    ),
    (
        "-m elf_x86_64 -static -nostdlib a.o",
        "_start a.out 4194304 no map false;a.o false false None;",
    ),
    (
        "a.o --check -Map=m",
        "_start a.out 4194304 m true;a.o false false None;",
    ),
    // No symbol table, said once or more; a value spelled so.
    (
        "a.o -s",
        "_start a.out 4194304 no map false;stripped;a.o false false None;",
    ),
    (
        "-s -u f a.o -s",
        "_start a.out 4194304 no map false;stripped;f;a.o false false None;",
    ),
    (
        "-o -s a.o",
        "_start -s 4194304 no map false;a.o false false None;",
    ),
    // Each setting, some twice; an object, a library in a group and an archive in another, all of them whole.
    (
        "-Ttext-segment=0x10000 -e main a.o -e go -( --whole-archive -lx -) -Map=m -u f -( b.a -)",
        "go a.out 65536 m false;f;a.o false false None;-lx true true Some(0);b.a true true Some(1);",
    ),
];

#[test]
fn words_make_plans(rt: HostRuntime) -> Result<(), Fail> {
    for (line, wanted) in &LINES {
        assert_eq!(rt; told(rt.alloc(), line)?.as_str(), *wanted, "{line}");
    }
    Ok(())
}

/// The files that the plan of a line may read, each behind a space.
fn candidates_of(alloc: Global, line: &str) -> Result<String, Fail> {
    let words = words(alloc, line)?;
    let plan = read_words(alloc, &words)?;
    let mut text = String::new(alloc);
    for path in &candidates(alloc, &plan)? {
        text.push(' ')?;
        text.push_str(path)?;
    }
    Ok(text)
}

#[test]
fn candidate_files(rt: HostRuntime) -> Result<(), Fail> {
    let files = candidates_of(rt.alloc(), "a.o -L d1 -lx -Ld2 a.o d1/libx.a")?;
    assert_eq!(rt; files.as_str(), " a.o d1/libx.a d2/libx.a");
    Ok(())
}

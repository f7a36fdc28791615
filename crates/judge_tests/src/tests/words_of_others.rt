//! Words of other linkers' commands (ld(1)), as compilers hand them on, and what they ask for.
ghost use Rattle.foreign_words.specs.Spoken.{IsWhole};

use command::{Plan, Source};
use foreign_words::{Spoken, Wider, read_foreign_words};
use std::alloc::{AllocError, Global};
use std::process::Abort;
use std::test::Fail;

/// What is asked for: the entry, whether names are missing, whether sections are collected, the first of two definitions counts, code
/// may be written and the stack executed, the bits of the property note, where the first segment begins, whether LOCAL names are
/// missing, the items, the undefined names, and the output sections with their addresses.
struct Asked {
    entry: &'static str,
    strip: bool,
    collects: bool,
    takes_first: bool,
    writes_code: bool,
    executes_stack: Option<bool>,
    features: u64,
    segment: Option<u64>,
    strips_local: bool,
    items: &'static [&'static str],
    undefined: &'static [&'static str],
    starts: &'static [(&'static str, u64)],
}

const PLAIN: Asked = Asked {
    entry: "_start",
    strip: false,
    collects: false,
    takes_first: false,
    writes_code: false,
    executes_stack: None,
    features: 0,
    segment: None,
    strips_local: false,
    items: &["a.o", "b.o"],
    undefined: &[],
    starts: &[],
};

/// Words, and what they ask for; None where they are none that is judged.
static ROWS: [(&str, Option<Asked>); 22] = [
    ("a.o b.o", Some(PLAIN)),
    // As gcc -static hands them on, with two libraries in a group.
    (
        "-plugin liblto.so -plugin-opt=-pass-through=-lc --build-id -m elf_x86_64 --hash-style=gnu --as-needed -static -z relro -o a.out crt1.o -L/usr/lib -L dir a.o --start-group -lgcc -lc --end-group crtn.o",
        Some(Asked {
            items: &["crt1.o", "a.o", "gcc", "c", "crtn.o"],
            ..PLAIN
        }),
    ),
    (
        "-e main -u first --undefined=second --gc-sections -z muldefs -N -z execstack -s -x a.o b.o",
        Some(Asked {
            entry: "main",
            strip: true,
            collects: true,
            takes_first: true,
            writes_code: true,
            executes_stack: Some(true),
            strips_local: true,
            undefined: &["first", "second"],
            ..PLAIN
        }),
    ),
    // Of words that say no and yes the last one counts; bits are asked for together.
    (
        "--gc-sections --no-gc-sections -z execstack -z noexecstack -z ibt -z shstk -z lam-u57 a.o b.o",
        Some(Asked {
            executes_stack: Some(false),
            features: 11,
            ..PLAIN
        }),
    ),
    (
        "-Ttext-segment=0x200000 --image-base=400000 --section-start=.init=0x1000 -Ttext=2000 -Tdata=0x3000 -Tbss=4000 a.o b.o",
        Some(Asked {
            segment: Some(0x40_0000),
            starts: &[
                (".init", 0x1000),
                (".text", 0x2000),
                (".data", 0x3000),
                (".bss", 0x4000),
            ],
            ..PLAIN
        }),
    ),
    (
        "--entry=go --output=x --library-path=d --library=m a.o",
        Some(Asked {
            entry: "go",
            items: &["m", "a.o"],
            ..PLAIN
        }),
    ),
    (
        "-( x.a y.a -) --whole-archive z.a --no-whole-archive",
        Some(Asked {
            items: &["x.a", "y.a", "z.a"],
            ..PLAIN
        }),
    ),
    // As rustc and g++ hand them on.
    (
        "--eh-frame-hdr --push-state --as-needed a.o --pop-state --no-eh-frame-hdr b.o",
        Some(PLAIN),
    ),
    // Words that change nothing of what a static link is, as builds of kernels and of firmware give them.
    (
        "--gc-sections --print-gc-sections -z nostart-stop-gc --no-dynamic-linker -no-pie --no-pie -Bstatic --no-undefined --no-warn-rwx-segments --no-warn-execstack --fatal-warnings --no-fatal-warnings --warn-common --no-warn-mismatch --cref -t --trace --demangle --no-demangle --enable-new-dtags --disable-new-dtags --no-ld-generated-unwind-info --color-diagnostics a.o b.o",
        Some(Asked {
            collects: true,
            ..PLAIN
        }),
    ),
    // What is no static link, or no word of the table.
    ("--eh-frame-hdr=no a.o b.o", None),
    ("-shared a.o", None),
    ("-pie a.o", None),
    ("-r a.o", None),
    ("--wrap=f a.o", None),
    ("--defsym=x=1 a.o", None),
    ("-m elf_i386 a.o", None),
    ("-z nonsense a.o", None),
    ("-z start-stop-gc a.o", None),
    ("-Ttext=zz a.o", None),
    // No group may have an object or stay open, and there must be something to link.
    ("--start-group a.o --end-group", None),
    ("a.o --start-group x.a", None),
    ("-s -static", None),
];

/// The words of a line.
fn words_of(alloc: Global, line: &str) -> Result<Vec<String>, AllocError> {
    let mut words = Vec::new(alloc);
    for word in line.split_ascii_whitespace() {
        words.push(String::from_str(alloc, word)?)?;
    }
    Ok(words)
}

/// The text of an item.
fn text_of<'a>(source: Source<'a>) -> &'a str {
    match source {
        Source::Path(path) => path,
        Source::Library(name) => name,
    }
}

/// Whether a plan has the items and the undefined names of a row.
fn has_lists(plan: &Plan<'_>, asked: &Asked) -> bool {
    if plan.items.len() != asked.items.len() || plan.undefined.len() != asked.undefined.len() {
        return false;
    }
    for (k, item) in plan.items.iter().enumerate() {
        if text_of(item.source) != asked.items[k] {
            return false;
        }
    }
    for (k, name) in plan.undefined.iter().enumerate() {
        if *name != asked.undefined[k] {
            return false;
        }
    }
    true
}

/// Whether output sections begin where a row says.
fn has_starts(wider: &Wider<'_>, asked: &Asked) -> bool {
    if wider.starts.len() != asked.starts.len() {
        return false;
    }
    for (k, start) in wider.starts.iter().enumerate() {
        let (name, address) = asked.starts[k];
        if start.name != name || start.address != address {
            return false;
        }
    }
    true
}

/// Whether the rest is as a row says.
fn has_flags(wider: &Wider<'_>, asked: &Asked) -> bool {
    wider.collects == asked.collects
        && wider.takes_first == asked.takes_first
        && wider.writes_code == asked.writes_code
        && wider.executes_stack == asked.executes_stack
        && wider.features == asked.features
        && wider.segment == asked.segment
        && wider.strips_local == asked.strips_local
}

/// Whether words ask for what a row says.
fn asks(alloc: Global, spoken: &Spoken<'_>, asked: &Asked) -> Result<bool, AllocError>
    requires { IsWhole spoken.now }
{
    let plan = spoken.plan(alloc)?;
    let wider = spoken.wider();
    Ok(
        plan.entry == asked.entry
            && plan.strip == asked.strip
            && has_lists(&plan, asked)
            && has_starts(wider, asked)
            && has_flags(wider, asked),
    )
}

/// Whether words are read as a row says.
fn is_right(alloc: Global, line: &str, asked: &Option<Asked>) -> Result<bool, Fail> {
    let words = words_of(alloc, line)?;
    match (read_foreign_words(alloc, &words)?, asked) {
        (None, None) => Ok(true),
        (Some(spoken), Some(asked)) => Ok(asks(alloc, &spoken, asked)?),
        _ => Ok(false),
    }
}

#[test]
fn words_of_other_linkers_ask_for_what_their_manual_says(rt: HostRuntime) -> Result<(), Fail> {
    for (line, asked) in &ROWS {
        assert!(rt; is_right(rt.alloc(), line, asked)?);
    }
    Ok(())
}

//! The table of words.
ghost use Rattle.std.specs.Prelude.{◌≡◌};
ghost use Rattle.judge_model.specs.Words as words;
ghost use Rattle.foreign_words.specs.Says.{row_views};

use crate::says::Switch;

/// What a text is as a value: the path of the image, the entry's name, an undefined name, a directory or the name of a library,
/// which aren't empty; the address, in hexadecimal digits, of the first segment or of an output section, whose name may stand
/// before it; or any text.
#[derive(Clone, Copy, Debug)]
pub enum Text {
    Output,
    Entry,
    Undefined,
    Directory,
    Library,
    Segment,
    TextSection,
    DataSection,
    BssSection,
    AnySection,
    Any,
}

/// What the next word is as a value: a text, the machine, or a keyword of `-z`.
#[derive(Clone, Copy, Debug)]
pub enum Value {
    Text(Text),
    Machine,
    Keyword,
}

/// A word that stands alone; one whose value is the next word; one whose value follows in the same word.
#[derive(Clone, Copy, Debug)]
pub enum Form {
    Alone(Switch),
    Next(Value),
    Joined(Text),
}

/// A word, or what words of the row begin with, and what it says.
#[derive(Clone, Copy, Debug)]
pub struct Row {
    pub text: &'static str,
    pub form: Form,
}

/// The keywords of `-z`; those that begin so have a value that is not judged.
static KEYWORDS: [Row; 18] = [
    Row {
        text: "muldefs",
        form: Form::Alone(Switch::TakesFirst),
    },
    Row {
        text: "execstack",
        form: Form::Alone(Switch::ExecutesStack(true)),
    },
    Row {
        text: "noexecstack",
        form: Form::Alone(Switch::ExecutesStack(false)),
    },
    Row {
        text: "ibt",
        form: Form::Alone(Switch::Feature(1)),
    },
    Row {
        text: "shstk",
        form: Form::Alone(Switch::Feature(2)),
    },
    Row {
        text: "lam-u48",
        form: Form::Alone(Switch::Feature(4)),
    },
    Row {
        text: "lam-u57",
        form: Form::Alone(Switch::Feature(8)),
    },
    Row {
        text: "relro",
        form: Form::Alone(Switch::Nothing),
    },
    Row {
        text: "norelro",
        form: Form::Alone(Switch::Nothing),
    },
    Row {
        text: "now",
        form: Form::Alone(Switch::Nothing),
    },
    Row {
        text: "lazy",
        form: Form::Alone(Switch::Nothing),
    },
    Row {
        text: "defs",
        form: Form::Alone(Switch::Nothing),
    },
    Row {
        text: "text",
        form: Form::Alone(Switch::Nothing),
    },
    Row {
        text: "separate-code",
        form: Form::Alone(Switch::Nothing),
    },
    Row {
        text: "noseparate-code",
        form: Form::Alone(Switch::Nothing),
    },
    Row {
        text: "nostart-stop-gc",
        form: Form::Alone(Switch::Nothing),
    },
    Row {
        text: "max-page-size=",
        form: Form::Joined(Text::Any),
    },
    Row {
        text: "common-page-size=",
        form: Form::Joined(Text::Any),
    },
];

/// The words.
static ROWS: [Row; 85] = [
    Row {
        text: "-o",
        form: Form::Next(Value::Text(Text::Output)),
    },
    Row {
        text: "--output=",
        form: Form::Joined(Text::Output),
    },
    Row {
        text: "-e",
        form: Form::Next(Value::Text(Text::Entry)),
    },
    Row {
        text: "--entry=",
        form: Form::Joined(Text::Entry),
    },
    Row {
        text: "-u",
        form: Form::Next(Value::Text(Text::Undefined)),
    },
    Row {
        text: "--undefined=",
        form: Form::Joined(Text::Undefined),
    },
    Row {
        text: "-L",
        form: Form::Next(Value::Text(Text::Directory)),
    },
    Row {
        text: "-L",
        form: Form::Joined(Text::Directory),
    },
    Row {
        text: "--library-path=",
        form: Form::Joined(Text::Directory),
    },
    Row {
        text: "-l",
        form: Form::Next(Value::Text(Text::Library)),
    },
    Row {
        text: "-l",
        form: Form::Joined(Text::Library),
    },
    Row {
        text: "--library=",
        form: Form::Joined(Text::Library),
    },
    Row {
        text: "-m",
        form: Form::Next(Value::Machine),
    },
    Row {
        text: "-z",
        form: Form::Next(Value::Keyword),
    },
    Row {
        text: "-Map",
        form: Form::Next(Value::Text(Text::Any)),
    },
    Row {
        text: "-Map=",
        form: Form::Joined(Text::Any),
    },
    Row {
        text: "--start-group",
        form: Form::Alone(Switch::GroupStart),
    },
    Row {
        text: "-(",
        form: Form::Alone(Switch::GroupStart),
    },
    Row {
        text: "--end-group",
        form: Form::Alone(Switch::GroupEnd),
    },
    Row {
        text: "-)",
        form: Form::Alone(Switch::GroupEnd),
    },
    Row {
        text: "--whole-archive",
        form: Form::Alone(Switch::WholeStart),
    },
    Row {
        text: "--no-whole-archive",
        form: Form::Alone(Switch::WholeEnd),
    },
    Row {
        text: "--gc-sections",
        form: Form::Alone(Switch::Collects(true)),
    },
    Row {
        text: "--no-gc-sections",
        form: Form::Alone(Switch::Collects(false)),
    },
    Row {
        text: "--allow-multiple-definition",
        form: Form::Alone(Switch::TakesFirst),
    },
    Row {
        text: "-N",
        form: Form::Alone(Switch::WritesCode),
    },
    Row {
        text: "--omagic",
        form: Form::Alone(Switch::WritesCode),
    },
    Row {
        text: "-s",
        form: Form::Alone(Switch::Strip),
    },
    Row {
        text: "--strip-all",
        form: Form::Alone(Switch::Strip),
    },
    Row {
        text: "-x",
        form: Form::Alone(Switch::StripsLocal),
    },
    Row {
        text: "--discard-all",
        form: Form::Alone(Switch::StripsLocal),
    },
    Row {
        text: "-Ttext-segment=",
        form: Form::Joined(Text::Segment),
    },
    Row {
        text: "--image-base=",
        form: Form::Joined(Text::Segment),
    },
    Row {
        text: "-Ttext=",
        form: Form::Joined(Text::TextSection),
    },
    Row {
        text: "-Tdata=",
        form: Form::Joined(Text::DataSection),
    },
    Row {
        text: "-Tbss=",
        form: Form::Joined(Text::BssSection),
    },
    Row {
        text: "--section-start=",
        form: Form::Joined(Text::AnySection),
    },
    Row {
        text: "-static",
        form: Form::Alone(Switch::Nothing),
    },
    Row {
        text: "-nostdlib",
        form: Form::Alone(Switch::Nothing),
    },
    Row {
        text: "-S",
        form: Form::Alone(Switch::Nothing),
    },
    Row {
        text: "--strip-debug",
        form: Form::Alone(Switch::Nothing),
    },
    Row {
        text: "-X",
        form: Form::Alone(Switch::Nothing),
    },
    Row {
        text: "--as-needed",
        form: Form::Alone(Switch::Nothing),
    },
    Row {
        text: "--no-as-needed",
        form: Form::Alone(Switch::Nothing),
    },
    Row {
        text: "--push-state",
        form: Form::Alone(Switch::Nothing),
    },
    Row {
        text: "--pop-state",
        form: Form::Alone(Switch::Nothing),
    },
    Row {
        text: "--eh-frame-hdr",
        form: Form::Alone(Switch::Tables(true)),
    },
    Row {
        text: "--no-eh-frame-hdr",
        form: Form::Alone(Switch::Tables(false)),
    },
    Row {
        text: "--no-relax",
        form: Form::Alone(Switch::Nothing),
    },
    Row {
        text: "--relax",
        form: Form::Alone(Switch::Nothing),
    },
    Row {
        text: "--emit-relocs",
        form: Form::Alone(Switch::Nothing),
    },
    Row {
        text: "-q",
        form: Form::Alone(Switch::Nothing),
    },
    Row {
        text: "--no-dependent-libraries",
        form: Form::Alone(Switch::Nothing),
    },
    Row {
        text: "--icf=none",
        form: Form::Alone(Switch::Nothing),
    },
    Row {
        text: "--build-id",
        form: Form::Alone(Switch::Nothing),
    },
    Row {
        text: "--build-id=",
        form: Form::Joined(Text::Any),
    },
    Row {
        text: "--hash-style=",
        form: Form::Joined(Text::Any),
    },
    Row {
        text: "--threads=",
        form: Form::Joined(Text::Any),
    },
    Row {
        text: "-O",
        form: Form::Joined(Text::Any),
    },
    Row {
        text: "--sort-common",
        form: Form::Alone(Switch::Nothing),
    },
    Row {
        text: "--sort-section=",
        form: Form::Joined(Text::Any),
    },
    Row {
        text: "-plugin",
        form: Form::Next(Value::Text(Text::Any)),
    },
    Row {
        text: "-plugin-opt=",
        form: Form::Joined(Text::Any),
    },
    Row {
        text: "-dynamic-linker",
        form: Form::Next(Value::Text(Text::Any)),
    },
    Row {
        text: "--no-dynamic-linker",
        form: Form::Alone(Switch::Nothing),
    },
    Row {
        text: "--no-pie",
        form: Form::Alone(Switch::Nothing),
    },
    Row {
        text: "-no-pie",
        form: Form::Alone(Switch::Nothing),
    },
    Row {
        text: "-Bstatic",
        form: Form::Alone(Switch::Nothing),
    },
    Row {
        text: "--no-undefined",
        form: Form::Alone(Switch::Nothing),
    },
    Row {
        text: "--no-warn-rwx-segments",
        form: Form::Alone(Switch::Nothing),
    },
    Row {
        text: "--no-warn-execstack",
        form: Form::Alone(Switch::Nothing),
    },
    Row {
        text: "--no-warn-mismatch",
        form: Form::Alone(Switch::Nothing),
    },
    Row {
        text: "--fatal-warnings",
        form: Form::Alone(Switch::Nothing),
    },
    Row {
        text: "--no-fatal-warnings",
        form: Form::Alone(Switch::Nothing),
    },
    Row {
        text: "--warn-common",
        form: Form::Alone(Switch::Nothing),
    },
    Row {
        text: "--print-gc-sections",
        form: Form::Alone(Switch::Nothing),
    },
    Row {
        text: "--no-demangle",
        form: Form::Alone(Switch::Nothing),
    },
    Row {
        text: "--demangle",
        form: Form::Alone(Switch::Nothing),
    },
    Row {
        text: "--enable-new-dtags",
        form: Form::Alone(Switch::Nothing),
    },
    Row {
        text: "--disable-new-dtags",
        form: Form::Alone(Switch::Nothing),
    },
    Row {
        text: "--no-ld-generated-unwind-info",
        form: Form::Alone(Switch::Nothing),
    },
    Row {
        text: "-t",
        form: Form::Alone(Switch::Nothing),
    },
    Row {
        text: "--trace",
        form: Form::Alone(Switch::Nothing),
    },
    Row {
        text: "--cref",
        form: Form::Alone(Switch::Nothing),
    },
    Row {
        text: "--color-diagnostics",
        form: Form::Alone(Switch::Nothing),
    },
];

/// The rows of keywords.
pub fn keywords() -> &'static [Row]
    ensures { row_views result.now ≡ words.keywords }
{
    &KEYWORDS
}

/// The rows of words.
pub fn rows() -> &'static [Row]
    ensures { row_views result.now ≡ words.rows }
{
    &ROWS
}

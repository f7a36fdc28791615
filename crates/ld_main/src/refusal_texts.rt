//! What lines say of refusals: the name and the number of each, and those of the fault behind it.
ghost use Rattle.std.specs.Prelude.{◌≡◌, OnOk, option_copied};
ghost use Rattle.std.specs.Io.KnownBytes.{Appends};
ghost use Rattle.ld_main.specs.RefusalTexts as spec;

use elf_model::{ArFault, CmdFault, GroupFault, LinkError, ObjFault};
use std::io;
use std::io::Write;

/// A fault of the words.
fn command_text(fault: CmdFault) -> &'static str
    ensures { result.now ≡ spec.command_text fault }
{
    match fault {
        CmdFault::Memory => "Memory (1)",
        CmdFault::UnknownOption => "UnknownOption (2)",
        CmdFault::MissingValue => "MissingValue (3)",
        CmdFault::BadNumber => "BadNumber (4)",
        CmdFault::GroupNesting => "GroupNesting (5)",
        CmdFault::NoInput => "NoInput (6)",
        CmdFault::NotArchiveInGroup => "NotArchiveInGroup (7)",
    }
}

/// A fault of an object.
fn object_text(fault: ObjFault) -> &'static str
    ensures { result.now ≡ spec.object_text fault }
{
    match fault {
        ObjFault::Memory => "Memory (1)",
        ObjFault::Truncated => "Truncated (2)",
        ObjFault::NotElf64 => "NotElf64 (3)",
        ObjFault::NotRelocatable => "NotRelocatable (4)",
        ObjFault::WrongMachine => "WrongMachine (5)",
        ObjFault::BadSectionTable => "BadSectionTable (6)",
        ObjFault::BadSectionRange => "BadSectionRange (7)",
        ObjFault::BadString => "BadString (8)",
        ObjFault::BadSymbolTable => "BadSymbolTable (9)",
        ObjFault::BadRela => "BadRela (10)",
        ObjFault::BadGroup => "BadGroup (11)",
        ObjFault::TooMany => "TooMany (12)",
    }
}

/// A fault of an archive.
fn archive_text(fault: ArFault) -> &'static str
    ensures { result.now ≡ spec.archive_text fault }
{
    match fault {
        ArFault::Memory => "Memory (1)",
        ArFault::NotArchive => "NotArchive (2)",
        ArFault::Truncated => "Truncated (3)",
        ArFault::BadHeader => "BadHeader (4)",
        ArFault::BadIndex => "BadIndex (5)",
        ArFault::BadName => "BadName (6)",
        ArFault::TooMany => "TooMany (7)",
    }
}

/// A fault of the groups of an object.
fn group_text(fault: GroupFault) -> &'static str
    ensures { result.now ≡ spec.group_text fault }
{
    match fault {
        GroupFault::Memory => "Memory (1)",
        GroupFault::NamelessSignature => "NamelessSignature (2)",
        GroupFault::BadFlags => "BadFlags (3)",
        GroupFault::TwoGroups => "TwoGroups (4)",
    }
}

/// A refused link, without the fault that it holds.
fn own_text(error: &LinkError) -> &'static str
    ensures { result.now ≡ spec.own_text error.now }
{
    match error {
        LinkError::Memory => "Memory (1)",
        LinkError::Command(_) => "Command (2)",
        LinkError::FileMissing => "FileMissing (3)",
        LinkError::BadObject(_) => "BadObject (4)",
        LinkError::BadArchive(_) => "BadArchive (5)",
        LinkError::NoIndex => "NoIndex (6)",
        LinkError::SectionKind => "SectionKind (7)",
        LinkError::BadGroup(_) => "BadGroup (8)",
        LinkError::Duplicate(_) => "Duplicate (9)",
        LinkError::Undefined(_) => "Undefined (10)",
        LinkError::RefToDropped => "RefToDropped (11)",
        LinkError::RelocKind => "RelocKind (12)",
        LinkError::FieldOutside => "FieldOutside (13)",
        LinkError::OverlappingFields => "OverlappingFields (14)",
        LinkError::Overflow => "Overflow (15)",
        LinkError::TlsMismatch => "TlsMismatch (16)",
        LinkError::BadCommon => "BadCommon (17)",
        LinkError::NoEntry => "NoEntry (18)",
        LinkError::MixedSection => "MixedSection (19)",
        LinkError::TooLarge => "TooLarge (20)",
        LinkError::BadSymbol => "BadSymbol (21)",
    }
}

/// The fault that a refused link holds; None where it holds none.
fn cause_text(error: &LinkError) -> Option<&'static str>
    ensures { option_copied result ≡ spec.cause_text error.now }
{
    match error {
        LinkError::Command(fault) => Some(command_text(*fault)),
        LinkError::BadObject(fault) => Some(object_text(*fault)),
        LinkError::BadArchive(fault) => Some(archive_text(*fault)),
        LinkError::BadGroup(fault) => Some(group_text(*fault)),
        _ => None,
    }
}

/// Prints what follows a name, where there is something.
fn print_following<W: Write>(err: &mut W, text: Option<&[u8]>) -> io::Result<()>
    ensures { OnOk result (Appends (W.contents err.old) (W.contents err.new)
        (spec.following (option_copied text.entry))) }
{
    match text {
        Some(text) => {
            err.write_all(b": ")?;
            err.write_all(text)
        }
        None => Ok(()),
    }
}

/// Prints the line of a refusal, with the symbol that it names, and takes no memory.
pub fn print_refusal<W: Write>(
    err: &mut W,
    error: &LinkError,
    symbol: Option<&[u8]>,
) -> io::Result<()>
    ensures { OnOk result (Appends (W.contents err.old) (W.contents err.new)
        (spec.refusal_line error.now (option_copied symbol.entry))) }
{
    err.write_all(b"ld: ")?;
    err.write_all(own_text(error).as_bytes())?;
    print_following(err, cause_text(error).map(|text| text.as_bytes()))?;
    print_following(err, symbol)?;
    err.write_all(b"\n")
}

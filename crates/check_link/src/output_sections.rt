//! Output sections: which pieces are of one.
ghost use Rattle.std.specs.Prelude.{◌≡◌, ◌↔◌, IsTrue};
ghost use Rattle.elf_model.specs.Link.Pieces as pieces;
ghost use Rattle.check_link.specs.OutputSections.{IsOutputSection, IsSameSection, same_flags};
ghost use Rattle.check_link.specs.Views.{piece_view};

use crate::same_runs::same_text;
use crate::things::Piece;

/// What the pieces of one output section have in common.
#[derive(Clone, Copy, Debug, PartialEq, Eq, PartialOrd, Ord)]
pub struct OutputSection<'a> {
    pub name: &'a [u8],
    pub writable: bool,
    pub executable: bool,
    pub thread_local: bool,
    pub nobits: bool,
}

/// Whether a name is a gathering one, or begins with it and a dot.
pub fn is_gathered_by(name: &[u8], gathering: &[u8]) -> bool
    ensures { result ≡ pieces.is_gathered_by name.now gathering.now }
{
    if name.len() <= gathering.len() {
        return same_text(name, gathering);
    }
    let (front, rest) = name.split_at(gathering.len());
    rest[0] == b'.' && same_text(front, gathering)
}

/// The output name of a section: the gathering name that it belongs to, or its own.
#[tactic(auto, unfolding(elf_model::specs::Link::Pieces::output_name))]
pub fn output_name<'a>(name: &'a [u8]) -> &'a [u8]
    ensures { result.now ≡ pieces.output_name name.now }
{
    if is_gathered_by(name, b".text") {
        return b".text";
    }
    if is_gathered_by(name, b".rodata") {
        return b".rodata";
    }
    if is_gathered_by(name, b".data") {
        return b".data";
    }
    if is_gathered_by(name, b".bss") {
        return b".bss";
    }
    if is_gathered_by(name, b".tdata") {
        return b".tdata";
    }
    if is_gathered_by(name, b".tbss") {
        return b".tbss";
    }
    if is_gathered_by(name, b".init_array") {
        return b".init_array";
    }
    if is_gathered_by(name, b".fini_array") {
        return b".fini_array";
    }
    if is_gathered_by(name, b".preinit_array") {
        return b".preinit_array";
    }
    name
}

/// The output section of a piece.
pub fn output_section<'a>(piece: &Piece<'a>) -> OutputSection<'a>
    ensures { IsOutputSection (piece_view piece.now) result }
{
    let header = &piece.header;
    OutputSection {
        name: output_name(piece.name),
        writable: header.is_writable(),
        executable: header.is_executable(),
        thread_local: header.is_thread_local(),
        nobits: header.is_nobits(),
    }
}

/// Whether two pieces are alike in WRITE, EXECINSTR, TLS and NOBITS.
pub fn same_flags(first: &Piece<'_>, second: &Piece<'_>) -> bool
    ensures { result ≡ same_flags (piece_view first.now) (piece_view second.now) }
{
    let one = &first.header;
    let other = &second.header;
    if one.is_writable() != other.is_writable() || one.is_executable() != other.is_executable() {
        return false;
    }
    one.is_thread_local() == other.is_thread_local() && one.is_nobits() == other.is_nobits()
}

/// Whether two output sections are one.
pub fn same_section(first: &OutputSection<'_>, second: &OutputSection<'_>) -> bool
    ensures { IsTrue result ↔ IsSameSection first.now second.now }
{
    if first.writable != second.writable || first.executable != second.executable {
        return false;
    }
    if first.thread_local != second.thread_local || first.nobits != second.nobits {
        return false;
    }
    same_text(first.name, second.name)
}

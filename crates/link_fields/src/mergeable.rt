//! Sections of which linkers may merge what they have.
ghost use Rattle.std.specs.Prelude.{◌≡◌};
ghost use Rattle.check_link.specs.Views.{piece_view};
ghost use Rattle.judge_model.specs.Links.{is_mergeable, is_read_only};

use check_link::Piece;
use elf_model::{SHF_MERGE, SHF_TLS, SectionHeader};

/// Whether a section has bytes that are neither written nor executed, and one copy for all threads.
fn is_read_only(header: &SectionHeader) -> bool
    ensures { result ≡ is_read_only header.now }
{
    !(header.is_nobits()
        || header.is_writable()
        || header.is_executable()
        || header.sh_flags & SHF_TLS != 0)
}

/// Whether linkers may merge what a section has: read-only strings and constants of a size (System V gABI 4, SHF_MERGE).
pub fn is_mergeable(piece: &Piece<'_>) -> bool
    ensures { result ≡ is_mergeable (piece_view piece.now) }
{
    piece.header.sh_flags & SHF_MERGE != 0
        && piece.header.sh_entsize != 0
        && is_read_only(&piece.header)
}

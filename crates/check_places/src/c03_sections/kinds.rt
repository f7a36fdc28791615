//! Which kinds of kept sections are lawful (docs/PROFILE.md): a part of the third clause.
ghost use Rattle.std.specs.Prelude.{◌≡◌, ◌∷◌, ◌↔◌, [], All, Contains, IsTrue};
ghost use Rattle.elf_model.specs.Link.Pieces.{IsLawfulKind};
ghost use Rattle.check_link.specs.Views.{piece_views};

use check_link::Piece;
use elf_model::{
    SHF_ALLOC, SHF_EXECINSTR, SHF_GROUP, SHF_INFO_LINK, SHF_MERGE, SHF_STRINGS, SHF_TLS, SHF_WRITE,
    SHT_FINI_ARRAY, SHT_INIT_ARRAY, SHT_NOBITS, SHT_NOTE, SHT_PREINIT_ARRAY, SHT_PROGBITS,
    SHT_X86_64_UNWIND, SectionHeader,
};

const LAWFUL_TYPES: [u32; 7] = [
    SHT_PROGBITS,
    SHT_NOTE,
    SHT_NOBITS,
    SHT_INIT_ARRAY,
    SHT_FINI_ARRAY,
    SHT_PREINIT_ARRAY,
    SHT_X86_64_UNWIND,
];

const LAWFUL_FLAGS: u64 = SHF_WRITE
    | SHF_ALLOC
    | SHF_EXECINSTR
    | SHF_MERGE
    | SHF_STRINGS
    | SHF_INFO_LINK
    | SHF_GROUP
    | SHF_TLS;

fn is_lawful_type(sh_type: u32) -> bool
    ensures { IsTrue result ↔ Contains (1 ∷ 7 ∷ 8 ∷ 14 ∷ 15 ∷ 16 ∷ 0x70000001 ∷ []) sh_type }
{
    LAWFUL_TYPES.contains(&sh_type)
}

/// Whether a kept section has a lawful type and lawful flags, and not both WRITE and EXECINSTR, and TLS and
/// NOBITS with WRITE alone.
fn is_lawful_kind(header: &SectionHeader) -> bool
    ensures { IsTrue result ↔ IsLawfulKind header.now }
{
    if !is_lawful_type(header.sh_type) {
        return false;
    }
    if header.sh_flags & LAWFUL_FLAGS != header.sh_flags {
        return false;
    }
    if !header.is_writable() {
        return !header.is_thread_local() && !header.is_nobits();
    }
    !header.is_executable()
}

/// Whether all pieces are of lawful kinds.
pub fn are_lawful_kinds(pieces: &[Piece<'_>]) -> bool
    ensures { IsTrue result ↔ All (λ p. IsLawfulKind p.header) (piece_views pieces.now) }
{
    all_lawful(pieces)
}

fn all_lawful(pieces: &[Piece<'_>]) -> bool
    ensures { IsTrue result ↔ All (λ p. IsLawfulKind p.header) pieces.now }
{
    pieces.iter().all(|p| is_lawful_kind(&p.header))
}

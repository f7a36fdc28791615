//! Where fields, or the bytes beside them, aren't right.
ghost use Rattle.std.specs.Prelude.{◌≡◌};
ghost use Rattle.check_link.specs.Views.{placed_view};
ghost use Rattle.check_load.specs.KeptRelocations.{relocation_at};
ghost use Rattle.elf_model.specs.Link.Loading.{LoadedObject};
ghost use Rattle.link_fields.specs.Wrong.{field_named, rest_named};

use check_link::Placed;
use check_load::KeptRelocation;

/// The field of a relocation: its object, in loading order, the section and the offset there, in bytes; and the relocation's type.
#[derive(Clone, Copy, Debug, PartialEq, Eq)]
pub struct WrongField {
    pub object: u64,
    pub section: u32,
    pub offset: u64,
    pub kind: u32,
}

/// What a section or a common block has beside the fields of relocations: its object, in loading order, and its number there.
#[derive(Clone, Copy, Debug, PartialEq, Eq)]
pub struct WrongRest {
    pub object: u64,
    pub section: u64,
}

/// The field of a relocation of object `number`.
pub fn field_named(number: u64, relocation: &KeptRelocation) -> WrongField
    ensures { (o : LoadedObject) → result ≡ field_named (relocation_at number o relocation.now) }
{
    WrongField {
        object: number,
        section: relocation.section,
        offset: relocation.entry.r_offset,
        kind: relocation.entry.kind(),
    }
}

/// What a section or a common block has beside its fields.
pub fn rest_named(placed: &Placed<'_>) -> WrongRest
    ensures { result ≡ rest_named (placed_view placed.now) }
{
    WrongRest {
        object: placed.piece.object,
        section: placed.piece.section,
    }
}

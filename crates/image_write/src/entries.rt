//! The entries of a symbol table: what each says of its definition (System V gABI 4, "Symbol Table").
ghost use Rattle.std.specs.Prelude.{◌≡◌, ◌<◌, ◌^◌};
ghost use Rattle.elf_model.specs.Own.OwnLayout.{own_in_load_order, own_where};
ghost use Rattle.elf_model.specs.Link.Meaning.{meaning_size};
ghost use Rattle.elf_model.specs.Link.Pieces.{AreLawfulKinds};
ghost use Rattle.elf_model.specs.Image.SymbolTable as table;
ghost use Rattle.resolve.specs.Views.{meaning_view};
ghost use Rattle.image_write.specs.Maps.{LiesWithin};

use crate::values::definition_value;
use elf_model::{SHN_ABS, STB_GLOBAL, STB_WEAK, STT_FUNC, STT_NOTYPE, STT_OBJECT, Symbol};
use layout::Placement;
use resolve::Definition;

/// WEAK where a definition is weak, else GLOBAL.
fn binding_of(definition: &Definition<'_>) -> u8
    ensures binding { result ≡ table.entry_binding (meaning_view definition.now) }
    ensures few { result < 3 }
{
    match definition {
        Definition::Symbol(symbol) => {
            if symbol.entry.binding() == STB_WEAK {
                STB_WEAK
            } else {
                STB_GLOBAL
            }
        }
        Definition::Common(_) => STB_GLOBAL,
        Definition::Linker(_, _) => STB_GLOBAL,
    }
}

/// A symbol's own type where it is NOTYPE, OBJECT or FUNC, else NOTYPE; a common block is an OBJECT.
fn type_of(definition: &Definition<'_>) -> u8
    ensures type_ { result ≡ table.entry_type (meaning_view definition.now) }
    ensures few { result < 3 }
{
    match definition {
        Definition::Symbol(symbol) => {
            let own = symbol.entry.symbol_type();
            if own <= STT_FUNC { own } else { STT_NOTYPE }
        }
        Definition::Common(_) => STT_OBJECT,
        Definition::Linker(_, _) => STT_NOTYPE,
    }
}

/// The size of what a name stands for, in bytes; 0 of the linker's names.
fn size_of(definition: &Definition<'_>) -> u64
    ensures { result ≡ meaning_size (meaning_view definition.now) }
{
    match definition {
        Definition::Symbol(symbol) => symbol.entry.st_size,
        Definition::Common(block) => block.size,
        Definition::Linker(_, _) => 0,
    }
}

/// The entry of a definition whose name stands at an offset of `.strtab`.
pub fn entry_of(placement: &Placement<'_>, definition: &Definition<'_>, name_at: u32) -> Symbol
    requires kinds { AreLawfulKinds placement.now.objects }
    requires within { LiesWithin (own_in_load_order placement.now.base placement.now.objects)
        (meaning_view definition.now) }
    ensures { result ≡ table.entry_of (own_where placement.now.base placement.now.objects) name_at
        (meaning_view definition.now) }
{
    Symbol {
        st_name: name_at,
        st_info: binding_of(definition) * 16 + type_of(definition),
        st_other: 0,
        st_shndx: SHN_ABS,
        st_value: definition_value(placement, definition),
        st_size: size_of(definition),
    }
}

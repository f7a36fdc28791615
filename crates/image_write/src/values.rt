//! The values of definitions where the linker lays out: addresses, and what absolute symbols have (System V gABI 4,
//! "Symbol Values").
ghost use Rattle.std.specs.Prelude.{◌≡◌, ◌<◌, ◌^◌};
ghost use Rattle.elf_model.specs.Link.Meaning.{meaning_value};
ghost use Rattle.elf_model.specs.Own.OwnLayout.{own_in_load_order, own_where};
ghost use Rattle.elf_model.specs.Link.Pieces.{AreLawfulKinds};
ghost use Rattle.elf_model.specs.Link.Placement as placement_of;
ghost use Rattle.elf_model.specs.Link.Placement.{section_address};
ghost use Rattle.resolve.specs.Views.{meaning_view, symbol_view};
ghost use Rattle.image_write.specs.Maps.{LiesBelow, LiesWithin};

use elf_model::{ObjectId, SHN_ABS, SectionRef};
use layout::Placement;
use resolve::{Block, Definition, SymbolOf};

/// The value of a definition: an absolute one's `st_value`, else the address of its section plus `st_value`,
/// 0 in a section that isn't kept.
pub fn symbol_value(placement: &Placement<'_>, symbol: &SymbolOf<'_>) -> u64
    requires { LiesBelow (own_in_load_order placement.now.base placement.now.objects)
        (symbol_view symbol.now) }
    ensures value { result ≡ placement_of.symbol_value
        (own_in_load_order placement.now.base placement.now.objects) (symbol_view symbol.now) }
    ensures fits { result < 2 ^ 64 }
{
    let entry = symbol.entry;
    if entry.st_shndx == SHN_ABS {
        return entry.st_value;
    }
    match placement.numbered_address(SectionRef {
        object: ObjectId(symbol.object),
        section: entry.st_shndx as u64,
    }) {
        Some(at) => at + entry.st_value,
        None => 0,
    }
}

/// The address of a common block.
pub fn block_address(placement: &Placement<'_>, block: &Block<'_>) -> u64
    ensures { result ≡ section_address
        (own_in_load_order placement.now.base placement.now.objects) block.now.object block.now.number }
{
    match placement.numbered_address(block.section()) {
        Some(at) => at,
        None => 0,
    }
}

/// The value of what a name means.
pub fn definition_value(placement: &Placement<'_>, meaning: &Definition<'_>) -> u64
    requires kinds { AreLawfulKinds placement.now.objects }
    requires within { LiesWithin (own_in_load_order placement.now.base placement.now.objects)
        (meaning_view meaning.now) }
    ensures value { result ≡ meaning_value (own_where placement.now.base placement.now.objects)
        (meaning_view meaning.now) }
    ensures fits { result < 2 ^ 64 }
{
    match meaning {
        Definition::Symbol(symbol) => symbol_value(placement, symbol),
        Definition::Common(block) => block_address(placement, block),
        Definition::Linker(name, bound) => placement.bound(name, *bound),
    }
}

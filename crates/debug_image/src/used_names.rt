//! What names stand for, by their numbers: each is read and looked up once, so that no relocation reads one.
ghost use Rattle.std.specs.Prelude.{◌≡◌, IfOk};
ghost use Rattle.elf_model.specs.Link.Meaning.{meaning};
ghost use Rattle.debug_image.specs.DebugPlaces.{AreDataPlaces, AreNameUses, IsUseOf, data_at};

use crate::data_places::{DataPlaces, Used, used_of};
use elf_model::Target;
use resolve::Resolved;
use search::Loaded;
use std::alloc::{AllocError, Global};

/// What entries use that name a symbol of a name.
fn used_by_name<'a>(places: &DataPlaces<'_, 'a>, resolved: &Resolved<'a>, name: &'a [u8]) -> Used
    requires places { AreDataPlaces places.now }
    requires resolved { resolved.now ≡ (data_at places.now).objects }
    ensures { IsUseOf (data_at places.now) (meaning (data_at places.now).objects name.now) result }
{
    used_of(places, &resolved.target_meaning(&Target::Name(name)))
}

/// A row for each name that has a number.
pub fn used_names<'a>(
    alloc: Global,
    places: &DataPlaces<'_, 'a>,
    resolved: &Resolved<'a>,
    loaded: &Loaded<'a>,
) -> Result<Vec<Used>, AllocError>
    requires places { AreDataPlaces places.now }
    requires resolved { resolved.now ≡ (data_at places.now).objects }
    ensures { IfOk result (λ v. AreNameUses (data_at places.now) loaded.now.names v.items) }
{
    let mut table = Vec::with_capacity(alloc, loaded.name_count())?;
    for number in 0..loaded.name_count() {
        table.push(used_by_name(places, resolved, loaded.name(number)))?;
    }
    Ok(table)
}

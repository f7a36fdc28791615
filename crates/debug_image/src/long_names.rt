//! Names of LOCAL symbols that come to more bytes than their object has, as only ends of one text can. Tools don't get them: an
//! image would have to hold each of them whole.
ghost use Rattle.std.specs.Prelude.{◌≡◌};
ghost use Rattle.search.specs.Views.{loaded_view, loaded_views};
ghost use Rattle.debug_image.specs.LongNames as spec;

use elf_model::STB_LOCAL;
use search::LoadedObject;

/// The bytes that the name of symbol `j` takes with its NUL, where the symbol is LOCAL.
fn name_size(loaded: &LoadedObject<'_>, j: usize) -> u64
    ensures { result ≡ spec.name_size (loaded_view loaded.now) j }
{
    if loaded.object.symbol(j).binding() != STB_LOCAL {
        return 0;
    }
    loaded.object.symbol_name(j).len() as u64 + 1
}

/// Whether the names of an object's LOCAL symbols come to more bytes than it has. It reads no more names than it must for that.
pub fn has_long_names(loaded: &LoadedObject<'_>) -> bool
    ensures { result ≡ spec.has_long_names (loaded_view loaded.now) }
{
    let most = loaded.object.bytes().len() as u64;
    let mut size = 0;
    for j in 0..loaded.object.symbols().len() {
        let more = name_size(loaded, j);
        if more > most - size {
            return true;
        }
        size += more;
    }
    false
}

/// How many objects have such names.
pub fn long_named(objects: &[LoadedObject<'_>]) -> u64
    ensures { result ≡ spec.long_named (loaded_views objects.now) }
{
    objects
        .iter()
        .filter(|loaded| has_long_names(loaded))
        .count() as u64
}

//! Whether objects are those of machine code: not of a compiler's own code, of which the linker would have the compiler make it.
ghost use Rattle.std.specs.Prelude.{◌≡◌, ◌↔◌, All, IsTrue, false};
ghost use Rattle.std.specs.Option.{option_map_or};
ghost use Rattle.check_load.specs.Views.{loaded_view, loaded_views};
ghost use Rattle.elf_model.specs.Inputs.ObjectFile.{section_name};
ghost use Rattle.input_judge.specs.Compiled.{is_lto_name};
ghost use Rattle.judge_model.specs.RightForeign.{is_lto};

use check_load::Loaded;
use elf_read::ObjectFile;

/// Whether a section has a compiler's own code, by its name; none that isn't there has.
fn is_lto_section(object: &ObjectFile<'_>, section: usize) -> bool
    ensures { result ≡ option_map_or is_lto_name (section_name object.now section) false }
{
    match object.section_name(section) {
        Some(name) => name.starts_with(b".gnu.lto_"),
        None => false,
    }
}

/// Whether no section of an object has a compiler's own code.
fn is_compiled(loaded: &Loaded<'_>) -> bool
    ensures { IsTrue result ↔ (is_lto (loaded_view loaded.now) ≡ false) }
{
    let object = &loaded.object;
    for section in 0..object.sections().len() {
        if is_lto_section(object, section) {
            return false;
        }
    }
    true
}

/// Whether no object has a section whose name begins with `.gnu.lto_`, as objects for link-time optimization have.
pub fn are_compiled(objects: &[Loaded<'_>]) -> bool
    ensures { IsTrue result ↔ All (λ o. is_lto o ≡ false) (loaded_views objects.now) }
{
    for loaded in objects {
        if !is_compiled(loaded) {
            return false;
        }
    }
    true
}

//! The names of output sections.
ghost use Rattle.std.specs.Prelude.{◌≡◌, ◌||◌, nat_eq};
ghost use Rattle.std.specs.List.{starts_with};
ghost use Rattle.std.specs.Str.{bytes_eq};
ghost use Rattle.elf_model.specs.Link.Pieces as pieces;

/// Whether a name is a gathering one, or begins with it and a dot.
fn is_either(name: &[u8], gathering: &[u8], with_dot: &[u8]) -> bool
    ensures { result ≡ (bytes_eq name.now gathering.now
        || starts_with nat_eq name.now with_dot.now) }
{
    name == gathering || name.starts_with(with_dot)
}

/// The output name of a section: the gathering name that it equals or begins with, a dot behind; else its own.
#[tactic(auto, unfolding(elf_model::specs::Link::Pieces::output_name))]
pub fn output_name(name: &[u8]) -> &[u8]
    ensures { result.now ≡ pieces.output_name name.now }
{
    if is_either(name, b".text", b".text.") {
        return b".text";
    }
    if is_either(name, b".rodata", b".rodata.") {
        return b".rodata";
    }
    if is_either(name, b".data", b".data.") {
        return b".data";
    }
    if is_either(name, b".bss", b".bss.") {
        return b".bss";
    }
    if is_either(name, b".tdata", b".tdata.") {
        return b".tdata";
    }
    if is_either(name, b".tbss", b".tbss.") {
        return b".tbss";
    }
    if is_either(name, b".init_array", b".init_array.") {
        return b".init_array";
    }
    if is_either(name, b".fini_array", b".fini_array.") {
        return b".fini_array";
    }
    if is_either(name, b".preinit_array", b".preinit_array.") {
        return b".preinit_array";
    }
    name
}

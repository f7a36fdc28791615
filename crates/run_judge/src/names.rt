//! The names of runs.
ghost use Rattle.std.specs.Prelude.{◌≡◌, codes, cond, true};
ghost use Rattle.std.specs.Str.{bytes_eq};
ghost use Rattle.elf_model.specs.Link.Pieces as pieces;
ghost use Rattle.judge_model.specs.Runs as runs;

/// Whether a name is a gathering one, or begins with it and a dot.
pub fn is_gathered_by(name: &[u8], gathering: &[u8]) -> bool
    ensures { result ≡ pieces.is_gathered_by name.now gathering.now }
{
    if name.len() <= gathering.len() {
        return name == gathering;
    }
    let (front, rest) = name.split_at(gathering.len());
    rest[0] == b'.' && front == gathering
}

/// Whether sections of a name may stand anywhere.
pub fn is_free(name: &[u8]) -> bool
    ensures { result ≡ runs.is_free name.now }
{
    if is_gathered_by(name, b".text") || is_gathered_by(name, b".rodata") {
        return true;
    }
    if is_gathered_by(name, b".data") || is_gathered_by(name, b".bss") {
        return true;
    }
    if is_gathered_by(name, b".tdata") || is_gathered_by(name, b".tbss") {
        return true;
    }
    if is_gathered_by(name, b".lrodata") || is_gathered_by(name, b".ldata") {
        return true;
    }
    is_gathered_by(name, b".lbss") || is_gathered_by(name, b".gcc_except_table")
}

/// The name of a section's run: that of the array to which it belongs, or its own.
pub fn run_name<'a>(name: &'a [u8]) -> &'a [u8]
    ensures { result.now ≡ runs.run_name name.now }
{
    if is_gathered_by(name, b".init_array") {
        return b".init_array";
    }
    if is_gathered_by(name, b".fini_array") {
        return b".fini_array";
    }
    if is_gathered_by(name, b".preinit_array") {
        return b".preinit_array";
    }
    if is_gathered_by(name, b".ctors") {
        return b".ctors";
    }
    if is_gathered_by(name, b".dtors") {
        return b".dtors";
    }
    name
}

/// Whether a name is that of constructors or destructors, with a number or without.
pub fn is_of_constructors(name: &[u8]) -> bool
    ensures { result ≡ runs.is_of_constructors name.now }
{
    is_gathered_by(name, b".ctors") || is_gathered_by(name, b".dtors")
}

/// Whether the sections of a name are executed from the first one on through all gaps.
pub fn runs_through(name: &[u8]) -> bool
    ensures { result
        ≡ (cond (bytes_eq name.now (codes ".init")) true (bytes_eq name.now (codes ".fini"))) }
{
    if name == b".init".as_slice() {
        return true;
    }
    name == b".fini".as_slice()
}

//! The names of sections that are written before PT_GNU_RELRO makes them read-only.
ghost use Rattle.std.specs.Prelude.{◌≡◌};
ghost use Rattle.std.specs.List.{list_any};
ghost use Rattle.elf_model.specs.Link.Pieces as pieces;
ghost use Rattle.header_judge.specs.Rights.{is_early_name};

/// The names that gather them.
static EARLY_NAMES: [&[u8]; 13] = [
    b".tdata",
    b".tbss",
    b".init_array",
    b".fini_array",
    b".preinit_array",
    b".ctors",
    b".dtors",
    b".jcr",
    b".data.rel.ro",
    b".bss.rel.ro",
    b".eh_frame",
    b".gcc_except_table",
    b".tm_clone_table",
];

/// Whether a name is a gathering one, or begins with it and a dot.
fn is_gathered_by(name: &[u8], gathering: &[u8]) -> bool
    ensures { result ≡ pieces.is_gathered_by name.now gathering.now }
{
    if name.len() <= gathering.len() {
        return name == gathering;
    }
    let (front, rest) = name.split_at(gathering.len());
    rest[0] == b'.' && front == gathering
}

/// Whether one of some names gathers a name: the name is that one, or begins with it and a dot.
pub fn is_gathered(name: &[u8], gathering: &[&[u8]]) -> bool
    ensures { result ≡ list_any (λ g. pieces.is_gathered_by name.now g.now) gathering.now }
{
    gathering.iter().any(|g| is_gathered_by(name, g))
}

/// Whether a section of a name is written before memory is made read-only.
pub fn is_early_name(name: &[u8]) -> bool
    ensures { result ≡ is_early_name name.now }
{
    is_gathered(name, &EARLY_NAMES)
}

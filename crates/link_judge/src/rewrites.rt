//! Whether code asks for thread-local storage in the ways of shared objects, which linkers rewrite (ELF Handling For Thread-Local
//! Storage, "Linker Optimizations"): no rule says yet whether a field that is rewritten so is right.
ghost use Rattle.std.specs.Prelude.{◌≡◌, ◌==◌, ℕ};
ghost use Rattle.std.specs.List.{list_any};
ghost use Rattle.check_load.specs.KeptRelocations.{relocation_at};
ghost use Rattle.check_load.specs.Views.{loaded_view, loaded_views};
ghost use Rattle.elf_model.specs.Link.Loading as loading;
ghost use Rattle.elf_model.specs.Link.Relocation.{relocations, relocations_from};
ghost use Rattle.judge_model.specs.Links.{ForeignLink, objects_of};
ghost use Rattle.link_judge.specs.Judged.{has_shared_thread_code, shared_thread_kinds};
ghost use Rattle.link_judge.specs.Rewritten.{is_shared_thread_in};

use check_load::{KeptRelocation, Loaded};
use link_fields::Drops;

const TLSGD: u32 = 19;

const TLSLD: u32 = 20;

const GOTPC32_TLSDESC: u32 = 34;

const TLSDESC_CALL: u32 = 35;

/// Whether a type of relocation is one of such code.
fn is_shared_kind(kind: u32) -> bool
    ensures { result ≡ list_any (λ k. kind == k) shared_thread_kinds }
{
    kind == TLSGD || kind == TLSLD || kind == GOTPC32_TLSDESC || kind == TLSDESC_CALL
}

/// Whether a relocation of object `number` is of such code, in a section that isn't left out.
fn is_shared(drops: &Drops<'_>, number: u64, relocation: &KeptRelocation) -> bool
    ensures { (o : loading.LoadedObject) → result
        ≡ is_shared_thread_in drops.now (relocation_at number o relocation.now) }
{
    !drops.has(number, relocation.section as u64) && is_shared_kind(relocation.entry.kind())
}

/// Whether object `number` has such code.
fn has_shared(drops: &Drops<'_>, number: u64, loaded: &Loaded<'_>) -> bool
    ensures { result ≡ list_any (is_shared_thread_in drops.now)
        (relocations_from number (loaded_view loaded.now)) }
{
    for relocation in loaded.relocations() {
        if is_shared(drops, number, &relocation) {
            return true;
        }
    }
    false
}

/// Whether objects have such code.
fn have_shared(objects: &[Loaded<'_>], drops: &Drops<'_>) -> bool
    ensures { result ≡ list_any (is_shared_thread_in drops.now)
        (relocations (loaded_views objects.now)) }
{
    for k in 0..objects.len() {
        if has_shared(drops, k as u64, &objects[k]) {
            return true;
        }
    }
    false
}

/// Whether the code of a link asks for thread-local storage in the ways of shared objects, given its objects and the lines of the
/// sections that are left out.
pub fn has_shared_thread_code(objects: &[Loaded<'_>], drops: &Drops<'_>) -> bool
    ensures { (l : ForeignLink) → objects_of l ≡ loaded_views objects.now
        → l.certificate.drops ≡ drops.now → result ≡ has_shared_thread_code l }
{
    have_shared(objects, drops)
}

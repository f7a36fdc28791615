//! C12: whether the entry is lawful, and `e_entry` is its value.
ghost use Rattle.std.specs.Prelude.{◌≡◌, ◌↔◌, IsSomeAnd, IsTrue, option_map};
ghost use Rattle.elf_model.specs.Link.Meaning.{meaning_value, meant, object_meaning};
ghost use Rattle.elf_model.specs.Link.Resolution.{IsEntry};
ghost use Rattle.check_places.specs.Entering.{Enters};
ghost use Rattle.check_link.specs.Views.{symbol_view};
ghost use Rattle.elf_model.specs.Image.RightLink.{Holds};
ghost use Rattle.elf_model.specs.declared.verdict.Clause.TheVariants as clause;

use check_link::{SymbolOf, entry_of};
use check_relocs::Bindings;
use check_stages::BoundLink;

/// Whether the twelfth clause holds of a link.
pub fn holds(bound: &BoundLink<'_, '_>) -> bool
    ensures { IsTrue result ↔ Holds clause.C12 bound.now }
{
    let link = bound.link();
    let entry = entry_of(&link.plan);
    enters_right(bound.bindings(), entry, bound.memory().entry())
}

/// Whether a chosen definition means something, of which `e_entry` is the value.
fn has_value<'a>(bindings: &Bindings<'_, '_, 'a>, entry: &SymbolOf<'a>, e_entry: u64) -> bool
    ensures { IsTrue result ↔ IsSomeAnd (meant bindings.now.objects (symbol_view entry.now))
        (λ d. e_entry ≡ meaning_value bindings.now.places d) }
{
    match bindings.meant(entry) {
        Some(meaning) => bindings.is_value(&meaning, e_entry),
        None => false,
    }
}

/// Whether a definition was found that stands in no section with SHF_TLS, and `e_entry` is the value of what it means.
fn enters_at<'a>(
    bindings: &Bindings<'_, '_, 'a>,
    found: &Option<SymbolOf<'a>>,
    e_entry: u64,
) -> bool
    ensures { IsTrue result ↔ Enters bindings.now.objects bindings.now.places e_entry
        (option_map symbol_view found.now) }
{
    match found {
        Some(entry) => {
            if bindings.is_in_thread_section(entry) {
                return false;
            }
            has_value(bindings, entry, e_entry)
        }
        None => false,
    }
}

/// Whether the entry's name has a chosen definition that stands in no section with SHF_TLS, and `e_entry` is its
/// value.
fn enters_right(bindings: &Bindings<'_, '_, '_>, name: &[u8], e_entry: u64) -> bool
    ensures { IsTrue result ↔ (IsEntry bindings.now.objects name.now
        × IsSomeAnd (object_meaning bindings.now.objects name.now)
        (λ d. e_entry ≡ meaning_value bindings.now.places d)) }
{
    enters_at(bindings, &bindings.chosen(name), e_entry)
}

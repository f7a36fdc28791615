//! Whether no name has two strong definitions (System V gABI 4, "Symbol Table").
ghost use Rattle.std.specs.Prelude.{◌≡◌, ◌↔◌, All, IfSome, IsTrue, false, slice_get};
ghost use Rattle.std.specs.Option.{option_map_or};
ghost use Rattle.input_judge.specs.Unique.{IsChosenIfStrong};
ghost use Rattle.elf_model.specs.Link.ChosenSymbols.{is_chosen};
ghost use Rattle.elf_model.specs.Link.Resolution.{AreUnique};

use check_link::{Definitions, Names};

/// Whether the definition at a position is the chosen one of its name.
fn is_chosen_at<'a>(
    names: &Names<'_, 'a>,
    definitions: &Definitions<'_, 'a>,
    position: usize,
) -> bool
    ensures { result ≡ option_map_or (is_chosen names.now)
        (slice_get definitions.now position) false }
{
    match definitions.get(position) {
        Some(symbol) => names.is_chosen(&symbol),
        None => false,
    }
}

/// Whether the definition at a position is no strong one, or the chosen one of its name.
fn is_chosen_if_strong<'a>(
    names: &Names<'_, 'a>,
    definitions: &Definitions<'_, 'a>,
    position: usize,
) -> bool
    ensures { IfSome (slice_get definitions.now position)
        (λ s. IsTrue result ↔ IsChosenIfStrong names.now s) }
{
    if !definitions.is_strong(position) {
        return true;
    }
    is_chosen_at(names, definitions, position)
}

/// Whether each of the definitions of objects is no strong one, or the chosen one of its name.
fn are_chosen_if_strong<'a>(names: &Names<'_, 'a>, definitions: &Definitions<'_, 'a>) -> bool
    ensures { IsTrue result ↔ All (IsChosenIfStrong names.now) definitions.now }
{
    for position in 0..definitions.len() {
        if !is_chosen_if_strong(names, definitions, position) {
            return false;
        }
    }
    true
}

/// Whether no name has two strong definitions.
pub fn are_unique(names: &Names<'_, '_>) -> bool
    ensures { IsTrue result ↔ AreUnique names.now }
{
    are_chosen_if_strong(names, names.definitions())
}

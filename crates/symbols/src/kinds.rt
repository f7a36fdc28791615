//! Which symbols are definitions, and how these define their names (System V gABI 4, "Symbol Table"; dropped sections as the profile
//! has them).
ghost use Rattle.std.specs.Prelude.{◌≡◌, ◌&&◌, ◌||◌, not};
ghost use Rattle.elf_model.specs.Link.Resolution.{is_common, is_global, is_placed_symbol, is_weak};
ghost use Rattle.symbols.specs.Kinds.{is_defining, kind_by};

use crate::candidate::CandidateKind;
use elf_model::Symbol;

/// Whether a symbol stands in a section or is absolute.
fn is_placed(entry: &Symbol) -> bool
    ensures { result ≡ is_placed_symbol entry.now }
{
    !entry.is_undefined() && !entry.is_common()
}

/// Whether a symbol is a strong definition: GLOBAL, in a section that isn't dropped or absolute.
pub fn is_strong(entry: &Symbol, dropped: bool) -> bool
    ensures { result ≡ (is_global entry.now && (is_placed_symbol entry.now && not dropped)) }
{
    entry.is_global() && is_placed(entry) && !dropped
}

/// Whether a symbol is a weak definition: WEAK, in a section that isn't dropped or absolute.
fn is_weak_definition(entry: &Symbol, dropped: bool) -> bool
    ensures { result ≡ (is_weak entry.now && (is_placed_symbol entry.now && not dropped)) }
{
    entry.is_weak() && is_placed(entry) && !dropped
}

/// Whether a symbol is a definition that asks for a common block: GLOBAL and common.
pub fn is_common_definition(entry: &Symbol, dropped: bool) -> bool
    ensures { result ≡ (is_global entry.now && (is_common entry.now && not dropped)) }
{
    entry.is_global() && entry.is_common() && !dropped
}

/// Whether a symbol is a definition: strong, common or weak.
pub fn is_definition(entry: &Symbol, dropped: bool) -> bool
    ensures { result ≡ is_defining entry.now dropped }
{
    is_strong(entry, dropped)
        || is_common_definition(entry, dropped)
        || is_weak_definition(entry, dropped)
}

/// How a definition defines its name, by its entry.
pub fn kind_by(entry: &Symbol, dropped: bool) -> CandidateKind
    ensures { result ≡ kind_by entry.now dropped }
{
    if is_strong(entry, dropped) {
        return CandidateKind::Strong;
    }
    if is_common_definition(entry, dropped) {
        return CandidateKind::Common;
    }
    CandidateKind::Weak
}

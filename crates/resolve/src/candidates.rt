//! Definitions as candidates for their names.
ghost use Rattle.std.specs.Prelude.{◌≡◌};
ghost use Rattle.elf_model.specs.Link.Loading as loading;
ghost use Rattle.elf_model.specs.Link.Resolution.{symbol_of};
ghost use Rattle.search.specs.Views.{loaded_view};
ghost use Rattle.resolve.specs.Offered.{candidate_of};

use crate::entries::symbol_ref;
use elf_model::Symbol;
use search::LoadedObject;
use symbols::{Candidate, kind_by};

/// Symbol `j` of object `number`, which is a definition, as a candidate for its name.
pub fn candidate_in(
    number: u64,
    own: &LoadedObject<'_>,
    j: usize,
    entry: &Symbol,
    dropped: bool,
) -> Candidate
    requires { dropped ≡ loading.is_dropped (loaded_view own.now) entry.now.st_shndx }
    ensures { result ≡ candidate_of (symbol_of number (loaded_view own.now) j entry.now) }
{
    Candidate {
        symbol: symbol_ref(number, j),
        kind: kind_by(entry, dropped),
        size: entry.st_size,
        align: entry.st_value,
    }
}

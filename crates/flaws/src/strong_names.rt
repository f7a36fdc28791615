//! The names of strong definitions, and which of them have two.
ghost use Rattle.std.specs.Prelude.{◌≡◌, [], ◌∷◌, IfOk, OnOk, filter, unwrap_or};
ghost use Rattle.elf_model.specs.Inputs.ObjectFile.{symbols};
ghost use Rattle.elf_model.specs.Link.Loading as loading;
ghost use Rattle.elf_model.specs.Link.Resolution.{all_symbols, is_strong, strong_definitions, symbol_of, symbols_from};
ghost use Rattle.search.specs.Views.{loaded_view, loaded_views};
ghost use Rattle.resolve.specs.Offered.{candidate_of, offers_of, rows_of};
ghost use Rattle.symbols.specs.Offers.{all_offered};
ghost use Rattle.symbols.specs.Rows.{no_row, no_rows};

use crate::flaw::Added;
use elf_model::{ObjectId, Symbol, SymbolRef};
use resolve::{is_dropped, is_strong};
use search::LoadedObject;
use symbols::{Candidate, NameTable, kind_by};

/// Symbol `j` of object `object`, which has the entry, as a candidate for its name.
fn candidate_in(object: usize, one: &LoadedObject<'_>, j: usize, entry: &Symbol) -> Candidate
    ensures { result ≡ candidate_of (symbol_of object (loaded_view one.now) j entry.now) }
{
    Candidate {
        symbol: SymbolRef {
            object: ObjectId(object as u64),
            symbol: j as u64,
        },
        kind: kind_by(entry, is_dropped(one, entry)),
        size: entry.st_size,
        align: entry.st_value,
    }
}

/// Offers symbol `j` of object `object`, which has the entry, to a table of names, where it is a strong definition.
fn offer_symbol<'a, T: NameTable<'a>>(
    table: &mut T,
    object: usize,
    one: &LoadedObject<'a>,
    j: usize,
    entry: &Symbol,
) -> Added
    ensures { OnOk result (T.rows table.new
        ≡ all_offered
        (offers_of
        (filter is_strong (symbol_of object (loaded_view one.now) j entry.now ∷ [])))
        (T.rows table.old)) }
{
    if !is_strong(entry, is_dropped(one, entry)) {
        return Ok(());
    }
    table.offer(
        one.object.symbol_name(j),
        candidate_in(object, one, j, entry),
    )?;
    Ok(())
}

/// Offers the strong definitions of object `object` to a table of names.
fn offer_symbols<'a, T: NameTable<'a>>(
    table: &mut T,
    object: usize,
    one: &LoadedObject<'a>,
) -> Added
    ensures { OnOk result (T.rows table.new
        ≡ all_offered
        (offers_of
        (filter is_strong
        (symbols_from object (loaded_view one.now) 0 (symbols one.now.object))))
        (T.rows table.old)) }
{
    let entries = one.object.symbols();
    for j in 0..entries.len() {
        offer_symbol(table, object, one, j, &entries.at(j))?;
    }
    Ok(())
}

/// Offers the strong definitions of all objects to a table of names, which is empty.
pub(crate) fn offer_all<'a, T: NameTable<'a>>(table: &mut T, objects: &[LoadedObject<'a>]) -> Added
    requires { T.rows table.old ≡ no_rows }
    ensures { OnOk result (T.rows table.new
        ≡ rows_of (strong_definitions (loaded_views objects.now))) }
{
    for k in 0..objects.len() {
        offer_symbols(table, k, &objects[k])?;
    }
    Ok(())
}

/// Whether a table of names has two strong definitions of a name.
pub(crate) fn is_twice<'a, T: NameTable<'a>>(table: &T, name: &'a [u8]) -> bool
    ensures { result ≡ (unwrap_or (T.rows table.now name.now) no_row).twice }
{
    match table.get(name) {
        Some(row) => row.twice,
        None => false,
    }
}

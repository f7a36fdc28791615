//! Kept relocations that aren't lawful; of those to one undefined name the first, with the number of the others.
ghost use Rattle.std.specs.Prelude.{◌≡◌, ℕ, [], IfOk, IfSome, OnOk, Some, unwrap_or};
ghost use Rattle.std.specs.List.{slice_get};
ghost use Rattle.elf_model.specs.Inputs.ObjectFile.{symbol_name};
ghost use Rattle.elf_model.specs.Link.Loading as loading;
ghost use Rattle.layout.specs.Mixed.{AreMixed};
ghost use Rattle.relocate.specs.References.{IsObjectAt};
ghost use Rattle.relocate.specs.SymbolTables.{IsReferrer, all_of, referring};
ghost use Rattle.search.specs.KeptLists.{IsKeptRela, kept_relas};
ghost use Rattle.search.specs.Views.{loaded_view, loaded_views};
ghost use Rattle.flaws.specs.Flaws.{AreAdded};
ghost use Rattle.wrong_references.specs.Entries.{entries, entries_in, entries_of_relas, entry_of, rela_entries};
ghost use Rattle.wrong_references.specs.References.{AddsEntry, candidate_at, counted_at, first_in, told_by, with_name};
ghost use Rattle.wrong_references.specs.Seen.{AreSeen};

use crate::flaw::{Added, EntryNumber, ReferenceFlaw};
use elf_model::{ObjectId, Rela, SymbolRef};
use relocate::{Referrer, RelocationFault, lawful_kind};
use resolve::Resolved;
use search::{KeptRela, LoadedObject, is_some_kind};
use std::alloc::{AllocError, Global};
use std::collections::BTreeSet;
use symbols::{Candidate, CandidateKind, NameTable, Row};

/// What a table of names is told of a name that has no definition: the number of its flaw.
fn numbered(flaw: usize) -> Candidate
    ensures { result ≡ candidate_at flaw }
{
    Candidate {
        symbol: SymbolRef {
            object: ObjectId(0),
            symbol: flaw as u64,
        },
        kind: CandidateKind::Weak,
        size: 0,
        align: 0,
    }
}

/// The number of the flaw of a name, where a table has the name.
fn flaw_of(row: Option<Row>) -> Option<u64>
    ensures { result ≡ first_in row }
{
    match row {
        Some(row) => match row.weak {
            Some(symbol) => Some(symbol.symbol),
            None => None,
        },
        None => None,
    }
}

/// Counts one more reference to the name of a flaw.
fn count(flaws: &mut Vec<ReferenceFlaw>, i: usize)
    ensures { flaws.new.items ≡ counted_at i flaws.old.items }
{
    if i < flaws.len() {
        flaws[i] = flaws[i].counted();
    }
}

/// Adds a flaw of the name of symbol `j` of an object, or counts one more reference, where a table has the name. Answers the
/// number of the name's flaw.
fn add_name<'a, T: NameTable<'a>>(
    flaws: &mut Vec<ReferenceFlaw>,
    names: &mut T,
    one: &LoadedObject<'a>,
    j: usize,
    flaw: ReferenceFlaw,
) -> Result<usize, AllocError>
    ensures told { OnOk result (told_by flaws.new.items (T.rows names.new)
        ≡ with_name (unwrap_or (symbol_name one.now.object j) []) flaw
        (told_by flaws.old.items (T.rows names.old))) }
    ensures first { IfOk result (λ i.
        (told_by flaws.new.items (T.rows names.new)).firsts
        (unwrap_or (symbol_name one.now.object j) []) ≡ Some i) }
{
    let name = one.object.symbol_name(j);
    if let Some(i) = flaw_of(names.get(name)) {
        count(flaws, i as usize);
        return Ok(i as usize);
    }
    let i = flaws.len();
    names.offer(name, numbered(i))?;
    flaws.push(flaw)?;
    Ok(i)
}

/// The number of the flaw of a symbol's name, where it was seen.
fn seen_at(seen: &[Option<usize>], j: usize) -> Option<usize>
    ensures { IfSome result (λ i. slice_get seen.now j ≡ Some (Some i)) }
{
    match seen.get(j) {
        Some(first) => *first,
        None => None,
    }
}

/// Adds a flaw of the name of symbol `j` of an object, or counts one more reference, where a table has the name. The name is
/// read only where the symbol wasn't seen, and then it is.
fn add_undefined<'a, T: NameTable<'a>>(
    flaws: &mut Vec<ReferenceFlaw>,
    names: &mut T,
    seen: &mut Vec<Option<usize>>,
    one: &LoadedObject<'a>,
    j: usize,
    flaw: ReferenceFlaw,
) -> Added
    requires { AreSeen (loaded_view one.now) seen.old.items
        (told_by flaws.old.items (T.rows names.old)) }
    ensures told { OnOk result (told_by flaws.new.items (T.rows names.new)
        ≡ with_name (unwrap_or (symbol_name one.now.object j) []) flaw
        (told_by flaws.old.items (T.rows names.old))) }
    ensures seen { OnOk result (AreSeen (loaded_view one.now) seen.new.items
        (told_by flaws.new.items (T.rows names.new))) }
{
    if let Some(i) = seen_at(seen, j) {
        count(flaws, i);
        return Ok(());
    }
    let i = add_name(flaws, names, one, j, flaw)?;
    if j < seen.len() {
        seen[j] = Some(i);
    }
    Ok(())
}

/// Adds entry `number` of a kept RELA section, where it isn't lawful.
fn add_entry<'a, T: NameTable<'a>>(
    flaws: &mut Vec<ReferenceFlaw>,
    names: &mut T,
    seen: &mut Vec<Option<usize>>,
    referrer: &Referrer<'_, '_, 'a>,
    rela: KeptRela,
    number: usize,
    entry: &Rela,
) -> Added
    requires known { IsReferrer referrer.now }
    requires seen { AreSeen (referring referrer.now) seen.old.items
        (told_by flaws.old.items (T.rows names.old)) }
    ensures told { OnOk result (AddsEntry (all_of referrer.now)
        (entry_of referrer.now.number (referring referrer.now) rela number entry.now)
        (told_by flaws.old.items (T.rows names.old))
        (told_by flaws.new.items (T.rows names.new))) }
    ensures seen { OnOk result (AreSeen (referring referrer.now) seen.new.items
        (told_by flaws.new.items (T.rows names.new))) }
{
    if !is_some_kind(entry) {
        return Ok(());
    }
    let target = referrer.relocated(u64::from(rela.target));
    let Err(fault) = lawful_kind(referrer, target, entry) else {
        return Ok(());
    };
    let at = EntryNumber {
        table: u64::from(rela.number),
        number: number as u64,
    };
    let flaw = ReferenceFlaw::Relocation(referrer.number as u64, at, fault, 0);
    match fault {
        RelocationFault::Undefined => {
            let symbol = entry.symbol() as usize;
            add_undefined(flaws, names, seen, referrer.loaded, symbol, flaw)?;
        }
        _ => flaws.push(flaw)?,
    }
    Ok(())
}

/// Adds the entries of a kept RELA section that aren't lawful.
fn add_entries<'a, T: NameTable<'a>>(
    flaws: &mut Vec<ReferenceFlaw>,
    names: &mut T,
    seen: &mut Vec<Option<usize>>,
    referrer: &Referrer<'_, '_, 'a>,
    rela: KeptRela,
) -> Added
    requires known { IsReferrer referrer.now }
    requires kept { IsKeptRela (referring referrer.now) rela }
    requires seen { AreSeen (referring referrer.now) seen.old.items
        (told_by flaws.old.items (T.rows names.old)) }
    ensures told { OnOk result (AreAdded (AddsEntry (all_of referrer.now))
        (entries_in referrer.now.number (referring referrer.now) rela 0
        (rela_entries (referring referrer.now) rela))
        (told_by flaws.old.items (T.rows names.old))
        (told_by flaws.new.items (T.rows names.new))) }
    ensures seen { OnOk result (AreSeen (referring referrer.now) seen.new.items
        (told_by flaws.new.items (T.rows names.new))) }
{
    let run = referrer.loaded.all_entries(rela);
    for number in 0..run.len() {
        let entry = run.at(number);
        add_entry(flaws, names, seen, referrer, rela, number, &entry)?;
    }
    Ok(())
}

/// Adds the relocations of an object that aren't lawful.
fn add_relas<'a, T: NameTable<'a>>(
    flaws: &mut Vec<ReferenceFlaw>,
    names: &mut T,
    seen: &mut Vec<Option<usize>>,
    referrer: &Referrer<'_, '_, 'a>,
) -> Added
    requires known { IsReferrer referrer.now }
    requires seen { AreSeen (referring referrer.now) seen.old.items
        (told_by flaws.old.items (T.rows names.old)) }
    ensures { OnOk result (AreAdded (AddsEntry (all_of referrer.now))
        (entries_of_relas referrer.now.number (referring referrer.now)
        (kept_relas (referring referrer.now)))
        (told_by flaws.old.items (T.rows names.old))
        (told_by flaws.new.items (T.rows names.new))) }
{
    let relas = referrer.loaded.kept_relas();
    for rela in relas {
        add_entries(flaws, names, seen, referrer, *rela)?;
    }
    Ok(())
}

/// Adds the relocations of object `k` that aren't lawful.
fn add_object<'a, T: NameTable<'a>>(
    alloc: Global,
    flaws: &mut Vec<ReferenceFlaw>,
    names: &mut T,
    resolved: &Resolved<'a>,
    mixed: &BTreeSet<&'a [u8]>,
    k: usize,
    one: &LoadedObject<'a>,
) -> Added
    requires here { IsObjectAt resolved.now k (loaded_view one.now) }
    requires mixed { AreMixed resolved.now mixed.now }
    ensures { OnOk result (AreAdded (AddsEntry resolved.now)
        (entries_of_relas k (loaded_view one.now) (kept_relas (loaded_view one.now)))
        (told_by flaws.old.items (T.rows names.old))
        (told_by flaws.new.items (T.rows names.new))) }
{
    let referrer = Referrer::new(alloc, resolved, mixed, k, one)?;
    let mut seen = vec![in alloc; None; one.object.symbols().len()]?;
    add_relas(flaws, names, &mut seen, &referrer)
}

/// Adds the kept relocations of all objects that aren't lawful; of those that name one undefined symbol's name the first.
pub(crate) fn add_all_relocations<'a, T: NameTable<'a>>(
    alloc: Global,
    flaws: &mut Vec<ReferenceFlaw>,
    names: &mut T,
    resolved: &Resolved<'a>,
    mixed: &BTreeSet<&'a [u8]>,
    objects: &[LoadedObject<'a>],
) -> Added
    requires same { resolved.now ≡ loaded_views objects.now }
    requires mixed { AreMixed resolved.now mixed.now }
    ensures { OnOk result (AreAdded (AddsEntry resolved.now) (entries (loaded_views objects.now))
        (told_by flaws.old.items (T.rows names.old))
        (told_by flaws.new.items (T.rows names.new))) }
{
    for k in 0..objects.len() {
        add_object(alloc, flaws, names, resolved, mixed, k, &objects[k])?;
    }
    Ok(())
}

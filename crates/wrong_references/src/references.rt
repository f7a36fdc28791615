//! The flaws of the phase of references.
ghost use Rattle.std.specs.Prelude.{◌≡◌, All, IfOk, OnOk, length};
ghost use Rattle.wrong_references.specs.References.{AddsLostEntry, AreReferable, AreReferenceFlaws, IsFlaw};

use crate::flaw::{Added, ReferenceFlaw};
use crate::overlaps::add_all_overlaps;
use crate::relocation_flaws::add_all_relocations;
use layout::mixed_names;
use resolve::Resolved;
use search::Loaded;
use std::alloc::{AllocError, Global};
use symbols::IndexedTable;

/// Adds the entry, where it has no definition outside thread-local storage.
fn add_entry<'a>(
    flaws: &mut Vec<ReferenceFlaw>,
    loaded: &Loaded<'a>,
    resolved: &Resolved<'a>,
) -> Added
    requires { resolved.now ≡ loaded.now.objects }
    ensures { OnOk result (AddsLostEntry loaded.now.objects loaded.now.plan.entry
        flaws.old.items flaws.new.items) }
{
    let None = resolved.entry(loaded.plan().entry.as_bytes()) else {
        return Ok(());
    };
    flaws.push(ReferenceFlaw::Entry)?;
    Ok(())
}

/// What is wrong with the references of what is loaded, whose names are resolved: the kept relocations that aren't lawful, in load
/// order, of those to one undefined name the first with the number of the others; then the entry; then, object by object, the
/// fields that share a byte with one before them, each with such a one. There are none exactly where the phase of references
/// refuses nothing. Names are found by hash, from the seed of what is loaded.
///
/// # Errors
///
/// Only where memory is refused.
pub fn reference_flaws<'a>(
    alloc: Global,
    loaded: &Loaded<'a>,
    resolved: &Resolved<'a>,
) -> Result<Vec<ReferenceFlaw>, AllocError>
    requires { resolved.now ≡ loaded.now.objects }
    ensures all { IfOk result (λ flaws.
        AreReferenceFlaws loaded.now.objects loaded.now.plan.entry flaws.items) }
    ensures each { IfOk result (λ flaws. All (IsFlaw loaded.now) flaws.items) }
    ensures none { IfOk result (λ flaws.
        length flaws.items ≡ 0 → AreReferable loaded.now.objects loaded.now.plan.entry) }
{
    let mixed = mixed_names(alloc, resolved)?;
    let mut flaws = Vec::new(alloc);
    let mut names = IndexedTable::with_hasher(alloc, loaded.name_seed());
    add_all_relocations(
        alloc,
        &mut flaws,
        &mut names,
        resolved,
        &mixed,
        loaded.objects(),
    )?;
    add_entry(&mut flaws, loaded, resolved)?;
    add_all_overlaps(alloc, &mut flaws, loaded.objects())?;
    Ok(flaws)
}

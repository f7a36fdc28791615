//! Whether the kept relocations of all objects are lawful.
ghost use Rattle.std.specs.Prelude.{◌≡◌, All, IfErr, IfOk, OnOk};
ghost use Rattle.elf_model.specs.Link.Relocation.{AreLawfulRelocations, IsLawfulRelocation, relocation_of, relocations, relocations_from};
ghost use Rattle.elf_model.specs.Link.Slots as wanted;
ghost use Rattle.got_tls.specs.Asking.{nothing, with_relocation, with_relocations};
ghost use Rattle.got_tls.specs.AskedViews.{wants};
ghost use Rattle.layout.specs.Mixed.{AreMixed};
ghost use Rattle.relocate.specs.Fields.{run_after};
ghost use Rattle.relocate.specs.References.{AreLawful, IsObjectAt, ReferencesFail, RelocationsFail};
ghost use Rattle.relocate.specs.SymbolTables.{IsReferrer, all_of, referring};
ghost use Rattle.search.specs.KeptLists.{IsKeptRela, relocations_by};
ghost use Rattle.search.specs.Views.{loaded_view, loaded_views};

use crate::faults::RelocFault;
use crate::field_list::list_fields;
use crate::field_run::FieldRun;
use crate::fields::{Field, are_apart};
use crate::lawful_fields::lawful_field;
use crate::referrer::Referrer;
use elf_model::Rela;
use got_tls::{Asked, Slots, add_entry, slots_asked};
use layout::mixed_names;
use resolve::Resolved;
use search::{KeptRela, Loaded, LoadedObject};
use std::alloc::{AllocError, Global};
use std::collections::BTreeSet;

/// Judges the kept relocations of all that is loaded.
///
/// # Errors
///
/// RelocKind, Undefined, RefToDropped, TlsMismatch, FieldOutside and MixedSection where one of them isn't lawful,
/// OverlappingFields where a byte lies in the fields of two, Memory where memory is refused.
pub fn references<'a>(
    alloc: Global,
    loaded: &Loaded<'a>,
    resolved: &Resolved<'a>,
) -> Result<(), RelocFault>
    requires { resolved.now ≡ loaded.now.objects }
    ensures lawful { OnOk result (AreLawfulRelocations loaded.now.objects) }
    ensures fault { IfErr result (ReferencesFail loaded.now.objects) }
{
    let _asked = judge_objects(alloc, loaded, loaded.objects(), resolved)?;
    Ok(())
}

/// Judges the kept relocations of all that is loaded, as `references`, and tells in the same walk over them what they ask
/// of the GOT, as `got_tls::slots`.
///
/// # Errors
///
/// As `references`.
pub fn referred_slots<'a>(
    alloc: Global,
    loaded: &Loaded<'a>,
    resolved: &Resolved<'a>,
) -> Result<Slots<'a>, RelocFault>
    requires { resolved.now ≡ loaded.now.objects }
    ensures objects { IfOk result (λ s. s.objects ≡ loaded.now.objects) }
    ensures slots { IfOk result (λ s. s.slots ≡ wanted.slots loaded.now.objects) }
    ensures size { IfOk result (λ s. s.got ≡ wanted.got_size loaded.now.objects) }
    ensures lawful { OnOk result (AreLawfulRelocations loaded.now.objects) }
    ensures fault { IfErr result (ReferencesFail loaded.now.objects) }
{
    let asked = judge_objects(alloc, loaded, loaded.objects(), resolved)?;
    let slots = slots_asked(loaded, asked)?;
    Ok(slots)
}

/// Judges the relocations of all objects, and tells what they ask of the GOT.
fn judge_objects<'a>(
    alloc: Global,
    loaded: &Loaded<'a>,
    objects: &[LoadedObject<'a>],
    resolved: &Resolved<'a>,
) -> Result<Asked<'a>, RelocFault>
    requires all { loaded.now.objects ≡ loaded_views objects.now }
    requires resolved { resolved.now ≡ loaded_views objects.now }
    ensures asked { IfOk result (λ a. wants a
        ≡ with_relocations (loaded_views objects.now) (nothing (loaded_views objects.now))
        (relocations (loaded_views objects.now))) }
    ensures lawful { OnOk result (AreLawfulRelocations (loaded_views objects.now)) }
    ensures fault { IfErr result (ReferencesFail (loaded_views objects.now)) }
{
    let mixed = mixed_names(alloc, resolved)?;
    let mut fields = Vec::new(alloc);
    let mut asked = Asked::nothing(alloc, loaded)?;
    for k in 0..objects.len() {
        judge_object(
            alloc,
            resolved,
            &mixed,
            k,
            &objects[k],
            &mut fields,
            &mut asked,
        )?;
    }
    Ok(asked)
}

/// Judges the relocations of object `number`, and tells what they ask of the GOT. A field of it meets none of another
/// object's. The room of `fields` is used for its fields.
fn judge_object<'a>(
    alloc: Global,
    resolved: &Resolved<'a>,
    mixed: &BTreeSet<&[u8]>,
    number: usize,
    loaded: &LoadedObject<'a>,
    fields: &mut Vec<Field>,
    asked: &mut Asked<'a>,
) -> Result<(), RelocFault>
    requires here { IsObjectAt resolved.now number (loaded_view loaded.now) }
    requires mixed { AreMixed resolved.now mixed.now }
    requires same { asked.old.listed.objects ≡ resolved.now }
    ensures asked { OnOk result (wants asked.new
        ≡ with_relocations resolved.now (wants asked.old)
        (relocations_from number (loaded_view loaded.now))) }
    ensures lawful { OnOk result (AreLawful resolved.now
        (relocations_from number (loaded_view loaded.now))) }
    ensures fault { IfErr result (RelocationsFail resolved.now
        (relocations_from number (loaded_view loaded.now))) }
{
    let referrer = Referrer::new(alloc, resolved, mixed, number, loaded)?;
    judge_referrer(alloc, &referrer, fields, asked)
}

/// Judges the relocations of an object, and tells what they ask of the GOT. The fields mostly come in order, and then aren't
/// listed.
fn judge_referrer<'a>(
    alloc: Global,
    referrer: &Referrer<'_, '_, 'a>,
    fields: &mut Vec<Field>,
    asked: &mut Asked<'a>,
) -> Result<(), RelocFault>
    requires known { IsReferrer referrer.now }
    requires same { asked.old.listed.objects ≡ all_of referrer.now }
    ensures asked { OnOk result (wants asked.new
        ≡ with_relocations (all_of referrer.now) (wants asked.old)
        (relocations_from referrer.now.number (referring referrer.now))) }
    ensures lawful { OnOk result (AreLawful (all_of referrer.now)
        (relocations_from referrer.now.number (referring referrer.now))) }
    ensures fault { IfErr result (RelocationsFail (all_of referrer.now)
        (relocations_from referrer.now.number (referring referrer.now))) }
{
    let mut run = FieldRun::start();
    judge_fields(alloc, referrer, &mut run, asked)?;
    if run.rises {
        return Ok(());
    }
    list_fields(referrer, fields)?;
    if !are_apart(fields)? {
        return Err(RelocFault::OverlappingFields);
    }
    Ok(())
}

/// Judges the relocations of an object one by one, and tells what they ask of the GOT, and whether their fields rise.
fn judge_fields<'a>(
    alloc: Global,
    referrer: &Referrer<'_, '_, 'a>,
    run: &mut FieldRun,
    asked: &mut Asked<'a>,
) -> Result<(), RelocFault>
    requires known { IsReferrer referrer.now }
    requires same { asked.old.listed.objects ≡ all_of referrer.now }
    ensures asked { OnOk result (wants asked.new
        ≡ with_relocations (all_of referrer.now) (wants asked.old)
        (relocations_from referrer.now.number (referring referrer.now))) }
    ensures run { OnOk result (run.new
        ≡ run_after run.old (relocations_from referrer.now.number (referring referrer.now))) }
    ensures lawful { OnOk result (All (IsLawfulRelocation (all_of referrer.now))
        (relocations_from referrer.now.number (referring referrer.now))) }
    ensures fault { IfErr result (RelocationsFail (all_of referrer.now)
        (relocations_from referrer.now.number (referring referrer.now))) }
{
    let relas = referrer.loaded.kept_relas();
    for rela in relas {
        judge_section(alloc, referrer, *rela, run, asked)?;
    }
    Ok(())
}

/// Judges the entries of a kept RELA section one by one, and tells the same of them.
fn judge_section<'a>(
    alloc: Global,
    referrer: &Referrer<'_, '_, 'a>,
    rela: KeptRela,
    run: &mut FieldRun,
    asked: &mut Asked<'a>,
) -> Result<(), RelocFault>
    requires known { IsReferrer referrer.now }
    requires kept { IsKeptRela (referring referrer.now) rela }
    requires same { asked.old.listed.objects ≡ all_of referrer.now }
    ensures asked { OnOk result (wants asked.new
        ≡ with_relocations (all_of referrer.now) (wants asked.old)
        (relocations_by referrer.now.number (referring referrer.now) rela)) }
    ensures run { OnOk result (run.new
        ≡ run_after run.old (relocations_by referrer.now.number (referring referrer.now) rela)) }
    ensures lawful { OnOk result (All (IsLawfulRelocation (all_of referrer.now))
        (relocations_by referrer.now.number (referring referrer.now) rela)) }
    ensures fault { IfErr result (RelocationsFail (all_of referrer.now)
        (relocations_by referrer.now.number (referring referrer.now) rela)) }
{
    let target = referrer.relocated(rela.target as u64);
    for entry in referrer.loaded.kept_entries(rela) {
        let field = lawful_field(alloc, referrer, target, &entry)?;
        *run = run.with(field);
        note_request(asked, referrer, target.number, &entry)?;
    }
    Ok(())
}

/// Takes in what an entry of an object, which relocates the section `target`, asks of the GOT.
fn note_request<'a>(
    asked: &mut Asked<'a>,
    referrer: &Referrer<'_, '_, 'a>,
    target: u64,
    entry: &Rela,
) -> Result<(), AllocError>
    requires known { IsReferrer referrer.now }
    requires same { asked.old.listed.objects ≡ all_of referrer.now }
    ensures { OnOk result (wants asked.new
        ≡ with_relocation (all_of referrer.now) (wants asked.old)
        (relocation_of referrer.now.number (referring referrer.now) target entry.now)) }
{
    add_entry(asked, &referrer.asker, target, entry)
}

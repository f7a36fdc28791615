//! What is asked of one relocation: a known kind, a lawful symbol, a kind for what that symbol is, a field
//! inside its section, and no bound of several output sections.
ghost use Rattle.std.specs.Prelude.{◌≡◌, ◌↔◌, ◌+◌, ◌≤◌, ℕ, IsTrue, List, IfErr, IfOk, OnOk, Some};
ghost use Rattle.elf_model.specs.Link.Loading as loading;
ghost use Rattle.elf_model.specs.Link.Relocation as relocation;
ghost use Rattle.elf_model.specs.Link.Relocation.{IsLawfulRelocation, relocation_kind, relocation_of};
ghost use Rattle.relocate.specs.Fields.{field_of};
ghost use Rattle.reloc_values.specs.Kinds.{kind_view};
ghost use Rattle.relocate.specs.References.{IsUnlawful, RelocationFails};
ghost use Rattle.relocate.specs.SymbolTables.{IsReferrer, IsRelocated, all_of, referring};

use crate::faults::{RelocFault, RelocationFault};
use crate::fields::Field;
use crate::referrer::{Referrer, Relocated};
use crate::targets::undefined;
use elf_model::Rela;
use reloc_values::{Kind, is_mismatch};
use std::alloc::Global;

/// Whether the field of an entry of a kind lies inside the section that it relocates.
fn is_inside(target: Relocated, kind: Kind, entry: &Rela) -> bool
    ensures { IsTrue result ↔ (entry.now.r_offset + kind.width ≤ target.size) }
{
    let width = kind.width as u64;
    entry.r_offset <= target.size && width <= target.size - entry.r_offset
}

/// The field of an entry of a kind, which lies inside the section that it relocates.
fn field_of(target: Relocated, kind: Kind, entry: &Rela) -> Field
    requires { entry.now.r_offset + kind.width ≤ target.size }
    ensures section { result.section ≡ target.number }
    ensures start { result.start ≡ entry.now.r_offset }
    ensures end { result.end ≡ entry.now.r_offset + kind.width }
{
    Field {
        section: target.number,
        start: entry.r_offset,
        end: entry.r_offset + kind.width as u64,
    }
}

/// The kind of a lawful entry that relocates a section of an object; else what is wrong with it.
pub fn lawful_kind(
    referrer: &Referrer<'_, '_, '_>,
    target: Relocated,
    entry: &Rela,
) -> Result<Kind, RelocationFault>
    requires known { IsReferrer referrer.now }
    requires target { IsRelocated (referring referrer.now) target }
    ensures kind { IfOk result (λ k.
        relocation_kind
        (relocation_of referrer.now.number (referring referrer.now) target.number entry.now)
        ≡ Some (kind_view k)) }
    ensures lawful { OnOk result (IsLawfulRelocation (all_of referrer.now)
        (relocation_of referrer.now.number (referring referrer.now) target.number entry.now)) }
    ensures fault { IfErr result (IsUnlawful (all_of referrer.now)
        (relocation_of referrer.now.number (referring referrer.now) target.number entry.now)) }
{
    let Some(kind) = Kind::of(entry.kind()) else {
        return Err(RelocationFault::RelocKind);
    };
    let reference = referrer.reference(entry.symbol() as usize);
    if reference.undefined {
        return Err(RelocationFault::Undefined);
    }
    if reference.unkept && !(reference.dropped && referrer.holds_frames(target.number)) {
        return Err(RelocationFault::RefToDropped);
    }
    if is_mismatch(kind.formula, reference.thread_local) {
        return Err(RelocationFault::TlsMismatch);
    }
    if reference.mixed {
        return Err(RelocationFault::MixedSection);
    }
    if !is_inside(target, kind, entry) {
        return Err(RelocationFault::FieldOutside);
    }
    Ok(kind)
}

/// What is wrong with a relocation, as a refusal, which owns the name of its symbol where that is undefined.
fn refusal(alloc: Global, fault: RelocationFault, name: &[u8]) -> RelocFault
    ensures { (objects : List loading.LoadedObject) (r : relocation.Relocation) →
        IsUnlawful objects r fault → r.symbol.name ≡ name.now → RelocationFails objects r result }
{
    match fault {
        RelocationFault::Undefined => undefined(alloc, name),
        RelocationFault::RefToDropped => RelocFault::RefToDropped,
        RelocationFault::RelocKind => RelocFault::RelocKind,
        RelocationFault::FieldOutside => RelocFault::FieldOutside,
        RelocationFault::TlsMismatch => RelocFault::TlsMismatch,
        RelocationFault::MixedSection => RelocFault::MixedSection,
    }
}

/// The field of a lawful entry that relocates a section of an object.
pub fn lawful_field(
    alloc: Global,
    referrer: &Referrer<'_, '_, '_>,
    target: Relocated,
    entry: &Rela,
) -> Result<Field, RelocFault>
    requires known { IsReferrer referrer.now }
    requires target { IsRelocated (referring referrer.now) target }
    ensures field { IfOk result (λ f. f
        ≡ field_of (relocation_of referrer.now.number
        (referring referrer.now) target.number entry.now)) }
    ensures lawful { OnOk result (IsLawfulRelocation (all_of referrer.now)
        (relocation_of referrer.now.number (referring referrer.now) target.number entry.now)) }
    ensures fault { IfErr result (RelocationFails (all_of referrer.now)
        (relocation_of referrer.now.number (referring referrer.now) target.number entry.now)) }
{
    match lawful_kind(referrer, target, entry) {
        Ok(kind) => Ok(field_of(target, kind, entry)),
        Err(fault) => {
            let symbol = entry.symbol() as usize;
            Err(refusal(alloc, fault, referrer.loaded.object.symbol_name(symbol)))
        }
    }
}

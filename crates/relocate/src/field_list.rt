//! The fields of an object's lawful relocations as a list, where they don't come in order.
ghost use Rattle.std.specs.Prelude.{◌≡◌, ◌++◌, All, OnOk, map};
ghost use Rattle.elf_model.specs.Link.Relocation.{IsLawfulRelocation, relocation_of, relocations_from};
ghost use Rattle.relocate.specs.Fields.{field_of};
ghost use Rattle.relocate.specs.SymbolTables.{IsRelocated, all_of, referring};
ghost use Rattle.search.specs.KeptLists.{IsKeptRela, relocations_by};

use crate::fields::Field;
use crate::referrer::{Referrer, Relocated};
use elf_model::Rela;
use reloc_values::Kind;
use search::KeptRela;
use std::alloc::AllocError;

/// Lists the fields of an object's relocations, each of which is lawful, in place of others.
pub fn list_fields(
    referrer: &Referrer<'_, '_, '_>,
    fields: &mut Vec<Field>,
) -> Result<(), AllocError>
    requires { All (IsLawfulRelocation (all_of referrer.now))
        (relocations_from referrer.now.number (referring referrer.now)) }
    ensures { OnOk result (fields.new.items
        ≡ map field_of (relocations_from referrer.now.number (referring referrer.now))) }
{
    fields.clear();
    let relas = referrer.loaded.kept_relas();
    for rela in relas {
        add_section(referrer, *rela, fields)?;
    }
    Ok(())
}

/// Adds the fields of a kept RELA section.
fn add_section(
    referrer: &Referrer<'_, '_, '_>,
    rela: KeptRela,
    fields: &mut Vec<Field>,
) -> Result<(), AllocError>
    requires kept { IsKeptRela (referring referrer.now) rela }
    requires lawful { All (IsLawfulRelocation (all_of referrer.now))
        (relocations_by referrer.now.number (referring referrer.now) rela) }
    ensures { OnOk result (fields.new.items
        ≡ fields.old.items
        ++ map field_of (relocations_by referrer.now.number (referring referrer.now) rela)) }
{
    let target = referrer.relocated(rela.target as u64);
    fields.reserve(referrer.loaded.all_entries(rela).len())?;
    for entry in referrer.loaded.kept_entries(rela) {
        fields.push(field_in(referrer, target, &entry))?;
    }
    Ok(())
}

/// The field of a lawful entry that relocates a section.
fn field_in(_referrer: &Referrer<'_, '_, '_>, target: Relocated, entry: &Rela) -> Field
    requires target { IsRelocated (referring _referrer.now) target }
    requires lawful { IsLawfulRelocation (all_of _referrer.now)
        (relocation_of _referrer.now.number (referring _referrer.now) target.number entry.now) }
    ensures { result ≡ field_of
        (relocation_of _referrer.now.number (referring _referrer.now) target.number entry.now) }
{
    let width = match Kind::of(entry.kind()) {
        Some(kind) => kind.width as u64,
        None => 0,
    };
    Field {
        section: target.number,
        start: entry.r_offset,
        end: entry.r_offset + width,
    }
}

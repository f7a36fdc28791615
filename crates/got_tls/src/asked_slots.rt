//! What the kept relocations of loaded objects ask of the GOT, in load order.
ghost use Rattle.std.specs.Prelude.{◌≡◌, IfOk, OnOk, Some};
ghost use Rattle.std.specs.List.{slice_get};
ghost use Rattle.elf_model.specs.Link.Relocation.{relocation_of, relocations, relocations_from};
ghost use Rattle.search.specs.KeptLists.{IsKeptRela, relocations_by};
ghost use Rattle.search.specs.Views.{loaded_view};
ghost use Rattle.got_tls.specs.Askers.{IsAsker, all_asked, asking};
ghost use Rattle.got_tls.specs.Asking.{nothing, with_relocation, with_relocations};
ghost use Rattle.got_tls.specs.AskedViews.{wants};

use crate::requests::Asker;
use crate::slot_index::SlotIndex;
use elf_model::Rela;
use reloc_values::asked_slot;
use resolve::Resolved;
use search::{KeptRela, Loaded, LoadedObject};
use std::alloc::{AllocError, Global};

/// What was asked for: whether a GOT, and its slots.
#[derive(Drop)]
pub struct Asked<'a> {
    pub got: bool,
    pub listed: SlotIndex<'a>,
}

impl<'a> Asked<'a> {
    /// Nothing yet, of what is loaded.
    ///
    /// # Errors
    ///
    /// Only where memory is refused.
    pub fn nothing(alloc: Global, loaded: &Loaded<'a>) -> Result<Asked<'a>, AllocError>
        ensures { IfOk result (λ a. wants a ≡ nothing loaded.now.objects) }
    {
        Ok(Asked {
            got: false,
            listed: SlotIndex::new(alloc, loaded)?,
        })
    }
}

/// Takes in what an entry asks for, which relocates the section `target`.
pub fn add_entry<'a>(
    asked: &mut Asked<'a>,
    asker: &Asker<'_, 'a>,
    target: u64,
    entry: &Rela,
) -> Result<(), AllocError>
    requires asker { IsAsker asker.now }
    requires same { asked.old.listed.objects ≡ all_asked asker.now }
    ensures { OnOk result (wants asked.new
        ≡ with_relocation (all_asked asker.now) (wants asked.old)
        (relocation_of asker.now.number (asking asker.now) target entry.now)) }
{
    asked.got = asked.got || asker.asks_for_got(target, entry);
    if let Some(kind) = asked_slot(entry.kind()) {
        asked.listed.add(kind, asker.symbol(entry), asker.loaded)?;
    }
    Ok(())
}

/// Takes in what the entries of a kept RELA section ask for.
fn add_section<'a>(
    asked: &mut Asked<'a>,
    asker: &Asker<'_, 'a>,
    rela: KeptRela,
) -> Result<(), AllocError>
    requires asker { IsAsker asker.now }
    requires same { asked.old.listed.objects ≡ all_asked asker.now }
    requires kept { IsKeptRela (asking asker.now) rela }
    ensures { OnOk result (wants asked.new
        ≡ with_relocations (all_asked asker.now) (wants asked.old)
        (relocations_by asker.now.number (asking asker.now) rela)) }
{
    for entry in asker.loaded.kept_entries(rela) {
        add_entry(asked, asker, rela.target as u64, &entry)?;
    }
    Ok(())
}

/// Takes in what the kept relocations of an object ask for.
fn add_relocations<'a>(asked: &mut Asked<'a>, asker: &Asker<'_, 'a>) -> Result<(), AllocError>
    requires asker { IsAsker asker.now }
    requires same { asked.old.listed.objects ≡ all_asked asker.now }
    ensures { OnOk result (wants asked.new
        ≡ with_relocations (all_asked asker.now) (wants asked.old)
        (relocations_from asker.now.number (asking asker.now))) }
{
    let relas = asker.loaded.kept_relas();
    for rela in relas {
        add_section(asked, asker, *rela)?;
    }
    Ok(())
}

/// Takes in what the kept relocations of object `number` ask for.
fn add_object<'a>(
    asked: &mut Asked<'a>,
    resolved: &Resolved<'a>,
    number: usize,
    loaded: &LoadedObject<'a>,
) -> Result<(), AllocError>
    requires here { slice_get resolved.now number ≡ Some (loaded_view loaded.now) }
    requires same { asked.old.listed.objects ≡ resolved.now }
    ensures { OnOk result (wants asked.new
        ≡ with_relocations resolved.now (wants asked.old)
        (relocations_from number (loaded_view loaded.now))) }
{
    let asker = Asker::new(resolved, number, loaded);
    add_relocations(asked, &asker)
}

/// What the kept relocations of all that is loaded ask for.
pub fn asked_by<'a>(
    alloc: Global,
    loaded: &Loaded<'a>,
    resolved: &Resolved<'a>,
) -> Result<Asked<'a>, AllocError>
    requires { resolved.now ≡ loaded.now.objects }
    ensures { IfOk result (λ a. wants a
        ≡ with_relocations loaded.now.objects (nothing loaded.now.objects)
        (relocations loaded.now.objects)) }
{
    let objects = loaded.objects();
    let mut asked = Asked::nothing(alloc, loaded)?;
    for k in 0..objects.len() {
        add_object(&mut asked, resolved, k, &objects[k])?;
    }
    Ok(asked)
}

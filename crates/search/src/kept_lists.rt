//! What is kept of an object, listed once when it is loaded: its sections, and the RELA sections of these.
ghost use Rattle.std.specs.Prelude.{◌≡◌, ◌++◌, IfOk, OnOk, []};
ghost use Rattle.elf_model.specs.Link.Pieces.{is_kept};
ghost use Rattle.elf_model.specs.Link.Relocation.{is_kept_rela};
ghost use Rattle.search.specs.KeptLists.{kept_at, kept_in, object_of, rela_at, relas_in};

use comdat::Dropped;
use elf_model::{SHT_RELA, SectionHeader};
use elf_read::ObjectFile;
use std::alloc::{AllocError, Global};

/// A kept RELA section of an object: the number of the section that it relocates, and its own.
#[derive(Clone, Copy, Debug)]
pub struct KeptRela {
    pub target: u32,
    pub number: u32,
}

/// The numbers of the kept sections, ascending, and the kept RELA sections, by their numbers.
#[derive(Drop)]
pub struct KeptLists {
    pub sections: Vec<u32>,
    pub relas: Vec<KeptRela>,
}

/// Whether section `number` of an object that loses these sections, which has the header, is kept.
pub fn is_kept(dropped: &Dropped, number: usize, header: &SectionHeader) -> bool
    ensures { result ≡ is_kept (object_of [] dropped.now) number header.now }
{
    header.is_alloc() && !dropped.has(number)
}

/// Whether section `number` of an object that loses these sections, which has the header, is a RELA section that isn't
/// dropped and relocates a kept one.
pub fn is_kept_rela(
    object: &ObjectFile<'_>,
    dropped: &Dropped,
    number: usize,
    header: &SectionHeader,
) -> bool
    ensures { result ≡ is_kept_rela (object_of object.now dropped.now) number header.now }
{
    let target = header.sh_info as usize;
    header.sh_type == SHT_RELA
        && !dropped.has(number)
        && is_kept(dropped, target, &object.section(target))
}

/// Adds section `number` of an object, which has the header, where it is kept.
fn add_section(
    lists: &mut KeptLists,
    object: &ObjectFile<'_>,
    dropped: &Dropped,
    number: u32,
    header: &SectionHeader,
) -> Result<(), AllocError>
    ensures sections { OnOk result (lists.new.sections.items
        ≡ lists.old.sections.items ++ kept_at dropped.now number header.now) }
    ensures relas { OnOk result (lists.new.relas.items
        ≡ lists.old.relas.items ++ rela_at object.now dropped.now number header.now) }
{
    if is_kept(dropped, number as usize, header) {
        lists.sections.push(number)?;
    }
    if is_kept_rela(object, dropped, number as usize, header) {
        lists.relas.push(KeptRela {
            target: header.sh_info,
            number,
        })?;
    }
    Ok(())
}

/// What is kept of an object that loses these sections.
pub fn kept_lists(
    alloc: Global,
    object: &ObjectFile<'_>,
    dropped: &Dropped,
) -> Result<KeptLists, AllocError>
    ensures sections { IfOk result (λ l. l.sections.items ≡ kept_in object.now dropped.now) }
    ensures relas { IfOk result (λ l. l.relas.items ≡ relas_in object.now dropped.now) }
{
    let _bytes = object.bytes();
    let headers = object.sections();
    let mut lists = KeptLists {
        sections: Vec::new(alloc),
        relas: Vec::new(alloc),
    };
    for i in 0..headers.len() {
        let header = headers.at(i);
        add_section(&mut lists, object, dropped, i as u32, &header)?;
    }
    Ok(lists)
}

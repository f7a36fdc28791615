//! What a member of an archive has to do with a name, by its symbols and by what is loaded.
ghost use Rattle.std.specs.Prelude.{◌≡◌, ◌↔◌, ◌==◌, ◌&&◌, IfOk, IfSome, IsTrue, IsSome, [], true};
ghost use Rattle.std.specs.List.{list_any};
ghost use Rattle.elf_model.specs.Inputs.ObjectFile.{IsObject};
ghost use Rattle.elf_model.specs.Inputs.Opening.{archive_data};
ghost use Rattle.elf_model.specs.Link.Loading.{is_taken};
ghost use Rattle.search.specs.Views.{loaded_views};
ghost use Rattle.archive_notes.specs.ArchiveNotes.{Defines, IsDefinitionAt, IsFact, IsSlimAt, Stands};
ghost use Rattle.archive_notes.specs.ArchiveNotes as notes;
ghost use Rattle.archive_notes.specs.declared.note.ArchiveFact.TheVariants as fact;

use crate::note::ArchiveFact;
use byteview::View;
use elf_model::{ObjFault, STB_GLOBAL, STB_WEAK, Symbol};
use elf_read::ObjectFile;
use opening::Input;
use search::LoadedObject;
use std::alloc::{AllocError, Global};

/// The symbol of an object that gcc makes by -flto without -ffat-lto-objects.
const SLIM: &[u8] = b"__gnu_lto_slim";

/// Whether a symbol defines its name for other objects, in a section that may be dropped.
fn is_definition(symbol: &Symbol) -> bool
    ensures { result ≡ notes.defines symbol.now }
{
    let binding = symbol.binding();
    (binding == STB_GLOBAL || binding == STB_WEAK) && !symbol.is_undefined()
}

/// Whether symbol `j` of an object defines a name for other objects.
fn is_definition_at(object: &ObjectFile<'_>, name: &[u8], j: usize) -> bool
    ensures { IsTrue result ↔ IsDefinitionAt object.now name.now j }
{
    let Some(symbol) = object.symbols().get(j) else {
        return false;
    };
    if !is_definition(&symbol) {
        return false;
    }
    object.symbol_name(j) == name
}

/// Whether an object defines a name for other objects.
fn defines(object: &ObjectFile<'_>, name: &[u8]) -> bool
    ensures { IsTrue result ↔ Defines object.now name.now }
{
    for j in 0..object.symbols().len() {
        if is_definition_at(object, name, j) {
            return true;
        }
    }
    false
}

/// Whether symbol `j` of an object says that the object has no code of its own.
fn is_slim_at(object: &ObjectFile<'_>, j: usize) -> bool
    ensures { IsTrue result ↔ IsSlimAt object.now j }
{
    let Some(_symbol) = object.symbols().get(j) else {
        return false;
    };
    object.symbol_name(j) == SLIM
}

/// Whether a symbol of an object says so.
fn is_slim(object: &ObjectFile<'_>) -> bool
    ensures { IsTrue result → Stands true object.now [] fact.Slim }
{
    for j in 0..object.symbols().len() {
        if is_slim_at(object, j) {
            return true;
        }
    }
    false
}

/// Whether one of some objects is the member of an item whose header is at an offset.
fn has_member(objects: &[LoadedObject<'_>], item: u64, offset: u64) -> bool
    ensures { result ≡ list_any (λ o. o.item == item && o.offset == offset) objects.now }
{
    objects
        .iter()
        .any(|object| object.item == item && object.offset == offset)
}

/// Whether the member of an item whose header is at an offset is loaded.
#[tactic(auto, using(crate::proofs::Taken::any_of_views), unfolding(elf_model::specs::Link::Loading::is_taken))]
fn is_taken(objects: &[LoadedObject<'_>], item: u64, offset: u64) -> bool
    ensures { result ≡ is_taken (loaded_views objects.now) item offset }
{
    has_member(objects, item, offset)
}

/// What an object has to do with a name, given whether it is loaded.
fn fact_of_object(object: &ObjectFile<'_>, name: &[u8], taken: bool) -> ArchiveFact
    ensures { Stands taken object.now name.now result }
{
    if is_slim(object) {
        return ArchiveFact::Slim;
    }
    if !defines(object, name) {
        return ArchiveFact::Stale;
    }
    if taken {
        return ArchiveFact::Dropped;
    }
    ArchiveFact::Passed
}

/// What the member of an archive whose header is at an offset has to do with a name; None where it is no object.
///
/// # Errors
///
/// Only where memory is refused.
pub fn fact_of_member<'a>(
    alloc: Global,
    objects: &[LoadedObject<'a>],
    archive: &Input<'a>,
    name: &[u8],
    offset: u64,
) -> Result<Option<ArchiveFact>, AllocError>
    requires { archive.now.archive ≡ true }
    ensures holds { IfOk result (λ f. IfSome f
        (IsFact (loaded_views objects.now) archive.now name.now offset)) }
    ensures told { IsObject (archive_data archive.now.bytes offset) → IfOk result IsSome }
{
    let data = archive.data_at(offset);
    let taken = is_taken(objects, archive.item().number, offset);
    match ObjectFile::read(alloc, View::new(data)) {
        Ok(object) => Ok(Some(fact_of_object(&object, name, taken))),
        Err(ObjFault::Memory) => Err(AllocError),
        Err(_) => Ok(None),
    }
}

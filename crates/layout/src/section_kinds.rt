//! Which kept sections are lawful.
ghost use Rattle.std.specs.Prelude.{◌≡◌, ◌↔◌, All, Contains, IfErr, IsTrue, OnOk, [], ◌∷◌, true};
ghost use Rattle.elf_model.specs.Link.Pieces as pieces;
ghost use Rattle.elf_model.specs.Link.Pieces.{AreLawfulKinds, IsLawfulKind};
ghost use Rattle.search.specs.Views.{loaded_view, loaded_views};
ghost use Rattle.layout.specs.Kinds.{HasLawfulKinds, IsLawfulIfKept, KindsFail, lawful_types};

use elf_model::{
    SHT_FINI_ARRAY, SHT_INIT_ARRAY, SHT_NOBITS, SHT_NOTE, SHT_PREINIT_ARRAY, SHT_PROGBITS,
    SHT_X86_64_UNWIND, SectionHeader,
};
use placing::LayoutFault;
use search::{Loaded, LoadedObject};

/// The flags that a kept section may have: WRITE, ALLOC, EXECINSTR, MERGE, STRINGS, INFO_LINK, GROUP and TLS.
const LAWFUL_FLAGS: u64 = 0x677;

fn is_lawful_type(kind: u32) -> bool
    ensures { IsTrue result ↔ Contains lawful_types kind }
{
    kind == SHT_PROGBITS
        || kind == SHT_NOTE
        || kind == SHT_NOBITS
        || kind == SHT_INIT_ARRAY
        || kind == SHT_FINI_ARRAY
        || kind == SHT_PREINIT_ARRAY
        || kind == SHT_X86_64_UNWIND
}

fn is_lawful_kind(header: &SectionHeader) -> bool
    ensures { IsTrue result ↔ IsLawfulKind header.now }
{
    if !is_lawful_type(header.sh_type) {
        return false;
    }
    if header.sh_flags & LAWFUL_FLAGS != header.sh_flags {
        return false;
    }
    if header.is_writable() {
        return !header.is_executable();
    }
    !header.is_thread_local() && !header.is_nobits()
}

/// Whether section `i` of an object, which has the header, is lawful where it is kept.
pub fn is_lawful_if_kept(loaded: &LoadedObject<'_>, i: usize, header: &SectionHeader) -> bool
    ensures { IsTrue result ↔ IsLawfulIfKept (loaded_view loaded.now) i header.now }
{
    !loaded.is_kept(i, header) || is_lawful_kind(header)
}

fn is_lawful_object(loaded: &LoadedObject<'_>) -> bool
    ensures { IsTrue result ↔ HasLawfulKinds (loaded_view loaded.now) }
{
    let sections = loaded.kept_sections();
    for section in sections {
        if !is_lawful_kind(&loaded.object.section(*section as usize)) {
            return false;
        }
    }
    true
}

fn are_lawful_objects(objects: &[LoadedObject<'_>]) -> bool
    ensures { IsTrue result ↔ All (λ l. HasLawfulKinds (loaded_view l)) objects.now }
{
    for loaded in objects {
        if !is_lawful_object(loaded) {
            return false;
        }
    }
    true
}

fn are_lawful_kinds(objects: &[LoadedObject<'_>]) -> bool
    ensures { IsTrue result ↔ AreLawfulKinds (loaded_views objects.now) }
{
    are_lawful_objects(objects)
}

/// Judges the kinds of the kept sections of what is loaded (docs/PROFILE.md). It takes no memory.
///
/// # Errors
///
/// `SectionKind` where one isn't lawful.
pub fn kinds(loaded: &Loaded<'_>) -> Result<(), LayoutFault>
    ensures lawful { OnOk result (AreLawfulKinds loaded.now.objects) }
    ensures fault { IfErr result (KindsFail loaded.now.objects) }
{
    if !are_lawful_kinds(loaded.objects()) {
        return Err(LayoutFault::SectionKind);
    }
    Ok(())
}

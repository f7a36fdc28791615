//! The slots of the global offset table for which relocations ask, and whether they speak of it at all.
ghost use Rattle.std.specs.Prelude.{◌≡◌, ℕ, option_map};
ghost use Rattle.std.specs.Option.{option_and_then};
ghost use Rattle.elf_model.specs.Inputs.ObjectFile.{rela_type};
ghost use Rattle.elf_model.specs.Link.Relocation as relocation;
ghost use Rattle.elf_model.specs.Link.Relocation.{relocation_of, symbol_at};
ghost use Rattle.elf_model.specs.Link.Slots as slots;
ghost use Rattle.check_load.specs.Views.{loaded_view};
ghost use Rattle.check_relocs.specs.Kinds.{formula_view};
ghost use Rattle.check_link.specs.Slots.{request_view, target_view};

use crate::kinds::{Formula, kind_of};
use crate::targets::is_local_at;
use check_link::{Request, Wanted, is_thread};
use check_load::Loaded;
use elf_model::{Rela, SlotKind};

/// The slot for which a formula asks: one for a value where it has G, one for a thread offset where it has GT.
pub fn slot_kind_of(formula: Formula) -> Option<SlotKind>
    ensures { result ≡ slots.slot_kind_of (formula_view formula) }
{
    match formula {
        Formula::Slot | Formula::SlotFromPlace => Some(SlotKind::Value),
        Formula::ThreadSlotFromPlace => Some(SlotKind::Thread),
        Formula::Symbol
        | Formula::SymbolFromPlace
        | Formula::SymbolFromGot
        | Formula::GotFromPlace
        | Formula::Size
        | Formula::ThreadOffset => None,
    }
}

/// Whether a formula has G, GT or GOT.
pub fn speaks_of_got(formula: Formula) -> bool
    ensures { result ≡ slots.speaks_of_got (formula_view formula) }
{
    match formula {
        Formula::SymbolFromGot
        | Formula::Slot
        | Formula::SlotFromPlace
        | Formula::GotFromPlace
        | Formula::ThreadSlotFromPlace => true,
        Formula::Symbol | Formula::SymbolFromPlace | Formula::Size | Formula::ThreadOffset => false,
    }
}

/// The target of an entry that names symbol `j` of object `number`: its name, or the symbol itself where it
/// is LOCAL.
pub fn target_at<'a>(loaded: &Loaded<'a>, number: u64, j: usize) -> Wanted<'a>
    ensures { target_view result ≡ slots.target_of (symbol_at number (loaded_view loaded.now) j) }
{
    if is_local_at(loaded, j) {
        return Wanted::Local(number, j as u64);
    }
    Wanted::Name(loaded.object.symbol_name(j))
}

/// The slot for which an entry asks by its kind; None where it asks for none.
pub fn kind_asked(entry: &Rela) -> Option<SlotKind>
    ensures { result ≡ option_and_then (λ k. slots.slot_kind_of k.formula)
        (relocation.kind_of (rela_type entry.now)) }
{
    let kind = kind_of(entry.kind())?;
    slot_kind_of(kind.formula)
}

/// The request of an entry of object `number`; None where it asks for no slot.
pub fn request_of<'a>(loaded: &Loaded<'a>, number: u64, entry: &Rela) -> Option<Request<'a>>
    ensures { (section : ℕ) →
        option_map request_view result
        ≡ slots.request_of (relocation_of number (loaded_view loaded.now) section entry.now) }
{
    let kind = kind_asked(entry)?;
    Some(Request {
        thread: is_thread(kind),
        target: target_at(loaded, number, entry.symbol() as usize),
    })
}

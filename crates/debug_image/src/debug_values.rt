//! The values that entries want in debug data.
ghost use Rattle.std.specs.Prelude.{◌≡◌, ◌≤◌, ◌%◌, ◌^◌, ◌-ℤ◌, ◌<◌, ℕ, IfSome, Some, false, length, true, option_map, pos, unwrap_or};
ghost use Rattle.elf_model.specs.Link.Meaning as meaning;
ghost use Rattle.std.specs.List.{slice_get};
ghost use Rattle.std.specs.Option.{option_and_then};
ghost use Rattle.elf_model.specs.Link.Relocation.{definition_of, is_local, kind_of, modulo_64, symbol_at};
ghost use Rattle.placing.specs.PlaceViews.{place_view};
ghost use Rattle.reloc_values.specs.Kinds.{kind_view};
ghost use Rattle.reloc_values.specs.Terms.{Reduces};
ghost use Rattle.search.specs.Views.{loaded_view};
ghost use Rattle.debug_image.specs.DebugLayouts.{IsDataLayout, IsDefined, IsHere, IsUsed, data_in, relocation_here};
ghost use Rattle.debug_image.specs.DebugValues as spec;

use crate::data_places::{DataPlaces, Used, symbol_value};
use crate::symbol_values::SymbolValue;
use elf_model::{ObjectId, Rela, SymbolRef};
use got_tls::{Formula, Kind, Range, slot_kind};
use layout::Place;
use relocate::{Terms, value};
use search::{Loaded, LoadedObject};

/// R_X86_64_DTPOFF64 (ELF Handling For Thread-Local Storage).
const R_X86_64_DTPOFF64: u32 = 17;

/// R_X86_64_DTPOFF32.
const R_X86_64_DTPOFF32: u32 = 21;

/// Where a link with debug data is laid out: where the things are that the data speak of, what is loaded, what its names stand
/// for, by their numbers, the thread pointer, where thread-local storage begins and the address of the GOT, all modulo 2 to the 64.
#[derive(Drop)]
pub struct DataLayout<'c, 'a> {
    pub places: DataPlaces<'c, 'a>,
    pub loaded: &'c Loaded<'a>,
    pub names: Vec<Used>,
    pub pointer: u64,
    pub thread_start: u64,
    pub got: u64,
}

/// A section that is relocated, with its object.
#[derive(Clone, Copy)]
pub struct Here<'l, 'p, 'a> {
    pub loaded: &'l LoadedObject<'a>,
    pub place: &'p Place<'a>,
}

/// A kind, if it names no slot of the GOT.
fn slotless(kind: Kind) -> Option<Kind>
    ensures { option_map kind_view result ≡ spec.slotless (kind_view kind) }
{
    match slot_kind(kind.formula) {
        Some(_) => None,
        None => Some(kind),
    }
}

/// A kind of the profile that names no slot of the GOT.
fn slotless_kind(number: u32) -> Option<Kind>
    ensures { option_map kind_view result ≡ option_and_then spec.slotless (kind_of number) }
{
    match Kind::of(number) {
        Some(kind) => slotless(kind),
        None => None,
    }
}

/// The kind of a type: one of the profile that names no slot of the GOT, or one of an offset in the block of thread-local storage.
pub fn debug_kind(number: u32) -> Option<Kind>
    ensures exact { option_map kind_view result ≡ spec.debug_kind number }
    ensures narrow { IfSome result (λ k. k.width ≤ 8) }
{
    match number {
        R_X86_64_DTPOFF64 => Some(Kind {
            number,
            width: 8,
            formula: Formula::SymbolFromPlace,
            range: Range::Always,
        }),
        R_X86_64_DTPOFF32 => Some(Kind {
            number,
            width: 4,
            formula: Formula::SymbolFromPlace,
            range: Range::Signed,
        }),
        _ => slotless_kind(number),
    }
}

/// What entries use that name a symbol of the name that has a number.
fn use_at(layout: &DataLayout<'_, '_>, number: usize) -> Used
    requires { number < length layout.now.names.items }
    ensures { slice_get layout.now.names.items number ≡ Some result }
{
    layout.names[number]
}

/// What an entry uses that names symbol `j`, which isn't LOCAL, by the number of its name.
fn named_use(layout: &DataLayout<'_, '_>, here: &Here<'_, '_, '_>, j: u64) -> Used
    requires layout { IsDataLayout layout.now }
    requires here { IsHere layout.now here.now }
    requires shared { is_local (symbol_at here.now.place.now.piece.object
        (loaded_view here.now.loaded.now) j) ≡ false }
    ensures { IsDefined layout.now (symbol_at here.now.place.now.piece.object
        (loaded_view here.now.loaded.now) j) result }
{
    let place = here.place;
    let symbol = SymbolRef {
        object: ObjectId(place.piece.object),
        symbol: j,
    };
    let _objects = layout.loaded.objects();
    let _named = layout.loaded.name_count();
    let Some(number) = layout.loaded.name_number(symbol) else {
        unreachable!()
    };
    use_at(layout, number)
}

/// What an entry uses that names symbol `j`, which is LOCAL: that symbol itself, where it is defined.
fn local_use(layout: &DataLayout<'_, '_>, here: &Here<'_, '_, '_>, j: u64) -> Used
    requires layout { IsDataLayout layout.now }
    requires local { is_local (symbol_at here.now.place.now.piece.object
        (loaded_view here.now.loaded.now) j) ≡ true }
    ensures { IsDefined layout.now (symbol_at here.now.place.now.piece.object
        (loaded_view here.now.loaded.now) j) result }
{
    let loaded = here.loaded;
    let place = here.place;
    let entry = loaded.object.symbol(j as usize);
    if entry.is_undefined() {
        return Used {
            value: SymbolValue::NoAddress,
            size: 0,
        };
    }
    Used {
        value: symbol_value(&layout.places, place.piece.object, &entry),
        size: entry.st_size,
    }
}

/// What an entry uses that names symbol `j`. No name is read.
fn defined_at(layout: &DataLayout<'_, '_>, here: &Here<'_, '_, '_>, j: u64) -> Used
    requires layout { IsDataLayout layout.now }
    requires here { IsHere layout.now here.now }
    ensures { IsDefined layout.now (symbol_at here.now.place.now.piece.object
        (loaded_view here.now.loaded.now) j) result }
{
    let loaded = here.loaded;
    if loaded.object.symbol(j as usize).is_local() {
        return local_use(layout, here, j);
    }
    named_use(layout, here, j)
}

/// What an entry uses that names symbol `j`, of the value 0 where that is number 0.
fn used_at(layout: &DataLayout<'_, '_>, here: &Here<'_, '_, '_>, j: u64) -> Used
    requires layout { IsDataLayout layout.now }
    requires here { IsHere layout.now here.now }
    ensures { IsUsed layout.now (symbol_at here.now.place.now.piece.object
        (loaded_view here.now.loaded.now) j) result }
{
    let used = defined_at(layout, here, j);
    if j == 0 {
        return Used {
            value: SymbolValue::Known(0),
            size: used.size,
        };
    }
    used
}

/// The offset of a value from the thread pointer, both modulo 2 to the 64.
#[tactic(auto, using(reloc_values::proofs::Offsets::offset_of_rest))]
fn offset_from(pointer: u64, address: u64) -> u64
    ensures { (a p : ℕ) → address ≡ a % 2 ^ 64 → pointer ≡ p % 2 ^ 64
        → result ≡ modulo_64 (pos a -ℤ pos p) }
{
    address.wrapping_sub(pointer)
}

/// What P stands for: the offset of an entry's field in what is joined, or where the block of thread-local storage begins,
/// modulo 2 to the 64.
fn place_of(layout: &DataLayout<'_, '_>, place: &Place<'_>, entry: &Rela) -> u64
    requires { IsDataLayout layout.now }
    ensures { result ≡ spec.place_of (data_in layout.now) (place_view place.now) entry.now % 2 ^ 64 }
{
    let number = entry.kind();
    if number == R_X86_64_DTPOFF64 || number == R_X86_64_DTPOFF32 {
        return layout.thread_start;
    }
    place.at.wrapping_add(entry.r_offset)
}

/// The terms of the value of an entry, where S has a value.
fn terms(
    layout: &DataLayout<'_, '_>,
    here: &Here<'_, '_, '_>,
    entry: &Rela,
    symbol: u64,
    size: u64,
) -> Terms
    requires layout { IsDataLayout layout.now }
    requires here { IsHere layout.now here.now }
    requires size { size ≡ unwrap_or (option_map meaning.meaning_size
        (definition_of (data_in layout.now).objects (relocation_here here.now entry.now).symbol))
        0 % 2 ^ 64 }
    ensures { Reduces result (spec.terms_of (data_in layout.now) (place_view here.now.place.now)
        (relocation_here here.now entry.now) symbol) }
{
    Terms {
        symbol,
        addend: entry.r_addend,
        place: place_of(layout, here.place, entry),
        slot: 0,
        got: layout.got,
        size,
        thread: offset_from(layout.pointer, symbol),
    }
}

/// What is wanted of an address that isn't in the image: 0, or 1 where 0 ends a list.
fn gone_value(name: &[u8]) -> u64
    ensures { result ≡ spec.gone_value name.now }
{
    if name == b".debug_ranges".as_slice() || name == b".debug_loc".as_slice() {
        1
    } else {
        0
    }
}

/// The value that an entry of a kind wants; None where it wants a place in data that aren't in the image.
pub fn wanted_value(
    layout: &DataLayout<'_, '_>,
    here: &Here<'_, '_, '_>,
    kind: Kind,
    entry: &Rela,
) -> Option<u64>
    requires layout { IsDataLayout layout.now }
    requires here { IsHere layout.now here.now }
    ensures { result ≡ spec.value_of (data_in layout.now) (place_view here.now.place.now)
        (relocation_here here.now entry.now) (kind_view kind) }
{
    let place = here.place;
    let j = entry.symbol() as u64;
    let used = used_at(layout, here, j);
    match used.value {
        SymbolValue::Known(symbol) => {
            Some(value(kind, terms(layout, here, entry, symbol, used.size)))
        }
        SymbolValue::NoAddress => Some(gone_value(place.piece.name)),
        SymbolValue::NoData => None,
    }
}

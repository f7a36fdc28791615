//! What the symbols of an object are worth where the objects are laid out: the value and the size of what a reference to
//! each uses, found once a symbol, and read by each relocation that names it; what a chosen definition is worth, once for all
//! objects.
ghost use Rattle.std.specs.Prelude.{◌≡◌, IfOk, IfSome, IsSomeAnd, true};
ghost use Rattle.std.specs.List.{slice_get};
ghost use Rattle.elf_model.specs.Link.Meaning.{meant};
ghost use Rattle.elf_model.specs.Link.Pieces.{AreLawfulKinds};
ghost use Rattle.elf_model.specs.Link.Relocation.{is_local, symbol_at};
ghost use Rattle.elf_model.specs.Link.Slots as wanted;
ghost use Rattle.search.specs.Views.{loaded_view};
ghost use Rattle.resolve.specs.Meaning.{named_at};
ghost use Rattle.resolve.specs.Views.{symbol_view};
ghost use Rattle.relocate.specs.References.{IsObjectAt};
ghost use Rattle.relocate.specs.SymbolTables.{AreChosenValues, AreValues, IsValueOf, IsValued, IsWorth, all_valued, valued_object, where_of};
ghost use Rattle.relocate.specs.Values.{pointer_in, where_in};

use crate::referrer::{refer_more_than, refers_often};
use crate::targets::{unnamed_at, use_of};
use crate::values::{got_or_none, size_or_none, symbol_size, symbol_value, value_or_none};
use elf_model::{ObjectId, SymbolRef};
use got_tls::Slots;
use layout::Placement;
use resolve::{Resolved, SymbolOf};
use search::LoadedObject;
use std::alloc::{AllocError, Global};

/// The value and the size of what a reference to a symbol uses, modulo 2 to the 64; 0 of nothing.
#[derive(Clone, Copy, Debug)]
pub struct SymbolValue {
    pub value: u64,
    pub size: u64,
}

/// An object whose relocations are given their values where the objects are laid out, with its number.
#[derive(Drop)]
pub struct Valued<'v, 'a> {
    pub resolved: &'v Resolved<'a>,
    pub placement: &'v Placement<'a>,
    pub slots: &'v Slots<'a>,
    /// What each chosen definition is worth, as far as there are rows.
    pub chosen: &'v [SymbolValue],
    /// The thread pointer, modulo 2 to the 64.
    pub pointer: u64,
    /// The address of the GOT, 0 without one.
    pub got: u64,
    pub number: usize,
    pub loaded: &'v LoadedObject<'a>,
    /// What each symbol is worth, as far as there are rows.
    pub table: Vec<SymbolValue>,
}

/// What a chosen definition is worth.
fn worth_of<'a>(
    resolved: &Resolved<'a>,
    placement: &Placement<'a>,
    definition: &SymbolOf<'a>,
) -> SymbolValue
    requires kinds { AreLawfulKinds placement.now.objects }
    ensures { IsWorth (where_in placement.now)
        (meant resolved.now (symbol_view definition.now)) result }
{
    let meaning = resolved.meant(definition);
    SymbolValue {
        value: value_or_none(placement, &meaning),
        size: size_or_none(&meaning),
    }
}

/// A row for each chosen definition.
fn all_chosen<'a>(
    alloc: Global,
    resolved: &Resolved<'a>,
    placement: &Placement<'a>,
) -> Result<Vec<SymbolValue>, AllocError>
    requires kinds { AreLawfulKinds placement.now.objects }
    ensures { IfOk result (λ v.
        AreChosenValues resolved.now (where_in placement.now) v.items) }
{
    let definitions = resolved.definitions();
    let mut values = Vec::with_capacity(alloc, definitions.len())?;
    for i in 0..definitions.len() {
        values.push(worth_of(resolved, placement, &definitions.at(i)))?;
    }
    Ok(values)
}

/// A row for each chosen definition, where the objects have more relocations than there are definitions, so that the rows
/// save work; else none.
pub fn chosen_values<'a>(
    alloc: Global,
    objects: &[LoadedObject<'a>],
    resolved: &Resolved<'a>,
    placement: &Placement<'a>,
) -> Result<Vec<SymbolValue>, AllocError>
    requires kinds { AreLawfulKinds placement.now.objects }
    ensures { IfOk result (λ v.
        AreChosenValues resolved.now (where_in placement.now) v.items) }
{
    if !refer_more_than(objects, resolved.definitions().len()) {
        return Ok(Vec::new(alloc));
    }
    all_chosen(alloc, resolved, placement)
}

/// The row at a place; None past the end.
fn row_at(chosen: &[SymbolValue], place: usize) -> Option<SymbolValue>
    ensures { result ≡ slice_get chosen.now place }
{
    chosen.get(place).copied()
}

/// What a symbol that isn't LOCAL is worth by the rows of the chosen definitions; None where an object doesn't define its
/// name, or there is no row.
fn chosen_value<'a>(
    resolved: &Resolved<'a>,
    _placement: &Placement<'a>,
    chosen: &[SymbolValue],
    symbol: SymbolRef,
) -> Option<SymbolValue>
    requires { AreChosenValues resolved.now (where_in _placement.now) chosen.now }
    ensures { IfSome result (λ v. IsSomeAnd
        (named_at resolved.now symbol.object.0 symbol.symbol)
        (λ d. IsWorth (where_in _placement.now) (meant resolved.now d) v)) }
{
    let place = resolved.chosen_place(symbol)?;
    row_at(chosen, place)
}

/// What symbol `j` of object `number` is worth, which is LOCAL: it is used itself.
pub fn local_value(
    resolved: &Resolved<'_>,
    placement: &Placement<'_>,
    number: usize,
    loaded: &LoadedObject<'_>,
    j: usize,
) -> SymbolValue
    requires { is_local (symbol_at number (loaded_view loaded.now) j) ≡ true }
    ensures { IsValueOf resolved.now (where_in placement.now)
        (symbol_at number (loaded_view loaded.now) j) result }
{
    let _resolved = resolved;
    let symbol = unnamed_at(number, loaded, j);
    if symbol.entry.is_undefined() {
        return SymbolValue { value: 0, size: 0 };
    }
    SymbolValue {
        value: symbol_value(placement, &symbol),
        size: symbol_size(&symbol),
    }
}

/// What symbol `j` of object `number` is worth.
fn value_of_symbol<'a>(
    resolved: &Resolved<'a>,
    placement: &Placement<'a>,
    chosen: &[SymbolValue],
    number: usize,
    loaded: &LoadedObject<'a>,
    j: usize,
) -> SymbolValue
    requires chosen { AreChosenValues resolved.now (where_in placement.now) chosen.now }
    requires here { IsObjectAt resolved.now number (loaded_view loaded.now) }
    requires kinds { AreLawfulKinds placement.now.objects }
    ensures { IsValueOf resolved.now (where_in placement.now)
        (symbol_at number (loaded_view loaded.now) j) result }
{
    if loaded.object.symbol(j).is_local() {
        return local_value(resolved, placement, number, loaded, j);
    }
    let symbol = SymbolRef {
        object: ObjectId(number as u64),
        symbol: j as u64,
    };
    if let Some(value) = chosen_value(resolved, placement, chosen, symbol) {
        return value;
    }
    let definition = use_of(resolved, number, loaded, j);
    SymbolValue {
        value: value_or_none(placement, &definition),
        size: size_or_none(&definition),
    }
}

/// A row for each symbol of an object that refers often, and none of another one.
fn table_of<'a>(
    alloc: Global,
    resolved: &Resolved<'a>,
    placement: &Placement<'a>,
    chosen: &[SymbolValue],
    number: usize,
    loaded: &LoadedObject<'a>,
) -> Result<Vec<SymbolValue>, AllocError>
    requires chosen { AreChosenValues resolved.now (where_in placement.now) chosen.now }
    requires here { IsObjectAt resolved.now number (loaded_view loaded.now) }
    requires kinds { AreLawfulKinds placement.now.objects }
    ensures { IfOk result (λ v.
        AreValues resolved.now (where_in placement.now) number (loaded_view loaded.now) v.items) }
{
    let mut table = Vec::new(alloc);
    if !refers_often(loaded) {
        return Ok(table);
    }
    let count = loaded.object.symbols().len();
    table.reserve(count)?;
    for j in 0..count {
        table.push(value_of_symbol(resolved, placement, chosen, number, loaded, j))?;
    }
    Ok(table)
}

impl<'v, 'a> Valued<'v, 'a> {
    /// Object `number`, where the GOT has these slots and the thread pointer is known, and chosen definitions have rows.
    pub fn with_values(
        alloc: Global,
        resolved: &'v Resolved<'a>,
        placement: &'v Placement<'a>,
        slots: &'v Slots<'a>,
        chosen: &'v [SymbolValue],
        pointer: u64,
        number: usize,
        loaded: &'v LoadedObject<'a>,
    ) -> Result<Valued<'v, 'a>, AllocError>
        requires chosen { AreChosenValues resolved.now (where_in placement.now) chosen.now }
        requires here { IsObjectAt resolved.now number (loaded_view loaded.now) }
        requires kinds { AreLawfulKinds placement.now.objects }
        requires slots { slots.now.slots ≡ wanted.slots placement.now.objects }
        requires slots_of { slots.now.objects ≡ resolved.now }
        requires pointer { pointer ≡ pointer_in (where_in placement.now) }
        ensures known { IfOk result IsValued }
        ensures all { IfOk result (λ v. all_valued v ≡ resolved.entry.now) }
        ensures placed { IfOk result (λ v. v.placement.now ≡ placement.entry.now) }
        ensures number { IfOk result (λ v. v.number ≡ number) }
        ensures own { IfOk result (λ v. valued_object v ≡ loaded_view loaded.entry.now) }
    {
        let table = table_of(alloc, resolved, placement, chosen, number, loaded)?;
        Ok(Valued {
            resolved,
            placement,
            slots,
            chosen,
            pointer,
            got: got_or_none(placement),
            number,
            loaded,
            table,
        })
    }

    /// Object `number`, where the GOT has these slots and the thread pointer is known.
    pub fn new(
        alloc: Global,
        resolved: &'v Resolved<'a>,
        placement: &'v Placement<'a>,
        slots: &'v Slots<'a>,
        pointer: u64,
        number: usize,
        loaded: &'v LoadedObject<'a>,
    ) -> Result<Valued<'v, 'a>, AllocError>
        requires here { IsObjectAt resolved.now number (loaded_view loaded.now) }
        requires kinds { AreLawfulKinds placement.now.objects }
        requires slots { slots.now.slots ≡ wanted.slots placement.now.objects }
        requires slots_of { slots.now.objects ≡ resolved.now }
        requires pointer { pointer ≡ pointer_in (where_in placement.now) }
        ensures known { IfOk result IsValued }
        ensures all { IfOk result (λ v. all_valued v ≡ resolved.entry.now) }
        ensures placed { IfOk result (λ v. v.placement.now ≡ placement.entry.now) }
        ensures number { IfOk result (λ v. v.number ≡ number) }
        ensures own { IfOk result (λ v. valued_object v ≡ loaded_view loaded.entry.now) }
    {
        Valued::with_values(
            alloc,
            resolved,
            placement,
            slots,
            &[],
            pointer,
            number,
            loaded,
        )
    }

    /// What symbol `j` is worth.
    pub fn symbol_value(&self, j: usize) -> SymbolValue
        requires { IsValued self.now }
        ensures { IsValueOf (all_valued self.now) (where_of self.now)
            (symbol_at self.now.number (valued_object self.now) j) result }
    {
        match self.table.get(j) {
            Some(value) => *value,
            None => value_of_symbol(
                self.resolved,
                self.placement,
                self.chosen,
                self.number,
                self.loaded,
                j,
            ),
        }
    }
}

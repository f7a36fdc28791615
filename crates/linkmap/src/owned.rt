//! A map that owns its names, from one that borrows them.
ghost use Rattle.std.specs.Prelude.{◌≡◌, IfOk, map};
ghost use Rattle.std.specs.Cow.{cow_slice_items};
ghost use Rattle.elf_model.specs.Image.MapRecord as owned;
ghost use Rattle.elf_model.specs.Image.MapRecord.{CommonRow, ObjectRow, PlaceRow, SlotRow, TargetRow, map_of};
ghost use Rattle.linkmap.specs.Borrowed as borrowed;
ghost use Rattle.linkmap.specs.Record.{record_of};

use crate::borrowed::{
    BorrowedCommon, BorrowedMap, BorrowedObject, BorrowedPlace, BorrowedSlot, BorrowedTarget,
};
use crate::symbol_lines::SymbolLines;
use elf_model::{CommonLine, LinkMap, ObjectLine, PlaceLine, SlotLine, SlotTarget, SymbolLine};
use std::alloc::{AllocError, Global};
use std::borrow::CowSlice;

fn owned_name(alloc: Global, name: CowSlice<'_, u8>) -> Result<Vec<u8>, AllocError>
    ensures { IfOk result (λ v. v.items ≡ cow_slice_items name.entry) }
{
    match name {
        CowSlice::Borrowed(bytes) => Vec::from_slice(alloc, bytes),
        CowSlice::Owned(bytes) => Ok(bytes),
    }
}

/// A line as it is read, of which there is one that owns its names.
trait IntoOwned: Sized {
    type Owned;

    ghost Row: { Type 0 };

    ghost line_view: { Self → Row };

    ghost owned_view: { Self.Owned → Row };

    fn into_owned(self, alloc: Global) -> Result<Self::Owned, AllocError>
        ensures { IfOk result (λ line. owned_view line ≡ line_view self) };
}

impl<'t> IntoOwned for BorrowedObject<'t> {
    type Owned = ObjectLine;

    ghost Row = { ObjectRow };

    ghost line_view = { borrowed.object_row };

    ghost owned_view = { owned.object_row };

    fn into_owned(self, alloc: Global) -> Result<ObjectLine, AllocError> {
        let path = owned_name(alloc, self.path)?;
        Ok(ObjectLine {
            object: self.object,
            item: self.item,
            offset: self.offset,
            path,
        })
    }
}

impl<'t> IntoOwned for BorrowedPlace<'t> {
    type Owned = PlaceLine;

    ghost Row = { PlaceRow };

    ghost line_view = { borrowed.place_row };

    ghost owned_view = { owned.place_row };

    fn into_owned(self, alloc: Global) -> Result<PlaceLine, AllocError> {
        let name = owned_name(alloc, self.name)?;
        Ok(PlaceLine {
            address: self.address,
            size: self.size,
            object: self.object,
            section: self.section,
            name,
        })
    }
}

impl<'t> IntoOwned for BorrowedCommon<'t> {
    type Owned = CommonLine;

    ghost Row = { CommonRow };

    ghost line_view = { borrowed.common_row };

    ghost owned_view = { owned.common_row };

    fn into_owned(self, alloc: Global) -> Result<CommonLine, AllocError> {
        let name = owned_name(alloc, self.name)?;
        Ok(CommonLine {
            address: self.address,
            size: self.size,
            align: self.align,
            name,
        })
    }
}

impl<'t> IntoOwned for BorrowedTarget<'t> {
    type Owned = SlotTarget;

    ghost Row = { TargetRow };

    ghost line_view = { borrowed.target_row };

    ghost owned_view = { owned.target_row };

    fn into_owned(self, alloc: Global) -> Result<SlotTarget, AllocError> {
        match self {
            BorrowedTarget::Name(name) => Ok(SlotTarget::Name(owned_name(alloc, name)?)),
            BorrowedTarget::Local { object, symbol } => Ok(SlotTarget::Local { object, symbol }),
        }
    }
}

impl<'t> IntoOwned for BorrowedSlot<'t> {
    type Owned = SlotLine;

    ghost Row = { SlotRow };

    ghost line_view = { borrowed.slot_row };

    ghost owned_view = { owned.slot_row };

    fn into_owned(self, alloc: Global) -> Result<SlotLine, AllocError> {
        let target = self.target.into_owned(alloc)?;
        Ok(SlotLine {
            address: self.address,
            kind: self.kind,
            target,
        })
    }
}

/// Lines that own their names, one for each of lines as they are read.
fn all_owned<T: IntoOwned + Drop>(alloc: Global, lines: Vec<T>) -> Result<Vec<T::Owned>, AllocError>
where
    T::Owned: Drop,
    ensures { IfOk result (λ v. map T.owned_view v.items ≡ map T.line_view lines.items) }
{
    let mut owned = Vec::with_capacity(alloc, lines.len())?;
    for line in lines {
        owned.push(line.into_owned(alloc)?)?;
    }
    Ok(owned)
}

/// The symbol lines with names of their own.
fn owned_symbols(alloc: Global, lines: &SymbolLines<'_>) -> Result<Vec<SymbolLine>, AllocError>
    ensures { IfOk result (λ v. map owned.symbol_row v.items ≡ lines.now.rows) }
{
    let mut owned = Vec::with_capacity(alloc, lines.len())?;
    for line in lines.iter() {
        owned.push(SymbolLine {
            address: line.address,
            definition: line.definition,
            name: Vec::from_slice(alloc, line.name)?,
        })?;
    }
    Ok(owned)
}

/// The map that owns the names that a map has, borrowed or not.
pub fn owned(alloc: Global, map: BorrowedMap<'_>) -> Result<LinkMap, AllocError>
    ensures { IfOk result (λ m. map_of m ≡ record_of map.entry) }
{
    Ok(LinkMap {
        version: map.version,
        objects: all_owned(alloc, map.objects)?,
        drops: map.drops,
        places: all_owned(alloc, map.places)?,
        commons: all_owned(alloc, map.commons)?,
        got: map.got,
        slots: all_owned(alloc, map.slots)?,
        symbols: owned_symbols(alloc, &map.symbols)?,
        symtab: map.symtab,
    })
}

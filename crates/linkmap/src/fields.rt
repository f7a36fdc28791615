//! The lines of a map: the first, which tells the version, and the others, each read by its first word.
ghost use Rattle.std.specs.Prelude.{◌≡◌, IfOk, option_map};
ghost use Rattle.linkmap.specs.Borrowed.{object_row, place_row, common_row, slot_row, target_row, kept_row, symbol_row};
ghost use Rattle.linkmap.specs.Reading as reading;
ghost use Rattle.linkmap.specs.Record.{IsRead};
ghost use Rattle.linkmap.specs.SymbolRuns as runs;
ghost use Rattle.linkmap.specs.Order.{row};

use crate::borrowed::{
    BorrowedCommon, BorrowedObject, BorrowedPlace, BorrowedSlot, BorrowedSymbol, BorrowedTarget,
    KeptSymbol,
};
use crate::digits::{LineFault, read_address, read_last_number, read_number, strip};
use crate::names::{read_name, read_plain_name};
use elf_model::{Definition, DropLine, GotLine, SlotKind, SymtabLine};
use std::alloc::Global;

/// A line behind the first.
#[derive(Debug, Drop)]
pub enum MapLine<'t> {
    Object(BorrowedObject<'t>),
    Drop(DropLine),
    Place(BorrowedPlace<'t>),
    Common(BorrowedCommon<'t>),
    Got(GotLine),
    Slot(BorrowedSlot<'t>),
    /// A symbol line whose name is spelled without an escape.
    Plain(BorrowedSymbol<'t>),
    Symbol(KeptSymbol<'t>),
    Symtab(SymtabLine),
    End,
}

#[tactic(auto, unfolding(crate::specs::Reading::object_at))]
fn read_object(alloc: Global, bytes: &[u8]) -> Result<(BorrowedObject<'_>, &[u8]), LineFault>
    ensures { reading.Gives (λ x. (object_row x.0, x.1.now)) result (reading.object_at bytes.now) }
{
    let (object, bytes) = read_number(bytes).ok_or(LineFault::Bad)?;
    let (item, bytes) = read_number(bytes).ok_or(LineFault::Bad)?;
    let (offset, bytes) = read_number(bytes).ok_or(LineFault::Bad)?;
    let (path, bytes) = read_name(alloc, bytes)?;
    Ok((
        BorrowedObject {
            object,
            item,
            offset,
            path,
        },
        bytes,
    ))
}

#[tactic(auto, unfolding(crate::specs::Reading::drop_at))]
fn read_drop(bytes: &[u8]) -> Option<(DropLine, &[u8])>
    ensures { option_map (λ x. (x.0, x.1.now)) result ≡ reading.drop_at bytes.now }
{
    let (object, bytes) = read_number(bytes)?;
    let (section, bytes) = read_last_number(bytes)?;
    Some((DropLine { object, section }, bytes))
}

#[tactic(auto, unfolding(crate::specs::Reading::place_at))]
fn read_place(alloc: Global, bytes: &[u8]) -> Result<(BorrowedPlace<'_>, &[u8]), LineFault>
    ensures { reading.Gives (λ x. (place_row x.0, x.1.now)) result (reading.place_at bytes.now) }
{
    let (address, bytes) = read_address(bytes).ok_or(LineFault::Bad)?;
    let (size, bytes) = read_number(bytes).ok_or(LineFault::Bad)?;
    let (object, bytes) = read_number(bytes).ok_or(LineFault::Bad)?;
    let (section, bytes) = read_number(bytes).ok_or(LineFault::Bad)?;
    let (name, bytes) = read_name(alloc, bytes)?;
    Ok((
        BorrowedPlace {
            address,
            size,
            object,
            section,
            name,
        },
        bytes,
    ))
}

#[tactic(auto, unfolding(crate::specs::Reading::common_at))]
fn read_common(alloc: Global, bytes: &[u8]) -> Result<(BorrowedCommon<'_>, &[u8]), LineFault>
    ensures { reading.Gives (λ x. (common_row x.0, x.1.now)) result (reading.common_at bytes.now) }
{
    let (address, bytes) = read_address(bytes).ok_or(LineFault::Bad)?;
    let (size, bytes) = read_number(bytes).ok_or(LineFault::Bad)?;
    let (align, bytes) = read_number(bytes).ok_or(LineFault::Bad)?;
    let (name, bytes) = read_name(alloc, bytes)?;
    Ok((
        BorrowedCommon {
            address,
            size,
            align,
            name,
        },
        bytes,
    ))
}

#[tactic(auto, unfolding(crate::specs::Reading::got_at))]
fn read_got(bytes: &[u8]) -> Option<(GotLine, &[u8])>
    ensures { option_map (λ x. (x.0, x.1.now)) result ≡ reading.got_at bytes.now }
{
    let (address, bytes) = read_address(bytes)?;
    let (size, bytes) = read_last_number(bytes)?;
    Some((GotLine { address, size }, bytes))
}

#[tactic(auto, unfolding(crate::specs::Reading::kind_at))]
fn read_kind(bytes: &[u8]) -> Option<(SlotKind, &[u8])>
    ensures { option_map (λ x. (x.0, x.1.now)) result ≡ reading.kind_at bytes.now }
{
    if let Some(rest) = strip(bytes, b"value ") {
        return Some((SlotKind::Value, rest));
    }
    let rest = strip(bytes, b"thread ")?;
    Some((SlotKind::Thread, rest))
}

#[tactic(auto, unfolding(crate::specs::Reading::target_at))]
fn read_target(alloc: Global, bytes: &[u8]) -> Result<(BorrowedTarget<'_>, &[u8]), LineFault>
    ensures { reading.Gives (λ x. (target_row x.0, x.1.now)) result (reading.target_at bytes.now) }
{
    if let Some(rest) = strip(bytes, b"name ") {
        let (name, rest) = read_name(alloc, rest)?;
        return Ok((BorrowedTarget::Name(name), rest));
    }
    let rest = strip(bytes, b"local ").ok_or(LineFault::Bad)?;
    let (object, rest) = read_number(rest).ok_or(LineFault::Bad)?;
    let (symbol, rest) = read_last_number(rest).ok_or(LineFault::Bad)?;
    Ok((BorrowedTarget::Local { object, symbol }, rest))
}

#[tactic(auto, unfolding(crate::specs::Reading::slot_at))]
fn read_slot(alloc: Global, bytes: &[u8]) -> Result<(BorrowedSlot<'_>, &[u8]), LineFault>
    ensures { reading.Gives (λ x. (slot_row x.0, x.1.now)) result (reading.slot_at bytes.now) }
{
    let (address, bytes) = read_address(bytes).ok_or(LineFault::Bad)?;
    let (kind, bytes) = read_kind(bytes).ok_or(LineFault::Bad)?;
    let (target, bytes) = read_target(alloc, bytes)?;
    Ok((
        BorrowedSlot {
            address,
            kind,
            target,
        },
        bytes,
    ))
}

#[tactic(auto, unfolding(crate::specs::Reading::definition_at))]
fn read_definition(bytes: &[u8]) -> Option<(Definition, &[u8])>
    ensures { option_map (λ x. (x.0, x.1.now)) result ≡ reading.definition_at bytes.now }
{
    if let Some(rest) = strip(bytes, b"strong ") {
        let (object, rest) = read_number(rest)?;
        let (symbol, rest) = read_number(rest)?;
        return Some((Definition::Strong { object, symbol }, rest));
    }
    if let Some(rest) = strip(bytes, b"weak ") {
        let (object, rest) = read_number(rest)?;
        let (symbol, rest) = read_number(rest)?;
        return Some((Definition::Weak { object, symbol }, rest));
    }
    if let Some(rest) = strip(bytes, b"common ") {
        return Some((Definition::Common, rest));
    }
    let rest = strip(bytes, b"linker ")?;
    Some((Definition::Linker, rest))
}

#[tactic(auto, unfolding(crate::specs::Reading::symbol_at))]
fn read_symbol(alloc: Global, bytes: &[u8]) -> Result<(KeptSymbol<'_>, &[u8]), LineFault>
    ensures { reading.Gives (λ x. (kept_row x.0, x.1.now)) result (reading.symbol_at bytes.now) }
{
    let (address, bytes) = read_address(bytes).ok_or(LineFault::Bad)?;
    let (definition, bytes) = read_definition(bytes).ok_or(LineFault::Bad)?;
    let (name, bytes) = read_name(alloc, bytes)?;
    Ok((
        KeptSymbol {
            address,
            definition,
            name,
        },
        bytes,
    ))
}

#[tactic(auto, unfolding(crate::specs::SymbolRuns::plain_symbol_at))]
fn read_plain_symbol(bytes: &[u8]) -> Option<(BorrowedSymbol<'_>, &[u8])>
    ensures { option_map (λ x. (symbol_row x.0, x.1.now)) result ≡ runs.plain_symbol_at bytes.now }
{
    let (address, bytes) = read_address(bytes)?;
    let (definition, bytes) = read_definition(bytes)?;
    let (name, bytes) = read_plain_name(bytes)?;
    Some((
        BorrowedSymbol {
            address,
            definition,
            name,
        },
        bytes,
    ))
}

/// The symbol line with which the bytes begin, if its name is spelled without an escape, and the bytes behind it.
#[tactic(auto, unfolding(crate::specs::SymbolRuns::plain_line_at))]
pub fn read_plain_line(bytes: &[u8]) -> Option<(BorrowedSymbol<'_>, &[u8])>
    ensures { option_map (λ x. (symbol_row x.0, x.1.now)) result ≡ runs.plain_line_at bytes.now }
{
    read_plain_symbol(strip(bytes, b"symbol ")?)
}

#[tactic(auto, unfolding(crate::specs::Reading::symtab_at))]
fn read_symtab(bytes: &[u8]) -> Option<(SymtabLine, &[u8])>
    ensures { option_map (λ x. (x.0, x.1.now)) result ≡ reading.symtab_at bytes.now }
{
    let (offset, bytes) = read_number(bytes)?;
    let (count, bytes) = read_last_number(bytes)?;
    Some((SymtabLine { offset, count }, bytes))
}

/// The version that the first line tells, and the bytes behind that line.
#[tactic(auto, unfolding(crate::specs::Reading::version_at))]
pub fn read_version(bytes: &[u8]) -> Option<(u64, &[u8])>
    ensures { option_map (λ x. (x.0, x.1.now)) result ≡ reading.version_at bytes.now }
{
    if let Some(rest) = strip(bytes, b"ldmap 1\n") {
        return Some((1, rest));
    }
    let rest = strip(bytes, b"ldmap 2\n")?;
    Some((2, rest))
}

/// The line that the bytes begin with, and the bytes behind it. Most lines of a large map are those of symbols.
#[tactic(auto, unfolding(crate::specs::Reading::line_at))]
pub fn read_line(alloc: Global, bytes: &[u8]) -> Result<(MapLine<'_>, &[u8]), LineFault>
    ensures line { reading.Gives (λ x. (row x.0, x.1.now)) result (reading.line_at bytes.now) }
    ensures read { IfOk result (λ x. IsRead x.0 bytes.now x.1.now) }
{
    if let Some((line, rest)) = read_plain_line(bytes) {
        return Ok((MapLine::Plain(line), rest));
    }
    if let Some(rest) = strip(bytes, b"object ") {
        let (line, rest) = read_object(alloc, rest)?;
        return Ok((MapLine::Object(line), rest));
    }
    if let Some(rest) = strip(bytes, b"drop ") {
        let (line, rest) = read_drop(rest).ok_or(LineFault::Bad)?;
        return Ok((MapLine::Drop(line), rest));
    }
    if let Some(rest) = strip(bytes, b"place ") {
        let (line, rest) = read_place(alloc, rest)?;
        return Ok((MapLine::Place(line), rest));
    }
    if let Some(rest) = strip(bytes, b"common ") {
        let (line, rest) = read_common(alloc, rest)?;
        return Ok((MapLine::Common(line), rest));
    }
    if let Some(rest) = strip(bytes, b"got ") {
        let (line, rest) = read_got(rest).ok_or(LineFault::Bad)?;
        return Ok((MapLine::Got(line), rest));
    }
    if let Some(rest) = strip(bytes, b"slot ") {
        let (line, rest) = read_slot(alloc, rest)?;
        return Ok((MapLine::Slot(line), rest));
    }
    if let Some(rest) = strip(bytes, b"symbol ") {
        let (line, rest) = read_symbol(alloc, rest)?;
        return Ok((MapLine::Symbol(line), rest));
    }
    if let Some(rest) = strip(bytes, b"symtab ") {
        let (line, rest) = read_symtab(rest).ok_or(LineFault::Bad)?;
        return Ok((MapLine::Symtab(line), rest));
    }
    let rest = strip(bytes, b"end\n").ok_or(LineFault::Bad)?;
    Ok((MapLine::End, rest))
}

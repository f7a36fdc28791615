//! What memory holds at the global offset table: a first word of zeros, then each slot's value.
ghost use Rattle.std.specs.Prelude.{◌≡◌, ◌+◌, ◌*◌, ◌%◌, ◌≤◌, ◌<◌, ◌^◌, ◌++◌, ◌↔◌, Any, IfOk, IsTrue, OnOk, length, map, option_map, replicate};
ghost use Rattle.std.specs.List.{flat_map};
ghost use Rattle.byteview.specs.Numbers.{le_bytes};
ghost use Rattle.elf_model.specs.Image.MapRecord.{OfLocal};
ghost use Rattle.linkmap.specs.Borrowed.{slot_row, target_row};
ghost use Rattle.elf_model.specs.Image.MemoryImage.{Encloses, loads};
ghost use Rattle.elf_model.specs.Image.RightLink.{HoldsGot, StandFrom, objects_of, where_of};
ghost use Rattle.elf_model.specs.Link.Slots as slots;
ghost use Rattle.elf_model.specs.Link.Slots.{size_with, slot_bytes};
ghost use Rattle.checker.specs.Got.{HoldsBytes, LiesInImage};

use check_relocs::{Bindings, target_of_symbol};
use check_stages::{BoundLink, same_padded};
use elf_model::{GotLine, SlotKind};
use linkmap::{BorrowedSlot, BorrowedTarget};
use loader_model::Memory;
use std::alloc::{AllocError, Global};

/// The value of a LOCAL symbol by its object's and its own number, modulo 2^64; 0 where there is no such object, and
/// where the symbol isn't defined.
fn local_value(bindings: &Bindings<'_, '_, '_>, object: u64, symbol: u64) -> u64
    ensures { result ≡ slots.target_value bindings.now.objects bindings.now.places
        (OfLocal object symbol) % 2 ^ 64 }
{
    match bindings.objects().get(object as usize) {
        Some(loaded) => target_of_symbol(bindings, object, loaded, symbol as usize).value,
        None => 0,
    }
}

/// The value of what a slot stands for, modulo 2^64, 0 where that means nothing.
fn target_value(bindings: &Bindings<'_, '_, '_>, target: &BorrowedTarget<'_>) -> u64
    ensures { result ≡ slots.target_value bindings.now.objects bindings.now.places
        (target_row target.now) % 2 ^ 64 }
{
    match target {
        BorrowedTarget::Name(name) => bindings.name_value(name),
        BorrowedTarget::Local { object, symbol } => local_value(bindings, *object, *symbol),
    }
}

/// What a line's slot holds: the value of what it stands for, or that value's offset from the thread pointer, modulo 2^64.
fn slot_value(bindings: &Bindings<'_, '_, '_>, line: &BorrowedSlot<'_>) -> u64
    ensures { result ≡ slots.slot_value bindings.now.objects bindings.now.places line.now.kind
        (target_row line.now.target) }
{
    let value = target_value(bindings, &line.target);
    match line.kind {
        SlotKind::Value => value,
        SlotKind::Thread => value.wrapping_sub(bindings.thread_pointer()),
    }
}

/// The bytes of a GOT that has the lines' slots.
pub fn wanted_bytes(
    alloc: Global,
    bindings: &Bindings<'_, '_, '_>,
    lines: &[BorrowedSlot<'_>],
) -> Result<Vec<u8>, AllocError>
    ensures { IfOk result (λ v. v.items
        ≡ replicate 8 0
        ++ flat_map (slot_bytes bindings.now.objects bindings.now.places)
        (map slot_row lines.now)) }
{
    let mut bytes = Vec::new(alloc);
    bytes.extend_from_slice(&[0; 8])?;
    for line in lines {
        let value = slot_value(bindings, line);
        bytes.extend_from_slice(&value.to_le_bytes())?;
    }
    Ok(bytes)
}

/// Whether a size in bytes is that of a GOT of so many slots.
fn is_size_of(size: u64, count: usize) -> bool
    ensures { IsTrue result ↔ (size ≡ size_with count) }
{
    if size < 8 || size % 8 != 0 {
        return false;
    }
    (size - 8) / 8 == count as u64
}

/// Whether the lines' slots stand one behind the other, from an address on.
fn stand_from(address: u64, lines: &[BorrowedSlot<'_>]) -> bool
    requires { address + 8 * length lines.now ≤ 2 ^ 46 }
    ensures { IsTrue result ↔ StandFrom address (map slot_row lines.now) }
{
    let mut at = address;
    for line in lines {
        if line.address != at {
            return false;
        }
        at += 8;
    }
    true
}

/// Whether memory has bytes from an address on.
fn holds_bytes(memory: &Memory<'_>, at: u64, bytes: &[u8]) -> bool
    requires some { 0 < length bytes.now }
    requires encloses { Any (λ h. Encloses h at (length bytes.now)) (loads memory.now) }
    ensures { IsTrue result ↔ HoldsBytes memory.now at bytes.now }
{
    match memory.run(at, bytes.len() as u64) {
        Some(held) => same_padded(held.bytes, bytes),
        None => false,
    }
}

/// Whether the slots fill a GOT behind its first word, and memory holds word and slots.
pub fn holds_got(
    alloc: Global,
    bound: &BoundLink<'_, '_>,
    got: &GotLine,
) -> Result<bool, AllocError>
    requires { LiesInImage bound.now.image got.now }
    ensures { IfOk result (λ b. IsTrue b
        ↔ HoldsGot (objects_of bound.now) (where_of bound.now) bound.now.image got.now) }
{
    let memory = bound.memory();
    let lines = bound.slots().lines();
    if !is_size_of(got.size, lines.len()) {
        return Ok(false);
    }
    if !stand_from(got.address + 8, lines) {
        return Ok(false);
    }
    let wanted = wanted_bytes(alloc, bound.bindings(), lines)?;
    Ok(holds_bytes(memory, got.address, &wanted))
}

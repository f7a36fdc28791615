//! The instruction of a relocation, as the input has it: what its type tells of the bytes in front of its field (AMD64 psABI 4.4).
ghost use Rattle.std.specs.Prelude.{◌≡◌, ◌≤◌, slice_index};
ghost use Rattle.judge_model.specs.Rewrites as rewrites;
ghost use Rattle.field_judge.specs.Rewritten.{instruction_view, rex_view};

use elf_model::{
    R_X86_64_GOTPCREL, R_X86_64_GOTPCRELX, R_X86_64_GOTTPOFF, R_X86_64_REX_GOTPCRELX, Rela,
};

/// An instruction in front of its field: REX, where it is told, the opcode, and ModRM.
#[derive(Clone, Copy, Debug)]
pub struct Instruction {
    pub rex: Option<u8>,
    pub opcode: u8,
    pub modrm: u8,
}

/// How many bytes a type tells an instruction to have in front of its field.
fn front_of_type(kind: u32) -> u8
    ensures exact { result ≡ rewrites.front_of_type kind }
    ensures few { result ≤ 3 }
{
    if kind == R_X86_64_GOTPCREL || kind == R_X86_64_GOTPCRELX {
        return 2;
    }
    if kind == R_X86_64_REX_GOTPCRELX || kind == R_X86_64_GOTTPOFF {
        return 3;
    }
    0
}

/// Whether a relocation's field is the end of its instruction.
fn is_at_end(entry: &Rela) -> bool
    ensures { result ≡ rewrites.is_at_end entry.now }
{
    entry.r_addend == -4
}

/// How many bytes a relocation tells its instruction to have in front of its field; 0 where it tells no instruction.
pub fn front_of(entry: &Rela) -> u8
    ensures exact { result ≡ rewrites.front_of entry.now }
    ensures few { result ≤ 3 }
    ensures within { result ≤ entry.now.r_offset }
{
    let front = front_of_type(entry.kind());
    if is_at_end(entry) && front as u64 <= entry.r_offset {
        return front;
    }
    0
}

/// A byte of a section; 0 past its end.
fn byte_of(bytes: &[u8], index: u64) -> u8
    ensures { result ≡ slice_index bytes.now index }
{
    match bytes.get(index as usize) {
        Some(byte) => *byte,
        None => 0,
    }
}

/// REX, where a relocation tells it.
fn rex_of(bytes: &[u8], entry: &Rela) -> Option<u8>
    ensures { rex_view result ≡ (rewrites.instruction_in bytes.now entry.now).rex }
{
    if front_of(entry) == 3 {
        return Some(byte_of(bytes, entry.r_offset.saturating_sub(3)));
    }
    None
}

/// The instruction of a relocation of a section with these bytes.
pub fn instruction_in(bytes: &[u8], entry: &Rela) -> Instruction
    ensures { instruction_view result ≡ rewrites.instruction_in bytes.now entry.now }
{
    Instruction {
        rex: rex_of(bytes, entry),
        opcode: byte_of(bytes, entry.r_offset.saturating_sub(2)),
        modrm: byte_of(bytes, entry.r_offset.saturating_sub(1)),
    }
}

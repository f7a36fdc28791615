//! The table of code that linkers rewrite (AMD64 psABI B.2; ELF Handling For Thread-Local Storage), row by row.
ghost use Rattle.std.specs.Prelude.{◌≡◌, ◌↔◌, ◌≤◌, [], ◌∷◌, Contains, IsTrue, length, map};
ghost use Rattle.judge_model.specs.Rewrites as rewrites;
ghost use Rattle.judge_model.specs.Rewrites.{rewrite_of};
ghost use Rattle.judge_model.specs.declared.rewriting.Rewriting.TheVariants as row;
ghost use Rattle.field_judge.specs.Rewritten.{front_view, instruction_view, put_view, rex_view};

use crate::instructions::Instruction;
use crate::kinds::{Formula, Kind, Range};
use elf_model::{
    R_X86_64_32, R_X86_64_32S, R_X86_64_GOTPCREL, R_X86_64_GOTPCRELX, R_X86_64_GOTTPOFF,
    R_X86_64_PC32, R_X86_64_REX_GOTPCRELX, R_X86_64_TPOFF32,
};
use judge_model::Rewriting;

/// What stands in front of a new field: what an instruction has, or an opcode alone.
#[derive(Clone, Copy, Debug)]
pub enum Front {
    Whole(Instruction),
    Opcode(u8),
}

/// What a new field holds: what one of a kind would, with an addend.
#[derive(Clone, Copy, Debug)]
pub struct Put {
    pub kind: Kind,
    pub addend: i64,
}

/// Whether a row is for relocations of a type.
pub fn has_type(row: Rewriting, kind: u32) -> bool
    ensures { IsTrue result ↔ Contains (rewrite_of row).types kind }
{
    match row {
        Rewriting::MovToLea => {
            kind == R_X86_64_GOTPCREL
                || kind == R_X86_64_GOTPCRELX
                || kind == R_X86_64_REX_GOTPCRELX
        }
        Rewriting::MovToImmediate | Rewriting::TestToImmediate | Rewriting::OperationToImmediate =>
            { kind == R_X86_64_GOTPCRELX || kind == R_X86_64_REX_GOTPCRELX }
        Rewriting::CallWithPrefix
        | Rewriting::CallBehindNop
        | Rewriting::CallBeforeNop
        | Rewriting::JumpBehindNop
        | Rewriting::JumpBeforeNop => kind == R_X86_64_GOTPCRELX,
        Rewriting::ThreadMovToImmediate
        | Rewriting::ThreadAddToImmediate
        | Rewriting::ThreadAddToLea => kind == R_X86_64_GOTTPOFF,
    }
}

/// Whether ModRM is of a register and an address relative to the instruction's end.
fn is_relative(modrm: u8) -> bool
    ensures { result ≡ rewrites.is_relative modrm }
{
    modrm < 64 && modrm % 8 == 5
}

/// Whether REX has nothing but W and R.
fn is_plain(rex: u8) -> bool
    ensures { result ≡ rewrites.is_plain rex }
{
    rex == 0x40 || (rex == 0x44 || (rex == 0x48 || rex == 0x4c))
}

/// Whether REX, where it is told, has nothing but W and R.
fn is_lawful(rex: Option<u8>) -> bool
    ensures { result ≡ rewrites.is_lawful (rex_view rex) }
{
    match rex {
        Some(rex) => is_plain(rex),
        None => true,
    }
}

/// Whether REX is told, and asks for 64 bits.
fn is_wide(rex: Option<u8>) -> bool
    ensures { result ≡ rewrites.is_wide (rex_view rex) }
{
    match rex {
        Some(rex) => rex == 0x48 || rex == 0x4c,
        None => false,
    }
}

/// Whether an instruction loads from a slot, with an opcode.
fn is_load(opcode: u8, i: Instruction) -> bool
    ensures { result ≡ rewrites.is_load opcode (instruction_view i) }
{
    is_lawful(i.rex) && (i.opcode == opcode && is_relative(i.modrm))
}

/// Whether it is one of the eight operations with a slot.
fn is_operation(i: Instruction) -> bool
    ensures { result ≡ rewrites.is_operation (instruction_view i) }
{
    is_lawful(i.rex) && (i.opcode & 0xc7 == 3 && is_relative(i.modrm))
}

/// Whether it loads 64 bits from a slot, with an opcode.
fn is_wide_load(opcode: u8, i: Instruction) -> bool
    ensures { result ≡ rewrites.is_wide_load opcode (instruction_view i) }
{
    is_wide(i.rex) && (i.opcode == opcode && is_relative(i.modrm))
}

/// Whether it goes through a slot, as ModRM tells.
fn is_branch(modrm: u8, i: Instruction) -> bool
    ensures { result ≡ rewrites.is_branch modrm (instruction_view i) }
{
    i.opcode == 0xff && i.modrm == modrm
}

/// Whether it adds 64 bits from a slot to a register that needs no SIB byte.
fn is_plain_add(i: Instruction) -> bool
    ensures { result
        ≡ (rewrite_of row.ThreadAddToLea).is_of (instruction_view i) }
{
    is_wide_load(0x03, i) && !(i.modrm / 8 == 4)
}

/// Whether a row is for an instruction.
pub fn is_of(row: Rewriting, i: Instruction) -> bool
    ensures { result ≡ (rewrite_of row).is_of (instruction_view i) }
{
    match row {
        Rewriting::MovToLea | Rewriting::MovToImmediate => is_load(0x8b, i),
        Rewriting::TestToImmediate => is_load(0x85, i),
        Rewriting::OperationToImmediate => is_operation(i),
        Rewriting::CallWithPrefix | Rewriting::CallBehindNop | Rewriting::CallBeforeNop => {
            is_branch(0x15, i)
        }
        Rewriting::JumpBehindNop | Rewriting::JumpBeforeNop => is_branch(0x25, i),
        Rewriting::ThreadMovToImmediate => is_wide_load(0x8b, i),
        Rewriting::ThreadAddToImmediate => is_wide_load(0x03, i),
        Rewriting::ThreadAddToLea => is_plain_add(i),
    }
}

/// REX where the register moves to the second operand.
fn moved(rex: u8) -> u8
    ensures { result ≡ rewrites.moved rex }
{
    if rex == 0x44 {
        return 0x41;
    }
    if rex == 0x4c {
        return 0x49;
    }
    rex
}

/// REX where it is both operands.
fn doubled(rex: u8) -> u8
    ensures { result ≡ rewrites.doubled rex }
{
    if rex == 0x4c {
        return 0x4d;
    }
    rex
}

/// REX, where it is told, with the register moved.
fn moved_rex(rex: Option<u8>) -> Option<u8>
    ensures { rex_view result ≡ map rewrites.moved (rex_view rex) }
{
    match rex {
        Some(rex) => Some(moved(rex)),
        None => None,
    }
}

fn doubled_rex(rex: Option<u8>) -> Option<u8>
    ensures { rex_view result ≡ map rewrites.doubled (rex_view rex) }
{
    match rex {
        Some(rex) => Some(doubled(rex)),
        None => None,
    }
}

/// An instruction with an opcode and the same operands.
fn with_opcode(opcode: u8, i: Instruction) -> Front
    ensures { front_view result ≡ rewrites.with_opcode opcode (instruction_view i) }
{
    Front::Whole(Instruction {
        rex: i.rex,
        opcode,
        modrm: i.modrm,
    })
}

/// One with an opcode and the register as its second operand.
fn with_operand(opcode: u8, i: Instruction) -> Front
    ensures { front_view result ≡ rewrites.with_operand opcode (instruction_view i) }
{
    Front::Whole(Instruction {
        rex: moved_rex(i.rex),
        opcode,
        modrm: 0xc0 | (i.modrm / 8),
    })
}

/// One of the eight operations with the register as its second operand.
fn with_operation(i: Instruction) -> Front
    ensures { front_view result ≡ rewrites.with_operation (instruction_view i) }
{
    Front::Whole(Instruction {
        rex: moved_rex(i.rex),
        opcode: 0x81,
        modrm: (0xc0 | (i.modrm / 8)) | (i.opcode & 0x38),
    })
}

/// One with an opcode and the register as both operands.
fn with_both(opcode: u8, i: Instruction) -> Front
    ensures { front_view result ≡ rewrites.with_both opcode (instruction_view i) }
{
    Front::Whole(Instruction {
        rex: doubled_rex(i.rex),
        opcode,
        modrm: (0x80 | (i.modrm & 0x38)) | (i.modrm / 8),
    })
}

/// An opcode behind another byte.
fn behind_byte(byte: u8, opcode: u8) -> Front
    ensures { front_view result ≡ byte ∷ opcode ∷ [] }
{
    Front::Whole(Instruction {
        rex: None,
        opcode: byte,
        modrm: opcode,
    })
}

/// What a row has in front of its field for an instruction.
pub fn front_by(row: Rewriting, i: Instruction) -> Front
    ensures { front_view result ≡ (rewrite_of row).front (instruction_view i) }
{
    match row {
        Rewriting::MovToLea => with_opcode(0x8d, i),
        Rewriting::MovToImmediate | Rewriting::ThreadMovToImmediate => with_operand(0xc7, i),
        Rewriting::TestToImmediate => with_operand(0xf7, i),
        Rewriting::OperationToImmediate => with_operation(i),
        Rewriting::CallWithPrefix => behind_byte(0x67, 0xe8),
        Rewriting::CallBehindNop => behind_byte(0x90, 0xe8),
        Rewriting::CallBeforeNop => Front::Opcode(0xe8),
        Rewriting::JumpBehindNop => behind_byte(0x90, 0xe9),
        Rewriting::JumpBeforeNop => Front::Opcode(0xe9),
        Rewriting::ThreadAddToImmediate => with_operand(0x81, i),
        Rewriting::ThreadAddToLea => with_both(0x8d, i),
    }
}

/// The address from the instruction's end.
fn from_end() -> Put
    ensures { put_view result ≡ rewrites.from_end }
{
    Put {
        kind: Kind {
            number: R_X86_64_PC32,
            width: 4,
            formula: Formula::SymbolFromPlace,
            range: Range::Signed,
        },
        addend: -4,
    }
}

/// The address, as an instruction extends it.
fn address_for(i: Instruction) -> Put
    ensures { put_view result ≡ rewrites.address_for (instruction_view i) }
{
    if is_wide(i.rex) {
        return Put {
            kind: Kind {
                number: R_X86_64_32S,
                width: 4,
                formula: Formula::Symbol,
                range: Range::Signed,
            },
            addend: 0,
        };
    }
    Put {
        kind: Kind {
            number: R_X86_64_32,
            width: 4,
            formula: Formula::Symbol,
            range: Range::Unsigned,
        },
        addend: 0,
    }
}

/// The thread offset.
fn thread_offset() -> Put
    ensures { put_view result ≡ rewrites.thread_offset }
{
    Put {
        kind: Kind {
            number: R_X86_64_TPOFF32,
            width: 4,
            formula: Formula::ThreadOffset,
            range: Range::Signed,
        },
        addend: 0,
    }
}

/// What a row's field holds for an instruction.
pub fn put_by(row: Rewriting, i: Instruction) -> Put
    ensures { put_view result ≡ (rewrite_of row).put (instruction_view i) }
{
    match row {
        Rewriting::MovToLea
        | Rewriting::CallWithPrefix
        | Rewriting::CallBehindNop
        | Rewriting::CallBeforeNop
        | Rewriting::JumpBehindNop
        | Rewriting::JumpBeforeNop => from_end(),
        Rewriting::MovToImmediate | Rewriting::TestToImmediate | Rewriting::OperationToImmediate =>
            address_for(i),
        Rewriting::ThreadMovToImmediate
        | Rewriting::ThreadAddToImmediate
        | Rewriting::ThreadAddToLea => thread_offset(),
    }
}

/// How many nops a row has behind its field, by which this begins earlier.
pub fn nops_behind(row: Rewriting) -> u8
    ensures exact { result ≡ length (rewrite_of row).behind }
    ensures few { result ≤ 1 }
{
    match row {
        Rewriting::CallBeforeNop | Rewriting::JumpBeforeNop => 1,
        Rewriting::MovToLea
        | Rewriting::MovToImmediate
        | Rewriting::TestToImmediate
        | Rewriting::OperationToImmediate
        | Rewriting::CallWithPrefix
        | Rewriting::CallBehindNop
        | Rewriting::JumpBehindNop
        | Rewriting::ThreadMovToImmediate
        | Rewriting::ThreadAddToImmediate
        | Rewriting::ThreadAddToLea => 0,
    }
}

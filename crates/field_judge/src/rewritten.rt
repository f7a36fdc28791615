//! Whether memory has code in place of an instruction that a linker may have rewritten it to.
ghost use Rattle.std.specs.Prelude.{◌≡◌, ◌↔◌, ◌+◌, ◌<◌, ℕ, List, Any, Contains, IsTrue, true};
ghost use Rattle.judge_model.specs.Memory.{Holds};
ghost use Rattle.judge_model.specs.Rewrites.{front_bytes, rewrite_of, rewritings};
ghost use Rattle.field_judge.specs.Given.{Given, IsGiven};
ghost use Rattle.field_judge.specs.Rewritten.{IsOfKind, IsPlaceRight, IsRewrittenIn, IsRowFieldRight, IsUnchangedIn, front_view, instruction_view, rewritten_given};

use crate::fields::{Asked, is_right};
use crate::instructions::Instruction;
use crate::kinds::foreign_kind;
use crate::rewrites::{Front, front_by, has_type, is_of, nops_behind, put_by};
use foreign_image::ForeignImage;
use judge_model::Rewriting;
use memory_judge::{Taken, has_byte, holds_bytes};

/// The rows of the table.
const ROWS: [Rewriting; 12] = [
    Rewriting::MovToLea,
    Rewriting::MovToImmediate,
    Rewriting::TestToImmediate,
    Rewriting::OperationToImmediate,
    Rewriting::CallWithPrefix,
    Rewriting::CallBehindNop,
    Rewriting::CallBeforeNop,
    Rewriting::JumpBehindNop,
    Rewriting::JumpBeforeNop,
    Rewriting::ThreadMovToImmediate,
    Rewriting::ThreadAddToImmediate,
    Rewriting::ThreadAddToLea,
];

/// Whether memory holds what an instruction has in front of its field, at an offset behind an address.
fn holds_instruction(image: &ForeignImage<'_>, at: u64, offset: u64, i: Instruction) -> bool
    ensures { IsTrue result ↔ Holds image.now (at + offset) (front_bytes (instruction_view i)) }
{
    match i.rex {
        Some(rex) => holds_bytes(image, at, offset, &[rex, i.opcode, i.modrm]),
        None => holds_bytes(image, at, offset, &[i.opcode, i.modrm]),
    }
}

/// Whether memory holds what stands in front of a field.
fn holds_front(image: &ForeignImage<'_>, at: u64, offset: u64, front: Front) -> bool
    ensures { IsTrue result ↔ Holds image.now (at + offset) (front_view front) }
{
    match front {
        Front::Whole(i) => holds_instruction(image, at, offset, i),
        Front::Opcode(opcode) => holds_bytes(image, at, offset, &[opcode]),
    }
}

/// Whether memory holds the nops of a row behind a field of four bytes.
fn holds_behind(image: &ForeignImage<'_>, at: u64, offset: u64, row: Rewriting) -> bool
    ensures { IsTrue result ↔ Holds image.now (at + offset + 4) (rewrite_of row).behind }
{
    if nops_behind(row) == 0 {
        return true;
    }
    has_byte(image, at, offset, 4, 0x90)
}

/// What a field asks that begins so many bytes earlier, with an addend.
fn earlier_by(asked: &Asked, earlier: u8, addend: i64) -> Asked
    ensures { (image : List ℕ) (g : Given) → IsGiven image asked.now g
        → IsGiven image result (rewritten_given g earlier addend) }
{
    Asked {
        value: asked.value,
        addend,
        at: asked.at,
        offset: asked.offset.saturating_sub(earlier as u64),
        size: asked.size,
        got: asked.got,
        thread: asked.thread,
        thread_pointer: asked.thread_pointer,
    }
}

/// Whether a row's field is right where an instruction's field was.
fn holds_field(
    image: &ForeignImage<'_>,
    taken: &Taken<'_>,
    asked: &Asked,
    i: Instruction,
    row: Rewriting,
) -> bool
    ensures { (g : Given) → IsGiven image.now asked.now g
        → IsTrue result ↔ IsRowFieldRight image.now taken.now g (instruction_view i) row }
{
    let put = put_by(row, i);
    let field = earlier_by(asked, nops_behind(row), put.addend);
    is_right(image, taken, &field, &put.kind)
}

/// Whether a row is for an instruction of a relocation of a type.
fn is_for(row: Rewriting, kind: u32, i: Instruction) -> bool
    ensures { IsTrue result ↔ (Contains (rewrite_of row).types kind
        × ((rewrite_of row).is_of (instruction_view i) ≡ true)) }
{
    has_type(row, kind) && is_of(row, i)
}

/// Whether memory has what a row says in place of an instruction with so many bytes in front of its field, of a relocation of a type,
/// among things that take up memory.
fn is_by(
    image: &ForeignImage<'_>,
    taken: &Taken<'_>,
    asked: &Asked,
    kind: u32,
    front: u8,
    i: Instruction,
    row: Rewriting,
) -> bool
    ensures { (g : Given) → IsGiven image.now asked.now g
        → IsTrue result ↔ IsRewrittenIn image.now taken.now g kind front (instruction_view i) row }
{
    if !is_for(row, kind, i) {
        return false;
    }
    let start = asked.offset.saturating_sub(front as u64);
    if !holds_front(image, asked.at, start, front_by(row, i)) {
        return false;
    }
    let field = asked.offset.saturating_sub(nops_behind(row) as u64);
    if !holds_behind(image, asked.at, field, row) {
        return false;
    }
    holds_field(image, taken, asked, i, row)
}

/// Whether memory has what one of some rows says in place of an instruction with so many bytes in front of its field, of a relocation
/// of a type, among things that take up memory.
fn is_by_one(
    image: &ForeignImage<'_>,
    taken: &Taken<'_>,
    asked: &Asked,
    kind: u32,
    front: u8,
    i: Instruction,
    rows: &[Rewriting],
) -> bool
    ensures { (g : Given) → IsGiven image.now asked.now g → IsTrue result
        ↔ Any (IsRewrittenIn image.now taken.now g kind front (instruction_view i)) rows.now }
{
    for row in rows {
        if is_by(image, taken, asked, kind, front, i, *row) {
            return true;
        }
    }
    false
}

/// Whether memory has what some row of the table says.
fn is_rewritten(
    image: &ForeignImage<'_>,
    taken: &Taken<'_>,
    asked: &Asked,
    kind: u32,
    front: u8,
    i: Instruction,
) -> bool
    ensures { (g : Given) → IsGiven image.now asked.now g → IsTrue result
        ↔ Any (IsRewrittenIn image.now taken.now g kind front (instruction_view i)) rewritings }
{
    is_by_one(image, taken, asked, kind, front, i, &ROWS)
}

/// Whether the field of a relocation of a type is right, among things that take up memory.
pub fn is_of_kind(image: &ForeignImage<'_>, taken: &Taken<'_>, asked: &Asked, kind: u32) -> bool
    ensures { (g : Given) → IsGiven image.now asked.now g
        → IsTrue result ↔ IsOfKind image.now taken.now g kind }
{
    match foreign_kind(kind) {
        Some(kind) => is_right(image, taken, asked, &kind),
        None => false,
    }
}

/// Whether memory has the input's instruction, with so many bytes in front of its field, and this is right.
fn is_unchanged(
    image: &ForeignImage<'_>,
    taken: &Taken<'_>,
    asked: &Asked,
    kind: u32,
    front: u8,
    i: Instruction,
) -> bool
    requires { 0 < front }
    ensures { (g : Given) → IsGiven image.now asked.now g → IsTrue result
        ↔ IsUnchangedIn image.now taken.now g kind front (instruction_view i) }
{
    let start = asked.offset.saturating_sub(front as u64);
    if !holds_instruction(image, asked.at, start, i) {
        return false;
    }
    is_of_kind(image, taken, asked, kind)
}

/// Whether memory has an instruction as the input has it, with so many bytes in front of its field, and this is right for a
/// relocation of a type; or, in code, what some row says in place of it.
pub fn is_place_right(
    image: &ForeignImage<'_>,
    taken: &Taken<'_>,
    asked: &Asked,
    kind: u32,
    front: u8,
    code: bool,
    i: Instruction,
) -> bool
    requires { 0 < front }
    ensures { (g : Given) → IsGiven image.now asked.now g → IsTrue result
        ↔ IsPlaceRight image.now taken.now g kind front code (instruction_view i) }
{
    if is_unchanged(image, taken, asked, kind, front, i) {
        return true;
    }
    if !code {
        return false;
    }
    is_rewritten(image, taken, asked, kind, front, i)
}

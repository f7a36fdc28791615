//! Whether the records of a section of call frames have their copies in the linker's list, where lines say that they have.
ghost use Rattle.std.specs.Prelude.{◌≡◌, ◌↔◌, ◌+◌, ◌<◌, ◌≤◌, ◌^◌, ℕ, Contains, IfSome, IsTrue};
ghost use Rattle.check_link.specs.Views.{piece_view};
ghost use Rattle.judge_model.specs.Frames.{HasCopyAt, IsCopied, IsCopy, IsCut, IsFunction, IsNumberRight, record_with, records_of};
ghost use Rattle.judge_model.specs.Certificates.{merged_at};
ghost use Rattle.memory_judge.specs.Rests.{IsBeside};
ghost use Rattle.frame_judge.specs.Copies.{IsApart};

use call_frames::{CallFrames, SectionFields, is_alike};
use check_link::Piece;
use frame_code::is_cut_at;
use judge_model::FrameRecord;
use link_fields::MergedLines;
use memory_judge::FieldSpan;

/// Whether a field has no byte from one on and below another.
fn is_apart(span: &FieldSpan, from: u64, to: u64) -> bool
    ensures { IsTrue result ↔ IsApart from to span.now }
{
    if to <= from || span.width == 0 {
        return true;
    }
    to <= span.at || span.at as u128 + span.width as u128 <= from as u128
}

/// Whether no field has a byte from one on and below another.
fn are_beside(fields: &SectionFields<'_>, from: u64, to: u64) -> bool
    ensures { IsTrue result ↔ ((k : ℕ) → from ≤ k → k < to → IsBeside fields.now k) }
{
    for span in fields.near(from, to) {
        if !is_apart(span, from, to) {
            return false;
        }
    }
    true
}

/// Whether the number of a record's copy at an address is right: 0 in a common part, else what leads to the copy of the record's common
/// part, by the lines of records.
fn is_number_right(
    lines: &MergedLines<'_>,
    piece: &Piece<'_>,
    record: &FrameRecord,
    copy: &FrameRecord,
    at: u128,
) -> bool
    requires { at < 2 ^ 65 }
    ensures { IsTrue result
        ↔ IsNumberRight lines.now (piece_view piece.now) record.now copy.now at }
{
    if record.id == 0 {
        return copy.id == 0;
    }
    let place = record.offset as u128 + 4;
    let common = place.saturating_sub(record.id as u128);
    match lines.at(piece.object, piece.section, common) {
        Some(found) => found <= at + 4 && at + 4 - found == copy.id as u128,
        None => false,
    }
}

/// Whether a record's copy that is shorter lacks nothing but instructions that do nothing.
fn is_cut_right(
    frames: &CallFrames<'_>,
    fields: &SectionFields<'_>,
    record: &FrameRecord,
    size: u64,
) -> bool
    requires { Contains (records_of frames.now) record.now }
    ensures { IsTrue result ↔ IsCut (IsBeside fields.now) frames.now record.now size }
{
    if !is_cut_at(frames.bytes(), record, size) {
        return false;
    }
    are_beside_record(frames, fields, record, size)
}

/// Whether a record's copy of a size lacks nothing but such instructions, if it is shorter.
fn is_cut_if_short(
    frames: &CallFrames<'_>,
    fields: &SectionFields<'_>,
    record: &FrameRecord,
    size: u64,
) -> bool
    requires { Contains (records_of frames.now) record.now }
    ensures { IsTrue result ↔ (size < record.now.size
        → IsCut (IsBeside fields.now) frames.now record.now size) }
{
    if record.size <= size {
        return true;
    }
    is_cut_right(frames, fields, record, size)
}

/// Whether no field has a byte of a record from one on.
fn are_beside_record(
    frames: &CallFrames<'_>,
    fields: &SectionFields<'_>,
    record: &FrameRecord,
    from: u64,
) -> bool
    requires { Contains (records_of frames.now) record.now }
    ensures { IsTrue result ↔ ((k : ℕ) → from ≤ k → k < record.now.size
        → IsBeside fields.now (record.now.offset + k)) }
{
    let _part = frames.part(record);
    if record.size <= from {
        return true;
    }
    are_beside(fields, record.offset + from, record.offset + record.size)
}

/// Whether a record that is no common part has a field right behind its number.
fn begins_right(frames: &CallFrames<'_>, fields: &SectionFields<'_>, record: &FrameRecord) -> bool
    requires { Contains (records_of frames.now) record.now }
    ensures { IsTrue result ↔ (IsFunction record.now
        → (8 < record.now.size) × (¬ IsBeside fields.now (record.now.offset + 8))) }
{
    if record.id == 0 {
        return true;
    }
    if record.size <= 8 {
        return false;
    }
    let _part = frames.part(record);
    !are_beside(fields, record.offset + 8, record.offset + 9)
}

/// Whether a record of the linker's list is the copy at an address of a record of a section, given the section's fields and the lines of
/// records.
fn is_copy(
    piece: &Piece<'_>,
    frames: &CallFrames<'_>,
    fields: &SectionFields<'_>,
    lines: &MergedLines<'_>,
    list: &CallFrames<'_>,
    record: &FrameRecord,
    copy: &FrameRecord,
    at: u128,
) -> bool
    requires section { frames.now ≡ (piece_view piece.now).bytes }
    requires listed { Contains (records_of frames.now) record.now }
    requires copied { Contains (records_of list.now) copy.now }
    requires low { at < 2 ^ 65 }
    ensures { IsTrue result ↔ IsCopy lines.now (IsBeside fields.now) list.now
        (piece_view piece.now) record.now at copy.now }
{
    if !is_number_right(lines, piece, record, copy, at) {
        return false;
    }
    if !begins_right(frames, fields, record) {
        return false;
    }
    if !is_cut_if_short(frames, fields, record, copy.size) {
        return false;
    }
    is_alike(frames, record, list, copy, fields)
}

/// The record of a list that is so many bytes behind its beginning.
fn record_behind(list: &CallFrames<'_>, offset: u128) -> Option<FrameRecord>
    ensures exact { result ≡ record_with list.now offset }
    ensures low { IfSome result (λ t. offset < 2 ^ 64) }
    ensures there { IfSome result (λ t. Contains (records_of list.now) t) }
{
    let _records = list.records();
    if offset > u64::MAX as u128 {
        return None;
    }
    list.find(offset as u64)
}

/// Whether the linker's list, which begins at an address, has the copy at another one of a record of a section.
fn has_copy(
    piece: &Piece<'_>,
    frames: &CallFrames<'_>,
    fields: &SectionFields<'_>,
    lines: &MergedLines<'_>,
    list: &CallFrames<'_>,
    address: u64,
    record: &FrameRecord,
    at: u128,
) -> bool
    requires section { frames.now ≡ (piece_view piece.now).bytes }
    requires listed { Contains (records_of frames.now) record.now }
    ensures { IsTrue result ↔ HasCopyAt lines.now (IsBeside fields.now) address list.now
        (piece_view piece.now) record.now at }
{
    if at < address as u128 {
        return false;
    }
    match record_behind(list, at - address as u128) {
        Some(copy) => is_copy(piece, frames, fields, lines, list, record, &copy, at),
        None => false,
    }
}

/// Whether the linker's list has the copy of a record of a section where a line says so, if one does.
fn is_record_copied(
    piece: &Piece<'_>,
    frames: &CallFrames<'_>,
    fields: &SectionFields<'_>,
    lines: &MergedLines<'_>,
    list: &CallFrames<'_>,
    address: u64,
    record: &FrameRecord,
) -> bool
    requires section { frames.now ≡ (piece_view piece.now).bytes }
    requires listed { Contains (records_of frames.now) record.now }
    ensures { IsTrue result
        ↔ IfSome (merged_at lines.now (piece_view piece.now).object (piece_view piece.now).section record.now.offset)
        (HasCopyAt lines.now (IsBeside fields.now) address list.now (piece_view piece.now) record.now) }
{
    match lines.at(piece.object, piece.section, record.offset as u128) {
        Some(at) => has_copy(piece, frames, fields, lines, list, address, record, at),
        None => true,
    }
}

/// Whether the linker's list has the copies of a section's records where lines say so, given the section's fields.
pub fn is_section_copied(
    piece: &Piece<'_>,
    frames: &CallFrames<'_>,
    fields: &SectionFields<'_>,
    lines: &MergedLines<'_>,
    list: &CallFrames<'_>,
    address: u64,
) -> bool
    requires section { frames.now ≡ (piece_view piece.now).bytes }
    ensures { IsTrue result ↔ IsCopied lines.now (IsBeside fields.now) address list.now (piece_view piece.now) }
{
    for record in frames.records() {
        if !is_record_copied(piece, frames, fields, lines, list, address, record) {
            return false;
        }
    }
    true
}

//! Whether an image has right tables of its list of call frames, and one where the words ask for it.
ghost use Rattle.std.specs.Prelude.{◌≡◌, ◌↔◌, All, Any, IfOk, IsTrue, option_map, true};
ghost use Rattle.std.specs.List.{list_any};
ghost use Rattle.judge_model.specs.Frames.{IsFunction, records_of};
ghost use Rattle.judge_model.specs.FrameTables.{IsTableAt, list_bytes};
ghost use Rattle.judge_model.specs.Headers.{is_of_type, pt_gnu_eh_frame};
ghost use Rattle.frame_judge.specs.Tables.{AreTablesOf, AreTablesRight, IsListRead, IsTableIn};

use crate::list::{has_area, stretch_bytes};
use call_frames::CallFrames;
use elf_model::ProgramHeader;
use foreign_image::{ForeignImage, has_frame_table, is_frame_table, table_stretch};
use frame_table::is_table;
use judge_model::{FrameRecord, StretchLine};
use std::alloc::{AllocError, Global};

/// Whether memory has, at a stretch, the table of a list with these records.
fn is_table_at(
    alloc: Global,
    image: &ForeignImage<'_>,
    list: Option<StretchLine>,
    frames: &CallFrames<'_>,
    t: &StretchLine,
) -> Result<bool, AllocError>
    ensures { IfOk result (λ b. IsTrue b ↔ IsTableAt image.now list t.now frames.now) }
{
    match stretch_bytes(image, t) {
        Some(bytes) => is_table(alloc, list, frames, t.address, bytes),
        None => Ok(false),
    }
}

/// Whether a header is that of a right table of a list with these records.
fn is_table_in(
    alloc: Global,
    image: &ForeignImage<'_>,
    areas: &[StretchLine],
    list: Option<StretchLine>,
    frames: &CallFrames<'_>,
    h: &ProgramHeader,
) -> Result<bool, AllocError>
    ensures { IfOk result (λ b. IsTrue b ↔ IsTableIn image.now areas.now list frames.now h.now) }
{
    let t = table_stretch(h);
    if h.p_filesz != h.p_memsz || !has_area(areas, &t) {
        return Ok(false);
    }
    is_table_at(alloc, image, list, frames, &t)
}

/// Whether a header is, or isn't one of a table.
fn is_right_if_table(
    alloc: Global,
    image: &ForeignImage<'_>,
    areas: &[StretchLine],
    list: Option<StretchLine>,
    frames: &CallFrames<'_>,
    h: &ProgramHeader,
) -> Result<bool, AllocError>
    ensures { IfOk result (λ b. IsTrue b ↔ (is_of_type pt_gnu_eh_frame h.now ≡ true
        → IsTableIn image.now areas.now list frames.now h.now)) }
{
    if !is_frame_table(h) {
        return Ok(true);
    }
    is_table_in(alloc, image, areas, list, frames, h)
}

/// Whether each table of some headers is a right one of a list with these records.
fn are_tables_in(
    alloc: Global,
    image: &ForeignImage<'_>,
    areas: &[StretchLine],
    list: Option<StretchLine>,
    frames: &CallFrames<'_>,
    headers: &[ProgramHeader],
) -> Result<bool, AllocError>
    ensures { IfOk result (λ b. IsTrue b ↔ All (λ h. is_of_type pt_gnu_eh_frame h ≡ true
        → IsTableIn image.now areas.now list frames.now h) headers.now) }
{
    for h in headers {
        if !is_right_if_table(alloc, image, areas, list, frames, h)? {
            return Ok(false);
        }
    }
    Ok(true)
}

/// Whether one of some records is of a function.
fn has_function(records: &[FrameRecord]) -> bool
    ensures { IsTrue result ↔ Any IsFunction records.now }
{
    records.iter().any(|r| r.id != 0)
}

/// Whether an image has a table where the words ask for it, and a list has a function.
fn has_asked(asked: bool, frames: &CallFrames<'_>, headers: &[ProgramHeader]) -> bool
    ensures { IsTrue result ↔ (asked ≡ true → Any IsFunction (records_of frames.now)
        → list_any (is_of_type pt_gnu_eh_frame) headers.now ≡ true) }
{
    if !asked || has_frame_table(headers) {
        return true;
    }
    !has_function(frames.records())
}

/// Whether the tables of a list with these records are right.
fn are_tables_of(
    alloc: Global,
    image: &ForeignImage<'_>,
    areas: &[StretchLine],
    list: Option<StretchLine>,
    asked: bool,
    frames: &CallFrames<'_>,
) -> Result<bool, AllocError>
    ensures { IfOk result (λ b. IsTrue b
        ↔ AreTablesOf image.now areas.now list asked frames.now) }
{
    let headers = image.headers();
    if !has_asked(asked, frames, headers) {
        return Ok(false);
    }
    are_tables_in(alloc, image, areas, list, frames, headers)
}

/// The bytes of a list; none where there is no list, and None where no segment's file part has it.
fn list_bytes<'a>(image: &ForeignImage<'a>, list: Option<StretchLine>) -> Option<&'a [u8]>
    ensures { option_map (λ b. b.now) result ≡ list_bytes image.now list }
{
    match list {
        Some(s) => stretch_bytes(image, &s),
        None => Some(&[]),
    }
}

/// Whether the tables of an image's list of call frames are right, and there is one where the words ask for it. The list has been read.
pub fn are_tables_right(
    alloc: Global,
    image: &ForeignImage<'_>,
    areas: &[StretchLine],
    list: Option<StretchLine>,
    asked: bool,
) -> Result<bool, AllocError>
    requires { IsListRead image.now list }
    ensures { IfOk result (λ b. IsTrue b ↔ AreTablesRight image.now areas.now list asked) }
{
    let Some(bytes) = list_bytes(image, list) else {
        return Ok(false);
    };
    let Some(frames) = CallFrames::read(alloc, bytes)? else {
        return Ok(false);
    };
    are_tables_of(alloc, image, areas, list, asked, &frames)
}

//! Whether the fields of call frames in the linker's list are right, and each function that the image has keeps its record.
ghost use Rattle.std.specs.Prelude.{◌≡◌, ◌↔◌, ◌%◌, ◌^◌, All, IsTrue};
ghost use Rattle.check_load.specs.KeptRelocations.{relocation_at};
ghost use Rattle.check_load.specs.Views.{loaded_view};
ghost use Rattle.elf_model.specs.Link.Relocation.{relocations, relocations_from};
ghost use Rattle.field_judge.specs.Given.{pointer_of};
ghost use Rattle.frame_judge.specs.Held.{IsListFieldIn, IsRightInListBy, IsRightUnlessOut};
ghost use Rattle.judge_model.specs.Certificates.{merged_at};

use crate::held_fields::{is_field_held, means_nothing};
use crate::plain_relocations::is_begin;
use crate::sections::FramedSections;
use check_load::{KeptRelocation, Loaded};
use field_judge::thread_pointer;
use link_fields::{Drops, LinkParts, MergedLines, is_in_list};
use memory_judge::Taken;

/// Whether the field of a relocation of object `number` is right, whose record has a copy or none.
fn is_list_field_right<'a>(
    parts: &LinkParts<'_, '_, 'a>,
    taken: &Taken<'_>,
    framed: &FramedSections<'_, '_>,
    number: u64,
    loaded: &Loaded<'a>,
    relocation: &KeptRelocation,
    thread_pointer: u64,
    at: Option<u128>,
) -> bool
    requires { thread_pointer ≡ pointer_of parts.now.image % 2 ^ 64 }
    ensures { IsTrue result ↔ IsListFieldIn parts.now taken.now framed.now
        (relocation_at number (loaded_view loaded.now) relocation.now) at }
{
    match at {
        Some(at) => is_field_held(parts, taken, number, loaded, relocation, thread_pointer, at),
        None => {
            if !is_begin(framed, number, relocation) {
                return true;
            }
            means_nothing(parts, number, loaded, relocation, thread_pointer)
        }
    }
}

/// Whether the field of a relocation of object `number` is right, if it is one of call frames in the list.
fn is_right_in_list<'a>(
    parts: &LinkParts<'_, '_, 'a>,
    taken: &Taken<'_>,
    framed: &FramedSections<'_, '_>,
    lines: &MergedLines<'_>,
    number: u64,
    loaded: &Loaded<'a>,
    relocation: &KeptRelocation,
    thread_pointer: u64,
) -> bool
    requires { thread_pointer ≡ pointer_of parts.now.image % 2 ^ 64 }
    ensures { IsTrue result ↔ IsRightInListBy parts.now taken.now framed.now lines.now
        (relocation_at number (loaded_view loaded.now) relocation.now) }
{
    if !is_in_list(parts, number, loaded, relocation.section) {
        return true;
    }
    let offset = relocation.entry.r_offset as u128;
    let at = lines.at(number, relocation.section as u64, offset);
    is_list_field_right(
        parts,
        taken,
        framed,
        number,
        loaded,
        relocation,
        thread_pointer,
        at,
    )
}

/// Whether it is, or its section is left out.
fn is_right_unless_out<'a>(
    parts: &LinkParts<'_, '_, 'a>,
    taken: &Taken<'_>,
    framed: &FramedSections<'_, '_>,
    lines: &MergedLines<'_>,
    drops: &Drops<'_>,
    number: u64,
    loaded: &Loaded<'a>,
    relocation: &KeptRelocation,
    thread_pointer: u64,
) -> bool
    requires { thread_pointer ≡ pointer_of parts.now.image % 2 ^ 64 }
    ensures { IsTrue result ↔ IsRightUnlessOut parts.now taken.now framed.now lines.now drops.now
        (relocation_at number (loaded_view loaded.now) relocation.now) }
{
    if drops.has(number, relocation.section as u64) {
        return true;
    }
    is_right_in_list(
        parts,
        taken,
        framed,
        lines,
        number,
        loaded,
        relocation,
        thread_pointer,
    )
}

/// Whether the fields of the relocations of object `number` are right, but for those of sections that are left out.
fn are_own_right<'a>(
    parts: &LinkParts<'_, '_, 'a>,
    taken: &Taken<'_>,
    framed: &FramedSections<'_, '_>,
    lines: &MergedLines<'_>,
    drops: &Drops<'_>,
    number: u64,
    loaded: &Loaded<'a>,
    pointer: u64,
) -> bool
    requires { pointer ≡ pointer_of parts.now.image % 2 ^ 64 }
    ensures { IsTrue result ↔ All (IsRightUnlessOut parts.now taken.now framed.now lines.now drops.now)
        (relocations_from number (loaded_view loaded.now)) }
{
    for relocation in loaded.relocations() {
        if !is_right_unless_out(
            parts,
            taken,
            framed,
            lines,
            drops,
            number,
            loaded,
            &relocation,
            pointer,
        ) {
            return false;
        }
    }
    true
}

/// Whether the fields of all relocations of call frames in the list are right, but for those of sections that are left out.
pub fn are_list_fields_right(
    parts: &LinkParts<'_, '_, '_>,
    taken: &Taken<'_>,
    framed: &FramedSections<'_, '_>,
    lines: &MergedLines<'_>,
    drops: &Drops<'_>,
) -> bool
    ensures { IsTrue result ↔ All (IsRightUnlessOut parts.now taken.now framed.now lines.now drops.now)
        (relocations parts.now.objects) }
{
    let objects = parts.names.objects();
    let pointer = thread_pointer(parts.image);
    for k in 0..objects.len() {
        if !are_own_right(
            parts,
            taken,
            framed,
            lines,
            drops,
            k as u64,
            &objects[k],
            pointer,
        ) {
            return false;
        }
    }
    true
}

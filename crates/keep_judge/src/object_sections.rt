//! Whether the sections of an object are in an image that have to be, each by itself.
ghost use Rattle.std.specs.Prelude.{◌≡◌, ◌==◌, ◌↔◌, ◌||◌, ◌<◌, ℕ, All, IfOk, IsTrue, length};
ghost use Rattle.std.specs.List.{list_any};
ghost use Rattle.elf_model.specs.Inputs.ObjectFile.{groups, sections};
ghost use Rattle.elf_model.specs.Link.Pieces.{has_flag};
ghost use Rattle.elf_model.specs.Marks.{is_marked};
ghost use Rattle.elf_model.specs.declared.constants.TheConstants.{SHF_LINK_ORDER};
ghost use Rattle.check_load.specs.Kept.{piece_at};
ghost use Rattle.check_load.specs.Views.{loaded_view};
ghost use Rattle.keep_judge.specs.Collected.{ArePiecesRight, IsLinkRight, IsOutRight, IsPieceRight, IsRightIn, is_grouped, is_root_kind, is_there};

use crate::presence::{is_never_there, is_there};
use crate::root_kinds::{is_root_name, is_root_type};
use check_load::{Loaded, filled};
use elf_model::{SHF_LINK_ORDER, SectionHeader};
use elf_read::Group;
use link_fields::Drops;
use std::alloc::{AllocError, Global};

/// Marks the members of a group.
fn mark_members(marks: &mut [bool], members: &[u32])
    requires { All (λ k. k < length marks.old) members.now }
    ensures len { length marks.new ≡ length marks.old }
    ensures marked { (i : ℕ) → is_marked marks.new i
        ≡ (is_marked marks.old i || list_any (λ m. m == i) members.now) }
{
    for member in members {
        marks[*member as usize] = true;
    }
}

/// Marks the members of groups.
fn mark_groups(marks: &mut [bool], groups: &[Group<'_>])
    requires { All (λ g. All (λ k. k < length marks.old) g.members) groups.now }
    ensures { (i : ℕ) → is_marked marks.new i
        ≡ (is_marked marks.old i || list_any (λ g. list_any (λ m. m == i) g.members) groups.now) }
{
    for group in groups {
        mark_members(marks, group.members());
    }
}

/// A mark for each section of an object: whether it is a member of a group.
fn grouped_sections(alloc: Global, loaded: &Loaded<'_>) -> Result<Vec<bool>, AllocError>
    ensures { IfOk result (λ v. (i : ℕ) → is_marked v.items i ≡ is_grouped (loaded_view loaded.now) i) }
{
    let mut marks = filled(alloc, false, loaded.object.sections().len())?;
    mark_groups(&mut marks, loaded.object.groups());
    Ok(marks)
}

/// Whether a number is marked; one past the marks isn't.
pub fn is_marked(marks: &[bool], number: u32) -> bool
    ensures { result ≡ is_marked marks.now number }
{
    match marks.get(number as usize) {
        Some(mark) => *mark,
        None => false,
    }
}

/// Whether a section of an object stays by its name, its type or its flags.
fn is_root_kind(loaded: &Loaded<'_>, section: u32, header: &SectionHeader, grouped: bool) -> bool
    ensures { (n : ℕ) → header.now ≡ (piece_at n (loaded_view loaded.now) section).header
        → result ≡ is_root_kind grouped (piece_at n (loaded_view loaded.now) section) }
{
    match loaded.object.section_name(section as usize) {
        Some(name) => is_root_name(name) || is_root_type(header, grouped),
        None => is_root_type(header, grouped),
    }
}

/// Whether a section is left out where no image has it, and isn't where it stays.
fn is_out_right(never: bool, root: bool, out: bool) -> bool
    ensures { IsTrue result ↔ IsOutRight never root out }
{
    if never {
        return out;
    }
    if root {
        return !out;
    }
    true
}

/// Whether a section is there where the one is to which it is linked.
fn is_link_right(ordered: bool, out: bool, linked: bool) -> bool
    ensures { IsTrue result ↔ IsLinkRight ordered out linked }
{
    if ordered {
        return out != linked;
    }
    true
}

/// Whether a section of object `number` is in the image where it has to be.
fn is_section_right(
    drops: &Drops<'_>,
    number: u64,
    loaded: &Loaded<'_>,
    section: u32,
    grouped: bool,
) -> bool
    ensures { IsTrue result ↔ IsPieceRight drops.now grouped
        (is_there drops.now number (loaded_view loaded.now)
        (piece_at number (loaded_view loaded.now) section).header.sh_link)
        (piece_at number (loaded_view loaded.now) section) }
{
    let header = loaded.object.section(section as usize);
    let out = drops.has(number, section as u64);
    let root = is_root_kind(loaded, section, &header, grouped);
    if !is_out_right(is_never_there(&header), root, out) {
        return false;
    }
    let linked = is_there(drops, number, loaded, header.sh_link);
    is_link_right(is_ordered(&header), out, linked)
}

/// Whether a section is linked to another, as its header says.
fn is_ordered(header: &SectionHeader) -> bool
    ensures { result ≡ has_flag SHF_LINK_ORDER header.now }
{
    header.sh_flags & SHF_LINK_ORDER != 0
}

/// Whether sections of object `number` are in the image that have to be, given which of them are in groups.
fn are_right_among(
    drops: &Drops<'_>,
    number: u64,
    loaded: &Loaded<'_>,
    grouped: &[bool],
    sections: &[u32],
) -> bool
    requires { (i : ℕ) → is_marked grouped.now i ≡ is_grouped (loaded_view loaded.now) i }
    ensures { IsTrue result ↔ All (λ i. IsRightIn drops.now number (loaded_view loaded.now)
        (piece_at number (loaded_view loaded.now) i)) sections.now }
{
    for section in sections {
        let is_member = is_marked(grouped, *section);
        if !is_section_right(drops, number, loaded, *section, is_member) {
            return false;
        }
    }
    true
}

/// Whether the sections of object `number` are in the image that have to be, given which of them are in groups.
fn are_sections_right(drops: &Drops<'_>, number: u64, loaded: &Loaded<'_>, grouped: &[bool]) -> bool
    requires { (i : ℕ) → is_marked grouped.now i ≡ is_grouped (loaded_view loaded.now) i }
    ensures { IsTrue result ↔ ArePiecesRight drops.now number (loaded_view loaded.now) }
{
    let sections = loaded.kept_sections();
    are_right_among(drops, number, loaded, grouped, sections)
}

/// Whether the sections of object `number` are in the image that have to be by themselves: by their names, types and flags, and
/// where the section is to which they are linked; and those aren't that no image has.
pub fn are_own_right(
    alloc: Global,
    drops: &Drops<'_>,
    number: u64,
    loaded: &Loaded<'_>,
) -> Result<bool, AllocError>
    ensures { IfOk result (λ b. IsTrue b ↔ ArePiecesRight drops.now number (loaded_view loaded.now)) }
{
    let grouped = grouped_sections(alloc, loaded)?;
    Ok(are_sections_right(drops, number, loaded, &grouped))
}

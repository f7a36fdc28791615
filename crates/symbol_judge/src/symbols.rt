//! Whether the symbol table of an image is right.
ghost use Rattle.std.specs.Prelude.{◌≡◌, ◌↔◌, ◌<◌, IfOk, IsTrue, count_by, length};
ghost use Rattle.std.specs.List.{prefix_len};
ghost use Rattle.elf_model.specs.Inputs.ObjectFile.{LiesInside, symbol_table};
ghost use Rattle.judge_model.specs.Links.{ForeignLink};
ghost use Rattle.judge_model.specs.Tables.{IsTableRight, image_sections, image_symbols, is_local_entry, strings_of};
ghost use Rattle.link_fields.specs.Parts.{parts_of};
ghost use Rattle.symbol_judge.specs.Tables.{AreLocalsFirst, AreNamedRight};

use crate::entries::are_entries_right;
use crate::entry_names::{by_name, names_of};
use crate::locals::Locals;
use crate::meanings::Meanings;
use crate::there::has_names;
use byteview::View;
use elf_model::{NameSeed, SectionHeader, Symbol};
use elf_read::{contents, read_symbols, section, symbol_table};
use link_fields::LinkParts;
use std::alloc::{AllocError, Global};

/// How many LOCAL entries come first.
fn count_first(entries: &[Symbol]) -> usize
    ensures { result ≡ prefix_len is_local_entry entries.now }
{
    for k in 0..entries.len() {
        if !entries[k].is_local() {
            return k;
        }
    }
    entries.len()
}

/// How many LOCAL entries there are.
fn count_local(entries: &[Symbol]) -> usize
    ensures { result ≡ count_by is_local_entry entries.now }
{
    entries.iter().filter(|entry| entry.is_local()).count()
}

/// Whether a number is that of the LOCAL entries, which come first.
fn are_locals_first(entries: &[Symbol], count: u32) -> bool
    ensures { IsTrue result ↔ AreLocalsFirst count entries.now }
{
    count as usize == count_first(entries) && count as usize == count_local(entries)
}

/// Whether all entries but the first are right, and have the names that the table has to have, unless words strip.
fn are_named_right<'a>(
    alloc: Global,
    parts: &LinkParts<'_, '_, 'a>,
    sections: &[SectionHeader],
    strings: &View<'a>,
    entries: &[Symbol],
    strips: bool,
    seed: Option<NameSeed>,
) -> Result<bool, AllocError>
    requires { 0 < length entries.now }
    ensures { (l : ForeignLink) → parts_of l ≡ parts.now
        → image_sections l.image ≡ sections.now
        → strings_of l.image (image_sections l.image) ≡ strings.now
        → image_symbols l.image ≡ entries.now
        → l.plan.strips ≡ strips
        → IfOk result (λ b. IsTrue b ↔ AreNamedRight l) }
{
    let (first, rest) = entries.split_at(1);
    let others = by_name(alloc, rest)?;
    let names = names_of(alloc, strings, first, &others, seed)?;
    let meanings = Meanings::new(alloc, parts)?;
    if !has_names(strips, &meanings, &names) {
        return Ok(false);
    }
    let locals = Locals::new(alloc, &meanings, &names)?;
    Ok(are_entries_right(&meanings, sections, strings, &names, &locals, &others))
}

/// Whether the symbol table of an image, where it has any, is right, given the image's section headers.
pub fn are_symbols_right<'a>(
    alloc: Global,
    parts: &LinkParts<'_, '_, 'a>,
    sections: &[SectionHeader],
    strips: bool,
    seed: Option<NameSeed>,
) -> Result<bool, AllocError>
    requires { LiesInside (length parts.now.image) (symbol_table sections.now) }
    ensures { (l : ForeignLink) → parts_of l ≡ parts.now
        → image_sections l.image ≡ sections.now
        → l.plan.strips ≡ strips
        → IfOk result (λ b. IsTrue b ↔ (0 < length (image_symbols l.image) → IsTableRight l)) }
{
    let file = View::new(parts.image.image());
    let table = symbol_table(sections);
    let entries = read_symbols(alloc, &file, &table)?;
    if entries.is_empty() {
        return Ok(true);
    }
    if !are_locals_first(&entries, table.sh_info) {
        return Ok(false);
    }
    let strings = contents(&file, &section(sections, table.sh_link as usize));
    let right = are_named_right(alloc, parts, sections, &strings, &entries, strips, seed)?;
    Ok(right)
}

//! Whether the section headers and the symbol table of an image are true.
ghost use Rattle.std.specs.Prelude.{◌≡◌, ◌↔◌, IfOk, IsTrue};
ghost use Rattle.judge_model.specs.Links.{ForeignLink};
ghost use Rattle.judge_model.specs.RightForeign.{Holds};
ghost use Rattle.judge_model.specs.Tables.{image_sections};
ghost use Rattle.judge_model.specs.declared.judgement.Requirement.TheVariants as requirement;
ghost use Rattle.link_fields.specs.Parts.{parts_of};
ghost use Rattle.symbol_judge.specs.Tables.{AreReadRight};

use crate::stretches::are_covered;
use crate::symbols::are_symbols_right;
use elf_model::{NameSeed, SectionHeader};
use link_fields::LinkParts;
use std::alloc::{AllocError, Global};
use table_judge::{are_sections_true, has_tables, sections_of};

/// Whether section headers, which are those of the image, and the symbol table that they tell of are true.
fn are_read_right<'a>(
    alloc: Global,
    parts: &LinkParts<'_, '_, 'a>,
    sections: &[SectionHeader],
    strips: bool,
    seed: Option<NameSeed>,
) -> Result<bool, AllocError>
    requires { sections.now ≡ image_sections parts.now.image }
    ensures { (l : ForeignLink) → parts_of l ≡ parts.now → l.plan.strips ≡ strips
        → IfOk result (λ b. IsTrue b ↔ AreReadRight l) }
{
    if !are_sections_true(parts.image, sections) {
        return Ok(false);
    }
    if !are_covered(alloc, sections, parts.addresses.placed())? {
        return Ok(false);
    }
    let right = are_symbols_right(alloc, parts, sections, strips, seed)?;
    Ok(right)
}

/// Whether the tables of a link's image, where it has section headers, are true, given the parts of the link and whether its words
/// ask for an image without symbols (`-s`).
///
/// They are where the headers lie inside the file; where each section that takes up memory is in a segment with its rights, and
/// where it has bytes they are the segment's there; where each piece of the inputs lies in one section, if any takes up memory;
/// and where the symbol table, if there is one, is right: each entry but the first names what its name means to all objects or a
/// LOCAL symbol of an object, with its value, size, type, binding and section, or stands for a file, a section or what a WEAK
/// symbol asks for and nothing defines; each name is there that objects define outside of thread-local storage, unless words
/// strip; and `sh_info` is the number of the LOCAL entries, which come first.
///
/// Names are hashed from the seed, which whoever picks them mustn't know, or found by their order without one. The name at each
/// offset of the string table is looked up once, and an entry is compared with those LOCAL symbols alone that have its name and
/// value. A text whose ends are the names of many entries is hashed for each of them.
///
/// # Errors
///
/// Only where memory is refused.
pub fn are_tables_right<'a>(
    alloc: Global,
    parts: &LinkParts<'_, '_, 'a>,
    strips: bool,
    seed: Option<NameSeed>,
) -> Result<bool, AllocError>
    ensures { (l : ForeignLink) → parts_of l ≡ parts.now → l.plan.strips ≡ strips
        → IfOk result (λ b. IsTrue b ↔ Holds requirement.F13 l) }
{
    if !has_tables(parts.image) {
        return Ok(true);
    }
    let read = sections_of(alloc, parts.image)?;
    match read {
        Some(sections) => {
            let right = are_read_right(alloc, parts, &sections, strips, seed)?;
            Ok(right)
        }
        None => Ok(false),
    }
}

//! The map's common lines, found by their names, and whether they are those of the common blocks: a part of the third
//! clause.
ghost use Rattle.std.specs.Prelude.{◌≡◌, ◌↔◌, ℕ, All, IfOk, IsTrue, List, None, OnOk, Some, cond, find, map, option_map};
ghost use Rattle.std.specs.Cow.{cow_slice_items};
ghost use Rattle.std.specs.Option.{option_or};
ghost use Rattle.linkmap.specs.Borrowed.{common_row};
ghost use Rattle.elf_model.specs.Link.Placement.{common_address, is_common_row_of};
ghost use Rattle.elf_model.specs.Image.RightLink.{HasCommonLine, facts_of_block, facts_of_common};
ghost use Rattle.check_link.specs.Commons.{IsLineIndex, line_in, line_view};
ghost use Rattle.check_link.specs.Views.{block_view};

use crate::names::Names;
use crate::things::Block;
use linkmap::BorrowedCommon;
use std::alloc::{AllocError, Global};
use std::collections::BTreeMap;
use std::marker::Model;

/// Common lines, with an index by their names.
#[derive(Drop)]
pub struct CommonLines<'m> {
    lines: &'m [BorrowedCommon<'m>],
    by_name: BTreeMap<&'m [u8], &'m BorrowedCommon<'m>>,
}

impl<'m> Model for CommonLines<'m> {
    ghost use Rattle.std.specs.Prelude.{List, map};
    ghost use Rattle.elf_model.specs.Image.MapRecord.{CommonRow};
    ghost use Rattle.linkmap.specs.Borrowed.{common_row};
    ghost use Rattle.check_link.specs.Commons.{IsLineIndex};

    ghost Value = { List CommonRow };

    ghost view = { λ c. map common_row c.lines.now };

    ghost invariant = { λ c. IsLineIndex (map common_row c.lines.now) c.by_name };
}

/// Puts a line into an index by names, unless one of its name is there.
fn add_line<'m>(
    index: &mut BTreeMap<&'m [u8], &'m BorrowedCommon<'m>>,
    line: &'m BorrowedCommon<'m>,
) -> Result<(), AllocError>
    ensures { OnOk result ((name : List ℕ) →
        line_in index.new name
        ≡ option_or (line_in index.old name)
        (cond (is_common_row_of name (common_row line.entry.now))
        (Some (common_row line.entry.now)) None)) }
{
    let name = line.name.as_slice();
    if !index.contains_key(name) {
        index.insert(name, line)?;
    }
    Ok(())
}

/// The first of lines of each name.
fn index_lines<'m>(
    alloc: Global,
    lines: &'m [BorrowedCommon<'m>],
) -> Result<BTreeMap<&'m [u8], &'m BorrowedCommon<'m>>, AllocError>
    ensures { IfOk result (IsLineIndex (map common_row lines.entry.now)) }
{
    let mut index = BTreeMap::new(alloc);
    for line in lines {
        add_line(&mut index, line)?;
    }
    Ok(index)
}

/// Whether a line, if there is one, says of a block, if there is one, what it is but for its address.
fn agree(line: Option<&BorrowedCommon<'_>>, block: Option<Block<'_>>) -> bool
    ensures { IsTrue result ↔ (option_map facts_of_common (option_map line_view line.entry)
        ≡ option_map facts_of_block (option_map block_view block.entry)) }
{
    match (line, block) {
        (Some(line), Some(block)) => is_line_of(line, &block),
        (None, None) => true,
        (Some(_), None) | (None, Some(_)) => false,
    }
}

/// Whether a line says of a block what it is but for its address.
fn is_line_of(line: &BorrowedCommon<'_>, block: &Block<'_>) -> bool
    ensures { IsTrue result ↔ (facts_of_common (common_row line.now)
        ≡ facts_of_block (block_view block.now)) }
{
    if line.size != block.size || line.align != block.align.max(1) {
        return false;
    }
    line.name.as_slice() == block.name
}

impl<'m> CommonLines<'m> {
    /// An index of common lines.
    pub fn new(
        alloc: Global,
        lines: &'m [BorrowedCommon<'m>],
    ) -> Result<CommonLines<'m>, AllocError>
        ensures { IfOk result (λ c. c ≡ map common_row lines.entry.now) }
    {
        let by_name = index_lines(alloc, lines)?;
        Ok(CommonLines { lines, by_name })
    }

    /// The first line of a name.
    pub fn line(&self, name: &[u8]) -> Option<&'m BorrowedCommon<'m>>
        ensures { option_map line_view result ≡ find (is_common_row_of name.now) self.now }
    {
        self.by_name.get(name).copied()
    }

    /// The address that the line of a name gives, 0 without one.
    pub fn address(&self, name: &[u8]) -> u64
        ensures { result ≡ common_address self.now name.now }
    {
        match self.line(name) {
            Some(line) => line.address,
            None => 0,
        }
    }

    /// Whether the line of a name is that of its block, or there is none of both.
    pub fn has_line(&self, names: &Names<'_, '_>, name: &[u8]) -> bool
        ensures { IsTrue result ↔ HasCommonLine self.now names.now name.now }
    {
        agree(self.line(name), names.block(name))
    }

    /// Whether each line is that of its name's block.
    fn have_blocks(&self, names: &Names<'_, '_>) -> bool
        ensures { IsTrue result ↔ All (λ row. HasCommonLine self.now names.now row.name) self.now }
    {
        self.lines_have_blocks(names, self.lines)
    }

    fn lines_have_blocks(&self, names: &Names<'_, '_>, lines: &[BorrowedCommon<'_>]) -> bool
        ensures { IsTrue result ↔ All
            (λ line. HasCommonLine self.now names.now (cow_slice_items line.name)) lines.now }
    {
        for line in lines {
            if !self.has_line(names, &line.name) {
                return false;
            }
        }
        true
    }

    /// Whether each of blocks has its line.
    fn have_lines(&self, names: &Names<'_, '_>, blocks: &[Block<'_>]) -> bool
        ensures { IsTrue result ↔ All
            (λ b. HasCommonLine self.now names.now b.name.now) blocks.now }
    {
        for block in blocks {
            if !self.has_line(names, block.name) {
                return false;
            }
        }
        true
    }

    /// Whether the lines are those of the common blocks, name by name, but for addresses.
    pub fn are_of_blocks(&self, names: &Names<'_, '_>) -> bool
        ensures { IsTrue result ↔ ((name : List ℕ) → HasCommonLine self.now names.now name) }
    {
        self.have_blocks(names) && self.have_lines(names, names.blocks())
    }
}

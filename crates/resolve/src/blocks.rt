//! The common blocks of the objects: one for each name whose chosen symbol is common (System V gABI 4, "Symbol Table";
//! that a block has the greatest alignment is the profile's).
ghost use Rattle.std.specs.Prelude.{◌≡◌, ℕ, List, IfOk, None, OnOk, Option, Some, cond, option_map};
ghost use Rattle.std.specs.Option.{option_or};
ghost use Rattle.std.specs.Str.{bytes_eq};
ghost use Rattle.elf_model.specs.Link.Commons.{Block as BlockOf};
ghost use Rattle.resolve.specs.Blocks.{block_by, block_in, block_view, block_views, blocks_by, extent_in, first_block};
ghost use Rattle.resolve.specs.Views.{symbol_view, symbol_views};

use crate::entries::SymbolOf;
use elf_model::{ObjectId, SectionRef};
use std::alloc::{AllocError, Global};
use std::collections::BTreeMap;
use symbols::NameTable;

/// A common block: its name, and its size and its alignment in bytes. As a piece of memory it is numbered like a section
/// of one object more than are loaded.
#[derive(Clone, Copy, Debug)]
pub struct Block<'a> {
    pub object: u64,
    pub number: u64,
    pub name: &'a [u8],
    pub size: u64,
    pub align: u64,
}

impl<'a> Block<'a> {
    /// Its numbers, as those of a section.
    pub fn section(&self) -> SectionRef
        ensures object { result.object.0 ≡ self.now.object }
        ensures section { result.section ≡ self.now.number }
    {
        SectionRef {
            object: ObjectId(self.object),
            section: self.number,
        }
    }
}

/// What the common symbols of a name ask for: the greatest size, and the greatest alignment, at least 1.
fn extent_of<'a, T: NameTable<'a>>(table: &T, name: &'a [u8]) -> (u64, u64)
    ensures { result ≡ extent_in (T.rows table.now) name.now }
{
    match table.get(name) {
        Some(row) => (row.common_size, row.common_align.max(1)),
        None => (0, 1),
    }
}

/// The block of a symbol's name, with its numbers.
fn block_of<'a, T: NameTable<'a>>(
    table: &T,
    object: u64,
    number: u64,
    symbol: &SymbolOf<'a>,
) -> Block<'a>
    ensures { block_view result
        ≡ block_by (T.rows table.now) object number (symbol_view symbol.now) }
{
    let (size, align) = extent_of(table, symbol.name);
    Block {
        object,
        number,
        name: symbol.name,
        size,
        align,
    }
}

/// The blocks of common symbols, numbered from 0 as sections of an object.
pub fn blocks_of<'a, T: NameTable<'a>>(
    alloc: Global,
    table: &T,
    object: u64,
    commons: &[SymbolOf<'a>],
) -> Result<Vec<Block<'a>>, AllocError>
    ensures { IfOk result (λ v. block_views v.items
        ≡ blocks_by (T.rows table.now) object 0 (symbol_views commons.now)) }
{
    let mut blocks = Vec::with_capacity(alloc, commons.len())?;
    for symbol in commons {
        blocks.push(block_of(table, object, blocks.len() as u64, symbol))?;
    }
    Ok(blocks)
}

/// Puts a block into an index, unless one of its name is there.
fn add_block<'a>(
    index: &mut BTreeMap<&'a [u8], Block<'a>>,
    block: &Block<'a>,
) -> Result<(), AllocError>
    ensures { OnOk result ((n : List ℕ) →
        block_in index.new n
        ≡ option_or (block_in index.old n)
        (cond {A = Option BlockOf} (bytes_eq block.now.name.now n)
        (Some (block_view block.now)) None)) }
{
    if !index.contains_key(block.name) {
        index.insert(block.name, *block)?;
    }
    Ok(())
}

/// The first block of each name.
pub fn index_of<'a>(
    alloc: Global,
    blocks: &[Block<'a>],
) -> Result<BTreeMap<&'a [u8], Block<'a>>, AllocError>
    ensures { IfOk result (λ index. (n : List ℕ) →
        block_in index n ≡ first_block (block_views blocks.now) n) }
{
    let mut index = BTreeMap::new(alloc);
    for block in blocks {
        add_block(&mut index, block)?;
    }
    Ok(index)
}

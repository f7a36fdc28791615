//! The bytes of .symtab and .strtab.
ghost use Rattle.std.specs.Prelude.{◌≡◌, ◌++◌, IfOk, OnOk, length};
ghost use Rattle.elf_model.specs.Inputs.Records.{symbol_bytes as bytes_of};
ghost use Rattle.elf_model.specs.Image.SymbolTable.{ended};
ghost use Rattle.debug_image.specs.Tables.{entry_at, strtab, symtab};
ghost use Rattle.debug_image.specs.Views.{row_view, row_views};

use crate::row::Row;
use elf_model::{SYM_SIZE, Symbol};
use std::alloc::{AllocError, Global};

/// The bytes of a symbol table and of its names.
#[derive(Drop)]
pub struct SymbolBytes {
    pub symbols: Vec<u8>,
    pub names: Vec<u8>,
}

fn add_entry(symbols: &mut Vec<u8>, entry: &Symbol) -> Result<(), AllocError>
    ensures { OnOk result (symbols.new.items ≡ symbols.old.items ++ bytes_of entry.now) }
{
    let mut bytes = [0; SYM_SIZE];
    entry.write_to(&mut bytes);
    symbols.extend_from_slice(&bytes)?;
    Ok(())
}

/// Adds a name with its NUL.
pub fn add_name(names: &mut Vec<u8>, name: &[u8]) -> Result<(), AllocError>
    ensures { OnOk result (names.new.items ≡ names.old.items ++ ended name.now) }
{
    names.extend_from_slice(name)?;
    names.push(0)?;
    Ok(())
}

/// Adds a row's entry and its name.
fn add_row(symbols: &mut Vec<u8>, names: &mut Vec<u8>, row: &Row<'_>) -> Result<(), AllocError>
    ensures symbols { OnOk result (symbols.new.items
        ≡ symbols.old.items ++ bytes_of (entry_at (length names.old.items) (row_view row.now))) }
    ensures names { OnOk result (names.new.items ≡ names.old.items ++ ended row.now.name.now) }
{
    let entry = Symbol {
        st_name: (names.len() % 0x1_0000_0000) as u32,
        ..row.entry
    };
    add_entry(symbols, &entry)?;
    add_name(names, row.name)
}

/// The symbol table of rows, and their names.
pub fn symbol_bytes(alloc: Global, rows: &[Row<'_>]) -> Result<SymbolBytes, AllocError>
    ensures symbols { IfOk result (λ b. b.symbols.items ≡ symtab (row_views rows.now)) }
    ensures names { IfOk result (λ b. b.names.items ≡ strtab (row_views rows.now)) }
{
    let mut symbols = Vec::new(alloc);
    let mut names = Vec::new(alloc);
    add_entry(&mut symbols, &Symbol::NULL)?;
    names.push(0)?;
    for row in rows {
        add_row(&mut symbols, &mut names, row)?;
    }
    Ok(SymbolBytes { symbols, names })
}

//! The entries and the names of a symbol table against the lines of the map, line by line.
ghost use Rattle.std.specs.Prelude.{◌≡◌, ◌↔◌, ◌+◌, ◌*◌, ◌<◌, ◌^◌, ◌++◌, ◌∷◌, [], ℕ, All, List, IfSome, IsSomeAnd, SomeIff, length, map};
ghost use Rattle.linkmap.specs.Borrowed.{symbol_row};
ghost use Rattle.elf_model.specs.Link.Meaning.{Meaning, meaning_name};
ghost use Rattle.elf_model.specs.Link.Placement.{Where};
ghost use Rattle.elf_model.specs.Image.SymbolTable.{entry_of, tabled};
ghost use Rattle.check_tables.specs.Listed.{IsLine};
ghost use Rattle.check_tables.specs.Tabled.{AreLeft, AreTables, ended_names};

use crate::c13_symbols::own_choices::OwnChoices;
use crate::c14_tables::entries::entry_by;
use crate::c14_tables::strip::{strip, strip_name, strip_symbol};
use check_relocs::Bindings;
use elf_model::{SYM_SIZE, Symbol};

/// The entry of number 0.
const NULL_ENTRY: Symbol = Symbol {
    st_name: 0,
    st_info: 0,
    st_other: 0,
    st_shndx: 0,
    st_value: 0,
    st_size: 0,
};

use linkmap::{BorrowedSymbol, SymbolLines};

/// What is left to compare: the entries that are left, the bytes from the next name on, and the offset of that
/// name in `.strtab`.
#[derive(Clone, Copy)]
pub struct Tables<'b> {
    pub entries: &'b [u8],
    pub names: &'b [u8],
    pub name_at: u32,
}

/// The tables of `count` entries in front of others, but for the first entry and the first NUL; None where they begin
/// otherwise.
pub fn tables_of<'b>(bytes: &'b [u8], count: u64) -> Option<Tables<'b>>
    ensures tables { (w : Where) (ms : List Meaning) (others : List ℕ) →
        (AreTables w ms 0 bytes.entry.now count others
        ↔ IsSomeAnd result (λ t. AreLeft w t.entries.now t.names.now t.name_at ms others)) }
    ensures first { IfSome result (λ t. t.name_at ≡ 1) }
    ensures room { IfSome result (λ _. 24 * count < 2 ^ 63) }
{
    if count > (bytes.len() / SYM_SIZE) as u64 {
        return None;
    }
    let (entries, names) = bytes.split_at(SYM_SIZE * count as usize);
    Some(Tables {
        entries: strip_symbol(entries, &NULL_ENTRY)?,
        names: strip(names, b"\0")?,
        name_at: 1,
    })
}

/// The offset after a name and its NUL; None where it is 2^32 or more.
fn offset_after(name_at: u32, name: &[u8]) -> Option<u32>
    ensures { SomeIff result (name_at + (length name.now + 1) < 2 ^ 32)
        (name_at + (length name.now + 1)) }
{
    let room = u32::MAX - name_at;
    if name.len() >= room as usize {
        return None;
    }
    Some(name_at + name.len() as u32 + 1)
}

/// What is left after an entry and its name.
fn strip_entry<'b>(left: Tables<'b>, entry: &Symbol, name: &[u8]) -> Option<Tables<'b>>
    ensures left { (w : Where) (m : Meaning) (ms : List Meaning) (others : List ℕ) →
        entry.now ≡ entry_of w left.entry.name_at m → meaning_name m ≡ name.now
        → (AreLeft w left.entry.entries.now left.entry.names.now left.entry.name_at (m ∷ ms) others
        ↔ IsSomeAnd result (λ t. AreLeft w t.entries.now t.names.now t.name_at ms others)) }
    ensures offset { IfSome result (λ t. t.name_at ≡ left.entry.name_at + (length name.now + 1)) }
    ensures fits { IfSome result (λ t. t.name_at < 2 ^ 32) }
{
    Some(Tables {
        entries: strip_symbol(left.entries, entry)?,
        names: strip_name(left.names, name)?,
        name_at: offset_after(left.name_at, name)?,
    })
}

/// What is left after the definition of a line, which has no entry or one.
fn strip_line<'a, 'b>(
    bindings: &Bindings<'_, '_, 'a>,
    choices: &OwnChoices<'_, 'a>,
    line: &BorrowedSymbol<'_>,
    left: Tables<'b>,
) -> Option<Tables<'b>>
    requires line { IsLine bindings.now.objects bindings.now.places (symbol_row line.now) }
    requires choices { choices.now ≡ bindings.now.objects }
    ensures left { (ms : List Meaning) (others : List ℕ) →
        (AreLeft bindings.now.places left.entry.entries.now left.entry.names.now left.entry.name_at
        (tabled bindings.now.objects (symbol_row line.now ∷ []) ++ ms) others
        ↔ IsSomeAnd result
        (λ t. AreLeft bindings.now.places t.entries.now t.names.now t.name_at ms others)) }
    ensures offset { IfSome result (λ t. t.name_at
        ≡ left.entry.name_at + length
        (ended_names (tabled bindings.now.objects (symbol_row line.now ∷ [])))) }
    ensures fits { IfSome result (λ t. t.name_at < 2 ^ 32) }
{
    match entry_by(bindings, choices, line, left.name_at) {
        Some(entry) => strip_entry(left, &entry, line.name),
        None => Some(left),
    }
}

/// What is left after the definitions of all lines, where no entry is.
pub fn strip_lines<'a, 'b>(
    bindings: &Bindings<'_, '_, 'a>,
    choices: &OwnChoices<'_, 'a>,
    lines: &SymbolLines<'_>,
    tables: Tables<'b>,
) -> Option<Tables<'b>>
    requires lines { All (IsLine bindings.now.objects bindings.now.places) lines.now.rows }
    requires choices { choices.now ≡ bindings.now.objects }
    ensures left { (others : List ℕ) →
        (AreLeft bindings.now.places tables.entry.entries.now tables.entry.names.now
        tables.entry.name_at (tabled bindings.now.objects lines.now.rows) others
        ↔ IsSomeAnd result (λ t. t.names.now ≡ others)) }
    ensures offset { IfSome result (λ t. t.name_at
        ≡ tables.entry.name_at + length
        (ended_names (tabled bindings.now.objects lines.now.rows))) }
{
    let mut left = tables;
    for line in lines.iter() {
        left = strip_line(bindings, choices, &line, left)?;
    }
    if left.entries.is_empty() {
        Some(left)
    } else {
        None
    }
}

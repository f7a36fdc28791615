//! The symbol table of an image: how many entries it has, how long its names are, and where its sections stand.
ghost use Rattle.std.specs.Prelude.{◌≡◌, ◌+◌, ◌<◌, ◌≤◌, ◌^◌, ◌∷◌, [], IfNone, IfSome, length};
ghost use Rattle.elf_model.specs.Link.Placement.{round_up};
ghost use Rattle.elf_model.specs.Image.SymbolTable.{tables_end};
ghost use Rattle.resolve.specs.Views.{meaning_view, meaning_views};
ghost use Rattle.search.specs.Views.{loaded_views};
ghost use Rattle.image_write.specs.Tables.{IsInRange, IsTableOf, entered, headers_place, name_bytes, names_place, section_names_end, section_names_place, symbols_place};

use elf_model::{SHDR_SIZE, SYM_SIZE};
use resolve::Definition;
use search::LoadedObject;

/// The names of the sections, each with its NUL.
pub const SECTION_NAMES: &[u8; 27] = b"\0.symtab\0.strtab\0.shstrtab\0";

/// No file has so many bytes.
const FILE_LIMIT: u64 = 1 << 32;

/// The symbol table behind the last file part of an image, which ends at `start`: the number of its entries, with that of
/// number 0, and the bytes of its names, each with its NUL, behind a first NUL.
#[derive(Clone, Copy, Debug)]
pub struct SymbolTable {
    pub start: u64,
    pub count: u64,
    pub names: u64,
}

/// The least multiple of 8 that isn't below a number.
fn eight_up(x: u64) -> u64
    requires { x < 2 ^ 63 }
    ensures { result ≡ round_up 8 x }
{
    (x + 7) / 8 * 8
}

impl SymbolTable {
    /// The table of definitions in an image whose last file part ends at `start`; None where the file had 2^32 bytes or
    /// more with it.
    pub fn of(
        objects: &[LoadedObject<'_>],
        listed: &[Definition<'_>],
        start: u64,
    ) -> Option<SymbolTable>
        requires { start ≤ 2 ^ 46 }
        ensures some { IfSome result (IsTableOf (loaded_views objects.now) start
            (meaning_views listed.now)) }
        ensures none { IfNone result (2 ^ 32
            ≤ tables_end start (entered (loaded_views objects.now) (meaning_views listed.now))) }
    {
        let mut table = SymbolTable {
            start,
            count: 1,
            names: 1,
        };
        for definition in listed {
            table = table.with(objects, definition);
            if table.names >= FILE_LIMIT || table.count >= FILE_LIMIT {
                return None;
            }
        }
        if table.end() < FILE_LIMIT {
            Some(table)
        } else {
            None
        }
    }

    /// The table with one more definition, where it has an entry; of the bytes of names, where they can't be counted, the
    /// greatest number.
    fn with(self, objects: &[LoadedObject<'_>], definition: &Definition<'_>) -> SymbolTable
        requires { IsInRange self }
        ensures start { result.start ≡ self.start }
        ensures count { result.count ≡ self.count + length
            (entered (loaded_views objects.now) (meaning_view definition.now ∷ [])) }
        ensures names { result.names < 2 ^ 32
            → result.names
            ≡ self.names + length
            (name_bytes (loaded_views objects.now) (meaning_view definition.now ∷ [])) }
        ensures large { 2 ^ 32 ≤ result.names
            → 2 ^ 32 ≤ self.names + length
            (name_bytes (loaded_views objects.now) (meaning_view definition.now ∷ [])) }
    {
        if definition.is_in_thread_storage(objects) {
            return self;
        }
        let bytes = definition.name().len() as u64;
        SymbolTable {
            start: self.start,
            count: self.count + 1,
            names: self.names.saturating_add(bytes).saturating_add(1),
        }
    }

    /// Where `.symtab` stands in the file, in bytes.
    pub fn symbols(&self) -> u64
        requires { IsInRange self.now }
        ensures { result ≡ symbols_place self.now }
    {
        eight_up(self.start)
    }

    /// Where `.strtab` stands.
    pub fn strings(&self) -> u64
        requires { IsInRange self.now }
        ensures { result ≡ names_place self.now }
    {
        self.symbols() + SYM_SIZE as u64 * self.count
    }

    /// Where `.shstrtab` stands.
    pub fn section_names(&self) -> u64
        requires { IsInRange self.now }
        ensures { result ≡ section_names_place self.now }
    {
        self.strings() + self.names
    }

    /// Where `.shstrtab` ends.
    pub fn section_names_end(&self) -> u64
        requires { IsInRange self.now }
        ensures { result ≡ section_names_end self.now }
    {
        self.section_names() + SECTION_NAMES.len() as u64
    }

    /// Where the section headers stand.
    pub fn headers(&self) -> u64
        requires { IsInRange self.now }
        ensures { result ≡ headers_place self.now }
    {
        eight_up(self.section_names_end())
    }

    /// Where the file ends.
    pub fn end(&self) -> u64
        requires { IsInRange self.now }
        ensures { result ≡ headers_place self.now + 256 }
    {
        self.headers() + 4 * SHDR_SIZE as u64
    }
}

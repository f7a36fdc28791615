//! What the entry of a symbol says (System V gABI 4, "Symbol Table").
ghost use Rattle.std.specs.Prelude.{◌≡◌, ◌==◌};
ghost use Rattle.elf_model.specs.Link.Resolution as symbols;

use crate::constants::{SHN_COMMON, SHN_UNDEF, STB_GLOBAL, STB_LOCAL, STB_WEAK};
use crate::records::Symbol;

impl Symbol {
    /// The symbol of number 0, which stands for none.
    pub const NULL: Symbol = Symbol {
        st_name: 0,
        st_info: 0,
        st_other: 0,
        st_shndx: SHN_UNDEF,
        st_value: 0,
        st_size: 0,
    };

    /// The binding: the upper half of st_info, 0 to 15.
    pub fn binding(&self) -> u8
        ensures { result ≡ symbols.binding self.now }
    {
        self.st_info / 16
    }

    /// The type: the lower half of st_info, 0 to 15.
    pub fn symbol_type(&self) -> u8
        ensures { result ≡ symbols.symbol_type self.now }
    {
        self.st_info % 16
    }

    /// Whether the symbol is seen in its own object only: STB_LOCAL.
    pub fn is_local(&self) -> bool
        ensures { result ≡ (symbols.binding self.now == STB_LOCAL) }
    {
        self.binding() == STB_LOCAL
    }

    /// Whether the symbol's binding is STB_GLOBAL.
    pub fn is_global(&self) -> bool
        ensures { result ≡ symbols.is_global self.now }
    {
        self.binding() == STB_GLOBAL
    }

    /// Whether the symbol's binding is STB_WEAK.
    pub fn is_weak(&self) -> bool
        ensures { result ≡ symbols.is_weak self.now }
    {
        self.binding() == STB_WEAK
    }

    /// Whether the symbol is undefined: it is in section SHN_UNDEF.
    pub fn is_undefined(&self) -> bool
        ensures { result ≡ symbols.is_undefined self.now }
    {
        self.st_shndx == SHN_UNDEF
    }

    /// Whether the symbol is a common one: it is in section SHN_COMMON.
    pub fn is_common(&self) -> bool
        ensures { result ≡ symbols.is_common self.now }
    {
        self.st_shndx == SHN_COMMON
    }
}

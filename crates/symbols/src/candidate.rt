//! What may define a name.
use elf_model::SymbolRef;

/// How a symbol defines its name (System V gABI 4, "Symbol Table", "Symbol Binding").
#[derive(Clone, Copy, Debug, PartialEq, Eq)]
pub enum CandidateKind {
    /// STB_GLOBAL, in a section or absolute.
    Strong,
    /// STB_WEAK.
    Weak,
    /// SHN_COMMON: a block that the linker allocates.
    Common,
}

/// A symbol that defines a name.
#[derive(Clone, Copy, Debug, PartialEq, Eq)]
pub struct Candidate {
    pub symbol: SymbolRef,
    pub kind: CandidateKind,
    /// In bytes; read of a common symbol alone.
    pub size: u64,
    /// In bytes; read of a common symbol alone.
    pub align: u64,
}

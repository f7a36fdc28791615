//! The rewritings of code that linkers may do.

/// A row of the table of code that linkers rewrite where they know an address (docs/DEFINITIONS.md): what the instruction of a
/// relocation becomes. Where an instruction is shorter than the one that was there, a nop stands in front of it or behind.
#[derive(Clone, Copy, Debug, PartialEq, Eq)]
pub enum Rewriting {
    MovToLea,
    MovToImmediate,
    TestToImmediate,
    OperationToImmediate,
    CallWithPrefix,
    CallBehindNop,
    CallBeforeNop,
    JumpBehindNop,
    JumpBeforeNop,
    ThreadMovToImmediate,
    ThreadAddToImmediate,
    ThreadAddToLea,
}

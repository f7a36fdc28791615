//! What a table keeps of a name.
ghost use Rattle.std.specs.Prelude.{◌≡◌};
ghost use Rattle.symbols.specs.Rows.{taken_in};

use crate::candidate::{Candidate, CandidateKind};
use elf_model::SymbolRef;

/// The candidates of a name, as far as the choice among them asks: the first of each kind, whether there
/// are two strong ones, and what a common block of the name has to hold.
#[derive(Clone, Copy, Debug, PartialEq, Eq)]
pub struct Row {
    /// The first strong candidate.
    pub strong: Option<SymbolRef>,
    /// Whether two candidates or more are strong.
    pub twice: bool,
    /// The first weak candidate.
    pub weak: Option<SymbolRef>,
    /// The first common candidate.
    pub common: Option<SymbolRef>,
    /// The greatest size of the common candidates in bytes; 0 where there is none.
    pub common_size: u64,
    /// The greatest alignment of the common candidates in bytes; 0 where there is none.
    pub common_align: u64,
}

/// The row of a name that has no candidate.
pub const NO_ROW: Row = Row {
    strong: None,
    twice: false,
    weak: None,
    common: None,
    common_size: 0,
    common_align: 0,
};

/// Takes a candidate into the row of its name.
pub fn take_in(row: &mut Row, candidate: Candidate)
    ensures { row.new ≡ taken_in candidate row.old }
{
    match candidate.kind {
        CandidateKind::Strong => {
            row.twice = row.twice || row.strong.is_some();
            row.strong = row.strong.or(Some(candidate.symbol));
        }
        CandidateKind::Weak => row.weak = row.weak.or(Some(candidate.symbol)),
        CandidateKind::Common => {
            row.common = row.common.or(Some(candidate.symbol));
            row.common_size = row.common_size.max(candidate.size);
            row.common_align = row.common_align.max(candidate.align);
        }
    }
}

//! Which symbol each name means so far, by the name's number, as definitions are taken in.
ghost use Rattle.std.specs.Prelude.{◌≡◌, ◌<◌, length, set, slice_index_or};
ghost use Rattle.symbols.specs.Owners.{is_second, is_strong_owner, owner_after, owner_ref};
ghost use Rattle.symbols.specs.declared.owner.Owner.TheVariants as variant;

use crate::candidate::{Candidate, CandidateKind};
use elf_model::SymbolRef;

/// The definition that a name means, by its kind: the first strong one; else the first common one; else the first weak one.
#[derive(Clone, Copy, Debug)]
pub enum Owner {
    Nobody,
    Weak(SymbolRef),
    Common(SymbolRef),
    Strong(SymbolRef),
}

impl Owner {
    /// What a name means after one more candidate.
    fn after(self, candidate: Candidate) -> Owner
        ensures { result ≡ owner_after self candidate }
    {
        match (candidate.kind, self) {
            (_, Owner::Strong(first)) => Owner::Strong(first),
            (CandidateKind::Strong, _) => Owner::Strong(candidate.symbol),
            (CandidateKind::Common, Owner::Nobody) => Owner::Common(candidate.symbol),
            (CandidateKind::Common, Owner::Weak(_)) => Owner::Common(candidate.symbol),
            (CandidateKind::Weak, Owner::Nobody) => Owner::Weak(candidate.symbol),
            (_, owner) => owner,
        }
    }

    /// The numbers of the symbol.
    pub fn symbol(self) -> Option<SymbolRef>
        ensures { result ≡ owner_ref self }
    {
        match self {
            Owner::Nobody => None,
            Owner::Weak(symbol) => Some(symbol),
            Owner::Common(symbol) => Some(symbol),
            Owner::Strong(symbol) => Some(symbol),
        }
    }

    /// Whether it is a strong one.
    fn is_strong(self) -> bool
        ensures { result ≡ is_strong_owner self }
    {
        matches!(self, Owner::Strong(_))
    }
}

/// Whether a candidate is a second strong one of a name.
fn is_second(owner: Owner, candidate: Candidate) -> bool
    ensures { result ≡ is_second owner candidate }
{
    match candidate.kind {
        CandidateKind::Strong => owner.is_strong(),
        CandidateKind::Common => false,
        CandidateKind::Weak => false,
    }
}

/// The owner of the name that has a number.
pub fn owner_of_name(owners: &[Owner], number: usize) -> Owner
    ensures { result ≡ slice_index_or owners.now number variant.Nobody }
{
    match owners.get(number) {
        Some(owner) => *owner,
        None => Owner::Nobody,
    }
}

/// Takes a candidate in for the name that has a number. Whether it is the second strong one of that name.
pub fn take_in(owners: &mut Vec<Owner>, number: usize, candidate: Candidate) -> bool
    requires { number < length owners.old.items }
    ensures owners { owners.new.items
        ≡ set owners.old.items number
        (owner_after (slice_index_or owners.old.items number variant.Nobody) candidate) }
    ensures second { result
        ≡ is_second (slice_index_or owners.old.items number variant.Nobody) candidate }
{
    let owner = owner_of_name(owners, number);
    owners[number] = owner.after(candidate);
    is_second(owner, candidate)
}

//! The law that an archive is the magic and the texts of its members: what the definitions find by a walk from
//! header to header is what the bytes spell, with nothing lost and nothing invented. It has no code; the reader
//! of archives is proved to compute the definitions.
#![tactic(auto)]

ghost use Rattle.archive_law.specs.ArchiveText.{ArchivesSpellMembers, WalkFindsTheSpelled};

/// The walk from header to header meets no fault and finds some members exactly where the bytes spell these;
/// so every archive spells its members (ar(5)).
pub fn archive_spells_members()
    ensures walk { WalkFindsTheSpelled }
    ensures archives { ArchivesSpellMembers }
{}

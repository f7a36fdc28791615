//! The law that a link doesn't depend on members that it doesn't load: of an archive that is searched, loading looks at the
//! headers, at the index and the long names, and at the data of the members that it takes. It has no code.
#![tactic(auto)]

ghost use Rattle.unread_law.specs.PartFiles.{PartsAreEnough};
ghost use Rattle.unread_law.specs.Unread.{LoadingLooksOnlyWhereItMust, RightLinksLookOnlyThere};

/// Files that agree where loading looks give the same objects (ar(5); ld(1)), and a right link of them is one of the others.
pub fn loading_looks_only_where_it_must()
    ensures loading { LoadingLooksOnlyWhereItMust }
    ensures links { RightLinksLookOnlyThere }
{}

/// A right link of files of which archives that are searched were read in part, with zeros for data of members that weren't read, is
/// one of the files, whatever these data are.
pub fn parts_are_enough()
    ensures { PartsAreEnough }
{}

//! What is told of an archive and a name.

/// Why a member, which an archive's index names for a name that nothing defines, did not help.
#[derive(Clone, Copy, Debug, PartialEq, Eq)]
pub enum ArchiveFact {
    /// It defines the name and was not loaded: the archive was searched before the name was needed.
    Passed,
    /// It was loaded, and defines the name in a section that is dropped with its group.
    Dropped,
    /// It has no code, only data for optimization at link time.
    Slim,
    /// It does not define the name: the index is not that of the members.
    Stale,
}

/// A fact of the member of an archive that the archive's index names for a name: the number of the archive's item in the command, its
/// path, and the offset of the member's header.
#[derive(Clone, Copy, Debug)]
pub struct ArchiveNote<'a> {
    pub name: &'a [u8],
    pub item: u64,
    pub path: &'a str,
    pub offset: u64,
    pub fact: ArchiveFact,
}

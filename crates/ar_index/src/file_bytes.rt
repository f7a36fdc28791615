//! The bytes of a file: all of them, or an archive's of which some members' data weren't read.
ghost use Rattle.std.specs.Prelude.{◌≡◌, IfSome, is_some};
ghost use Rattle.ar_index.specs.FileBytes.{held_bytes, is_whole};

use crate::part_file::PartFile;

/// The bytes of a file.
#[derive(Clone, Copy)]
pub enum FileBytes<'a> {
    /// All of them.
    Whole(&'a [u8]),
    /// An archive's, of which the data of some members weren't read.
    Parts(&'a PartFile),
}

impl<'a> FileBytes<'a> {
    /// All bytes; None where some weren't read.
    pub fn whole(self) -> Option<&'a [u8]>
        ensures exact { IfSome result (λ b. b.now ≡ held_bytes self.entry) }
        ensures some { is_some result ≡ is_whole self.entry }
    {
        match self {
            FileBytes::Whole(bytes) => Some(bytes),
            FileBytes::Parts(_) => None,
        }
    }
}

//! Which file of the system a path names.
ghost use Rattle.std.specs.Prelude.{◌≡◌, ◌↔◌, All, Any, IfSome, IsTrue, None, drop};
ghost use Rattle.file_io.specs.FileIds.{IsRead, Tells};

use std::fs;
use std::fs::Metadata;
use std::os::unix::fs::MetadataExt;
use std::rt::Files;

/// The device of a file, and its number there.
#[derive(Clone, Copy, Debug)]
pub struct FileId {
    device: u64,
    inode: u64,
}

/// The device and the number of a file; None where the system tells no number, which is 0 then.
fn known(device: u64, inode: u64) -> Option<FileId>
    ensures exact { IfSome result (λ f. (f.device ≡ device) × (f.inode ≡ inode)) }
    ensures none { result ≡ None → inode ≡ 0 }
{
    if inode == 0 {
        return None;
    }
    Some(FileId { device, inode })
}

/// Whether both are of one file.
fn are_one(own: FileId, other: FileId) -> bool
    ensures { IsTrue result ↔ ((own.device ≡ other.device) × (own.inode ≡ other.inode)) }
{
    own.device == other.device && own.inode == other.inode
}

/// Which file metadata are of; None where the system tells no number.
pub fn file_id(metadata: &Metadata) -> Option<FileId> {
    known(metadata.dev(), metadata.ino())
}

/// A path that is written, and the file that is there before.
#[derive(Clone, Copy, Debug)]
pub struct OutputPath<'a> {
    path: &'a str,
    id: Option<FileId>,
}

impl<'a> OutputPath<'a> {
    /// A path, with the file to which it leads.
    pub fn new<R: Files>(rt: &R, path: &'a str) -> OutputPath<'a>
        ensures { result.path.now ≡ path.entry.now }
    {
        let id = match fs::metadata(rt, path) {
            Ok(metadata) => file_id(&metadata),
            Err(_) => None,
        };
        OutputPath { path, id }
    }

    /// The path.
    pub fn path(&self) -> &'a str
        ensures { result.now ≡ self.now.path.now }
    {
        self.path
    }

    /// Whether metadata are of the file that was there before. Where the system tells no numbers, they are not.
    pub fn is_of(&self, metadata: &Metadata) -> bool {
        match (self.id, file_id(metadata)) {
            (Some(own), Some(other)) => are_one(own, other),
            _ => false,
        }
    }

    /// Whether it is the file at a path that is read: by device and number, and where one of the
    /// two isn't told by the path.
    fn is_read(&self, path: &str, id: Option<FileId>) -> bool
        ensures { IsTrue result ↔ IsRead self.now path.now id }
    {
        match (self.id, id) {
            (Some(own), Some(other)) => are_one(own, other),
            _ => self.path == path,
        }
    }
}

/// The path among those that are written that is the file at a path that is read; None where it is
/// none of them.
pub fn overwritten<'a>(
    outputs: &[OutputPath<'a>],
    path: &str,
    id: Option<FileId>,
) -> Option<&'a str>
    ensures found { IfSome result (λ p. Any (Tells path.now id p.now) outputs.now) }
    ensures apart { result ≡ None → All (λ o. IsRead o path.now id → ⊥) outputs.now }
{
    for output in outputs {
        if output.is_read(path, id) {
            return Some(output.path);
        }
    }
    None
}

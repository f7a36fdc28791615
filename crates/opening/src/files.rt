//! Finds files by their names, among those that were read whole and those that were read in part.
ghost use Rattle.std.specs.Prelude.{◌≡◌, ℕ, IfOk, IfSome, IsTrue, List, None, OnOk, Some, cond, find, option_copied, option_map, string_bytes};
ghost use Rattle.std.specs.Option.{option_or};
ghost use Rattle.std.specs.Str.{bytes_eq};
ghost use Rattle.elf_model.specs.Inputs.Files.{files_of};
ghost use Rattle.elf_model.specs.Inputs.FileIndex.{IsIndex, found};
ghost use Rattle.elf_model.specs.Inputs.Opening.{file_named};
ghost use Rattle.ar_index.specs.FileBytes.{held_bytes, is_whole};
ghost use Rattle.opening.specs.Held.{all_files, is_part_named};

use ar_index::{FileBytes, PartFile};
use elf_model::InputFile;
use std::alloc::{AllocError, Global};
use std::collections::BTreeMap;
use std::marker::Model;

/// Files, with an index of their names. Of several files of one name the first counts.
#[derive(Drop)]
pub struct FileIndex<'a> {
    files: &'a [InputFile],
    index: BTreeMap<&'a str, &'a [u8]>,
}

impl<'a> Model for FileIndex<'a> {
    ghost use Rattle.std.specs.Prelude.{List};
    ghost use Rattle.elf_model.specs.Inputs.Files.{File, files_of};
    ghost use Rattle.elf_model.specs.Inputs.FileIndex.{IsIndex};

    ghost Value = { List File };

    ghost view = { λ f. files_of f.files.now };

    ghost invariant = { λ f. IsIndex (files_of f.files.now) f.index };
}

impl<'a> FileIndex<'a> {
    /// An index of files.
    pub fn new(alloc: Global, files: &'a [InputFile]) -> Result<FileIndex<'a>, AllocError>
        ensures { IfOk result (λ f. f ≡ files_of files.entry.now) }
    {
        let index = index_files(alloc, files)?;
        Ok(FileIndex { files, index })
    }

    /// The name and the bytes of the first file of a name.
    pub fn find(&self, name: &str) -> Option<(&'a str, &'a [u8])>
        ensures bytes { option_map (λ f. f.1.now) result ≡ file_named self.now name.now }
        ensures name { IfSome result (λ f. f.0.now ≡ name.now) }
    {
        let (name, bytes) = self.index.get_key_value(name)?;
        Some((*name, *bytes))
    }
}

/// Puts a file into the index, unless one of its name is there.
fn add_file<'a>(
    index: &mut BTreeMap<&'a str, &'a [u8]>,
    file: &'a InputFile,
) -> Result<(), AllocError>
    ensures { OnOk result ((name : List ℕ) →
        found index.new name
        ≡ option_or (found index.old name)
        (cond (bytes_eq (string_bytes file.entry.now.name) name)
        (Some file.entry.now.bytes.items) None)) }
{
    let name = file.name.as_str();
    if !index.contains_key(name) {
        index.insert(name, file.bytes.as_slice())?;
    }
    Ok(())
}

/// The first file of each name.
fn index_files<'a>(
    alloc: Global,
    files: &'a [InputFile],
) -> Result<BTreeMap<&'a str, &'a [u8]>, AllocError>
    ensures { IfOk result (IsIndex (files_of files.entry.now)) }
{
    let mut index = BTreeMap::new(alloc);
    for file in files {
        add_file(&mut index, file)?;
    }
    Ok(index)
}

/// The first file of a name among some that were read in part.
pub fn part_named<'a>(parts: &'a [PartFile], name: &str) -> Option<&'a PartFile>
    ensures { option_copied result ≡ find (is_part_named name.now) parts.entry.now }
{
    parts.iter().find(|part| part.name() == name)
}

/// Files that were read in part, and files that were read whole, with an index of their names. Of several files of one name the
/// first counts, and those that were read in part are before the others.
#[derive(Drop)]
pub struct FileSet<'a> {
    parts: &'a [PartFile],
    files: FileIndex<'a>,
}

impl<'a> Model for FileSet<'a> {
    ghost use Rattle.std.specs.Prelude.{List};
    ghost use Rattle.elf_model.specs.Inputs.Files.{File};
    ghost use Rattle.ar_index.specs.Parts.{PartialFile};
    ghost use Rattle.opening.specs.Held.{HeldFiles};

    ghost Value = { HeldFiles };

    ghost view = { λ s. record { parts = s.parts.now; wholes = s.files } };
}

impl<'a> FileSet<'a> {
    /// A set of files.
    pub fn new(
        alloc: Global,
        parts: &'a [PartFile],
        files: &'a [InputFile],
    ) -> Result<FileSet<'a>, AllocError>
        ensures { IfOk result (λ s. s ≡ record {
          parts = parts.entry.now;
          wholes = files_of files.entry.now;
        }) }
    {
        let files = FileIndex::new(alloc, files)?;
        Ok(FileSet { parts, files })
    }

    /// The file of a name among those that were read whole.
    fn find_whole(&self, name: &str) -> Option<(&'a str, FileBytes<'a>)>
        ensures bytes { option_map (λ f. held_bytes f.1) result
            ≡ file_named self.now.wholes name.now }
        ensures name { IfSome result (λ f. f.0.now ≡ name.now) }
        ensures whole { IfSome result (λ f. IsTrue (is_whole f.1)) }
    {
        match self.files.find(name) {
            Some((name, bytes)) => Some((name, FileBytes::Whole(bytes))),
            None => None,
        }
    }

    /// The name and the bytes of the first file of a name.
    pub fn find(&self, name: &str) -> Option<(&'a str, FileBytes<'a>)>
        ensures bytes { option_map (λ f. held_bytes f.1) result
            ≡ file_named (all_files self.now) name.now }
        ensures name { IfSome result (λ f. f.0.now ≡ name.now) }
        ensures whole { find (is_part_named name.now) self.now.parts ≡ None
            → IfSome result (λ f. IsTrue (is_whole f.1)) }
    {
        match part_named(self.parts, name) {
            Some(part) => Some((part.name(), FileBytes::Parts(part))),
            None => self.find_whole(name),
        }
    }
}

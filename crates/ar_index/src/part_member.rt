//! A member of an archive whose data may not have been read.
ghost use Rattle.std.specs.Prelude.{◌≡◌, ◌<◌, ◌^◌, Some, is_some, length, option_copied, take, IfSome, SomeIff};
ghost use Rattle.byteview.specs.Numbers.{part};
ghost use Rattle.elf_model.specs.Inputs.ArchiveFile as archive;
ghost use Rattle.ar_index.specs.Parts as parts;
ghost use Rattle.ar_index.specs.Parts.{IsHeader, IsPart, part_size, unread_part};

use crate::fields::number_in;
use crate::names::is_ordinary;
use crate::stored_members::{HEADER_SIZE, StoredMember};
use byteview::{View, equal_run};
use std::marker::Model;

/// A member of an archive: its header of 60 bytes (ar(5), struct ar_hdr), and its data where they were read.
#[derive(Drop)]
pub struct PartMember {
    header: Vec<u8>,
    size: usize,
    content: Option<Vec<u8>>,
}

impl Model for PartMember {
    ghost use Rattle.std.specs.Prelude.{option_map};
    ghost use Rattle.ar_index.specs.Parts.{IsKeptPart, Part};

    ghost Value = { Part };

    ghost view = { λ m. record {
      header = m.header.items;
      content = option_map (λ v. v.items) m.content;
    } };

    ghost invariant = { λ m. IsKeptPart (record {
      header = m.header.items;
      content = option_map (λ v. v.items) m.content;
    }) m.size };
}

/// How many bytes the data of the member with a header have; None where it can't be read.
fn size_in(header: &[u8]) -> Option<u64>
    ensures exact { SomeIff result (IsHeader header.now) (archive.number (part header.now 48 10)) }
    ensures small { IfSome result (λ n. n < 10 ^ 16) }
{
    let view = View::new(header);
    if view.len() != HEADER_SIZE {
        return None;
    }
    if !equal_run(view.part(58, 2), b"`\n") {
        return None;
    }
    number_in(view.part(48, 10))
}

impl PartMember {
    /// The member with a header, whose data aren't read yet; None where the header can't be read.
    pub fn unread(header: Vec<u8>) -> Option<PartMember>
        ensures { SomeIff result (IsHeader header.items) (unread_part header.items) }
    {
        let size = size_in(&header)? as usize;
        Some(PartMember {
            header,
            size,
            content: None,
        })
    }

    /// How many bytes its data have.
    pub fn size(&self) -> usize
        ensures { result ≡ part_size self.now }
    {
        self.size
    }

    /// Whether its data were read.
    pub fn is_read(&self) -> bool
        ensures { result ≡ is_some self.now.content }
    {
        self.content.is_some()
    }

    /// Whether it is the index or the long names.
    pub fn is_table(&self) -> bool
        ensures { result ≡ parts.is_table self.now }
    {
        !is_ordinary(&StoredMember::new(0, self.name(), &[]))
    }

    /// Gives it its data.
    pub fn fill(&mut self, content: Vec<u8>)
        requires { length content.items ≡ part_size self.old }
        ensures { self.new ≡ record { header = self.old.header; content = Some content.items } }
    {
        self.content = Some(content);
    }

    /// Its data; None where they weren't read.
    pub fn content(&self) -> Option<&[u8]>
        ensures { option_copied result ≡ self.now.content }
    {
        Some(self.content.as_ref()?.as_slice())
    }

    /// The name field of its header, with the spaces behind the name.
    pub fn name(&self) -> &[u8]
        ensures exact { result.now ≡ take 16 self.now.header }
        ensures len { length result.now ≡ 16 }
    {
        View::new(&self.header).part(0, 16)
    }

    /// That its header can be read.
    pub fn show(&self)
        ensures part { IsPart self.now }
        ensures small { part_size self.now < 10 ^ 16 }
    {
        let _ = &self.header;
    }
}

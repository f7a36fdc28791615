//! The bytes that are gathered before a device is given them.
ghost use Rattle.std.specs.Prelude.{◌≡◌, ◌+◌, ◌≤◌, ◌==◌, ◌++◌, [], IfOk, length, replicate};
ghost use Rattle.elf_model.specs.Own.OwnLayout.{own_where};
ghost use Rattle.elf_model.specs.Link.Pieces.{Piece};
ghost use Rattle.image_write.specs.Sections.{ArePartOf, IsOfSection, wanted_run};

use elf_model::SectionRef;
use relocate::{Patches, apply_part};
use std::alloc::{AllocError, Global};
use std::marker::Model;

/// How many bytes a buffer has room for. Smaller writes to a file cost more a byte.
pub const BUFFER_SIZE: usize = 65536;

/// Up to BUFFER_SIZE bytes, in room that is made with it.
#[derive(Drop)]
pub struct Buffer {
    bytes: Vec<u8>,
}

impl Model for Buffer {
    ghost use Rattle.std.specs.Prelude.{List, ℕ, ◌≤◌, vec_capacity, vec_len};
    ghost use Rattle.image_write.specs.declared.buffer.TheConstants.{BUFFER_SIZE};

    ghost Value = { List ℕ };

    ghost view = { λ b. b.bytes.items };

    ghost invariant = { λ b. (BUFFER_SIZE ≤ vec_capacity b.bytes) × (vec_len b.bytes ≤ BUFFER_SIZE) };
}

impl Buffer {
    /// An empty buffer.
    pub fn new(alloc: Global) -> Result<Buffer, AllocError>
        ensures { IfOk result (λ b. b ≡ []) }
    {
        Ok(Buffer {
            bytes: Vec::with_capacity(alloc, BUFFER_SIZE)?,
        })
    }

    /// How many bytes more it has room for.
    pub fn room(&self) -> usize
        ensures { result + length self.now ≡ BUFFER_SIZE }
    {
        BUFFER_SIZE - self.bytes.len()
    }

    /// Whether it holds nothing.
    pub fn is_empty(&self) -> bool
        ensures { result ≡ (length self.now == 0) }
    {
        self.bytes.is_empty()
    }

    /// The bytes that it holds.
    pub fn bytes(&self) -> &[u8]
        ensures { result.now ≡ self.now }
    {
        self.bytes.as_slice()
    }

    /// Forgets the bytes.
    pub fn clear(&mut self)
        ensures { self.new ≡ [] }
    {
        self.bytes.clear();
    }

    /// Adds bytes, for which there is room.
    pub fn add(&mut self, bytes: &[u8])
        requires { length self.old + length bytes.now ≤ BUFFER_SIZE }
        ensures { self.new ≡ self.old ++ bytes.now }
    {
        let Ok(()) = self.bytes.extend_from_slice(bytes) else {
            unreachable!()
        };
    }

    /// Adds bytes of a section, from byte `from` of it on, with the values of its relocations over their fields; there is
    /// room for them.
    pub fn add_relocated(
        &mut self,
        patches: &Patches<'_>,
        section: SectionRef,
        from: u64,
        bytes: &[u8],
    )
        requires { length self.old + length bytes.now ≤ BUFFER_SIZE }
        ensures { (p : Piece) → IsOfSection section p → ArePartOf p from bytes.now
            → self.new ≡ self.old
            ++ wanted_run patches.now.objects
            (own_where patches.now.base patches.now.objects) p from (length bytes.now) }
    {
        let at = self.bytes.len();
        let Ok(()) = self.bytes.extend_from_slice(bytes) else {
            unreachable!()
        };
        let (_, part) = self.bytes.split_at_mut(at);
        apply_part(patches, section, from, part);
    }

    /// Adds a byte so many times, for which there is room.
    pub fn add_run(&mut self, count: usize, byte: u8)
        requires { length self.old + count ≤ BUFFER_SIZE }
        ensures { self.new ≡ self.old ++ replicate count byte }
    {
        let len = self.bytes.len();
        let Ok(()) = self.bytes.resize(len + count, byte) else {
            unreachable!()
        };
    }
}

//! A device over memory.
ghost use Rattle.std.specs.Prelude.{◌≡◌, ◌+◌, [], IfOk, Some};

use crate::sink::{HoleSink, Sink, SinkFault};
use std::alloc::{AllocError, Global};

/// Bytes that were taken, as long as memory is had for them.
#[derive(Drop)]
pub struct MemorySink {
    bytes: Vec<u8>,
    failures: u64,
}

impl MemorySink {
    /// No bytes, with room for so many.
    pub fn new(alloc: Global, size: usize) -> Result<MemorySink, AllocError>
        ensures empty { IfOk result (λ s. s.bytes.items ≡ []) }
        ensures whole { IfOk result (λ s. s.failures ≡ 0) }
    {
        Ok(MemorySink {
            bytes: Vec::with_capacity(alloc, size)?,
            failures: 0,
        })
    }

    /// Counts the first failure.
    fn fail(&mut self) -> SinkFault
        requires { self.old.failures ≡ 0 }
        ensures counted { self.new.failures ≡ self.old.failures + 1 }
        ensures kept { self.new.bytes ≡ self.old.bytes }
    {
        self.failures += 1;
        SinkFault
    }

    /// The bytes that were taken.
    pub fn into_bytes(self) -> Vec<u8>
        ensures { result.items ≡ self.bytes.items }
    {
        self.bytes
    }
}

impl Sink for MemorySink {
    ghost told = { λ s. Some s.bytes.items };

    ghost failed = { λ s. s.failures };

    fn put(&mut self, bytes: &[u8]) -> Result<usize, SinkFault> {
        match self.bytes.extend_from_slice(bytes) {
            Ok(()) => Ok(bytes.len()),
            Err(_) => Err(self.fail()),
        }
    }

    fn failures(&self) -> u64 {
        self.failures
    }
}

impl HoleSink for MemorySink {
    fn pass(&mut self, count: u64) -> Result<(), SinkFault> {
        let Some(len) = self.bytes.len().checked_add(count as usize) else {
            return Err(self.fail());
        };
        match self.bytes.resize(len, 0) {
            Ok(()) => Ok(()),
            Err(_) => Err(self.fail()),
        }
    }
}

//! A device that compares what it takes with wanted bytes, and keeps none.
ghost use Rattle.std.specs.Prelude.{◌≡◌, None};

use image_write::{Sink, SinkFault};

/// How many bytes were taken, and whether all of them were wanted.
#[derive(Drop)]
pub struct ComparingSink<'w> {
    pub wanted: &'w [u8],
    pub taken: usize,
    pub same: bool,
    pub failures: u64,
}

impl<'w> ComparingSink<'w> {
    /// No bytes were taken.
    pub fn new(wanted: &'w [u8]) -> ComparingSink<'w>
        ensures { result.failures ≡ 0 }
    {
        ComparingSink {
            wanted,
            taken: 0,
            same: true,
            failures: 0,
        }
    }

    /// Whether just the wanted bytes were taken.
    pub fn is_whole(&self) -> bool {
        self.same && self.taken == self.wanted.len()
    }
}

impl<'w> Sink for ComparingSink<'w> {
    ghost told = { λ _. None };

    ghost failed = { λ s. s.failures };

    fn put(&mut self, bytes: &[u8]) -> Result<usize, SinkFault> {
        let end = self.taken.saturating_add(bytes.len());
        self.same = self.same && self.wanted.get(self.taken..end) == Some(bytes);
        self.taken = end;
        Ok(bytes.len())
    }

    fn failures(&self) -> u64 {
        self.failures
    }
}

//! Devices that take an image's bytes, and their faults.
ghost use Rattle.std.specs.Prelude.{◌≡◌, ◌+◌, ◌<◌, ◌≤◌, ℕ, List, Option, IfErr, IfOk, OnErr, OnOk, length, replicate, take};
ghost use Rattle.image_write.specs.Streams.{Took, TookPart};
ghost use Rattle.image_write.specs.declared.sink.WriteFault.TheVariants as write_fault;

use std::alloc::AllocError;
use thiserror::Error;

/// A device refused bytes.
#[derive(Clone, Copy, Debug, Drop, Error)]
#[error("Device (2)")]
pub struct SinkFault;

/// Why an image was not written as a whole.
#[derive(Debug, Drop, Error)]
pub enum WriteFault {
    /// Memory was refused; the sink has taken nothing.
    #[error("Memory (1)")]
    Memory,
    /// The sink failed; it has taken a beginning of the image.
    #[error("Device (2)")]
    Device,
}

impl From<AllocError> for WriteFault {
    ghost from_gives = { λ _ fault. fault ≡ write_fault.Memory };

    fn from(_error: AllocError) -> WriteFault {
        WriteFault::Memory
    }
}

impl From<SinkFault> for WriteFault {
    ghost from_gives = { λ _ fault. fault ≡ write_fault.Device };

    fn from(_fault: SinkFault) -> WriteFault {
        WriteFault::Device
    }
}

/// Something that takes bytes one after the other, as a file does. It counts its failures, and may tell the bytes
/// that it took: one over memory does, one over a file doesn't.
pub trait Sink {
    // The bytes that were taken so far, where the sink tells them.
    ghost told: { Self → Option (List ℕ) };
    // How many calls of `put` have failed.
    ghost failed: { Self → ℕ };

    /// Takes the first of some bytes, at least one and at most all, and answers how many they are.
    ///
    /// # Errors
    ///
    /// Where the device refuses them: it has then taken none, and counts one failure more. It is not called again after
    /// a failure.
    fn put(&mut self, bytes: &[u8]) -> Result<usize, SinkFault>
        requires some { 0 < length bytes.now }
        requires whole { failed self.old ≡ 0 }
        ensures count { IfOk result (λ n. (0 < n) × (n ≤ length bytes.now)) }
        ensures took { IfOk result (λ n. Took (told self.old) (take n bytes.now) (told self.new)) }
        ensures kept { OnOk result (failed self.new ≡ 0) }
        ensures refused { OnErr result (told self.new ≡ told self.old) }
        ensures failure { OnErr result (failed self.new ≡ failed self.old + 1) };

    /// How many calls of `put` have failed.
    fn failures(&self) -> u64
        ensures { result ≡ failed self.now };
}

/// A sink that may be told how many zeros come, in place of being given them, as a file that has a hole there.
pub trait HoleSink: Sink {
    /// Takes so many zeros.
    ///
    /// # Errors
    ///
    /// Where the device refuses them: it has then taken some of them, and counts one failure more. It is not called again
    /// after a failure.
    fn pass(&mut self, count: u64) -> Result<(), SinkFault>
        requires whole { Self.failed self.old ≡ 0 }
        ensures took { OnOk result (Took (Self.told self.old) (replicate count 0)
            (Self.told self.new)) }
        ensures kept { OnOk result (Self.failed self.new ≡ 0) }
        ensures refused { OnErr result (TookPart (Self.told self.old) (replicate count 0)
            (Self.told self.new)) }
        ensures failure { OnErr result (Self.failed self.new ≡ Self.failed self.old + 1) };
}

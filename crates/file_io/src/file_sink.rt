//! A file as the device that takes an image.
ghost use Rattle.std.specs.Prelude.{◌≡◌, ◌+◌, ◌<◌, ◌≤◌, IfOk, OnErr, OnOk, length, replicate, take};
ghost use Rattle.image_write.specs.Streams.{Took, TookPart};

use crate::sparse::SparseWrite;
use crate::zero_pages::{PAGE, before_zeros, zeros_ahead};
use image_write::{HoleSink, Sink, SinkFault};
use std::io::ErrorKind;

/// A file, or another writer, that takes an image. It tells the bytes that it took where the writer tells what it holds, with
/// the zeros that were passed over.
#[derive(Drop)]
pub struct FileSink<F: SparseWrite + Drop> {
    file: F,
    failures: u64,
    /// Whether pages of zeros are passed over.
    sparse: bool,
    /// How many bytes it has, modulo 2^64.
    taken: u64,
    /// Whether the last of them were passed over.
    is_open: bool,
}

/// How often a write is tried that something interrupts.
const TRIES: u32 = 65536;

/// How many bytes are looked through for zeros before they are written.
const RUN: usize = 262_144;

/// Writes the first of some bytes, and answers how many they are; where the writer refuses them, it
/// has taken none.
fn write_some<F: SparseWrite>(file: &mut F, bytes: &[u8]) -> Result<usize, SinkFault>
    ensures count { IfOk result (λ n. (0 < n) × (n ≤ length bytes.now)) }
    ensures written { IfOk result (λ n.
        Took (F.held file.old) (take n bytes.now) (F.held file.new)) }
    ensures refused { OnErr result (F.held file.new ≡ F.held file.old) }
{
    'tries: for _ in 0..TRIES {
        match file.write_some(bytes) {
            Ok(0) => return Err(SinkFault),
            Ok(count) => return Ok(count),
            Err(error) => {
                if error.kind() != ErrorKind::Interrupted {
                    return Err(SinkFault);
                }
            }
        }
    }
    Err(SinkFault)
}

/// Writes the first of some bytes, those before the first page of zeros that begins `first` bytes
/// on or whole pages later.
fn write_before_zeros<F: SparseWrite>(
    file: &mut F,
    bytes: &[u8],
    first: usize,
) -> Result<usize, SinkFault>
    requires some { 0 < length bytes.now }
    requires further { 0 < first }
    ensures count { IfOk result (λ n. (0 < n) × (n ≤ length bytes.now)) }
    ensures written { IfOk result (λ n.
        Took (F.held file.old) (take n bytes.now) (F.held file.new)) }
    ensures refused { OnErr result (F.held file.new ≡ F.held file.old) }
{
    let (run, _) = bytes.split_at(bytes.len().min(RUN));
    let (part, _) = run.split_at(before_zeros(run, first));
    write_some(file, part)
}

/// Passes over zeros.
fn pass<F: SparseWrite>(file: &mut F, zeros: usize) -> Result<usize, SinkFault>
    ensures count { IfOk result (λ n. n ≡ zeros) }
    ensures written { IfOk result (λ n.
        Took (F.held file.old) (replicate n 0) (F.held file.new)) }
    ensures refused { OnErr result (F.held file.new ≡ F.held file.old) }
{
    match file.skip(zeros as u64) {
        Ok(()) => Ok(zeros),
        Err(_) => Err(SinkFault),
    }
}

/// How many of the first bytes are pages of zeros, where they come `within` bytes behind the
/// beginning of a page.
fn zeros_to_pass(bytes: &[u8], within: usize) -> usize
    ensures within { result ≤ length bytes.now }
    ensures zeros { take result bytes.now ≡ replicate result 0 }
{
    if within > 0 {
        return 0;
    }
    zeros_ahead(bytes)
}

/// Passes over the first of some bytes where they are pages of zeros, else writes those before such
/// pages. The bytes come `within` bytes behind the beginning of a page. Answers how many were
/// taken, and whether they were passed over.
fn put_sparse<F: SparseWrite>(
    file: &mut F,
    bytes: &[u8],
    within: usize,
) -> Result<(usize, bool), SinkFault>
    requires some { 0 < length bytes.now }
    requires inside { within < PAGE }
    ensures count { IfOk result (λ t. (0 < t.0) × (t.0 ≤ length bytes.now)) }
    ensures written { IfOk result (λ t.
        Took (F.held file.old) (take t.0 bytes.now) (F.held file.new)) }
    ensures refused { OnErr result (F.held file.new ≡ F.held file.old) }
{
    let zeros = zeros_to_pass(bytes, within);
    if zeros > 0 {
        pass(file, zeros)?;
        return Ok((zeros, true));
    }
    let count = write_before_zeros(file, bytes, PAGE - within)?;
    Ok((count, false))
}

/// The same in a file that is sparse; in another one writes the first of the bytes, whatever they
/// are.
fn put_some<F: SparseWrite>(
    file: &mut F,
    bytes: &[u8],
    sparse: bool,
    taken: u64,
) -> Result<(usize, bool), SinkFault>
    requires some { 0 < length bytes.now }
    ensures count { IfOk result (λ t. (0 < t.0) × (t.0 ≤ length bytes.now)) }
    ensures written { IfOk result (λ t.
        Took (F.held file.old) (take t.0 bytes.now) (F.held file.new)) }
    ensures refused { OnErr result (F.held file.new ≡ F.held file.old) }
{
    if sparse {
        return put_sparse(file, bytes, (taken % PAGE as u64) as usize);
    }
    let count = write_some(file, bytes)?;
    Ok((count, false))
}

impl<F: SparseWrite + Drop> FileSink<F> {
    /// A file that nothing was put into yet. In a sparse one pages of zeros, of 4096 bytes from the
    /// first byte that is put on, are passed over; another one, as a device is, is given each byte.
    pub fn new(file: F, sparse: bool) -> FileSink<F>
        ensures whole { result.failures ≡ 0 }
        ensures file { result.file ≡ file }
    {
        FileSink {
            file,
            failures: 0,
            sparse,
            taken: 0,
            is_open: false,
        }
    }

    /// The file.
    pub fn file(&self) -> &F
        ensures { result.now ≡ self.now.file }
    {
        &self.file
    }

    /// Ends the file behind what was put into it, also where its last bytes were passed over. It is called once, behind the
    /// last `put`.
    ///
    /// # Errors
    ///
    /// SinkFault where the file doesn't take its length.
    pub fn end(&mut self) -> Result<(), SinkFault>
        ensures { F.held self.new.file ≡ F.held self.old.file }
    {
        if !self.is_open {
            return Ok(());
        }
        match self.file.end() {
            Ok(()) => Ok(()),
            Err(_) => Err(SinkFault),
        }
    }
}

impl<F: SparseWrite + Drop> Sink for FileSink<F> {
    ghost told = { λ s. F.held s.file };

    ghost failed = { λ s. s.failures };

    fn put(&mut self, bytes: &[u8]) -> Result<usize, SinkFault> {
        match put_some(&mut self.file, bytes, self.sparse, self.taken) {
            Ok((count, passed)) => {
                self.taken = self.taken.wrapping_add(count as u64);
                self.is_open = passed;
                Ok(count)
            }
            Err(fault) => {
                self.failures += 1;
                Err(fault)
            }
        }
    }

    fn failures(&self) -> u64 {
        self.failures
    }
}

/// Zeros that are written where none can be passed over.
static ZEROS: [u8; PAGE] = [0; PAGE];

/// At most so many zeros, and at least one of them.
fn zeros(most: u64) -> &'static [u8]
    ensures zeros { result.now ≡ replicate (length result.now) 0 }
    ensures within { length result.now ≤ most }
    ensures some { 0 < most → 0 < length result.now }
{
    let (run, _) = ZEROS.split_at(most.min(PAGE as u64) as usize);
    run
}

/// Gives a sink zeros until it has taken so many.
///
/// # Errors
///
/// Where the sink fails: it has then taken some of them, and isn't given more.
pub fn put_zeros<S: Sink>(sink: &mut S, count: u64) -> Result<(), SinkFault>
    requires { S.failed sink.old ≡ 0 }
    ensures took { OnOk result (Took (S.told sink.old) (replicate count 0) (S.told sink.new)) }
    ensures kept { OnOk result (S.failed sink.new ≡ 0) }
    ensures refused { OnErr result (TookPart (S.told sink.old) (replicate count 0)
        (S.told sink.new)) }
    ensures failure { OnErr result (S.failed sink.new ≡ S.failed sink.old + 1) }
{
    let mut left = count;
    while left > 0 {
        left -= sink.put(zeros(left))? as u64;
    }
    Ok(())
}

impl<F: SparseWrite + Drop> HoleSink for FileSink<F> {
    fn pass(&mut self, count: u64) -> Result<(), SinkFault> {
        if !self.sparse || count < PAGE as u64 {
            return put_zeros(self, count);
        }
        match self.file.skip(count) {
            Ok(()) => {
                self.taken = self.taken.wrapping_add(count);
                self.is_open = true;
                Ok(())
            }
            Err(_) => {
                self.failures += 1;
                Err(SinkFault)
            }
        }
    }
}

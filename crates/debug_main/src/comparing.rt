//! A device that takes bytes as long as they are those of an image.
ghost use Rattle.std.specs.Prelude.{◌≡◌, ◌≢◌, ◌≤◌, ◌<◌, Some, None, length, slice_index, take};
ghost use Rattle.std.specs.List.{slice_get};
ghost use Rattle.std.proofs.Props.{props};
ghost use Rattle.debug_main.specs.Comparisons.{marked, taken_of};

use file_io::put_zeros;
use image_write::{HoleSink, Sink, SinkFault};

/// What is compared with an image, of which so many bytes were taken; and the first byte that isn't the image's, which is taken
/// too. None is taken behind that.
#[derive(Clone, Copy, Debug, Drop)]
pub struct Comparing<'i> {
    image: &'i [u8],
    same: usize,
    wrong: Option<u8>,
    failures: u64,
    ghost within: { same ≤ length image.now },
    ghost differs: { slice_get image.now same ≡ wrong → wrong ≡ None } by { Prim.hlevel props },
    ghost sound: { wrong ≡ None → failures ≡ 0 },
}

/// How many of the first bytes of two lists are alike.
fn alike(one: &[u8], other: &[u8]) -> usize
    ensures within { (result ≤ length one.now) × (result ≤ length other.now) }
    ensures alike { take result one.now ≡ take result other.now }
    ensures first { result < length one.now → result < length other.now
        → slice_index one.now result ≢ slice_index other.now result }
{
    let most = one.len().min(other.len());
    let (front, _) = one.split_at(most);
    let (same, _) = other.split_at(most);
    if front == same {
        return most;
    }
    for k in 0..most {
        if one[k] != other[k] {
            return k;
        }
    }
    most
}

impl<'i> Comparing<'i> {
    /// Nothing is compared yet.
    pub fn new(image: &'i [u8]) -> Comparing<'i>
        ensures whole { result.failures ≡ 0 }
        ensures image { result.image.now ≡ image.entry.now }
        ensures none { (result.same ≡ 0) × (result.wrong ≡ None) }
    {
        Comparing {
            image,
            same: 0,
            wrong: None,
            failures: 0,
        }
    }

    /// How many bytes were the image's.
    pub fn same(&self) -> usize
        ensures { result ≡ self.now.same }
    {
        self.same
    }

    /// The first byte that wasn't.
    pub fn wrong(&self) -> Option<u8>
        ensures { result ≡ self.now.wrong }
    {
        self.wrong
    }
}

impl Sink for Comparing<'_> {
    ghost told = { λ s. Some (marked s.image.now (taken_of s.image.now s.same s.wrong)) };

    ghost failed = { λ s. s.failures };

    fn put(&mut self, bytes: &[u8]) -> Result<usize, SinkFault> {
        let image = self.image;
        if self.wrong.is_some() {
            self.failures += 1;
            return Err(SinkFault);
        }
        let (_, rest) = image.split_at(self.same);
        let count = alike(bytes, rest);
        if count > 0 {
            self.same += count;
            return Ok(count);
        }
        self.wrong = Some(bytes[0]);
        Ok(1)
    }

    fn failures(&self) -> u64 {
        self.failures
    }
}

impl HoleSink for Comparing<'_> {
    fn pass(&mut self, count: u64) -> Result<(), SinkFault> {
        put_zeros(self, count)
    }
}

//! A link of one object that the checker finds right, of which a byte is to be changed; and what it is changed by.
use elf_model::InputFile;
use ld_main::{Verdict, check};
use link_samples::links::linked_by;
use link_samples::one_object::{one_file, words_of};
use link_samples::vectors::OBJECT;
use std::alloc::{AllocError, Global};
use std::test::Fail;

/// What a byte is changed by: each of its bits, and all of them.
pub const CHANGES: [u8; 9] = [1, 2, 4, 8, 16, 32, 64, 128, 255];

/// Files and the words of their link, with an image and a map.
#[derive(Drop)]
pub struct Sample {
    pub files: Vec<InputFile>,
    pub words: Vec<String>,
    pub image: Vec<u8>,
    pub map: Vec<u8>,
}

/// The link of the object of `vectors` by a line.
pub fn sample_of(alloc: Global, line: &str) -> Result<Sample, Fail> {
    let files = one_file(alloc, "a.o", &OBJECT)?;
    let words = words_of(alloc, line)?;
    let output = linked_by(alloc, &files, &words)??;
    Ok(Sample {
        files,
        words,
        image: output.image,
        map: output.map,
    })
}

impl Sample {
    /// What the check says of an image with the map.
    pub fn verdict_on_image(&self, alloc: Global, image: &[u8]) -> Result<Verdict, AllocError> {
        check(alloc, &self.files, &self.words, image, &self.map)
    }

    /// What the check says of a map with the image.
    pub fn verdict_on_map(&self, alloc: Global, map: &[u8]) -> Result<Verdict, AllocError> {
        check(alloc, &self.files, &self.words, &self.image, map)
    }
}

/// Changes the byte at an offset in each bit of `change`; the same once more makes it what it was.
pub fn change_byte(bytes: &mut [u8], at: usize, change: u8) {
    if let Some(byte) = bytes.get_mut(at) {
        *byte ^= change;
    }
}

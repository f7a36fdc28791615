//! Line tables that are cut off, and objects of which a byte is changed: each answer names a file and a line.
use crate::tests::objects::object_of;
use crate::tests::samples::{BY_HAND, CLANG_WIDE, GCC_4, Sample};
use byteview::View;
use elf_read::ObjectFile;
use line_tables::source_line;
use std::alloc::Global;
use std::test::Fail;

/// Offsets that are asked for.
static OFFSETS: [u64; 6] = [0, 7, 14, 28, 33, 44];

/// Whether each answer of an object names a file without a NUL and a line from 1 on; what is no object has no answers.
fn is_sound(alloc: Global, bytes: &[u8]) -> bool {
    let Ok(object) = ObjectFile::read(alloc, View::new(bytes)) else {
        return true;
    };
    for section in 1..3 {
        for at in OFFSETS {
            if let Some(found) = source_line(&object, section, at)
                && (found.line == 0 || found.file.contains(&0))
            {
                return false;
            }
        }
    }
    true
}

/// The first length to which the line table of a sample can't be cut off.
fn first_wrong_length(alloc: Global, sample: &Sample) -> Result<Option<usize>, Fail> {
    for len in 0..sample.lines.len() {
        let lines = sample.lines.get(..len).ok_or("a beginning")?;
        let bytes = object_of(alloc, &Sample { lines, ..*sample })?;
        if !is_sound(alloc, &bytes) {
            return Ok(Some(len));
        }
    }
    Ok(None)
}

/// The first byte of the object of a sample that can't be 0 or 255.
fn first_wrong_byte(alloc: Global, sample: &Sample) -> Result<Option<usize>, Fail> {
    let mut bytes = object_of(alloc, sample)?;
    for at in 0..bytes.len() {
        let own = bytes[at];
        for value in [0, 255] {
            bytes[at] = value;
            if !is_sound(alloc, &bytes) {
                return Ok(Some(at));
            }
        }
        bytes[at] = own;
    }
    Ok(None)
}

#[test]
fn line_tables_may_be_cut_off(rt: HostRuntime) -> Result<(), Fail> {
    assert_eq!(rt; first_wrong_length(rt.alloc(), &GCC_4)?, None);
    assert_eq!(rt; first_wrong_length(rt.alloc(), &CLANG_WIDE)?, None);
    assert_eq!(rt; first_wrong_length(rt.alloc(), &BY_HAND)?, None);
    Ok(())
}

#[test]
fn bytes_may_be_changed(rt: HostRuntime) -> Result<(), Fail> {
    assert_eq!(rt; first_wrong_byte(rt.alloc(), &GCC_4)?, None);
    assert_eq!(rt; first_wrong_byte(rt.alloc(), &CLANG_WIDE)?, None);
    assert_eq!(rt; first_wrong_byte(rt.alloc(), &BY_HAND)?, None);
    Ok(())
}

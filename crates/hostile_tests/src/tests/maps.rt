//! Maps that are cut off, or that have another byte, with and without the line of a symbol table.
use crate::tests::samples::{Sample, sample_of};
use ld_main::{Clause, Verdict};
use std::alloc::Global;
use std::test::Fail;

/// The length of the first beginning of a map of which the check says something else than that it is none.
fn first_accepted_beginning(alloc: Global, sample: &Sample) -> Result<Option<usize>, Fail> {
    for len in 0..sample.map.len() {
        let front = sample.map.get(..len).ok_or("a beginning")?;
        if sample.verdict_on_map(alloc, front)? != Verdict::No(Clause::C1) {
            return Ok(Some(len));
        }
    }
    Ok(None)
}

#[test]
fn beginnings_of_a_map_are_none(rt: HostRuntime) -> Result<(), Fail> {
    for (line, len) in [("-s a.o", 106), ("a.o", 120)] {
        let sample = sample_of(rt.alloc(), line)?;
        assert_eq!(rt; sample.map.len(), len, "{line}");
        let accepted = first_accepted_beginning(rt.alloc(), &sample)?;
        assert_eq!(rt; accepted, None, "{line}");
    }
    Ok(())
}

/// Puts the other values of the byte of a map at an offset to which the check says yes behind `accepted`.
fn add_accepted(
    alloc: Global,
    sample: &Sample,
    at: usize,
    accepted: &mut Vec<(usize, u8)>,
) -> Result<(), Fail> {
    let mut map = sample.map.clone()?;
    let own = *map.get(at).ok_or("a byte")?;
    for value in 0..=u8::MAX {
        *map.get_mut(at).ok_or("a byte")? = value;
        if value != own && sample.verdict_on_map(alloc, &map)? == Verdict::Yes {
            accepted.push((at, value))?;
        }
    }
    Ok(())
}

/// The bytes of a map, with other values, to which the check says yes.
fn accepted_values(alloc: Global, line: &str) -> Result<Vec<(usize, u8)>, Fail> {
    let sample = sample_of(alloc, line)?;
    let mut accepted = Vec::new(alloc);
    for at in 0..sample.map.len() {
        add_accepted(alloc, &sample, at, &mut accepted)?;
    }
    Ok(accepted)
}

/// Words of a link, and the values of bytes of its map that make another right map: without a line of a symbol table,
/// the map may be of version 1.
static OTHERS: [(&str, &[(usize, u8)]); 2] = [("-s a.o", &[(6, b'1')]), ("a.o", &[])];

#[test]
fn each_byte_of_a_map_counts(rt: HostRuntime) -> Result<(), Fail> {
    for (line, others) in &OTHERS {
        let accepted = accepted_values(rt.alloc(), line)?;
        assert_eq!(rt; accepted.as_slice(), *others, "{line}");
    }
    Ok(())
}

//! Images that are cut off, or that have another byte or one byte more, with and without a symbol table.
use crate::tests::samples::{CHANGES, Sample, change_byte, sample_of};
use ld_main::{Clause, Verdict};
use std::alloc::Global;
use std::test::Fail;

/// The words of a link, how long its image is, and the clause that fails where the image has one byte more.
static IMAGES: [(&str, usize, Clause); 2] = [
    ("-s a.o", 4105, Clause::C11),
    ("a.o", 4456, Clause::C14),
];

/// The length of the first beginning of an image of which the check says something else than that it is none.
fn first_accepted_beginning(alloc: Global, sample: &Sample) -> Result<Option<usize>, Fail> {
    for len in 0..sample.image.len() {
        let front = sample.image.get(..len).ok_or("a beginning")?;
        if sample.verdict_on_image(alloc, front)? != Verdict::No(Clause::C4) {
            return Ok(Some(len));
        }
    }
    Ok(None)
}

#[test]
fn beginnings_of_an_image_are_none(rt: HostRuntime) -> Result<(), Fail> {
    for (line, len, _) in IMAGES {
        let sample = sample_of(rt.alloc(), line)?;
        assert_eq!(rt; sample.image.len(), len, "{line}");
        let accepted = first_accepted_beginning(rt.alloc(), &sample)?;
        assert_eq!(rt; accepted, None, "{line}");
    }
    Ok(())
}

#[test]
fn an_image_ends_where_it_must(rt: HostRuntime) -> Result<(), Fail> {
    for (line, _, clause) in IMAGES {
        let sample = sample_of(rt.alloc(), line)?;
        let mut longer = sample.image.clone()?;
        longer.push(0)?;
        let verdict = sample.verdict_on_image(rt.alloc(), &longer)?;
        assert_eq!(rt; verdict, Verdict::No(clause), "{line}");
    }
    Ok(())
}

/// The first change of the byte at an offset to which the check says yes.
fn accepted_change(
    alloc: Global,
    sample: &Sample,
    image: &mut [u8],
    at: usize,
) -> Result<Option<u8>, Fail> {
    for change in CHANGES {
        change_byte(image, at, change);
        let verdict = sample.verdict_on_image(alloc, image)?;
        change_byte(image, at, change);
        if verdict == Verdict::Yes {
            return Ok(Some(change));
        }
    }
    Ok(None)
}

/// The first byte of an image with a change to which the check says yes, and the change.
fn first_accepted_change(alloc: Global, sample: &Sample) -> Result<Option<(usize, u8)>, Fail> {
    let mut image = sample.image.clone()?;
    for at in 0..image.len() {
        if let Some(change) = accepted_change(alloc, sample, &mut image, at)? {
            return Ok(Some((at, change)));
        }
    }
    Ok(None)
}

#[test]
fn each_byte_of_an_image_counts(rt: HostRuntime) -> Result<(), Fail> {
    for (line, _, _) in IMAGES {
        let sample = sample_of(rt.alloc(), line)?;
        let accepted = first_accepted_change(rt.alloc(), &sample)?;
        assert_eq!(rt; accepted, None, "{line}");
    }
    Ok(())
}

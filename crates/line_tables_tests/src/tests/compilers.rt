//! Line tables as compilers make them, and one with what they seldom make.
use crate::tests::objects::{answers, object_of};
use crate::tests::samples::{
    BY_HAND, CLANG_2, CLANG_4, CLANG_5, CLANG_WIDE, GCC_3, GCC_4, GCC_5, Sample,
};
use std::alloc::Global;
use std::test::Fail;

/// Whether each place of a sample has the line that other tools say.
fn is_as_wanted(alloc: Global, sample: &Sample) -> Result<bool, Fail> {
    let object = object_of(alloc, sample)?;
    Ok(answers(alloc, &object)?.as_str() == sample.wanted)
}

#[test]
fn lines_of_gcc(rt: HostRuntime) -> Result<(), Fail> {
    assert!(rt; is_as_wanted(rt.alloc(), &GCC_3)?);
    assert!(rt; is_as_wanted(rt.alloc(), &GCC_4)?);
    assert!(rt; is_as_wanted(rt.alloc(), &GCC_5)?);
    Ok(())
}

#[test]
fn lines_of_clang(rt: HostRuntime) -> Result<(), Fail> {
    assert!(rt; is_as_wanted(rt.alloc(), &CLANG_2)?);
    assert!(rt; is_as_wanted(rt.alloc(), &CLANG_4)?);
    assert!(rt; is_as_wanted(rt.alloc(), &CLANG_5)?);
    assert!(rt; is_as_wanted(rt.alloc(), &CLANG_WIDE)?);
    Ok(())
}

#[test]
fn lines_of_what_was_made_by_hand(rt: HostRuntime) -> Result<(), Fail> {
    let object = object_of(rt.alloc(), &BY_HAND)?;
    let lines = answers(rt.alloc(), &object)?;
    assert_eq!(rt; lines.as_str(), BY_HAND.wanted);
    Ok(())
}

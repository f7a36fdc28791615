//! Views of bytes.
ghost use Rattle.std.specs.Prelude.{◌≤◌, length};

use byteview::{View, all_byte, equal_run};
use std::test::Fail;

// An archive's index that lists `f` at 78, and the bytes of e_shoff 176.
static INDEX: [u8; 10] = [0, 0, 0, 1, 0, 0, 0, 0x4e, b'f', 0];

static OFFSET: [u8; 8] = [0xb0, 0, 0, 0, 0, 0, 0, 0];

#[test]
fn numbers_are_read_by_their_bytes(rt: HostRuntime) {
    let index = View::new(&INDEX);
    let high_first = [index.u32be(0), index.u32be(4), index.u32be(7)];
    assert_eq!(rt; high_first, [Some(1), Some(78), None]);
    assert_eq!(rt; index.u64be(0), Some(0x1_0000_004e));
    let offset = View::new(&OFFSET);
    let two = [offset.u16le(0), offset.u16le(usize::MAX)];
    assert_eq!(rt; two, [Some(176), None]);
    assert_eq!(rt; offset.u32le(0), Some(176));
    assert_eq!(rt; [offset.u64le(0), offset.u64le(1)], [Some(176), None]);
    assert_eq!(rt; View::new(&[0xff; 8]).i64le(0), Some(-1));
}

#[test]
fn numbers_inside_are_read(rt: HostRuntime) -> Result<(), Fail> {
    let index = View::new(&INDEX).sub(2, 8).ok_or("inside")?;
    let found = (
        index.u8_inside(5),
        index.u16_inside(5),
        index.u32_inside(2),
        index.u64_inside(0),
    );
    assert!(rt; found == (0x4e, 0x664e, 0x4e00_0000, 0x0066_4e00_0000_0100));
    Ok(())
}

#[test]
fn parts_end_inside(rt: HostRuntime) {
    let index = View::new(&INDEX);
    for (offset, len, inside) in [
        (8, 2, true),
        (8, 3, false),
        (10, 0, true),
        (11, 0, false),
        (usize::MAX, usize::MAX, false),
    ] {
        let part = index.sub(offset, len);
        assert_eq!(rt; part.is_some(), inside, "{len} bytes at {offset}");
    }
    assert_eq!(rt; index.part(8, usize::MAX).len(), 2);
    assert_eq!(rt; index.part(usize::MAX, 1).len(), 0);
}

#[test]
fn parts_and_texts_have_their_bytes(rt: HostRuntime) -> Result<(), Fail> {
    let name = View::new(&INDEX).sub(8, 2).ok_or("inside")?;
    assert!(rt; name.bytes() == b"f\0".as_slice() && name.u8_inside(0) == b'f');
    assert!(rt; name.len() == 2 && !name.is_empty() && View::new(&[]).is_empty());
    let index = View::new(&INDEX);
    assert!(rt; index.text_at(8) == Some(b"f".as_slice()));
    assert!(rt; index.text_at(9) == Some(b"".as_slice()) && index.text_at(10).is_none());
    assert_eq!(rt; [index.text_limit(), View::new(b"f").text_limit()], [10, 0]);
    Ok(())
}

#[test]
fn runs_are_compared_whole(rt: HostRuntime) {
    let equal = [equal_run(&INDEX, &INDEX), equal_run(&INDEX, &OFFSET)];
    let all = [all_byte(&[0x90; 5], 0x90), all_byte(&OFFSET, 0)];
    assert_eq!(rt; [equal, all], [[true, false], [true, false]]);
}

/// Whether two runs of the same length have the same bytes, byte by byte.
fn have_same_bytes(a: &[u8], b: &[u8]) -> bool {
    for (x, y) in a.iter().zip(b) {
        if *x != *y {
            return false;
        }
    }
    true
}

/// Whether each byte of a run is `x`, byte by byte.
fn is_filled(a: &[u8], x: u8) -> bool {
    for byte in a {
        if *byte != x {
            return false;
        }
    }
    true
}

/// Whether the first bytes of two runs are compared as byte by byte.
fn fronts_are_compared(a: &[u8], b: &[u8], len: usize) -> bool
    requires a { len ≤ length a.now }
    requires b { len ≤ length b.now }
{
    let (a, _) = a.split_at(len);
    let (b, _) = b.split_at(len);
    equal_run(a, b) == have_same_bytes(a, b) && all_byte(b, 0x90) == is_filled(b, 0x90)
}

#[test]
fn runs_of_all_lengths_are_compared(rt: HostRuntime) -> Result<(), Fail> {
    // One byte differs, at each offset, in runs of each length that end before it or after.
    let alloc = rt.alloc();
    let same = vec![in alloc; 0x90; 131]?;
    for place in 0..131 {
        let mut other = vec![in alloc; 0x90; 131]?;
        other[place] = 0x91;
        for len in 0..131 {
            assert!(rt;
                fronts_are_compared(&same, &other, len),
                "{len} bytes, of which {place} differs"
            );
        }
    }
    Ok(())
}

//! What fills gaps of code, by the rows of the processor's manual (AMD64 Architecture Programmer's Manual 3, "NOP").
use code_fill::{are_nops, is_code_fill};
use loader_model::Run;
use std::test::Fail;

/// Bytes, whether they are whole instructions that do nothing, and whether they are these, breakpoints and then zeros.
struct Row {
    bytes: &'static [u8],
    nops: bool,
    fill: bool,
}

static ROWS: [Row; 20] = [
    Row {
        bytes: &[],
        nops: true,
        fill: true,
    },
    Row {
        bytes: &[0x90],
        nops: true,
        fill: true,
    },
    Row {
        bytes: &[0x66, 0x66, 0x90, 0x66, 0x90],
        nops: true,
        fill: true,
    },
    Row {
        bytes: &[0x66, 0x66, 0x66, 0x90],
        nops: false,
        fill: false,
    },
    Row {
        bytes: &[0x0f, 0x1f, 0x00, 0x0f, 0x1f, 0x40, 0x00],
        nops: true,
        fill: true,
    },
    Row {
        bytes: &[0x66, 0x0f, 0x1f, 0x00],
        nops: false,
        fill: false,
    },
    Row {
        bytes: &[0x0f, 0x1f, 0x44, 0x00, 0x00],
        nops: true,
        fill: true,
    },
    Row {
        bytes: &[0x66, 0x0f, 0x1f, 0x44, 0x00, 0x00, 0x90],
        nops: true,
        fill: true,
    },
    Row {
        bytes: &[0x0f, 0x1f, 0x80, 0, 0, 0, 0],
        nops: true,
        fill: true,
    },
    Row {
        bytes: &[0x0f, 0x1f, 0x84, 0, 0, 0, 0, 0],
        nops: true,
        fill: true,
    },
    Row {
        bytes: &[0x66, 0x2e, 0x0f, 0x1f, 0x84, 0, 0, 0, 0, 0],
        nops: true,
        fill: true,
    },
    Row {
        bytes: &[0x2e, 0x66, 0x0f, 0x1f, 0x84, 0, 0, 0, 0, 0],
        nops: false,
        fill: false,
    },
    Row {
        bytes: &[0x0f, 0x1f, 0x84, 0, 0, 0, 0],
        nops: false,
        fill: false,
    },
    Row {
        bytes: &[0xcc, 0xcc, 0x90],
        nops: false,
        fill: true,
    },
    Row {
        bytes: &[0x90, 0, 0, 0],
        nops: false,
        fill: true,
    },
    Row {
        bytes: &[0, 0, 0x90],
        nops: false,
        fill: false,
    },
    Row {
        bytes: &[0, 0, 0],
        nops: false,
        fill: true,
    },
    Row {
        bytes: &[0x90, 0xcc, 0, 0, 0xcc],
        nops: false,
        fill: false,
    },
    Row {
        bytes: &[0x8d, 0x74, 0x26, 0x00],
        nops: false,
        fill: false,
    },
    Row {
        bytes: &[0x89, 0xf6],
        nops: false,
        fill: false,
    },
];

fn is_told_of(run: Run<'_>, row: &Row) -> bool {
    are_nops(run) == row.nops && is_code_fill(run) == row.fill
}

/// Whether a row's bytes are told as they should be.
fn is_told(row: &Row) -> bool {
    let run = Run {
        bytes: row.bytes,
        zeros: 0,
    };
    is_told_of(run, row)
}

#[test]
fn instructions_that_do_nothing_are_those_of_the_manual(rt: HostRuntime) -> Result<(), Fail> {
    assert!(rt; ROWS.iter().all(|row| is_told(row)));
    Ok(())
}

/// The same bytes where a file ends in the middle of them, and zeros come behind: 0f 1f 84 and five zeros, or four; 0f 1f 40 and a
/// zero; breakpoints and zeros; a file's bytes that are left over.
static STRADDLING: [(u64, Row); 7] = [
    (
        5,
        Row {
            bytes: &[0x90, 0x0f, 0x1f, 0x84],
            nops: true,
            fill: true,
        },
    ),
    (
        4,
        Row {
            bytes: &[0x90, 0x0f, 0x1f, 0x84],
            nops: false,
            fill: false,
        },
    ),
    (
        6,
        Row {
            bytes: &[0x90, 0x0f, 0x1f, 0x84],
            nops: false,
            fill: true,
        },
    ),
    (
        1,
        Row {
            bytes: &[0x0f, 0x1f, 0x40],
            nops: true,
            fill: true,
        },
    ),
    (
        0,
        Row {
            bytes: &[0x0f, 0x1f, 0x40],
            nops: false,
            fill: false,
        },
    ),
    (
        u64::MAX,
        Row {
            bytes: &[0xcc, 0xcc],
            nops: false,
            fill: true,
        },
    ),
    (
        1000,
        Row {
            bytes: &[0x66, 0x0f, 0x1f],
            nops: false,
            fill: false,
        },
    ),
];

#[test]
fn instructions_may_end_behind_a_files_part(rt: HostRuntime) -> Result<(), Fail> {
    let mut all = true;
    for (zeros, row) in &STRADDLING {
        let run = Run {
            bytes: row.bytes,
            zeros: *zeros,
        };
        all = is_told_of(run, row) && all;
    }
    assert!(rt; all);
    Ok(())
}

/// The longest run of prefixes is no instruction, and is told in time by its length.
#[test]
fn prefixes_alone_are_no_instruction(rt: HostRuntime) -> Result<(), Fail> {
    let bytes = vec![in rt.alloc(); 0x66; 1000]?;
    let run = Run {
        bytes: &bytes,
        zeros: 0,
    };
    assert!(rt; !are_nops(run) && !is_code_fill(run));
    Ok(())
}

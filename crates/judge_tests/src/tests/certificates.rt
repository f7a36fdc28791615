//! The order of a certificate's lines: by object and section, by name, and by address (docs/DEFINITIONS.md).
use elf_model::{CommonLine, DropLine, PlaceLine};
use judge_model::{Certificate, MergedLine, NameLine, StretchLine};
use place_judge::is_in_order;
use std::alloc::{AllocError, Global};
use std::test::Fail;

/// The object and the section of two drop lines and of two place lines, the names of two common lines and of two names, and the
/// addresses of the second note and the second area, where the first of each has 16 bytes from 0x200100 on; the object, section and
/// offset of two lines of strings of four bytes; whether they are in order.
struct Row {
    drops: [(u64, u64); 2],
    places: [(u64, u64); 2],
    commons: [&'static [u8]; 2],
    names: [&'static [u8]; 2],
    note: u64,
    area: u64,
    merged: [(u64, u64, u64); 2],
    ordered: bool,
}

const RIGHT: Row = Row {
    drops: [(0, 7), (1, 2)],
    places: [(1, 3), (1, 4)],
    commons: [b"v", b"vv"],
    names: [b"__bss_start", b"_end"],
    note: 0x20_0110,
    area: 0x20_0110,
    merged: [(0, 2, 8), (0, 2, 12)],
    ordered: true,
};

static ROWS: [Row; 13] = [
    RIGHT,
    Row {
        merged: [(0, 2, 8), (0, 3, 0)],
        ..RIGHT
    },
    Row {
        merged: [(0, 3, 8), (1, 2, 0)],
        ..RIGHT
    },
    Row {
        drops: [(1, 2), (0, 7)],
        ordered: false,
        ..RIGHT
    },
    Row {
        drops: [(1, 2), (1, 2)],
        ordered: false,
        ..RIGHT
    },
    Row {
        places: [(1, 4), (1, 3)],
        ordered: false,
        ..RIGHT
    },
    Row {
        commons: [b"vv", b"v"],
        ordered: false,
        ..RIGHT
    },
    Row {
        names: [b"_end", b"_end"],
        ordered: false,
        ..RIGHT
    },
    Row {
        note: 0x20_010c,
        ordered: false,
        ..RIGHT
    },
    Row {
        area: 0x20_010c,
        ordered: false,
        ..RIGHT
    },
    Row {
        merged: [(0, 2, 8), (0, 2, 11)],
        ordered: false,
        ..RIGHT
    },
    Row {
        merged: [(0, 3, 8), (0, 2, 12)],
        ordered: false,
        ..RIGHT
    },
    Row {
        merged: [(1, 2, 8), (0, 2, 12)],
        ordered: false,
        ..RIGHT
    },
];

fn drop_line(place: (u64, u64)) -> DropLine {
    DropLine {
        object: place.0,
        section: place.1,
    }
}

fn places_of(alloc: Global, rows: &[(u64, u64); 2]) -> Result<Vec<PlaceLine>, AllocError> {
    let mut lines = Vec::new(alloc);
    for (object, section) in rows {
        lines.push(PlaceLine {
            address: 0x20_10e8,
            size: 8,
            object: *object,
            section: *section,
            name: Vec::from_slice(alloc, b".text")?,
        })?;
    }
    Ok(lines)
}

fn commons_of(alloc: Global, names: &[&[u8]; 2]) -> Result<Vec<CommonLine>, AllocError> {
    let mut lines = Vec::new(alloc);
    for name in names {
        lines.push(CommonLine {
            address: 0x20_10f8,
            size: 8,
            align: 8,
            name: Vec::from_slice(alloc, name)?,
        })?;
    }
    Ok(lines)
}

fn names_of(alloc: Global, names: &[&[u8]; 2]) -> Result<Vec<NameLine>, AllocError> {
    let mut lines = Vec::new(alloc);
    for name in names {
        lines.push(NameLine {
            value: 0x20_1108,
            name: Vec::from_slice(alloc, name)?,
        })?;
    }
    Ok(lines)
}

/// Stretches of 16 bytes at 0x200100 and at an address.
fn stretches_of(alloc: Global, address: u64) -> Result<Vec<StretchLine>, AllocError> {
    let first = StretchLine {
        address: 0x20_0100,
        size: 16,
    };
    Vec::from_slice(alloc, &[first, StretchLine { address, size: 16 }])
}

fn merged_line(place: (u64, u64, u64)) -> MergedLine {
    MergedLine {
        object: place.0,
        section: place.1,
        offset: place.2,
        size: 4,
        address: 0x20_0100,
    }
}

fn certificate_of(alloc: Global, row: &Row) -> Result<Certificate, AllocError> {
    Ok(Certificate {
        objects: Vec::new(alloc),
        drops: Vec::from_slice(alloc, &[drop_line(row.drops[0]), drop_line(row.drops[1])])?,
        places: places_of(alloc, &row.places)?,
        commons: commons_of(alloc, &row.commons)?,
        notes: stretches_of(alloc, row.note)?,
        areas: stretches_of(alloc, row.area)?,
        merged: Vec::from_slice(
            alloc,
            &[merged_line(row.merged[0]), merged_line(row.merged[1])],
        )?,
        list: None,
        frames: Vec::<MergedLine>::new(alloc),
        names: names_of(alloc, &row.names)?,
        got: None,
    })
}

#[test]
fn lines_come_by_their_keys(rt: HostRuntime) -> Result<(), Fail> {
    let mut all = true;
    for row in &ROWS {
        let certificate = certificate_of(rt.alloc(), row)?;
        all = is_in_order(&certificate) == row.ordered && all;
    }
    assert!(rt; all);
    Ok(())
}

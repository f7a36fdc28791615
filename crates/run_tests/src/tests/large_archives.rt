//! Archives from 8 MB on: which places of one a run reads, and that its image is that of the same members in a smaller archive.
use crate::tests::machine::{SOUND, StoredFile};
use crate::tests::runs::{Outcome, Program, run_program_line};
use link_samples::archives::archive;
use link_samples::links::Member;
use link_samples::objects::{NamedSymbol, Relocation, relocatable};
use link_samples::parts::{NO_F, R_PC32, START, TEXT};
use std::alloc::Global;
use std::test::Fail;

/// A field of a member's text, with the distance to its second symbol.
const CALL: Relocation = Relocation(1, 1, R_PC32, 2, 0);

const NO_H: NamedSymbol<'static> = NamedSymbol { name: "h", ..NO_F };

const DEFINED: NamedSymbol<'static> = NamedSymbol {
    st_shndx: 1,
    ..START
};

/// Four members: `f`, which calls `h`; `g`; `h`; and `i`, which calls `f`.
static MEMBERS: [Member; 4] = [
    Member {
        sections: &[TEXT],
        symbols: &[
            NamedSymbol {
                name: "f",
                ..DEFINED
            },
            NO_H,
        ],
        relocations: &[CALL],
    },
    Member {
        sections: &[TEXT],
        symbols: &[NamedSymbol {
            name: "g",
            ..DEFINED
        }],
        relocations: &[],
    },
    Member {
        sections: &[TEXT],
        symbols: &[NamedSymbol {
            name: "h",
            ..DEFINED
        }],
        relocations: &[],
    },
    Member {
        sections: &[TEXT],
        symbols: &[
            NamedSymbol {
                name: "i",
                ..DEFINED
            },
            NO_F,
        ],
        relocations: &[CALL],
    },
];

/// The names of the members, in the index's order.
static NAMES: [(&[u8], usize); 4] = [(b"g\0", 1), (b"f\0", 0), (b"i\0", 3), (b"h\0", 2)];

/// The header of a last member with 8 MiB of data.
static LARGE: &[u8] = b"large.o/        0           0     0     644     8388608   `\n";

/// What comes of a line on a system with an image and a map, an object that calls `f`, and with the archive, also behind its
/// members the large one.
fn outcome_with(
    alloc: Global,
    program: Program,
    image: &[u8],
    map: &[u8],
    line: &str,
) -> Result<Outcome, Fail> {
    let caller = relocatable(alloc, &[TEXT], &[START, NO_F], &[CALL])?;
    let small = archive(alloc, &NAMES, &MEMBERS)?;
    let mut large = Vec::from_slice(alloc, &small)?;
    large.extend_from_slice(LARGE)?;
    let length = large.len().saturating_add(8 << 20);
    large.resize(length, 0)?;
    let image = Vec::from_slice(alloc, image)?;
    let map = Vec::from_slice(alloc, map)?;
    let stored = [
        StoredFile::sound("a.o", &caller),
        StoredFile::sound("small/libx.a", &small),
        StoredFile::sound("large/libx.a", &large),
        StoredFile::sound("image", &image),
        StoredFile::sound("map", &map),
    ];
    run_program_line(alloc, program, &stored, SOUND, line)
}

/// What comes of a line where the image and the map have nothing.
fn outcome(alloc: Global, program: Program, line: &str) -> Result<Outcome, Fail> {
    outcome_with(alloc, program, b"", b"", line)
}

/// Lines, and all that comes of a run beside the image. The members' headers are at 96, 764, 1312 and 1860, that of the index at 8 and of
/// the large member at 2528; the data of the index are at 68, those of `f` at 156 and of `h` at 1372.
static ROWS: [(Program, &str, &str); 4] = [
    (
        Program::Ld,
        "-s -o out a.o -L large -lx",
        "stat out\nread a.o\nread large/libx.a\nat 0\nat 8\nat 68\nat 96\nat 764\nat 1312\nat 1860\nat 2528\nat 156\nat 1372\nopen out\nnew .out.ld-0\nmode 100755\nrename .out.ld-0 to out\nout: \nerr: \nstatus 0",
    ),
    (
        Program::Debug,
        "-o out a.o -L large -lx",
        "stat out\nread a.o\nread large/libx.a\nat 0\nat 8\nat 68\nat 96\nat 764\nat 1312\nat 1860\nat 2528\nat 156\nat 1372\nopen out\nnew .out.ld-0\nmode 100755\nrename .out.ld-0 to out\nout: \nerr: \nstatus 0",
    ),
    // A link that is refused reads all files whole.
    (
        Program::Debug,
        "-o out -e none a.o -L large -lx",
        "stat out\nread a.o\nread large/libx.a\nat 0\nat 8\nat 68\nat 96\nat 764\nat 1312\nat 1860\nat 2528\nat 156\nat 1372\nread a.o\nread large/libx.a\nout: \nerr: ld: NoEntry (18)\n\nstatus 1",
    ),
    (
        Program::Ld,
        "-s -o out -e none a.o -L large -lx",
        "stat out\nread a.o\nread large/libx.a\nat 0\nat 8\nat 68\nat 96\nat 764\nat 1312\nat 1860\nat 2528\nat 156\nat 1372\nread a.o\nread large/libx.a\nout: \nerr: ld: NoEntry (18)\n\nstatus 1",
    ),
];

#[test]
fn large_archives_are_read_where_a_link_looks(rt: HostRuntime) -> Result<(), Fail> {
    for (program, line, told) in &ROWS {
        let run = outcome(rt.alloc(), *program, line)?;
        assert_eq!(rt; run.told.as_str(), *told, "{line}");
    }
    Ok(())
}

#[test]
fn images_are_those_of_small_archives(rt: HostRuntime) -> Result<(), Fail> {
    for program in [Program::Ld, Program::Debug] {
        let small = outcome(rt.alloc(), program, "-o out a.o -L small -lx")?;
        let large = outcome(rt.alloc(), program, "-o out a.o -L large -lx")?;
        let ([one], [other]) = (small.made.as_slice(), large.made.as_slice()) else {
            return Err(Fail::from("one image each"));
        };
        assert!(rt; one.bytes == other.bytes);
    }
    Ok(())
}

/// The places that a link reads, and so does its check.
const READ: &str =
    "read a.o\nread large/libx.a\nat 0\nat 8\nat 68\nat 96\nat 764\nat 1312\nat 1860\nat 2528\n";

/// The link of the archive, its check, and one for which the image is that of an object alone.
#[test]
fn large_archives_are_read_where_a_check_looks(rt: HostRuntime) -> Result<(), Fail> {
    let alloc = rt.alloc();
    let made = outcome(alloc, Program::Ld, "-s -o out -Map=text a.o -L large -lx")?;
    let [image, map] = made.made.as_slice() else {
        return Err(Fail::from("an image and a map"));
    };
    let line = "-s --check -o image -Map=map a.o -L large -lx";
    let right = outcome_with(alloc, Program::Ld, &image.bytes, &map.bytes, line)?;
    let wanted = format!(in alloc;
        "{READ}read image\nread map\nat 156\nat 1372\nout: yes\n\nerr: \nstatus 0"
    )?;
    assert_eq!(rt; right.told, wanted);
    // What is wrong is judged by whole files.
    let wrong = outcome_with(alloc, Program::Ld, &map.bytes, &map.bytes, line)?;
    let wanted = format!(in alloc;
        "{READ}read image\nread map\nat 156\nat 1372\nread a.o\nread large/libx.a\nout: no C4\n\nerr: \nstatus 1"
    )?;
    assert_eq!(rt; wrong.told, wanted);
    Ok(())
}

/// The same of images for tools: the one of the archive, and that of `ld`, which has no tables.
#[test]
fn large_archives_are_read_where_a_check_of_tables_looks(rt: HostRuntime) -> Result<(), Fail> {
    let alloc = rt.alloc();
    let made = outcome(alloc, Program::Debug, "-o out -Map=text a.o -L large -lx")?;
    let [image, map] = made.made.as_slice() else {
        return Err(Fail::from("an image and a map"));
    };
    let line = "--check -o image -Map=map a.o -L large -lx";
    let right = outcome_with(alloc, Program::Debug, &image.bytes, &map.bytes, line)?;
    let wanted = format!(in alloc;
        "{READ}read image\nread map\nat 156\nat 1372\nout: yes\n\nerr: \nstatus 0"
    )?;
    assert_eq!(rt; right.told, wanted);
    let plain = outcome(alloc, Program::Ld, "-s -o out a.o -L large -lx")?;
    let [bare] = plain.made.as_slice() else {
        return Err(Fail::from("an image"));
    };
    let wrong = outcome_with(alloc, Program::Debug, &bare.bytes, &map.bytes, line)?;
    let wanted = format!(in alloc;
        "{READ}read image\nread map\nat 156\nat 1372\nread a.o\nread large/libx.a\nout: no tables\n\nerr: \nstatus 1"
    )?;
    assert_eq!(rt; wrong.told, wanted);
    Ok(())
}

//! What a run draws by chance: the names of new files, and the seed of the hashes of names.
use crate::tests::machine::{Disk, Machine, SOUND, StoredFile};
use crate::tests::runs::Program;
use ld_main::{name_seed, run_args};
use link_samples::vectors::{MAP, OBJECT, image};
use std::alloc::Global;
use std::hash::BuildHasher;
use std::test::Fail;

/// The journal of a link on a system whose random bytes are all the same.
fn journal(alloc: Global, random: Option<u8>) -> Result<String, Fail> {
    let stored = [StoredFile::sound("a.o", &OBJECT)];
    let disk = Disk::new(alloc, &stored, SOUND);
    let machine = Machine {
        disk: &disk,
        words: &[b"ld", b"-s", b"a.o"],
        random,
    };
    let mut out = Vec::new(alloc);
    let mut err = Vec::new(alloc);
    let _status = run_args(&machine, &mut out, &mut err);
    let (_made, _passed, journal) = disk.into_parts();
    Ok(journal)
}

/// Random bytes, and the number in the name of a new file: eight of them, least significant first.
static NAMES: [(Option<u8>, &str); 3] = [
    (None, "new .a.out.ld-0\n"),
    (Some(1), "new .a.out.ld-72340172838076673\n"),
    (Some(7), "new .a.out.ld-506381209866536711\n"),
];

#[test]
fn names_of_new_files_are_drawn(rt: HostRuntime) -> Result<(), Fail> {
    for (random, line) in &NAMES {
        let told = journal(rt.alloc(), *random)?;
        assert!(rt; told.contains(*line), "{told}");
    }
    Ok(())
}

#[test]
fn each_run_hashes_names_by_another_seed(rt: HostRuntime) -> Result<(), Fail> {
    let disk = Disk::new(rt.alloc(), &[], SOUND);
    let mut found = Vec::new(rt.alloc());
    for random in [None, Some(1), Some(2)] {
        let machine = Machine {
            disk: &disk,
            words: &[],
            random,
        };
        let hash = name_seed(&machine).hash_one(3u64);
        assert!(rt; !found.contains(&hash));
        found.push(hash)?;
    }
    Ok(())
}

/// Words, and how often at least random bytes are asked for: for the seed, and for the name of a new file.
static DRAWS: [(&[&[u8]], u64); 2] = [
    (&[b"ld", b"-s", b"a.o", b"-Map=a.map", b"--check"], 1),
    (&[b"ld", b"-s", b"a.o"], 2),
];

/// How often a program asks for random bytes.
fn draws_of(alloc: Global, program: Program, words: &[&[u8]]) -> Result<u64, Fail> {
    let image = image(alloc)?;
    let stored = [
        StoredFile::sound("a.o", &OBJECT),
        StoredFile::sound("a.out", &image),
        StoredFile::sound("a.map", MAP),
    ];
    let disk = Disk::new(alloc, &stored, SOUND);
    let machine = Machine {
        disk: &disk,
        words,
        random: Some(1),
    };
    let mut out = Vec::new(alloc);
    let mut err = Vec::new(alloc);
    let _status = program.start(&machine, &mut out, &mut err);
    Ok(disk.draws()?)
}

#[test]
fn each_program_draws_its_seed(rt: HostRuntime) -> Result<(), Fail> {
    for program in [Program::Ld, Program::Debug, Program::Why] {
        for (words, least) in &DRAWS {
            let draws = draws_of(rt.alloc(), program, words)?;
            assert!(rt; *least <= draws);
        }
    }
    Ok(())
}

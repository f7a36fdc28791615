//! Values that grow call by call: after a refused growth they answer as before.
use crate::refusals::{Run, answered};
use byteview::View;
use comdat::{Dropped, Groups};
use elf_model::{InputFile, NameSeed};
use elf_read::ObjectFile;
use symbols::{Candidate, CandidateKind, IndexedTable, ListTable, NameTable, ObjectId, SymbolRef};

/// Names of one byte each.
static NAMES: &[u8] = b"abcdefghijklmnopqrstuvwxyzABCDEFGHIJKLMNOPQRSTUVWXYZ";

/// A candidate for the name with a number: strong, weak and common ones in turn.
fn candidate(number: usize) -> Candidate {
    let kind = match number % 3 {
        0 => CandidateKind::Strong,
        1 => CandidateKind::Weak,
        _ => CandidateKind::Common,
    };
    Candidate {
        symbol: SymbolRef {
            object: ObjectId(number as u64),
            symbol: 1,
        },
        kind,
        size: 8,
        align: 8,
    }
}

/// Whether two tables have the same row of each name of one byte.
fn have_same_rows<'a, T: NameTable<'a>, S: NameTable<'a>>(
    names: &'a [u8],
    table: &T,
    twin: &S,
) -> bool {
    for name in names.chunks(1) {
        if table.get(name) != twin.get(name) {
            return false;
        }
    }
    true
}

/// Offers a candidate to a table, and again where memory is refused. Whether the table was then as its twin, and took
/// it.
fn offer<'a, T: NameTable<'a>, S: NameTable<'a>>(
    run: &Run<'_>,
    call: &str,
    names: &'a [u8],
    table: &mut T,
    twin: &S,
    offered: (&'a [u8], Candidate),
) -> bool {
    if table.offer(offered.0, offered.1).is_ok() {
        return true;
    }
    run.tell_refused(call);
    have_same_rows(names, table, twin) && table.offer(offered.0, offered.1).is_ok()
}

/// Offers names of one byte to both tables, to the first one before the second. Whether both took all, and have the same
/// rows.
fn offer_all<'a, T: NameTable<'a>, S: NameTable<'a>>(
    run: &Run<'_>,
    call: &str,
    names: &'a [u8],
    table: &mut T,
    twin: &mut S,
) -> bool {
    for (number, name) in names.chunks(1).enumerate() {
        let candidate = candidate(number);
        if !offer(run, call, names, table, twin, (name, candidate)) {
            return false;
        }
        if twin.offer(name, candidate).is_err() {
            run.tell_refused("its twin");
            let _ = twin.offer(name, candidate);
        }
    }
    have_same_rows(names, table, twin)
}

/// The sections that an object loses to groups that were admitted before.
fn admitted<'a>(run: &Run<'_>, groups: &mut Groups<'a>, file: &'a InputFile) -> Option<Dropped> {
    let object = answered!(
        run,
        "ObjectFile::read",
        ObjectFile::read(run.alloc(), View::new(&file.bytes))
    )?;
    answered!(run, "admit", groups.admit(&object))
}

/// Admits the groups of each object.
fn admit_all(run: &Run<'_>, files: &[InputFile]) {
    let mut groups = Groups::new(run.alloc());
    for file in files {
        if !file.name.ends_with(".o") {
            continue;
        }
        if let Some(dropped) = admitted(run, &mut groups, file) {
            let _ = println!(run.rt; "admit {}: without {:?}", file.name, dropped.sections());
        }
    }
}

/// Offers names to a table by hash before its twin, a list; and all of them once more.
fn run_index(run: &Run<'_>) {
    let mut list = ListTable::new(run.alloc());
    let mut index = IndexedTable::with_hasher(run.alloc(), NameSeed::fixed());
    let same = offer_all(run, "offer of the index", NAMES, &mut index, &mut list)
        && offer_all(run, "offer of the index", NAMES, &mut index, &mut list);
    let _ = println!(run.rt; "offer of the index: same rows: {same}");
}

/// The same with the list before the table by hash.
fn run_list(run: &Run<'_>) {
    let mut list = ListTable::new(run.alloc());
    let mut index = IndexedTable::with_hasher(run.alloc(), NameSeed::fixed());
    let same = offer_all(run, "offer of the list", NAMES, &mut list, &mut index)
        && offer_all(run, "offer of the list", NAMES, &mut list, &mut index);
    let _ = println!(run.rt; "offer of the list: same rows: {same}");
}

/// Fills tables of names, and the set of the groups that files have.
pub fn run_tables(run: &Run<'_>, files: &[InputFile]) {
    run_index(run);
    run_list(run);
    admit_all(run, files);
}

//! The order of the names of definitions. Sorting moves small keys, a number that is made of seven bytes of a name and its position;
//! only names that have one number there are read again, for the next seven bytes.
ghost use Rattle.std.specs.Prelude.{◌≡◌, ◌≢◌, ◌<◌, ◌≤◌, ◌+◌, ◌^◌, ℕ, All, IfOk, List, drop, length, slice_get, take};
ghost use Rattle.std.specs.Cmp.Lexicographic.{slice_cmp};
ghost use Rattle.std.specs.List.{range_with_len};
ghost use Rattle.std.specs.Ordering.{nat_cmp};
ghost use Rattle.linker.specs.NameKeys.{AreAlike, IsBegun, IsKeyed, IsOrderOf, IsSortedRun, behind_of, digit, held_names, key_at, name_key, name_of, positions, run_in};

use elf_model::Bound;
use resolve::Definitions;
use std::alloc::{AllocError, Global};
use std::cmp::Ordering;

/// What has a name: symbols, and behind them names of the linker's. Each has a position among them, from 0.
#[derive(Clone, Copy)]
pub struct Names<'c, 'a> {
    pub symbols: Definitions<'c, 'a>,
    pub linkers: &'c [(&'a [u8], Bound)],
}

/// The position of a name, with a number that is made of some of its bytes.
#[derive(Clone, Copy, Debug)]
pub struct Keyed {
    key: u64,
    pub position: usize,
}

/// How many bytes of a name a number is made of.
const DIGITS: usize = 7;

/// The name at a position; an empty one behind the last.
fn name_at<'a>(names: Names<'_, 'a>, position: usize) -> &'a [u8]
    ensures { result.now ≡ name_of names.entry position }
{
    let count = names.symbols.len();
    if position < count {
        return names.symbols.name(position);
    }
    match names.linkers.get(position - count) {
        Some((name, _)) => name,
        None => &[],
    }
}

/// What byte `i` of a name is counted as: itself and one more, 0 behind the last.
fn digit(name: &[u8], i: usize) -> u64
    ensures { result ≡ digit (slice_get name.now i) }
{
    match name.get(i) {
        Some(byte) => u64::from(*byte) + 1,
        None => 0,
    }
}

fn show_bytes(name: &[u8])
    ensures { All (λ b. b < 256) name.now }
{}

/// The first bytes of a name, which may be fewer than a number is made of, as a number.
fn short_key(name: &[u8]) -> u64
    ensures { result ≡ name_key name.now }
{
    show_bytes(name);
    let mut key = 0;
    for i in 0..DIGITS {
        key = key * 257 + digit(name, i);
    }
    key
}

/// As many bytes as a number is made of as that number.
fn whole_key(bytes: &[u8; DIGITS]) -> u64
    ensures { result ≡ name_key bytes.now }
{
    show_bytes(bytes);
    let mut key = 0;
    for byte in bytes {
        key = key * 257 + (u64::from(*byte) + 1);
    }
    key
}

/// The first bytes of a name as a number.
fn key(name: &[u8]) -> u64
    ensures key { result ≡ name_key name.now }
    ensures bytes { All (λ b. b < 256) name.now }
{
    show_bytes(name);
    match name.split_first_chunk::<DIGITS>() {
        Some((front, _)) => whole_key(front),
        None => short_key(name),
    }
}

/// How many numbers in turn are made of names that begin alike, before the bytes behind these are compared.
const MOST_LEVELS: usize = 32;

/// The last offset behind which numbers are made.
const MOST_OFFSET: usize = 1 << 62;

/// How many names are compared at once.
const FEW: usize = 6;

/// The bytes of a name from an offset on.
fn behind(name: &[u8], offset: usize) -> &[u8]
    ensures { result.now ≡ drop offset name.now }
{
    if name.len() < offset {
        return &[];
    }
    let (_, rest) = name.split_at(offset);
    rest
}

/// The order of two names from an offset on.
fn compare(names: Names<'_, '_>, offset: usize, a: &Keyed, b: &Keyed) -> Ordering
    ensures { result ≡ slice_cmp nat_cmp (behind_of names.entry offset a.now)
        (behind_of names.entry offset b.now) }
{
    behind(name_at(names, a.position), offset).cmp(&behind(name_at(names, b.position), offset))
}

/// Gives each name the number of its bytes from an offset on.
fn number(names: Names<'_, '_>, offset: usize, run: &mut [Keyed])
    ensures positions { positions run.new ≡ positions run.old }
    ensures keys { All (IsKeyed names.entry offset) run.new }
{
    for i in 0..run.len() {
        run[i].key = key(behind(name_at(names, run[i].position), offset));
    }
}

/// Where the names end that have the number of one.
fn run_end(keys: &[Keyed], from: usize) -> usize
    requires { from < length keys.now }
    ensures behind { from < result }
    ensures within { result ≤ length keys.now }
    ensures same { All (λ k. k.key ≡ key_at keys.now from) (run_in from result keys.now) }
    ensures last { result < length keys.now → key_at keys.now result ≢ key_at keys.now from }
{
    let mut to = from + 1;
    while to < keys.len() && keys[to].key == keys[from].key {
        to += 1;
    }
    to
}

/// Sorts names by comparing them from an offset on.
fn sort_few(names: Names<'_, '_>, run: &mut [Keyed], offset: usize)
    requires { AreAlike names offset (positions run.old) }
    ensures { IsSortedRun names.entry run.old run.new }
{
    run.sort_unstable_by(|a, b| compare(names, offset, a, b));
}

/// The part of a text with which a name begins.
fn shared<'a>(front: &'a [u8], name: &[u8]) -> &'a [u8]
    ensures front { take (length result.now) front.entry.now ≡ result.now }
    ensures name { take (length result.now) name.now ≡ result.now }
{
    if name.starts_with(front) {
        return front;
    }
    let most = front.len().min(name.len());
    for k in 0..most {
        if front[k] != name[k] {
            let (same, _) = front.split_at(k);
            return same;
        }
    }
    let (same, _) = front.split_at(most);
    same
}

/// How many bytes from an offset on all names have in common.
fn common(names: Names<'_, '_>, offset: usize, run: &[Keyed]) -> usize
    ensures begin { (front : List ℕ) × (length front ≡ result)
        × All (IsBegun names.entry offset front) run.now }
    ensures short { result < 2 ^ 63 }
{
    let [first, ..] = run else {
        return 0;
    };
    let mut front = behind(name_at(names, first.position), offset);
    for keyed in run {
        front = shared(front, behind(name_at(names, keyed.position), offset));
    }
    front.len()
}

/// From where on names are compared next that are alike up to an offset: where they were all of a run, behind what they have in
/// common too.
fn next_offset(names: Names<'_, '_>, alike: &[Keyed], offset: usize, were_all: bool) -> usize
    requires { offset ≤ 2 ^ 62 + 7 }
    ensures { AreAlike names.entry offset (positions alike.now)
        → AreAlike names.entry result (positions alike.now) }
{
    if !were_all {
        return offset;
    }
    offset + common(names, offset, alike)
}

/// Sorts names that are alike up to an offset: by the number of their bytes there, and those of one number behind these, for so
/// many levels.
fn sort_level(names: Names<'_, '_>, run: &mut [Keyed], offset: usize, levels: usize)
    requires { AreAlike names offset (positions run.old) }
    ensures { IsSortedRun names.entry run.old run.new }
{
    if run.len() <= FEW || levels == 0 || offset > MOST_OFFSET {
        sort_few(names, run, offset);
        return;
    }
    number(names, offset, run);
    run.sort_unstable_by_key(|keyed| keyed.key);
    let mut from = 0;
    while from < run.len() {
        let to = run_end(run, from);
        let were_all = to - from == run.len();
        let (_, rest) = run.split_at_mut(from);
        let (alike, _) = rest.split_at_mut(to - from);
        let next = next_offset(names, alike, offset + DIGITS, were_all);
        sort_level(names, alike, next, levels - 1);
        from = to;
    }
}

/// The positions of names.
fn all_positions(alloc: Global, names: Names<'_, '_>) -> Result<Vec<Keyed>, AllocError>
    ensures { IfOk result (λ v. positions v.items
        ≡ range_with_len 0 (length (held_names names.entry))) }
{
    let count = names.symbols.len() + names.linkers.len();
    let mut keys = Vec::with_capacity(alloc, count)?;
    for position in 0..count {
        keys.push(Keyed { key: 0, position })?;
    }
    Ok(keys)
}

/// The positions of names in the order of the names.
pub fn order(alloc: Global, names: Names<'_, '_>) -> Result<Vec<Keyed>, AllocError>
    ensures { IfOk result (λ v. IsOrderOf (held_names names.entry) v.items) }
{
    let mut keys = all_positions(alloc, names)?;
    sort_level(names, keys.as_mut_slice(), 0, MOST_LEVELS);
    Ok(keys)
}

//! Stretches of bytes outside of all things: whether they are fill.
ghost use Rattle.std.specs.Prelude.{◌≡◌, ◌+◌, ◌-◌, ◌≤◌, ◌<◌, ◌↔◌, ℕ, All, IsTrue, length, slice_index};
ghost use Rattle.std.specs.List.Sorted.{IsNonDecreasingBy};
ghost use Rattle.check_places.specs.Sweeps.{EndFits, GapIs, RegionFilled};

use byteview::all_byte;
use elf_model::Thing;

/// Addresses from `start` up to `top`, the bytes that stand there from `start` on, zeros behind them, and
/// the byte that fills what no thing takes up.
#[derive(Clone, Copy)]
pub struct Region<'a> {
    pub bytes: &'a [u8],
    pub start: u64,
    pub top: u64,
    pub fill: u8,
}

/// Whether each address from `from` up to `to` that is below the top has the fill.
fn is_gap(region: &Region<'_>, from: u64, to: u64) -> bool
    requires { region.now.start ≤ from }
    ensures { IsTrue result
        ↔ GapIs region.now.bytes.now region.now.start region.now.top region.now.fill from to }
{
    let end = to.min(region.top);
    if end <= from {
        return true;
    }
    let low = (from - region.start) as usize;
    let high = (end - region.start) as usize;
    if !is_fill(region.bytes, low, high, region.fill) {
        return false;
    }
    high <= region.bytes.len() || region.fill == 0
}

/// Whether the bytes from `low` up to `high` that are there are `fill`.
fn is_fill(bytes: &[u8], low: usize, high: usize, fill: u8) -> bool
    requires { low ≤ high }
    ensures { IsTrue result ↔ ((k : ℕ) →
        low ≤ k → k < high → k < length bytes.now → slice_index bytes.now k ≡ fill) }
{
    let end = high.min(bytes.len());
    if end <= low {
        return true;
    }
    let (front, _rest) = bytes.split_at(end);
    let (_before, part) = front.split_at(low);
    all_byte(part, fill)
}

/// Whether each address of a region that no thing takes up has the fill. The things stand in the order of
/// their addresses and end below 2^64.
pub fn is_filled(region: &Region<'_>, sorted: &[Thing]) -> bool
    requires fits { All EndFits sorted.now }
    requires rising { IsNonDecreasingBy (λ t. t.at) sorted.now }
    ensures { IsTrue result
        ↔ RegionFilled region.now.bytes.now region.now.start region.now.top region.now.fill sorted.now }
{
    let mut from = region.start;
    for thing in sorted {
        if !is_gap(region, from, thing.at) {
            return false;
        }
        from = from.max(thing.at + thing.size);
    }
    is_gap(region, from, region.top)
}

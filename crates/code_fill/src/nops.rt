//! The instruction that bytes begin with, where it does nothing (AMD64 Architecture Programmer's Manual 3, "NOP").
ghost use Rattle.std.specs.Prelude.{◌≡◌, ◌+◌, ◌<◌, ◌≤◌, IfSome, None, Some, cond, length, nat_le};
ghost use Rattle.code_fill.specs.Nops.{long_nop_behind};
ghost use Rattle.code_fill.specs.Padded.{whole};
ghost use Rattle.judge_model.specs.Fill.{filler_at, nop_at, nop_behind};

use crate::padded::{begins_with, behind, is_breakpoint, prefixes_of};
use loader_model::Run;

/// The length of an instruction of `len` bytes behind prefixes, of which it may have so many; None where there are more.
fn length_behind(prefixes: usize, most: usize, len: usize) -> Option<usize>
    requires { (most ≤ 8) × (len ≤ 9) }
    ensures { result ≡ cond (nat_le prefixes most) (Some (prefixes + len)) None }
{
    if prefixes <= most {
        Some(prefixes + len)
    } else {
        None
    }
}

/// The length of the instruction that does nothing, behind a number of prefixes, with which bytes begin; None where they
/// begin with none.
fn nop_behind(prefixes: usize, run: Run<'_>) -> Option<usize>
    ensures exact { result ≡ nop_behind prefixes (whole run.entry) }
{
    if begins_with(run, &[0x90]) {
        return length_behind(prefixes, 2, 1);
    }
    if begins_with(run, &[0x0f, 0x1f, 0]) {
        return length_behind(prefixes, 0, 3);
    }
    if begins_with(run, &[0x0f, 0x1f, 0x40, 0]) {
        return length_behind(prefixes, 0, 4);
    }
    if begins_with(run, &[0x0f, 0x1f, 0x44, 0, 0]) {
        return length_behind(prefixes, 1, 5);
    }
    long_nop_behind(prefixes, run)
}

/// The same of those with an address of four bytes.
fn long_nop_behind(prefixes: usize, run: Run<'_>) -> Option<usize>
    ensures exact { result ≡ long_nop_behind prefixes (whole run.entry) }
{
    if begins_with(run, &[0x0f, 0x1f, 0x80, 0, 0, 0, 0]) {
        return length_behind(prefixes, 8, 7);
    }
    if begins_with(run, &[0x0f, 0x1f, 0x84, 0, 0, 0, 0, 0]) {
        return length_behind(prefixes, 7, 8);
    }
    if begins_with(run, &[0x2e, 0x0f, 0x1f, 0x80, 0, 0, 0, 0]) {
        return length_behind(prefixes, 7, 8);
    }
    if begins_with(run, &[0x2e, 0x0f, 0x1f, 0x84, 0, 0, 0, 0, 0]) {
        return length_behind(prefixes, 6, 9);
    }
    None
}

/// The length of the instruction that does nothing with which bytes begin; None where they begin with none.
pub fn nop_at(run: Run<'_>) -> Option<usize>
    ensures exact { result ≡ nop_at (whole run.entry) }
    ensures within { IfSome result (λ k. (0 < k) × (k ≤ length (whole run.entry))) }
{
    let prefixes = prefixes_of(run);
    nop_behind(prefixes, behind(run, prefixes))
}

/// The same of a breakpoint too.
pub fn filler_at(run: Run<'_>) -> Option<usize>
    ensures exact { result ≡ filler_at (whole run.entry) }
    ensures within { IfSome result (λ k. (0 < k) × (k ≤ length (whole run.entry))) }
{
    if is_breakpoint(run) {
        return Some(1);
    }
    nop_at(run)
}

//! Runs of instructions that do nothing.
ghost use Rattle.std.specs.Prelude.{◌↔◌, IsTrue};
ghost use Rattle.code_fill.specs.Padded.{whole};
ghost use Rattle.judge_model.specs.Fill.{AreNops, IsCodeFill};

use crate::nops::{filler_at, nop_at};
use crate::padded::{are_zeros, behind, is_empty};
use loader_model::Run;

/// Whether bytes, and the zeros behind them, are whole instructions that do nothing, one behind the other. Takes time by the number
/// of the bytes.
pub fn are_nops(run: Run<'_>) -> bool
    ensures { IsTrue result ↔ AreNops (whole run.entry) }
{
    let mut rest = run;
    while let Some(len) = nop_at(rest) {
        rest = behind(rest, len);
    }
    is_empty(rest)
}

/// Whether bytes, and the zeros behind them, are whole instructions that do nothing and breakpoints, and then zeros. Takes time by
/// the number of the bytes.
pub fn is_code_fill(run: Run<'_>) -> bool
    ensures { IsTrue result ↔ IsCodeFill (whole run.entry) }
{
    let mut rest = run;
    while let Some(len) = filler_at(rest) {
        rest = behind(rest, len);
    }
    are_zeros(rest)
}

//! Bytes of memory as a file has them, and zeros behind them: what they begin with, and what is behind that.
ghost use Rattle.std.specs.Prelude.{◌≡◌, ◌↔◌, ◌+◌, ◌≤◌, ◌<◌, ℕ, [], All, IsTrue, drop, length, nat_eq, slice_index};
ghost use Rattle.std.specs.List.{prefix_len, slice_get, starts_with};
ghost use Rattle.code_fill.specs.Padded.{whole};
ghost use Rattle.judge_model.specs.Fill.{is_breakpoint, is_prefix};

use byteview::all_byte;
use loader_model::Run;

/// The prefix that an instruction may have several times.
const PREFIX: u8 = 0x66;

const BREAKPOINT: u8 = 0xcc;

/// Whether a text is zeros, at most so many.
fn are_so_many_zeros(text: &[u8], zeros: u64) -> bool
    ensures { IsTrue result ↔ ((length text.now ≤ zeros)
        × ((k : ℕ) → k < length text.now → slice_index text.now k ≡ 0)) }
{
    text.len() as u64 <= zeros && all_byte(text, 0)
}

fn starts_with(bytes: &[u8], text: &[u8]) -> bool
    ensures exact { result ≡ starts_with nat_eq bytes.now text.now }
{
    bytes.starts_with(text)
}

/// Whether the bytes, and the zeros behind them, begin with a text.
pub fn begins_with(run: Run<'_>, text: &[u8]) -> bool
    ensures exact { result ≡ starts_with nat_eq (whole run.entry) text.now }
{
    let (front, rest) = text.split_at(run.bytes.len().min(text.len()));
    if !starts_with(run.bytes, front) {
        return false;
    }
    are_so_many_zeros(rest, run.zeros)
}

fn count_prefixes(bytes: &[u8]) -> usize
    ensures exact { result ≡ prefix_len is_prefix bytes.now }
    ensures within { result ≤ length bytes.now }
{
    bytes.iter().take_while(|b| **b == PREFIX).count()
}

/// How many prefixes come first.
pub fn prefixes_of(run: Run<'_>) -> usize
    ensures exact { result ≡ prefix_len is_prefix (whole run.entry) }
    ensures within { result ≤ length (whole run.entry) }
{
    count_prefixes(run.bytes)
}

/// What is behind the first so many.
pub fn behind(run: Run<'_>, len: usize) -> Run<'_>
    requires { len ≤ length (whole run) }
    ensures exact { whole result ≡ drop len (whole run.entry) }
    ensures shorter { length (whole result) + len
        ≡ length (whole run.entry) }
{
    if len <= run.bytes.len() {
        let (_front, rest) = run.bytes.split_at(len);
        return Run {
            bytes: rest,
            zeros: run.zeros,
        };
    }
    Run {
        bytes: &[],
        zeros: run.zeros - (len - run.bytes.len()) as u64,
    }
}

/// Whether a breakpoint comes first.
pub fn is_breakpoint(run: Run<'_>) -> bool
    ensures { result ≡ is_breakpoint (slice_get (whole run.entry) 0) }
{
    match run.bytes.first() {
        Some(byte) => *byte == BREAKPOINT,
        None => false,
    }
}

/// Whether all are zeros.
pub fn are_zeros(run: Run<'_>) -> bool
    ensures { IsTrue result ↔ All (λ b. b ≡ 0) (whole run.entry) }
{
    all_byte(run.bytes, 0)
}

fn are_both_nothing(len: usize, zeros: u64) -> bool
    ensures { IsTrue result ↔ ((len ≡ 0) × (zeros ≡ 0)) }
{
    len == 0 && zeros == 0
}

/// Whether there are none.
pub fn is_empty(run: Run<'_>) -> bool
    ensures { IsTrue result ↔ (whole run.entry ≡ []) }
{
    are_both_nothing(run.bytes.len(), run.zeros)
}

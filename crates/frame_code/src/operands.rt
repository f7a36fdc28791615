//! Numbers, texts and blocks at the front of bytes, each of which ends where its bytes say: what is behind them.
ghost use Rattle.std.specs.Prelude.{◌≡◌, ◌+◌, ◌≤◌, drop, length, option_copied, take};
ghost use Rattle.std.specs.List.{prefix_len};
ghost use Rattle.judge_model.specs.FrameCode.{behind, behind_block, behind_number, behind_text, behind_two_numbers, in_block, is_among, is_continued, is_letter, text_at_front};

/// Whether a code is one of some.
pub fn is_among(codes: &[u8], code: u8) -> bool
    ensures { result ≡ is_among codes.now code }
{
    codes.iter().any(|c| *c == code)
}

/// What is behind so many bytes; None where there are fewer.
pub fn behind(n: usize, bytes: &[u8]) -> Option<&[u8]>
    ensures { option_copied result ≡ behind n bytes.now }
{
    if n <= bytes.len() {
        let (_front, rest) = bytes.split_at(n);
        return Some(rest);
    }
    None
}

/// The first so many bytes.
pub fn front(n: usize, bytes: &[u8]) -> &[u8]
    requires { n ≤ length bytes.now }
    ensures { result.now ≡ take n bytes.now }
{
    let (front, _rest) = bytes.split_at(n);
    front
}

fn count_continued(bytes: &[u8]) -> usize
    ensures exact { result ≡ prefix_len is_continued bytes.now }
    ensures within { result ≤ length bytes.now }
{
    bytes.iter().take_while(|b| 128 <= **b).count()
}

fn count_letters(bytes: &[u8]) -> usize
    ensures exact { result ≡ prefix_len is_letter bytes.now }
    ensures within { result ≤ length bytes.now }
{
    bytes.iter().take_while(|b| 0 < **b).count()
}

/// What is behind a LEB128 (DWARF 4, 7.6); None where the bytes end before it does.
pub fn behind_number(bytes: &[u8]) -> Option<&[u8]>
    ensures { option_copied result ≡ behind_number bytes.now }
{
    behind(1 + count_continued(bytes), bytes)
}

/// What is behind two of them.
pub fn behind_two_numbers(bytes: &[u8]) -> Option<&[u8]>
    ensures { option_copied result ≡ behind_two_numbers bytes.now }
{
    let rest = behind_number(bytes)?;
    behind_number(rest)
}

/// What is behind a text and its NUL; None where there is no NUL.
pub fn behind_text(bytes: &[u8]) -> Option<&[u8]>
    ensures { option_copied result ≡ behind_text bytes.now }
{
    behind(1 + count_letters(bytes), bytes)
}

/// The text, without its NUL; all where there is none.
pub fn text_at_front(bytes: &[u8]) -> &[u8]
    ensures { result.now ≡ text_at_front bytes.now }
{
    front(count_letters(bytes), bytes)
}

/// What is behind a block, which begins with the number of its bytes; None where that has more than one byte, or the bytes end
/// before the block does.
pub fn behind_block(bytes: &[u8]) -> Option<&[u8]>
    ensures { option_copied result ≡ behind_block bytes.now }
{
    match bytes {
        [] => None,
        [n, rest @ ..] => {
            if *n >= 128 {
                return None;
            }
            behind(*n as usize, rest)
        }
    }
}

/// The bytes of the block.
pub fn in_block(bytes: &[u8]) -> Option<&[u8]>
    ensures { option_copied result ≡ in_block bytes.now }
{
    match bytes {
        [] => None,
        [n, rest @ ..] => {
            let n = *n as usize;
            if n >= 128 || n > rest.len() {
                return None;
            }
            Some(front(n, rest))
        }
    }
}

//! Pages of zeros among bytes.
ghost use Rattle.std.specs.Prelude.{◌≡◌, ◌+◌, ◌<◌, ◌≤◌, length, replicate, take, true};

/// How many bytes a page has: the least that a disk has or hasn't room for.
pub const PAGE: usize = 4096;

/// The greatest of some bytes, 0 where there are none.
fn greatest(bytes: &[u8]) -> u8
    ensures { result ≡ 0 → bytes.now ≡ replicate (length bytes.now) 0 }
{
    let mut most = 0u8;
    for byte in bytes {
        most = most.max(*byte);
    }
    most
}

/// How many of the first bytes mostly tell that some bytes aren't zeros.
const HEAD: usize = 64;

/// Whether some bytes are zeros. The first ones mostly tell that they aren't.
fn are_zeros(bytes: &[u8]) -> bool
    ensures { result ≡ true → bytes.now ≡ replicate (length bytes.now) 0 }
{
    let (head, _) = bytes.split_at(HEAD.min(bytes.len()));
    if greatest(head) != 0 {
        return false;
    }
    greatest(bytes) == 0
}

/// Whether bytes begin with a page of zeros.
fn begins_with_zeros(bytes: &[u8]) -> bool
    ensures within { result ≡ true → PAGE ≤ length bytes.now }
    ensures zeros { result ≡ true → take PAGE bytes.now ≡ replicate PAGE 0 }
{
    if bytes.len() < PAGE {
        return false;
    }
    let (page, _) = bytes.split_at(PAGE);
    are_zeros(page)
}

/// How many of the first bytes are whole pages of zeros.
pub fn zeros_ahead(bytes: &[u8]) -> usize
    ensures within { result ≤ length bytes.now }
    ensures zeros { take result bytes.now ≡ replicate result 0 }
{
    let mut rest = bytes;
    let mut count = 0;
    while begins_with_zeros(rest) {
        let (_, behind) = rest.split_at(PAGE);
        rest = behind;
        count += PAGE;
    }
    count
}

/// How many bytes there are before the first page of zeros that begins `first` bytes on or whole
/// pages later; all where there is none.
pub fn before_zeros(bytes: &[u8], first: usize) -> usize
    requires { 0 < first }
    ensures within { result ≤ length bytes.now }
    ensures some { 0 < length bytes.now → 0 < result }
{
    let mut count = first.min(bytes.len());
    while count < bytes.len() {
        let (_, rest) = bytes.split_at(count);
        if begins_with_zeros(rest) {
            return count;
        }
        count += PAGE.min(rest.len());
    }
    count
}

//! Names that one edit makes of each other: a byte inserted, left out or replaced, or two neighbours exchanged.
ghost use Rattle.std.specs.Prelude.{◌≡◌, ◌≤◌, IsTrue, drop, length, take};
ghost use Rattle.like_names.specs.Names.{AreExchanged, IsOneEdit};

/// How many first bytes two names have in common.
fn common_len(a: &[u8], b: &[u8]) -> usize
    ensures in_first { result ≤ length a.now }
    ensures in_second { result ≤ length b.now }
    ensures same { take result a.now ≡ take result b.now }
{
    let mut n = 0;
    while n < a.len() && n < b.len() {
        if a[n] != b[n] {
            return n;
        }
        n += 1;
    }
    n
}

/// Whether two names are the same.
fn are_same(a: &[u8], b: &[u8]) -> bool
    ensures same { IsTrue result → a.now ≡ b.now }
    ensures other { a.now ≡ b.now → IsTrue result }
{
    a == b
}

/// Whether two names go on alike behind so many bytes of each.
fn go_on_alike(a: &[u8], i: usize, b: &[u8], j: usize) -> bool
    ensures { IsTrue result → drop i a.now ≡ drop j b.now }
{
    let Some((_, x)) = a.split_at_checked(i) else {
        return false;
    };
    let Some((_, y)) = b.split_at_checked(j) else {
        return false;
    };
    are_same(x, y)
}

/// Whether two names begin with the same two bytes, in the other order, and go on alike.
fn are_exchanged(a: &[u8], b: &[u8]) -> bool
    ensures { IsTrue result → AreExchanged a.now b.now }
{
    if a.len() < 2 || b.len() < 2 {
        return false;
    }
    if a[0] != b[1] || a[1] != b[0] {
        return false;
    }
    go_on_alike(a, 2, b, 2)
}

/// Whether one edit makes a name of another one.
pub fn is_one_edit(a: &[u8], b: &[u8]) -> bool
    ensures { IsTrue result → IsOneEdit a.now b.now }
{
    if are_same(a, b) {
        return false;
    }
    let n = common_len(a, b);
    let (_front, x) = a.split_at(n);
    let (_same, y) = b.split_at(n);
    if go_on_alike(x, 1, y, 1) {
        return true;
    }
    if go_on_alike(x, 0, y, 1) {
        return true;
    }
    if go_on_alike(x, 1, y, 0) {
        return true;
    }
    are_exchanged(x, y)
}

//! Whether an address is as aligned as an offset in a section.
ghost use Rattle.std.specs.Prelude.{◌<◌, ◌↔◌, IsTrue};
ghost use Rattle.std.specs.Int.{IsGcd};
ghost use Rattle.judge_model.specs.Merged.{IsAlignedLike};

/// The greatest common divisor, by Euclid's algorithm.
fn gcd(a: u64, b: u64) -> u64
    ensures { IsGcd a b result }
{
    let mut x = a;
    let mut y = b;
    'steps: while y != 0 {
        let rest = x % y;
        x = y;
        y = rest;
    }
    x
}

/// Whether what divides a section's alignment and an offset there divides an address.
pub fn is_aligned_like(align: u64, offset: u64, address: u64) -> bool
    requires { 0 < align }
    ensures { IsTrue result ↔ IsAlignedLike align offset address }
{
    address % gcd(align, offset) == 0
}

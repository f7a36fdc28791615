//! Numbers written into a record's bytes, least significant byte first, field by field from the
//! record's beginning on.
ghost use Rattle.std.specs.Prelude.{◌≡◌, ◌+◌, ◌<◌, ◌≤◌, ◌^◌, ◌++◌, take, length};
ghost use Rattle.std.specs.Int.{w64, cast_unsigned};
ghost use Rattle.std.specs.Int.RustNames.{FitsSigned};
ghost use Rattle.byteview.specs.Numbers.{le_bytes};

pub fn put_bytes(out: &mut [u8], at: usize, bytes: &[u8])
    requires { at + length bytes.now ≤ length out.old }
    ensures { take (at + length bytes.now) out.new ≡ take at out.old ++ bytes.now }
{
    out[at..at + bytes.len()].copy_from_slice(bytes);
}

pub fn put_u8(out: &mut [u8], at: usize, n: u8)
    requires { at + 1 ≤ length out.old }
    ensures front { take (at + 1) out.new ≡ take at out.old ++ le_bytes 1 n }
    ensures fits { n < 2 ^ 8 }
{
    put_bytes(out, at, &n.to_le_bytes());
}

pub fn put_u16(out: &mut [u8], at: usize, n: u16)
    requires { at + 2 ≤ length out.old }
    ensures front { take (at + 2) out.new ≡ take at out.old ++ le_bytes 2 n }
    ensures fits { n < 2 ^ 16 }
{
    put_bytes(out, at, &n.to_le_bytes());
}

pub fn put_u32(out: &mut [u8], at: usize, n: u32)
    requires { at + 4 ≤ length out.old }
    ensures front { take (at + 4) out.new ≡ take at out.old ++ le_bytes 4 n }
    ensures fits { n < 2 ^ 32 }
{
    put_bytes(out, at, &n.to_le_bytes());
}

pub fn put_u64(out: &mut [u8], at: usize, n: u64)
    requires { at + 8 ≤ length out.old }
    ensures front { take (at + 8) out.new ≡ take at out.old ++ le_bytes 8 n }
    ensures fits { n < 2 ^ 64 }
{
    put_bytes(out, at, &n.to_le_bytes());
}

pub fn put_i64(out: &mut [u8], at: usize, n: i64)
    requires { at + 8 ≤ length out.old }
    ensures front { take (at + 8) out.new ≡ take at out.old ++ le_bytes 8 (cast_unsigned w64 n) }
    ensures fits { FitsSigned w64 n }
{
    put_u64(out, at, n.cast_unsigned());
}

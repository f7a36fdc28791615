//! Numbers and texts of a line table, read one behind the other; nothing past the end of the bytes is read.
ghost use Rattle.std.specs.Prelude.{◌≡◌, ◌↔◌, ◌+◌, ◌<◌, ◌≤◌, IsTrue, OnSome, length};

use byteview::View;

/// How many bytes a LEB128 number of 64 bits has at most.
const MOST: u32 = 10;

/// Bytes of a line table, and where the next one that is read is.
#[derive(Clone, Copy)]
pub struct Cursor<'a> {
    pub bytes: &'a [u8],
    pub at: usize,
}

impl<'a> Cursor<'a> {
    /// Whether something is left to read.
    pub fn has_more(&self) -> bool
        ensures { IsTrue result ↔ self.now.at < length self.now.bytes.now }
    {
        self.at < self.bytes.len()
    }

    /// Passes over bytes.
    pub fn skip(&mut self, count: u64) -> Option<()>
        ensures same { OnSome result (self.new.bytes ≡ self.old.bytes) }
        ensures moves { OnSome result (self.new.at ≡ self.old.at + count) }
        ensures inside { OnSome result (self.new.at ≤ length self.new.bytes.now) }
    {
        let next = self.at.checked_add(count as usize)?;
        if next > self.bytes.len() {
            return None;
        }
        self.at = next;
        Some(())
    }

    /// A number of one byte.
    pub fn u8(&mut self) -> Option<u8>
        ensures same { OnSome result (self.new.bytes ≡ self.old.bytes) }
        ensures moves { OnSome result (self.old.at < self.new.at) }
    {
        let byte = *self.bytes.get(self.at)?;
        self.at += 1;
        Some(byte)
    }

    /// A number of two bytes.
    pub fn u16(&mut self) -> Option<u16>
        ensures same { OnSome result (self.new.bytes ≡ self.old.bytes) }
        ensures moves { OnSome result (self.old.at < self.new.at) }
    {
        let number = View::new(self.bytes).u16le(self.at)?;
        self.skip(2)?;
        Some(number)
    }

    /// A number of four bytes.
    pub fn u32(&mut self) -> Option<u32>
        ensures same { OnSome result (self.new.bytes ≡ self.old.bytes) }
        ensures moves { OnSome result (self.old.at < self.new.at) }
    {
        let number = View::new(self.bytes).u32le(self.at)?;
        self.skip(4)?;
        Some(number)
    }

    /// A number of eight bytes.
    pub fn u64(&mut self) -> Option<u64>
        ensures same { OnSome result (self.new.bytes ≡ self.old.bytes) }
        ensures moves { OnSome result (self.old.at < self.new.at) }
    {
        let number = View::new(self.bytes).u64le(self.at)?;
        self.skip(8)?;
        Some(number)
    }

    /// A length or an offset, of eight bytes in a unit of 64 bits and of four in another one (DWARF 5, 7.4).
    pub fn offset(&mut self, is_wide: bool) -> Option<u64>
        ensures same { OnSome result (self.new.bytes ≡ self.old.bytes) }
        ensures moves { OnSome result (self.old.at < self.new.at) }
    {
        if is_wide {
            return self.u64();
        }
        Some(u64::from(self.u32()?))
    }

    /// How many bytes a text has that a NUL ends; it is passed over with the NUL.
    pub fn text(&mut self) -> Option<usize>
        ensures same { OnSome result (self.new.bytes ≡ self.old.bytes) }
        ensures moves { OnSome result (self.old.at < self.new.at) }
        ensures inside { OnSome result (self.new.at ≤ length self.new.bytes.now) }
    {
        let len = View::new(self.bytes).text_at(self.at)?.len();
        self.skip(len as u64)?;
        self.skip(1)?;
        Some(len)
    }

    /// An unsigned LEB128 number below 2^64, of at most ten bytes (DWARF 5, 7.6).
    pub fn uleb(&mut self) -> Option<u64>
        ensures same { OnSome result (self.new.bytes ≡ self.old.bytes) }
        ensures moves { OnSome result (self.old.at < self.new.at) }
    {
        let mut value: u64 = 0;
        for place in 0..MOST {
            let byte = self.u8()?;
            let bits = u64::from(byte & 0x7f);
            let shifted = bits << (7 * place);
            if shifted >> (7 * place) != bits {
                return None;
            }
            value |= shifted;
            if byte < 0x80 {
                return Some(value);
            }
        }
        None
    }

    /// A signed LEB128 number of at most ten bytes, of which 64 bits count.
    pub fn sleb(&mut self) -> Option<i64>
        ensures same { OnSome result (self.new.bytes ≡ self.old.bytes) }
        ensures moves { OnSome result (self.old.at < self.new.at) }
    {
        let mut value: u64 = 0;
        for place in 0..MOST {
            let byte = self.u8()?;
            value |= u64::from(byte & 0x7f) << (7 * place);
            if byte < 0x80 {
                if byte >= 0x40 && place + 1 < MOST {
                    value |= u64::MAX << (7 * place + 7);
                }
                return Some(value.cast_signed());
            }
        }
        None
    }
}

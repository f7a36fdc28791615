//! Files whose bytes are read from a place on, and archives of which only some bytes are read so.
ghost use Rattle.std.specs.Prelude.{◌≡◌, ◌<◌, ◌≤◌, ◌+◌, ◌%◌, ◌^◌, ℕ, List, Option, None, Some, true, IfOk, IfSome, IsTrue, codes, is_some, length, string_bytes};
ghost use Rattle.ar_index.specs.Parts.{AreReadOf, Part, is_table, part_data, part_size};
ghost use Rattle.file_io.specs.Placed.{AreTold, AreToldPassed, IsToldAt, IsToldMember};

use ar_index::{PartFile, PartMember};
use byteview::equal_run;
use std::alloc::Global;
use std::io;
use std::io::{Read, Seek, SeekFrom};

/// Something that has a file's bytes, and may tell them: one over memory does, one over a file of the system doesn't.
pub trait PlacedBytes {
    // The bytes, where it tells them.
    ghost told: { Self → Option (List ℕ) };

    /// So many bytes from a place on.
    ///
    /// # Errors
    ///
    /// As the system answers, also where there are less; `OutOfMemory` where memory is refused.
    fn read_at(&mut self, alloc: Global, at: u64, count: usize) -> io::Result<Vec<u8>>
        ensures told { IfOk result (λ v. IsToldAt (told self.old) at count v.items) }
        ensures count { IfOk result (λ v. length v.items ≡ count) }
        ensures same { told self.new ≡ told self.old };
}

/// A file of the system. It doesn't tell its bytes.
#[derive(Drop)]
pub struct PlacedFile<F: Read + Seek + Drop> {
    file: F,
}

impl<F: Read + Seek + Drop> PlacedFile<F> {
    /// An open file.
    pub fn new(file: F) -> PlacedFile<F> {
        PlacedFile { file }
    }

    /// The file, from its beginning on.
    ///
    /// # Errors
    ///
    /// As the system answers.
    pub fn into_file(self) -> io::Result<F> {
        let PlacedFile { file } = self;
        let mut file = file;
        file.seek(SeekFrom::Start(0))?;
        Ok(file)
    }
}

impl<F: Read + Seek + Drop> PlacedBytes for PlacedFile<F> {
    ghost told = { λ _. None };

    fn read_at(&mut self, alloc: Global, at: u64, count: usize) -> io::Result<Vec<u8>> {
        let mut bytes = vec![in alloc; 0u8; count]?;
        self.file.seek(SeekFrom::Start(at))?;
        self.file.read_exact(&mut bytes)?;
        Ok(bytes)
    }
}

/// How many bytes a member's header has (ar(5), struct ar_hdr).
const HEADER_SIZE: usize = 60;

/// Whether a line feed makes the number of a member's bytes even, where its data end at a place.
fn has_pad<P: PlacedBytes>(alloc: Global, bytes: &mut P, end: usize, len: usize) -> io::Result<bool>
    ensures inside { IfOk result (λ b. IsTrue b → end < len) }
    ensures told { IfOk result (λ b. IsTrue b → IsToldAt (P.told bytes.old) end 1 (codes "\n")) }
    ensures same { P.told bytes.new ≡ P.told bytes.old }
{
    if end >= len {
        return Ok(false);
    }
    let pad = bytes.read_at(alloc, end as u64, 1)?;
    Ok(pad.as_slice() == b"\n".as_slice())
}

/// Whether a line feed makes the number of a member's bytes even, where it is odd.
fn is_padded<P: PlacedBytes>(
    alloc: Global,
    bytes: &mut P,
    end: usize,
    size: usize,
    len: usize,
) -> io::Result<bool>
    requires { end ≤ len }
    ensures inside { IfOk result (λ b. IsTrue b → end + size % 2 ≤ len) }
    ensures told { IfOk result (λ b. IsTrue b → size % 2 ≡ 1
        → IsToldAt (P.told bytes.old) end 1 (codes "\n")) }
    ensures same { P.told bytes.new ≡ P.told bytes.old }
{
    if size % 2 == 0 {
        return Ok(true);
    }
    has_pad(alloc, bytes, end, len)
}

/// A member whose data weren't read: with them where it is the index or the long names.
fn with_table<P: PlacedBytes>(
    alloc: Global,
    bytes: &mut P,
    member: PartMember,
    begin: usize,
) -> io::Result<PartMember>
    requires { member.content ≡ None }
    ensures header { IfOk result (λ m. m.header ≡ member.header) }
    ensures told { IfOk result (λ m. is_some m.content ≡ true
        → IsToldAt (P.told bytes.old) begin (part_size m) (part_data m)) }
    ensures table { IfOk result (λ m. is_table m ≡ true → is_some m.content ≡ true) }
    ensures same { P.told bytes.new ≡ P.told bytes.old }
{
    if !member.is_table() {
        return Ok(member);
    }
    let mut member = member;
    let content = bytes.read_at(alloc, begin as u64, member.size())?;
    member.fill(content);
    Ok(member)
}

/// A member, and where the next one begins.
type Walked = (PartMember, usize);

/// Reads the header of a member, and its data where it is the index or the long names; None where the file is no archive here.
fn read_member<P: PlacedBytes>(
    alloc: Global,
    bytes: &mut P,
    at: usize,
    len: usize,
) -> io::Result<Option<Walked>>
    requires { at < len }
    ensures next { IfOk result (λ o. IfSome o (λ w. (at < w.1) × (w.1 ≤ len))) }
    ensures told { IfOk result (λ o. IfSome o (λ w. IsToldMember (P.told bytes.old) len w.0 at w.1)) }
    ensures same { P.told bytes.new ≡ P.told bytes.old }
{
    if len - at < HEADER_SIZE {
        return Ok(None);
    }
    let header = bytes.read_at(alloc, at as u64, HEADER_SIZE)?;
    let Some(member) = PartMember::unread(header) else {
        return Ok(None);
    };
    let begin = at + HEADER_SIZE;
    let size = member.size();
    if size > len - begin {
        return Ok(None);
    }
    if !is_padded(alloc, bytes, begin + size, size, len)? {
        return Ok(None);
    }
    let whole = with_table(alloc, bytes, member, begin)?;
    whole.show();
    Ok(Some((whole, begin + size + size % 2)))
}

/// Reads what a link looks at of an archive before it takes members: the magic, the headers, the index and the long names. None
/// where the file is no archive, as far as these tell.
///
/// # Errors
///
/// As the system answers; `OutOfMemory` where memory is refused.
pub fn read_parts<P: PlacedBytes>(
    alloc: Global,
    bytes: &mut P,
    name: String,
    len: usize,
) -> io::Result<Option<PartFile>>
    ensures told { IfOk result (λ o. IfSome o (λ f. AreTold (P.told bytes.old) len f.members)) }
    ensures name { IfOk result (λ o. IfSome o (λ f. f.name ≡ string_bytes name)) }
    ensures same { P.told bytes.new ≡ P.told bytes.old }
{
    let magic = bytes.read_at(alloc, 0, 8)?;
    if !equal_run(&magic, b"!<arch>\n") {
        return Ok(None);
    }
    let mut file = PartFile::new(alloc, name);
    let mut at = 8;
    while at < len {
        let Some((member, next)) = read_member(alloc, bytes, at, len)? else {
            return Ok(None);
        };
        file.add(member)?;
        at = next;
    }
    Ok(Some(file))
}

/// Where the header is due behind that of a member at a place with data of a size.
fn place_behind(at: u64, size: usize) -> u64
    ensures { (n : ℕ) → n ≡ at + 60 + size + size % 2 → n < 2 ^ 64 → result ≡ n }
{
    at.saturating_add(HEADER_SIZE as u64)
        .saturating_add(size as u64)
        .saturating_add(size as u64 % 2)
}

/// Reads the data of a member whose header is at a place, where that is among some and they weren't read; whether it did.
fn read_content<P: PlacedBytes>(
    alloc: Global,
    bytes: &mut P,
    file: &mut PartFile,
    i: usize,
    at: u64,
    offsets: &[u64],
) -> io::Result<bool>
    requires { i < length file.old.members }
    ensures passed { (first : List Part) → AreToldPassed (P.told bytes.old) first file.old.members i at
        → AreToldPassed (P.told bytes.old) first file.new.members i at }
    ensures count { length file.new.members ≡ length file.old.members }
    ensures name { file.new.name ≡ file.old.name }
    ensures same { P.told bytes.new ≡ P.told bytes.old }
{
    let member = &file.members()[i];
    if member.is_read() || offsets.binary_search(&at).is_err() {
        return Ok(false);
    }
    let size = member.size();
    let content = bytes.read_at(alloc, at.saturating_add(HEADER_SIZE as u64), size)?;
    file.fill(i, content);
    Ok(true)
}

/// Reads the data of the members whose headers are at some offsets, which ascend, where they weren't read; whether any was.
///
/// # Errors
///
/// As the system answers; `OutOfMemory` where memory is refused.
pub fn read_members<P: PlacedBytes>(
    alloc: Global,
    bytes: &mut P,
    file: &mut PartFile,
    offsets: &[u64],
) -> io::Result<bool>
    ensures told { (content : List ℕ) → P.told bytes.old ≡ Some content → length content < 2 ^ 64
        → AreReadOf file.old.members content → AreReadOf file.new.members content }
    ensures name { file.new.name ≡ file.old.name }
    ensures same { P.told bytes.new ≡ P.told bytes.old }
{
    let mut any = false;
    let mut at: u64 = 8;
    for i in 0..file.members().len() {
        any |= read_content(alloc, bytes, file, i, at, offsets)?;
        at = place_behind(at, file.members()[i].size());
    }
    Ok(any)
}

//! The walk from header to header, up to one that has a fault (ar(5)).
ghost use Rattle.std.specs.Prelude.{◌≡◌, ◌≤◌, ◌<◌, ◌+◌, ◌%◌, ◌^◌, length, true, IfErr, IfOk, IfSome, IsTrue};
ghost use Rattle.ar_index.specs.Reading.{IsFaultAt, IsPadFault, IsPadded};
ghost use Rattle.elf_model.specs.Inputs.ArchiveFile.{is_readable, next_header, size_at};
ghost use Rattle.bad_members.specs.BadMembers.{IsBadMember};

use crate::fields::number_in;
use crate::names::is_misnamed;
use byteview::{View, equal_run};
use elf_model::ArFault;

/// How many bytes a member's header has (ar(5), struct ar_hdr).
const HEADER_SIZE: usize = 60;

/// The number of bytes of the member whose header begins at an offset, by its header.
fn read_size(file: &View<'_>, at: usize) -> Result<usize, ArFault>
    requires { at ≤ length file.now }
    ensures size { IfOk result (λ n. n ≡ size_at file.now at) }
    ensures inside { IfOk result (λ _. at + 60 ≤ length file.now) }
    ensures readable { IfOk result (λ _. is_readable file.now at ≡ true) }
    ensures small { IfOk result (λ n. n < 10 ^ 16) }
    ensures fault { IfErr result (IsFaultAt file.now at) }
{
    if file.len() - at < HEADER_SIZE {
        return Err(ArFault::Truncated);
    }
    if !equal_run(file.part(at + 58, 2), b"`\n") {
        return Err(ArFault::BadHeader);
    }
    let Some(size) = number_in(file.part(at + 48, 10)) else {
        return Err(ArFault::BadHeader);
    };
    Ok(size as usize)
}

/// Judges the byte that makes the number of a member's bytes even: a line feed after an odd number.
fn judge_pad(file: &View<'_>, end: usize, size: usize) -> Result<(), ArFault>
    requires { end ≤ length file.now }
    ensures good { IfOk result (λ _. IsPadded file.now end size) }
    ensures fault { IfErr result (IsPadFault file.now end size) }
{
    if size % 2 == 0 {
        return Ok(());
    }
    if end == file.len() {
        return Err(ArFault::Truncated);
    }
    if file.bytes()[end] != b'\n' {
        return Err(ArFault::BadHeader);
    }
    Ok(())
}

/// Where the header behind the member whose header is at an offset is due, or what is wrong with this one.
fn next_after(file: &View<'_>, at: usize) -> Result<usize, ArFault>
    requires { at ≤ length file.now }
    ensures next { IfOk result (λ n. n ≡ next_header file.now at) }
    ensures readable { IfOk result (λ _. is_readable file.now at ≡ true) }
    ensures inside { IfOk result (λ n. n ≤ length file.now) }
    ensures further { IfOk result (λ n. at + 60 ≤ n) }
    ensures fault { IfErr result (IsFaultAt file.now at) }
{
    let len = file.len();
    let size = read_size(file, at)?;
    let begin = at + HEADER_SIZE;
    if size > len - begin {
        return Err(ArFault::Truncated);
    }
    judge_pad(file, begin + size, size)?;
    Ok(begin + size + size % 2)
}

/// Whether a fault is a certain one.
fn is_fault(found: ArFault, fault: ArFault) -> bool
    ensures { IsTrue result → found ≡ fault }
{
    found == fault
}

/// The offset of the header of the first member that can't be read, doesn't lie in a file, or is misnamed (it is an index and not
/// the first, or has no name), where that is a fault. None where it has another one, or there is none.
pub fn bad_member(bytes: &[u8], fault: ArFault) -> Option<u64>
    ensures { IfSome result (IsBadMember bytes.now fault) }
{
    let file = View::new(bytes);
    let mut at = 8;
    while at < file.len() {
        match next_after(&file, at) {
            Ok(next) => {
                if is_misnamed(&file, at, fault) {
                    return Some(at as u64);
                }
                at = next;
            }
            Err(found) if is_fault(found, fault) => return Some(at as u64),
            Err(_) => return None,
        }
    }
    None
}

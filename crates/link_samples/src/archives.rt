//! Makes archives (ar(5)): members in, the bytes of a file out.
use crate::links::Member;
use crate::objects::relocatable;
use std::alloc::Global;
use std::test::Fail;

/// Puts the header of a member: its name, padded with spaces, and the size of its data, which is below 10,000.
fn put_header(bytes: &mut Vec<u8>, name: &[u8; 16], size: usize) -> Result<(), Fail> {
    bytes.extend_from_slice(name)?;
    bytes.extend_from_slice(b"0           0     0     644     ")?;
    for unit in [1000, 100, 10, 1] {
        bytes.push(b'0'.wrapping_add(u8::try_from(size / unit % 10)?))?;
    }
    bytes.extend_from_slice(b"      `\n")?;
    Ok(())
}

/// Puts a member and its pad byte.
fn put_member(bytes: &mut Vec<u8>, name: &[u8; 16], data: &[u8]) -> Result<(), Fail> {
    put_header(bytes, name, data.len())?;
    bytes.extend_from_slice(data)?;
    if data.len() % 2 == 1 {
        bytes.push(b'\n')?;
    }
    Ok(())
}

/// The members with their headers and pad bytes, and where each begins.
fn put_members(alloc: Global, members: &[Member], offsets: &mut Vec<u32>) -> Result<Vec<u8>, Fail> {
    let mut bytes = Vec::new(alloc);
    for member in members {
        offsets.push(u32::try_from(bytes.len())?)?;
        let object = relocatable(alloc, member.sections, member.symbols, member.relocations)?;
        put_member(&mut bytes, b"m.o/            ", &object)?;
    }
    Ok(bytes)
}

/// The data of an index (ar(5)) that lists names with their NULs and the numbers of
/// their members, which begin at offsets behind the index.
fn index_data(alloc: Global, entries: &[(&[u8], usize)], offsets: &[u32]) -> Result<Vec<u8>, Fail> {
    let mut names: Vec<u8> = Vec::new(alloc);
    for (name, _) in entries {
        names.extend_from_slice(name)?;
    }
    let size = u32::try_from(entries.len())?
        .saturating_mul(4)
        .saturating_add(u32::try_from(names.len())?)
        .saturating_add(4);
    let front = size.saturating_add(size % 2).saturating_add(68);
    let mut data = Vec::from_slice(alloc, &u32::try_from(entries.len())?.to_be_bytes())?;
    for (_, member) in entries {
        let offset = offsets.get(*member).ok_or("a member")?;
        data.extend_from_slice(&front.saturating_add(*offset).to_be_bytes())?;
    }
    data.extend_from_slice(&names)?;
    Ok(data)
}

/// An archive of members, with an index of these entries where there are any.
pub fn archive(
    alloc: Global,
    entries: &[(&[u8], usize)],
    members: &[Member],
) -> Result<Vec<u8>, Fail> {
    let mut offsets: Vec<u32> = Vec::new(alloc);
    let parts = put_members(alloc, members, &mut offsets)?;
    let mut bytes = Vec::from_slice(alloc, b"!<arch>\n")?;
    if !entries.is_empty() {
        let index = index_data(alloc, entries, &offsets)?;
        put_member(&mut bytes, b"/               ", &index)?;
    }
    bytes.extend_from_slice(&parts)?;
    Ok(bytes)
}

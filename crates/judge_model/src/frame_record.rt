//! A record of call frames, and its row in a table of these.

/// A record of call frames (LSB Core 10.6): where it begins in its list, its size in bytes with the length in front, and the number
/// behind that, which is 0 in a common part (CIE), and else how many bytes before this number the record's common part begins.
#[derive(Clone, Copy, Debug)]
pub struct FrameRecord {
    pub offset: u64,
    pub size: u64,
    pub id: u64,
}

/// A row of a table of call frames (LSB Core 10.6.2): the address of a function, and that of its record in the list.
#[derive(Clone, Copy, Debug)]
pub struct FrameRow {
    pub function: u64,
    pub place: u64,
}

//! The certificate of a link: where its parts are in the image, line by line.
use elf_model::{CommonLine, DropLine, ObjectLine, PlaceLine};

/// A stretch of memory that the linker itself filled: a note, an area of merged strings and constants or of call frames, or the list
/// of these. Its address and size are in bytes.
#[derive(Clone, Copy, Debug)]
pub struct StretchLine {
    pub address: u64,
    pub size: u64,
}

/// Where the image has a part of a section that linkers edit, a string or a constant that was merged or a record of call frames: the
/// section, the offset there, the size in bytes, and the address.
#[derive(Clone, Copy, Debug)]
pub struct MergedLine {
    pub object: u64,
    pub section: u64,
    pub offset: u64,
    pub size: u64,
    pub address: u64,
}

/// The value of a name that the linker or its script defines.
#[derive(Debug, Drop)]
pub struct NameLine {
    pub value: u64,
    pub name: Vec<u8>,
}

/// Where the parts of a link are: its objects in loading order, the sections that are left out, the addresses of sections
/// and common blocks, the linker's notes, the areas of merged strings and constants and of call frames, where each string and
/// constant is, the list of call frames and where each record of these is, the values of the names that the linker or its script
/// defines, and the address of the global offset table, where code asks for it. Lines of sections come by object and section, those
/// of strings, constants and records then by offset, those of common blocks and names by name, those of notes and areas by address.
#[derive(Debug, Drop)]
pub struct Certificate {
    pub objects: Vec<ObjectLine>,
    pub drops: Vec<DropLine>,
    pub places: Vec<PlaceLine>,
    pub commons: Vec<CommonLine>,
    pub notes: Vec<StretchLine>,
    pub areas: Vec<StretchLine>,
    pub merged: Vec<MergedLine>,
    pub list: Option<StretchLine>,
    pub frames: Vec<MergedLine>,
    pub names: Vec<NameLine>,
    pub got: Option<u64>,
}

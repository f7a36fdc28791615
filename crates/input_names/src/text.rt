//! Names as they are printed, and objects by the path of their file and the name of their member.

use crate::member_names::member_name;
use elf_model::InputFile;
use std::fmt;

/// A name, which reads as a map spells it: bytes from 0x21 to 0x7e but `\` as they are, every other one as `\x` and two
/// hexadecimal digits.
#[derive(Clone, Copy)]
pub struct Name<'a>(pub &'a [u8]);

impl fmt::Display for Name<'_> {
    fn fmt<W: fmt::Write>(&self, f: &mut fmt::Formatter<W>) -> fmt::Result {
        for byte in self.0 {
            if (0x21..=0x7e).contains(byte) && *byte != b'\\' {
                write!(f, "{}", char::from(*byte))?;
            } else {
                write!(f, "\\x{byte:02x}")?;
            }
        }
        Ok(())
    }
}

/// A space, what a name is of, and the name; nothing where there is none, or it is empty.
#[derive(Clone, Copy)]
pub struct Called<'w, 'a>(pub &'w str, pub Option<&'a [u8]>);

impl fmt::Display for Called<'_, '_> {
    fn fmt<W: fmt::Write>(&self, f: &mut fmt::Formatter<W>) -> fmt::Result {
        match self.1 {
            Some(name) if !name.is_empty() => write!(f, " {}{}", self.0, Name(name)),
            _ => Ok(()),
        }
    }
}

/// An object of files, which reads as the path of its file and the member that it is, by the offset of the member's header; 0
/// for a file that is an object.
#[derive(Clone, Copy)]
pub struct ObjectName<'i> {
    files: &'i [InputFile],
    path: &'i str,
    offset: u64,
}

impl<'i> ObjectName<'i> {
    /// The object of files that the path and the offset name.
    pub fn new(files: &'i [InputFile], path: &'i str, offset: u64) -> ObjectName<'i> {
        ObjectName {
            files,
            path,
            offset,
        }
    }
}

impl fmt::Display for ObjectName<'_> {
    fn fmt<W: fmt::Write>(&self, f: &mut fmt::Formatter<W>) -> fmt::Result {
        let offset = self.offset;
        write!(f, "{}", Name(self.path.as_bytes()))?;
        if offset == 0 {
            return Ok(());
        }
        let mut files = self.files.iter();
        let Some(file) = files.find(|file| file.name.as_str() == self.path) else {
            return write!(f, "(at {offset:#x})");
        };
        let name = Name(member_name(file.bytes.as_slice(), offset).unwrap_or(&[]));
        write!(f, "({name} at {offset:#x})")
    }
}

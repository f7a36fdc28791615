//! How a hint reads, behind the place that asks for its name.

use crate::hints::Hint;
use crate::text::Inputs;
use input_names::{Name, ObjectName};
use like_names::Likeness;
use std::io;
use std::io::Write;

/// What the name of a table of virtual functions begins with (Itanium C++ ABI 5.1.4.1).
const VIRTUAL_TABLE: &[u8] = b"_ZTV";

/// Writes what a name that nothing defines is by itself, where it is a table of virtual functions, and which definition has a name
/// that is like it, where one is told.
pub fn write_hint<W: Write>(
    out: &mut W,
    inputs: Inputs<'_>,
    hints: &[Hint<'_>],
    name: &[u8],
) -> io::Result<()> {
    if name.starts_with(VIRTUAL_TABLE) {
        out.write_all(
            b"; a table of virtual functions is made where the first one of its class that isn't inline is defined",
        )?;
    }
    let mut hints = hints.iter();
    let Some(hint) = hints.find(|hint| hint.wanted == name) else {
        return Ok(());
    };
    let object = ObjectName::new(inputs.files, hint.object.path, hint.object.offset);
    let (wanted, defined) = (Name(name), Name(hint.symbol.name));
    match hint.likeness {
        Likeness::OneEdit => write!(out, "; did you mean {defined} (in {object})?"),
        Likeness::OfCpp => write!(
            out,
            "; {object} defines {defined}, the function {wanted} of C++: declare it extern \"C\" there"
        ),
        Likeness::OfC => write!(
            out,
            "; {object} defines {defined}: declare it extern \"C\" where it is called"
        ),
    }
}

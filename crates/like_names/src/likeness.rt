//! How a name that nothing defines is like a defined one.
ghost use Rattle.std.specs.Prelude.{IfSome};
ghost use Rattle.like_names.specs.Names.{IsLike};

use crate::mangling::is_function_of;
use crate::one_edit::is_one_edit;

/// Names of fewer bytes have too many others that one edit makes of them.
const SHORT: usize = 3;

/// How a wanted name is like a defined one.
#[derive(Clone, Copy, Debug, PartialEq, Eq)]
pub enum Likeness {
    /// The defined name is that of the function of C++ which has the wanted name in its source.
    OfCpp,
    /// The wanted name is that of the function of C++ which has the defined name in its source.
    OfC,
    /// One edit makes one of the other.
    OneEdit,
}

/// How a wanted name is like a defined one, where it is. Of short names one edit counts as nothing.
pub fn liken(wanted: &[u8], defined: &[u8]) -> Option<Likeness>
    ensures { IfSome result (IsLike wanted.now defined.now) }
{
    if is_function_of(wanted, defined) {
        return Some(Likeness::OfCpp);
    }
    if is_function_of(defined, wanted) {
        return Some(Likeness::OfC);
    }
    if wanted.len() >= SHORT && is_one_edit(wanted, defined) {
        return Some(Likeness::OneEdit);
    }
    None
}

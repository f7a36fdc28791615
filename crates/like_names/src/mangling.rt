//! Names of functions of C++ in no namespace (Itanium C++ ABI 5.1.3, "source-name").
ghost use Rattle.std.specs.Prelude.{◌≡◌, ◌++◌, IfSome, IsTrue};
ghost use Rattle.like_names.specs.Names.{IsFunctionOf};

use itoa::Buffer;
use std::str;

/// What stands behind a text at the beginning of a name.
fn behind<'a>(name: &'a [u8], text: &[u8]) -> Option<&'a [u8]>
    ensures { IfSome result (λ rest. name.entry.now ≡ text.now ++ rest.now) }
{
    name.strip_prefix(text)
}

/// A number has no more decimal digits.
const DIGITS: usize = 20;

/// How many bytes a name has by the decimal digits that it begins with.
fn spelled_len(name: &[u8]) -> Option<usize> {
    let first = name.get(..DIGITS.min(name.len()))?;
    let digits = first.iter().take_while(|b| b.is_ascii_digit()).count();
    str::from_utf8(first.get(..digits)?).ok()?.parse().ok()
}

/// The name of a function of C++ in no namespace, as its source has it, by its name for linkers: what stands behind `_Z` and the
/// number of its bytes.
fn function_of(mangled: &[u8]) -> Option<&[u8]>
    ensures { IfSome result (λ name. IsFunctionOf name.now mangled.now) }
{
    let rest = behind(mangled, b"_Z")?;
    let len = spelled_len(rest)?;
    let mut buffer = Buffer::new();
    let names = behind(rest, buffer.format(len).as_bytes())?;
    let (name, _parameters) = names.split_at_checked(len)?;
    Some(name)
}

/// Whether a name for linkers is that of the function of C++ in no namespace that has a name in its source.
pub fn is_function_of(name: &[u8], mangled: &[u8]) -> bool
    ensures { IsTrue result → IsFunctionOf name.now mangled.now }
{
    match function_of(mangled) {
        Some(source) => source == name,
        None => false,
    }
}

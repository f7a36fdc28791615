//! The fields of an object's relocations, put in order.
ghost use Rattle.std.specs.Prelude.{◌≡◌, ◌↔◌, All, AllPairs, IfOk, IfSome, IsPermutation, IsSome as IsThere, IsTrue};
ghost use Rattle.check_relocs.specs.Fields.{AreApart, IsBefore, IsNarrow, IsOrdered, IsRow, Rise};

use std::alloc::AllocError;

/// The field of a relocation: its section's number, its first byte, counted from the section's beginning, its
/// width in bytes and the value that it wants.
#[derive(Clone, Copy, Debug)]
pub struct Field {
    pub at: u64,
    pub value: u64,
    pub section: u32,
    pub width: u8,
}

/// Whether a field ends before another begins, or lies in an earlier section.
fn is_before(f: &Field, g: &Field) -> bool
    ensures { IsTrue result ↔ IsBefore f.now g.now }
{
    if f.section != g.section {
        return f.section < g.section;
    }
    f.at <= g.at && f.width as u64 <= g.at - f.at
}

/// Whether each field ends before the next one begins.
fn rise(fields: &[Field]) -> bool
    ensures { IsTrue result ↔ Rise fields.now }
{
    fields.windows(2).all(|w| is_before(&w[0], &w[1]))
}

/// The fields in the order of their sections and of their beginnings.
fn sorted(mut fields: Vec<Field>) -> Result<Vec<Field>, AllocError>
    ensures same { IfOk result (λ v. IsPermutation fields.items v.items) }
    ensures ordered { IfOk result (λ v. IsOrdered v.items) }
{
    fields.sort_by_key(|f| (f.section, f.at))?;
    Ok(fields)
}

/// Fields in order; None where a byte lies in two of them. They mostly stand in order already.
pub fn in_order(fields: Vec<Field>) -> Result<Option<Vec<Field>>, AllocError>
    requires { All IsNarrow fields.items }
    ensures apart { IfOk result (λ o. IsThere o ↔ AllPairs AreApart fields.items) }
    ensures row { IfOk result (λ o. IfSome o (λ v. IsRow fields.items v.items)) }
{
    if rise(&fields) {
        return Ok(Some(fields));
    }
    let fields = sorted(fields)?;
    if !rise(&fields) {
        return Ok(None);
    }
    Ok(Some(fields))
}

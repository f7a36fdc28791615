//! The fields of an object's relocations, and whether no byte lies in two of them.
ghost use Rattle.std.specs.Prelude.{◌≡◌, ◌↔◌, All, AllPairs, IfOk, IsPermutation, IsTrue, OnOk};
ghost use Rattle.relocate.specs.Fields.{AreApart, IsBefore, IsOrdered, IsSome, Rise, is_before};

use std::alloc::AllocError;

/// A relocation's field: the bytes of a section from number `start` to before number `end`.
#[derive(Clone, Copy, Debug)]
pub struct Field {
    pub section: u64,
    pub start: u64,
    pub end: u64,
}

/// Whether no byte lies in two of an object's fields, none of which is empty. Fields mostly stand in
/// order already; only where they don't are they sorted, for which memory may be refused.
pub fn are_apart(fields: &mut Vec<Field>) -> Result<bool, AllocError>
    requires { All IsSome fields.old.items }
    ensures { IfOk result (λ b. IsTrue b ↔ AllPairs AreApart fields.old.items) }
{
    if rise(fields) {
        return Ok(true);
    }
    put_in_order(fields)?;
    Ok(rise(fields))
}

/// Puts fields in the order of their sections and of their beginnings.
fn put_in_order(fields: &mut Vec<Field>) -> Result<(), AllocError>
    ensures same { OnOk result (IsPermutation fields.old.items fields.new.items) }
    ensures ordered { OnOk result (IsOrdered fields.new.items) }
{
    fields.sort_by_key(|f| (f.section, f.start))?;
    Ok(())
}

/// Whether each field ends before the next one begins.
fn rise(fields: &[Field]) -> bool
    ensures { IsTrue result ↔ Rise fields.now }
{
    fields.windows(2).all(|w| ends_before(&w[0], &w[1]))
}

#[tactic(auto, using(crate::proofs::FieldRuns::before_told))]
fn ends_before(f: &Field, g: &Field) -> bool
    ensures { IsTrue result ↔ IsBefore f.now g.now }
{
    is_before(f, g)
}

/// Whether a field ends before another one begins.
pub fn is_before(f: &Field, g: &Field) -> bool
    ensures { result ≡ is_before f.now g.now }
{
    f.section < g.section || f.section == g.section && f.end <= g.start
}

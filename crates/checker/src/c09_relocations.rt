//! C9: whether each kept relocation is lawful and its value fits; and then the fields of all, row by row.
ghost use Rattle.std.specs.Prelude.{◌≡◌, ◌↔◌, IfOk, IfSome, IsSome};
ghost use Rattle.elf_model.specs.Image.RightLink.{Holds, objects_of, where_of};
ghost use Rattle.elf_model.specs.declared.verdict.Clause.TheVariants as clause;
ghost use Rattle.check_relocs.specs.Fields.{AreRows};

use check_relocs::{Field, fields_right};
use check_stages::BoundLink;
use std::alloc::{AllocError, Global};

/// The fields of a link's relocations by objects; None where the ninth clause doesn't hold.
pub fn rows(alloc: Global, bound: &BoundLink<'_, '_>) -> Result<Option<Vec<Vec<Field>>>, AllocError>
    ensures right { IfOk result (λ o. IsSome o ↔ Holds clause.C9 bound.now) }
    ensures rows { IfOk result (λ o.
        IfSome o (λ v. AreRows (objects_of bound.now) (where_of bound.now) v.items)) }
{
    let rows = fields_right(alloc, bound.bindings())?;
    Ok(rows)
}

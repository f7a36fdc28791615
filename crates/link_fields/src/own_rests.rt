//! Which sections haven't the input's bytes beside the fields of their relocations.
ghost use Rattle.std.specs.Prelude.{◌≡◌, ◌↔◌, ℕ, All, IfOk, IfSome, IsTrue, List, None};
ghost use Rattle.std.specs.List.Sorted.{IsNonDecreasingBy};
ghost use Rattle.check_link.specs.Views.{placed_view};
ghost use Rattle.elf_model.specs.Link.Loading.{LoadedObject};
ghost use Rattle.judge_model.specs.Links.{ForeignLink};
ghost use Rattle.judge_model.specs.RightForeign.{Holds};
ghost use Rattle.judge_model.specs.declared.judgement.Requirement.TheVariants as requirement;
ghost use Rattle.memory_judge.specs.Rests.{IsBeside};
ghost use Rattle.link_fields.specs.Fields.{HasFields};
ghost use Rattle.link_fields.specs.Parts.{parts_of};
ghost use Rattle.link_fields.specs.Rests.{HoldsRestIn, IsOutside, LiesWhole, kept_in};
ghost use Rattle.link_fields.specs.Wrong.{IsDenied, IsWrongRest, rest_named};

use crate::drops::Drops;
use crate::object_fields::{ObjectFields, fields_of_object, spans_of, turned_to};
use crate::parts::LinkParts;
use crate::wrong_places::{WrongRest, rest_named};
use check_link::{Placed, load_size};
use memory_judge::{FieldSpan, holds_rest};
use std::alloc::{AllocError, Global};

/// The fields of a section of an object by rising places; none where the section is left out.
pub fn kept_spans(
    alloc: Global,
    fields: &ObjectFields,
    drops: &Drops<'_>,
    section: u64,
) -> Result<Vec<FieldSpan>, AllocError>
    requires { IsNonDecreasingBy (λ f. f.section) fields.now.row.items }
    ensures rising { IfOk result (λ v. IsNonDecreasingBy (λ s. s.at) v.items) }
    ensures beside { IfOk result (λ v. (objects : List LoadedObject) (k : ℕ)
        → HasFields objects fields.now.object fields.now.row.items
        → IsBeside v.items k
        ↔ All (IsOutside fields.now.object section k) (kept_in drops.now objects)) }
{
    if drops.has(fields.object, section) {
        return Ok(Vec::new(alloc));
    }
    spans_of(alloc, &fields.row, section)
}

/// Whether memory holds the bytes of a section or a common block beside its fields.
fn holds_own_rest(
    alloc: Global,
    parts: &LinkParts<'_, '_, '_>,
    drops: &Drops<'_>,
    fields: &ObjectFields,
    placed: &Placed<'_>,
) -> Result<bool, AllocError>
    requires whole { LiesWhole parts.now.image (placed_view placed.now) }
    requires object { fields.now.object ≡ placed.now.piece.object }
    requires fields { HasFields parts.now.objects fields.now.object fields.now.row.items }
    ensures { IfOk result (λ b.
        IsTrue b ↔ HoldsRestIn parts.now drops.now (placed_view placed.now)) }
{
    let piece = &placed.piece;
    let spans = kept_spans(alloc, fields, drops, piece.section)?;
    let size = load_size(piece);
    Ok(holds_rest(parts.image, placed.at, size, piece.bytes, &spans))
}

/// The first of placed sections and common blocks of which memory doesn't hold the bytes beside their fields. It goes once over the
/// relocations of each object where the sections of an object stand together.
fn wrong_among(
    alloc: Global,
    parts: &LinkParts<'_, '_, '_>,
    drops: &Drops<'_>,
    placed: &[Placed<'_>],
) -> Result<Option<WrongRest>, AllocError>
    requires { All (λ q. LiesWhole parts.now.image (placed_view q)) placed.now }
    ensures right { IfOk result (λ r. r ≡ None
        → All (λ q. HoldsRestIn parts.now drops.now (placed_view q)) placed.now) }
    ensures wrong { IfOk result (λ r. IfSome r (IsDenied (λ q. HoldsRestIn parts.now drops.now
        (placed_view q)) (λ q. rest_named (placed_view q)) placed.now)) }
{
    let objects = parts.names.objects();
    let mut fields = fields_of_object(alloc, objects, 0)?;
    for q in placed {
        fields = turned_to(alloc, objects, fields, q.piece.object)?;
        if !holds_own_rest(alloc, parts, drops, &fields, q)? {
            return Ok(Some(rest_named(q)));
        }
    }
    Ok(None)
}

/// The first section or common block of a link of which memory doesn't hold the bytes beside its fields; None where there is none.
/// Given are the link's parts and the lines of the sections that are left out. Each section that takes up memory lies whole in a
/// segment.
///
/// # Errors
///
/// Only where memory is refused.
pub fn wrong_rest(
    alloc: Global,
    parts: &LinkParts<'_, '_, '_>,
    drops: &Drops<'_>,
) -> Result<Option<WrongRest>, AllocError>
    requires { All (LiesWhole parts.now.image) parts.now.placed }
    ensures right { (l : ForeignLink) → parts_of l ≡ parts.now → l.certificate.drops ≡ drops.now
        → IfOk result (λ r. r ≡ None → Holds requirement.F7 l) }
    ensures wrong { (l : ForeignLink) → parts_of l ≡ parts.now → l.certificate.drops ≡ drops.now
        → IfOk result (λ r. IfSome r (IsWrongRest l)) }
{
    let wrong = wrong_among(alloc, parts, drops, parts.addresses.placed())?;
    Ok(wrong)
}

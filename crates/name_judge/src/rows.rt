//! Whether the value of a certificate's line of a name is one that the name may have.
ghost use Rattle.std.specs.Prelude.{◌≡◌, ◌↔◌, All, IfSome, IsTrue, is_some, map};
ghost use Rattle.check_link.specs.ByName.{found_in};
ghost use Rattle.elf_model.specs.Link.Meaning.{object_meaning};
ghost use Rattle.judge_model.specs.Certificates.{is_row_of, name_row, value_of_name};
ghost use Rattle.link_fields.specs.Parts as words;
ghost use Rattle.name_judge.specs.Bounds.{IsPairOne, IsRowRight};

use crate::bounds::is_bound_at;
use crate::marks::Marks;
use check_link::{Names, Outputs, Span, fixed_bound, named_output, output_bound};
use elf_model::Bound;
use judge_model::NameLine;
use link_fields::LinkParts;
use std::collections::BTreeMap;

/// What a name of the linker's stands for; None where the linker defines nothing for it.
pub fn bound_of(outputs: &Outputs<'_, '_>, name: &[u8]) -> Option<Bound>
    ensures { result ≡ words.bound_of outputs.now name.now }
{
    if let Some(bound) = fixed_bound(name) {
        return Some(bound);
    }
    if outputs.has(named_output(name)) {
        output_bound(name)
    } else {
        None
    }
}

/// Whether objects define what a name means.
pub fn is_meant(names: &Names<'_, '_>, name: &[u8]) -> bool
    ensures { result ≡ is_some (object_meaning names.now name.now) }
{
    match names.chosen(name) {
        Some(symbol) => names.meant(&symbol).is_some(),
        None => false,
    }
}

/// The span of an output name; None where nothing is of it.
fn span_of(spans: &BTreeMap<&[u8], Span>, name: &[u8]) -> Option<Span>
    ensures { result ≡ found_in spans.now name.now }
{
    spans.get(name).copied()
}

/// Whether the value of a line is one that its name may have.
fn is_row_right(
    parts: &LinkParts<'_, '_, '_>,
    marks: &Marks,
    spans: &BTreeMap<&[u8], Span>,
    row: &NameLine,
) -> bool
    ensures { IsTrue result ↔ IsRowRight parts.now marks.now spans.now (name_row row.now) }
{
    let name = row.name.as_slice();
    if is_meant(parts.names, name) {
        return true;
    }
    let Some(bound) = bound_of(parts.outputs, name) else {
        return true;
    };
    let span = span_of(spans, named_output(name));
    is_bound_at(parts.image, marks, parts.got, span, row.value, bound)
}

/// Whether the values of all lines are such.
pub fn are_rows_right(
    parts: &LinkParts<'_, '_, '_>,
    marks: &Marks,
    spans: &BTreeMap<&[u8], Span>,
    rows: &[NameLine],
) -> bool
    ensures { IsTrue result
        ↔ All (λ r. IsRowRight parts.now marks.now spans.now (name_row r)) rows.now }
{
    for row in rows {
        if !is_row_right(parts, marks, spans, row) {
            return false;
        }
    }
    true
}

fn is_row_of(row: &NameLine, name: &[u8]) -> bool
    ensures { result ≡ is_row_of name.now (name_row row.now) }
{
    row.name.as_slice() == name
}

/// The value of a name in the first line that has it; None without one.
fn row_value(rows: &[NameLine], name: &[u8]) -> Option<u64>
    ensures { result ≡ value_of_name (map name_row rows.now) name.now }
{
    for row in rows {
        if is_row_of(row, name) {
            return Some(row.value);
        }
    }
    None
}

/// Whether two names have one value, where both have one.
fn have_one_value(rows: &[NameLine], first: &[u8], last: &[u8]) -> bool
    ensures { IsTrue result ↔ IfSome (value_of_name (map name_row rows.now) first.now)
        (λ v. IfSome (value_of_name (map name_row rows.now) last.now) (λ w. v ≡ w)) }
{
    match (row_value(rows, first), row_value(rows, last)) {
        (Some(v), Some(w)) => v == w,
        (_, _) => true,
    }
}

/// Whether the names of an array's beginning and end have one value, where it has nothing and no object defines them.
pub fn is_pair_one(
    parts: &LinkParts<'_, '_, '_>,
    spans: &BTreeMap<&[u8], Span>,
    first: &[u8],
    last: &[u8],
) -> bool
    ensures { IsTrue result ↔ IsPairOne parts.now spans.now first.now last.now }
{
    if span_of(spans, named_output(first)).is_some() {
        return true;
    }
    if is_meant(parts.names, first) || is_meant(parts.names, last) {
        return true;
    }
    have_one_value(parts.rows, first, last)
}

//! Whether names for where the sections of an output name begin and end speak of one run of sections.
ghost use Rattle.std.specs.Prelude.{◌≡◌, ◌↔◌, All, IfSome, IsTrue, map};
ghost use Rattle.judge_model.specs.Certificates.{name_row};
ghost use Rattle.judge_model.specs.Links.{ForeignLink, objects_of, pieces_of};
ghost use Rattle.judge_model.specs.Names.{IsUnmixed};
ghost use Rattle.name_judge.specs.Unmixed.{IsOneBound, IsRowUnmixed};

use crate::rows::{bound_of, is_meant};
use check_link::{Names, Outputs, named_output};
use elf_model::Bound;
use judge_model::NameLine;

/// Whether the sections of which a bound speaks are alike in WRITE, EXECINSTR, TLS and NOBITS.
fn is_one_bound(outputs: &Outputs<'_, '_>, name: &[u8], bound: Bound) -> bool
    ensures { IsTrue result ↔ IsOneBound outputs.now name.now bound }
{
    match bound {
        Bound::OutputStart | Bound::OutputEnd => outputs.are_one(named_output(name)),
        Bound::ImageStart
        | Bound::CodeEnd
        | Bound::DataEnd
        | Bound::ZeroStart
        | Bound::ImageEnd
        | Bound::GotStart => true,
    }
}

/// The same of a bound, where there is one.
fn is_one(outputs: &Outputs<'_, '_>, name: &[u8], bound: Option<Bound>) -> bool
    ensures { IsTrue result ↔ IfSome bound (IsOneBound outputs.now name.now) }
{
    match bound {
        Some(kind) => is_one_bound(outputs, name, kind),
        None => true,
    }
}

/// Whether the name of a line speaks of one run, or objects define it.
fn is_row_unmixed(names: &Names<'_, '_>, outputs: &Outputs<'_, '_>, row: &NameLine) -> bool
    ensures { IsTrue result ↔ IsRowUnmixed names.now outputs.now (name_row row.now) }
{
    let name = row.name.as_slice();
    if is_meant(names, name) {
        return true;
    }
    is_one(outputs, name, bound_of(outputs, name))
}

fn are_rows_unmixed(names: &Names<'_, '_>, outputs: &Outputs<'_, '_>, rows: &[NameLine]) -> bool
    ensures { IsTrue result
        ↔ All (λ r. IsRowUnmixed names.now outputs.now (name_row r)) rows.now }
{
    for row in rows {
        if !is_row_unmixed(names, outputs, row) {
            return false;
        }
    }
    true
}

/// Whether each name of a certificate for where the sections of an output name begin or end, which no object defines, speaks of one
/// run: the image's sections of that output name are alike in WRITE, EXECINSTR, TLS and NOBITS. Else they may be apart, and a
/// program that walks from the one name to the other would walk over what is in between.
pub fn are_names_unmixed(
    names: &Names<'_, '_>,
    outputs: &Outputs<'_, '_>,
    rows: &[NameLine],
) -> bool
    ensures { (l : ForeignLink) → objects_of l ≡ names.now → pieces_of l ≡ outputs.now
        → l.certificate.names ≡ map name_row rows.now
        → IsTrue result ↔ All (IsUnmixed l) l.certificate.names }
{
    are_rows_unmixed(names, outputs, rows)
}

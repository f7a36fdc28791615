//! The values that a certificate gives names.
ghost use Rattle.std.specs.Prelude.{◌≡◌, map};
ghost use Rattle.judge_model.specs.Certificates.{is_row_of, name_row, value_of_name};

use judge_model::NameLine;

/// Whether a line is a name's.
fn is_row_of(row: &NameLine, name: &[u8]) -> bool
    ensures { result ≡ is_row_of name.now (name_row row.now) }
{
    row.name.as_slice() == name
}

/// The value of a name in the first line that has it; None without one.
pub fn row_value(rows: &[NameLine], name: &[u8]) -> Option<u64>
    ensures { result ≡ value_of_name (map name_row rows.now) name.now }
{
    for row in rows {
        if is_row_of(row, name) {
            return Some(row.value);
        }
    }
    None
}

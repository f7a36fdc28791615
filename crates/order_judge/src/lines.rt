//! Whether lines are those of objects, in their order: each has its number, an item that is there, and this item's path.
ghost use Rattle.std.specs.Prelude.{◌↔◌, IsTrue, map};
ghost use Rattle.elf_model.specs.Image.MapRecord.{object_row};
ghost use Rattle.order_judge.specs.Lines.{AreLines, IsLine, IsPathOf};

use elf_model::ObjectLine;
use opening::Input;

/// Whether a path is that of an item.
fn is_path_of(input: &Input<'_>, path: &[u8]) -> bool
    ensures { IsTrue result ↔ IsPathOf path.now input.now }
{
    path == input.item().path.as_bytes()
}

/// Whether a line has a number, an item that is there, and this item's path.
fn is_line(inputs: &[Input<'_>], number: usize, row: &ObjectLine) -> bool
    ensures { IsTrue result ↔ IsLine inputs.now number (object_row row.now) }
{
    if row.object != number as u64 {
        return false;
    }
    match inputs.get(row.item as usize) {
        Some(input) => is_path_of(input, &row.path),
        None => false,
    }
}

/// Whether lines are those of objects from number 0 on.
pub fn are_lines(inputs: &[Input<'_>], rows: &[ObjectLine]) -> bool
    ensures { IsTrue result ↔ AreLines inputs.now 0 (map object_row rows.now) }
{
    for (number, row) in rows.iter().enumerate() {
        if !is_line(inputs, number, row) {
            return false;
        }
    }
    true
}

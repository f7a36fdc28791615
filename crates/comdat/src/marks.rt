//! Marks at section numbers.
ghost use Rattle.std.specs.Prelude.{◌≡◌, ◌↔◌, IfOk, IsTrue, slice_set, true};
ghost use Rattle.comdat.specs.Marks.{AreUnmarked, is_marked, marked, marked_numbers};

use std::alloc::{AllocError, Global};

/// Whether a number is marked; one past the table isn't.
pub fn is_marked(marks: &[bool], number: usize) -> bool
    ensures { result ≡ is_marked marks.now number }
{
    match marks.get(number) {
        Some(mark) => *mark,
        None => false,
    }
}

/// Whether none of the numbers is marked.
pub fn are_unmarked(marks: &[bool], numbers: &[u32]) -> bool
    ensures { IsTrue result ↔ AreUnmarked marks.now numbers.now }
{
    numbers
        .iter()
        .all(|number| !is_marked(marks, *number as usize))
}

/// Marks a number, where the table has it.
fn set_mark(marks: &mut [bool], number: usize)
    ensures { marks.new ≡ slice_set marks.old number true }
{
    if number < marks.len() {
        marks[number] = true;
    }
}

/// Marks the numbers that the table has.
pub fn mark(marks: &mut [bool], numbers: &[u32])
    ensures { marks.new ≡ marked marks.old numbers.now }
{
    for number in numbers {
        set_mark(marks, *number as usize);
    }
}

/// The numbers that are marked, ascending.
pub fn marked_numbers(alloc: Global, marks: &[bool]) -> Result<Vec<usize>, AllocError>
    ensures { IfOk result (λ v. v.items ≡ marked_numbers marks.now) }
{
    let mut numbers = Vec::new(alloc);
    for (number, is_marked) in marks.iter().enumerate() {
        if *is_marked {
            numbers.push(number)?;
        }
    }
    Ok(numbers)
}

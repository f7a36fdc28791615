//! Whether the objects that the command itself names stand in its order.
ghost use Rattle.std.specs.Prelude.{◌≡◌, ◌↔◌, AllPairs, IfSome, IsTrue, map};
ghost use Rattle.judge_model.specs.Loaded.{is_named_by};
ghost use Rattle.order_judge.specs.Origins.{origin_of_line, origin_of_pair};
ghost use Rattle.order_judge.specs.Turns.{AreOriginsInTurn, IsBefore, is_named_at};

use elf_model::ObjectLine;
use opening::Input;

/// Whether the command itself names what an item loads: an object, or an archive that is taken whole.
pub fn is_named_by(input: &Input<'_>) -> bool
    ensures { result ≡ is_named_by input.now }
{
    let item = input.item();
    !item.archive || item.whole
}

/// Whether there is an item of a number, and the command itself names what it loads.
fn is_named_at(inputs: &[Input<'_>], item: u64) -> bool
    ensures { result ≡ is_named_at inputs.now item }
{
    match inputs.get(item as usize) {
        Some(input) => is_named_by(input),
        None => false,
    }
}

/// Whether a line's object stands behind the last one that the command names, where there was one: by their items, and by
/// the offsets of their headers in one archive.
fn is_behind(last: Option<(u64, u64)>, row: &ObjectLine) -> bool
    ensures { IsTrue result ↔ IfSome last
        (λ a. IsBefore (origin_of_pair a) (origin_of_line row.now)) }
{
    let Some((item, offset)) = last else {
        return true;
    };
    item < row.item || item == row.item && offset < row.offset
}

/// Whether the objects of lines that the command names stand in its order.
pub fn are_in_turn(inputs: &[Input<'_>], rows: &[ObjectLine]) -> bool
    ensures { IsTrue result
        ↔ AllPairs (AreOriginsInTurn inputs.now) (map origin_of_line rows.now) }
{
    let mut last = None;
    for row in rows {
        if !is_named_at(inputs, row.item) {
            continue;
        }
        if !is_behind(last, row) {
            return false;
        }
        last = Some((row.item, row.offset));
    }
    true
}

//! Requests for slots of the global offset table, as tables and sets of them compare them, and those of the map's lines.
ghost use Rattle.std.specs.Prelude.{◌≡◌};
ghost use Rattle.linkmap.specs.Borrowed.{slot_row, target_row};
ghost use Rattle.elf_model.specs.Link.Slots.{row_request};
ghost use Rattle.check_link.specs.Slots.{kind_view, request_view, target_view};

use elf_model::SlotKind;
use linkmap::{BorrowedSlot, BorrowedTarget};

/// Whose value or thread offset a slot holds: that of a name, or of a LOCAL symbol by its object's and its own number.
#[derive(Clone, Copy, Debug, PartialEq, Eq, PartialOrd, Ord)]
pub enum Wanted<'a> {
    Name(&'a [u8]),
    Local(u64, u64),
}

/// A request for a slot: whether it asks for the offset from the thread pointer, else for the value, and of what.
#[derive(Clone, Copy, Debug, PartialEq, Eq, PartialOrd, Ord)]
pub struct Request<'a> {
    pub thread: bool,
    pub target: Wanted<'a>,
}

pub fn is_thread(kind: SlotKind) -> bool
    ensures { kind_view result ≡ kind }
{
    match kind {
        SlotKind::Value => false,
        SlotKind::Thread => true,
    }
}

/// The target that a line of the map names.
fn named_target<'m>(target: &'m BorrowedTarget<'m>) -> Wanted<'m>
    ensures { target_view result ≡ target_row target.entry.now }
{
    match target {
        BorrowedTarget::Name(name) => Wanted::Name(name),
        BorrowedTarget::Local { object, symbol } => Wanted::Local(*object, *symbol),
    }
}

/// The request for which a line of the map has a slot.
pub fn request_of_line<'m>(line: &'m BorrowedSlot<'m>) -> Request<'m>
    ensures { request_view result ≡ row_request (slot_row line.entry.now) }
{
    Request {
        thread: is_thread(line.kind),
        target: named_target(&line.target),
    }
}

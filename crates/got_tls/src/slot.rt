//! A slot of the GOT: what it holds, and of which target.
ghost use Rattle.std.specs.Prelude.{◌≡◌};
ghost use Rattle.elf_model.specs.Link.Slots.{same_kind};
ghost use Rattle.resolve.specs.Views.{target_view};
ghost use Rattle.got_tls.specs.Views.{kind_view, owner_view, slot_view};

use elf_model::{Name, ObjectId, SlotKind, SymbolRef, Target};

/// What a slot holds.
#[derive(Clone, Copy, Debug, PartialEq, Eq, Hash)]
enum Content {
    Value,
    Thread,
}

/// Whose it is: a name's, or a LOCAL symbol's, by its object's and its own number.
#[derive(Clone, Copy, Debug, PartialEq, Eq, Hash)]
enum Owner<'a> {
    Name(Name<'a>),
    Local(u64, u64),
}

/// A slot of the GOT: what it holds, and of which target.
#[derive(Clone, Copy, Debug, PartialEq, Eq, Hash)]
pub struct Slot<'a> {
    content: Content,
    owner: Owner<'a>,
}

fn content_of(kind: SlotKind) -> Content
    ensures { kind_view result ≡ kind }
{
    match kind {
        SlotKind::Value => Content::Value,
        SlotKind::Thread => Content::Thread,
    }
}

fn owner_of<'a>(target: &Target<'a>) -> Owner<'a>
    ensures { owner_view result ≡ target_view target.now }
{
    match target {
        Target::Name(name) => Owner::Name(Name(name)),
        Target::Local(symbol) => Owner::Local(symbol.object.0, symbol.symbol),
    }
}

impl<'a> Slot<'a> {
    /// The slot for the value or the thread offset of a target.
    pub fn new(kind: SlotKind, target: &Target<'a>) -> Slot<'a>
        ensures { slot_view result ≡ record { kind = kind; target = target_view target.now } }
    {
        Slot {
            content: content_of(kind),
            owner: owner_of(target),
        }
    }

    /// What it holds.
    pub fn kind(self) -> SlotKind
        ensures { result ≡ (slot_view self.entry).kind }
    {
        match self.content {
            Content::Value => SlotKind::Value,
            Content::Thread => SlotKind::Thread,
        }
    }

    /// Whether it holds a value, or a thread offset, as the kind says.
    pub fn is_of(self, kind: SlotKind) -> bool
        ensures { result ≡ same_kind (slot_view self.entry).kind kind }
    {
        match (self.content, kind) {
            (Content::Value, SlotKind::Value) => true,
            (Content::Thread, SlotKind::Thread) => true,
            _ => false,
        }
    }

    /// Of which target.
    pub fn target(self) -> Target<'a>
        ensures { target_view result ≡ (slot_view self.entry).target }
    {
        match self.owner {
            Owner::Name(name) => Target::Name(name.0),
            Owner::Local(object, symbol) => Target::Local(SymbolRef {
                object: ObjectId(object),
                symbol,
            }),
        }
    }
}

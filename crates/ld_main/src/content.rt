//! What outputs are filled with: the image of a link, and its map.
ghost use Rattle.std.specs.Prelude.{◌≡◌, ℕ, List, Option, OnErr, OnOk};
ghost use Rattle.std.specs.Io.KnownBytes.{Appends};
ghost use Rattle.image_write.specs.Linkages.{own_image};
ghost use Rattle.image_write.specs.Streams.{TookPart};
ghost use Rattle.linker.specs.Linkages.{IsOwnText};

use image_write::{HoleSink, Linkage, WriteFault, write_image};
use linker::write_map;
use std::alloc::Global;

/// What an output is filled with.
pub trait Content {
    // Whether some bytes are this content.
    ghost says: { Self → List ℕ → Type 0 };
    // What must hold of a content that is put.
    ghost ready: { Self → Type 0 };
    // What a device may tell after a fault that told something before.
    ghost leaves: { Self → Option (List ℕ) → Option (List ℕ) → Type 0 };

    /// Gives a device the content, and hands both back.
    ///
    /// # Errors
    ///
    /// Memory where memory is refused; Device where the device fails, which isn't called again then.
    fn put<S: HoleSink + Drop>(self, alloc: Global, sink: S) -> (Self, S, Result<(), WriteFault>)
    where
        Self: Sized,
        requires whole { S.failed sink ≡ 0 }
        requires ready { ready self }
        ensures written { OnOk result.2 ((bytes : List ℕ) × says self bytes
            × Appends (S.told sink) (S.told result.1) bytes) }
        ensures part { OnErr result.2 (leaves self (S.told sink) (S.told result.1)) };

    /// Whether those may run it who may read it.
    fn is_program(&self) -> bool;
}

/// The image of a link.
#[derive(Clone, Copy)]
pub struct ImageOf<'l, 'a> {
    pub linkage: &'l Linkage<'a>,
}

impl<'l, 'a> Content for ImageOf<'l, 'a> {
    ghost says = { λ c bytes. bytes ≡ own_image c.linkage.now };

    ghost ready = { λ _. Unit {0} };

    ghost leaves = { λ c old new. TookPart old (own_image c.linkage.now) new };

    fn put<S: HoleSink + Drop>(self, alloc: Global, sink: S) -> (Self, S, Result<(), WriteFault>) {
        let mut sink = sink;
        let done = write_image(alloc, self.linkage, &mut sink);
        (self, sink, done)
    }

    fn is_program(&self) -> bool {
        true
    }
}

/// The map of a link.
#[derive(Clone, Copy)]
pub struct MapOf<'l, 'a> {
    pub linkage: &'l Linkage<'a>,
}

impl<'l, 'a> Content for MapOf<'l, 'a> {
    ghost says = { λ c bytes. IsOwnText c.linkage.now bytes };

    ghost ready = { λ _. Unit {0} };

    ghost leaves = { λ _ _ _. Unit {0} };

    fn put<S: HoleSink + Drop>(self, alloc: Global, sink: S) -> (Self, S, Result<(), WriteFault>) {
        let (sink, done) = write_map(alloc, self.linkage, sink);
        (self, sink, done)
    }

    fn is_program(&self) -> bool {
        false
    }
}

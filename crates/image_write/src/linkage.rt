//! A link that is prepared: what is loaded, where it stands, what its relocations want, and what its names mean.
ghost use Rattle.std.specs.Prelude.{◌≡◌};
ghost use Rattle.image_write.specs.Linkages.{AreParts, linked_of, loaded_of};
ghost use Rattle.image_write.specs.Listings.{in_order};
ghost use Rattle.resolve.specs.Views.{meaning_views};

use crate::listed::Listed;
use got_tls::Slots;
use layout::Placement;
use relocate::Patches;
use search::Loaded;
use std::marker::Model;

/// What the layers make of what is loaded: the definitions that have a line in the map, with the symbol table of the image,
/// where it is to have one; where the pieces stand; the slots of the GOT and what they hold; what the relocations want; and
/// the address at which the image is entered.
#[derive(Drop)]
pub struct Parts<'a> {
    pub listed: Listed<'a>,
    pub placement: Placement<'a>,
    pub slots: Slots<'a>,
    pub values: Vec<u64>,
    pub patches: Patches<'a>,
    pub entry: u64,
}

/// A link without a fault: the plan of a command with its loaded objects, and all that their image and their map are made
/// from. Names are borrowed from the words, and bytes from the files.
#[derive(Drop)]
pub struct Linkage<'a> {
    loaded: Loaded<'a>,
    parts: Parts<'a>,
}

impl<'a> Model for Linkage<'a> {
    ghost use Rattle.image_write.specs.Linkages.{AreParts, Linked, linked_of};

    ghost Value = { Linked };

    ghost view = { λ l. linked_of l.loaded l.parts };

    ghost invariant = { λ l. AreParts l.loaded l.parts };
}

impl<'a> Linkage<'a> {
    /// The link of what is loaded, of the parts that the layers made of it.
    pub fn new(loaded: Loaded<'a>, parts: Parts<'a>) -> Linkage<'a>
        requires { AreParts loaded parts }
        ensures { result ≡ linked_of loaded.entry parts.entry }
    {
        Linkage { loaded, parts }
    }

    /// What is loaded.
    pub fn loaded(&self) -> &Loaded<'a>
        ensures { result.now ≡ loaded_of self.now }
    {
        &self.loaded
    }

    /// What the layers made of it.
    pub fn parts(&self) -> &Parts<'a>
        ensures parts { AreParts (loaded_of self.now) result.now }
        ensures listed { meaning_views (in_order result.now.listed) ≡ self.now.listed }
    {
        &self.parts
    }
}

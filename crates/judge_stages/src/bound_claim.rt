//! A link that is judged of which it is known what its names mean.
ghost use Rattle.std.specs.Prelude.{◌≡◌};
ghost use Rattle.judge_model.specs.Links.{pieces_of, placed_of};
ghost use Rattle.link_fields.specs.Parts.{parts_of};

use crate::placed_claim::PlacedClaim;
use check_link::Outputs;
use link_fields::{Addresses, LinkParts, MergedLines};
use std::marker::Model;

/// A placed link with its parts, by which names have their values.
#[derive(Drop)]
pub struct BoundClaim<'l, 'o, 'a> {
    placed: &'l PlacedClaim<'o, 'a>,
    parts: LinkParts<'l, 'l, 'a>,
}

impl<'l, 'o, 'a> Model for BoundClaim<'l, 'o, 'a> {
    ghost use Rattle.std.specs.Prelude.{◌≡◌};
    ghost use Rattle.judge_model.specs.Links.{ForeignLink};
    ghost use Rattle.link_fields.specs.Parts.{parts_of};

    ghost Value = { ForeignLink };

    ghost view = { λ b. b.placed.now };

    ghost invariant = { λ b. b.parts ≡ parts_of b.placed.now };
}

impl<'l, 'o, 'a> BoundClaim<'l, 'o, 'a> {
    /// A placed link, with the output names of its sections, its sections and common blocks found by their numbers, and the lines of
    /// merged strings and constants.
    pub fn new(
        placed: &'l PlacedClaim<'o, 'a>,
        outputs: &'l Outputs<'l, 'a>,
        addresses: &'l Addresses<'l, 'a>,
        merged: &'l MergedLines<'l>,
    ) -> BoundClaim<'l, 'o, 'a>
        requires outputs { outputs.now ≡ pieces_of placed.now }
        requires addresses { addresses.now ≡ placed_of placed.now }
        requires merged { merged.now ≡ placed.now.certificate.merged }
        ensures { result ≡ placed.entry.now }
    {
        let claim = placed.claim();
        let parts = LinkParts {
            image: placed.image(),
            names: placed.names(),
            outputs,
            addresses,
            merged,
            rows: &claim.certificate.names,
            got: claim.certificate.got,
        };
        BoundClaim { placed, parts }
    }

    /// The link at its addresses.
    pub fn placed(&self) -> &'l PlacedClaim<'o, 'a>
        ensures { result.now ≡ self.entry.now }
    {
        self.placed
    }

    /// Its parts.
    pub fn parts(&self) -> &LinkParts<'l, 'l, 'a>
        ensures { result.now ≡ parts_of self.entry.now }
    {
        &self.parts
    }
}

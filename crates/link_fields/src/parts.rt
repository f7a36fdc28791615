//! The parts of a link without a script, by which its fields are judged.
ghost use Rattle.std.specs.Prelude.{◌≡◌, None, map, option_map};
ghost use Rattle.std.specs.Option.{option_map_or};
ghost use Rattle.elf_model.specs.Link.Meaning.{meaning_size, object_meaning, is_in_thread_storage};
ghost use Rattle.check_link.specs.Views.{meaning_view};
ghost use Rattle.judge_model.specs.Certificates.{name_row};
ghost use Rattle.link_fields.specs.Parts as words;

use crate::addresses::Addresses;
use crate::merged_lines::MergedLines;
use check_link::{Names, Outputs};
use foreign_image::ForeignImage;
use judge_model::NameLine;
use std::marker::Model;

/// The image, what the objects define, the output names of the image's sections, these at their addresses, the places of merged
/// strings and constants, the values that a certificate gives names, and the address that it gives the GOT. There is no script.
#[derive(Drop)]
pub struct LinkParts<'l, 'p, 'a> {
    pub image: &'l ForeignImage<'a>,
    pub names: &'l Names<'l, 'a>,
    pub outputs: &'l Outputs<'l, 'a>,
    pub addresses: &'l Addresses<'p, 'a>,
    pub merged: &'l MergedLines<'l>,
    pub rows: &'l [NameLine],
    pub got: Option<u64>,
}

impl<'l, 'p, 'a> Model for LinkParts<'l, 'p, 'a> {
    ghost use Rattle.std.specs.Prelude.{None, map};
    ghost use Rattle.judge_model.specs.Certificates.{name_row};
    ghost use Rattle.link_fields.specs.Parts.{Parts};

    ghost Value = { Parts };

    ghost view = { λ p. record {
      image = p.image.now;
      objects = p.names.now;
      pieces = p.outputs.now;
      placed = p.addresses.now;
      merged = p.merged.now;
      rows = map name_row p.rows.now;
      got = p.got;
      script = None;
    } };
}

//! An object whose relocations are gone through.
ghost use Rattle.std.specs.Prelude.{◌≡◌, Some, slice_get};
ghost use Rattle.check_load.specs.Views.{loaded_view};

use crate::bindings::Bindings;
use check_load::Loaded;

/// An object of the link whose relocations are gone through: what names mean there, its number, and itself.
#[derive(Drop)]
pub struct Referrer<'r, 'l, 'p, 'a> {
    pub bindings: &'r Bindings<'l, 'p, 'a>,
    pub number: u64,
    pub loaded: &'r Loaded<'a>,
    ghost own: { slice_get bindings.now.objects number ≡ Some (loaded_view loaded.now) },
}

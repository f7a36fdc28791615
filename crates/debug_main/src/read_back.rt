//! A link's image for tools is read back: a reader of the standard's tables finds in it what these tell. Nothing here does
//! anything when the program runs.
ghost use Rattle.std.specs.Prelude.{All};
ghost use Rattle.elf_model.specs.Image.MapText.{AreBytes};
ghost use Rattle.image_write.specs.Listings.{IsListing};
ghost use Rattle.resolve.specs.Views.{meaning_views};
ghost use Rattle.search.specs.Views.{loaded_view, loaded_views};
ghost use Rattle.debug_image.specs.DebugImage.{CanBeSaid};
ghost use Rattle.debug_law.specs.ReadImages.{IsReadBack};

use debug_image::Wanted;
use debug_law::images_are_read_back;
use image_write::Linkage;
use resolve::Definition;
use search::LoadedObject;

fn show_bytes(bytes: &[u8])
    ensures { AreBytes bytes.now }
{}

/// The bytes of an object are bytes.
fn show_content(loaded: &LoadedObject<'_>)
    ensures { AreBytes (loaded_view loaded.now).bytes }
{
    show_bytes(loaded.object.bytes());
}

/// Those of all objects are.
fn show_contents(objects: &[LoadedObject<'_>])
    ensures { All (λ o. AreBytes o.bytes) (loaded_views objects.now) }
{
    for (k, loaded) in objects.iter().enumerate() {
        let _number = k;
        show_content(loaded);
    }
}

/// The image for tools of a link is read back, with what all names mean that have a line in its map.
pub fn show_read_back(linkage: &Linkage<'_>, names: &[Definition<'_>], wanted: Wanted)
    requires said { CanBeSaid wanted linkage.now (meaning_views names.now) }
    requires listing { IsListing linkage.now.objects names.now }
    ensures { IsReadBack wanted linkage.now (meaning_views names.now) }
{
    images_are_read_back();
    let _parts = linkage.parts();
    show_contents(linkage.loaded().objects());
}

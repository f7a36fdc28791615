//! Whether the groups of an object are in an image as wholes.
ghost use Rattle.std.specs.Prelude.{◌↔◌, All, IsTrue};
ghost use Rattle.check_load.specs.Views.{loaded_view};
ghost use Rattle.keep_judge.specs.Collected.{AreWholeIn, HasNone, IsWholeIn};

use crate::presence::presence;
use check_load::Loaded;
use elf_read::Group;
use link_fields::Drops;

/// Whether no member is in the image, or none is left out.
fn has_none(
    drops: &Drops<'_>,
    number: u64,
    loaded: &Loaded<'_>,
    members: &[u32],
    there: bool,
) -> bool
    ensures { IsTrue result ↔ HasNone drops.now number (loaded_view loaded.now) there members.now }
{
    members.iter().all(|member| presence(drops, number, loaded, *member) != Some(there))
}

/// Whether a group of object `number` is there or left out as a whole, but for members that no image has.
fn is_whole(drops: &Drops<'_>, number: u64, loaded: &Loaded<'_>, group: &Group<'_>) -> bool
    ensures { IsTrue result ↔ IsWholeIn drops.now number (loaded_view loaded.now) group.now }
{
    let members = group.members();
    let lacks = has_none(drops, number, loaded, members, true);
    let has = has_none(drops, number, loaded, members, false);
    if lacks {
        return true;
    }
    has
}

/// Whether each group of object `number` is there or left out as a whole.
pub fn are_groups_whole(drops: &Drops<'_>, number: u64, loaded: &Loaded<'_>) -> bool
    ensures { IsTrue result ↔ AreWholeIn drops.now number (loaded_view loaded.now) }
{
    let groups = loaded.object.groups();
    for group in groups {
        if !is_whole(drops, number, loaded, group) {
            return false;
        }
    }
    true
}

//! The own map can always be spelled: its numbers are below 2 ^ 64, and its names are bytes, by the types of what
//! its lines are made from. Nothing here does anything when the program runs.
ghost use Rattle.std.specs.Prelude.{◌≡◌, ◌<◌, ◌^◌, All, length, map, option_to_list};
ghost use Rattle.elf_model.specs.Own.Causes.{HasRoom};
ghost use Rattle.elf_model.specs.Link.Listing.{AreLinkerLines};
ghost use Rattle.elf_model.specs.Link.Loading.{AreObjects};
ghost use Rattle.elf_model.specs.Image.MapText.{AreBytes, FitsDrop, FitsGot, FitsObject, FitsPlace, FitsSlot, FitsTarget};
ghost use Rattle.elf_model.specs.Link.Meaning.{Common, Linker};
ghost use Rattle.elf_model.specs.Own.OwnLayout.{IsNotTooLarge, own_got, own_slots};
ghost use Rattle.elf_model.specs.Link.Pieces.{AreLawfulKinds, kept_sections};
ghost use Rattle.elf_model.specs.Image.RightLink.{drop_rows, object_rows};
ghost use Rattle.got_tls.specs.Views.{slot_view, slot_views};
ghost use Rattle.relocate.specs.Uses.{line_views};
ghost use Rattle.resolve.specs.Blocks.{block_view, block_views};
ghost use Rattle.search.specs.Views.{loaded_view, loaded_views};
ghost use Rattle.image_write.specs.Linkages.{HasSpelledMap};
ghost use Rattle.image_write.specs.Maps.{own_row, own_table};
ghost use Rattle.linker.specs.Spelled.{FitsLines};

use crate::own_map::address_of;
use crate::slot_lines::got_line;
use elf_model::{Bound, Target};
use got_tls::{Slot, Slots};
use image_write::block_address;
use layout::Placement;
use resolve::{Block, Resolved};
use search::{Loaded, LoadedObject};

fn show_number(n: u64)
    ensures { n < 2 ^ 64 }
{}

fn show_bytes(bytes: &[u8])
    ensures { AreBytes bytes.now }
{}

/// The line of an object.
fn show_object(number: u64, loaded: &LoadedObject<'_>)
    ensures { FitsObject (record {
      object = number;
      item = loaded.now.item;
      offset = loaded.now.offset;
      path = loaded.now.path.now;
    }) }
{
    show_number(number);
    show_number(loaded.item);
    show_number(loaded.offset);
    show_bytes(loaded.path.as_bytes());
}

fn show_objects(objects: &[LoadedObject<'_>])
    ensures { All FitsObject (object_rows 0 (loaded_views objects.now)) }
{
    for (k, loaded) in objects.iter().enumerate() {
        show_object(k as u64, loaded);
    }
}

/// How many objects there are.
fn show_count(objects: &[LoadedObject<'_>])
    ensures { length (loaded_views objects.now) < 2 ^ 64 }
{
    let _count = objects.len();
}

/// The bytes of an object are bytes.
fn show_content(loaded: &LoadedObject<'_>)
    ensures { AreBytes (loaded_view loaded.now).bytes }
{
    show_bytes(loaded.object.bytes());
}

/// Those of all objects are.
fn show_contents(objects: &[LoadedObject<'_>])
    ensures { All (λ o. AreBytes o.bytes) (loaded_views objects.now) }
{
    for (k, loaded) in objects.iter().enumerate() {
        let _number = k;
        show_content(loaded);
    }
}

/// The drop lines, of which objects have few enough.
fn show_drops(objects: &[LoadedObject<'_>])
    requires { AreObjects (loaded_views objects.now) }
    ensures { All FitsDrop (drop_rows 0 (loaded_views objects.now)) }
{
    show_count(objects);
}

/// The lines of the kept sections, whose numbers and names are read from the objects' bytes, and whose addresses are low.
fn show_places(placement: &Placement<'_>, objects: &[LoadedObject<'_>])
    requires same { placement.now.objects ≡ loaded_views objects.now }
    requires objects { AreObjects (loaded_views objects.now) }
    requires fits { IsNotTooLarge placement.now.base placement.now.objects }
    ensures { All FitsPlace (map (own_row placement.now)
        (kept_sections (loaded_views objects.now))) }
{
    show_count(objects);
    show_contents(objects);
}

/// The lines of a common block, its own and that of its symbol.
fn show_block(placement: &Placement<'_>, block: &Block<'_>)
    ensures { FitsLines placement.now (Common (block_view block.now)) }
{
    show_number(address_of(placement, block.object, block.number as usize));
    show_number(block_address(placement, block));
    show_number(block.size);
    show_number(block.align);
    show_bytes(block.name);
}

fn show_blocks(placement: &Placement<'_>, blocks: &[Block<'_>])
    ensures { All (λ b. FitsLines placement.now (Common b)) (block_views blocks.now) }
{
    for block in blocks {
        show_block(placement, block);
    }
}

/// The line of a name of the linker's.
fn show_linker(placement: &Placement<'_>, name: &[u8], bound: Bound)
    requires { AreLawfulKinds placement.now.objects }
    ensures { FitsLines placement.now (Linker name.now bound) }
{
    show_number(placement.bound(name, bound));
    show_bytes(name);
}

fn show_linkers(placement: &Placement<'_>, linkers: &[(&[u8], Bound)])
    requires { AreLawfulKinds placement.now.objects }
    ensures { All (FitsLines placement.now) (line_views linkers.now) }
{
    for line in linkers {
        show_linker(placement, line.0, line.1);
    }
}

/// The line of the GOT.
fn show_got(placement: &Placement<'_>, slots: &Slots<'_>)
    requires { slots.now ≡ own_table placement.now.objects }
    ensures { All FitsGot (option_to_list (own_got placement.now.base placement.now.objects)) }
{
    if let Some(line) = got_line(placement, slots) {
        show_number(line.address);
        show_number(line.size);
    }
}

/// The target of a slot.
fn show_target(slot: Slot<'_>)
    ensures { FitsTarget (slot_view slot.entry).target }
{
    match slot.target() {
        Target::Name(name) => show_bytes(name),
        Target::Local(symbol) => {
            show_number(symbol.object.0);
            show_number(symbol.symbol);
        }
    }
}

fn show_targets(slots: &[Slot<'_>])
    ensures { All (λ q. FitsTarget q.target) (slot_views slots.now) }
{
    for slot in slots {
        show_target(*slot);
    }
}

/// The lines of the slots.
fn show_slots(placement: &Placement<'_>, slots: &Slots<'_>)
    requires made { slots.now ≡ own_table placement.now.objects }
    requires kinds { AreLawfulKinds placement.now.objects }
    requires fits { IsNotTooLarge placement.now.base placement.now.objects }
    ensures { All FitsSlot (own_slots placement.now.base placement.now.objects) }
{
    show_targets(slots.slots());
}

/// The own map of resolved objects has a text: they are objects, whose own map is of the definitions that have a line, in
/// order.
pub fn show_spellings(
    placement: &Placement<'_>,
    loaded: &Loaded<'_>,
    slots: &Slots<'_>,
    resolved: &Resolved<'_>,
    linkers: &[(&[u8], Bound)],
)
    requires same { placement.now ≡ record {
      base = loaded.now.plan.base;
      objects = loaded.now.objects;
    } }
    requires slots { slots.now ≡ own_table placement.now.objects }
    requires kinds { AreLawfulKinds placement.now.objects }
    requires room { HasRoom loaded.now.plan loaded.now.objects }
    requires resolved { resolved.now ≡ loaded.now.objects }
    requires linkers { AreLinkerLines loaded.now.objects (line_views linkers.now) }
    ensures objects { AreObjects loaded.now.objects }
    ensures spelled { HasSpelledMap loaded.now.plan loaded.now.objects }
{
    let objects = loaded.objects();
    let _definitions = resolved.definitions();
    show_count(objects);
    show_contents(objects);
    show_objects(objects);
    show_drops(objects);
    show_places(placement, objects);
    show_blocks(placement, resolved.blocks());
    show_linkers(placement, linkers);
    show_got(placement, slots);
    show_slots(placement, slots);
}

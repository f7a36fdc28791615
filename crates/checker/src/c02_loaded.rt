//! C2: whether the map's object lines are those of the objects that were loaded.
ghost use Rattle.std.specs.Prelude.{◌≡◌, ◌↔◌, IsTrue, map};
ghost use Rattle.linkmap.specs.Borrowed.{object_row};
ghost use Rattle.elf_model.specs.Image.RightLink.{IsLoaded, object_rows, objects_of};
ghost use Rattle.check_load.specs.Plans.{CanLoad};
ghost use Rattle.check_load.specs.Views.{loaded_view, loaded_views};
ghost use Rattle.check_places.specs.ObjectLines.{row_of};

use check_link::Link;
use check_load::Loaded;
use linkmap::BorrowedObject;

/// Whether an object line says of object `number` what was loaded.
pub fn is_line_of(line: &BorrowedObject<'_>, number: u64, object: &Loaded<'_>) -> bool
    ensures { IsTrue result ↔ (object_row line.now ≡ row_of number (loaded_view object.now)) }
{
    if line.object != number || line.item != object.item {
        return false;
    }
    line.offset == object.offset && line.path.as_slice() == object.path.as_bytes()
}

/// Whether the object lines are those of the objects, in order.
fn are_lines_of(lines: &[BorrowedObject<'_>], objects: &[Loaded<'_>]) -> bool
    ensures { IsTrue result ↔ (map object_row lines.now
        ≡ object_rows 0 (loaded_views objects.now)) }
{
    if lines.len() != objects.len() {
        return false;
    }
    for (k, line) in lines.iter().enumerate() {
        if !is_line_of(line, k as u64, &objects[k]) {
            return false;
        }
    }
    true
}

/// Whether the map's object lines of a link are those of its objects, which were opened.
pub fn holds(link: &Link<'_>, objects: &[Loaded<'_>]) -> bool
    requires loaded { loaded_views objects.now ≡ objects_of link.now }
    requires opened { CanLoad link.now.files link.now.plan }
    ensures { IsTrue result ↔ IsLoaded link.now }
{
    are_lines_of(&link.map.objects, objects)
}

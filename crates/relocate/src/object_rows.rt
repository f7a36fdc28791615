//! The patches of an object in one list, which has those of each section one after the other.
ghost use Rattle.std.specs.Prelude.{◌≡◌, slice_range};
ghost use Rattle.relocate.specs.Values.{row_at};

use reloc_values::Patch;

/// The patches of an object by the sections that they are for: those of section `s` begin at number `begins[s]` of the list,
/// and end before number `begins[s + 1]`. A section for which there is no such end has none.
#[derive(Drop)]
pub struct ObjectPatches {
    pub patches: Vec<Patch>,
    pub begins: Vec<usize>,
}

/// The patches from a number to before another one, as far as there are some.
fn part(patches: &[Patch], begin: usize, end: usize) -> &[Patch]
    ensures { result.now ≡ slice_range patches.entry.now begin end }
{
    let (_, rest) = patches.split_at(begin.min(patches.len()));
    let (row, _) = rest.split_at(end.saturating_sub(begin).min(rest.len()));
    row
}

impl ObjectPatches {
    /// The patches of a section.
    pub fn row(&self, section: usize) -> &[Patch]
        ensures { result.now ≡ row_at self.entry.now section }
    {
        if section >= self.begins.len() {
            return &[];
        }
        let (_, rest) = self.begins.split_at(section);
        match rest {
            [begin, end, ..] => part(&self.patches, *begin, *end),
            _ => &[],
        }
    }
}

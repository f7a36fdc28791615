//! Values written over fields.
ghost use Rattle.std.specs.Prelude.{◌≡◌, ◌<◌, ℕ, [], ◌∷◌, All, AllPairs, length, slice_index};
ghost use Rattle.reloc_values.specs.Patches.{AreDisjoint, IsNarrow, patched_byte};

/// The value that a field wants, of which the lowest bytes are written: the field's first byte, counted from its section's
/// beginning, and its width in bytes (1 to 8). 32 bits do for the first byte: what is relocated is in the image's file, which
/// has fewer than 2 ^ 32 bytes.
#[derive(Clone, Copy, Debug)]
pub struct Patch {
    pub value: u64,
    pub at: u32,
    pub width: u8,
}

/// Writes values over the bytes of their fields, which are apart, that lie in a part of a section; the part begins
/// at byte `from` of the section.
pub fn write_all(patches: &[Patch], from: u64, bytes: &mut [u8])
    requires narrow { All IsNarrow patches.now }
    requires apart { AllPairs AreDisjoint patches.now }
    ensures { (k : ℕ) → k < length bytes.old
        → slice_index bytes.new k ≡ patched_byte from bytes.old patches.now k }
{
    for patch in patches {
        write(patch, from, bytes);
    }
}

/// The width of most fields, in bytes. So many are written by one move where their number is known.
const WORD: usize = 4;

/// Writes a value over the bytes of its field that lie in a part of a section, which begins at byte `from` of the
/// section; least significant byte first.
fn write(patch: &Patch, from: u64, bytes: &mut [u8])
    requires { IsNarrow patch.now }
    ensures { (k : ℕ) → k < length bytes.old
        → slice_index bytes.new k ≡ patched_byte from bytes.old (patch.now ∷ []) k }
{
    let width = patch.width as usize;
    let begin = patch.at as u64;
    let at = begin.saturating_sub(from) as usize;
    let earlier = from.saturating_sub(begin) as usize;
    if earlier >= width || at >= bytes.len() {
        return;
    }
    let count = (width - earlier).min(bytes.len() - at);
    let spelled = patch.value.to_le_bytes();
    let (_, rest) = spelled.split_at(earlier);
    if count == WORD {
        let (word, _) = rest.split_at(WORD);
        bytes[at..at + WORD].copy_from_slice(word);
        return;
    }
    let (here, _) = rest.split_at(count);
    bytes[at..at + count].copy_from_slice(here);
}

//! Fields that come one after the other: whether each ends before the next one begins.
ghost use Rattle.std.specs.Prelude.{◌≡◌, true};
ghost use Rattle.relocate.specs.Fields.{run_with};

use crate::fields::{Field, is_before};

/// The last of some fields, and whether each of them ended before the next one began.
#[derive(Clone, Copy, Debug)]
pub struct FieldRun {
    pub last: Field,
    pub rises: bool,
}

impl FieldRun {
    /// No fields yet: as if one had ended before all others.
    pub fn start() -> FieldRun
        ensures { result.rises ≡ true }
    {
        let last = Field {
            section: 0,
            start: 0,
            end: 0,
        };
        FieldRun { last, rises: true }
    }

    /// The fields and one more.
    pub fn with(self, field: Field) -> FieldRun
        ensures { result ≡ run_with self field }
    {
        FieldRun {
            last: field,
            rises: self.rises && is_before(&self.last, &field),
        }
    }
}

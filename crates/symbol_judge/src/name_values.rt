//! The values that a certificate gives names, found by name.
ghost use Rattle.std.specs.Prelude.{◌≡◌, ℕ, IfOk, List, None, OnOk, Some, cond, map};
ghost use Rattle.std.specs.Option.{option_or};
ghost use Rattle.check_link.specs.ByName.{found_in};
ghost use Rattle.judge_model.specs.Certificates.{is_row_of, name_row};
ghost use Rattle.symbol_judge.specs.Indexes.{IsValueIndex};

use judge_model::NameLine;
use std::alloc::{AllocError, Global};
use std::collections::BTreeMap;

/// Puts the value of a row into an index by names, unless its name is there.
fn add_row<'r>(index: &mut BTreeMap<&'r [u8], u64>, row: &'r NameLine) -> Result<(), AllocError>
    ensures { OnOk result ((name : List ℕ) →
        found_in index.new name
        ≡ option_or (found_in index.old name)
        (cond (is_row_of name (name_row row.entry.now)) (Some row.entry.now.value) None)) }
{
    let name = row.name.as_slice();
    if !index.contains_key(name) {
        index.insert(name, row.value)?;
    }
    Ok(())
}

/// The value of the first row of each name.
pub fn index_rows<'r>(
    alloc: Global,
    rows: &'r [NameLine],
) -> Result<BTreeMap<&'r [u8], u64>, AllocError>
    ensures { IfOk result (IsValueIndex (map name_row rows.entry.now)) }
{
    let mut index = BTreeMap::new(alloc);
    for row in rows {
        add_row(&mut index, row)?;
    }
    Ok(index)
}

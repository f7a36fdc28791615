//! Lists that grow by what there is.
ghost use Rattle.std.specs.Prelude.{◌≡◌, ◌++◌, ◌||◌, OnOk};
ghost use Rattle.debug_image.specs.Lists.{some_list};

use std::alloc::AllocError;

/// Adds what there is.
pub fn add_some<T: Copy>(list: &mut Vec<T>, item: Option<T>) -> Result<(), AllocError>
    ensures { OnOk result (list.new.items ≡ list.old.items ++ some_list item) }
{
    if let Some(some) = item {
        list.push(some)?;
    }
    Ok(())
}

/// Whether one of two is true.
pub fn either(one: bool, other: bool) -> bool
    ensures { result ≡ (one || other) }
{
    one || other
}

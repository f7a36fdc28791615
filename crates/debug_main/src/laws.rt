//! The law that `no tables` is never said of the image for tools of a link. It has no code.
ghost use Rattle.debug_main.specs.Exclusions.{NoneExcludesOne, RefusedExcludesOne};

/// A link that is refused has no image for tools, and an image of which `no tables` is said isn't it.
pub fn no_tables_excludes_yes()
    ensures refused { RefusedExcludesOne }
    ensures none { NoneExcludesOne }
{}

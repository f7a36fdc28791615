//! The law that the linker's own layout is a right link: for every list of inputs in which no cause of a
//! refusal stands, its image file with its map meets every clause. It has no code; the linker is proved to
//! compute these definitions.
#![tactic(auto)]

ghost use Rattle.own_link.specs.OwnLink.{OwnLinkIsRight};

/// What the definitions of the own layout, of the image file and of the map give is a right link.
pub fn own_link_is_right()
    ensures { OwnLinkIsRight }
{}

//! Laws that guard the definition of a right link of another linker: what it leaves open, and what not. It has no code.
#![tactic(auto)]

ghost use Rattle.judge_law.specs.Conservative.{CheckedLinksAreRight};
ghost use Rattle.judge_law.specs.Determined.{RightLinksHoldTheSame};

/// Two images that one certificate shows to be right hold the same bytes of sections, but where they find slots or have code that
/// was rewritten so that it needs none.
pub fn right_links_hold_the_same()
    ensures { RightLinksHoldTheSame }
{}

/// A link that the profile's check accepts meets requirements of a right link of another linker: it has the sections, their
/// bytes outside of the places of relocations, the block of thread-local storage, and the entry.
pub fn checked_links_are_right()
    ensures { CheckedLinksAreRight }
{}

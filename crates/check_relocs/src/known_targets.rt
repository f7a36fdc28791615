//! What is known of what the symbols of an object mean to its relocations, each looked up once.
ghost use Rattle.check_relocs.specs.Bindings.{IsTargetOf};
ghost use Rattle.check_relocs.specs.KnownTargets.{AreTargetsKnown};
ghost use Rattle.check_relocs.specs.Referrers.{symbol_here};

use crate::answers::{keep_answer, known_answer};
use crate::referrer::Referrer;
use crate::targets::{Target, own_target_of};

/// What symbol `j` of an object means. It is looked up where that isn't known.
pub fn own_target_at<'a>(
    here: &Referrer<'_, '_, '_, 'a>,
    targets: &mut Vec<Option<Target>>,
    j: usize,
) -> Target
    requires { AreTargetsKnown here.now targets.old.items }
    ensures kept { AreTargetsKnown here.now targets.new.items }
    ensures target { IsTargetOf here.now.bindings.now (symbol_here here.now j) result }
{
    if let Some(target) = known_answer(targets, j) {
        return target;
    }
    let found = own_target_of(here, j);
    keep_answer(targets, j, found);
    found
}

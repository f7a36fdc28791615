//! Names as keys of tables that find them by hash. The standard library hashes a slice byte by byte, and compares it so.

use byteview::equal_run;
use std::hash::{Hash, Hasher};

/// A name as a key: its bytes go to the hasher in one piece, and are compared many at a time.
#[derive(Clone, Copy, Debug)]
pub struct Name<'a>(pub &'a [u8]);

impl<'a> PartialEq for Name<'a> {
    ghost use Rattle.std.specs.Cmp.{on_per, partial_equiv_from_equiv};
    ghost use Rattle.std.specs.Cmp.Lexicographic.{nat_list_eq_equiv};
    ghost use Rattle.std.specs.Str.{bytes_eq};

    ghost eq = { λ x y. bytes_eq x.0.now y.0.now };

    ghost laws = { on_per (λ x. x.0.now) (partial_equiv_from_equiv nat_list_eq_equiv) };

    fn eq(&self, other: &Name<'a>) -> bool {
        equal_run(self.0, other.0)
    }
}

impl<'a> Eq for Name<'a> {
    ghost use Rattle.std.specs.Cmp.{on_equiv};
    ghost use Rattle.std.specs.Cmp.Lexicographic.{nat_list_eq_equiv};

    ghost laws = { on_equiv (λ x. x.0.now) nat_list_eq_equiv };
}

impl<'a> Hash for Name<'a> {
    ghost use Rattle.std.specs.Prelude.{[], ◌∷◌, List, ℕ};
    ghost use Rattle.std.proofs.Common.{ap};
    ghost use Rattle.std.proofs.lemmas.Slice.Eq.{bytes_eq-Decides};

    ghost hash_input = { λ n. n.0.now ∷ [] };

    ghost respects_eq = { λ x y same. ap (λ (bs : List ℕ). bs ∷ []) ((bytes_eq-Decides x.0.now y.0.now).0 same) };

    fn hash<H: Hasher>(&self, state: &mut H) {
        state.write(self.0);
    }
}

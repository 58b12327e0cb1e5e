//! Sets by their rows: copies, and when two rows are the same, so that a store can keep each once.
ghost use Rattle.std.specs.Prelude.{◌≡◌};
ghost use Rattle.std.specs.Cmp.Rules.{comparing};
ghost use Rattle.std.proofs.Common.{rules};
ghost use Rattle.dlk_vars.specs.Rows.{row_eq};

use crate::set::VarSet;
use std::alloc::AllocError;
use std::hash::{Hash, Hasher};

impl Clone for VarSet {
    ghost is_clone = { λ a b. a ≡ b };

    fn clone(&self) -> Result<VarSet, AllocError> {
        let words = self.words.clone()?;
        Ok(VarSet {
            words,
            others: self.others,
        })
    }
}

/// Two sets are the same where their rows and their flags are.
impl PartialEq for VarSet {
    ghost eq = { row_eq };

    ghost laws = { Prim.search (comparing, rules) };

    fn eq(&self, other: &VarSet) -> bool {
        self.words == other.words && self.others == other.others
    }
}

impl Eq for VarSet {
    ghost laws = { Prim.search (comparing, rules) };
}

impl Hash for VarSet {
    ghost use Rattle.std.specs.Hash as fed;
    ghost use Rattle.std.specs.Cmp.Rules.{hashing};

    ghost hash_input = { λ r. fed.slice fed.u64 r.words };

    ghost respects_eq = { Prim.search (hashing, rules) };

    fn hash<H: Hasher>(&self, state: &mut H) {
        self.words.hash(state);
    }
}

ghost use Rattle.std.specs.Prelude.{◌≡◌, [], ◌∷◌, IfOk};

use crate::listed::Listed;
use dlk_store::Id;
use std::alloc::{AllocError, Global};

/// Formulas on the left, the antecedent, and on the right, the succedent.
#[derive(Drop, Debug)]
pub struct Sequent {
    pub ante: Listed<Id>,
    pub succ: Listed<Id>,
}

/// A place of a formula in a sequent, counted from 1.
#[derive(Clone, Copy, Debug, PartialEq, Eq)]
pub enum Place {
    Ante(u32),
    Succ(u32),
}

impl Sequent {
    /// The sequent with nothing on the left and one formula on the right.
    pub fn alone_right(alloc: Global, formula: Id) -> Result<Sequent, AllocError>
        ensures { IfOk result (λ s. s ≡ record { ante = []; succ = formula ∷ [] }) }
    {
        let mut succ = Listed::new(alloc);
        succ.push(formula)?;
        Ok(Sequent {
            ante: Listed::new(alloc),
            succ,
        })
    }

    /// The same sequent once more.
    pub fn copy(&self, alloc: Global) -> Result<Sequent, AllocError>
        ensures { IfOk result (λ s. s ≡ self.now) }
    {
        let ante = self.ante.copied(alloc)?;
        let succ = self.succ.copied(alloc)?;
        Ok(Sequent { ante, succ })
    }
}

ghost use Rattle.std.specs.Prelude.{◌≡◌, IfOk};

use crate::goals::Goals;
use dlk_sequent::{Listed, Sequent, Shared};
use std::alloc::{AllocError, Global};

/// A provable over the ids of a store. A row shares with earlier ones what it keeps of them: the conclusion, goals, the leaves.
#[derive(Drop, Debug)]
pub struct Row {
    pub conclusion: Shared<Sequent>,
    pub goals: Goals,
    pub leaves: Shared<Listed<Shared<Sequent>>>,
}

impl Row {
    /// The same row once more, which shares all that this one has.
    pub(crate) fn share(&self, alloc: Global) -> Result<Row, AllocError>
        ensures { IfOk result (λ row. row ≡ self.now) }
    {
        let conclusion = self.conclusion.share()?;
        let goals = self.goals.share(alloc)?;
        let leaves = self.leaves.share()?;
        Ok(Row {
            conclusion,
            goals,
            leaves,
        })
    }
}

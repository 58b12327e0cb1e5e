//! The formula at a place of a sequent.
ghost use Rattle.std.specs.Prelude.{◌≡◌, None, List, MatchOption};
ghost use Rattle.dlk_tree.specs.Trees.{Tree};
ghost use Rattle.dlk_sequent.specs.Sequents.{sequent_at};
ghost use Rattle.dlk_uses.specs.Uses.{formula_at};
ghost use Rattle.dlk_uses.specs.Places.{IsFormulaAt};

use dlk_sequent::{Place, Sequent, item_at};
use dlk_store::Id;

/// The formula at a place, for who acts on it or on what is in it. None comes exactly where there is no such place. It takes no memory.
pub fn formula_at(s: &Sequent, place: Place) -> Option<Id>
    ensures { MatchOption result ((trees : List Tree) → formula_at (sequent_at trees s.now) place ≡ None) (IsFormulaAt s.now place) }
{
    let found = match place {
        Place::Ante(i) => item_at(s.ante.as_slice(), i),
        Place::Succ(j) => item_at(s.succ.as_slice(), j),
    };
    match found {
        Some(f) => Some(*f),
        None => None,
    }
}

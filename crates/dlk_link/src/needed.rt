//! The rows that the last one needs.
ghost use Rattle.std.specs.Prelude.{◌≡◌, ℕ, ◌≤◌, List, [], length, map, IfOk};
ghost use Rattle.std.specs.List.{Contains};
ghost use Rattle.dlk_tree.specs.Trees.{Tree};
ghost use Rattle.dlk_rules.specs.Steps.{step_at, facts_in};
ghost use Rattle.dlk_link.specs.Marks.{NameEarlier, AreMarks, Marks};

use dlk_rules::Step;
use std::alloc::{AllocError, Global};

/// Marks the rows of these facts.
fn mark(marks: &mut Vec<bool>, facts: &[Option<u32>])
    requires { (fact : ℕ) → Contains (facts_in facts.now) fact → (1 ≤ fact) × (fact ≤ length marks.old.items) }
    ensures { Marks marks.old.items marks.new.items (facts_in facts.now) }
{
    for fact in facts {
        match fact {
            None => {}
            Some(fact) => marks[*fact as usize - 1] = true,
        }
    }
}

/// A mark for each row of some steps, of which each names earlier rows: whether the last row needs it. It takes a look at each step.
pub(crate) fn needed(alloc: Global, term: &[Step]) -> Result<Vec<bool>, AllocError>
    requires some { 1 ≤ length term.now }
    requires earlier { NameEarlier term.now }
    ensures { IfOk result (λ marks. (trees : List Tree) → AreMarks (map (step_at trees) term.now) marks.items) }
{
    let mut marks = Vec::from_elem(alloc, false, term.len())?;
    let mut row = term.len();
    marks[row - 1] = true;
    while row > 0 {
        row -= 1;
        if marks[row] {
            mark(&mut marks, &term[row].facts());
        }
    }
    Ok(marks)
}

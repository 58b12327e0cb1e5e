//! Copies of steps.
ghost use Rattle.std.specs.Prelude.{◌≡◌, ◌≤◌, ◌++◌, List, Some, length, map, take, All, IfOk, OnOk, OnErr, option_map};
ghost use Rattle.dlk_tree.specs.Trees.{Tree};
ghost use Rattle.dlk_rules.specs.Steps.{step_at, HasKnownIds};
ghost use Rattle.dlk_session.specs.Held.{saved_steps};

use dlk_link::copied;
use dlk_rules::Step;
use std::alloc::{AllocError, Global};

/// The same steps once more.
pub(crate) fn all_copied(alloc: Global, steps: &[Step]) -> Result<Vec<Step>, AllocError>
    ensures same { IfOk result (λ copies. (trees : List Tree) → map (step_at trees) copies.items ≡ map (step_at trees) steps.now) }
    ensures known { IfOk result (λ copies. (trees : List Tree) → All (HasKnownIds trees) steps.now → All (HasKnownIds trees) copies.items) }
{
    let mut copies = Vec::with_capacity(alloc, steps.len())?;
    for step in steps {
        copies.push(copied(alloc, step)?)?;
    }
    Ok(copies)
}

/// Puts steps behind the first ones of others, and lets those behind them go. For want of memory nothing is done.
fn put_behind(steps: &mut Vec<Step>, first: usize, mut new: Vec<Step>) -> Result<(), AllocError>
    requires { first ≤ length steps.old.items }
    ensures put { OnOk result (steps.new.items ≡ take first steps.old.items ++ new.items) }
    ensures err { OnErr result (steps.new.items ≡ steps.old.items) }
{
    steps.reserve(new.len())?;
    steps.truncate(first);
    let Ok(()) = steps.append(&mut new) else {
        unreachable!();
    };
    Ok(())
}

/// Saves steps behind the first ones of those that were saved. For want of memory nothing is done.
pub(crate) fn save_behind(
    saved: &mut Option<Vec<Step>>,
    first: usize,
    new: Vec<Step>,
) -> Result<(), AllocError>
    requires { first ≤ length (saved_steps (option_map (λ v. v.items) saved.old)) }
    ensures saved { OnOk result (option_map (λ v. v.items) saved.new ≡ Some (take first (saved_steps (option_map (λ v. v.items) saved.old)) ++ new.items)) }
    ensures err { OnErr result (option_map (λ v. v.items) saved.new ≡ option_map (λ v. v.items) saved.old) }
{
    match saved {
        None => {
            *saved = Some(new);
            Ok(())
        }
        Some(steps) => put_behind(steps, first, new),
    }
}

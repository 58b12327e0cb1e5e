//! The steps that make an instance of an axiom.
ghost use Rattle.std.specs.Prelude.{◌≡◌, ◌++◌, ◌+◌, ◌<◌, ◌^◌, ◌∷◌, [], List, length, IfOk};
ghost use Rattle.dlk_tree.specs.Trees.{Tree};
ghost use Rattle.dlk_sequent.specs.Extras.{extra_at, IsKnownExtra};
ghost use Rattle.dlk_uses.specs.Uses.{instance};
ghost use Rattle.dlk_elab.specs.Forms.{renamed, substituted};
ghost use Rattle.dlk_elab.specs.Plans.{ArePlanned};

use dlk_rules::Step;
use dlk_sequent::{Extra, Listed, Pair};
use dlk_tree::Name;
use std::alloc::{AllocError, Global};

/// Puts the exchange of two names behind the steps, unless they are the same, and answers how many rows there are then.
fn rename_one(steps: &mut Vec<Step>, rows: u32, rename: &(Name, Name)) -> Result<u32, AllocError>
    requires { rows + 1 < 2 ^ 32 }
    ensures steps { IfOk result (λ last. steps.new.items ≡ steps.old.items ++ renamed rows (rename.now ∷ [])) }
    ensures last { IfOk result (λ last. last ≡ rows + length (renamed rows (rename.now ∷ []))) }
{
    let (x, y) = rename;
    if x == y {
        return Ok(rows);
    }
    let x = x.clone()?;
    let y = y.clone()?;
    steps.push(Step::Rename { fact: rows, x, y })?;
    Ok(rows + 1)
}

/// Puts behind the steps those that exchange unlike names in turn, where there are so many rows, and answers how many there are then.
fn rename(steps: &mut Vec<Step>, rows: u32, renames: &[(Name, Name)]) -> Result<u32, AllocError>
    requires { rows + length renames.now < 2 ^ 32 }
    ensures steps { IfOk result (λ last. steps.new.items ≡ steps.old.items ++ renamed rows renames.now) }
    ensures last { IfOk result (λ last. last ≡ rows + length (renamed rows renames.now)) }
{
    let mut last = rows;
    for rename in renames {
        last = rename_one(steps, last, rename)?;
    }
    Ok(last)
}

/// Puts a substitution of the last row behind the steps, unless there are no pairs.
fn substitute(steps: &mut Vec<Step>, rows: u32, pairs: Listed<Pair>) -> Result<(), AllocError>
    ensures { IfOk result (λ _. steps.new.items ≡ steps.old.items ++ substituted rows pairs) }
{
    if pairs.as_slice().is_empty() {
        return Ok(());
    }
    steps.push(Step::Subst { fact: rows, pairs })?;
    Ok(())
}

/// The axiom of the name, with these names and replacements, where there are so many rows.
pub(crate) fn instance(
    alloc: Global,
    rows: u32,
    name: &Name,
    extra: &Extra,
) -> Result<Vec<Step>, AllocError>
    requires { rows + length extra.now.renames + 1 < 2 ^ 32 }
    ensures { IfOk result (λ steps. (trees : List Tree) → IsKnownExtra trees extra.now →
        ArePlanned trees steps.items (instance rows name.now (extra_at trees extra.now))) }
{
    let name = name.clone()?;
    let extra = extra.copy(alloc)?;
    let mut steps = Vec::new(alloc);
    steps.push(Step::Axiom(name))?;
    let last = rename(&mut steps, rows + 1, extra.renames.as_slice())?;
    substitute(&mut steps, last, extra.pairs)?;
    Ok(steps)
}

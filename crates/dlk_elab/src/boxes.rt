//! Atoms for boxes on the right.
ghost use Rattle.std.specs.Prelude.{◌≡◌, ◌≢◌, ◌<◌, ◌^◌, ℕ, List, [], ◌∷◌, MatchOption, IfOk, IfErr};
ghost use Rattle.dlk_tree.specs.Trees.{Tree, WellMade};
ghost use Rattle.dlk_store.specs.Stores.{IsId, tree};
ghost use Rattle.dlk_calculus.specs.Notation.{box};
ghost use Rattle.dlk_calculus.specs.Places.{At};
ghost use Rattle.dlk_calculus.specs.Sequents.{IsFormula, IsSequent, Sequent as TreeSequent};
ghost use Rattle.dlk_sequent.specs.Sequents.{sequent_at, IsKnown};
ghost use Rattle.dlk_tacsyn.specs.Tactics.{AtPlace};
ghost use Rattle.dlk_tacsyn.specs.Ties.{argument_at};
ghost use Rattle.dlk_uses.specs.Uses.{program_a, any_p, any_q, generalizing, cutting_box};
ghost use Rattle.dlk_elab.specs.Atoms.{IsOnTheRight, NoPlace};
ghost use Rattle.dlk_elab.specs.Plans.{ArePlanned, goal_at, AreCutTrees};
ghost use Rattle.dlk_elab.specs.declared.fault.TacFault.TheVariants.{Memory};
ghost use Rattle.dlk_elab.specs.Ties.{IsTacFault, IsBoxAt, IsBoxOf, NoBox};

use crate::fault::TacFault;
use crate::plan::Target;
use crate::symbols::{name_of, pair};
use dlk_calculus::Reason;
use dlk_rules::{Rule, Step};
use dlk_sequent::{Listed, Pair, Place, Sequent, item_at};
use dlk_store::{Id, Steps, Store, StoreFault};
use dlk_tacsyn::Arg;
use dlk_tree::{Kind, Op};
use std::alloc::{AllocError, Global};
use std::sync::ledger::Ledger;

/// A box on the right: its place, its program and its formula.
#[derive(Clone, Copy, Debug)]
pub(crate) struct Boxed {
    pub(crate) place: u32,
    pub(crate) program: Id,
    pub(crate) formula: Id,
}

/// The program and the formula of a box.
#[derive(Clone, Copy, Debug)]
struct Parts {
    program: Id,
    formula: Id,
}

/// The formula that stands at a place on the right without a path, with the place.
fn on_the_right(s: &Sequent, arg: &Arg) -> Result<(u32, Id), TacFault>
    ensures place { IfOk result (λ p. (trees : List Tree) → argument_at trees arg.now ≡ AtPlace (Place.Succ p.0) []) }
    ensures stands { IfOk result (λ p. At s.now.succ p.0 p.1) }
    ensures fault { IfErr result (IsTacFault (λ why. (why ≡ NoPlace) ×
        ((trees : List Tree) (j : ℕ) (e : Tree) → ¬ IsOnTheRight (sequent_at trees s.now) (argument_at trees arg.now) j e))) }
    ensures decides { IfErr result (λ why. why ≢ Memory) }
{
    let Arg::At { place, path } = arg else {
        return Err(TacFault::NoPlace);
    };
    if !path.as_slice().is_empty() {
        return Err(TacFault::NoPlace);
    }
    let Place::Succ(j) = place else {
        return Err(TacFault::NoPlace);
    };
    match item_at(s.succ.as_slice(), *j) {
        Some(f) => Ok((*j, *f)),
        None => Err(TacFault::NoPlace),
    }
}

/// The parts of a box. None comes where the tree is none.
fn box_parts<S: Store, L: Ledger>(store: &S, id: Id, steps: &mut Steps<L>) -> Option<Parts>
    requires { IsId (S.trees store.now) id }
    ensures { MatchOption result ((b f : Tree) → tree (S.trees store.now) id ≢ box b f) (IsBoxOf (S.trees store.now) (tree (S.trees store.now) id)) }
{
    let node = store.look(id, steps);
    let Op::Box = node.op else {
        return None;
    };
    let [program, formula] = node.kids else {
        return None;
    };
    Some(Parts {
        program: *program,
        formula: *formula,
    })
}

/// The box at the place that an atom for a box is given.
///
/// # Errors
///
/// - `NoPlace`: the place is not there on the right, or has a path.
/// - `Step(WrongShape)`: no box stands there.
pub(crate) fn box_at<S: Store, L: Ledger>(
    store: &S,
    s: &Sequent,
    arg: &Arg,
    steps: &mut Steps<L>,
) -> Result<Boxed, TacFault>
    requires known { IsKnown (S.trees store.now) s.now }
    requires formulas { IsSequent (sequent_at (S.trees store.now) s.now) }
    ensures found { IfOk result (IsBoxAt (S.trees store.now) s.now (argument_at (S.trees store.now) arg.now)) }
    ensures fault { IfErr result (IsTacFault (NoBox (sequent_at (S.trees store.now) s.now) (argument_at (S.trees store.now) arg.now))) }
    ensures decides { IfErr result (λ why. why ≢ Memory) }
{
    let (place, formula) = on_the_right(s, arg)?;
    let Some(parts) = box_parts(store, formula, steps) else {
        return Err(TacFault::Step(Reason::WrongShape));
    };
    Ok(Boxed {
        place,
        program: parts.program,
        formula: parts.formula,
    })
}

/// The box follows from its formula alone.
pub(crate) fn generalizing(
    alloc: Global,
    target: Target,
    boxed: Boxed,
) -> Result<Vec<Step>, AllocError>
    requires { target.rows < 2 ^ 31 }
    ensures { IfOk result (λ steps. (trees : List Tree) (s : TreeSequent) → IsId trees boxed.program → IsId trees boxed.formula →
        ArePlanned trees steps.items (generalizing target.rows (goal_at target s) boxed.place (tree trees boxed.program) (tree trees boxed.formula))) }
{
    let now = target.rows;
    let rule = name_of(alloc, b"G")?;
    let pairs = generalized(alloc, boxed)?;
    let steps = vec![in alloc;
        Step::AxRule(rule),
        Step::Subst {
            fact: now + 1,
            pairs
        },
        target.apply(Rule::CoHideR(boxed.place)),
        Step::Merge {
            fact: now + 3,
            goal: target.goal,
            by: now + 2
        },
    ]?;
    Ok(steps)
}

/// What `boxCut` needs beside the box: the formula, the box of it, that it implies the box's formula, and the box of that.
#[derive(Clone, Copy, Debug)]
pub(crate) struct Cut {
    pub(crate) formula: Id,
    pub(crate) boxed: Id,
    pub(crate) implied: Id,
    pub(crate) box_implied: Id,
}

/// The trees that `boxCut` needs.
pub(crate) fn cut_trees<S: Store>(
    alloc: Global,
    store: &mut S,
    boxed: Boxed,
    formula: Id,
) -> Result<Cut, StoreFault>
    requires program { IsId (S.trees store.old) boxed.program }
    requires formula { IsId (S.trees store.old) boxed.formula }
    requires fits { WellMade (box (tree (S.trees store.old) boxed.program) (tree (S.trees store.old) boxed.formula)) }
    requires cut { IsId (S.trees store.old) formula }
    requires is_formula { IsFormula (tree (S.trees store.old) formula) }
    ensures made { IfOk result (AreCutTrees (S.trees store.new) boxed formula) }
    ensures grows { S.grows store.old store.new }
{
    let of_formula = store.make(alloc, Op::Box, &[boxed.program, formula])?;
    let implied = store.make(alloc, Op::Imply, &[formula, boxed.formula])?;
    let box_implied = store.make(alloc, Op::Box, &[boxed.program, implied])?;
    Ok(Cut {
        formula,
        boxed: of_formula,
        implied,
        box_implied,
    })
}

/// The box follows from the box of another formula, and from that one's implying its formula.
pub(crate) fn cutting_box(
    alloc: Global,
    target: Target,
    boxed: Boxed,
    cut: Cut,
) -> Result<Vec<Step>, AllocError>
    requires rows { target.rows < 2 ^ 31 }
    requires goal { target.goal < 2 ^ 31 }
    ensures { IfOk result (λ steps. (trees : List Tree) (s : TreeSequent) → IsId trees boxed.program → IsId trees boxed.formula →
        AreCutTrees trees boxed cut.formula cut →
        ArePlanned trees steps.items
        (cutting_box target.rows (goal_at target s) boxed.place (tree trees boxed.program) (tree trees boxed.formula) (tree trees cut.formula))) }
{
    let now = target.rows;
    let second = target.goal + 1;
    let axiom = name_of(alloc, b"K")?;
    let rule = name_of(alloc, b"G")?;
    let distributes = distributing(alloc, boxed, cut)?;
    let generalizes = implying(alloc, boxed, cut)?;
    let steps = vec![in alloc;
        Step::Axiom(axiom),
        Step::Subst {
            fact: now + 1,
            pairs: distributes
        },
        Step::AxRule(rule),
        Step::Subst {
            fact: now + 3,
            pairs: generalizes
        },
        target.apply(Rule::CutR(boxed.place, cut.boxed)),
        Step::Apply {
            fact: now + 5,
            goal: second,
            rule: Rule::CoHideR(boxed.place)
        },
        Step::Apply {
            fact: now + 6,
            goal: second,
            rule: Rule::CutR(1, cut.box_implied)
        },
        Step::Merge {
            fact: now + 7,
            goal: target.goal + 2,
            by: now + 2
        },
        Step::Merge {
            fact: now + 8,
            goal: second,
            by: now + 4
        },
        Step::Apply {
            fact: now + 9,
            goal: second,
            rule: Rule::ImplyR(1)
        },
    ]?;
    Ok(steps)
}

/// The pairs for the axiom by which a box distributes over an implication.
fn distributing(alloc: Global, boxed: Boxed, cut: Cut) -> Result<Listed<Pair>, AllocError>
    ensures { IfOk result (λ pairs. pairs ≡ (record { sym = program_a; by = boxed.program }) ∷ (record { sym = any_p; by = cut.formula }) ∷
        (record { sym = any_q; by = boxed.formula }) ∷ []) }
{
    let program = pair(alloc, Kind::Prog, b"a", 0, boxed.program)?;
    let from = pair(alloc, Kind::UnitPred, b"p", 0, cut.formula)?;
    let to = pair(alloc, Kind::UnitPred, b"q", 0, boxed.formula)?;
    Ok(Listed::from_vec(vec![in alloc; program, from, to]?))
}

/// The pairs for the rule by which the implication holds behind the program.
fn implying(alloc: Global, boxed: Boxed, cut: Cut) -> Result<Listed<Pair>, AllocError>
    ensures { IfOk result (λ pairs. pairs ≡ (record { sym = program_a; by = boxed.program }) ∷ (record { sym = any_p; by = cut.implied }) ∷ []) }
{
    let program = pair(alloc, Kind::Prog, b"a", 0, boxed.program)?;
    let implied = pair(alloc, Kind::UnitPred, b"p", 0, cut.implied)?;
    Ok(Listed::from_vec(vec![in alloc; program, implied]?))
}

/// The pairs for the rule by which the box's formula is generalized.
fn generalized(alloc: Global, boxed: Boxed) -> Result<Listed<Pair>, AllocError>
    ensures { IfOk result (λ pairs. pairs ≡ (record { sym = program_a; by = boxed.program }) ∷ (record { sym = any_p; by = boxed.formula }) ∷ []) }
{
    let program = pair(alloc, Kind::Prog, b"a", 0, boxed.program)?;
    let formula = pair(alloc, Kind::UnitPred, b"p", 0, boxed.formula)?;
    Ok(Listed::from_vec(vec![in alloc; program, formula]?))
}

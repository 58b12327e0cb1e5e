//! The steps behind the instance of an axiom: the trees that each form needs, and its plan.
ghost use Rattle.std.specs.Prelude.{◌≡◌, ◌<◌, ◌^◌, ℕ, List, [], ◌∷◌, IfOk};
ghost use Rattle.dlk_tree.specs.declared.op.Sort.TheVariants.{Term, Formula};
ghost use Rattle.dlk_tree.specs.Trees.{Tree, sort, kids_of};
ghost use Rattle.dlk_store.specs.Stores.{IsId, tree, StandsFor};
ghost use Rattle.dlk_calculus.specs.declared.form.AxiomForm.TheVariants.{E, Q, C, R, I, F};
ghost use Rattle.dlk_tree.specs.declared.op.Op.TheVariants.{True};
ghost use Rattle.dlk_calculus.specs.Notation.{leaf};
ghost use Rattle.dlk_calculus.specs.Paths.{put_at};
ghost use Rattle.dlk_sequent.specs.Spines.{top, path_of, IsSpine};
ghost use Rattle.dlk_uses.specs.Uses.{left_of, right_of};
ghost use Rattle.dlk_elab.specs.Calls.{direction_of};
ghost use Rattle.dlk_elab.specs.Finishing.{HasForm, FinishUses, AreSides, AreAround, AreEquationTrees};
ghost use Rattle.dlk_elab.specs.Forms.{new_side, AreExchangeTrees, AreEquatedTrees};

use crate::calls::Direction;
use crate::forms::{
    Aim, Equated, Exchanged, by_conditional_equation, by_conditional_equivalence, by_equation,
    by_equivalence, by_fact, by_implication,
};
use dlk_calculus::AxiomForm;
use dlk_calculus::laws::{one_innermost, put_is_there};
use dlk_kernel::Fact;
use dlk_rules::Step;
use dlk_sequent::laws::{spine_leads, spine_parts, spine_stays};
use dlk_sequent::{Place, PutFault, Spine};
use dlk_store::{Id, Steps, Store, StoreFault};
use dlk_tree::Op;
use std::alloc::{AllocError, Global};
use std::sync::ledger::Ledger;

/// The two kids of a node.
#[derive(Clone, Copy, Debug)]
pub(crate) struct Sides {
    pub(crate) left: Id,
    pub(crate) right: Id,
}

/// The ways to the smallest formula round a term, and on to the term.
#[derive(Drop, Debug)]
pub(crate) struct Around {
    pub(crate) outer: Spine,
    pub(crate) inner: Spine,
}

/// The trees for a use of an equation.
#[derive(Clone, Copy, Debug)]
pub(crate) struct Equation {
    pub(crate) equated: Equated,
    pub(crate) exchanged: Exchanged,
}

/// The tree with another one of the same sort at the spine's end.
fn put<S: Store, L: Ledger>(
    alloc: Global,
    store: &mut S,
    spine: &Spine,
    new: Id,
    steps: &mut Steps<L>,
) -> Result<Id, StoreFault>
    requires spine { IsSpine (S.trees store.old) spine.now }
    requires new { IsId (S.trees store.old) new }
    requires sort { sort (tree (S.trees store.old) new) ≡ sort (tree (S.trees store.old) spine.now.found) }
    ensures made { IfOk result (λ id.
        StandsFor (S.trees store.new) id (put_at (tree (S.trees store.old) (top spine.now)) (path_of spine.now) (tree (S.trees store.old) new))) }
    ensures grows { S.grows store.old store.new }
{
    spine_leads();
    match spine.put(alloc, store, new, steps) {
        Ok(id) => Ok(id),
        Err(PutFault::Memory) => Err(StoreFault::Memory),
        Err(PutFault::NoPlace) => unreachable!(),
        Err(PutFault::WrongSort) => unreachable!(),
    }
}

/// The two kids of a node that has two.
fn sides_of<S: Store, L: Ledger>(store: &S, id: Id, steps: &mut Steps<L>) -> Sides
    requires known { IsId (S.trees store.now) id }
    requires two { kids_of (tree (S.trees store.now) id) ≡ left_of (tree (S.trees store.now) id) ∷ right_of (tree (S.trees store.now) id) ∷ [] }
    ensures { AreSides (S.trees store.now) (tree (S.trees store.now) id) result }
{
    let node = store.look(id, steps);
    prove!(node.kids.len() == 2);
    let [left, right] = node.kids else {
        unreachable!();
    };
    Sides {
        left: *left,
        right: *right,
    }
}

/// Of both sides that which comes to stand at the place.
fn other_side(sides: Sides, direction: Direction) -> Id
    ensures known { (trees : List Tree) → IsId trees sides.left → IsId trees sides.right → IsId trees result }
    ensures tree { (trees : List Tree) → tree trees result ≡ new_side (direction_of direction) (tree trees sides.left) (tree trees sides.right) }
{
    match direction {
        Direction::Forwards => sides.right,
        Direction::Backwards => sides.left,
    }
}

/// The trees for an exchange of a formula, which is one side of an equivalence, for the other side.
fn exchanged<S: Store, L: Ledger>(
    alloc: Global,
    store: &mut S,
    spine: &Spine,
    sides: Sides,
    direction: Direction,
    steps: &mut Steps<L>,
) -> Result<Exchanged, StoreFault>
    requires spine { IsSpine (S.trees store.old) spine.now }
    requires left { IsId (S.trees store.old) sides.left }
    requires right { IsId (S.trees store.old) sides.right }
    requires found { sort (tree (S.trees store.old) spine.now.found) ≡ Formula }
    requires first { sort (tree (S.trees store.old) sides.left) ≡ Formula }
    requires second { sort (tree (S.trees store.old) sides.right) ≡ Formula }
    ensures made { IfOk result (AreExchangeTrees (S.trees store.new) (direction_of direction) (tree (S.trees store.old) (top spine.now)) (path_of spine.now)
        (tree (S.trees store.old) sides.left) (tree (S.trees store.old) sides.right)) }
    ensures grows { S.grows store.old store.new }
{
    spine_stays();
    let hole = store.make(alloc, Op::Hole, &[])?;
    let context = put(alloc, store, spine, hole, steps)?;
    let other = other_side(sides, direction);
    let new = put(alloc, store, spine, other, steps)?;
    Ok(Exchanged {
        left: sides.left,
        right: sides.right,
        context,
        new,
    })
}

/// The ways to the smallest formula round what a spine leads to, and on from there.
fn ways_round<S: Store, L: Ledger>(
    alloc: Global,
    store: &S,
    spine: &Spine,
    steps: &mut Steps<L>,
) -> Result<Around, AllocError>
    requires spine { IsSpine (S.trees store.now) spine.now }
    requires formula { sort (tree (S.trees store.now) (top spine.now)) ≡ Formula }
    ensures { IfOk result (AreAround (S.trees store.now) spine.now) }
{
    spine_leads();
    spine_parts();
    one_innermost();
    let Some(smallest) = spine.innermost(store, steps) else {
        unreachable!();
    };
    let outer = spine.outer(alloc, smallest.outer)?;
    let inner = spine.inner(alloc, smallest.outer)?;
    Ok(Around { outer, inner })
}

/// The formula round a term with `._0` in the term's place.
fn equated<S: Store, L: Ledger>(
    alloc: Global,
    store: &mut S,
    inner: &Spine,
    sides: Sides,
    steps: &mut Steps<L>,
) -> Result<Equated, StoreFault>
    requires spine { IsSpine (S.trees store.old) inner.now }
    requires left { IsId (S.trees store.old) sides.left }
    requires right { IsId (S.trees store.old) sides.right }
    requires found { sort (tree (S.trees store.old) inner.now.found) ≡ Term }
    ensures made { IfOk result (AreEquatedTrees (S.trees store.new) (tree (S.trees store.old) (top inner.now)) (path_of inner.now)
        (tree (S.trees store.old) sides.left) (tree (S.trees store.old) sides.right)) }
    ensures grows { S.grows store.old store.new }
{
    spine_stays();
    let dot = store.make(alloc, Op::Dot(0), &[])?;
    let context = put(alloc, store, inner, dot, steps)?;
    Ok(Equated {
        left: sides.left,
        right: sides.right,
        context,
    })
}

/// The formula round a term with either side of an equation in the term's place.
fn with_sides<S: Store, L: Ledger>(
    alloc: Global,
    store: &mut S,
    inner: &Spine,
    sides: Sides,
    steps: &mut Steps<L>,
) -> Result<Sides, StoreFault>
    requires spine { IsSpine (S.trees store.old) inner.now }
    requires left { IsId (S.trees store.old) sides.left }
    requires right { IsId (S.trees store.old) sides.right }
    requires found { sort (tree (S.trees store.old) inner.now.found) ≡ Term }
    requires first { sort (tree (S.trees store.old) sides.left) ≡ Term }
    requires second { sort (tree (S.trees store.old) sides.right) ≡ Term }
    ensures left { IfOk result (λ both.
        StandsFor (S.trees store.new) both.left (put_at (tree (S.trees store.old) (top inner.now)) (path_of inner.now) (tree (S.trees store.old) sides.left))) }
    ensures right { IfOk result (λ both. StandsFor (S.trees store.new) both.right
        (put_at (tree (S.trees store.old) (top inner.now)) (path_of inner.now) (tree (S.trees store.old) sides.right))) }
    ensures grows { S.grows store.old store.new }
{
    spine_stays();
    let left = put(alloc, store, inner, sides.left, steps)?;
    let right = put(alloc, store, inner, sides.right, steps)?;
    Ok(Sides { left, right })
}

/// The trees for an exchange of a term, which is one side of an equation, for the other side.
fn equation_trees<S: Store, L: Ledger>(
    alloc: Global,
    store: &mut S,
    around: &Around,
    sides: Sides,
    direction: Direction,
    steps: &mut Steps<L>,
) -> Result<Equation, StoreFault>
    requires outer { IsSpine (S.trees store.old) around.now.outer }
    requires inner { IsSpine (S.trees store.old) around.now.inner }
    requires joins { tree (S.trees store.old) (top around.now.inner) ≡ tree (S.trees store.old) around.now.outer.found }
    requires formula { sort (tree (S.trees store.old) around.now.outer.found) ≡ Formula }
    requires term { sort (tree (S.trees store.old) around.now.inner.found) ≡ Term }
    requires left { IsId (S.trees store.old) sides.left }
    requires right { IsId (S.trees store.old) sides.right }
    requires first { sort (tree (S.trees store.old) sides.left) ≡ Term }
    requires second { sort (tree (S.trees store.old) sides.right) ≡ Term }
    ensures made { IfOk result (AreEquationTrees (S.trees store.new) (direction_of direction) (tree (S.trees store.old) (top around.now.outer))
        (path_of around.now.outer) (path_of around.now.inner) (tree (S.trees store.old) around.now.outer.found) (tree (S.trees store.old) sides.left)
        (tree (S.trees store.old) sides.right)) }
    ensures grows { S.grows store.old store.new }
{
    spine_stays();
    spine_leads();
    put_is_there();
    let equated = equated(alloc, store, &around.inner, sides, steps)?;
    let both = with_sides(alloc, store, &around.inner, sides, steps)?;
    let exchanged = exchanged(alloc, store, &around.outer, both, direction, steps)?;
    Ok(Equation { equated, exchanged })
}

/// The steps behind an equivalence.
fn finish_equivalence<S: Store, L: Ledger>(
    alloc: Global,
    store: &mut S,
    now: Fact,
    aim: Aim,
    spine: &Spine,
    f: Id,
    steps: &mut Steps<L>,
) -> Result<Vec<Step>, StoreFault>
    requires now { now < 2 ^ 31 }
    requires goal { aim.spot.goal < 2 ^ 31 }
    requires right { aim.spot.right < 2 ^ 31 }
    requires spine { IsSpine (S.trees store.old) spine.now }
    requires instance { IsId (S.trees store.old) f }
    requires form { HasForm E aim.place (tree (S.trees store.old) spine.now.found) (tree (S.trees store.old) f) }
    ensures made { IfOk result (λ made.
        FinishUses (S.trees store.new) now aim E (path_of spine.now) (tree (S.trees store.old) (top spine.now)) (tree (S.trees store.old) f) made.items) }
    ensures grows { S.grows store.old store.new }
{
    let sides = sides_of(store, f, steps);
    let x = exchanged(alloc, store, spine, sides, aim.direction, steps)?;
    let made = by_equivalence(alloc, now, aim, x)?;
    Ok(made)
}

/// The steps behind an equation.
fn finish_equation<S: Store, L: Ledger>(
    alloc: Global,
    store: &mut S,
    now: Fact,
    aim: Aim,
    spine: &Spine,
    f: Id,
    steps: &mut Steps<L>,
) -> Result<Vec<Step>, StoreFault>
    requires now { now < 2 ^ 31 }
    requires goal { aim.spot.goal < 2 ^ 31 }
    requires right { aim.spot.right < 2 ^ 31 }
    requires spine { IsSpine (S.trees store.old) spine.now }
    requires formula { sort (tree (S.trees store.old) (top spine.now)) ≡ Formula }
    requires instance { IsId (S.trees store.old) f }
    requires form { HasForm Q aim.place (tree (S.trees store.old) spine.now.found) (tree (S.trees store.old) f) }
    ensures made { IfOk result (λ made.
        FinishUses (S.trees store.new) now aim Q (path_of spine.now) (tree (S.trees store.old) (top spine.now)) (tree (S.trees store.old) f) made.items) }
    ensures grows { S.grows store.old store.new }
{
    let sides = sides_of(store, f, steps);
    let around = ways_round(alloc, store, spine, steps)?;
    let x = equation_trees(alloc, store, &around, sides, aim.direction, steps)?;
    let made = by_equation(alloc, now, aim, x.equated, x.exchanged)?;
    Ok(made)
}

/// The steps behind an equation under a condition.
fn finish_conditional_equation<S: Store, L: Ledger>(
    alloc: Global,
    store: &mut S,
    now: Fact,
    aim: Aim,
    spine: &Spine,
    f: Id,
    steps: &mut Steps<L>,
) -> Result<Vec<Step>, StoreFault>
    requires now { now < 2 ^ 31 }
    requires goal { aim.spot.goal < 2 ^ 31 }
    requires right { aim.spot.right < 2 ^ 31 }
    requires spine { IsSpine (S.trees store.old) spine.now }
    requires formula { sort (tree (S.trees store.old) (top spine.now)) ≡ Formula }
    requires instance { IsId (S.trees store.old) f }
    requires form { HasForm R aim.place (tree (S.trees store.old) spine.now.found) (tree (S.trees store.old) f) }
    ensures made { IfOk result (λ made.
        FinishUses (S.trees store.new) now aim R (path_of spine.now) (tree (S.trees store.old) (top spine.now)) (tree (S.trees store.old) f) made.items) }
    ensures grows { S.grows store.old store.new }
{
    let whole = sides_of(store, f, steps);
    let sides = sides_of(store, whole.right, steps);
    let around = ways_round(alloc, store, spine, steps)?;
    let x = equation_trees(alloc, store, &around, sides, aim.direction, steps)?;
    let made = by_conditional_equation(
        alloc,
        now,
        aim,
        whole.left,
        whole.right,
        x.equated,
        x.exchanged,
    )?;
    Ok(made)
}

/// The steps behind an equivalence under a condition.
fn finish_conditional_equivalence<S: Store, L: Ledger>(
    alloc: Global,
    store: &S,
    now: Fact,
    aim: Aim,
    f: Id,
    steps: &mut Steps<L>,
) -> Result<Vec<Step>, StoreFault>
    requires now { now < 2 ^ 31 }
    requires goal { aim.spot.goal < 2 ^ 31 }
    requires instance { IsId (S.trees store.now) f }
    requires form { (found : Tree) → HasForm C aim.place found (tree (S.trees store.now) f) }
    ensures { IfOk result (λ made. (path : List ℕ) (e : Tree) → FinishUses (S.trees store.now) now aim C path e (tree (S.trees store.now) f) made.items) }
{
    let Place::Succ(j) = aim.place else {
        unreachable!();
    };
    let whole = sides_of(store, f, steps);
    let sides = sides_of(store, whole.right, steps);
    let made = by_conditional_equivalence(alloc, now, aim.spot, j, f, whole.left, sides.right)?;
    Ok(made)
}

/// The steps behind an implication.
fn finish_implication<S: Store, L: Ledger>(
    alloc: Global,
    store: &S,
    now: Fact,
    aim: Aim,
    f: Id,
    steps: &mut Steps<L>,
) -> Result<Vec<Step>, StoreFault>
    requires now { now < 2 ^ 31 }
    requires goal { aim.spot.goal < 2 ^ 31 }
    requires right { aim.spot.right < 2 ^ 31 }
    requires instance { IsId (S.trees store.now) f }
    requires form { (found : Tree) → HasForm I aim.place found (tree (S.trees store.now) f) }
    ensures { IfOk result (λ made. (path : List ℕ) (e : Tree) → FinishUses (S.trees store.now) now aim I path e (tree (S.trees store.now) f) made.items) }
{
    let sides = sides_of(store, f, steps);
    let made = by_implication(alloc, now, aim.spot, aim.place, sides.left, sides.right)?;
    Ok(made)
}

/// The step behind any other formula.
fn finish_fact(alloc: Global, now: Fact, aim: Aim) -> Result<Vec<Step>, StoreFault>
    requires now { now < 2 ^ 31 }
    requires place { HasForm F aim.place (leaf True) (leaf True) }
    ensures { IfOk result (λ made. (trees : List Tree) (path : List ℕ) (e f : Tree) → FinishUses trees now aim F path e f made.items) }
{
    let Place::Succ(j) = aim.place else {
        unreachable!();
    };
    let made = by_fact(alloc, now, aim.spot, j)?;
    Ok(made)
}

/// The steps behind the instance f of an axiom of this form, which the row `now` proves: they use it on the tree at the spine's end.
pub(crate) fn finish<S: Store, L: Ledger>(
    alloc: Global,
    store: &mut S,
    now: Fact,
    aim: Aim,
    form: AxiomForm,
    spine: &Spine,
    f: Id,
    steps: &mut Steps<L>,
) -> Result<Vec<Step>, StoreFault>
    requires now { now < 2 ^ 31 }
    requires goal { aim.spot.goal < 2 ^ 31 }
    requires right { aim.spot.right < 2 ^ 31 }
    requires spine { IsSpine (S.trees store.old) spine.now }
    requires formula { sort (tree (S.trees store.old) (top spine.now)) ≡ Formula }
    requires instance { IsId (S.trees store.old) f }
    requires form { HasForm form aim.place (tree (S.trees store.old) spine.now.found) (tree (S.trees store.old) f) }
    ensures made { IfOk result (λ made.
        FinishUses (S.trees store.new) now aim form (path_of spine.now) (tree (S.trees store.old) (top spine.now)) (tree (S.trees store.old) f) made.items) }
    ensures grows { S.grows store.old store.new }
{
    match form {
        AxiomForm::E => finish_equivalence(alloc, store, now, aim, spine, f, steps),
        AxiomForm::Q => finish_equation(alloc, store, now, aim, spine, f, steps),
        AxiomForm::C => finish_conditional_equivalence(alloc, store, now, aim, f, steps),
        AxiomForm::R => finish_conditional_equation(alloc, store, now, aim, spine, f, steps),
        AxiomForm::I => finish_implication(alloc, store, now, aim, f, steps),
        AxiomForm::F => finish_fact(alloc, now, aim),
    }
}

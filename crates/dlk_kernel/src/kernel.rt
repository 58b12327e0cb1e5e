use crate::fault::StepFault;
use crate::named::Named;
use crate::row::Row;
use crate::steps::give;
use dlk_calculus::{MOST_ROWS, Reason};
use dlk_rules::Step;
use dlk_sequent::{Sequent, Shared};
use dlk_store::{Id, Listing, Node, Steps, Store, StoreFault, Which};
use dlk_tree::{Op, Sym, Var};
use std::alloc::Global;
use std::marker::Model;
use std::sync::ledger::Ledger;

/// The number of a row, from 1 on.
pub type Fact = u32;

/// A store, in which a tree has at most one id, and the rows of a proof. Each row is a provable that the calculus derives: only
/// `step` makes rows, and the type keeps that each is given by a step from those before it.
///
/// Contracts see a kernel as its store and its rows, and by `facts` as the list of what the rows stand for.
#[derive(Drop)]
pub struct Kernel<S: Store> {
    store: S,
    rows: Vec<Row>,
    named: Named,
}

impl<S: Store> Model for Kernel<S> {
    ghost use Rattle.dlk_kernel.specs.Kernel.{State};
    ghost use Rattle.dlk_kernel.specs.Sound.{IsSound};

    ghost Value = { State S };

    ghost view = { λ k. record { store = k.store; rows = k.rows.items } };

    ghost invariant = { λ k. IsSound S.unique (S.trees k.store) k.rows.items k.named };
}

impl<S: Store> Kernel<S> {
    ghost use Rattle.std.specs.Prelude.{◌≡◌, ◌≤◌, [], length, map, take, All, IsTrue, IfOk, OnOk, IfErr, OnErr};
    ghost use Rattle.dlk_calculus.specs.Places.{At, IsPlace};
    ghost use Rattle.dlk_calculus.specs.Sequents.{IsSequent};
    ghost use Rattle.dlk_calculus.specs.Provables.{Provable, HasFormulas, HasLeaves};
    ghost use Rattle.dlk_calculus.specs.Limits.{most_rows};
    ghost use Rattle.dlk_calculus.specs.Limited.{IsLimited, IsLimitedSequent};
    ghost use Rattle.dlk_calculus.specs.Steps.{Derives, Adds, Fault};
    ghost use Rattle.dlk_sequent.specs.Sequents.{sequent_at, IsKnown};
    ghost use Rattle.dlk_rules.specs.Steps.{step_at, HasKnownIds};
    ghost use Rattle.dlk_kernel.specs.Faults.{IsStepFault};
    ghost use Rattle.dlk_kernel.specs.Kernel.{facts, provable_at, IsKnownRow, SameRows, ExtendsRows};
    ghost use Rattle.dlk_kernel.specs.Looks.{LooksAtFew};

    /// A kernel without rows over a store, in which a tree has at most one id.
    pub fn new(alloc: Global, store: S) -> Self
        requires { IsTrue S.unique }
        ensures rows { result.rows ≡ [] }
        ensures store { result.store ≡ store }
    {
        Kernel {
            store,
            rows: Vec::new(alloc),
            named: Named::new(alloc),
        }
    }

    /// How many rows there are, which is the last one's number: at most 400,000. Each stands for a provable that the calculus
    /// derives, within the limits: at most 256 goals and 1,024 leaves, sequents of at most 256 formulas on a side, formulas
    /// of at most 65,536 nodes and a depth of at most 1,000.
    pub fn rows(&self) -> u32
        ensures count { result ≡ length self.now.rows }
        ensures few { result ≤ most_rows }
        ensures derived { All Derives (facts S.trees self.now) }
        ensures limited { All IsLimited (facts S.trees self.now) }
        ensures unique { IsTrue S.unique }
    {
        self.rows.len() as u32
    }

    /// The row of a fact.
    fn row(&self, fact: Fact) -> &Row
        requires { IsPlace self.now.rows fact }
        ensures fact { At (facts S.trees self.now) fact (provable_at (S.trees self.now.store) result.now) }
        ensures known { IsKnownRow (S.trees self.now.store) result.now }
        ensures derived { Derives (provable_at (S.trees self.now.store) result.now) }
        ensures formulas { HasFormulas (provable_at (S.trees self.now.store) result.now) }
    {
        &self.rows[fact as usize - 1]
    }

    /// The conclusion of a fact, which is a row's number from 1 to `rows()`: a sequent of formulas.
    pub fn conclusion(&self, fact: Fact) -> &Sequent
        requires { IsPlace self.now.rows fact }
        ensures conclusion { (p : Provable) → At (facts S.trees self.now) fact p → p.conclusion ≡ sequent_at (S.trees self.now.store) result.now }
        ensures derived { (p : Provable) → At (facts S.trees self.now) fact p → Derives p }
        ensures known { IsKnown (S.trees self.now.store) result.now }
        ensures formulas { IsSequent (sequent_at (S.trees self.now.store) result.now) }
    {
        self.row(fact).conclusion.value()
    }

    /// The goals of a fact, which is a row's number from 1 to `rows()`: the sequents that are left to be proved.
    pub fn goals(&self, fact: Fact) -> &[Shared<Sequent>]
        requires { IsPlace self.now.rows fact }
        ensures goals { (p : Provable) → At (facts S.trees self.now) fact p → p.goals ≡ map (sequent_at (S.trees self.now.store)) result.now }
        ensures derived { (p : Provable) → At (facts S.trees self.now) fact p → Derives p }
        ensures known { All (IsKnown (S.trees self.now.store)) result.now }
        ensures formulas { All (λ s. IsSequent (sequent_at (S.trees self.now.store) s)) result.now }
    {
        self.row(fact).goals.as_slice()
    }

    /// The leaves of a fact, which is a row's number from 1 to `rows()`: the sequents of arithmetic that it rests on, none of them
    /// twice.
    pub fn leaves(&self, fact: Fact) -> &[Shared<Sequent>]
        requires { IsPlace self.now.rows fact }
        ensures leaves { (p : Provable) → At (facts S.trees self.now) fact p → p.leaves ≡ map (sequent_at (S.trees self.now.store)) result.now }
        ensures derived { (p : Provable) → At (facts S.trees self.now) fact p → Derives p }
        ensures known { All (IsKnown (S.trees self.now.store)) result.now }
        ensures formulas { All (λ s. IsSequent (sequent_at (S.trees self.now.store) s)) result.now }
        ensures arithmetic { (p : Provable) → At (facts S.trees self.now) fact p → HasLeaves p }
    {
        self.row(fact).leaves.value().as_slice()
    }

    /// Takes a step: the row that it gives comes last, and its number is answered. The ids of the step are those of this
    /// kernel's store. After a fault the rows are as they were. A substitution takes at most two looks at nodes a pair, and beside them
    /// `n * (1 + m)` for each formula of the fact's conclusion and goals, with `n` unlike subtrees of the formula and `m` of all
    /// replacements.
    ///
    /// # Errors
    ///
    /// - `Refused`: it is no step of the calculus, or it passes a limit. The first reason against it is answered, in this order:
    ///   - `NoFact`: the number of a fact is that of no row.
    ///   - `NoGoal`: the number of a goal is that of no goal of the fact.
    ///   - `UnknownName`: no axiom, or no axiomatic rule, has the name.
    ///   - `NoPlace`: a place of the rule isn't there.
    ///   - `WrongShape`: a formula hasn't the form that the rule wants, or a given formula can't stand in a sequent.
    ///   - `NotEqual`: two formulas that the rule wants to be the same are not, or the goal isn't the conclusion of the fact
    ///     that is merged into it.
    ///   - `NotFresh`: a variable that the rule wants to be fresh is not, or a symbol that may read variables that aren't
    ///     written with it stands in what it binds.
    ///   - `NotArith`: a leaf is no sequent of arithmetic.
    ///   - `IllSubst`: the pairs of a substitution are not well formed.
    ///   - `FreeInSubst`: a variable is free in the replacement of a function or a predicate, and the fact has a goal.
    ///   - `NotAdmissible`: the substitution makes nothing of the conclusion or of a goal.
    ///   - `TooBig`: a formula that is given or made, or a replacement, has more than 65,536 nodes.
    ///   - `TooDeep`: one of these is deeper than 1,000.
    ///   - `SideFull`: a side of a new sequent has more than 256 formulas.
    ///   - `GoalsFull`: there would be more than 256 goals.
    ///   - `LeavesFull`: there would be more than 1,024 leaves.
    ///   - `LinesFull`: there are 400,000 rows.
    /// - `Memory`: for want of memory.
    pub fn step<L: Ledger>(
        &mut self,
        alloc: Global,
        step: &Step,
        steps: &mut Steps<L>,
    ) -> Result<Fact, StepFault>
        requires { HasKnownIds (S.trees self.old.store) step.now }

        // The provable that the calculus gives comes last.
        ensures ok { OnOk result (Adds (facts S.trees self.old) (step_at (S.trees self.old.store) step.now) (facts S.trees self.new)) }
        ensures kept { OnOk result (ExtendsRows S.trees self.old self.new) }
        ensures fact { IfOk result (λ fact. fact ≡ length self.new.rows) }

        // Want of memory aside, a refusal is the fault of the step.
        ensures fault { IfErr result (IsStepFault (Fault (facts S.trees self.old) (step_at (S.trees self.old.store) step.now))) }
        ensures err { OnErr result (SameRows S.trees self.old self.new) }

        // A substitution looks at few nodes, whatever comes of it.
        ensures looks { LooksAtFew (facts S.trees self.old) (step_at (S.trees self.old.store) step.now) steps.old steps.new }

        ensures grows { S.grows self.old.store self.new.store }
    {
        let row = give(
            alloc,
            &mut self.store,
            &mut self.named,
            self.rows.as_slice(),
            step,
            steps,
        )?;
        if self.rows.len() >= MOST_ROWS {
            return Err(StepFault::Refused(Reason::LinesFull));
        }
        self.rows.push(row)?;
        Ok(self.rows.len() as u32)
    }

    /// The number of rows, to which `release` can go back.
    pub fn mark(&self) -> u32
        ensures { result ≡ length self.now.rows }
    {
        self.rows.len() as u32
    }

    /// Drops the rows past a mark, which is at most `rows()`.
    pub fn release(&mut self, mark: u32)
        requires { mark ≤ length self.old.rows }
        ensures rows { self.new.rows ≡ take mark self.old.rows }
        ensures store { self.new.store ≡ self.old.store }
    {
        self.rows.truncate(mark as usize);
    }
}

/// A kernel answers as its own store does.
impl<S: Store> Store for Kernel<S> {
    ghost use Rattle.std.proofs.Common.{refl, ◌∙◌};
    ghost use Rattle.dlk_kernel.specs.Kernel.{SameRows};

    ghost trees = { λ k. S.trees k.store };

    ghost unique = { S.unique };

    // The store grows, and the rows stay.
    ghost grows = { λ j k. S.grows j.store k.store × SameRows S.trees j k };

    fn make(&mut self, alloc: Global, op: Op, kids: &[Id]) -> Result<Id, StoreFault> {
        self.store.make(alloc, op, kids)
    }

    fn make_like(&mut self, alloc: Global, like: Id, kids: &[Id]) -> Result<Id, StoreFault> {
        self.store.make_like(alloc, like, kids)
    }

    fn look<L: Ledger>(&self, id: Id, steps: &mut Steps<L>) -> Node<'_> {
        self.store.look(id, steps)
    }

    fn same(&self, a: Id, b: Id) -> bool {
        self.store.same(a, b)
    }

    fn size(&self, id: Id) -> u32 {
        self.store.size(id)
    }

    fn depth(&self, id: Id) -> u32 {
        self.store.depth(id)
    }

    fn frees(&self, id: Id, v: &Var) -> bool {
        self.store.frees(id, v)
    }

    fn binds(&self, id: Id, v: &Var) -> bool {
        self.store.binds(id, v)
    }

    fn must(&self, id: Id, v: &Var) -> bool {
        self.store.must(id, v)
    }

    fn mentions(&self, id: Id, s: &Sym) -> bool {
        self.store.mentions(id, s)
    }

    fn has_dot(&self, id: Id, n: u8) -> bool {
        self.store.has_dot(id, n)
    }

    fn has_hole(&self, id: Id) -> bool {
        self.store.has_hole(id)
    }

    fn any_free(&self, id: Id) -> bool {
        self.store.any_free(id)
    }

    fn free_meets_bound(&self, e: Id, a: Id) -> bool {
        self.store.free_meets_bound(e, a)
    }

    fn list(&self, alloc: Global, id: Id, which: Which) -> Result<Listing, StoreFault> {
        self.store.list(alloc, id, which)
    }

    fn symbols(&self, alloc: Global, id: Id) -> Result<Vec<Sym>, StoreFault> {
        self.store.symbols(alloc, id)
    }

    ghost grows_refl = { λ a. (S.grows_refl a.store, record { ids = refl; provables = refl }) };

    ghost grows_trans = { λ a b c p q.
        (S.grows_trans a.store b.store c.store p.0 q.0, record { ids = q.1.ids ∙ p.1.ids; provables = q.1.provables ∙ p.1.provables }) };

    ghost grows_keeps = { λ a b p. S.grows_keeps a.store b.store p.0 };

    ghost well_made = { λ k. S.well_made k.store };

    ghost one_id = { λ h k. S.one_id h k.store };
}

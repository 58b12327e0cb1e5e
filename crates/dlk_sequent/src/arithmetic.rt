//! Sequents of arithmetic.
ghost use Rattle.std.specs.Prelude.{◌≡◌, All, map};
ghost use Rattle.std.specs.List.{list_all};
ghost use Rattle.dlk_store.specs.Stores.{IsId, tree};
ghost use Rattle.dlk_calculus.specs.Arithmetic.{is_arithmetic, is_comparison, is_arithmetic_tree, is_arithmetic_sequent};
ghost use Rattle.dlk_sequent.specs.Sequents.{sequent_at, IsKnown};

use crate::sequent::Sequent;
use dlk_store::{Id, Steps, Store};
use dlk_tree::Op;
use std::sync::ledger::Ledger;

fn is_arithmetic(op: &Op) -> bool
    ensures { result ≡ is_arithmetic op.now }
{
    match op {
        Op::Variable(_)
        | Op::Number(_)
        | Op::Neg
        | Op::Add
        | Op::Sub
        | Op::Mul
        | Op::Div
        | Op::Pow
        | Op::True
        | Op::False
        | Op::Eq
        | Op::Ne
        | Op::Ge
        | Op::Gt
        | Op::Le
        | Op::Lt
        | Op::Not
        | Op::Forall(_)
        | Op::Exists(_)
        | Op::And
        | Op::Or
        | Op::Imply
        | Op::Equiv => true,
        Op::Apply(s) => s.arity == 0,
        Op::Dot(_)
        | Op::UnitFun(_)
        | Op::Diff
        | Op::Hole
        | Op::UnitPred(_)
        | Op::Holds(_)
        | Op::Predicational(_)
        | Op::DiffF
        | Op::Box
        | Op::Dia
        | Op::Const(_)
        | Op::Assign(_)
        | Op::Any(_)
        | Op::Test
        | Op::System(_)
        | Op::Choice
        | Op::Seq
        | Op::Loop => false,
    }
}

/// Whether the operator is one of `=`, `!=`, `>=`, `>`, `<=` and `<`.
pub fn is_comparison(op: &Op) -> bool
    ensures { result ≡ is_comparison op.now }
{
    matches!(op, Op::Eq | Op::Ne | Op::Ge | Op::Gt | Op::Le | Op::Lt)
}

/// Whether each operator of the tree is one of arithmetic.
fn is_arithmetic_tree<S: Store, L: Ledger>(store: &S, id: Id, steps: &mut Steps<L>) -> bool
    requires { IsId (S.trees store.now) id }
    ensures { result ≡ is_arithmetic_tree (tree (S.trees store.now) id) }
{
    let node = store.look(id, steps);
    if !is_arithmetic(node.op) {
        return false;
    }
    for kid in node.kids {
        if !is_arithmetic_tree(store, *kid, steps) {
            return false;
        }
    }
    true
}

fn are_arithmetic_trees<S: Store, L: Ledger>(store: &S, ids: &[Id], steps: &mut Steps<L>) -> bool
    requires { All (IsId (S.trees store.now)) ids.now }
    ensures { result ≡ list_all is_arithmetic_tree (map (tree (S.trees store.now)) ids.now) }
{
    for id in ids {
        if !is_arithmetic_tree(store, *id, steps) {
            return false;
        }
    }
    true
}

/// Whether the sequent is one of arithmetic, on which a proof may rest: each formula has only variables (primed or not), numbers,
/// functions without arguments, the operators `+ - * / ^`, comparisons, `true`, `false`, connectives and quantifiers.
pub fn is_arith<S: Store, L: Ledger>(store: &S, s: &Sequent, steps: &mut Steps<L>) -> bool
    requires { IsKnown (S.trees store.now) s.now }
    ensures { result ≡ is_arithmetic_sequent (sequent_at (S.trees store.now) s.now) }
{
    are_arithmetic_trees(store, s.ante.as_slice(), steps)
        && are_arithmetic_trees(store, s.succ.as_slice(), steps)
}

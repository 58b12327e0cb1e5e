//! Another name for a bound variable.
ghost use Rattle.std.specs.Prelude.{◌≡◌, IfOk, IfErr, IsTrue, MatchOption};
ghost use Rattle.dlk_tree.specs.Names.{is_name};
ghost use Rattle.dlk_tree.specs.Trees.{sort};
ghost use Rattle.dlk_tree.specs.declared.op.Sort.TheVariants.{Term, Formula};
ghost use Rattle.dlk_store.specs.Stores.{IsId, tree, StandsFor};
ghost use Rattle.dlk_calculus.specs.Notation.{assign};
ghost use Rattle.dlk_rename.specs.Bindings.{formed, IsForm, IsAssignment, AssignsNone, IsBinding, BindsNone, IsRenamed};
ghost use Rattle.dlk_rename.specs.Faults.{IsRenameFault};

use crate::exchange::swap;
use crate::fault::RenameFault;
use crate::fresh::may_rename;
use dlk_store::{Id, Steps, Store, StoreFault};
use dlk_tree::{Name, Op, Var};
use std::alloc::{AllocError, Global};
use std::sync::ledger::Ledger;

/// The forms of a formula that binds a variable which can have another name; with the term of an assignment.
#[derive(Clone, Copy)]
enum Form {
    /// `\forall x f`
    Forall,
    /// `\exists x f`
    Exists,
    /// `[x:=e;]f`
    Box(Id),
    /// `<x:=e;>f`
    Dia(Id),
}

/// A program that assigns a term to a variable without a prime.
#[derive(Drop)]
struct Assignment {
    name: Name,
    term: Id,
}

/// What a formula binds outermost, and the formula in which it is bound.
#[derive(Drop)]
struct Binding {
    form: Form,
    name: Name,
    body: Id,
}

/// The assignment that the program is, if it is one to a variable without a prime.
fn read_assignment<S: Store, L: Ledger>(
    store: &S,
    program: Id,
    steps: &mut Steps<L>,
) -> Result<Option<Assignment>, AllocError>
    requires { IsId (S.trees store.now) program }
    ensures { IfOk result (λ found.
        MatchOption found (AssignsNone (tree (S.trees store.now) program)) (IsAssignment (S.trees store.now) (tree (S.trees store.now) program))) }
{
    let node = store.look(program, steps);
    match node.op {
        Op::Assign(v) if !v.primed => {
            let name = v.name.clone()?;
            Ok(Some(Assignment {
                name,
                term: node.kids[0],
            }))
        }
        _ => Ok(None),
    }
}

/// What the formula binds outermost, if it can have another name.
fn read_binding<S: Store, L: Ledger>(
    store: &S,
    id: Id,
    steps: &mut Steps<L>,
) -> Result<Option<Binding>, AllocError>
    requires { IsId (S.trees store.now) id }
    ensures { IfOk result (λ found. MatchOption found (BindsNone (tree (S.trees store.now) id)) (IsBinding (S.trees store.now) (tree (S.trees store.now) id))) }
{
    let node = store.look(id, steps);
    match node.op {
        Op::Forall(x) => {
            let name = x.clone()?;
            Ok(Some(Binding {
                form: Form::Forall,
                name,
                body: node.kids[0],
            }))
        }
        Op::Exists(x) => {
            let name = x.clone()?;
            Ok(Some(Binding {
                form: Form::Exists,
                name,
                body: node.kids[0],
            }))
        }
        Op::Box => {
            let Some(a) = read_assignment(store, node.kids[0], steps)? else {
                return Ok(None);
            };
            Ok(Some(Binding {
                form: Form::Box(a.term),
                name: a.name,
                body: node.kids[1],
            }))
        }
        Op::Dia => {
            let Some(a) = read_assignment(store, node.kids[0], steps)? else {
                return Ok(None);
            };
            Ok(Some(Binding {
                form: Form::Dia(a.term),
                name: a.name,
                body: node.kids[1],
            }))
        }
        _ => Ok(None),
    }
}

/// The assignment of the term to the variable of this name.
fn make_assignment<S: Store>(
    alloc: Global,
    store: &mut S,
    name: &Name,
    term: Id,
) -> Result<Id, StoreFault>
    requires name { IsTrue (is_name name.now) }
    requires known { IsId (S.trees store.old) term }
    requires term { sort (tree (S.trees store.old) term) ≡ Term }
    ensures made { IfOk result (λ made. StandsFor (S.trees store.new) made (assign name.now (tree (S.trees store.old) term))) }
    ensures grows { S.grows store.old store.new }
{
    let op = Op::Assign(Var::plain(name.clone()?));
    store.make(alloc, op, &[term])
}

/// The formula of this form that binds the variable of this name over the body.
fn make_formula<S: Store>(
    alloc: Global,
    store: &mut S,
    form: Form,
    name: &Name,
    body: Id,
) -> Result<Id, StoreFault>
    requires name { IsTrue (is_name name.now) }
    requires form { IsForm (S.trees store.old) form }
    requires body { IsId (S.trees store.old) body }
    requires formula { sort (tree (S.trees store.old) body) ≡ Formula }
    ensures made { IfOk result (λ made. StandsFor (S.trees store.new) made (formed (S.trees store.old) form name.now (tree (S.trees store.old) body))) }
    ensures grows { S.grows store.old store.new }
{
    match form {
        Form::Forall => store.make(alloc, Op::Forall(name.clone()?), &[body]),
        Form::Exists => store.make(alloc, Op::Exists(name.clone()?), &[body]),
        Form::Box(term) => {
            let program = make_assignment(alloc, store, name, term)?;
            store.make(alloc, Op::Box, &[program, body])
        }
        Form::Dia(term) => {
            let program = make_assignment(alloc, store, name, term)?;
            store.make(alloc, Op::Dia, &[program, body])
        }
    }
}

/// The formula with `y` for the variable x that it binds outermost, where it is `\forall x f`, `\exists x f`, `[x:=e;]f` or
/// `<x:=e;>f` (bound renaming): the two are exchanged in the binder and in f, and e stays.
///
/// # Errors
///
/// The first of these that applies, or `Memory`; the store may have more nodes then:
///
/// - `WrongShape`: exactly where the formula has none of these forms.
/// - `NotFresh`: exactly where it has, and `y`, `y'` or `x'` is free in f, or a unit symbol, a predicational, a program constant or
///   an ODE constant occurs in f.
pub fn bound<S: Store, L: Ledger>(
    alloc: Global,
    store: &mut S,
    id: Id,
    y: &Name,
    steps: &mut Steps<L>,
) -> Result<Id, RenameFault>
    requires { IsId (S.trees store.old) id }
    ensures made { IfOk result (IsRenamed y.now (tree (S.trees store.old) id) (S.trees store.new)) }
    ensures fault { IfErr result (IsRenameFault y.now (tree (S.trees store.old) id)) }
    ensures grows { S.grows store.old store.new }
{
    prove!(y.is_name());
    let Some(b) = read_binding(store, id, steps)? else {
        return Err(RenameFault::WrongShape);
    };
    if !may_rename(alloc, store, &b.name, y, b.body)? {
        return Err(RenameFault::NotFresh);
    }
    let swapped = swap(alloc, store, b.body, &b.name, y, steps)?;
    Ok(make_formula(alloc, store, b.form, y, swapped)?)
}

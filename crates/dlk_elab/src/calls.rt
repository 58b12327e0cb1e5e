//! Atoms by their names and arguments.
ghost use Rattle.std.specs.Prelude.{◌≡◌, ◌≢◌, ℕ, List, [], ◌∷◌, None, IfSome, IfNone};
ghost use Rattle.dlk_tree.specs.Trees.{Tree};
ghost use Rattle.dlk_tacsyn.specs.Rows.{IsFitting};
ghost use Rattle.dlk_tacsyn.specs.Ties.{atom_at, AtomIsKnown};
ghost use Rattle.dlk_elab.specs.Atoms.{HasNoLocator};
ghost use Rattle.dlk_elab.specs.Calls.{SaysUse, IsUseCall, HasNoUse, IsCall, CallIsKnown};

use dlk_sequent::{Extra, Place};
use dlk_store::Id;
use dlk_tacsyn::{Arg, Atom};
use dlk_tree::Name;

/// Which side of an axiom is looked for.
#[derive(Clone, Copy, Debug, PartialEq, Eq)]
pub(crate) enum Direction {
    Forwards,
    Backwards,
}

/// What an atom that uses an axiom says.
#[derive(Clone, Copy)]
pub(crate) struct UseCall<'a> {
    pub(crate) name: &'a Name,
    pub(crate) direction: Direction,
    pub(crate) place: Place,
    pub(crate) path: &'a [u32],
    pub(crate) given: Option<&'a Extra>,
}

/// What an atom says.
#[derive(Clone, Copy)]
pub(crate) enum Call<'a> {
    /// It is one for a rule, or has no arguments.
    Plain,
    /// `G`, with its place.
    Generalize(&'a Arg),
    /// `boxCut`, with its formula and its place.
    CutBox(Id, &'a Arg),
    Use(UseCall<'a>),
}

/// The arguments of `G`.
fn generalize_call(args: &[Arg]) -> Option<&Arg>
    ensures found { IfSome result (λ at. args.now ≡ at.now ∷ []) }
    ensures none { IfNone result ((a : Arg) → args.now ≢ a ∷ []) }
{
    let [at] = args else {
        return None;
    };
    Some(at)
}

/// The arguments of `boxCut`.
fn cut_box_call(args: &[Arg]) -> Option<(Id, &Arg)>
    ensures found { IfSome result (λ p. args.now ≡ Arg.Formula p.0 ∷ p.1.now ∷ []) }
    ensures none { IfNone result ((h : Id) (a : Arg) → args.now ≢ Arg.Formula h ∷ a ∷ []) }
{
    let [quoted, at] = args else {
        return None;
    };
    let Arg::Formula(h) = quoted else {
        return None;
    };
    Some((*h, at))
}

/// The arguments of a use without what may be given beside them.
fn plain_use<'a>(direction: Direction, named: &'a Arg, at: &'a Arg) -> Option<UseCall<'a>>
    ensures found { IfSome result (λ u. SaysUse direction named.now at.now u × (u.given ≡ None)) }
    ensures none { IfNone result ((y : List ℕ) (place : Place) (path : List ℕ) → ¬ ((named.now ≡ Arg.Word y) × (at.now ≡ Arg.At place path))) }
{
    let Arg::Word(name) = named else {
        return None;
    };
    let Arg::At { place, path } = at else {
        return None;
    };
    Some(UseCall {
        name,
        direction,
        place: *place,
        path: path.as_slice(),
        given: None,
    })
}

/// The arguments of a use.
fn use_call(direction: Direction, args: &[Arg]) -> Option<UseCall<'_>>
    ensures found { IfSome result (λ u. IsUseCall direction args.now u) }
    ensures none { IfNone result (HasNoUse args.now) }
{
    if let [named, at] = args {
        return plain_use(direction, named, at);
    }
    let [named, at, more] = args else {
        return None;
    };
    let Arg::With(extra) = more else {
        return None;
    };
    let call = plain_use(direction, named, at)?;
    Some(UseCall {
        given: Some(extra),
        ..call
    })
}

/// What a fitting atom without a locator says.
pub(crate) fn call_of(atom: &Atom) -> Call<'_>
    ensures call { (trees : List Tree) → IsFitting (atom_at trees atom.now) → HasNoLocator (atom_at trees atom.now) →
        IsCall trees (atom_at trees atom.now) result }
    ensures known { (trees : List Tree) → AtomIsKnown trees atom.now → CallIsKnown trees result }
{
    let name = atom.name.bytes();
    let args = atom.args.as_slice();
    if name == b"G".as_slice() {
        return match generalize_call(args) {
            Some(at) => Call::Generalize(at),
            None => Call::Plain,
        };
    }
    if name == b"boxCut".as_slice() {
        return match cut_box_call(args) {
            Some((h, at)) => Call::CutBox(h, at),
            None => Call::Plain,
        };
    }
    if name == b"useAt".as_slice() {
        return match use_call(Direction::Forwards, args) {
            Some(used) => Call::Use(used),
            None => Call::Plain,
        };
    }
    if name == b"useBack".as_slice() {
        return match use_call(Direction::Backwards, args) {
            Some(used) => Call::Use(used),
            None => Call::Plain,
        };
    }
    Call::Plain
}

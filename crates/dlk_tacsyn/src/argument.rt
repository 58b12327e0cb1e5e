//! Arguments of atoms as they are written, and read.
ghost use Rattle.std.specs.Prelude.{◌≡◌, ◌++◌, ◌∷◌, [], List, ℕ, Option, None, Some, Ok, All, map, IfOk, OnOk, IfErr, MatchOption};
ghost use Rattle.dlk_tree.specs.Trees.{Tree};
ghost use Rattle.dlk_store.specs.Stores.{IsId, tree};
ghost use Rattle.dlk_sequent.specs.Extras.{extra_at, IsKnownExtra};
ghost use Rattle.dlk_tacsyn.specs.Faults.{Arguments, IsTacSyntaxOf, of_text};
ghost use Rattle.dlk_tacsyn.specs.Strategies.{IsReading, argument_of, arguments_of};
ghost use Rattle.dlk_tacsyn.specs.Ties.{argument_at, ArgumentIsKnown};
ghost use Rattle.dlk_tacsyn.specs.States.{ByReading};
ghost use Rattle.dlk_tacsyn.specs.Steps.{with_part, given};

use crate::fault::TacSyntax;
use crate::kind::{Kind, Row};
use crate::tactic::Arg;
use dlk_machine::laws::{extra_texts, tree_texts};
use dlk_parse::{TextFault, read_extra, read_formula, read_term};
use dlk_scripts::{PartKind, Quoted};
use dlk_sequent::{Extra, Listed, Place};
use dlk_store::{Id, Store};
use dlk_tree::Name;
use std::alloc::{AllocError, Global};

/// An argument as it is written.
#[derive(Drop, Debug)]
pub(crate) enum Written {
    At { place: Place, path: Listed<u32> },
    AnyLeft,
    AnyRight,
    Word(Name),
    Quoted(Quoted),
}

/// What stands behind the last `(` or `,` in the brackets of an atom.
#[derive(Drop, Debug)]
pub(crate) enum Current {
    Nothing,
    /// `-`
    Minus,
    Given(Written),
}

/// An atom whose bracket is open, with the byte of its name.
#[derive(Drop, Debug)]
pub(crate) struct OpenAtom {
    pub at: usize,
    pub name: Name,
    pub before: Listed<Written>,
    pub current: Current,
}

impl Current {
    /// The same with one part more. None comes where no argument goes on so.
    pub fn with_part(self, alloc: Global, kind: PartKind) -> Result<Option<Current>, AllocError>
        ensures { IfOk result (λ next. with_part kind self ≡ next) }
    {
        match self {
            Current::Nothing => Ok(begun(alloc, kind)),
            Current::Minus => match kind {
                PartKind::Number(n) => Ok(Some(at(alloc, Place::Ante(n)))),
                _ => Ok(None),
            },
            Current::Given(written) => written.with_part(kind),
        }
    }
}

/// An argument that begins with this part.
fn begun(alloc: Global, kind: PartKind) -> Option<Current>
    ensures { with_part kind Current.Nothing ≡ result }
{
    match kind {
        PartKind::Name(x) => Some(Current::Given(Written::Word(x))),
        PartKind::AnyLeft => Some(Current::Given(Written::AnyLeft)),
        PartKind::AnyRight => Some(Current::Given(Written::AnyRight)),
        PartKind::Quoted(text) => Some(Current::Given(Written::Quoted(text))),
        PartKind::Minus => Some(Current::Minus),
        PartKind::Number(n) => Some(at(alloc, Place::Succ(n))),
        _ => None,
    }
}

/// A place without a path.
fn at(alloc: Global, place: Place) -> Current
    ensures { result ≡ Current.Given (Written.At place []) }
{
    Current::Given(Written::At {
        place,
        path: Listed::new(alloc),
    })
}

impl Written {
    /// The same with one part more.
    fn with_part(self, kind: PartKind) -> Result<Option<Current>, AllocError>
        ensures { IfOk result (λ next. with_part kind (Current.Given self) ≡ next) }
    {
        match kind {
            PartKind::Point => Ok(Some(Current::Given(self))),
            PartKind::Number(n) => self.below(n),
            _ => Ok(None),
        }
    }

    /// The place with a kid more on its path. None comes where it is no place.
    fn below(self, n: u32) -> Result<Option<Current>, AllocError>
        ensures { IfOk result (λ next. with_part (PartKind.Number n) (Current.Given self) ≡ next) }
    {
        match self {
            Written::At { place, mut path } => {
                path.push(n)?;
                Ok(Some(Current::Given(Written::At { place, path })))
            }
            Written::AnyLeft | Written::AnyRight | Written::Word(_) | Written::Quoted(_) => {
                Ok(None)
            }
        }
    }
}

/// The arguments so far with the one that stands last. None comes where none does.
pub(crate) fn given(
    mut before: Listed<Written>,
    current: Current,
) -> Result<Option<Listed<Written>>, AllocError>
    ensures all { IfOk result (λ all. given before current ≡ all) }
    ensures none { given before current ≡ None → result ≡ Ok None }
{
    match current {
        Current::Nothing | Current::Minus => Ok(None),
        Current::Given(written) => {
            before.push(written)?;
            Ok(Some(before))
        }
    }
}

/// The arguments of the row. The atom's name is at this byte.
pub(crate) fn arguments<S: Store>(
    alloc: Global,
    at: usize,
    row: Row,
    written: Listed<Written>,
    store: &mut S,
) -> Result<Listed<Arg>, TacSyntax>
    ensures found { IfOk result (λ all. ByReading (λ read.
        arguments_of read row.wanted.now row.optional written ≡ Some (map (argument_at (S.trees store.new)) all))) }
    ensures known { IfOk result (λ all. All (ArgumentIsKnown (S.trees store.new)) all) }
    ensures fault { IfErr result (IsTacSyntaxOf (λ f. (f ≡ Arguments at) × ByReading (λ read. arguments_of read row.wanted.now row.optional written ≡ None))) }
    ensures grows { S.grows store.old store.new }
{
    let mut rest = row;
    let mut all = Vec::new(alloc);
    for next in written.into_vec() {
        let Some((kind, others)) = rest.split() else {
            return Err(TacSyntax::Arguments { at });
        };
        let argument = argument(alloc, at, kind, next, store)?;
        all.push(argument)?;
        rest = others;
    }
    if rest.wanted.len() > 0 {
        return Err(TacSyntax::Arguments { at });
    }
    Ok(Listed::from_vec(all))
}

/// The argument of this kind.
fn argument<S: Store>(
    alloc: Global,
    at: usize,
    kind: Kind,
    written: Written,
    store: &mut S,
) -> Result<Arg, TacSyntax>
    ensures found { IfOk result (λ a. ByReading (λ read. argument_of read kind written ≡ Some (argument_at (S.trees store.new) a))) }
    ensures known { IfOk result (ArgumentIsKnown (S.trees store.new)) }
    ensures fault { IfErr result (IsTacSyntaxOf (λ f. (f ≡ Arguments at) × ByReading (λ read. argument_of read kind written ≡ None))) }
    ensures grows { S.grows store.old store.new }
{
    match kind {
        Kind::FixedPlace => match written {
            Written::At { place, path } => Ok(Arg::At { place, path }),
            _ => Err(TacSyntax::Arguments { at }),
        },
        Kind::AnyPlace => match written {
            Written::At { place, path } => Ok(Arg::At { place, path }),
            Written::AnyLeft => Ok(Arg::AnyLeft),
            Written::AnyRight => Ok(Arg::AnyRight),
            _ => Err(TacSyntax::Arguments { at }),
        },
        Kind::QuotedFormula => match written {
            Written::Quoted(text) => {
                let id = formula(alloc, at, text.bytes(), store)?;
                Ok(Arg::Formula(id))
            }
            _ => Err(TacSyntax::Arguments { at }),
        },
        Kind::QuotedTerm => match written {
            Written::Quoted(text) => {
                let id = term(alloc, at, text.bytes(), store)?;
                Ok(Arg::Term(id))
            }
            _ => Err(TacSyntax::Arguments { at }),
        },
        Kind::AName => match written {
            Written::Word(x) => Ok(Arg::Word(x)),
            _ => Err(TacSyntax::Arguments { at }),
        },
        Kind::QuotedExtra => match written {
            Written::Quoted(text) => {
                let extra = extra(alloc, at, text.bytes(), store)?;
                Ok(Arg::With(extra))
            }
            _ => Err(TacSyntax::Arguments { at }),
        },
    }
}

/// The formula of a quoted text.
fn formula<S: Store>(alloc: Global, at: usize, text: &[u8], store: &mut S) -> Result<Id, TacSyntax>
    ensures found { IfOk result (λ id. ByReading (λ read. read.formula text.now ≡ Some (tree (S.trees store.new) id))) }
    ensures known { IfOk result (IsId (S.trees store.new)) }
    ensures fault { IfErr result (IsTacSyntaxOf (λ f. (f ≡ Arguments at) × ByReading (λ read. read.formula text.now ≡ None))) }
    ensures grows { S.grows store.old store.new }
{
    tree_texts();
    match read_formula(alloc, text, store) {
        Ok(id) => Ok(id),
        Err(fault) => Err(unread(at, fault)),
    }
}

/// The term of a quoted text.
fn term<S: Store>(alloc: Global, at: usize, text: &[u8], store: &mut S) -> Result<Id, TacSyntax>
    ensures found { IfOk result (λ id. ByReading (λ read. read.term text.now ≡ Some (tree (S.trees store.new) id))) }
    ensures known { IfOk result (IsId (S.trees store.new)) }
    ensures fault { IfErr result (IsTacSyntaxOf (λ f. (f ≡ Arguments at) × ByReading (λ read. read.term text.now ≡ None))) }
    ensures grows { S.grows store.old store.new }
{
    tree_texts();
    match read_term(alloc, text, store) {
        Ok(id) => Ok(id),
        Err(fault) => Err(unread(at, fault)),
    }
}

/// The names with their new names and the pairs of a quoted text.
fn extra<S: Store>(alloc: Global, at: usize, text: &[u8], store: &mut S) -> Result<Extra, TacSyntax>
    ensures found { IfOk result (λ extra. ByReading (λ read. read.extra text.now ≡ Some (extra_at (S.trees store.new) extra))) }
    ensures known { IfOk result (IsKnownExtra (S.trees store.new)) }
    ensures fault { IfErr result (IsTacSyntaxOf (λ f. (f ≡ Arguments at) × ByReading (λ read. read.extra text.now ≡ None))) }
    ensures grows { S.grows store.old store.new }
{
    extra_texts();
    match read_extra(alloc, text, store) {
        Ok(extra) => Ok(extra),
        Err(fault) => Err(unread(at, fault)),
    }
}

/// The fault of an atom at this byte with a quoted text that isn't read.
fn unread(at: usize, fault: TextFault) -> TacSyntax
    ensures { result ≡ of_text at fault }
{
    match fault {
        TextFault::BadByte { at: _ } | TextFault::Unread(_) => TacSyntax::Arguments { at },
        TextFault::Memory => TacSyntax::Memory,
    }
}

//! Parts of the strategies that names of the library stand for. Each has the byte of the name.
ghost use Rattle.std.specs.Prelude.{◌≡◌, List, IsTrue, map, All, IfOk};
ghost use Rattle.dlk_tree.specs.Names.{is_name};
ghost use Rattle.dlk_tree.specs.Trees.{Tree};
ghost use Rattle.dlk_store.specs.Stores.{IsId, tree};
ghost use Rattle.dlk_sequent.specs.Extras.{extra_at, IsKnownExtra};
ghost use Rattle.dlk_tacsyn.specs.Ties.{argument_at, ArgumentIsKnown, tactic_at, TacticIsKnown};
ghost use Rattle.dlk_library.specs.Parts.{all_but, atom, for_ghost, for_r, generalized, imply_first, nothing, rule_at, use_at, use_with};

use dlk_sequent::{Extra, Listed, Pair, Place};
use dlk_store::Id;
use dlk_tacsyn::{Arg, Atom, Tactic};
use dlk_tree::{Kind, Name, NameFault, Sym};
use std::alloc::{AllocError, Global};

/// The name of bytes that are one.
fn name_of(alloc: Global, bytes: &[u8]) -> Result<Name, AllocError>
    requires { IsTrue (is_name bytes.now) }
    ensures { IfOk result (λ name. name ≡ bytes.now) }
{
    match Name::new(alloc, bytes) {
        Ok(name) => Ok(name),
        Err(NameFault::Memory) => Err(AllocError),
        Err(NameFault::NotAName) => unreachable!(),
    }
}

/// An atom of this name, which is one, with these arguments.
pub(crate) fn atom(
    alloc: Global,
    at: usize,
    name: &[u8],
    args: Vec<Arg>,
) -> Result<Tactic, AllocError>
    requires { IsTrue (is_name name.now) }
    ensures made { IfOk result (λ t. (trees : List Tree) → tactic_at trees t ≡ atom at name.now (map (argument_at trees) args.items)) }
    ensures known { IfOk result (λ t. (trees : List Tree) → All (ArgumentIsKnown trees) args.items → TacticIsKnown trees t) }
{
    let name = name_of(alloc, name)?;
    let args = Listed::from_vec(args);
    Ok(Tactic::One(Atom { name, args, at }))
}

/// `nil`
pub(crate) fn nothing(alloc: Global, at: usize) -> Result<Tactic, AllocError>
    ensures made { IfOk result (λ t. (trees : List Tree) → tactic_at trees t ≡ nothing at) }
    ensures known { IfOk result (λ t. (trees : List Tree) → TacticIsKnown trees t) }
{
    atom(alloc, at, b"nil", Vec::new(alloc))
}

/// The atom of a rule at a place, or at a locator.
pub(crate) fn rule_at(
    alloc: Global,
    at: usize,
    name: &[u8],
    place: Arg,
) -> Result<Tactic, AllocError>
    requires { IsTrue (is_name name.now) }
    ensures made { IfOk result (λ t. (trees : List Tree) → tactic_at trees t ≡ rule_at at name.now (argument_at trees place)) }
    ensures known { IfOk result (λ t. (trees : List Tree) → ArgumentIsKnown trees place → TacticIsKnown trees t) }
{
    let args = vec![in alloc; place]?;
    atom(alloc, at, name, args)
}

/// `implyR(1)`
pub(crate) fn imply_first(alloc: Global, at: usize) -> Result<Tactic, AllocError>
    ensures made { IfOk result (λ t. (trees : List Tree) → tactic_at trees t ≡ imply_first at) }
    ensures known { IfOk result (λ t. (trees : List Tree) → TacticIsKnown trees t) }
{
    let place = Arg::At {
        place: Place::Succ(1),
        path: Listed::new(alloc),
    };
    rule_at(alloc, at, b"implyR", place)
}

/// `useAt(NAME,P)`
pub(crate) fn use_at(
    alloc: Global,
    at: usize,
    name: &[u8],
    place: &Arg,
) -> Result<Tactic, AllocError>
    requires { IsTrue (is_name name.now) }
    ensures made { IfOk result (λ t. (trees : List Tree) → tactic_at trees t ≡ use_at at name.now (argument_at trees place.now)) }
    ensures known { IfOk result (λ t. (trees : List Tree) → ArgumentIsKnown trees place.now → TacticIsKnown trees t) }
{
    let name = name_of(alloc, name)?;
    let args = vec![in alloc; Arg::Word(name), place.copy(alloc)?]?;
    atom(alloc, at, b"useAt", args)
}

/// `useAt(NAME,P,"..")`
pub(crate) fn use_with(
    alloc: Global,
    at: usize,
    name: &[u8],
    place: &Arg,
    extra: Extra,
) -> Result<Tactic, AllocError>
    requires { IsTrue (is_name name.now) }
    ensures made { IfOk result (λ t. (trees : List Tree) → tactic_at trees t ≡ use_with at name.now (argument_at trees place.now) (extra_at trees extra)) }
    ensures known { IfOk result (λ t. (trees : List Tree) → ArgumentIsKnown trees place.now → IsKnownExtra trees extra → TacticIsKnown trees t) }
{
    let name = name_of(alloc, name)?;
    let args = vec![in alloc; Arg::Word(name), place.copy(alloc)?, Arg::With(extra)]?;
    atom(alloc, at, b"useAt", args)
}

/// `useAt(NAME,P); G(P); implyR(1)`
pub(crate) fn generalized(
    alloc: Global,
    at: usize,
    name: &[u8],
    place: &Arg,
) -> Result<Tactic, AllocError>
    requires { IsTrue (is_name name.now) }
    ensures made { IfOk result (λ t. (trees : List Tree) → tactic_at trees t ≡ generalized at name.now (argument_at trees place.now)) }
    ensures known { IfOk result (λ t. (trees : List Tree) → ArgumentIsKnown trees place.now → TacticIsKnown trees t) }
{
    let used = use_at(alloc, at, name, place)?;
    let dropped = rule_at(alloc, at, b"G", place.copy(alloc)?)?;
    let assumed = imply_first(alloc, at)?;
    Ok(Tactic::sequence(vec![in alloc; used, dropped, assumed]?))
}

/// `r(||)~>e`
pub(crate) fn for_r(alloc: Global, e: Id) -> Result<Extra, AllocError>
    ensures made { IfOk result (λ extra. (trees : List Tree) → extra_at trees extra ≡ for_r (tree trees e)) }
    ensures known { IfOk result (λ extra. (trees : List Tree) → IsId trees e → IsKnownExtra trees extra) }
{
    let sym = Sym {
        kind: Kind::UnitPred,
        name: name_of(alloc, b"r")?,
        arity: 0,
        taboo: None,
    };
    let pairs = vec![in alloc; Pair { sym, by: e }]?;
    Ok(Extra {
        renames: Listed::new(alloc),
        pairs: Listed::from_vec(pairs),
    })
}

/// `NAME(|y|)~>e`, as a function.
fn all_but(alloc: Global, name: &[u8], y: &Name, by: Id) -> Result<Pair, AllocError>
    requires { IsTrue (is_name name.now) }
    ensures { IfOk result (λ p. p ≡ record { sym = all_but name.now y.now; by = by }) }
{
    let sym = Sym {
        kind: Kind::UnitFunc,
        name: name_of(alloc, name)?,
        arity: 0,
        taboo: Some(y.clone()?),
    };
    Ok(Pair { sym, by })
}

/// `y_~~y, a(|y|)~>e, b(|y|)~>d`
pub(crate) fn for_ghost(alloc: Global, y: &Name, e: Id, d: Id) -> Result<Extra, AllocError>
    ensures made { IfOk result (λ extra. (trees : List Tree) → extra_at trees extra ≡ for_ghost y.now (tree trees e) (tree trees d)) }
    ensures known { IfOk result (λ extra. (trees : List Tree) → IsId trees e → IsId trees d → IsKnownExtra trees extra) }
{
    let from = name_of(alloc, b"y_")?;
    let renames = vec![in alloc; (from, y.clone()?)]?;
    let a = all_but(alloc, b"a", y, e)?;
    let b = all_but(alloc, b"b", y, d)?;
    let pairs = vec![in alloc; a, b]?;
    Ok(Extra {
        renames: Listed::from_vec(renames),
        pairs: Listed::from_vec(pairs),
    })
}

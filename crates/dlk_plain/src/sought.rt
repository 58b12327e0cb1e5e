//! The questions that a walk answers.
ghost use Rattle.std.specs.Prelude.{◌≡◌};
ghost use Rattle.dlk_plain.specs.Sets.{asked};

use dlk_store::{Id, Which};
use dlk_tree::Sym;

/// A set of variables, by the trees that it comes from.
#[derive(Clone, Copy)]
pub enum VarSet {
    Free(Id),
    Bound(Id),
    Must(Id),
    /// What is free in the first tree and bound in the second.
    FreeAndBound(Id, Id),
}

/// What is looked for at the nodes of a tree.
#[derive(Clone, Copy)]
pub enum Sought<'a> {
    Symbol(&'a Sym),
    Dot(u8),
    Hole,
    /// A name of which one of the two variables is in the set.
    NameOf(VarSet),
}

/// One of the sets of a tree.
pub fn of_tree(which: Which, id: Id) -> VarSet
    ensures { result ≡ asked which id }
{
    match which {
        Which::Free => VarSet::Free(id),
        Which::Bound => VarSet::Bound(id),
        Which::Must => VarSet::Must(id),
    }
}

//! The axiom for a `( )'`, the ways on from it, and the atom for its use.
ghost use Rattle.std.specs.Prelude.{◌≡◌, ◌++◌, IsTrue, IfOk, map};
ghost use Rattle.dlk_tree.specs.Names.{is_name};
ghost use Rattle.dlk_derive.specs.Plans.{axiom_for, ways_for};
ghost use Rattle.dlk_derive.specs.Ties.{atom_of};

use dlk_sequent::{Listed, Place};
use dlk_tacsyn::{Arg, Atom};
use dlk_tree::{Name, NameFault, Op};
use std::alloc::{AllocError, Global};

/// The name of the axiom for a `( )'` over this operator; empty where there is none.
pub(crate) fn axiom_for(op: &Op) -> &'static [u8]
    ensures { result.now ≡ axiom_for op.now }
{
    match op {
        Op::Variable(_) => b"Dvar",
        Op::Number(_) | Op::Apply(_) => b"Dconst",
        Op::Neg => b"Dneg",
        Op::Add => b"Dplus",
        Op::Sub => b"Dminus",
        Op::Mul => b"Dtimes",
        Op::Pow => b"Dpow",
        Op::Eq => b"Deq",
        Op::Ne => b"Dne",
        Op::Ge => b"Dge",
        Op::Gt => b"Dgt",
        Op::Le => b"Dle",
        Op::Lt => b"Dlt",
        Op::And => b"Dand",
        Op::Or => b"Dor",
        Op::Forall(_) => b"Dforall",
        _ => b"",
    }
}

/// The ways from its place to the `( )'` that the axiom makes, from left to right: that of the first kid, and maybe that of the second.
pub(crate) fn ways_for(op: &Op) -> &'static [&'static [u32]]
    ensures { map (λ way. way.now) result.now ≡ ways_for op.now }
{
    match op {
        Op::Neg | Op::Forall(_) => &[&[0]],
        Op::Mul => &[&[0, 0], &[1, 1]],
        Op::Pow => &[&[1]],
        Op::Variable(_) | Op::Number(_) | Op::Apply(_) => &[],
        _ => &[&[0], &[1]],
    }
}

/// The name of bytes that are one.
fn name_of(alloc: Global, bytes: &[u8]) -> Result<Name, AllocError>
    requires { IsTrue (is_name bytes.now) }
    ensures { IfOk result (λ name. name ≡ bytes.now) }
{
    match Name::new(alloc, bytes) {
        Ok(name) => Ok(name),
        Err(NameFault::Memory) => Err(AllocError),
        Err(NameFault::NotAName) => unreachable!(),
    }
}

/// `useAt(NAME,P)` for the axiom for a `( )'` over this operator, which has one. Its byte is 0.
pub(crate) fn use_of(alloc: Global, op: &Op, place: Place, path: &[u32]) -> Result<Atom, AllocError>
    requires { IsTrue (is_name (axiom_for op.now)) }
    ensures { IfOk result (λ atom. atom ≡ atom_of place (record { its_axiom = axiom_for op.now; path = path.now })) }
{
    let its_axiom = name_of(alloc, axiom_for(op))?;
    let path = Listed::from_vec(path.to_vec(alloc)?);
    let args = vec![in alloc; Arg::Word(its_axiom), Arg::At { place, path }]?;
    let name = name_of(alloc, b"useAt")?;
    Ok(Atom {
        name,
        args: Listed::from_vec(args),
        at: 0,
    })
}

/// The path, and a way on from its end.
pub(crate) fn further(alloc: Global, path: &[u32], way: &[u32]) -> Result<Vec<u32>, AllocError>
    ensures { IfOk result (λ longer. longer.items ≡ path.now ++ way.now) }
{
    let mut longer = path.to_vec(alloc)?;
    longer.extend_from_slice(way)?;
    Ok(longer)
}

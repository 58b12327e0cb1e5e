//! The names and the pairs that atoms give to axioms and axiomatic rules.
ghost use Rattle.std.specs.Prelude.{◌≡◌, IsTrue, IfOk};
ghost use Rattle.dlk_tree.specs.Names.{is_name};
ghost use Rattle.dlk_uses.specs.Uses.{symbol};

use dlk_sequent::Pair;
use dlk_store::Id;
use dlk_tree::{Kind, Name, NameFault, Sym};
use std::alloc::{AllocError, Global};

/// The name of bytes that are one.
pub(crate) fn name_of(alloc: Global, bytes: &[u8]) -> Result<Name, AllocError>
    requires { IsTrue (is_name bytes.now) }
    ensures { IfOk result (λ name. name ≡ bytes.now) }
{
    match Name::new(alloc, bytes) {
        Ok(name) => Ok(name),
        Err(NameFault::Memory) => Err(AllocError),
        Err(NameFault::NotAName) => unreachable!(),
    }
}

/// A symbol without a taboo, and what replaces it.
pub(crate) fn pair(
    alloc: Global,
    kind: Kind,
    name: &[u8],
    arity: u8,
    by: Id,
) -> Result<Pair, AllocError>
    requires { IsTrue (is_name name.now) }
    ensures { IfOk result (λ p. p ≡ record { sym = symbol kind name.now arity; by = by }) }
{
    let name = name_of(alloc, name)?;
    let sym = Sym {
        kind,
        name,
        arity,
        taboo: None,
    };
    Ok(Pair { sym, by })
}

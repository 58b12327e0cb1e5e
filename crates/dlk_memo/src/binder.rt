//! What a quantifier binds.
ghost use Rattle.std.specs.Prelude.{◌≡◌, IsTrue, IfOk, IfSome};
ghost use Rattle.dlk_tree.specs.Names.{is_name};
ghost use Rattle.dlk_memo.specs.Binders.{quantified};

use dlk_tree::{Op, Var};
use std::alloc::AllocError;

/// The variable that a quantifier binds. It captures this one, whatever comes to stand below it.
#[inline(never)]
pub(crate) fn quantified(op: &Op) -> Result<Option<Var>, AllocError>
    ensures bound { IfOk result (λ v. v ≡ quantified op.now) }
    ensures name { IfOk result (λ v. IfSome v (λ x. IsTrue (is_name x.name))) }
{
    match op {
        Op::Forall(x) | Op::Exists(x) => {
            prove!(x.is_name());
            Ok(Some(Var::plain(x.clone()?)))
        }
        _ => Ok(None),
    }
}

//! How an operator puts its kids' sets together.
ghost use Rattle.std.specs.Prelude.{◌≡◌};
ghost use Rattle.dlk_shared.specs.Shapes.{shape_of};

use dlk_tree::Op;

/// A group of operators with one row in the table of the static semantics.
#[derive(Clone, Copy)]
pub enum StaticsShape {
    /// The sets are the operator's own, whatever its kids' are.
    Own,
    AsKids,
    Differential,
    Quantified,
    Modal,
    Assigned,
    Tested,
    Evolved,
    Branching,
    Sequence,
}

/// The group of an operator.
pub fn shape_of(op: &Op) -> StaticsShape
    ensures { result ≡ shape_of op.now }
{
    match op {
        Op::Variable(_)
        | Op::Number(_)
        | Op::Dot(_)
        | Op::UnitFun(_)
        | Op::True
        | Op::False
        | Op::Hole
        | Op::UnitPred(_)
        | Op::Predicational(_)
        | Op::Const(_)
        | Op::Any(_) => StaticsShape::Own,
        Op::Diff | Op::DiffF => StaticsShape::Differential,
        Op::Forall(_) | Op::Exists(_) => StaticsShape::Quantified,
        Op::Box | Op::Dia => StaticsShape::Modal,
        Op::Assign(_) => StaticsShape::Assigned,
        Op::Test => StaticsShape::Tested,
        Op::System(_) => StaticsShape::Evolved,
        Op::Choice => StaticsShape::Branching,
        Op::Seq => StaticsShape::Sequence,
        _ => StaticsShape::AsKids,
    }
}

//! The law of differentiation on rows: a contract of a function that does nothing but call a law of derivatives.
ghost use Rattle.std.specs.Prelude.{◌≤◌, ℕ, List, length, Some};
ghost use Rattle.dlk_tree.specs.Trees.{Tree};
ghost use Rattle.dlk_calculus.specs.Paths.{put_at};
ghost use Rattle.dlk_derive.specs.Derives.{Plans};
ghost use Rattle.dlk_derive.specs.Plans.{plan_at};
ghost use Rattle.dlk_derive.specs.Rewriting.{conditions};
ghost use Rattle.dlk_reach.specs.Derived.{Derivable, Reaches};

use dlk_derive::laws::plan_rewrites_in_place;

/// In a model of at most 150 nodes, where the kid of a `( )'` has a derivative, the uses of its plan are taken one after another, from the row
/// that states the model on: each by the steps of an atom at place 1 on the right of the only goal, which leaves one goal. The last row has
/// the model with the derivative in the place of the `( )'` as its only goal, and as leaves the conditions on exponents, each once. The plan
/// is that of the place, and short.
pub fn derivative_is_reached()
    ensures reached { (byte : ℕ) (model k d : Tree) (path : List ℕ) → Derivable model path k d →
        Reaches byte (plan_at k path) model (put_at model path d) (conditions k) }
    ensures plans { (model k d : Tree) (path : List ℕ) → Derivable model path k d → Plans (Some model) path (plan_at k path) }
    ensures few { (model k d : Tree) (path : List ℕ) → Derivable model path k d → length (plan_at k path) ≤ 149 }
{
    plan_rewrites_in_place();
}

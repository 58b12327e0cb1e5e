//! The laws of derivatives: contracts of functions that do nothing.
ghost use Rattle.std.specs.Prelude.{◌≡◌, ◌≤◌, ◌⊎◌, ℕ, List, map, All, Option, Some};
ghost use Rattle.dlk_tree.specs.Trees.{Tree, size};
ghost use Rattle.dlk_calculus.specs.Notation.{diff, diff_formula};
ghost use Rattle.dlk_calculus.specs.Paths.{subtree, put_at};
ghost use Rattle.dlk_sequent.specs.declared.sequent.Place.{Place};
ghost use Rattle.dlk_tacsyn.specs.Rows.{IsFitting, HasNames};
ghost use Rattle.dlk_derive.specs.Derivative.{OfTerm, OfFormula, IsDerivative};
ghost use Rattle.dlk_derive.specs.Derives.{DeriveWhy, Plans, NoPlan, use_of};
ghost use Rattle.dlk_derive.specs.Plans.{Call, plan, plan_at};
ghost use Rattle.dlk_derive.specs.Ways.{IsPlainWay, IsUsable};
ghost use Rattle.dlk_derive.specs.Rewriting.{Rewrites, conditions, Within, IsNear, IsTermPlace};

use dlk_calculus::laws::{paths_join, put_is_there};

/// A `( )'` stands for at most one derivative. The statement of derivatives asks for it.
pub fn one_derivative()
    ensures { (t c d : Tree) → IsDerivative t c → IsDerivative t d → c ≡ d }
{}

/// Of a place and a path there is at most one plan, and at most one reason against one; and where there is a plan there is none.
pub fn one_plan()
    ensures plan { (there : Option Tree) (path : List ℕ) (calls others : List Call) → Plans there path calls → Plans there path others → calls ≡ others }
    ensures reason { (there : Option Tree) (path : List ℕ) (why other : DeriveWhy) → NoPlan there path why → NoPlan there path other → why ≡ other }
    ensures apart { (there : Option Tree) (path : List ℕ) (calls : List Call) (why : DeriveWhy) → Plans there path calls → NoPlan there path why → ⊥ }
{}

/// There is a plan or a reason.
pub fn some_plan()
    ensures { (there : Option Tree) (path : List ℕ) → ((calls : List Call) × Plans there path calls) ⊎ ((why : DeriveWhy) × NoPlan there path why) }
{}

/// Each use of a plan, at whatever byte, is an atom with the arguments that its name wants, and the names among them are names.
pub fn plan_is_fitting()
    ensures fitting { (byte : ℕ) (place : Place) (call : Call) → IsFitting (use_of byte place call) }
    ensures names { (there : Option Tree) (path : List ℕ) (calls : List Call) → Plans there path calls → (byte : ℕ) (place : Place) →
        All HasNames (map (use_of byte place) calls) }
{}

/// The plan of a `( )'` makes its derivative of it, for a tree of at most 149 nodes: each use has the `( )'` of its axiom where it acts,
/// and the trees on the way are small. The statement of derivatives asks for it.
pub fn plan_rewrites()
    ensures terms { (e d : Tree) → OfTerm e d → size e ≤ 149 → Rewrites (Within (size e)) IsPlainWay (plan e) (diff e) d (conditions e) }
    ensures formulas { (e d : Tree) → OfFormula e d → size e ≤ 149 → Rewrites (Within (size e)) IsUsable (plan e) (diff_formula e) d (conditions e) }
{
    put_is_there();
    paths_join();
}

/// The same in its place in a tree: each use stands where it may be used.
pub fn plan_rewrites_in_place()
    ensures terms { (e k d : Tree) (path : List ℕ) → IsTermPlace e path (diff k) → OfTerm k d → size k ≤ 149 →
        Rewrites (IsNear e (size k)) IsUsable (plan_at k path) e (put_at e path d) (conditions k) }
    ensures formulas { (e k d : Tree) (path : List ℕ) → subtree e path ≡ Some (diff_formula k) → OfFormula k d → size k ≤ 149 →
        Rewrites (IsNear e (size k)) IsUsable (plan_at k path) e (put_at e path d) (conditions k) }
{
    put_is_there();
    paths_join();
}

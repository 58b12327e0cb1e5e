//! The laws of guarded proofs. Each is a contract of a function that does nothing.
ghost use Rattle.std.specs.Prelude.{◌≡◌, ◌⊎◌, ℕ, List, [], ◌∷◌, ◌++◌, None, Some, IsTrue, All};
ghost use Rattle.dlk_tree.specs.Trees.{Tree, WellMade};
ghost use Rattle.dlk_tree.specs.TreeTests.{tree_eq};
ghost use Rattle.dlk_guard.specs.declared.why.Why.{Why as TheWhy};
ghost use Rattle.dlk_guard.specs.declared.guard.Refusal.{Refusal as TheRefusal};
ghost use Rattle.dlk_guard.specs.Smooth.{is_constant, is_smooth};
ghost use Rattle.dlk_guard.specs.Guarded.{Line, Guarded, FirstUnguarded, IsPlain};
ghost use Rattle.dlk_guard.specs.Watched.{watched, watch_of, verdict};

/// The lines of a term are guarded, or one of them is the first that is refused, for one reason.
pub fn first_or_guarded()
    ensures one { (all : List Line) (m n : ℕ) (why other : TheWhy) → FirstUnguarded all m why → FirstUnguarded all n other → (m ≡ n) × (why ≡ other) }
    ensures some { (all : List Line) → Guarded all ⊎ ((n : ℕ) × (why : TheWhy) × FirstUnguarded all n why) }
    ensures not_both { (all : List Line) (n : ℕ) (why : TheWhy) → Guarded all → FirstUnguarded all n why → ⊥ }
{}

/// What a guard says of lines that went by one by one: nothing exactly where they are guarded, and else the first that is refused.
pub fn verdict_is_first()
    ensures none { (all : List Line) → verdict (watch_of all) ≡ None → Guarded all }
    ensures some { (all : List Line) (r : TheRefusal) → verdict (watch_of all) ≡ Some r → FirstUnguarded all r.line r.why }
    ensures next { (all : List Line) (l : Line) → watch_of (all ++ l ∷ []) ≡ watched (watch_of all) l }
{}

/// Lines without the axioms DI, DG and Dforall, and without a replacement that has `_` below a `( )'` of a formula, are guarded.
pub fn guarded_without_names()
    ensures { (all : List Line) → All IsPlain all → Guarded all }
{}

/// A term without variables is smooth over any domain.
pub fn smooth_without_variables()
    ensures { (domain : List Tree) (t : Tree) → WellMade t → IsTrue (is_constant t) → IsTrue (is_smooth domain t) }
{}

/// The test for equal trees holds of equal trees alone.
pub fn equal_by_test()
    ensures same { (s t : Tree) → IsTrue (tree_eq s t) → s ≡ t }
    ensures itself { (t : Tree) → IsTrue (tree_eq t t) }
{}

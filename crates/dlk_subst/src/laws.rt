//! Laws of trees in which nothing is replaced. Each is a contract of a function that does nothing.
ghost use Rattle.std.specs.Prelude.{◌≡◌, ◌<◌, ℕ, List, All, false};
ghost use Rattle.dlk_tree.specs.Trees.{Tree, WellMade};
ghost use Rattle.dlk_tree.specs.Occurs.{occurs, has_dot, has_dots, has_hole};
ghost use Rattle.dlk_calculus.specs.Plug.{filled};
ghost use Rattle.dlk_calculus.specs.Pairs.{Pair};
ghost use Rattle.dlk_calculus.specs.Subst.{Subst};

/// A well-made tree in which no symbol of a pair occurs is what a substitution makes of it, whatever the replacements are.
pub fn subst_is_itself()
    ensures { (pairs : List Pair) (e : Tree) → WellMade e → All (λ (p : Pair). occurs p.sym e ≡ false) pairs → Subst pairs e e }
{}

/// A tree without `_` is what filling makes of it, whatever the formula is.
pub fn fill_is_itself()
    ensures { (f e : Tree) → has_hole e ≡ false → filled f e ≡ e }
{}

/// The argument dots of a well-made tree have numbers below 8.
pub fn dots_are_few()
    ensures { (e : Tree) → WellMade e → ((n : ℕ) → n < 8 → has_dot n e ≡ false) → has_dots e ≡ false }
{}

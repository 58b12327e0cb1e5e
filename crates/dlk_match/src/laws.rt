//! The laws of matching: contracts of functions that do nothing.
ghost use Rattle.std.specs.Prelude.{◌≡◌, ℕ, ◌⊎◌, List};
ghost use Rattle.dlk_tree.specs.Trees.{Tree};
ghost use Rattle.dlk_calculus.specs.Pairs.{Extra};
ghost use Rattle.dlk_match.specs.Matching.{Match};

/// A key matches a tree with at most one list of names and one of pairs.
pub fn one_match()
    ensures { (key : Tree) (own : List (List ℕ)) (e : Tree) (given a b : Extra) → Match key own e given a → Match key own e given b → a ≡ b }
{}

/// Whether a key matches a tree is decided: it does so with some names and pairs, or with none.
pub fn some_match()
    ensures { (own : List (List ℕ)) (key e : Tree) (given : Extra) →
        ((extra : Extra) × Match key own e given extra) ⊎ ((extra : Extra) → ¬ Match key own e given extra) }
{}

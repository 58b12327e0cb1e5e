//! The laws of substitutions and spines. Each is a contract of a function that does nothing.
ghost use Rattle.std.specs.Prelude.{◌≡◌, ◌≤◌, ℕ, List, length, take, drop, Some};
ghost use Rattle.dlk_tree.specs.Trees.{Tree};
ghost use Rattle.dlk_store.specs.Stores.{Keeps, IsId, tree};
ghost use Rattle.dlk_calculus.specs.Paths.{subtree};
ghost use Rattle.dlk_sequent.specs.Spines.{Way, top, path_of, IsSpine, outer_part, inner_part};
ghost use Rattle.dlk_sequent.specs.Substitutions.{Checked, pairs_at, IsMadeOver};

/// A substitution stays one while its store grows: its pairs stand for the same, so it makes the same of each tree.
/// The statement of stores that grow asks for it.
pub fn substitution_stays()
    ensures made { (old new : List Tree) (sigma : Checked) → Keeps old new → IsMadeOver old sigma → IsMadeOver new sigma }
    ensures same { (old new : List Tree) (sigma : Checked) → Keeps old new → IsMadeOver old sigma → pairs_at new sigma.pairs ≡ pairs_at old sigma.pairs }
{}

/// A spine stays one while its store grows, and its ends stand for the same.
pub fn spine_stays()
    ensures spine { (old new : List Tree) (way : Way) → Keeps old new → IsSpine old way → IsSpine new way }
    ensures top { (old new : List Tree) (way : Way) → Keeps old new → IsSpine old way → tree new (top way) ≡ tree old (top way) }
    ensures found { (old new : List Tree) (way : Way) → Keeps old new → IsSpine old way → tree new way.found ≡ tree old way.found }
{}

/// The path of a spine leads from its top to what is found.
pub fn spine_leads()
    ensures top { (trees : List Tree) (way : Way) → IsSpine trees way → IsId trees (top way) }
    ensures found { (trees : List Tree) (way : Way) → IsSpine trees way → IsId trees way.found }
    ensures leads { (trees : List Tree) (way : Way) → IsSpine trees way → subtree (tree trees (top way)) (path_of way) ≡ Some (tree trees way.found) }
{}

/// The parts of a spine are spines of the parts of its path, and the inner one begins where the outer one ends.
pub fn spine_parts()
    ensures outer { (trees : List Tree) (way : Way) (n : ℕ) → IsSpine trees way → IsSpine trees (outer_part way n) }
    ensures inner { (trees : List Tree) (way : Way) (n : ℕ) → IsSpine trees way → IsSpine trees (inner_part way n) }
    ensures outer_path { (way : Way) (n : ℕ) → path_of (outer_part way n) ≡ take n (path_of way) }
    ensures inner_path { (way : Way) (n : ℕ) → path_of (inner_part way n) ≡ drop n (path_of way) }
    ensures outer_top { (way : Way) (n : ℕ) → top (outer_part way n) ≡ top way }
    ensures inner_top { (way : Way) (n : ℕ) → top (inner_part way n) ≡ (outer_part way n).found }
{}

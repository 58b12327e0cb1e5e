//! The laws of instances. Each is a contract of a function that does nothing but call laws of the calculus.
ghost use Rattle.std.specs.Prelude.{◌≡◌, ℕ, List, [], ◌∷◌, Option, Some, All, IsTrue, true, false};
ghost use Rattle.dlk_tree.specs.declared.op.Op.{Op};
ghost use Rattle.dlk_tree.specs.declared.op.Op.TheVariants.{Variable};
ghost use Rattle.dlk_tree.specs.declared.op.Var.{Var};
ghost use Rattle.dlk_tree.specs.Table.{is_sym};
ghost use Rattle.dlk_tree.specs.Trees.{Tree, node, Forest, no_kids, trees_in, sort, WellMade};
ghost use Rattle.dlk_tree.specs.Occurs.{has_dots};
ghost use Rattle.dlk_calculus.specs.Axioms.{Axiom, axiom_named};
ghost use Rattle.dlk_calculus.specs.Kids.{first, last};
ghost use Rattle.dlk_calculus.specs.Notation.{eq};
ghost use Rattle.dlk_calculus.specs.Pairs.{Pair, Extra, IsWellFormed, AreWellMade};
ghost use Rattle.dlk_calculus.specs.Plug.{Plug};
ghost use Rattle.dlk_calculus.specs.Rules.{imply, equiv};
ghost use Rattle.dlk_calculus.specs.Subst.{Subst};
ghost use Rattle.dlk_match.specs.Abstract.{abstracted};
ghost use Rattle.dlk_match.specs.Matching.{Match, AreGiven, AreApart, is_own, renamed_taboo, exchanged};
ghost use Rattle.dlk_match.specs.Instances.{HasOwnNames, AreNames};

use dlk_calculus::laws::axiom_formulas;

/// With the names and the pairs with which an axiom's key matches a target, the key becomes the target, or nothing. The key is
/// well made, and only the axiom's own names stand in it; the target is well made, and no argument dot stands in it.
pub fn match_gives_target()
    ensures { (own : List (List ℕ)) (key target : Tree) (given extra : Extra) (t : Tree) → HasOwnNames own key → WellMade key → WellMade target →
        has_dots target ≡ false → Match key own target given extra → IsWellFormed extra.pairs → Subst extra.pairs (exchanged extra.renames key) t → t ≡ target }
{}

/// The names that an axiom gets by a match are given to its own names alone, to each at most one; no two of them are one, and none is
/// another of the axiom's own. Where the given names are names and the given replacements well made, all are; and where given
/// replacements are of symbols, all are.
pub fn match_is_proper()
    ensures given { (own : List (List ℕ)) (key target : Tree) (given extra : Extra) → HasOwnNames own key → Match key own target given extra →
        AreGiven own extra.renames × AreApart own extra.renames }
    ensures names { (own : List (List ℕ)) (key target : Tree) (given extra : Extra) → WellMade key → WellMade target → has_dots target ≡ false →
        AreNames given.renames → Match key own target given extra → AreNames extra.renames }
    ensures made { (own : List (List ℕ)) (key target : Tree) (given extra : Extra) → WellMade key → WellMade target → has_dots target ≡ false →
        AreWellMade given.pairs → Match key own target given extra → AreWellMade extra.pairs }
    ensures symbols { (own : List (List ℕ)) (key target : Tree) (given extra : Extra) → WellMade key → WellMade target → has_dots target ≡ false →
        AreNames given.renames → All (λ (p : Pair). is_sym p.sym ≡ true) given.pairs → Match key own target given extra →
        All (λ (p : Pair). is_sym p.sym ≡ true) extra.pairs }
{}

/// What a well-made key matches is of the key's sort.
pub fn match_keeps_sort()
    ensures { (own : List (List ℕ)) (key target : Tree) (given extra : Extra) → WellMade key → Match key own target given extra → sort target ≡ sort key }
{}

/// In an axiom only its own names stand, and it is well made. What has both has it in each kid, and in the first and the last where
/// there may be none.
pub fn axioms_have_own_names()
    ensures names { (name : List ℕ) (a : Axiom) → axiom_named name ≡ Some a → HasOwnNames a.own_names a.formula }
    ensures made { (name : List ℕ) (a : Axiom) → axiom_named name ≡ Some a → WellMade a.formula }
    ensures kids_names { (own : List (List ℕ)) (op : Op) (kids : Forest) → HasOwnNames own (node op kids) → All (HasOwnNames own) (trees_in kids) }
    ensures kids_made { (op : Op) (kids : Forest) → WellMade (node op kids) → All WellMade (trees_in kids) }
    ensures ends_names { (own : List (List ℕ)) (op : Op) (kids : Forest) → HasOwnNames own (node op kids) →
        HasOwnNames own (first kids) × HasOwnNames own (last kids) }
    ensures ends_made { (op : Op) (kids : Forest) → WellMade (node op kids) → WellMade (first kids) × WellMade (last kids) }
{
    axiom_formulas();
}

/// The variable plugged into what abstracts a tree by it gives that tree back, if anything: a well-made one in which no argument dot
/// stands.
pub fn plugged_back()
    ensures { (v : Var) (e t : Tree) → WellMade e → has_dots e ≡ false → Plug (node (Variable v) no_kids ∷ []) (abstracted v e) t → t ≡ e }
{}

/// Names that are given to an axiom, with none that becomes another, are exchanged as if all were at once: each of its own names
/// becomes the one that it gets.
pub fn exchanged_at_once()
    ensures { (own : List (List ℕ)) (renames : List (List ℕ × List ℕ)) (v : Var) → AreGiven own renames → AreApart own renames → IsTrue (is_own own v.name) →
        exchanged renames (node (Variable v) no_kids) ≡ node (Variable (record { name = renamed_taboo renames v.name; primed = v.primed })) no_kids }
{}

/// In an equivalence, an implication and an equation names are exchanged on both sides.
pub fn exchanged_over_kids()
    ensures equivalence { (renames : List (List ℕ × List ℕ)) (l r : Tree) → exchanged renames (equiv l r) ≡ equiv (exchanged renames l) (exchanged renames r) }
    ensures implication { (renames : List (List ℕ × List ℕ)) (l r : Tree) → exchanged renames (imply l r) ≡ imply (exchanged renames l) (exchanged renames r) }
    ensures equation { (renames : List (List ℕ × List ℕ)) (l r : Tree) → exchanged renames (eq l r) ≡ eq (exchanged renames l) (exchanged renames r) }
{}

/// A substitution makes an equivalence of an equivalence, an implication of an implication and an equation of an equation, side by
/// side.
pub fn subst_over_kids()
    ensures equivalence { (pairs : List Pair) (l r t : Tree) → Subst pairs (equiv l r) t →
        (m : Tree) × (s : Tree) × (t ≡ equiv m s) × Subst pairs l m × Subst pairs r s }
    ensures implication { (pairs : List Pair) (l r t : Tree) → Subst pairs (imply l r) t →
        (m : Tree) × (s : Tree) × (t ≡ imply m s) × Subst pairs l m × Subst pairs r s }
    ensures equation { (pairs : List Pair) (l r t : Tree) → Subst pairs (eq l r) t →
        (m : Tree) × (s : Tree) × (t ≡ eq m s) × Subst pairs l m × Subst pairs r s }
{}

/// A substitution without pairs makes of a well-made tree that tree.
pub fn nothing_replaced()
    ensures { (e : Tree) → WellMade e → Subst [] e e }
{}

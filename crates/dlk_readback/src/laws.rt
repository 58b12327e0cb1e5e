//! The laws of canonical text. Each is a contract of a function that does nothing.
ghost use Rattle.std.specs.Prelude.{◌≡◌, false, List, All};
ghost use Rattle.dlk_tree.specs.declared.op.Sort.TheVariants as sort_is;
ghost use Rattle.dlk_tree.specs.Trees.{Tree, sort};
ghost use Rattle.dlk_calculus.specs.Pairs.{Pair};
ghost use Rattle.dlk_calculus.specs.Sequents.{Sequent, IsSequent};
ghost use Rattle.dlk_grammar.specs.declared.token.Dots.{Dots};
ghost use Rattle.dlk_grammar.specs.declared.token.Form.TheVariants.{Expression};
ghost use Rattle.dlk_grammar.specs.Texts.{TreeText, SequentText, PairsText};
ghost use Rattle.dlk_grammar.specs.Shown.{spell, shown, shown_sequent};
ghost use Rattle.dlk_grammar.specs.Symbols.{is_formula_too, shown_pairs};
ghost use Rattle.dlk_readback.specs.Readable.{form_of, IsWithinLimits, IsReadable, IsReadablePair};

/// The canonical text of a tree is read as that tree, as a text of its sort. The tree is well-made, has at most 65,536
/// nodes and a depth of at most 1,000, and where argument dots and `_` are refused it has none.
/// The statement of canonical text asks for it.
pub fn shown_is_read()
    ensures { (d : Dots) (t : Tree) → IsReadable d t → TreeText (form_of (sort t)) d (spell (shown t)) t }
{}

/// The canonical text of a sequent is read as that sequent, where each of its formulas has at most 65,536 nodes and a
/// depth of at most 1,000. The statement of canonical text asks for it.
pub fn shown_sequent_is_read()
    ensures { (s : Sequent) → IsSequent s → All IsWithinLimits s.ante → All IsWithinLimits s.succ → SequentText (spell (shown_sequent s)) s }
{}

/// The canonical text of a substitution is read as its pairs. Each pair is a symbol and a well-made tree of its kind, which has
/// at most 65,536 nodes and a depth of at most 1,000, whatever argument dots and `_` stand in it.
/// The statement of canonical text asks for it.
pub fn shown_pairs_are_read()
    ensures { (pairs : List Pair) → All IsReadablePair pairs → PairsText (spell (shown_pairs pairs)) pairs }
{}

/// Where any expression may stand, the canonical text of a formula or a program is read as that tree, and so is that of a
/// term which isn't a formula's text, too, as that of `f(x)` is. The statement of canonical text asks for it.
pub fn shown_expression_is_read()
    ensures formulas { (d : Dots) (t : Tree) → IsReadable d t → sort t ≡ sort_is.Formula → TreeText Expression d (spell (shown t)) t }
    ensures programs { (d : Dots) (t : Tree) → IsReadable d t → sort t ≡ sort_is.Program → TreeText Expression d (spell (shown t)) t }
    ensures terms { (d : Dots) (t : Tree) → IsReadable d t → sort t ≡ sort_is.Term → is_formula_too t ≡ false → TreeText Expression d (spell (shown t)) t }
{}

//! The laws of files of version 2. Each is a contract of a function that does nothing.
ghost use Rattle.std.specs.Prelude.{◌≡◌, ◌⊎◌, ℕ, ◌≤◌, List, [], length, true, All};
ghost use Rattle.dlk_tree.specs.declared.op.Sort.TheVariants as of_sort;
ghost use Rattle.dlk_tree.specs.Table.{is_sym};
ghost use Rattle.dlk_tree.specs.Trees.{Tree, sort};
ghost use Rattle.dlk_calculus.specs.Pairs.{Pair, is_of_kind};
ghost use Rattle.dlk_calculus.specs.Sequents.{Sequent};
ghost use Rattle.dlk_calculus.specs.Steps.{Step};
ghost use Rattle.dlk_lines.specs.Parts.{Lacks};
ghost use Rattle.dlk_lines.specs.Spelled.{ByNodes, IsSequentText, IsFormulaText, ArePairsText};
ghost use Rattle.dlk_lines.specs.Written.{sequent_text, formula_text, pairs_text, trees_in, replacements_in};
ghost use Rattle.dlk_nodes.specs.Files.{Has};
ghost use Rattle.dlk_nodes.specs.Follow.{AreThere};
ghost use Rattle.dlk_nodes.specs.Lines.{Line, IsLine};
ghost use Rattle.dlk_nodes.specs.Nodes.{has_node};
ghost use Rattle.dlk_nodes.specs.Recorded.{Records, EndsInStep};
ghost use Rattle.dlk_nodes.specs.TermFiles.{all_nodes, first_lines, AreWritable};

/// A text says at most one line. The statement of term files asks for it.
pub fn one_line()
    ensures { (nodes : List Tree) (text : List ℕ) (a b : Line) → IsLine nodes text a → IsLine nodes text b → a ≡ b }
{}

/// A text says a line, or it says none. The statement of term files asks for it.
pub fn some_line()
    ensures { (nodes : List Tree) (text : List ℕ) → ((line : Line) × IsLine nodes text line) ⊎ ((line : Line) → ¬ IsLine nodes text line) }
{}

/// No line feed stands in a line.
pub fn lines_have_no_feed()
    ensures { (nodes : List Tree) (text : List ℕ) (line : Line) → IsLine nodes text line → Lacks text 10 }
{}

/// The written forms of sequents, formulas and pairs are read, where their trees have nodes and are of the sorts that are wanted.
/// The statement of term files asks for it.
pub fn written_trees_are_read()
    ensures sequent { (nodes : List Tree) → length nodes ≤ 999999999 → (s : Sequent) → AreThere nodes (trees_in s) →
        All (λ t. sort t ≡ of_sort.Formula) s.ante → All (λ t. sort t ≡ of_sort.Formula) s.succ →
        IsSequentText (ByNodes nodes) (sequent_text (ByNodes nodes) s) s }
    ensures formula { (nodes : List Tree) → length nodes ≤ 999999999 → (h : Tree) → has_node nodes h ≡ true → sort h ≡ of_sort.Formula →
        IsFormulaText (ByNodes nodes) (formula_text (ByNodes nodes) h) h }
    ensures pairs { (nodes : List Tree) → length nodes ≤ 999999999 → (ps : List Pair) → AreThere nodes (replacements_in ps) →
        All (λ (p : Pair). is_sym p.sym ≡ true) ps → All (λ (p : Pair). is_of_kind p.sym.kind p.by ≡ true) ps →
        ArePairsText (ByNodes nodes) (pairs_text (ByNodes nodes) ps) ps }
{}

/// First lines that record nodes and steps have these nodes and as many steps, and each state is one that is recorded.
pub fn states_are_recorded()
    ensures has { (lines : List (List ℕ)) (nodes : List Tree) (steps : List Step) → Records lines nodes steps → Has lines nodes (length steps) }
    ensures steps { (lines : List (List ℕ)) (nodes : List Tree) (n : ℕ) → Has lines nodes n →
        (steps : List Step) × (length steps ≡ n) × Records lines nodes steps }
{}

/// No line feed stands in the lines that record something.
pub fn recorded_lines_have_no_feed()
    ensures { (lines : List (List ℕ)) (nodes : List Tree) (steps : List Step) → Records lines nodes steps → All (λ line. Lacks line 10) lines }
{}

/// The lines of the term file of steps before `done` record these steps, and where there is one the last of them is its line.
/// The statement of term files asks for it.
pub fn term_is_recorded()
    ensures ends { (steps : List Step) → AreWritable steps → 1 ≤ length steps → length (all_nodes [] steps) ≤ 999999999 → length steps ≤ 999999999 →
        EndsInStep (first_lines steps) (all_nodes [] steps) steps }
    ensures recorded { (steps : List Step) → AreWritable steps → length (all_nodes [] steps) ≤ 999999999 → length steps ≤ 999999999 →
        Records (first_lines steps) (all_nodes [] steps) steps }
{}

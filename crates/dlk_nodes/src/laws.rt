//! The laws of node lines. Each is a contract of a function that does nothing.
ghost use Rattle.std.specs.Prelude.{◌≡◌, ◌⊎◌, ℕ, ◌+◌, ◌≤◌, ◌++◌, List, length, true, codes};
ghost use Rattle.dlk_tree.specs.Trees.{Tree};
ghost use Rattle.dlk_calculus.specs.Steps.{Step};
ghost use Rattle.dlk_lines.specs.Spelled.{ByNodes};
ghost use Rattle.dlk_lines.specs.Lines.{IsStepLine};
ghost use Rattle.dlk_lines.specs.Laws.{SaysOne, SaysOrNot};
ghost use Rattle.dlk_nodes.specs.Nodes.{has_node, IsNodeLine};
ghost use Rattle.dlk_nodes.specs.Files.{Has};
ghost use Rattle.dlk_nodes.specs.Written.{numbered_text, node_text};
ghost use Rattle.dlk_nodes.specs.Terms.{new_nodes, new_in_each};
ghost use Rattle.dlk_nodes.specs.Follow.{AreThere, HasKidsThere, IsGood, EachGood, IsNext, Follow};

/// A text says at most one number and one tree as the line of a node. The statement of term files asks for it.
pub fn one_node_line()
    ensures { (nodes : List Tree) (line : List ℕ) (m n : ℕ) (s t : Tree) → IsNodeLine nodes line m s → IsNodeLine nodes line n t → (m ≡ n) × (s ≡ t) }
{}

/// A text is the line of a node, or it is none. The statement of term files asks for it.
pub fn some_node_line()
    ensures { (nodes : List Tree) (line : List ℕ) → ((m : ℕ) × (t : Tree) × IsNodeLine nodes line m t) ⊎ ((m : ℕ) (t : Tree) → ¬ IsNodeLine nodes line m t) }
{}

/// The nodes that a tree lacks may be written one after another, and then the tree has a node. So may those of several trees in turn.
/// The statement of term files asks for it.
pub fn new_nodes_follow()
    ensures one { (nodes : List Tree) (t : Tree) → IsGood t → Follow nodes (new_nodes nodes t) × (has_node (nodes ++ new_nodes nodes t) t ≡ true) }
    ensures each { (nodes ts : List Tree) → EachGood ts → Follow nodes (new_in_each nodes ts) × AreThere (nodes ++ new_in_each nodes ts) ts }
{}

/// The written line of the next node is read as that node, with its number. The statement of term files asks for it.
pub fn written_node_is_read()
    ensures { (nodes : List Tree) (t : Tree) → length nodes + 1 ≤ 999999999 → IsNext nodes t → IsNodeLine nodes (node_text nodes t) (length nodes + 1) t }
{}

/// The line of a node stays where more nodes come behind those of its kids.
pub fn node_text_stays()
    ensures { (nodes more : List Tree) (number : ℕ) (t : Tree) → HasKidsThere nodes t → numbered_text number (nodes ++ more) t ≡ numbered_text number nodes t }
{}

/// By the numbers of nodes a text says at most one sequent, one formula and one list of pairs.
/// The statement of term files asks for it.
pub fn one_by_nodes()
    ensures { (nodes : List Tree) → SaysOne (ByNodes nodes) }
{}

/// By the numbers of nodes a text says a sequent, a formula and a list of pairs, or it says none.
/// The statement of term files asks for it.
pub fn some_by_nodes()
    ensures { (nodes : List Tree) → SaysOrNot (ByNodes nodes) }
{}

/// A line of a file says at most one thing: it isn't the line of a node and that of a step, and `done` is neither.
/// The statement of term files asks for it.
pub fn lines_differ()
    ensures node_or_step { (nodes : List Tree) (line : List ℕ) (m n : ℕ) (t : Tree) (s : Step) → IsNodeLine nodes line m t →
        IsStepLine (ByNodes nodes) line n s → ⊥ }
    ensures step { (nodes : List Tree) (line : List ℕ) (m n : ℕ) (s t : Step) → IsStepLine (ByNodes nodes) line m s → IsStepLine (ByNodes nodes) line n t →
        (m ≡ n) × (s ≡ t) }
    ensures done { (nodes : List Tree) (m : ℕ) (t : Tree) → ¬ IsNodeLine nodes (codes "done") m t }
{}

/// First lines of a file have at most one list of nodes and one number of steps.
/// The statement of term files asks for it.
pub fn one_state()
    ensures { (before : List (List ℕ)) (m n : List Tree) (j k : ℕ) → Has before m j → Has before n k → (m ≡ n) × (j ≡ k) }
{}

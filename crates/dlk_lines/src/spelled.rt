//! How the trees of a step are spelled.
ghost use Rattle.std.specs.Prelude.{◌≡◌, ◌+◌, ◌≤◌, List, [], ◌∷◌, IfOk, IfErr};
ghost use Rattle.dlk_tree.specs.Trees.{Tree};
ghost use Rattle.dlk_calculus.specs.Pairs.{Pair as TreePair};
ghost use Rattle.dlk_calculus.specs.Sequents.{Sequent as TreeSequent};
ghost use Rattle.dlk_store.specs.Stores.{IsId, tree};
ghost use Rattle.dlk_sequent.specs.Sequents.{sequent_at, IsKnown};
ghost use Rattle.dlk_sequent.specs.Substitutions.{pairs_at, AreKnownPairs};
ghost use Rattle.dlk_print.specs.Printed.{Appends};
ghost use Rattle.dlk_lines.specs.Spelled.{Spelling, IsSequentText, ArePairsText, IsFormulaText};
ghost use Rattle.dlk_lines.specs.Written.{sequent_text, pairs_text, formula_text, trees_in, replacements_in};
ghost use Rattle.dlk_lines.specs.Looks.{sequent_looks, pairs_looks, formula_looks};
ghost use Rattle.dlk_lines.specs.Read.{IsLineFaultOf};

use crate::fault::LineFault;
use dlk_print::PrintFault;
use dlk_sequent::{Listed, Pair, Sequent};
use dlk_store::{Id, Steps, Store};
use std::alloc::Global;
use std::sync::ledger::Ledger;

/// Reads the trees of a step from their texts, into a store. The spelling may name trees of the store, as the nodes of a file are.
///
/// Each call is `Malformed` exactly where the text says nothing of the kind, and `Memory` when memory runs out. Whatever comes, the
/// store keeps its trees, and the spelling stays.
pub trait Spelled {
    /// What texts say, over the trees of the store.
    ghost spelling: { Self → List Tree → Spelling };

    /// It may be used with a store of these trees.
    ghost IsReady: { Self → List Tree → Type 0 };

    /// The sequent that the text says.
    fn sequent<S: Store>(
        &mut self,
        alloc: Global,
        text: &[u8],
        store: &mut S,
    ) -> Result<Sequent, LineFault>
        requires ready { IsReady self.old (S.trees store.old) }
        ensures found { IfOk result (λ s. IsSequentText (spelling self.old (S.trees store.old)) text.now (sequent_at (S.trees store.new) s)) }
        ensures known { IfOk result (IsKnown (S.trees store.new)) }
        ensures fault { IfErr result (IsLineFaultOf ((s : TreeSequent) → ¬ IsSequentText (spelling self.old (S.trees store.old)) text.now s)) }
        ensures stays { spelling self.new (S.trees store.new) ≡ spelling self.old (S.trees store.old) }
        ensures grows { S.grows store.old store.new };

    /// The pairs of a substitution that the text says.
    fn pairs<S: Store>(
        &mut self,
        alloc: Global,
        text: &[u8],
        store: &mut S,
    ) -> Result<Listed<Pair>, LineFault>
        requires ready { IsReady self.old (S.trees store.old) }
        ensures found { IfOk result (λ pairs. ArePairsText (spelling self.old (S.trees store.old)) text.now (pairs_at (S.trees store.new) pairs)) }
        ensures known { IfOk result (AreKnownPairs (S.trees store.new)) }
        ensures fault { IfErr result (IsLineFaultOf ((pairs : List TreePair) → ¬ ArePairsText (spelling self.old (S.trees store.old)) text.now pairs)) }
        ensures stays { spelling self.new (S.trees store.new) ≡ spelling self.old (S.trees store.old) }
        ensures grows { S.grows store.old store.new };

    /// The formula that the text says.
    fn formula<S: Store>(
        &mut self,
        alloc: Global,
        text: &[u8],
        store: &mut S,
    ) -> Result<Id, LineFault>
        requires ready { IsReady self.old (S.trees store.old) }
        ensures found { IfOk result (λ h. IsFormulaText (spelling self.old (S.trees store.old)) text.now (tree (S.trees store.new) h)) }
        ensures known { IfOk result (IsId (S.trees store.new)) }
        ensures fault { IfErr result (IsLineFaultOf ((h : Tree) → ¬ IsFormulaText (spelling self.old (S.trees store.old)) text.now h)) }
        ensures stays { spelling self.new (S.trees store.new) ≡ spelling self.old (S.trees store.old) }
        ensures grows { S.grows store.old store.new };
}

/// Appends the texts of the trees of a step. Their ids are those of the store that it writes of.
///
/// Each call fails for want of memory alone, and then a prefix of the text was appended.
pub trait Spells {
    /// What the ids stand for.
    ghost trees: { Self → List Tree };

    /// How it writes.
    ghost spelling: { Self → Spelling };

    /// It can write these trees.
    ghost Has: { Self → List Tree → Type 0 };

    /// Appends a sequent.
    fn sequent<L: Ledger>(
        &self,
        s: &Sequent,
        out: &mut Vec<u8>,
        steps: &mut Steps<L>,
    ) -> Result<(), PrintFault>
        requires known { IsKnown (trees self.now) s.now }
        requires there { Has self.now (trees_in (sequent_at (trees self.now) s.now)) }
        ensures text { Appends out.old.items out.new.items (sequent_text (spelling self.now) (sequent_at (trees self.now) s.now)) result }
        ensures cost { steps.new ≤ steps.old + sequent_looks (spelling self.now) (sequent_at (trees self.now) s.now) };

    /// Appends the pairs of a substitution.
    fn pairs<L: Ledger>(
        &self,
        pairs: &[Pair],
        out: &mut Vec<u8>,
        steps: &mut Steps<L>,
    ) -> Result<(), PrintFault>
        requires known { AreKnownPairs (trees self.now) pairs.now }
        requires there { Has self.now (replacements_in (pairs_at (trees self.now) pairs.now)) }
        ensures text { Appends out.old.items out.new.items (pairs_text (spelling self.now) (pairs_at (trees self.now) pairs.now)) result }
        ensures cost { steps.new ≤ steps.old + pairs_looks (spelling self.now) (pairs_at (trees self.now) pairs.now) };

    /// Appends a formula.
    fn formula<L: Ledger>(
        &self,
        h: Id,
        out: &mut Vec<u8>,
        steps: &mut Steps<L>,
    ) -> Result<(), PrintFault>
        requires known { IsId (trees self.now) h }
        requires there { Has self.now (tree (trees self.now) h ∷ []) }
        ensures text { Appends out.old.items out.new.items (formula_text (spelling self.now) (tree (trees self.now) h)) result }
        ensures cost { steps.new ≤ steps.old + formula_looks (spelling self.now) (tree (trees self.now) h) };
}

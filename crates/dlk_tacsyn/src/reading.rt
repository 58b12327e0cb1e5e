//! Reads the texts of strategies.
ghost use Rattle.std.specs.Prelude.{◌≡◌, IfOk, IfErr};
ghost use Rattle.dlk_tacsyn.specs.Faults.{IsTacSyntaxOf};
ghost use Rattle.dlk_tacsyn.specs.Rows.{AreOfText};
ghost use Rattle.dlk_tacsyn.specs.Strategies.{Says, Fails, StrategyText, StrategyFault};
ghost use Rattle.dlk_tacsyn.specs.Ties.{tactic_at, TacticIsKnown};
ghost use Rattle.dlk_tacsyn.specs.Steps.{outcome_of};
ghost use Rattle.dlk_tacsyn.specs.States.{ByReading};

use crate::fault::TacSyntax;
use crate::laws::fit_strategy;
use crate::reader::Reader;
use crate::tactic::Tactic;
use dlk_machine::laws::{extra_texts, tree_texts};
use dlk_scripts::{Part, parts};
use dlk_store::Store;
use std::alloc::Global;

/// The strategy that the bytes are a text of. Each quoted text is read into the store, once.
///
/// # Errors
///
/// `Syntax` comes exactly where the bytes are no text of the grammar of strategies. In a text of the grammar the first fault
/// is answered: `Nesting`, `Repeat`, `UnknownAtom` or `Arguments`, with its byte. `Memory` may come at any time. Whatever
/// comes, the store keeps its trees.
pub fn strategy<S: Store>(alloc: Global, bytes: &[u8], store: &mut S) -> Result<Tactic, TacSyntax>
    ensures found { IfOk result (λ t. StrategyText bytes.now (tactic_at (S.trees store.new) t)) }
    ensures known { IfOk result (TacticIsKnown (S.trees store.new)) }
    ensures fitting { IfOk result (λ t. AreOfText (tactic_at (S.trees store.new) t)) }
    ensures fault { IfErr result (IsTacSyntaxOf (StrategyFault bytes.now)) }
    ensures grows { S.grows store.old store.new }
{
    tree_texts();
    extra_texts();
    fit_strategy();
    let parts = parts(alloc, bytes)?;
    read_parts(alloc, parts, store)
}

/// The strategy that parts of a text say.
fn read_parts<S: Store>(alloc: Global, parts: Vec<Part>, store: &mut S) -> Result<Tactic, TacSyntax>
    ensures found { IfOk result (λ t. ByReading (λ read. outcome_of read parts.items ≡ Says (tactic_at (S.trees store.new) t))) }
    ensures known { IfOk result (TacticIsKnown (S.trees store.new)) }
    ensures fault { IfErr result (IsTacSyntaxOf (λ f. ByReading (λ read. outcome_of read parts.items ≡ Fails f))) }
    ensures grows { S.grows store.old store.new }
{
    let mut reader = Reader::new(alloc);
    for part in parts {
        reader = reader.take(alloc, part, store)?;
    }
    reader.finish(alloc, store)
}

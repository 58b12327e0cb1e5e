//! Formulas, expressions, sequents, substitutions and extras of bytes.
ghost use Rattle.std.specs.Prelude.{◌≡◌, IfOk, IfErr};
ghost use Rattle.dlk_tree.specs.Trees.{Tree};
ghost use Rattle.dlk_calculus.specs.Sequents.{IsFormula, IsSequent};
ghost use Rattle.dlk_grammar.specs.declared.token.Form.TheVariants as form_of;
ghost use Rattle.dlk_grammar.specs.declared.token.Dots.TheVariants.{Refused};
ghost use Rattle.dlk_grammar.specs.Texts.{TreeText, SequentText, PairsText, ExtraText, TreeTextFault, SequentTextFault, PairsTextFault, ExtraTextFault};
ghost use Rattle.dlk_lex.specs.declared.source.Origin.TheVariants.{Bytes};
ghost use Rattle.dlk_store.specs.Stores.{tree, StandsFor};
ghost use Rattle.dlk_sequent.specs.Sequents.{sequent_at, IsKnown};
ghost use Rattle.dlk_sequent.specs.Substitutions.{pairs_at, AreKnownPairs};
ghost use Rattle.dlk_sequent.specs.Extras.{extra_at, IsKnownExtra};
ghost use Rattle.dlk_parse.specs.Faults.{IsTextFaultOf, UnlessTextMemory};

use crate::fault::TextFault;
use crate::owned::{extra_of, pairs_of, sequent_of, tree_of};
use dlk_grammar::{Dots, Form};
use dlk_lex::Origin;
use dlk_sequent::{Extra, Pair, Sequent};
use dlk_store::{Id, Store};
use std::alloc::Global;

/// All bytes.
fn of_bytes(bytes: &[u8]) -> Origin<'_>
    ensures { result ≡ Bytes bytes.entry 0 }
{
    Origin::Bytes { bytes, at: 0 }
}

/// The formula that the bytes are a text of. Argument dots and `_` are not in the grammar.
///
/// # Errors
///
/// `BadByte` comes exactly where the split into tokens comes to a byte at which no token, space or whole comment begins.
/// Else the errors are those of `formula`, in `Unread`; `Memory` may come at any time. Whatever comes, the store keeps its
/// trees.
pub fn read_formula<S: Store>(alloc: Global, bytes: &[u8], store: &mut S) -> Result<Id, TextFault>
    ensures found { IfOk result (λ id. (t : Tree) × TreeText form_of.Formula Refused bytes.now t × StandsFor (S.trees store.new) id t) }
    ensures formula { IfOk result (λ id. IsFormula (tree (S.trees store.new) id)) }
    ensures fault { IfErr result (IsTextFaultOf (TreeTextFault form_of.Formula Refused bytes.now)) }
    ensures unmade { IfErr result (UnlessTextMemory (store.new ≡ store.old)) }
    ensures grows { S.grows store.old store.new }
{
    let id = tree_of(alloc, Form::Formula, of_bytes(bytes), Dots::Refused, store)?;
    Ok(id)
}

/// The term that the bytes are a text of. Argument dots and `_` are not in the grammar. The errors are those of `read_formula`.
pub fn read_term<S: Store>(alloc: Global, bytes: &[u8], store: &mut S) -> Result<Id, TextFault>
    ensures found { IfOk result (λ id. (t : Tree) × TreeText form_of.Term Refused bytes.now t × StandsFor (S.trees store.new) id t) }
    ensures fault { IfErr result (IsTextFaultOf (TreeTextFault form_of.Term Refused bytes.now)) }
    ensures unmade { IfErr result (UnlessTextMemory (store.new ≡ store.old)) }
    ensures grows { S.grows store.old store.new }
{
    let id = tree_of(alloc, Form::Term, of_bytes(bytes), Dots::Refused, store)?;
    Ok(id)
}

/// The formula, the program, or the term that is no formula, of which the bytes are a text. The errors are those of
/// `read_formula`.
pub fn read_expression<S: Store>(
    alloc: Global,
    bytes: &[u8],
    dots: Dots,
    store: &mut S,
) -> Result<Id, TextFault>
    ensures found { IfOk result (λ id. (t : Tree) × TreeText form_of.Expression dots bytes.now t × StandsFor (S.trees store.new) id t) }
    ensures fault { IfErr result (IsTextFaultOf (TreeTextFault form_of.Expression dots bytes.now)) }
    ensures unmade { IfErr result (UnlessTextMemory (store.new ≡ store.old)) }
    ensures grows { S.grows store.old store.new }
{
    let id = tree_of(alloc, Form::Expression, of_bytes(bytes), dots, store)?;
    Ok(id)
}

/// The sequent that the bytes are a text of: formulas joined by `,`, then `==>`, then formulas joined by `,`. Argument
/// dots and `_` are not in the grammar. The errors are those of `read_formula`.
pub fn read_sequent<S: Store>(
    alloc: Global,
    bytes: &[u8],
    store: &mut S,
) -> Result<Sequent, TextFault>
    ensures found { IfOk result (λ s. SequentText bytes.now (sequent_at (S.trees store.new) s)) }
    ensures known { IfOk result (IsKnown (S.trees store.new)) }
    ensures formulas { IfOk result (λ s. IsSequent (sequent_at (S.trees store.new) s)) }
    ensures fault { IfErr result (IsTextFaultOf (SequentTextFault bytes.now)) }
    ensures unmade { IfErr result (UnlessTextMemory (store.new ≡ store.old)) }
    ensures grows { S.grows store.old store.new }
{
    let sequent = sequent_of(alloc, of_bytes(bytes), store)?;
    Ok(sequent)
}

/// The pairs of the substitution that the bytes are a text of: pairs joined by `,`, or nothing. Argument dots and `_` are in
/// the grammar. The errors are those of `read_formula`, with those of `substitution` in `Unread`. Nothing says that the pairs
/// are well formed.
pub fn read_substitution<S: Store>(
    alloc: Global,
    bytes: &[u8],
    store: &mut S,
) -> Result<Vec<Pair>, TextFault>
    ensures found { IfOk result (λ pairs. PairsText bytes.now (pairs_at (S.trees store.new) pairs.items)) }
    ensures known { IfOk result (λ pairs. AreKnownPairs (S.trees store.new) pairs.items) }
    ensures fault { IfErr result (IsTextFaultOf (PairsTextFault bytes.now)) }
    ensures unmade { IfErr result (UnlessTextMemory (store.new ≡ store.old)) }
    ensures grows { S.grows store.old store.new }
{
    let pairs = pairs_of(alloc, of_bytes(bytes), store)?;
    Ok(pairs)
}

/// What the bytes give a use of an axiom beside its name, by the grammar of `extra`. The errors are those of
/// `read_substitution`.
pub fn read_extra<S: Store>(alloc: Global, bytes: &[u8], store: &mut S) -> Result<Extra, TextFault>
    ensures found { IfOk result (λ extra. ExtraText bytes.now (extra_at (S.trees store.new) extra)) }
    ensures known { IfOk result (IsKnownExtra (S.trees store.new)) }
    ensures fault { IfErr result (IsTextFaultOf (ExtraTextFault bytes.now)) }
    ensures unmade { IfErr result (UnlessTextMemory (store.new ≡ store.old)) }
    ensures grows { S.grows store.old store.new }
{
    let extra = extra_of(alloc, of_bytes(bytes), store)?;
    Ok(extra)
}

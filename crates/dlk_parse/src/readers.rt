//! Terms, formulas, programs, expressions, sequents, substitutions and extras of tokens.
ghost use Rattle.std.specs.Prelude.{◌≡◌, IfOk, IfErr};
ghost use Rattle.dlk_tree.specs.Trees.{sort};
ghost use Rattle.dlk_tree.specs.declared.op.Sort.TheVariants as sort_of;
ghost use Rattle.dlk_calculus.specs.Sequents.{IsSequent};
ghost use Rattle.dlk_grammar.specs.declared.token.Form.TheVariants as form_of;
ghost use Rattle.dlk_grammar.specs.declared.token.Dots.TheVariants.{Refused};
ghost use Rattle.dlk_grammar.specs.RealTokens.{AreTokens};
ghost use Rattle.dlk_grammar.specs.Readings.{IsTree, IsTreeFault, IsSequentOf, IsSequentFault};
ghost use Rattle.dlk_grammar.specs.Substitutions.{ArePairs, ArePairsFault};
ghost use Rattle.dlk_grammar.specs.Extras.{AreExtra, AreExtraFault};
ghost use Rattle.dlk_store.specs.Stores.{IsId, tree};
ghost use Rattle.dlk_sequent.specs.Sequents.{sequent_at, IsKnown};
ghost use Rattle.dlk_sequent.specs.Substitutions.{pairs_at, AreKnownPairs};
ghost use Rattle.dlk_sequent.specs.Extras.{extra_at, IsKnownExtra};
ghost use Rattle.dlk_parse.specs.Faults.{IsParseFaultOf, UnlessMemory};

use crate::fault::ParseFault;
use crate::owned::{extra_of, pairs_of, sequent_of, tree_of};
use dlk_grammar::{Dots, Form, Token};
use dlk_lex::Origin;
use dlk_sequent::{Extra, Pair, Sequent};
use dlk_store::{Id, Store};
use std::alloc::Global;

/// The formula that the tokens are a text of. They are those of a whole text, with its end, as `dlk_lex` answers them.
///
/// # Errors
///
/// The first of these that applies, in this order. `Literal`: a literal has more than 38 digits as written. `Nesting`: a
/// bracket opens level 1,201. `Syntax`: the tokens are not in the grammar; the byte of the first token at which no text of
/// the grammar goes on. `Shape`: an application has more than 8
/// arguments, or a system has more than 64 items or evolves a variable twice. `TooBig` and `TooDeep`: the tree has more
/// than 65,536 nodes or is deeper than 1,000. `Memory` may come at any time. No node is made unless the tokens are a text
/// within the limits, and whatever comes, the store keeps its trees.
pub fn formula<S: Store>(
    alloc: Global,
    tokens: &[Token],
    dots: Dots,
    store: &mut S,
) -> Result<Id, ParseFault>
    requires { AreTokens tokens.now }
    ensures found { IfOk result (λ id. IsTree form_of.Formula dots tokens.now (tree (S.trees store.new) id)) }
    ensures known { IfOk result (IsId (S.trees store.new)) }
    ensures sort { IfOk result (λ id. sort (tree (S.trees store.new) id) ≡ sort_of.Formula) }
    ensures fault { IfErr result (IsParseFaultOf (IsTreeFault form_of.Formula dots tokens.now)) }
    ensures unmade { IfErr result (UnlessMemory (store.new ≡ store.old)) }
    ensures grows { S.grows store.old store.new }
{
    let id = tree_of(alloc, Form::Formula, Origin::Tokens(tokens), dots, store)?;
    Ok(id)
}

/// The term that the tokens are a text of. The tokens and the errors are those of `formula`.
pub fn term<S: Store>(
    alloc: Global,
    tokens: &[Token],
    dots: Dots,
    store: &mut S,
) -> Result<Id, ParseFault>
    requires { AreTokens tokens.now }
    ensures found { IfOk result (λ id. IsTree form_of.Term dots tokens.now (tree (S.trees store.new) id)) }
    ensures known { IfOk result (IsId (S.trees store.new)) }
    ensures sort { IfOk result (λ id. sort (tree (S.trees store.new) id) ≡ sort_of.Term) }
    ensures fault { IfErr result (IsParseFaultOf (IsTreeFault form_of.Term dots tokens.now)) }
    ensures unmade { IfErr result (UnlessMemory (store.new ≡ store.old)) }
    ensures grows { S.grows store.old store.new }
{
    let id = tree_of(alloc, Form::Term, Origin::Tokens(tokens), dots, store)?;
    Ok(id)
}

/// The program that the tokens are a text of. The tokens and the errors are those of `formula`.
pub fn program<S: Store>(
    alloc: Global,
    tokens: &[Token],
    dots: Dots,
    store: &mut S,
) -> Result<Id, ParseFault>
    requires { AreTokens tokens.now }
    ensures found { IfOk result (λ id. IsTree form_of.Program dots tokens.now (tree (S.trees store.new) id)) }
    ensures known { IfOk result (IsId (S.trees store.new)) }
    ensures sort { IfOk result (λ id. sort (tree (S.trees store.new) id) ≡ sort_of.Program) }
    ensures fault { IfErr result (IsParseFaultOf (IsTreeFault form_of.Program dots tokens.now)) }
    ensures unmade { IfErr result (UnlessMemory (store.new ≡ store.old)) }
    ensures grows { S.grows store.old store.new }
{
    let id = tree_of(alloc, Form::Program, Origin::Tokens(tokens), dots, store)?;
    Ok(id)
}

/// The formula, the program, or the term that is no formula, of which the tokens are a text. The tokens and the errors
/// are those of `formula`.
pub fn expression<S: Store>(
    alloc: Global,
    tokens: &[Token],
    dots: Dots,
    store: &mut S,
) -> Result<Id, ParseFault>
    requires { AreTokens tokens.now }
    ensures found { IfOk result (λ id. IsTree form_of.Expression dots tokens.now (tree (S.trees store.new) id)) }
    ensures known { IfOk result (IsId (S.trees store.new)) }
    ensures fault { IfErr result (IsParseFaultOf (IsTreeFault form_of.Expression dots tokens.now)) }
    ensures unmade { IfErr result (UnlessMemory (store.new ≡ store.old)) }
    ensures grows { S.grows store.old store.new }
{
    let id = tree_of(alloc, Form::Expression, Origin::Tokens(tokens), dots, store)?;
    Ok(id)
}

/// The sequent that the tokens are a text of: formulas joined by `,`, then `==>`, then formulas joined by `,`. Argument
/// dots and `_` are not in the grammar. The tokens and the errors are those of `formula`; the size and the depth are those
/// of the first formula, from left to right, that is beyond the limit.
pub fn sequent<S: Store>(
    alloc: Global,
    tokens: &[Token],
    store: &mut S,
) -> Result<Sequent, ParseFault>
    requires { AreTokens tokens.now }
    ensures found { IfOk result (λ s. IsSequentOf tokens.now (sequent_at (S.trees store.new) s)) }
    ensures known { IfOk result (IsKnown (S.trees store.new)) }
    ensures formulas { IfOk result (λ s. IsSequent (sequent_at (S.trees store.new) s)) }
    ensures fault { IfErr result (IsParseFaultOf (IsSequentFault tokens.now)) }
    ensures unmade { IfErr result (UnlessMemory (store.new ≡ store.old)) }
    ensures grows { S.grows store.old store.new }
{
    let sequent = sequent_of(alloc, Origin::Tokens(tokens), store)?;
    Ok(sequent)
}

/// The pairs of the substitution that the tokens are a text of: pairs joined by `,`, or nothing. Argument dots and `_` are
/// in the grammar. The tokens and the errors are those of `formula`; the size and the depth are those of the first
/// replacement, from left to right, that is beyond the limit. Nothing says that the pairs are well formed: `Subst::new` does.
pub fn substitution<S: Store>(
    alloc: Global,
    tokens: &[Token],
    store: &mut S,
) -> Result<Vec<Pair>, ParseFault>
    requires { AreTokens tokens.now }
    ensures found { IfOk result (λ pairs. ArePairs tokens.now (pairs_at (S.trees store.new) pairs.items)) }
    ensures known { IfOk result (λ pairs. AreKnownPairs (S.trees store.new) pairs.items) }
    ensures fault { IfErr result (IsParseFaultOf (ArePairsFault tokens.now)) }
    ensures unmade { IfErr result (UnlessMemory (store.new ≡ store.old)) }
    ensures grows { S.grows store.old store.new }
{
    let pairs = pairs_of(alloc, Origin::Tokens(tokens), store)?;
    Ok(pairs)
}

/// What the tokens give a use of an axiom beside its name: renames joined by `,`, each a name, `~~` and the name that it
/// gets, and behind them the pairs of a substitution, joined by `,`; or one of these alone, or nothing. Argument dots and
/// `_` are in the grammar. The tokens and the errors are those of `substitution`.
pub fn extra<S: Store>(alloc: Global, tokens: &[Token], store: &mut S) -> Result<Extra, ParseFault>
    requires { AreTokens tokens.now }
    ensures found { IfOk result (λ extra. AreExtra tokens.now (extra_at (S.trees store.new) extra)) }
    ensures known { IfOk result (IsKnownExtra (S.trees store.new)) }
    ensures fault { IfErr result (IsParseFaultOf (AreExtraFault tokens.now)) }
    ensures unmade { IfErr result (UnlessMemory (store.new ≡ store.old)) }
    ensures grows { S.grows store.old store.new }
{
    let extra = extra_of(alloc, Origin::Tokens(tokens), store)?;
    Ok(extra)
}

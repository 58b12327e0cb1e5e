//! Parses trees, sequents, pairs and extras from bytes or tokens.
ghost use Rattle.std.specs.Prelude.{◌≡◌, IfOk, IfErr, List, length, map};
ghost use Rattle.dlk_grammar.specs.declared.token.Token.{Token as TheToken};
ghost use Rattle.dlk_calculus.specs.Sequents.{IsSequent};
ghost use Rattle.dlk_lex.specs.Taken.{IsOrigin, Gives};
ghost use Rattle.dlk_grammar.specs.Readings.{grammar, itself, IsTree, IsTreeFault, IsSequentOf, IsSequentFault};
ghost use Rattle.dlk_grammar.specs.Substitutions.{ArePairs, ArePairsFault};
ghost use Rattle.dlk_grammar.specs.Extras.{AreExtra, AreExtraFault};
ghost use Rattle.dlk_store.specs.Stores.{IsId, tree};
ghost use Rattle.dlk_sequent.specs.Sequents.{sequent_at, IsKnown};
ghost use Rattle.dlk_sequent.specs.Substitutions.{pairs_at, AreKnownPairs};
ghost use Rattle.dlk_sequent.specs.Extras.{extra_at, IsKnownExtra};
ghost use Rattle.dlk_parse.specs.Faults.{IsTextFaultOf, IsFaultFrom, UnlessTextMemory};
ghost use Rattle.dlk_parse.specs.Said.{IsReadCode, AreReadSides, AreReadPairs, IsReadExtra};

use crate::fault::TextFault;
use crate::limits::check_code;
use crate::making::make_all;
use crate::tokens::{check_tokens, refusal};
use dlk_forms::{ExtraCode, PairsCode, SidesCode, read_extra, read_pairs, read_sides, read_tree};
use dlk_grammar::{Dots, Form};
use dlk_lex::{Origin, Source};
use dlk_reader::Code;
use dlk_sequent::{Extra, Listed, Pair, Sequent};
use dlk_store::{Id, Store};
use dlk_tree::Sym;
use std::alloc::{AllocError, Global};

/// The code of the tree that the tokens are a text of.
fn tree_code(
    alloc: Global,
    form: Form,
    origin: Origin<'_>,
    dots: Dots,
) -> Result<Vec<Code>, TextFault>
    requires { IsOrigin origin }
    ensures read { IfOk result (λ v. (ts : List TheToken) × Gives origin.entry ts × IsReadCode (grammar form) itself dots ts v.items) }
    ensures fault { IfErr result (IsTextFaultOf (IsFaultFrom origin.entry (IsTreeFault form dots))) }
{
    let mut source = Source::new(alloc, origin);
    match read_tree(alloc, form, dots, &mut source) {
        Ok(code) => {
            check_tokens(&source)?;
            check_code(alloc, source.starts(), code.as_slice())?;
            Ok(code)
        }
        Err(stop) => Err(refusal(&source, stop)),
    }
}

/// The code of the formulas of the sequent that the tokens are a text of.
fn sides_code(alloc: Global, origin: Origin<'_>) -> Result<SidesCode, TextFault>
    requires { IsOrigin origin }
    ensures read { IfOk result (λ v. (ts : List TheToken) × Gives origin.entry ts × AreReadSides ts v) }
    ensures fault { IfErr result (IsTextFaultOf (IsFaultFrom origin.entry IsSequentFault)) }
{
    let mut source = Source::new(alloc, origin);
    match read_sides(alloc, &mut source) {
        Ok(sides) => {
            check_tokens(&source)?;
            check_code(alloc, source.starts(), sides.code.as_slice())?;
            Ok(sides)
        }
        Err(stop) => Err(refusal(&source, stop)),
    }
}

/// The code of the pairs of the substitution that the tokens are a text of.
fn pairs_code(alloc: Global, origin: Origin<'_>) -> Result<PairsCode, TextFault>
    requires { IsOrigin origin }
    ensures read { IfOk result (λ v. (ts : List TheToken) × Gives origin.entry ts × AreReadPairs ts v) }
    ensures fault { IfErr result (IsTextFaultOf (IsFaultFrom origin.entry ArePairsFault)) }
{
    let mut source = Source::new(alloc, origin);
    match read_pairs(alloc, &mut source) {
        Ok(pairs) => {
            check_tokens(&source)?;
            check_code(alloc, source.starts(), pairs.code.as_slice())?;
            Ok(pairs)
        }
        Err(stop) => Err(refusal(&source, stop)),
    }
}

/// The code of the renames and the pairs that the tokens are a text of.
fn extra_code(alloc: Global, origin: Origin<'_>) -> Result<ExtraCode, TextFault>
    requires { IsOrigin origin }
    ensures read { IfOk result (λ v. (ts : List TheToken) × Gives origin.entry ts × IsReadExtra ts v) }
    ensures fault { IfErr result (IsTextFaultOf (IsFaultFrom origin.entry AreExtraFault)) }
{
    let mut source = Source::new(alloc, origin);
    match read_extra(alloc, &mut source) {
        Ok(extra) => {
            check_tokens(&source)?;
            check_code(alloc, source.starts(), extra.pairs.code.as_slice())?;
            Ok(extra)
        }
        Err(stop) => Err(refusal(&source, stop)),
    }
}

/// The tree that the tokens are a text of.
pub(crate) fn tree_of<S: Store>(
    alloc: Global,
    form: Form,
    origin: Origin<'_>,
    dots: Dots,
    store: &mut S,
) -> Result<Id, TextFault>
    requires { IsOrigin origin }
    ensures found { IfOk result (λ id. (ts : List TheToken) × Gives origin.entry ts × IsTree form dots ts (tree (S.trees store.new) id)) }
    ensures known { IfOk result (IsId (S.trees store.new)) }
    ensures fault { IfErr result (IsTextFaultOf (IsFaultFrom origin.entry (IsTreeFault form dots))) }
    ensures unmade { IfErr result (UnlessTextMemory (store.new ≡ store.old)) }
    ensures grows { S.grows store.old store.new }
{
    let code = tree_code(alloc, form, origin, dots)?;
    let ids = make_all(alloc, code, store)?;
    Ok(ids[0])
}

/// The sequent that the tokens are a text of.
pub(crate) fn sequent_of<S: Store>(
    alloc: Global,
    origin: Origin<'_>,
    store: &mut S,
) -> Result<Sequent, TextFault>
    requires { IsOrigin origin }
    ensures found { IfOk result (λ s. (ts : List TheToken) × Gives origin.entry ts × IsSequentOf ts (sequent_at (S.trees store.new) s)) }
    ensures known { IfOk result (IsKnown (S.trees store.new)) }
    ensures formulas { IfOk result (λ s. IsSequent (sequent_at (S.trees store.new) s)) }
    ensures fault { IfErr result (IsTextFaultOf (IsFaultFrom origin.entry IsSequentFault)) }
    ensures unmade { IfErr result (UnlessTextMemory (store.new ≡ store.old)) }
    ensures grows { S.grows store.old store.new }
{
    let sides = sides_code(alloc, origin)?;
    let mut ante = make_all(alloc, sides.code, store)?;
    let succ = ante.split_off(sides.left)?;
    Ok(Sequent {
        ante: Listed::from_vec(ante),
        succ: Listed::from_vec(succ),
    })
}

/// The pairs of these symbols and replacements, in order.
fn pairs(alloc: Global, symbols: Vec<Sym>, ids: &[Id]) -> Result<Vec<Pair>, AllocError>
    requires { length symbols.items ≡ length ids.now }
    ensures symbols { IfOk result (λ pairs. map (λ p. p.sym) pairs.items ≡ symbols.items) }
    ensures ids { IfOk result (λ pairs. map (λ p. p.by) pairs.items ≡ ids.now) }
{
    let mut pairs = Vec::new(alloc);
    for sym in symbols {
        let by = ids[pairs.len()];
        pairs.push(Pair { sym, by })?;
    }
    Ok(pairs)
}

/// The pairs of the substitution that the tokens are a text of.
pub(crate) fn pairs_of<S: Store>(
    alloc: Global,
    origin: Origin<'_>,
    store: &mut S,
) -> Result<Vec<Pair>, TextFault>
    requires { IsOrigin origin }
    ensures found { IfOk result (λ pairs. (ts : List TheToken) × Gives origin.entry ts × ArePairs ts (pairs_at (S.trees store.new) pairs.items)) }
    ensures known { IfOk result (λ pairs. AreKnownPairs (S.trees store.new) pairs.items) }
    ensures fault { IfErr result (IsTextFaultOf (IsFaultFrom origin.entry ArePairsFault)) }
    ensures unmade { IfErr result (UnlessTextMemory (store.new ≡ store.old)) }
    ensures grows { S.grows store.old store.new }
{
    let PairsCode { symbols, code } = pairs_code(alloc, origin)?;
    let ids = make_all(alloc, code, store)?;
    let pairs = pairs(alloc, symbols, ids.as_slice())?;
    Ok(pairs)
}

/// The renames and the pairs that the tokens are a text of.
pub(crate) fn extra_of<S: Store>(
    alloc: Global,
    origin: Origin<'_>,
    store: &mut S,
) -> Result<Extra, TextFault>
    requires { IsOrigin origin }
    ensures found { IfOk result (λ extra. (ts : List TheToken) × Gives origin.entry ts × AreExtra ts (extra_at (S.trees store.new) extra)) }
    ensures known { IfOk result (IsKnownExtra (S.trees store.new)) }
    ensures fault { IfErr result (IsTextFaultOf (IsFaultFrom origin.entry AreExtraFault)) }
    ensures unmade { IfErr result (UnlessTextMemory (store.new ≡ store.old)) }
    ensures grows { S.grows store.old store.new }
{
    let ExtraCode {
        renames,
        pairs: PairsCode { symbols, code },
    } = extra_code(alloc, origin)?;
    let ids = make_all(alloc, code, store)?;
    let pairs = pairs(alloc, symbols, ids.as_slice())?;
    Ok(Extra {
        renames: Listed::from_vec(renames),
        pairs: Listed::from_vec(pairs),
    })
}

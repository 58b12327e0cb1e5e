// `subst FILE SUBST`: what a substitution makes of an expression.
ghost use Rattle.std.specs.Prelude.{◌≡◌, ◌+◌, ◌*◌, ◌≤◌, length, IsTrue, IfOk, OnOk, IfErr};
ghost use Rattle.dlk_calculus.specs.Limits.{IsSmall, IsShallow};
ghost use Rattle.dlk_calculus.specs.Subst.{Subst as IsSubst};
ghost use Rattle.dlk_grammar.specs.Texts.{PairsText};
ghost use Rattle.dlk_store.specs.Stores.{IsId, tree};
ghost use Rattle.dlk_sequent.specs.Substitutions.{AreKnownPairs, pairs_at, IsMadeOver};
ghost use Rattle.dlk_subst.specs.Results.{IsResult};
ghost use Rattle.dlk_memo.specs.Looks.{most_looks};
ghost use Rattle.dlk_jobs_text.specs.Looks.{LooksAtFew};
ghost use Rattle.dlk_jobs_text.specs.Substitutes.{pair_refused, Substitutes};
ghost use Rattle.dlk_jobs_text.specs.Refused.{RefusesPairs, RefusesPair, RefusesUse, RefusesLarge};
ghost use Rattle.dlk_replies.specs.Ended.{EndsIn};
ghost use Rattle.dlk_replies.specs.Shown.{reply_of};

use crate::print::{print_tree, read_file};
use dlk_calculus::{GREATEST_DEPTH, MOST_NODES, Why};
use dlk_grammar::Dots;
use dlk_memo::{ApplyFault, apply};
use dlk_parse::read_substitution;
use dlk_replies::{Ended, NoReply, Reply, Role, answer_of, end_by, refuse_text, refused};
use dlk_sequent::{Pair, Subst, SubstFault};
use dlk_shared::SharedStore;
use dlk_store::{Id, Steps, Store};
use std::alloc::Global;
use std::sync::ledger::Ledger;

/// The answer to pairs of which this is the first bad one.
fn refuse_pair(alloc: Global, pair: usize, why: Why) -> Result<Reply, NoReply>
    ensures { IfOk result (λ r. reply_of r ≡ pair_refused pair why) }
{
    let word = why.word();
    let why = format!(in alloc; "subst pair {pair}: {word}")?;
    refused(alloc, why.as_str())
}

/// The pairs of a substitution.
fn read_pairs<S: Store>(
    alloc: Global,
    substitution: &[u8],
    store: &mut S,
) -> Result<Vec<Pair>, Ended>
    ensures found { IfOk result (λ pairs. PairsText substitution.now (pairs_at (S.trees store.new) pairs.items)) }
    ensures known { IfOk result (λ pairs. AreKnownPairs (S.trees store.new) pairs.items) }
    ensures refused { IfErr result (EndsIn (RefusesPairs substitution.now)) }
    ensures grows { S.grows store.old store.new }
{
    match read_substitution(alloc, substitution, store) {
        Ok(pairs) => Ok(pairs),
        Err(fault) => Err(end_by(refuse_text(alloc, Role::Substitution, fault))),
    }
}

/// The substitution of these pairs.
fn substitution_of<S: Store, L: Ledger>(
    alloc: Global,
    store: &S,
    pairs: Vec<Pair>,
    steps: &mut Steps<L>,
) -> Result<Subst, Ended>
    requires known { AreKnownPairs (S.trees store.now) pairs.items }
    ensures pairs { IfOk result (λ sigma. sigma.pairs ≡ pairs.items) }
    ensures made { IfOk result (IsMadeOver (S.trees store.now)) }
    ensures refused { IfErr result (EndsIn (RefusesPair (pairs_at (S.trees store.now) pairs.items))) }
    ensures cost { steps.new ≤ steps.old + 2 * length pairs.items }
{
    match Subst::new(alloc, store, pairs, steps) {
        Ok(sigma) => Ok(sigma),
        Err(SubstFault::Ill { pair, why }) => Err(end_by(refuse_pair(alloc, pair, why))),
        Err(SubstFault::Memory) => Err(Ended::Memory),
    }
}

/// What a substitution makes of an expression, whatever its size.
fn result_of<S: Store, L: Ledger>(
    alloc: Global,
    store: &mut S,
    sigma: &Subst,
    expression: Id,
    steps: &mut Steps<L>,
) -> Result<Id, Ended>
    requires made { IsMadeOver (S.trees store.old) sigma.now }
    requires known { IsId (S.trees store.old) expression }
    ensures ok { IfOk result (IsResult (IsSubst (pairs_at (S.trees store.old) sigma.now.pairs) (tree (S.trees store.old) expression)) (S.trees store.new)) }
    ensures refused { IfErr result (EndsIn (RefusesUse (pairs_at (S.trees store.old) sigma.now.pairs) (tree (S.trees store.old) expression))) }
    ensures cost { IsTrue S.unique → steps.new ≤ steps.old + most_looks (pairs_at (S.trees store.old) sigma.now.pairs) (tree (S.trees store.old) expression) }
{
    match apply(alloc, store, sigma, expression, steps) {
        Ok(result) => Ok(result),
        Err(ApplyFault::NotAdmissible) => Err(end_by(refused(alloc, "not-admissible"))),
        Err(ApplyFault::Memory) => Err(Ended::Memory),
    }
}

/// Keeps a result within the limits of what is read.
fn keep_limits<S: Store>(alloc: Global, store: &S, made: Id) -> Result<(), Ended>
    requires { IsId (S.trees store.now) made }
    ensures small { OnOk result (IsSmall (tree (S.trees store.now) made)) }
    ensures shallow { OnOk result (IsShallow (tree (S.trees store.now) made)) }
    ensures refused { IfErr result (EndsIn (RefusesLarge (tree (S.trees store.now) made))) }
{
    if store.size(made) > MOST_NODES {
        return Err(end_by(refused(alloc, "result-too-big")));
    }
    if store.depth(made) > GREATEST_DEPTH {
        return Err(end_by(refused(alloc, "result-too-deep")));
    }
    Ok(())
}

/// Substitutes in an expression by a store in which a tree has at most one id.
fn subst_on<S: Store, L: Ledger>(
    alloc: Global,
    store: &mut S,
    file: &[u8],
    substitution: &[u8],
    steps: &mut Steps<L>,
) -> Result<Reply, Ended>
    requires { IsTrue S.unique }
    ensures reply { IfOk result (λ r. Substitutes file.now substitution.now (reply_of r)) }
    ensures ended { IfErr result (EndsIn (Substitutes file.now substitution.now)) }
    ensures looks { LooksAtFew file.now substitution.now steps.old steps.new }
{
    let expression = read_file(alloc, file, Dots::Refused, store)?;
    let pairs = read_pairs(alloc, substitution, store)?;
    let sigma = substitution_of(alloc, store, pairs, steps)?;
    let made = result_of(alloc, store, &sigma, expression, steps)?;
    keep_limits(alloc, store, made)?;
    let reply = print_tree(alloc, store, made, steps)?;
    Ok(reply)
}

/// Prints what a substitution makes of an expression, and a line feed. Where it makes nothing, or a tree past a limit, few nodes are
/// looked at: each subtree of the expression once, and for it each of the replacements' subtrees at most once.
///
/// # Errors
///
/// `Memory` alone: each refusal is a reply.
#[inline(never)]
pub fn subst<L: Ledger>(
    alloc: Global,
    file: &[u8],
    substitution: &[u8],
    steps: &mut Steps<L>,
) -> Result<Reply, NoReply>
    ensures reply { IfOk result (λ r. Substitutes file.now substitution.now (reply_of r)) }
    ensures looks { LooksAtFew file.now substitution.now steps.old steps.new }
{
    let mut store = SharedStore::new(alloc);
    answer_of(subst_on(alloc, &mut store, file, substitution, steps))
}

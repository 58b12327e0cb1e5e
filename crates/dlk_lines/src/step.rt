//! Steps by their words.
ghost use Rattle.std.specs.Prelude.{◌≡◌, ℕ, List, Err, IfSome, IfNone, IfOk, IfErr};
ghost use Rattle.dlk_calculus.specs.Pairs.{Pair as TreePair};
ghost use Rattle.dlk_calculus.specs.Rules.{Rule as TreeRule};
ghost use Rattle.dlk_calculus.specs.Steps.{Step as TreeStep};
ghost use Rattle.dlk_sequent.specs.Substitutions.{pairs_at, AreKnownPairs};
ghost use Rattle.dlk_rules.specs.Steps.{rule_at, RuleIsKnown, step_at, HasKnownIds};
ghost use Rattle.dlk_lines.specs.Lines.{IsStep};
ghost use Rattle.dlk_lines.specs.Parts.{FactGoal, FactGoalRule, FactGoalFact, FactPairs, FactNames, WordAndRest};
ghost use Rattle.dlk_lines.specs.declared.fault.LineFault.TheVariants.{Memory};
ghost use Rattle.dlk_lines.specs.Read.{IsLineFaultOf};
ghost use Rattle.dlk_lines.specs.Wants.{BeginsWithNumber, ApplyWants, RenameWants, StepWants, StepTextWants};

use crate::arguments::name;
use crate::digits::{number, number_before};
use crate::fault::LineFault;
use crate::parts::cut_at;
use crate::rule::read_rule;
use crate::spelled::Spelled;
use dlk_rules::{Rule, Step};
use dlk_sequent::{Listed, Pair};
use dlk_store::Store;
use dlk_tree::Name;
use std::alloc::Global;

/// The step that the text says, as it stands behind its number.
///
/// # Errors
///
/// `Malformed` exactly where the text says no step, and `Memory` when memory runs out. Whatever comes, the store keeps its trees,
/// and the spelling stays.
pub fn read_step<P: Spelled, S: Store>(
    alloc: Global,
    text: &[u8],
    spelled: &mut P,
    store: &mut S,
) -> Result<Step, LineFault>
    requires { P.IsReady spelled.old (S.trees store.old) }
    ensures found { IfOk result (λ step. IsStep (P.spelling spelled.old (S.trees store.old)) text.now (step_at (S.trees store.new) step)) }
    ensures known { IfOk result (HasKnownIds (S.trees store.new)) }
    ensures fault { IfErr result (IsLineFaultOf ((step : TreeStep) → ¬ IsStep (P.spelling spelled.old (S.trees store.old)) text.now step)) }
    ensures memory { result ≡ Err Memory → StepTextWants text.now }
    ensures stays { P.spelling spelled.new (S.trees store.new) ≡ P.spelling spelled.old (S.trees store.old) }
    ensures grows { S.grows store.old store.new }
{
    let Some((word, rest)) = cut_at(text, b' ') else {
        return Err(LineFault::Malformed);
    };
    let Ok(word) = str::from_utf8(word) else {
        return Err(LineFault::Malformed);
    };
    step_of_word(alloc, word, rest, spelled, store)
}

/// The step of a word, with what stands behind the word. The words are in the order in which proofs have most of them.
fn step_of_word<P: Spelled, S: Store>(
    alloc: Global,
    word: &str,
    rest: &[u8],
    spelled: &mut P,
    store: &mut S,
) -> Result<Step, LineFault>
    requires { P.IsReady spelled.old (S.trees store.old) }
    ensures found { IfOk result (λ step. WordAndRest (P.spelling spelled.old (S.trees store.old)) word.now rest.now (step_at (S.trees store.new) step)) }
    ensures known { IfOk result (HasKnownIds (S.trees store.new)) }
    ensures fault { IfErr result (IsLineFaultOf ((step : TreeStep) → ¬ WordAndRest (P.spelling spelled.old (S.trees store.old)) word.now rest.now step)) }
    ensures memory { result ≡ Err Memory → StepWants word.now rest.now }
    ensures stays { P.spelling spelled.new (S.trees store.new) ≡ P.spelling spelled.old (S.trees store.old) }
    ensures grows { S.grows store.old store.new }
{
    match word {
        "apply" => {
            let (fact, goal, rule) = read_apply(alloc, rest, spelled, store)?;
            Ok(Step::Apply { fact, goal, rule })
        }
        "subst" => {
            let (fact, pairs) = read_subst(alloc, rest, spelled, store)?;
            Ok(Step::Subst { fact, pairs })
        }
        "merge" => {
            let Some((fact, goal, by)) = read_merge(rest) else {
                return Err(LineFault::Malformed);
            };
            Ok(Step::Merge { fact, goal, by })
        }
        "rule" => Ok(Step::AxRule(name(alloc, rest)?)),
        "axiom" => Ok(Step::Axiom(name(alloc, rest)?)),
        "rename" => {
            let (fact, x, y) = read_rename(alloc, rest)?;
            Ok(Step::Rename { fact, x, y })
        }
        "leaf" => Ok(Step::Leaf(spelled.sequent(alloc, rest, store)?)),
        "start" => Ok(Step::Start(spelled.sequent(alloc, rest, store)?)),
        _ => Err(LineFault::Malformed),
    }
}

/// A fact and a goal, each with a space behind it, and what comes then.
fn fact_and_goal(text: &[u8]) -> Option<(u32, u32, &[u8])>
    ensures found { IfSome result (λ p. FactGoal text.now p.0 p.1 p.2.now) }
    ensures none { IfNone result ((fact goal : ℕ) (rest : List ℕ) → ¬ FactGoal text.now fact goal rest) }
{
    let (fact, rest) = number_before(text, b' ')?;
    let (goal, rest) = number_before(rest, b' ')?;
    Some((fact, goal, rest))
}

/// A fact, a goal and a rule.
fn read_apply<P: Spelled, S: Store>(
    alloc: Global,
    text: &[u8],
    spelled: &mut P,
    store: &mut S,
) -> Result<(u32, u32, Rule), LineFault>
    requires { P.IsReady spelled.old (S.trees store.old) }
    ensures found { IfOk result (λ p. FactGoalRule (P.spelling spelled.old (S.trees store.old)) text.now p.0 p.1 (rule_at (S.trees store.new) p.2)) }
    ensures known { IfOk result (λ p. RuleIsKnown (S.trees store.new) p.2) }
    ensures fault { IfErr result (IsLineFaultOf ((fact goal : ℕ) (rule : TreeRule) →
        ¬ FactGoalRule (P.spelling spelled.old (S.trees store.old)) text.now fact goal rule)) }
    ensures memory { result ≡ Err Memory → ApplyWants text.now }
    ensures stays { P.spelling spelled.new (S.trees store.new) ≡ P.spelling spelled.old (S.trees store.old) }
    ensures grows { S.grows store.old store.new }
{
    let Some((fact, goal, rest)) = fact_and_goal(text) else {
        return Err(LineFault::Malformed);
    };
    let rule = read_rule(alloc, rest, spelled, store)?;
    Ok((fact, goal, rule))
}

/// A fact, a goal of it, and the fact that is merged into the goal.
fn read_merge(text: &[u8]) -> Option<(u32, u32, u32)>
    ensures found { IfSome result (λ p. FactGoalFact text.now p.0 p.1 p.2) }
    ensures none { IfNone result ((fact goal by : ℕ) → ¬ FactGoalFact text.now fact goal by) }
{
    let (fact, goal, rest) = fact_and_goal(text)?;
    let by = number(rest)?;
    Some((fact, goal, by))
}

/// A fact and the pairs of a substitution.
fn read_subst<P: Spelled, S: Store>(
    alloc: Global,
    text: &[u8],
    spelled: &mut P,
    store: &mut S,
) -> Result<(u32, Listed<Pair>), LineFault>
    requires { P.IsReady spelled.old (S.trees store.old) }
    ensures found { IfOk result (λ p. FactPairs (P.spelling spelled.old (S.trees store.old)) text.now p.0 (pairs_at (S.trees store.new) p.1)) }
    ensures known { IfOk result (λ p. AreKnownPairs (S.trees store.new) p.1) }
    ensures fault { IfErr result (IsLineFaultOf ((fact : ℕ) (pairs : List TreePair) →
        ¬ FactPairs (P.spelling spelled.old (S.trees store.old)) text.now fact pairs)) }
    ensures memory { result ≡ Err Memory → BeginsWithNumber text.now 32 }
    ensures stays { P.spelling spelled.new (S.trees store.new) ≡ P.spelling spelled.old (S.trees store.old) }
    ensures grows { S.grows store.old store.new }
{
    let Some((fact, rest)) = number_before(text, b' ') else {
        return Err(LineFault::Malformed);
    };
    let pairs = spelled.pairs(alloc, rest, store)?;
    Ok((fact, pairs))
}

/// A fact and two names.
fn read_rename(alloc: Global, text: &[u8]) -> Result<(u32, Name, Name), LineFault>
    ensures found { IfOk result (λ p. FactNames text.now p.0 p.1 p.2) }
    ensures fault { IfErr result (IsLineFaultOf ((fact : ℕ) (x y : List ℕ) → ¬ FactNames text.now fact x y)) }
    ensures memory { result ≡ Err Memory → RenameWants text.now }
{
    let Some((fact, names)) = number_before(text, b' ') else {
        return Err(LineFault::Malformed);
    };
    let Some((x, y)) = cut_at(names, b' ') else {
        return Err(LineFault::Malformed);
    };
    let x = name(alloc, x)?;
    let y = name(alloc, y)?;
    Ok((fact, x, y))
}

//! The sequent rules: their words, their arguments and their premises.
ghost use Rattle.std.specs.Prelude.{◌≡◌, ◌≢◌, List, IfSome, IfNone, MatchOption, IfOk, IfErr, IsTrue};
ghost use Rattle.dlk_tree.specs.Trees.{Tree};
ghost use Rattle.dlk_calculus.specs.Rules.{Rule as TreeRule, IsProperRule, word_of, arguments_of, FirstAgainst};
ghost use Rattle.dlk_sequent.specs.Sequents.{sequent_at};
ghost use Rattle.dlk_rules.specs.declared.rule.RuleFault.TheVariants.{Memory};
ghost use Rattle.dlk_rules.specs.declared.rule.RuleWord.{RuleWord as TheWord};
ghost use Rattle.dlk_rules.specs.Steps.{rule_at, RuleIsKnown, side_of, IsOfFormulas, ArePremises, IsRuleFault};
ghost use Rattle.dlk_rules.specs.Words.{shape_in, arguments_at, ArgumentsAreKnown, text_of, wanted, IsCall};

use crate::arguments::{Arguments, Shape, Side};
use crate::closing::{close, close_false, close_true};
use crate::connectives::{
    and_left, and_right, equiv_left, equiv_right, imply_left, imply_right, not_left, not_right,
    or_left, or_right,
};
use crate::equivalences::{commute_left, commute_right, equivify_right};
use crate::quantifiers::{bound_left, bound_right, skolem_left, skolem_right};
use crate::structural::{
    co_hide_right, cut, cut_left, cut_right, exchange_left, exchange_right, hide_left, hide_right,
};
use dlk_rename::RenameFault;
use dlk_sequent::Sequent;
use dlk_store::{Id, Steps, Store, StoreFault};
use dlk_tree::Name;
use std::alloc::{AllocError, AllocFailed, Global};
use std::sync::ledger::Ledger;
use thiserror::Error;

/// A rule with its places, counted from 1: `i` is a place on the left, `j` one on the right, and `k` another one on the same side.
/// `h` is a formula, and `y` a name.
#[derive(Drop, Debug, PartialEq, Eq)]
pub enum Rule {
    /// `close(i,j)`
    Close(u32, u32),
    /// `closeTrue(j)`
    CloseTrue(u32),
    /// `closeFalse(i)`
    CloseFalse(u32),
    /// `notL(i)`
    NotL(u32),
    /// `notR(j)`
    NotR(u32),
    /// `andL(i)`
    AndL(u32),
    /// `andR(j)`
    AndR(u32),
    /// `orL(i)`
    OrL(u32),
    /// `orR(j)`
    OrR(u32),
    /// `implyL(i)`
    ImplyL(u32),
    /// `implyR(j)`
    ImplyR(u32),
    /// `equivL(i)`
    EquivL(u32),
    /// `equivR(j)`
    EquivR(u32),
    /// `cut(h)`
    Cut(Id),
    /// `cutL(i,h)`
    CutL(u32, Id),
    /// `cutR(j,h)`
    CutR(u32, Id),
    /// `hideL(i)`
    HideL(u32),
    /// `hideR(j)`
    HideR(u32),
    /// `coHideR(j)`
    CoHideR(u32),
    /// `exchangeL(i,k)`
    ExchangeL(u32, u32),
    /// `exchangeR(j,k)`
    ExchangeR(u32, u32),
    /// `skolemL(i)`
    SkolemL(u32),
    /// `skolemR(j)`
    SkolemR(u32),
    /// `boundL(i,y)`
    BoundL(u32, Name),
    /// `boundR(j,y)`
    BoundR(u32, Name),
    /// `equivifyR(j)`
    EquivifyR(u32),
    /// `commuteEquivL(i)`
    CommuteEquivL(u32),
    /// `commuteEquivR(j)`
    CommuteEquivR(u32),
}

/// The word of a rule, which says what arguments it wants.
#[derive(Clone, Copy, Debug, PartialEq, Eq)]
pub enum RuleWord {
    Close,
    CloseTrue,
    CloseFalse,
    NotL,
    NotR,
    AndL,
    AndR,
    OrL,
    OrR,
    ImplyL,
    ImplyR,
    EquivL,
    EquivR,
    Cut,
    CutL,
    CutR,
    HideL,
    HideR,
    CoHideR,
    ExchangeL,
    ExchangeR,
    SkolemL,
    SkolemR,
    BoundL,
    BoundR,
    EquivifyR,
    CommuteEquivL,
    CommuteEquivR,
}

impl RuleWord {
    /// The word as it is written.
    pub fn text(self) -> &'static str
        ensures { result.now ≡ text_of self }
    {
        let (text, _, _) = self.row();
        text
    }

    /// The shape of the arguments that stand behind it.
    pub fn shape(self) -> Shape
        ensures { result ≡ wanted self }
    {
        let (_, shape, _) = self.row();
        shape
    }

    /// The side that its places are on. None comes for `close`, which has one on each side, and for `cut`, which has none.
    pub fn side(self) -> Option<Side>
        ensures { result ≡ side_of self }
    {
        let (_, _, side) = self.row();
        side
    }

    /// The word as it is written, the shape of its arguments, and the side of its places: a row a rule.
    fn row(self) -> (&'static str, Shape, Option<Side>)
        ensures text { result.0.now ≡ text_of self }
        ensures shape { result.1 ≡ wanted self }
        ensures side { result.2 ≡ side_of self }
    {
        match self {
            RuleWord::Close => ("close", Shape::TwoPlaces, None),
            RuleWord::CloseTrue => ("closeTrue", Shape::OnePlace, Some(Side::Right)),
            RuleWord::CloseFalse => ("closeFalse", Shape::OnePlace, Some(Side::Left)),
            RuleWord::NotL => ("notL", Shape::OnePlace, Some(Side::Left)),
            RuleWord::NotR => ("notR", Shape::OnePlace, Some(Side::Right)),
            RuleWord::AndL => ("andL", Shape::OnePlace, Some(Side::Left)),
            RuleWord::AndR => ("andR", Shape::OnePlace, Some(Side::Right)),
            RuleWord::OrL => ("orL", Shape::OnePlace, Some(Side::Left)),
            RuleWord::OrR => ("orR", Shape::OnePlace, Some(Side::Right)),
            RuleWord::ImplyL => ("implyL", Shape::OnePlace, Some(Side::Left)),
            RuleWord::ImplyR => ("implyR", Shape::OnePlace, Some(Side::Right)),
            RuleWord::EquivL => ("equivL", Shape::OnePlace, Some(Side::Left)),
            RuleWord::EquivR => ("equivR", Shape::OnePlace, Some(Side::Right)),
            RuleWord::Cut => ("cut", Shape::OneFormula, None),
            RuleWord::CutL => ("cutL", Shape::PlaceAndFormula, Some(Side::Left)),
            RuleWord::CutR => ("cutR", Shape::PlaceAndFormula, Some(Side::Right)),
            RuleWord::HideL => ("hideL", Shape::OnePlace, Some(Side::Left)),
            RuleWord::HideR => ("hideR", Shape::OnePlace, Some(Side::Right)),
            RuleWord::CoHideR => ("coHideR", Shape::OnePlace, Some(Side::Right)),
            RuleWord::ExchangeL => ("exchangeL", Shape::TwoPlaces, Some(Side::Left)),
            RuleWord::ExchangeR => ("exchangeR", Shape::TwoPlaces, Some(Side::Right)),
            RuleWord::SkolemL => ("skolemL", Shape::OnePlace, Some(Side::Left)),
            RuleWord::SkolemR => ("skolemR", Shape::OnePlace, Some(Side::Right)),
            RuleWord::BoundL => ("boundL", Shape::PlaceAndName, Some(Side::Left)),
            RuleWord::BoundR => ("boundR", Shape::PlaceAndName, Some(Side::Right)),
            RuleWord::EquivifyR => ("equivifyR", Shape::OnePlace, Some(Side::Right)),
            RuleWord::CommuteEquivL => ("commuteEquivL", Shape::OnePlace, Some(Side::Left)),
            RuleWord::CommuteEquivR => ("commuteEquivR", Shape::OnePlace, Some(Side::Right)),
        }
    }

    /// The word that the text is. None comes where no rule has it.
    pub fn of(text: &str) -> Option<RuleWord>
        ensures found { IfSome result (λ word. text_of word ≡ text.now) }
        ensures none { IfNone result ((rule : TreeRule) → word_of rule ≢ text.now) }
    {
        RuleWord::of_bytes(text.as_bytes())
    }

    /// The word that the bytes are. None comes where no rule has it.
    pub fn of_bytes(text: &[u8]) -> Option<RuleWord>
        ensures found { IfSome result (λ word. text_of word ≡ text.now) }
        ensures none { IfNone result ((rule : TreeRule) → word_of rule ≢ text.now) }
    {
        RuleWord::named(text)
    }

    /// The word that the bytes are.
    fn named(text: &[u8]) -> Option<RuleWord>
        ensures found { IfSome result (λ word. text_of word ≡ text.now) }
        ensures none { IfNone result ((word : TheWord) → text_of word ≢ text.now) }
    {
        match text {
            b"close" => Some(RuleWord::Close),
            b"closeTrue" => Some(RuleWord::CloseTrue),
            b"closeFalse" => Some(RuleWord::CloseFalse),
            b"notL" => Some(RuleWord::NotL),
            b"notR" => Some(RuleWord::NotR),
            b"andL" => Some(RuleWord::AndL),
            b"andR" => Some(RuleWord::AndR),
            b"orL" => Some(RuleWord::OrL),
            b"orR" => Some(RuleWord::OrR),
            b"implyL" => Some(RuleWord::ImplyL),
            b"implyR" => Some(RuleWord::ImplyR),
            b"equivL" => Some(RuleWord::EquivL),
            b"equivR" => Some(RuleWord::EquivR),
            b"cut" => Some(RuleWord::Cut),
            b"cutL" => Some(RuleWord::CutL),
            b"cutR" => Some(RuleWord::CutR),
            b"hideL" => Some(RuleWord::HideL),
            b"hideR" => Some(RuleWord::HideR),
            b"coHideR" => Some(RuleWord::CoHideR),
            b"exchangeL" => Some(RuleWord::ExchangeL),
            b"exchangeR" => Some(RuleWord::ExchangeR),
            b"skolemL" => Some(RuleWord::SkolemL),
            b"skolemR" => Some(RuleWord::SkolemR),
            b"boundL" => Some(RuleWord::BoundL),
            b"boundR" => Some(RuleWord::BoundR),
            b"equivifyR" => Some(RuleWord::EquivifyR),
            b"commuteEquivL" => Some(RuleWord::CommuteEquivL),
            b"commuteEquivR" => Some(RuleWord::CommuteEquivR),
            _ => None,
        }
    }

    /// The rule of this word with these arguments. None comes where the word wants arguments of another shape.
    pub fn rule(self, arguments: Arguments<Name>) -> Option<Rule>
        ensures { MatchOption result (shape_in arguments ≢ wanted self) (λ rule. (trees : List Tree) → IsCall trees self arguments rule) }
    {
        match self {
            RuleWord::Close => {
                let (i, k) = arguments.two_places()?;
                Some(Rule::Close(i, k))
            }
            RuleWord::CloseTrue => Some(Rule::CloseTrue(arguments.place()?)),
            RuleWord::CloseFalse => Some(Rule::CloseFalse(arguments.place()?)),
            RuleWord::NotL => Some(Rule::NotL(arguments.place()?)),
            RuleWord::NotR => Some(Rule::NotR(arguments.place()?)),
            RuleWord::AndL => Some(Rule::AndL(arguments.place()?)),
            RuleWord::AndR => Some(Rule::AndR(arguments.place()?)),
            RuleWord::OrL => Some(Rule::OrL(arguments.place()?)),
            RuleWord::OrR => Some(Rule::OrR(arguments.place()?)),
            RuleWord::ImplyL => Some(Rule::ImplyL(arguments.place()?)),
            RuleWord::ImplyR => Some(Rule::ImplyR(arguments.place()?)),
            RuleWord::EquivL => Some(Rule::EquivL(arguments.place()?)),
            RuleWord::EquivR => Some(Rule::EquivR(arguments.place()?)),
            RuleWord::Cut => Some(Rule::Cut(arguments.formula()?)),
            RuleWord::CutL => {
                let (i, h) = arguments.place_and_formula()?;
                Some(Rule::CutL(i, h))
            }
            RuleWord::CutR => {
                let (i, h) = arguments.place_and_formula()?;
                Some(Rule::CutR(i, h))
            }
            RuleWord::HideL => Some(Rule::HideL(arguments.place()?)),
            RuleWord::HideR => Some(Rule::HideR(arguments.place()?)),
            RuleWord::CoHideR => Some(Rule::CoHideR(arguments.place()?)),
            RuleWord::ExchangeL => {
                let (i, k) = arguments.two_places()?;
                Some(Rule::ExchangeL(i, k))
            }
            RuleWord::ExchangeR => {
                let (i, k) = arguments.two_places()?;
                Some(Rule::ExchangeR(i, k))
            }
            RuleWord::SkolemL => Some(Rule::SkolemL(arguments.place()?)),
            RuleWord::SkolemR => Some(Rule::SkolemR(arguments.place()?)),
            RuleWord::BoundL => {
                let (i, y) = arguments.place_and_name()?;
                Some(Rule::BoundL(i, y))
            }
            RuleWord::BoundR => {
                let (i, y) = arguments.place_and_name()?;
                Some(Rule::BoundR(i, y))
            }
            RuleWord::EquivifyR => Some(Rule::EquivifyR(arguments.place()?)),
            RuleWord::CommuteEquivL => Some(Rule::CommuteEquivL(arguments.place()?)),
            RuleWord::CommuteEquivR => Some(Rule::CommuteEquivR(arguments.place()?)),
        }
    }
}

impl Rule {
    /// Its word.
    pub fn word(&self) -> RuleWord
        ensures { (trees : List Tree) → text_of result ≡ word_of (rule_at trees self.now) }
    {
        let (word, _) = self.parts();
        word
    }

    /// Its arguments.
    pub fn arguments(&self) -> Arguments<&Name>
        ensures arguments { (trees : List Tree) → arguments_at (λ y. y.now) trees result ≡ arguments_of (rule_at trees self.now) }
        ensures known { (trees : List Tree) → RuleIsKnown trees self.now → ArgumentsAreKnown trees result }
    {
        let (_, arguments) = self.parts();
        arguments
    }

    /// Every rule is proper: the name among its arguments, where there is one, is a name.
    pub fn is_proper(&self) -> bool
        ensures value { IsTrue result }
        ensures proper { (trees : List Tree) → IsProperRule (rule_at trees self.now) }
    {
        match self {
            Rule::BoundL(_, y) | Rule::BoundR(_, y) => y.is_name(),
            _ => true,
        }
    }

    /// Its word and its arguments: a row a rule.
    fn parts(&self) -> (RuleWord, Arguments<&Name>)
        ensures word { (trees : List Tree) → text_of result.0 ≡ word_of (rule_at trees self.now) }
        ensures arguments { (trees : List Tree) → arguments_at (λ y. y.now) trees result.1 ≡ arguments_of (rule_at trees self.now) }
        ensures known { (trees : List Tree) → RuleIsKnown trees self.now → ArgumentsAreKnown trees result.1 }
    {
        match self {
            Rule::Close(i, k) => (RuleWord::Close, Arguments::TwoPlaces(*i, *k)),
            Rule::CloseTrue(i) => (RuleWord::CloseTrue, Arguments::OnePlace(*i)),
            Rule::CloseFalse(i) => (RuleWord::CloseFalse, Arguments::OnePlace(*i)),
            Rule::NotL(i) => (RuleWord::NotL, Arguments::OnePlace(*i)),
            Rule::NotR(i) => (RuleWord::NotR, Arguments::OnePlace(*i)),
            Rule::AndL(i) => (RuleWord::AndL, Arguments::OnePlace(*i)),
            Rule::AndR(i) => (RuleWord::AndR, Arguments::OnePlace(*i)),
            Rule::OrL(i) => (RuleWord::OrL, Arguments::OnePlace(*i)),
            Rule::OrR(i) => (RuleWord::OrR, Arguments::OnePlace(*i)),
            Rule::ImplyL(i) => (RuleWord::ImplyL, Arguments::OnePlace(*i)),
            Rule::ImplyR(i) => (RuleWord::ImplyR, Arguments::OnePlace(*i)),
            Rule::EquivL(i) => (RuleWord::EquivL, Arguments::OnePlace(*i)),
            Rule::EquivR(i) => (RuleWord::EquivR, Arguments::OnePlace(*i)),
            Rule::Cut(h) => (RuleWord::Cut, Arguments::OneFormula(*h)),
            Rule::CutL(i, h) => (RuleWord::CutL, Arguments::PlaceAndFormula(*i, *h)),
            Rule::CutR(i, h) => (RuleWord::CutR, Arguments::PlaceAndFormula(*i, *h)),
            Rule::HideL(i) => (RuleWord::HideL, Arguments::OnePlace(*i)),
            Rule::HideR(i) => (RuleWord::HideR, Arguments::OnePlace(*i)),
            Rule::CoHideR(i) => (RuleWord::CoHideR, Arguments::OnePlace(*i)),
            Rule::ExchangeL(i, k) => (RuleWord::ExchangeL, Arguments::TwoPlaces(*i, *k)),
            Rule::ExchangeR(i, k) => (RuleWord::ExchangeR, Arguments::TwoPlaces(*i, *k)),
            Rule::SkolemL(i) => (RuleWord::SkolemL, Arguments::OnePlace(*i)),
            Rule::SkolemR(i) => (RuleWord::SkolemR, Arguments::OnePlace(*i)),
            Rule::BoundL(i, y) => (RuleWord::BoundL, Arguments::PlaceAndName(*i, y)),
            Rule::BoundR(i, y) => (RuleWord::BoundR, Arguments::PlaceAndName(*i, y)),
            Rule::EquivifyR(i) => (RuleWord::EquivifyR, Arguments::OnePlace(*i)),
            Rule::CommuteEquivL(i) => (RuleWord::CommuteEquivL, Arguments::OnePlace(*i)),
            Rule::CommuteEquivR(i) => (RuleWord::CommuteEquivR, Arguments::OnePlace(*i)),
        }
    }
}

/// The premises that a rule makes of a sequent. The ids of the rule and of the sequent are those of the store, and those of the sequent
/// stand for trees of formula sort.
///
/// # Errors
///
/// The first of these that applies, or `Memory`; the store may have more nodes then:
///
/// - `NoPlace`: a place of the rule isn't there.
/// - `WrongShape`: a formula at a place hasn't the form that the rule wants, or the rule's own formula isn't one, or a dot or `_`
///   stands in it.
/// - `NotEqual`: two formulas that the rule wants to be the same are not.
/// - `NotFresh`: a variable that the rule wants to be fresh is not.
pub fn premises<S: Store, L: Ledger>(
    alloc: Global,
    store: &mut S,
    rule: &Rule,
    s: &Sequent,
    steps: &mut Steps<L>,
) -> Result<Vec<Sequent>, RuleFault>
    requires rule { RuleIsKnown (S.trees store.old) rule.now }
    requires sequent { IsOfFormulas (S.trees store.old) s.now }

    ensures made { IfOk result (ArePremises (rule_at (S.trees store.old) rule.now) (S.trees store.old) s.now (S.trees store.new)) }
    ensures fault { IfErr result (IsRuleFault (FirstAgainst (rule_at (S.trees store.old) rule.now) (sequent_at (S.trees store.old) s.now))) }
    ensures grows { S.grows store.old store.new }
{
    match rule {
        Rule::Close(i, j) => close(alloc, store, *i, *j, s),
        Rule::CloseTrue(j) => close_true(alloc, store, *j, s, steps),
        Rule::CloseFalse(i) => close_false(alloc, store, *i, s, steps),
        Rule::NotL(i) => not_left(alloc, store, *i, s, steps),
        Rule::NotR(j) => not_right(alloc, store, *j, s, steps),
        Rule::AndL(i) => and_left(alloc, store, *i, s, steps),
        Rule::AndR(j) => and_right(alloc, store, *j, s, steps),
        Rule::OrL(i) => or_left(alloc, store, *i, s, steps),
        Rule::OrR(j) => or_right(alloc, store, *j, s, steps),
        Rule::ImplyL(i) => imply_left(alloc, store, *i, s, steps),
        Rule::ImplyR(j) => imply_right(alloc, store, *j, s, steps),
        Rule::EquivL(i) => equiv_left(alloc, store, *i, s, steps),
        Rule::EquivR(j) => equiv_right(alloc, store, *j, s, steps),
        Rule::Cut(h) => cut(alloc, store, *h, s, steps),
        Rule::CutL(i, h) => cut_left(alloc, store, *i, *h, s, steps),
        Rule::CutR(j, h) => cut_right(alloc, store, *j, *h, s, steps),
        Rule::HideL(i) => hide_left(alloc, store, *i, s),
        Rule::HideR(j) => hide_right(alloc, store, *j, s),
        Rule::CoHideR(j) => co_hide_right(alloc, store, *j, s),
        Rule::ExchangeL(i, k) => exchange_left(alloc, store, *i, *k, s),
        Rule::ExchangeR(j, k) => exchange_right(alloc, store, *j, *k, s),
        Rule::SkolemL(i) => skolem_left(alloc, store, *i, s, steps),
        Rule::SkolemR(j) => skolem_right(alloc, store, *j, s, steps),
        Rule::BoundL(i, y) => bound_left(alloc, store, *i, y, s, steps),
        Rule::BoundR(j, y) => bound_right(alloc, store, *j, y, s, steps),
        Rule::EquivifyR(j) => equivify_right(alloc, store, *j, s, steps),
        Rule::CommuteEquivL(i) => commute_left(alloc, store, *i, s, steps),
        Rule::CommuteEquivR(j) => commute_right(alloc, store, *j, s, steps),
    }
}

/// Why a rule does not apply to a sequent, in the order in which it is looked for.
#[derive(Clone, Copy, Debug, PartialEq, Eq, Error)]
pub enum RuleFault {
    #[error("a place of the rule is not there")]
    NoPlace,
    #[error("a formula has not the form that the rule wants")]
    WrongShape,
    #[error("two formulas are not the same")]
    NotEqual,
    #[error("a variable is not fresh")]
    NotFresh,
    #[error("out of memory")]
    Memory,
}

impl From<AllocError> for RuleFault {
    ghost from_gives = { λ _ e. e ≡ Memory };

    fn from(_: AllocError) -> RuleFault {
        RuleFault::Memory
    }
}

impl<T: Drop> From<AllocFailed<T>> for RuleFault {
    ghost from_gives = { λ _ e. e ≡ Memory };

    fn from(_: AllocFailed<T>) -> RuleFault {
        RuleFault::Memory
    }
}

impl From<StoreFault> for RuleFault {
    ghost from_gives = { λ _ e. e ≡ Memory };

    fn from(_: StoreFault) -> RuleFault {
        RuleFault::Memory
    }
}

impl From<RenameFault> for RuleFault {
    ghost use Rattle.dlk_rules.specs.Quantifiers.{of_rename};

    ghost from_gives = { λ why e. e ≡ of_rename why };

    fn from(why: RenameFault) -> RuleFault {
        match why {
            RenameFault::WrongShape => RuleFault::WrongShape,
            RenameFault::NotFresh => RuleFault::NotFresh,
            RenameFault::Memory => RuleFault::Memory,
        }
    }
}

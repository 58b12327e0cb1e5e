//! How tightly operators bind, and the sorts.
ghost use Rattle.std.specs.Prelude.{◌≡◌, List, ◌∷◌};
ghost use Rattle.dlk_tree.specs.declared.op.Sort.{Sort as TheSort};
ghost use Rattle.dlk_machine.specs.Machine.{level, right_level, operand_sort, result_sort, prefix_level, prefix_sort, held_sort, wanted, place, allows};
ghost use Rattle.dlk_machine.specs.Machine.{Part as MachinePart, Prefix as MachinePrefix, Holder as MachineHolder};
ghost use Rattle.dlk_reader.specs.Shows.{shape, said, prefix_of, holder_of, operator_of, operator_before};

use crate::parts::{Between, Holder, Modality, Part, Prefix, Quantifier};
use dlk_grammar::Infix;
use dlk_tree::{Op, Sort};

/// How tightly an operator binds.
pub(crate) fn level(between: Between) -> u8
    ensures { result ≡ level (said between) }
{
    match between {
        Between::By(Infix::Equiv) => 1,
        Between::By(Infix::Imply) => 2,
        Between::By(Infix::Or) => 3,
        Between::By(Infix::And) => 4,
        Between::By(Infix::Equal) => 6,
        Between::By(Infix::NotEqual) => 6,
        Between::By(Infix::AtLeast) => 6,
        Between::By(Infix::Greater) => 6,
        Between::By(Infix::AtMost) => 6,
        Between::By(Infix::Less) => 6,
        Between::By(Infix::Add) => 7,
        Between::By(Infix::Sub) => 7,
        Between::By(Infix::Mul) => 8,
        Between::By(Infix::Div) => 8,
        Between::By(Infix::Pow) => 10,
        Between::By(Infix::Choice) => 1,
        Between::Next => 2,
    }
}

/// The least level of its right operand.
fn right_level(between: Between) -> u8
    ensures { result ≡ right_level (said between) }
{
    match between {
        Between::By(Infix::Equiv) => 1,
        Between::By(Infix::Imply) => 2,
        Between::By(Infix::Or) => 3,
        Between::By(Infix::And) => 4,
        Between::By(Infix::Equal) => 7,
        Between::By(Infix::NotEqual) => 7,
        Between::By(Infix::AtLeast) => 7,
        Between::By(Infix::Greater) => 7,
        Between::By(Infix::AtMost) => 7,
        Between::By(Infix::Less) => 7,
        Between::By(Infix::Add) => 8,
        Between::By(Infix::Sub) => 8,
        Between::By(Infix::Mul) => 9,
        Between::By(Infix::Div) => 9,
        Between::By(Infix::Pow) => 9,
        Between::By(Infix::Choice) => 1,
        Between::Next => 2,
    }
}

pub(crate) fn operand_sort(between: Between) -> Sort
    ensures { result ≡ operand_sort (said between) }
{
    match between {
        Between::By(Infix::Equiv) => Sort::Formula,
        Between::By(Infix::Imply) => Sort::Formula,
        Between::By(Infix::Or) => Sort::Formula,
        Between::By(Infix::And) => Sort::Formula,
        Between::By(Infix::Equal) => Sort::Term,
        Between::By(Infix::NotEqual) => Sort::Term,
        Between::By(Infix::AtLeast) => Sort::Term,
        Between::By(Infix::Greater) => Sort::Term,
        Between::By(Infix::AtMost) => Sort::Term,
        Between::By(Infix::Less) => Sort::Term,
        Between::By(Infix::Add) => Sort::Term,
        Between::By(Infix::Sub) => Sort::Term,
        Between::By(Infix::Mul) => Sort::Term,
        Between::By(Infix::Div) => Sort::Term,
        Between::By(Infix::Pow) => Sort::Term,
        Between::By(Infix::Choice) => Sort::Program,
        Between::Next => Sort::Program,
    }
}

pub(crate) fn result_sort(between: Between) -> Sort
    ensures { result ≡ result_sort (said between) }
{
    match between {
        Between::By(Infix::Equiv) => Sort::Formula,
        Between::By(Infix::Imply) => Sort::Formula,
        Between::By(Infix::Or) => Sort::Formula,
        Between::By(Infix::And) => Sort::Formula,
        Between::By(Infix::Equal) => Sort::Formula,
        Between::By(Infix::NotEqual) => Sort::Formula,
        Between::By(Infix::AtLeast) => Sort::Formula,
        Between::By(Infix::Greater) => Sort::Formula,
        Between::By(Infix::AtMost) => Sort::Formula,
        Between::By(Infix::Less) => Sort::Formula,
        Between::By(Infix::Add) => Sort::Term,
        Between::By(Infix::Sub) => Sort::Term,
        Between::By(Infix::Mul) => Sort::Term,
        Between::By(Infix::Div) => Sort::Term,
        Between::By(Infix::Pow) => Sort::Term,
        Between::By(Infix::Choice) => Sort::Program,
        Between::Next => Sort::Program,
    }
}

/// The operator of a tree that it makes.
pub(crate) fn operator(between: Between) -> Op
    ensures { result ≡ operator_of (said between) }
{
    match between {
        Between::By(Infix::Equiv) => Op::Equiv,
        Between::By(Infix::Imply) => Op::Imply,
        Between::By(Infix::Or) => Op::Or,
        Between::By(Infix::And) => Op::And,
        Between::By(Infix::Equal) => Op::Eq,
        Between::By(Infix::NotEqual) => Op::Ne,
        Between::By(Infix::AtLeast) => Op::Ge,
        Between::By(Infix::Greater) => Op::Gt,
        Between::By(Infix::AtMost) => Op::Le,
        Between::By(Infix::Less) => Op::Lt,
        Between::By(Infix::Add) => Op::Add,
        Between::By(Infix::Sub) => Op::Sub,
        Between::By(Infix::Mul) => Op::Mul,
        Between::By(Infix::Div) => Op::Div,
        Between::By(Infix::Pow) => Op::Pow,
        Between::By(Infix::Choice) => Op::Choice,
        Between::Next => Op::Seq,
    }
}

fn prefix_level(prefix: &Prefix) -> u8
    ensures { (p : MachinePrefix) → prefix.now ≡ prefix_of p → result ≡ prefix_level p }
{
    match prefix {
        Prefix::Minus => 9,
        Prefix::Not => 5,
        Prefix::Bound(_, _) => 5,
        Prefix::Modal(_) => 5,
    }
}

pub(crate) fn prefix_sort(prefix: &Prefix) -> Sort
    ensures { (p : MachinePrefix) → prefix.now ≡ prefix_of p → result ≡ prefix_sort p }
{
    match prefix {
        Prefix::Minus => Sort::Term,
        Prefix::Not => Sort::Formula,
        Prefix::Bound(_, _) => Sort::Formula,
        Prefix::Modal(_) => Sort::Formula,
    }
}

/// The operator of a tree that a prefix makes.
pub(crate) fn prefix_operator(prefix: Prefix) -> Op
    ensures { (p : MachinePrefix) → prefix ≡ prefix_of p → result ≡ operator_before p }
{
    match prefix {
        Prefix::Minus => Op::Neg,
        Prefix::Not => Op::Not,
        Prefix::Bound(Quantifier::ForAll, name) => Op::Forall(name),
        Prefix::Bound(Quantifier::ForSome, name) => Op::Exists(name),
        Prefix::Modal(Modality::InBox) => Op::Box,
        Prefix::Modal(Modality::InDia) => Op::Dia,
    }
}

/// The level that an open part wants.
pub(crate) fn wanted(part: &Part) -> u8
    ensures { (e : MachinePart) → part.now ≡ shape e → result ≡ wanted e }
{
    match part {
        Part::Left(between) => right_level(*between),
        Part::Before(prefix) => prefix_level(prefix),
        Part::Inside(_) => 0,
    }
}

/// What is to stand in a holder.
pub(crate) fn held_sort(holder: &Holder) -> Sort
    ensures { (h : MachineHolder) → holder.now ≡ holder_of h → result ≡ held_sort h }
{
    match holder {
        Holder::Round(true) => Sort::Formula,
        Holder::Round(false) => Sort::Term,
        Holder::Args { .. } => Sort::Term,
        Holder::InContext(_) => Sort::Formula,
        Holder::In(_) => Sort::Program,
        Holder::InBrace => Sort::Program,
        Holder::Assigns { .. } => Sort::Term,
        Holder::Tests => Sort::Formula,
        Holder::Evolves(_, _) => Sort::Term,
        Holder::Domain(_) => Sort::Formula,
        Holder::Notes(_) => Sort::Formula,
    }
}

/// What is to stand in an open part.
pub(crate) fn sort_in(part: &Part) -> Sort
    ensures { (g : TheSort) (e : MachinePart) (S : List MachinePart) → part.now ≡ shape e → result ≡ place g (e ∷ S) }
{
    match part {
        Part::Left(between) => operand_sort(*between),
        Part::Before(prefix) => prefix_sort(prefix),
        Part::Inside(holder) => held_sort(holder),
    }
}

/// Whether what is of a sort may stand where this sort is to stand. A formula may begin with a term.
pub(crate) fn allows(place: Sort, sort: Sort) -> bool
    ensures { result ≡ allows place sort }
{
    match (place, sort) {
        (Sort::Term, Sort::Term) => true,
        (Sort::Term, Sort::Formula) => false,
        (Sort::Term, Sort::Program) => false,
        (Sort::Formula, Sort::Term) => true,
        (Sort::Formula, Sort::Formula) => true,
        (Sort::Formula, Sort::Program) => false,
        (Sort::Program, Sort::Term) => false,
        (Sort::Program, Sort::Formula) => false,
        (Sort::Program, Sort::Program) => true,
    }
}

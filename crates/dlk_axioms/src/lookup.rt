//! The rows of the tables, by their names.
ghost use Rattle.std.specs.Prelude.{◌≡◌, find, map, take, drop, option_copied};
ghost use Rattle.std.specs.Str.{bytes_eq};
ghost use Rattle.dlk_calculus.specs.Axioms.{Axiom, box_axioms, loop_axioms, ode_axioms, differential_axioms, first_order_axioms, equality_axioms, axiom_named};
ghost use Rattle.dlk_calculus.specs.Axioms.{AxiomaticRule, axiomatic_rules, rule_named};
ghost use Rattle.dlk_axioms.specs.Answers.{Finds};
ghost use Rattle.dlk_axioms.specs.Rows.{said, said_of_rule};

use crate::table::{
    ASSIGNMENT_AXIOMS, AxiomRow, BOX_AXIOMS, COMPARISON_DIFFERENTIAL_AXIOMS,
    CONNECTIVE_DIFFERENTIAL_AXIOMS, DOMAIN_AXIOMS, EFFECT_AXIOMS, EQUALITY_AXIOMS,
    FIRST_ORDER_AXIOMS, LOOP_AXIOMS, ODE_AXIOMS, PRODUCT_DIFFERENTIAL_AXIOMS, RULES, RuleRow,
    SOLUTION_AXIOMS, SUM_DIFFERENTIAL_AXIOMS,
};

/// The rows of the axioms of diamonds, and of boxes of assignments.
fn assignment_rows() -> &'static [AxiomRow]
    ensures { map said result.now ≡ take 5 box_axioms }
{
    ASSIGNMENT_AXIOMS
}

/// The rows of the axioms of boxes of the other programs.
fn box_rows() -> &'static [AxiomRow]
    ensures { map said result.now ≡ drop 5 box_axioms }
{
    BOX_AXIOMS
}

/// The rows of the axioms of loops, and of what holds of all programs.
fn loop_rows() -> &'static [AxiomRow]
    ensures { map said result.now ≡ loop_axioms }
{
    LOOP_AXIOMS
}

/// The rows of the axioms of the domain of a system.
fn domain_rows() -> &'static [AxiomRow]
    ensures { map said result.now ≡ take 3 ode_axioms }
{
    DOMAIN_AXIOMS
}

/// The rows of the axioms of what a system does to its variables, and of the order of its items.
fn effect_rows() -> &'static [AxiomRow]
    ensures { map said result.now ≡ take 3 (drop 3 ode_axioms) }
{
    EFFECT_AXIOMS
}

/// The rows of the axioms of differential invariants and ghosts.
fn ode_rows() -> &'static [AxiomRow]
    ensures { map said result.now ≡ take 2 (drop 6 ode_axioms) }
{
    ODE_AXIOMS
}

/// The rows of the axioms of solutions of systems.
fn solution_rows() -> &'static [AxiomRow]
    ensures { map said result.now ≡ drop 8 ode_axioms }
{
    SOLUTION_AXIOMS
}

/// The rows of the axioms of differentials of constants, variables and sums.
fn sum_differential_rows() -> &'static [AxiomRow]
    ensures { map said result.now ≡ take 5 differential_axioms }
{
    SUM_DIFFERENTIAL_AXIOMS
}

/// The rows of the axioms of differentials of products, quotients and powers.
fn product_differential_rows() -> &'static [AxiomRow]
    ensures { map said result.now ≡ take 3 (drop 5 differential_axioms) }
{
    PRODUCT_DIFFERENTIAL_AXIOMS
}

/// The rows of the axioms of differentials of comparisons.
fn comparison_differential_rows() -> &'static [AxiomRow]
    ensures { map said result.now ≡ take 6 (drop 8 differential_axioms) }
{
    COMPARISON_DIFFERENTIAL_AXIOMS
}

/// The rows of the axioms of differentials of connectives and quantifiers.
fn connective_differential_rows() -> &'static [AxiomRow]
    ensures { map said result.now ≡ drop 14 differential_axioms }
{
    CONNECTIVE_DIFFERENTIAL_AXIOMS
}

/// The rows of the axioms of first order.
fn first_order_rows() -> &'static [AxiomRow]
    ensures { map said result.now ≡ first_order_axioms }
{
    FIRST_ORDER_AXIOMS
}

/// The rows of the axioms of equality.
fn equality_rows() -> &'static [AxiomRow]
    ensures { map said result.now ≡ equality_axioms }
{
    EQUALITY_AXIOMS
}

/// The rows of the axiomatic rules.
fn rule_rows() -> &'static [RuleRow]
    ensures { map said_of_rule result.now ≡ axiomatic_rules }
{
    RULES
}

/// The first row of this name.
fn axiom_among<'a>(rows: &'a [AxiomRow], name: &[u8]) -> Option<&'a AxiomRow>
    ensures { option_copied result ≡ find (λ row. bytes_eq row.name.now name.now) rows.now }
{
    rows.iter().find(|axiom| axiom.name == name)
}

/// The first row of this name.
fn rule_among<'a>(rows: &'a [RuleRow], name: &[u8]) -> Option<&'a RuleRow>
    ensures { option_copied result ≡ find (λ row. bytes_eq row.name.now name.now) rows.now }
{
    rows.iter().find(|rule| rule.name == name)
}

/// The row of the axiom of this name, which says what the axiom is.
pub(crate) fn axiom_row(name: &[u8]) -> Option<&'static AxiomRow>
    ensures { Finds (λ (a : Axiom) row. said row.now ≡ a) (axiom_named name.now) result }
{
    axiom_among(assignment_rows(), name)
        .or(axiom_among(box_rows(), name))
        .or(axiom_among(loop_rows(), name))
        .or(axiom_among(domain_rows(), name))
        .or(axiom_among(effect_rows(), name))
        .or(axiom_among(ode_rows(), name))
        .or(axiom_among(solution_rows(), name))
        .or(axiom_among(sum_differential_rows(), name))
        .or(axiom_among(product_differential_rows(), name))
        .or(axiom_among(comparison_differential_rows(), name))
        .or(axiom_among(connective_differential_rows(), name))
        .or(axiom_among(first_order_rows(), name))
        .or(axiom_among(equality_rows(), name))
}

/// The row of the axiomatic rule of this name, which says what the rule is.
pub(crate) fn rule_row(name: &[u8]) -> Option<&'static RuleRow>
    ensures { Finds (λ (r : AxiomaticRule) row. said_of_rule row.now ≡ r) (rule_named name.now) result }
{
    rule_among(rule_rows(), name)
}

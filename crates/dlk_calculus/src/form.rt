/// What an axiom says, by which it is used.
#[derive(Clone, Copy, Debug, PartialEq, Eq)]
pub enum AxiomForm {
    /// An equivalence of two formulas.
    E,
    /// An equation of two terms.
    Q,
    /// An equivalence under a condition.
    C,
    /// An equation under a condition.
    R,
    /// An implication.
    I,
    /// A fact.
    F,
}

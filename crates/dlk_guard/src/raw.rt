use crate::why::Why;

/// An axiom whose row is raw until a good instance of it is made.
#[derive(Clone, Copy, Debug, PartialEq, Eq)]
pub enum RawAxiom {
    /// `DI`
    Di,
    /// `DG`
    Dg,
}

/// What is known of a raw row: the axiom that it comes of, and why it is no good instance of it.
#[derive(Drop, Debug)]
pub struct Raw {
    pub origin: RawAxiom,
    pub why: Why,
}

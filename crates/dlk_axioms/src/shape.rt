//! The trees of axioms as constant data.

/// A tree whose operators have at most two kids.
#[derive(Clone, Copy)]
pub(crate) enum TreeShape {
    Leaf(Label),
    One(Label, &'static TreeShape),
    Two(Label, &'static TreeShape, &'static TreeShape),
}

/// An operator with its parts.
#[derive(Clone, Copy)]
pub(crate) enum Label {
    /// The variable of this name.
    Variable(&'static [u8]),
    /// The variable of this name, with a prime.
    Primed(&'static [u8]),
    Number(u8),
    /// A function of this name and with this many arguments.
    Apply(&'static [u8], u8),
    /// A function of all variables but the taboo.
    UnitFun(&'static [u8], Option<&'static [u8]>),
    /// A predicate of this name and with this many arguments.
    Holds(&'static [u8], u8),
    /// A predicate of all variables but the taboo.
    UnitPred(&'static [u8], Option<&'static [u8]>),
    /// A predicational.
    Predicational(&'static [u8]),
    /// A program constant.
    Const(&'static [u8]),
    Forall(&'static [u8]),
    Exists(&'static [u8]),
    /// An assignment to the variable of this name.
    Assign(&'static [u8]),
    /// An assignment to the variable of this name, with a prime.
    AssignPrimed(&'static [u8]),
    /// `x:=*;`
    Any(&'static [u8]),
    /// A system of these items.
    System(&'static [Item]),
    Neg,
    Diff,
    Add,
    Sub,
    Mul,
    Div,
    Pow,
    Eq,
    Ne,
    Ge,
    Gt,
    Le,
    Lt,
    Not,
    DiffF,
    And,
    Or,
    Imply,
    Equiv,
    Box,
    Dia,
    Test,
    Choice,
    Seq,
    Loop,
}

/// An item of a system.
#[derive(Clone, Copy)]
pub(crate) enum Item {
    /// `x'=`, whose right side is a kid of the system.
    Evolve(&'static [u8]),
    /// An ODE constant, which reads all variables but the taboo.
    Const(&'static [u8], Option<&'static [u8]>),
}

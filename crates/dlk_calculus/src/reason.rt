ghost use Rattle.std.specs.Prelude.{◌≡◌};
ghost use Rattle.dlk_calculus.specs.Reasons.{reason_text};

/// Why a step isn't taken, in the order in which it is looked for: the reasons why it is no step of the calculus, and
/// behind them the limits.
#[derive(Clone, Copy, Debug, PartialEq, Eq)]
pub enum Reason {
    /// The number of a fact is that of no row.
    NoFact,
    /// The number of a goal isn't from 1 to the number of goals.
    NoGoal,
    /// No axiom, or no axiomatic rule, has the name.
    UnknownName,
    /// A place of the rule isn't there.
    NoPlace,
    /// A formula hasn't the form that the rule wants, or a given formula can't stand in a sequent.
    WrongShape,
    /// Two formulas that the rule wants to be the same are not, or a goal isn't the conclusion of the fact that is merged into it.
    NotEqual,
    /// A variable that the rule wants to be fresh is not, or a symbol that may read variables not written with it stands in what it binds.
    NotFresh,
    /// A leaf is no sequent of arithmetic.
    NotArith,
    /// The pairs of a substitution are not well formed.
    IllSubst,
    /// The fact has a goal, and some variable is free in the replacement of a function or a predicate.
    FreeInSubst,
    /// The substitution makes nothing of the conclusion or of a goal.
    NotAdmissible,
    /// A formula that is given or made, or a replacement, has more than 65,536 nodes.
    TooBig,
    /// One of these is deeper than 1,000.
    TooDeep,
    /// A side of a new sequent has more than 256 formulas.
    SideFull,
    /// There would be more than 256 goals.
    GoalsFull,
    /// There would be more than 1,024 leaves.
    LeavesFull,
    /// There are 400,000 rows.
    LinesFull,
}

impl Reason {
    /// Its word, as it is printed.
    pub fn word(self) -> &'static str
        ensures { result.now ≡ reason_text self }
    {
        match self {
            Reason::NoFact => "NoFact",
            Reason::NoGoal => "NoGoal",
            Reason::UnknownName => "UnknownName",
            Reason::NoPlace => "NoPlace",
            Reason::WrongShape => "WrongShape",
            Reason::NotEqual => "NotEqual",
            Reason::NotFresh => "NotFresh",
            Reason::NotArith => "NotArith",
            Reason::IllSubst => "IllSubst",
            Reason::FreeInSubst => "FreeInSubst",
            Reason::NotAdmissible => "NotAdmissible",
            Reason::TooBig => "TooBig",
            Reason::TooDeep => "TooDeep",
            Reason::SideFull => "SideFull",
            Reason::GoalsFull => "GoalsFull",
            Reason::LeavesFull => "LeavesFull",
            Reason::LinesFull => "LinesFull",
        }
    }
}

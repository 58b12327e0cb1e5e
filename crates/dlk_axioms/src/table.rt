//! The axioms and the axiomatic rules. The text of each formula stands above it.
use crate::notation::*;
use crate::shape::Label::{
    Add, And, Box, Choice, Dia, Diff, DiffF, Div, Eq, Equiv, Ge, Gt, Imply, Le, Loop, Lt, Mul, Ne,
    Neg, Not, Or, Pow, Seq, Sub, Test,
};
use crate::shape::TreeShape;
use crate::shape::TreeShape::{One, Two};
use dlk_calculus::AxiomForm;

/// An axiom as the table has it.
pub(crate) struct AxiomRow {
    pub name: &'static [u8],
    pub form: AxiomForm,
    pub own_names: &'static [&'static [u8]],
    pub formula: &'static TreeShape,
}

/// An axiomatic rule as the table has it.
pub(crate) struct RuleRow {
    pub name: &'static [u8],
    pub premise: &'static TreeShape,
    pub conclusion: &'static TreeShape,
}

/// Diamonds, and boxes of assignments.
pub(crate) const ASSIGNMENT_AXIOMS: &[AxiomRow] = &[
    // <a;>p(||) <-> ![a;]!p(||)
    AxiomRow {
        name: b"diamond",
        form: AxiomForm::E,
        own_names: &[],
        formula: &Two(
            Equiv,
            &Two(Dia, &A, &P),
            &One(Not, &Two(Box, &A, &One(Not, &P))),
        ),
    },
    // [x_:=f();]p(x_) <-> p(f())
    AxiomRow {
        name: b"assignb",
        form: AxiomForm::E,
        own_names: &[b"x_"],
        formula: &Two(
            Equiv,
            &Two(Box, &One(ASSIGN_X, &F0), &One(P_OF, &X)),
            &One(P_OF, &F0),
        ),
    },
    // [x_:=f();]p(||) <-> \forall x_ (x_=f() -> p(||))
    AxiomRow {
        name: b"assigneq",
        form: AxiomForm::E,
        own_names: &[b"x_"],
        formula: &Two(
            Equiv,
            &Two(Box, &One(ASSIGN_X, &F0), &P),
            &One(FORALL_X, &Two(Imply, &Two(Eq, &X, &F0), &P)),
        ),
    },
    // [x_:=x_;]p(||) <-> p(||)
    AxiomRow {
        name: b"selfassign",
        form: AxiomForm::E,
        own_names: &[b"x_"],
        formula: &Two(Equiv, &Two(Box, &One(ASSIGN_X, &X), &P), &P),
    },
    // [x_':=f();]p(x_') <-> p(f())
    AxiomRow {
        name: b"dassignb",
        form: AxiomForm::E,
        own_names: &[b"x_"],
        formula: &Two(
            Equiv,
            &Two(Box, &One(ASSIGN_X_PRIMED, &F0), &One(P_OF, &X_PRIMED)),
            &One(P_OF, &F0),
        ),
    },
];

/// Boxes of the other programs.
pub(crate) const BOX_AXIOMS: &[AxiomRow] = &[
    // [x_:=*;]p(||) <-> \forall x_ p(||)
    AxiomRow {
        name: b"randomb",
        form: AxiomForm::E,
        own_names: &[b"x_"],
        formula: &Two(Equiv, &Two(Box, &ANY_X, &P), &One(FORALL_X, &P)),
    },
    // [?q(||);]p(||) <-> (q(||) -> p(||))
    AxiomRow {
        name: b"testb",
        form: AxiomForm::E,
        own_names: &[],
        formula: &Two(Equiv, &Two(Box, &One(Test, &Q), &P), &Two(Imply, &Q, &P)),
    },
    // [a;++b;]p(||) <-> [a;]p(||)&[b;]p(||)
    AxiomRow {
        name: b"choiceb",
        form: AxiomForm::E,
        own_names: &[],
        formula: &Two(
            Equiv,
            &Two(Box, &Two(Choice, &A, &B), &P),
            &Two(And, &Two(Box, &A, &P), &Two(Box, &B, &P)),
        ),
    },
    // [a;b;]p(||) <-> [a;][b;]p(||)
    AxiomRow {
        name: b"composeb",
        form: AxiomForm::E,
        own_names: &[],
        formula: &Two(
            Equiv,
            &Two(Box, &Two(Seq, &A, &B), &P),
            &Two(Box, &A, &Two(Box, &B, &P)),
        ),
    },
];

/// Loops, and what holds of all programs.
pub(crate) const LOOP_AXIOMS: &[AxiomRow] = &[
    // [{a;}*]p(||) <-> p(||)&[a;][{a;}*]p(||)
    AxiomRow {
        name: b"iterateb",
        form: AxiomForm::E,
        own_names: &[],
        formula: &Two(
            Equiv,
            &Two(Box, &One(Loop, &A), &P),
            &Two(And, &P, &Two(Box, &A, &Two(Box, &One(Loop, &A), &P))),
        ),
    },
    // [a;](p(||) -> q(||)) -> ([a;]p(||) -> [a;]q(||))
    AxiomRow {
        name: b"K",
        form: AxiomForm::I,
        own_names: &[],
        formula: &Two(
            Imply,
            &Two(Box, &A, &Two(Imply, &P, &Q)),
            &Two(Imply, &Two(Box, &A, &P), &Two(Box, &A, &Q)),
        ),
    },
    // [{a;}*](p(||) -> [a;]p(||)) -> (p(||) -> [{a;}*]p(||))
    AxiomRow {
        name: b"I",
        form: AxiomForm::I,
        own_names: &[],
        formula: &Two(
            Imply,
            &Two(Box, &One(Loop, &A), &Two(Imply, &P, &Two(Box, &A, &P))),
            &Two(Imply, &P, &Two(Box, &One(Loop, &A), &P)),
        ),
    },
    // p() -> [a;]p()
    AxiomRow {
        name: b"V",
        form: AxiomForm::I,
        own_names: &[],
        formula: &Two(Imply, &P0, &Two(Box, &A, &P0)),
    },
];

/// The domain of a system.
pub(crate) const DOMAIN_AXIOMS: &[AxiomRow] = &[
    // [{c&q(||)}]q(||)
    AxiomRow {
        name: b"DW",
        form: AxiomForm::F,
        own_names: &[],
        formula: &Two(Box, &One(SYSTEM_C, &Q), &Q),
    },
    // [{c&q(||)}]p(||) <-> [{c&q(||)}](q(||) -> p(||))
    AxiomRow {
        name: b"DWeq",
        form: AxiomForm::E,
        own_names: &[],
        formula: &Two(
            Equiv,
            &Two(Box, &One(SYSTEM_C, &Q), &P),
            &Two(Box, &One(SYSTEM_C, &Q), &Two(Imply, &Q, &P)),
        ),
    },
    // [{c&q(||)}]r(||) -> ([{c&q(||)}]p(||) <-> [{c&q(||)&r(||)}]p(||))
    AxiomRow {
        name: b"DC",
        form: AxiomForm::C,
        own_names: &[],
        formula: &Two(
            Imply,
            &Two(Box, &One(SYSTEM_C, &Q), &R),
            &Two(
                Equiv,
                &Two(Box, &One(SYSTEM_C, &Q), &P),
                &Two(Box, &One(SYSTEM_C, &Two(And, &Q, &R)), &P),
            ),
        ),
    },
];

/// What a system does to its variables, and the order of its items.
pub(crate) const EFFECT_AXIOMS: &[AxiomRow] = &[
    // [{x_'=f(||)&q(||)}]p(||) <-> [{x_'=f(||)&q(||)}][x_':=f(||);]p(||)
    AxiomRow {
        name: b"DE",
        form: AxiomForm::E,
        own_names: &[b"x_"],
        formula: &Two(
            Equiv,
            &Two(Box, &Two(SYSTEM_X, &F, &Q), &P),
            &Two(
                Box,
                &Two(SYSTEM_X, &F, &Q),
                &Two(Box, &One(ASSIGN_X_PRIMED, &F), &P),
            ),
        ),
    },
    // [{x_'=f(||),c&q(||)}]p(||) <-> [{c,x_'=f(||)&q(||)}][x_':=f(||);]p(||)
    AxiomRow {
        name: b"DEsys",
        form: AxiomForm::E,
        own_names: &[b"x_"],
        formula: &Two(
            Equiv,
            &Two(Box, &Two(SYSTEM_X_C, &F, &Q), &P),
            &Two(
                Box,
                &Two(SYSTEM_C_X, &F, &Q),
                &Two(Box, &One(ASSIGN_X_PRIMED, &F), &P),
            ),
        ),
    },
    // [{c,d&q(||)}]p(||) <-> [{d,c&q(||)}]p(||)
    AxiomRow {
        name: b"ODEswap",
        form: AxiomForm::E,
        own_names: &[],
        formula: &Two(
            Equiv,
            &Two(Box, &One(SYSTEM_C_D, &Q), &P),
            &Two(Box, &One(SYSTEM_D_C, &Q), &P),
        ),
    },
];

/// Differential invariants and ghosts.
pub(crate) const ODE_AXIOMS: &[AxiomRow] = &[
    // (q(||) -> [{c&q(||)}](p(||))') -> ([{c&q(||)}]p(||) <-> [?q(||);]p(||))
    AxiomRow {
        name: b"DI",
        form: AxiomForm::C,
        own_names: &[],
        formula: &Two(
            Imply,
            &Two(Imply, &Q, &Two(Box, &One(SYSTEM_C, &Q), &One(DiffF, &P))),
            &Two(
                Equiv,
                &Two(Box, &One(SYSTEM_C, &Q), &P),
                &Two(Box, &One(Test, &Q), &P),
            ),
        ),
    },
    // [{c{|y_|}&q(|y_|)}]p(|y_|) <-> \exists y_ [{c{|y_|},y_'=a(|y_|)*y_+b(|y_|)&q(|y_|)}]p(|y_|)
    AxiomRow {
        name: b"DG",
        form: AxiomForm::E,
        own_names: &[b"y_"],
        formula: &Two(
            Equiv,
            &Two(Box, &One(SYSTEM_C_BUT_Y, &Q_BUT_Y), &P_BUT_Y),
            &One(
                EXISTS_Y,
                &Two(
                    Box,
                    &Two(
                        SYSTEM_C_BUT_Y_Y,
                        &Two(Add, &Two(Mul, &A_BUT_Y, &Y), &B_BUT_Y),
                        &Q_BUT_Y,
                    ),
                    &P_BUT_Y,
                ),
            ),
        ),
    },
];

/// Solutions of systems.
pub(crate) const SOLUTION_AXIOMS: &[AxiomRow] = &[
    // [{x_'=f()&q(x_)}]p(x_) <-> \forall t_ (t_>=0 -> ((\forall s_ (0<=s_&s_<=t_ -> q(x_+f()*s_))) -> [x_:=x_+f()*t_;]p(x_)))
    AxiomRow {
        name: b"DS",
        form: AxiomForm::E,
        own_names: &[b"x_", b"t_", b"s_"],
        formula: &Two(
            Equiv,
            &Two(Box, &Two(SYSTEM_X, &F0, &One(Q_OF, &X)), &One(P_OF, &X)),
            &One(
                FORALL_T,
                &Two(
                    Imply,
                    &Two(Ge, &T, &NUMBER_0),
                    &Two(
                        Imply,
                        &One(
                            FORALL_S,
                            &Two(
                                Imply,
                                &Two(And, &Two(Le, &NUMBER_0, &S), &Two(Le, &S, &T)),
                                &One(Q_OF, &Two(Add, &X, &Two(Mul, &F0, &S))),
                            ),
                        ),
                        &Two(
                            Box,
                            &One(ASSIGN_X, &Two(Add, &X, &Two(Mul, &F0, &T))),
                            &One(P_OF, &X),
                        ),
                    ),
                ),
            ),
        ),
    },
];

/// Differentials of constants, variables and sums.
pub(crate) const SUM_DIFFERENTIAL_AXIOMS: &[AxiomRow] = &[
    // (f())'=0
    AxiomRow {
        name: b"Dconst",
        form: AxiomForm::Q,
        own_names: &[],
        formula: &Two(Eq, &One(Diff, &F0), &NUMBER_0),
    },
    // (x_)'=x_'
    AxiomRow {
        name: b"Dvar",
        form: AxiomForm::Q,
        own_names: &[b"x_"],
        formula: &Two(Eq, &One(Diff, &X), &X_PRIMED),
    },
    // (f(||)+g(||))'=(f(||))'+(g(||))'
    AxiomRow {
        name: b"Dplus",
        form: AxiomForm::Q,
        own_names: &[],
        formula: &Two(
            Eq,
            &One(Diff, &Two(Add, &F, &G)),
            &Two(Add, &One(Diff, &F), &One(Diff, &G)),
        ),
    },
    // (f(||)-g(||))'=(f(||))'-(g(||))'
    AxiomRow {
        name: b"Dminus",
        form: AxiomForm::Q,
        own_names: &[],
        formula: &Two(
            Eq,
            &One(Diff, &Two(Sub, &F, &G)),
            &Two(Sub, &One(Diff, &F), &One(Diff, &G)),
        ),
    },
    // (-f(||))'=-(f(||))'
    AxiomRow {
        name: b"Dneg",
        form: AxiomForm::Q,
        own_names: &[],
        formula: &Two(Eq, &One(Diff, &One(Neg, &F)), &One(Neg, &One(Diff, &F))),
    },
];

/// Differentials of products, quotients and powers.
pub(crate) const PRODUCT_DIFFERENTIAL_AXIOMS: &[AxiomRow] = &[
    // (f(||)*g(||))'=(f(||))'*g(||)+f(||)*(g(||))'
    AxiomRow {
        name: b"Dtimes",
        form: AxiomForm::Q,
        own_names: &[],
        formula: &Two(
            Eq,
            &One(Diff, &Two(Mul, &F, &G)),
            &Two(
                Add,
                &Two(Mul, &One(Diff, &F), &G),
                &Two(Mul, &F, &One(Diff, &G)),
            ),
        ),
    },
    // (f(||)/g(||))'=((f(||))'*g(||)-f(||)*(g(||))')/g(||)^2
    AxiomRow {
        name: b"Dquot",
        form: AxiomForm::Q,
        own_names: &[],
        formula: &Two(
            Eq,
            &One(Diff, &Two(Div, &F, &G)),
            &Two(
                Div,
                &Two(
                    Sub,
                    &Two(Mul, &One(Diff, &F), &G),
                    &Two(Mul, &F, &One(Diff, &G)),
                ),
                &Two(Pow, &G, &NUMBER_2),
            ),
        ),
    },
    // c()!=0 -> (f(||)^c())'=c()*f(||)^(c()-1)*(f(||))'
    AxiomRow {
        name: b"Dpow",
        form: AxiomForm::R,
        own_names: &[],
        formula: &Two(
            Imply,
            &Two(Ne, &C0, &NUMBER_0),
            &Two(
                Eq,
                &One(Diff, &Two(Pow, &F, &C0)),
                &Two(
                    Mul,
                    &Two(Mul, &C0, &Two(Pow, &F, &Two(Sub, &C0, &NUMBER_1))),
                    &One(Diff, &F),
                ),
            ),
        ),
    },
];

/// Differentials of comparisons.
pub(crate) const COMPARISON_DIFFERENTIAL_AXIOMS: &[AxiomRow] = &[
    // (f(||)=g(||))' <-> (f(||))'=(g(||))'
    AxiomRow {
        name: b"Deq",
        form: AxiomForm::E,
        own_names: &[],
        formula: &Two(
            Equiv,
            &One(DiffF, &Two(Eq, &F, &G)),
            &Two(Eq, &One(Diff, &F), &One(Diff, &G)),
        ),
    },
    // (f(||)!=g(||))' <-> (f(||))'=(g(||))'
    AxiomRow {
        name: b"Dne",
        form: AxiomForm::E,
        own_names: &[],
        formula: &Two(
            Equiv,
            &One(DiffF, &Two(Ne, &F, &G)),
            &Two(Eq, &One(Diff, &F), &One(Diff, &G)),
        ),
    },
    // (f(||)>=g(||))' <-> (f(||))'>=(g(||))'
    AxiomRow {
        name: b"Dge",
        form: AxiomForm::E,
        own_names: &[],
        formula: &Two(
            Equiv,
            &One(DiffF, &Two(Ge, &F, &G)),
            &Two(Ge, &One(Diff, &F), &One(Diff, &G)),
        ),
    },
    // (f(||)>g(||))' <-> (f(||))'>=(g(||))'
    AxiomRow {
        name: b"Dgt",
        form: AxiomForm::E,
        own_names: &[],
        formula: &Two(
            Equiv,
            &One(DiffF, &Two(Gt, &F, &G)),
            &Two(Ge, &One(Diff, &F), &One(Diff, &G)),
        ),
    },
    // (f(||)<=g(||))' <-> (f(||))'<=(g(||))'
    AxiomRow {
        name: b"Dle",
        form: AxiomForm::E,
        own_names: &[],
        formula: &Two(
            Equiv,
            &One(DiffF, &Two(Le, &F, &G)),
            &Two(Le, &One(Diff, &F), &One(Diff, &G)),
        ),
    },
    // (f(||)<g(||))' <-> (f(||))'<=(g(||))'
    AxiomRow {
        name: b"Dlt",
        form: AxiomForm::E,
        own_names: &[],
        formula: &Two(
            Equiv,
            &One(DiffF, &Two(Lt, &F, &G)),
            &Two(Le, &One(Diff, &F), &One(Diff, &G)),
        ),
    },
];

/// Differentials of connectives and quantifiers.
pub(crate) const CONNECTIVE_DIFFERENTIAL_AXIOMS: &[AxiomRow] = &[
    // (p(||)&q(||))' <-> (p(||))'&(q(||))'
    AxiomRow {
        name: b"Dand",
        form: AxiomForm::E,
        own_names: &[],
        formula: &Two(
            Equiv,
            &One(DiffF, &Two(And, &P, &Q)),
            &Two(And, &One(DiffF, &P), &One(DiffF, &Q)),
        ),
    },
    // (p(||)|q(||))' <-> (p(||))'&(q(||))'
    AxiomRow {
        name: b"Dor",
        form: AxiomForm::E,
        own_names: &[],
        formula: &Two(
            Equiv,
            &One(DiffF, &Two(Or, &P, &Q)),
            &Two(And, &One(DiffF, &P), &One(DiffF, &Q)),
        ),
    },
    // (p(||) -> q(||))' <-> (!p(||)|q(||))'
    AxiomRow {
        name: b"Dimply",
        form: AxiomForm::E,
        own_names: &[],
        formula: &Two(
            Equiv,
            &One(DiffF, &Two(Imply, &P, &Q)),
            &One(DiffF, &Two(Or, &One(Not, &P), &Q)),
        ),
    },
    // (\forall x_ p(||))' <-> \forall x_ (p(||))'
    AxiomRow {
        name: b"Dforall",
        form: AxiomForm::E,
        own_names: &[b"x_"],
        formula: &Two(
            Equiv,
            &One(DiffF, &One(FORALL_X, &P)),
            &One(FORALL_X, &One(DiffF, &P)),
        ),
    },
];

/// First order.
pub(crate) const FIRST_ORDER_AXIOMS: &[AxiomRow] = &[
    // (\forall x_ p(x_)) -> p(f())
    AxiomRow {
        name: b"allinst",
        form: AxiomForm::I,
        own_names: &[b"x_"],
        formula: &Two(Imply, &One(FORALL_X, &One(P_OF, &X)), &One(P_OF, &F0)),
    },
    // \exists x_ p(||) <-> !\forall x_ !p(||)
    AxiomRow {
        name: b"existsdual",
        form: AxiomForm::E,
        own_names: &[b"x_"],
        formula: &Two(
            Equiv,
            &One(EXISTS_X, &P),
            &One(Not, &One(FORALL_X, &One(Not, &P))),
        ),
    },
    // (\forall x_ (p(||) -> q(||))) -> (\forall x_ p(||) -> \forall x_ q(||))
    AxiomRow {
        name: b"alldist",
        form: AxiomForm::I,
        own_names: &[b"x_"],
        formula: &Two(
            Imply,
            &One(FORALL_X, &Two(Imply, &P, &Q)),
            &Two(Imply, &One(FORALL_X, &P), &One(FORALL_X, &Q)),
        ),
    },
    // p() -> \forall x_ p()
    AxiomRow {
        name: b"allvac",
        form: AxiomForm::I,
        own_names: &[b"x_"],
        formula: &Two(Imply, &P0, &One(FORALL_X, &P0)),
    },
];

/// Equality.
pub(crate) const EQUALITY_AXIOMS: &[AxiomRow] = &[
    // f()=f()
    AxiomRow {
        name: b"eqrefl",
        form: AxiomForm::F,
        own_names: &[],
        formula: &Two(Eq, &F0, &F0),
    },
    // f()=g() -> (p(f()) <-> p(g()))
    AxiomRow {
        name: b"eqcongr",
        form: AxiomForm::C,
        own_names: &[],
        formula: &Two(
            Imply,
            &Two(Eq, &F0, &G0),
            &Two(Equiv, &One(P_OF, &F0), &One(P_OF, &G0)),
        ),
    },
];

/// The axiomatic rules.
pub(crate) const RULES: &[RuleRow] = &[
    // from p(||) to [a;]p(||)
    RuleRow {
        name: b"G",
        premise: &P,
        conclusion: &Two(Box, &A, &P),
    },
    // from p(||) to \forall x_ p(||)
    RuleRow {
        name: b"allgen",
        premise: &P,
        conclusion: &One(FORALL_X, &P),
    },
    // from p(||) -> q(||) to <a;>p(||) -> <a;>q(||)
    RuleRow {
        name: b"mon",
        premise: &Two(Imply, &P, &Q),
        conclusion: &Two(Imply, &Two(Dia, &A, &P), &Two(Dia, &A, &Q)),
    },
    // from f(||)=g(||) to h(f(||))=h(g(||))
    RuleRow {
        name: b"CT",
        premise: &Two(Eq, &F, &G),
        conclusion: &Two(Eq, &One(H_OF, &F), &One(H_OF, &G)),
    },
    // from f(||)=g(||) to p(f(||)) <-> p(g(||))
    RuleRow {
        name: b"CQ",
        premise: &Two(Eq, &F, &G),
        conclusion: &Two(Equiv, &One(P_OF, &F), &One(P_OF, &G)),
    },
    // from p(||) <-> q(||) to C{p(||)} <-> C{q(||)}
    RuleRow {
        name: b"CE",
        premise: &Two(Equiv, &P, &Q),
        conclusion: &Two(Equiv, &One(C_OF, &P), &One(C_OF, &Q)),
    },
];

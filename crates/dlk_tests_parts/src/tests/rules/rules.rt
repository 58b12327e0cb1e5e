// The sequent rules: what each makes of a goal, and what speaks against it.
ghost use Rattle.std.specs.Prelude.{◌≡◌, ◌<◌, []};
ghost use Rattle.dlk_rules.specs.Steps.{RuleIsKnown};

use super::*;
use dlk_kernel::{Fact, Reason, Rule, StepFault};
use dlk_parse::{Dots, read_expression};
use dlk_replay::{LineWhy, ReplayFault, replay};
use dlk_report::shown;
use dlk_sequent::Sequent;

/// The texts of the goals that a term leaves, with `; ` between, or the reason against its second line.
fn goals_of<L: Ledger>(alloc: Global, term: &[u8], blank: Blank) -> Option<Vec<u8>>
    requires name { blank.name ≡ L.name }
    requires parts { blank.parts ≡ L.parts }
    requires some { 0 < blank.parts }
{
    let mut kernel = Kernel::new(alloc, SharedStore::new(alloc));
    goals_on(alloc, &mut kernel, term, &mut Steps::<L>::new(blank))
}

/// The same on a kernel.
fn goals_on<S: Store, L: Ledger>(
    alloc: Global,
    kernel: &mut Kernel<S>,
    term: &[u8],
    steps: &mut Steps<L>,
) -> Option<Vec<u8>>
    requires { kernel.old.rows ≡ [] }
{
    let outcome = match replay(alloc, term, kernel, steps) {
        Ok(outcome) => outcome,
        Err(
            ReplayFault::Bad {
                line: 2,
                why: LineWhy::Step(why),
            },
        ) => {
            return Some(format!(in alloc; "{why:?}").ok()?.into_bytes());
        }
        Err(_) => return None,
    };
    let report = shown(alloc, kernel, outcome.fact, outcome.lines, steps).ok()?;
    let mut goals = Vec::new(alloc);
    for text in &report.goals {
        if !goals.is_empty() {
            goals.extend_from_slice(b"; ").ok()?;
        }
        goals.extend_from_slice(text).ok()?;
    }
    Some(goals)
}

/// The premises that a rule makes of a goal, or the reason against the rule.
fn of(alloc: Global, goal: &str, rule: &str) -> Result<Vec<u8>, AllocError> {
    let term = format!(in alloc; "1 start {goal}\n2 apply 1 1 {rule}\ndone\n")?;
    match goals_of::<Brand>(alloc, term.as_bytes(), Blank::new(1)) {
        Some(goals) => Ok(goals),
        None => b"no goals".to_vec(alloc),
    }
}

/// A rule makes these premises of a goal, or this is the reason against the rule.
fn makes(
    rt: &impl Abort,
    alloc: Global,
    goal: &str,
    rule: &str,
    want: &str,
) -> Result<(), AllocError> {
    let found = of(alloc, goal, rule)?;
    assert_eq!(rt; found.as_slice(), want.as_bytes(), "{goal} {rule}");
    Ok(())
}

#[test]
fn closes_goals(rt: HostRuntime) -> Result<(), Fail> {
    let alloc = rt.alloc();
    for (goal, rule, want) in &[
        ("q(),p() ==> r(),p()", "close(2,2)", ""),
        ("p() ==> p()", "close(2,1)", "NoPlace"),
        ("p() ==> p()", "close(1,2)", "NoPlace"),
        ("p(),q() ==> q()", "close(1,1)", "NotEqual"),
        ("p() ==> q(),true", "closeTrue(2)", ""),
        ("p() ==> true", "closeTrue(2)", "NoPlace"),
        ("true ==> false", "closeTrue(1)", "WrongShape"),
        ("p(),false ==> q()", "closeFalse(2)", ""),
        ("==> false", "closeFalse(1)", "NoPlace"),
        ("true ==> false", "closeFalse(1)", "WrongShape"),
    ] {
        makes(&rt, alloc, goal, rule, want)?;
    }
    Ok(())
}

#[test]
fn applies_connectives_on_the_left(rt: HostRuntime) -> Result<(), Fail> {
    let alloc = rt.alloc();
    for (goal, rule, want) in &[
        ("!p(),q() ==> r()", "notL(1)", "q() ==> r(), p()"),
        ("!p(),q() ==> r()", "notL(3)", "NoPlace"),
        ("!p(),q() ==> r()", "notL(2)", "WrongShape"),
        ("p()&q(),r() ==> s()", "andL(1)", "p(), r(), q() ==> s()"),
        ("p()&q() ==> s()", "andL(2)", "NoPlace"),
        ("p()&q()|r() ==> s()", "andL(1)", "WrongShape"),
        (
            "r(),p()|q() ==> s()",
            "orL(2)",
            "r(), p() ==> s(); r(), q() ==> s()",
        ),
        ("==> p()|q()", "orL(1)", "NoPlace"),
        ("p()&q() ==>", "orL(1)", "WrongShape"),
        (
            "p() -> q(),r() ==> s()",
            "implyL(1)",
            "r() ==> s(), p(); q(), r() ==> s()",
        ),
        ("p() -> q() ==>", "implyL(2)", "NoPlace"),
        ("p() <-> q() ==>", "implyL(1)", "WrongShape"),
        (
            "p() <-> q(),r() ==> s()",
            "equivL(1)",
            "p() -> q(), r(), q() -> p() ==> s()",
        ),
        ("p() <-> q() ==>", "equivL(2)", "NoPlace"),
        ("p() -> q() ==>", "equivL(1)", "WrongShape"),
    ] {
        makes(&rt, alloc, goal, rule, want)?;
    }
    Ok(())
}

#[test]
fn applies_connectives_on_the_right(rt: HostRuntime) -> Result<(), Fail> {
    let alloc = rt.alloc();
    for (goal, rule, want) in &[
        ("p() ==> q(),!r(),s()", "notR(2)", "p(), r() ==> q(), s()"),
        ("==> !p()", "notR(2)", "NoPlace"),
        ("==> p()", "notR(1)", "WrongShape"),
        (
            "r() ==> s(),p()&q()",
            "andR(2)",
            "r() ==> s(), p(); r() ==> s(), q()",
        ),
        ("==> p()&q()", "andR(2)", "NoPlace"),
        ("==> p()|q()", "andR(1)", "WrongShape"),
        ("r() ==> p()|q(),s()", "orR(1)", "r() ==> p(), s(), q()"),
        ("p()|q() ==>", "orR(1)", "NoPlace"),
        ("==> p()&q()", "orR(1)", "WrongShape"),
        (
            "r() ==> p() -> q(),s()",
            "implyR(1)",
            "r(), p() ==> q(), s()",
        ),
        ("==> p() -> q()", "implyR(2)", "NoPlace"),
        ("==> p() <-> q()", "implyR(1)", "WrongShape"),
        (
            "r() ==> s(),p() <-> q()",
            "equivR(2)",
            "r() ==> s(), p() -> q(); r() ==> s(), q() -> p()",
        ),
        ("==> p() <-> q()", "equivR(2)", "NoPlace"),
        ("==> !p()", "equivR(1)", "WrongShape"),
    ] {
        makes(&rt, alloc, goal, rule, want)?;
    }
    Ok(())
}

#[test]
fn cuts_and_changes_the_structure(rt: HostRuntime) -> Result<(), Fail> {
    let alloc = rt.alloc();
    for (goal, rule, want) in &[
        (
            "p() ==> q()",
            "cut(x>=0)",
            "p(), x>=0 ==> q(); p() ==> q(), x>=0",
        ),
        (
            "p(),q() ==> r()",
            "cutL(1,s())",
            "s(), q() ==> r(); q() ==> r(), p() -> s()",
        ),
        ("p() ==> r()", "cutL(2,s())", "NoPlace"),
        (
            "p() ==> q(),r()",
            "cutR(1,s())",
            "p() ==> s(), r(); p() ==> s() -> q(), r()",
        ),
        ("p() ==> q()", "cutR(2,s())", "NoPlace"),
        ("p(),q() ==> r()", "hideL(1)", "q() ==> r()"),
        ("p() ==> r()", "hideL(2)", "NoPlace"),
        ("p() ==> q(),r()", "hideR(1)", "p() ==> r()"),
        ("p() ==> q()", "hideR(2)", "NoPlace"),
        ("p() ==> q(),r()", "coHideR(2)", "==> r()"),
        ("p() ==> q()", "coHideR(2)", "NoPlace"),
        (
            "p(),q(),r() ==> s()",
            "exchangeL(1,3)",
            "r(), q(), p() ==> s()",
        ),
        ("p(),q() ==> s()", "exchangeL(2,2)", "p(), q() ==> s()"),
        ("p(),q() ==> s()", "exchangeL(1,3)", "NoPlace"),
        ("p(),q() ==> s()", "exchangeL(3,1)", "NoPlace"),
        ("p() ==> q(),r()", "exchangeR(2,1)", "p() ==> r(), q()"),
        ("p() ==> q(),r()", "exchangeR(3,1)", "NoPlace"),
        ("p() ==> q(),r()", "exchangeR(1,3)", "NoPlace"),
        (
            "r() ==> p() -> q(),s()",
            "equivifyR(1)",
            "r() ==> p() <-> q(), s()",
        ),
        ("==> p() -> q()", "equivifyR(2)", "NoPlace"),
        ("==> p() <-> q()", "equivifyR(1)", "WrongShape"),
        (
            "p() <-> q(),r() ==>",
            "commuteEquivL(1)",
            "q() <-> p(), r() ==>",
        ),
        ("p() <-> q() ==>", "commuteEquivL(2)", "NoPlace"),
        ("p() -> q() ==>", "commuteEquivL(1)", "WrongShape"),
        (
            "==> r(),p() <-> q()",
            "commuteEquivR(2)",
            "==> r(), q() <-> p()",
        ),
        ("==> p() <-> q()", "commuteEquivR(2)", "NoPlace"),
        ("==> p() -> q()", "commuteEquivR(1)", "WrongShape"),
    ] {
        makes(&rt, alloc, goal, rule, want)?;
    }
    Ok(())
}

#[test]
fn takes_quantifiers_off(rt: HostRuntime) -> Result<(), Fail> {
    let alloc = rt.alloc();
    for (goal, rule, want) in &[
        (
            "\\exists x x>y,y>0 ==> y>1",
            "skolemL(1)",
            "x>y, y>0 ==> y>1",
        ),
        ("\\exists x x>y ==>", "skolemL(2)", "NoPlace"),
        ("\\forall x x>y ==>", "skolemL(1)", "WrongShape"),
        ("\\exists x x>y,x>0 ==>", "skolemL(1)", "NotFresh"),
        ("\\exists x x>y ==> x>0", "skolemL(1)", "NotFresh"),
        (
            "\\exists x x>y,\\forall x x>0 ==>",
            "skolemL(1)",
            "x>y, \\forall x x>0 ==>",
        ),
        ("\\exists x x>y ==> x'>0", "skolemL(1)", "x>y ==> x'>0"),
        (
            "y>0 ==> y>1,\\forall x x>y",
            "skolemR(2)",
            "y>0 ==> y>1, x>y",
        ),
        ("==> \\forall x x>y", "skolemR(2)", "NoPlace"),
        ("==> \\exists x x>y", "skolemR(1)", "WrongShape"),
        ("x>0 ==> \\forall x x>y", "skolemR(1)", "NotFresh"),
        ("==> \\forall x x>y,x>0", "skolemR(1)", "NotFresh"),
        (
            "==> \\forall x x>y,[x:=1;]x>0",
            "skolemR(1)",
            "==> x>y, [x:=1;]x>0",
        ),
        ("==> \\forall x x>y,p(||)", "skolemR(1)", "NotFresh"),
    ] {
        makes(&rt, alloc, goal, rule, want)?;
    }
    Ok(())
}

#[test]
fn renames_bound_variables(rt: HostRuntime) -> Result<(), Fail> {
    let alloc = rt.alloc();
    for (goal, rule, want) in &[
        (
            "\\forall x (x>=0 -> \\exists y y>x),r() ==>",
            "boundL(1,z)",
            "\\forall z (z>=0 -> \\exists y y>z), r() ==>",
        ),
        (
            "\\exists x x>0 ==> \\forall x x>0",
            "boundR(1,y)",
            "\\exists x x>0 ==> \\forall y y>0",
        ),
        ("[x:=x+1;]x>=1 ==>", "boundL(1,y)", "[y:=x+1;]y>=1 ==>"),
        (
            "==> <x:=x+1;>[{x'=1}]x>=1",
            "boundR(1,y)",
            "==> <y:=x+1;>[{y'=1}]y>=1",
        ),
        ("\\forall x x>0 ==>", "boundL(2,y)", "NoPlace"),
        ("==> \\forall x x>0", "boundR(2,y)", "NoPlace"),
        ("x>0 ==>", "boundL(1,y)", "WrongShape"),
        ("==> [x':=1;]x>0", "boundR(1,y)", "WrongShape"),
        ("==> [x:=1;x:=2;]x>0", "boundR(1,y)", "WrongShape"),
        ("==> [a;]x>0", "boundR(1,y)", "WrongShape"),
        ("==> [x:=*;]x>0", "boundR(1,y)", "WrongShape"),
        ("\\forall x x>y ==>", "boundL(1,y)", "NotFresh"),
        ("==> \\forall x x>y'", "boundR(1,y)", "NotFresh"),
        ("==> \\forall x x'>0", "boundR(1,y)", "NotFresh"),
        (
            "==> \\forall x f(x)>0",
            "boundR(1,y)",
            "==> \\forall y f(y)>0",
        ),
        (
            "==> \\forall x \\forall y x>y",
            "boundR(1,y)",
            "==> \\forall y \\forall x y>x",
        ),
        ("==> \\forall x x>0", "boundR(1,x)", "NotFresh"),
        (
            "==> \\forall x [y:=1;y':=1;x':=1;]C{true}",
            "boundR(1,y)",
            "NotFresh",
        ),
        (
            "==> \\forall x [y:=1;y':=1;x':=1;][a;]true",
            "boundR(1,y)",
            "NotFresh",
        ),
        (
            "==> \\forall x [y:=1;y':=1;x':=1;]f(||)>0",
            "boundR(1,y)",
            "NotFresh",
        ),
        (
            "==> \\forall x [y:=1;y':=1;x':=1;][{c}]true",
            "boundR(1,y)",
            "NotFresh",
        ),
        (
            "==> \\forall x [y:=1;y':=1;x':=1;]p(z)",
            "boundR(1,y)",
            "==> \\forall y [x:=1;x':=1;y':=1;]p(z)",
        ),
    ] {
        makes(&rt, alloc, goal, rule, want)?;
    }
    Ok(())
}

/// What speaks against each of the three cuts with a formula that no file can give: one with a dot, a hole, or another sort.
fn cut_refused<L: Ledger>(
    alloc: Global,
    text: &[u8],
    blank: Blank,
) -> Option<[Option<StepFault>; 3]>
    requires name { blank.name ≡ L.name }
    requires parts { blank.parts ≡ L.parts }
    requires some { 0 < blank.parts }
{
    let mut kernel = Kernel::new(alloc, SharedStore::new(alloc));
    cut_refused_on(alloc, &mut kernel, text, &mut Steps::<L>::new(blank))
}

/// The same on a kernel.
fn cut_refused_on<S: Store, L: Ledger>(
    alloc: Global,
    kernel: &mut Kernel<S>,
    text: &[u8],
    steps: &mut Steps<L>,
) -> Option<[Option<StepFault>; 3]> {
    let sequent = read_sequent(alloc, b"p() ==> q()", kernel).ok()?;
    let fact = kernel.step(alloc, &Step::Start(sequent), steps).ok()?;
    let h = read_expression(alloc, text, Dots::Allowed, kernel).ok()?;
    let cut = applied(alloc, kernel, fact, Rule::Cut(h), steps);
    let left = applied(alloc, kernel, fact, Rule::CutL(1, h), steps);
    let right = applied(alloc, kernel, fact, Rule::CutR(1, h), steps);
    Some([cut, left, right])
}

/// What speaks against a rule on the first goal of a fact.
fn applied<S: Store, L: Ledger>(
    alloc: Global,
    kernel: &mut Kernel<S>,
    fact: Fact,
    rule: Rule,
    steps: &mut Steps<L>,
) -> Option<StepFault>
    requires { RuleIsKnown (S.trees kernel.old.store) rule }
    ensures { S.grows kernel.old.store kernel.new.store }
{
    let step = Step::Apply {
        fact,
        goal: 1,
        rule,
    };
    kernel.step(alloc, &step, steps).err()
}

/// The reason against a start with such a formula.
fn start_refused<L: Ledger>(alloc: Global, text: &[u8], blank: Blank) -> Option<StepFault>
    requires name { blank.name ≡ L.name }
    requires parts { blank.parts ≡ L.parts }
    requires some { 0 < blank.parts }
{
    let mut kernel = Kernel::new(alloc, SharedStore::new(alloc));
    start_refused_on(alloc, &mut kernel, text, &mut Steps::<L>::new(blank))
}

/// The same on a kernel.
fn start_refused_on<S: Store, L: Ledger>(
    alloc: Global,
    kernel: &mut Kernel<S>,
    text: &[u8],
    steps: &mut Steps<L>,
) -> Option<StepFault> {
    let h = read_expression(alloc, text, Dots::Allowed, kernel).ok()?;
    let start = Step::Start(Sequent::alone_right(alloc, h).ok()?);
    kernel.step(alloc, &start, steps).err()
}

#[test]
fn refuses_what_no_file_can_say(rt: HostRuntime) -> Result<(), Fail> {
    let alloc = rt.alloc();
    let shape = StepFault::Refused(Reason::WrongShape);
    for text in ["._0>=0", "p()&_", "x+1", "x:=1;"] {
        assert_eq!(rt;
            cut_refused::<Brand>(alloc, text.as_bytes(), Blank::new(1)),
            Some([Some(shape), Some(shape), Some(shape)]),
            "{text}"
        );
        assert_eq!(rt;
            start_refused::<Brand>(alloc, text.as_bytes(), Blank::new(1)),
            Some(shape),
            "{text}"
        );
    }
    Ok(())
}

// Steps with two reasons against them at once, a row for each pair that a file can say of one step: the first of the two is said.
//
// No row is here for these:
// - LinesFull and another reason: the kernel looks for it last, at one place for all steps; the row is in `limits.rt`.
// - TooBig and TooDeep, or one of them and SideFull, of a start or a leaf: in a file such a formula is malformed. The kernel looks for these
//   three limits at one place, for starts, leaves and rules.
//
// No step has both reasons of these pairs:
// - two reasons of two kinds of steps. UnknownName is said of axioms and axiomatic rules, NotArith of leaves, NoPlace and NotFresh of rules,
//   LeavesFull of merges, IllSubst, FreeInSubst and NotAdmissible of substitutions.
// - NoFact, and a reason that speaks of what the missing fact has: NoGoal of a rule, FreeInSubst, NotAdmissible.
// - NoFact or NoGoal, and a reason that speaks of the goal: NoPlace, WrongShape of a rule, NotEqual, NotFresh.
// - NoPlace or WrongShape, and NotEqual or NotFresh, which speak of formulas that have the form that the rule wants; and NotEqual and
//   NotFresh, since no rule asks for both.
// - a limit but LinesFull, and a reason that is no limit: a limit speaks of what the step gives, and such a step gives nothing.
// - TooBig, TooDeep or SideFull, and GoalsFull or LeavesFull, of a merge: it makes no formula and no sequent.
// - TooBig or TooDeep, and SideFull or GoalsFull, of a substitution: it keeps the number of formulas on each side, and that of goals.
use super::limits::{Draft, empty, trues};
use super::*;

#[test]
fn says_the_first_of_two_reasons(rt: HostRuntime) -> Result<(), Fail> {
    let alloc = rt.alloc();
    for (term, printed) in &[
        // NoFact and NoGoal
        ("1 start ==> x>=0\n2 merge 1 2 9\n", "line 2: NoFact"),
        // NoFact and IllSubst
        ("1 axiom V\n2 subst 9 p()~>._0>=0\n", "line 2: NoFact"),
        // NoPlace and WrongShape, also of a cut's own formula
        ("1 start p() ==>\n2 apply 1 1 andL(2)\n", "line 2: NoPlace"),
        (
            "dlk 2\nnode 1 dot 0\nnode 2 num 0\nnode 3 ge 1 2\n1 start ==>\n2 apply 1 1 cutL(1,#3)\n",
            "line 6: NoPlace",
        ),
        (
            "dlk 2\nnode 1 dot 0\nnode 2 num 0\nnode 3 ge 1 2\n1 start ==>\n2 apply 1 1 cutR(1,#3)\n",
            "line 6: NoPlace",
        ),
        // WrongShape and NotArith
        (
            "dlk 2\nnode 1 dot 0\nnode 2 num 0\nnode 3 ge 1 2\n1 leaf 3 ==>\n",
            "line 5: WrongShape",
        ),
        // IllSubst and FreeInSubst
        (
            "1 start ==> p()\n2 subst 1 p()~>x>=0,p()~>x>=0\n",
            "line 2: IllSubst",
        ),
        // IllSubst and NotAdmissible
        (
            "1 axiom V\n2 subst 1 p()~>x>=0,a;~>x:=1;,a;~>x:=1;\n",
            "line 2: IllSubst",
        ),
        // FreeInSubst and NotAdmissible
        (
            "1 start ==> [x:=1;]p()\n2 subst 1 p()~>x>=0\n",
            "line 2: FreeInSubst",
        ),
    ] {
        let printed = format!(in alloc; "refused: {printed}\n")?;
        says(&rt, alloc, "x>=0", term, 2, printed.as_str())?;
    }
    Ok(())
}

/// A formula of 65,535 nodes that isn't deep: 327 conjunctions of 199 nodes in one, and 68 times `true`.
fn big(alloc: Global) -> Result<String, AllocError> {
    let group = trues(alloc, "&", 100)?;
    let mut formula = String::new(alloc);
    for _ in 0..327 {
        let next = format!(in alloc; "({group})&")?;
        formula.push_str(next.as_str())?;
    }
    let last = trues(alloc, "&", 68)?;
    formula.push_str(last.as_str())?;
    Ok(formula)
}

/// A formula of a depth of 1,000.
fn deep(alloc: Global) -> Result<String, AllocError> {
    let mut formula = String::new(alloc);
    for _ in 0..999 {
        formula.push_str("!")?;
    }
    formula.push_str("true")?;
    Ok(formula)
}

/// The last line of a term of lines without an end is refused for this reason.
fn refuses_last(
    rt: &impl Abort,
    alloc: Global,
    draft: &Draft,
    reason: &str,
) -> Result<(), NoReply> {
    let line = draft.lines;
    let printed = format!(in alloc; "refused: line {line}: {reason}\n")?;
    answers(rt, alloc, b"true", &draft.term, 2, printed.as_str())
}

/// Rules whose new formula, or new sequent, is past two limits.
#[test]
fn says_the_first_of_two_limits_of_a_sequent(rt: HostRuntime) -> Result<(), Fail> {
    let alloc = rt.alloc();
    let (big, deep, full) = (big(alloc)?, deep(alloc)?, trues(alloc, ",", 256)?);
    for (start, rule, reason) in [
        (
            format!(in alloc; "start ==> {big}")?,
            format!(in alloc; "cutR(1,{deep})")?,
            "TooBig",
        ),
        (
            format!(in alloc; "start {big} ==> {full}")?,
            String::from_str(alloc, "cutL(1,true&true)")?,
            "TooBig",
        ),
        (
            format!(in alloc; "start true ==> {full}")?,
            format!(in alloc; "cutL(1,{deep})")?,
            "TooDeep",
        ),
    ] {
        let mut draft = empty(alloc);
        draft.step(alloc, start.as_str())?;
        draft.fact = 1;
        draft.rule(alloc, 1, rule.as_str())?;
        refuses_last(&rt, alloc, &draft, reason)?;
    }
    Ok(())
}

/// Rules on a goal of 256, each of which makes one goal more.
#[test]
fn says_the_first_of_two_limits_of_goals(rt: HostRuntime) -> Result<(), Fail> {
    let alloc = rt.alloc();
    let (big, deep, full) = (big(alloc)?, deep(alloc)?, trues(alloc, ",", 256)?);
    for (left, rule, reason) in [
        ("", format!(in alloc; "cutR(1,{big})")?, "TooBig"),
        ("", format!(in alloc; "cutR(1,{deep})")?, "TooDeep"),
        (
            full.as_str(),
            String::from_str(alloc, "cut(true)")?,
            "SideFull",
        ),
    ] {
        let mut draft = empty(alloc);
        draft.take_apart(alloc, left, 256)?;
        draft.rule(alloc, 1, rule.as_str())?;
        refuses_last(&rt, alloc, &draft, reason)?;
    }
    Ok(())
}

/// A substitution that puts a deep formula into many places.
#[test]
fn says_the_first_of_two_limits_of_a_substitution(rt: HostRuntime) -> Result<(), Fail> {
    let alloc = rt.alloc();
    let mut draft = empty(alloc);
    draft.step(alloc, "rule CE")?;
    for fact in 1..15_u32 {
        let step = format!(in alloc; "subst {fact} p(||)~>p(||)&p(||)")?;
        draft.step(alloc, step.as_str())?;
    }
    let deep = deep(alloc)?;
    let step = format!(in alloc; "subst 15 p(||)~>{deep}")?;
    draft.step(alloc, step.as_str())?;
    refuses_last(&rt, alloc, &draft, "TooBig")?;
    Ok(())
}

/// The conjunction of `x>=n` for the numbers in the range.
fn at_least(alloc: Global, from: u32, to: u32) -> Result<String, AllocError> {
    let mut text = String::new(alloc);
    for number in from..to {
        let front = if number == from { "" } else { "&" };
        let conjunct = format!(in alloc; "{front}x>={number}")?;
        text.push_str(conjunct.as_str())?;
    }
    Ok(text)
}

impl Draft {
    /// The first goal, such a conjunction, proved with a leaf for each conjunct.
    fn prove(&mut self, alloc: Global, from: u32, to: u32) -> Result<(), AllocError> {
        for number in from..to {
            if number.saturating_add(1) < to {
                self.rule(alloc, 1, "andR(1)")?;
            }
            let leaf = format!(in alloc; "leaf ==> x>={number}")?;
            self.step(alloc, leaf.as_str())?;
            let (fact, last) = (self.fact, self.lines);
            let merge = format!(in alloc; "merge {fact} 1 {last}")?;
            self.step(alloc, merge.as_str())?;
            self.fact = self.lines;
        }
        Ok(())
    }
}

/// A merge of a fact with 130 goals and 513 leaves in the place of the last goal of another, which has 131 and 513.
#[test]
fn says_the_first_of_two_limits_of_a_merge(rt: HostRuntime) -> Result<(), Fail> {
    let alloc = rt.alloc();
    let (front, back) = (at_least(alloc, 0, 513)?, at_least(alloc, 513, 1026)?);
    let many = trues(alloc, "&", 130)?;
    let mut draft = empty(alloc);
    let start = format!(in alloc; "start ==> ({front})&(({many})&(({back})&({many})))")?;
    draft.step(alloc, start.as_str())?;
    draft.fact = 1;
    draft.rule(alloc, 1, "andR(1)")?;
    draft.prove(alloc, 0, 513)?;
    draft.rule(alloc, 1, "andR(1)")?;
    draft.split(alloc, 130)?;
    let fact = draft.fact;
    let start = format!(in alloc; "start ==> ({back})&({many})")?;
    draft.step(alloc, start.as_str())?;
    draft.fact = draft.lines;
    draft.rule(alloc, 1, "andR(1)")?;
    draft.prove(alloc, 513, 1026)?;
    draft.split(alloc, 130)?;
    let by = draft.fact;
    let merge = format!(in alloc; "merge {fact} 131 {by}")?;
    draft.step(alloc, merge.as_str())?;
    refuses_last(&rt, alloc, &draft, "GoalsFull")?;
    Ok(())
}

ghost use Rattle.std.specs.Prelude.{◌≡◌, ◌<◌};

use super::same;
use dlk_plain::PlainStore;
use dlk_rules::{Rule, Step};
use dlk_store::{Steps, Store};
use dlk_termtext::{Line, read_line, write_line};
use dlk_tree::Name;
use std::alloc::Global;
use std::marker::Brand;
use std::sync::ledger::{Blank, Ledger};
use std::test::Fail;

/// What the text says.
fn read(rt: &HostRuntime, text: &str) -> Option<Line> {
    read_line(
        rt.alloc(),
        text.as_bytes(),
        &mut PlainStore::new(rt.alloc()),
    )
    .ok()
}

/// The number of a line's step. That of `done` is 0.
fn number(line: &Option<Line>) -> Option<u32> {
    match line.as_ref()? {
        Line::Done => Some(0),
        Line::Step { number, step: _ } => Some(*number),
    }
}

/// The step of a line.
fn step_of(line: &Option<Line>) -> Option<&Step> {
    match line.as_ref()? {
        Line::Done => None,
        Line::Step { number: _, step } => Some(step),
    }
}

/// The rule of a line, with its fact and its goal.
fn applied(line: &Option<Line>) -> Option<(u32, u32, &Rule)> {
    match step_of(line)? {
        Step::Apply { fact, goal, rule } => Some((*fact, *goal, rule)),
        _ => None,
    }
}

/// The fact and the names of a line.
fn renamed(line: &Option<Line>) -> Option<(u32, &Name, &Name)> {
    match step_of(line)? {
        Step::Rename { fact, x, y } => Some((*fact, x, y)),
        _ => None,
    }
}

/// The fact, the goal and the merged fact of a line.
fn merged(line: &Option<Line>) -> Option<(u32, u32, u32)> {
    match step_of(line)? {
        Step::Merge { fact, goal, by } => Some((*fact, *goal, *by)),
        _ => None,
    }
}

/// The fact of a line, and how many pairs it has.
fn substituted(line: &Option<Line>) -> Option<(u32, usize)> {
    match step_of(line)? {
        Step::Subst { fact, pairs } => Some((*fact, pairs.as_slice().len())),
        _ => None,
    }
}

/// The kind and the name of a line that names an axiom or an axiomatic rule.
fn named(line: &Option<Line>) -> Option<(&'static str, &Name)> {
    match step_of(line)? {
        Step::Axiom(name) => Some(("axiom", name)),
        Step::AxRule(name) => Some(("rule", name)),
        _ => None,
    }
}

/// Whether a line opens with a sequent, or adds one as a leaf.
fn opened(line: &Option<Line>) -> Option<&'static str> {
    match step_of(line)? {
        Step::Start(_) => Some("start"),
        Step::Leaf(_) => Some("leaf"),
        _ => None,
    }
}

#[test]
fn reads_lines(rt: HostRuntime) -> Result<(), Fail> {
    for (text, want) in &[
        ("done", Some(0)),
        ("1 start ==> x>=0 -> x>=0", Some(1)),
        ("2 start \t==>\r", Some(2)),
        ("999999999 apply 12 3 implyR(4)", Some(999999999)),
        ("3 rename 2 x y", Some(3)),
        ("", None),
        ("done ", None),
        ("01 start ==>", None),
        ("0 start ==>", None),
        ("1000000000 start ==>", None),
        ("1  start ==>", None),
        ("1 start", None),
        ("1 Start ==>", None),
        ("1 start x>=0", None),
        ("1 start ==> true", Some(1)),
        ("1 start [x:=1;]x>0,p(||) /* a comment */ ==> {x'=1}", None),
        (
            "1 start [x:=1;]x>0,p(||) /* a comment */ ==> [{x'=1}]q()",
            Some(1),
        ),
        ("1 start ==> ._0>=0", None),
        ("1 start ==> _", None),
        ("1 start ==> x>0#", None),
        ("1 start ==> [{x'=1,x'=2}]true", None),
        ("2 apply 1 implyR(1)", None),
        ("2 apply 1 1  implyR(1)", None),
        ("2 rename 1 x", None),
        ("2 rename 1 x y ", None),
        ("2 rename 1  x y", None),
        ("2 rename 1 x true", None),
        ("2 rename 1 1x y", None),
        ("2 rename x y", None),
        ("nonsense", None),
    ] {
        same(&rt, number(&read(&rt, text)), *want, text);
    }
    Ok(())
}

#[test]
fn reads_rules_with_places(rt: HostRuntime) -> Result<(), Fail> {
    for (text, rule) in &[
        ("1 apply 2 3 close(5,6)", Rule::Close(5, 6)),
        ("1 apply 2 3 closeTrue(1)", Rule::CloseTrue(1)),
        ("1 apply 2 3 closeFalse(2)", Rule::CloseFalse(2)),
        ("1 apply 2 3 notL(3)", Rule::NotL(3)),
        ("1 apply 2 3 notR(4)", Rule::NotR(4)),
        ("1 apply 2 3 andL(5)", Rule::AndL(5)),
        ("1 apply 2 3 andR(6)", Rule::AndR(6)),
        ("1 apply 2 3 orL(7)", Rule::OrL(7)),
        ("1 apply 2 3 orR(8)", Rule::OrR(8)),
        ("1 apply 2 3 implyL(9)", Rule::ImplyL(9)),
        ("1 apply 2 3 implyR(10)", Rule::ImplyR(10)),
        ("1 apply 2 3 equivL(11)", Rule::EquivL(11)),
        ("1 apply 2 3 equivR(12)", Rule::EquivR(12)),
        ("1 apply 2 3 hideL(13)", Rule::HideL(13)),
        ("1 apply 2 3 hideR(14)", Rule::HideR(14)),
        ("1 apply 2 3 coHideR(15)", Rule::CoHideR(15)),
        ("1 apply 2 3 exchangeL(16,17)", Rule::ExchangeL(16, 17)),
        ("1 apply 2 3 exchangeR(18,19)", Rule::ExchangeR(18, 19)),
        ("1 apply 2 3 skolemL(20)", Rule::SkolemL(20)),
        ("1 apply 2 3 skolemR(21)", Rule::SkolemR(21)),
        ("1 apply 2 3 equivifyR(22)", Rule::EquivifyR(22)),
        ("1 apply 2 3 commuteEquivL(23)", Rule::CommuteEquivL(23)),
        ("1 apply 2 3 commuteEquivR(24)", Rule::CommuteEquivR(24)),
    ] {
        let line = read(&rt, text);
        same(&rt, applied(&line), Some((2, 3, rule)), text);
    }
    Ok(())
}

#[test]
fn reads_names(rt: HostRuntime) -> Result<(), Fail> {
    let alloc = rt.alloc();
    let rule = Rule::BoundL(4, Name::new(alloc, b"y_1")?);
    let line = read(&rt, "1 apply 2 3 boundL(4,y_1)");
    same(&rt, applied(&line), Some((2, 3, &rule)), "boundL");
    let rule = Rule::BoundR(5, Name::new(alloc, b"trueX")?);
    let line = read(&rt, "1 apply 2 3 boundR(5,trueX)");
    same(&rt, applied(&line), Some((2, 3, &rule)), "boundR");
    let (x, y) = (Name::new(alloc, b"x")?, Name::new(alloc, b"True")?);
    let line = read(&rt, "1 rename 2 x True");
    same(&rt, renamed(&line), Some((2, &x, &y)), "rename");
    Ok(())
}

#[test]
fn reads_names_of_axioms(rt: HostRuntime) -> Result<(), Fail> {
    for (text, kind, name) in &[
        ("1 axiom assignb", "axiom", "assignb"),
        ("1 axiom nonsense", "axiom", "nonsense"),
        ("12 rule goedel", "rule", "goedel"),
    ] {
        let name = Name::new(rt.alloc(), name.as_bytes())?;
        let line = read(&rt, text);
        same(&rt, named(&line), Some((*kind, &name)), text);
    }
    Ok(())
}

#[test]
fn reads_sequents(rt: HostRuntime) -> Result<(), Fail> {
    for (text, want) in &[
        ("1 start x>0 ==> x>0", Some("start")),
        ("1 leaf x>0 ==> x>0", Some("leaf")),
        ("1 leaf ==> [x:=1;]x>0", Some("leaf")),
    ] {
        same(&rt, opened(&read(&rt, text)), *want, text);
    }
    Ok(())
}

#[test]
fn reads_merges(rt: HostRuntime) -> Result<(), Fail> {
    for (text, want) in &[
        ("7 merge 4 5 6", Some((4, 5, 6))),
        ("7 merge 999999999 1 6", Some((999999999, 1, 6))),
    ] {
        same(&rt, merged(&read(&rt, text)), *want, text);
    }
    Ok(())
}

#[test]
fn reads_substitutions(rt: HostRuntime) -> Result<(), Fail> {
    for (text, want) in &[
        ("2 subst 1 ", Some((1, 0))),
        ("2 subst 1  ", Some((1, 0))),
        ("2 subst 1 p()~>true", Some((1, 1))),
        ("2 subst 13 p(._0)~>._0>=1, f()~>x+1", Some((13, 2))),
        ("2 subst 1 p()~>true, p()~>false", Some((1, 2))),
        ("2 subst 1", None),
        ("2 subst ", None),
        ("2 subst p()~>true", None),
        ("2 subst 1 p()~>", None),
        ("2 subst 1 p()~>true,", None),
        ("2 subst 01 p()~>true", None),
        ("2 subst 1 2 p()~>true", None),
    ] {
        same(&rt, substituted(&read(&rt, text)), *want, text);
    }
    Ok(())
}

#[test]
fn reads_no_steps(rt: HostRuntime) -> Result<(), Fail> {
    for text in &[
        "1 axiom",
        "1 axiom ",
        "1 axiom  assignb",
        "1 axiom assignb ",
        "1 axiom 1x",
        "1 axiom true",
        "1 axiom x y",
        "1 axioms x",
        "1 Axiom x",
        "1 rule",
        "1 rule ",
        "1 rule goedel()",
        "1 rule _0",
        "1 rules goedel",
        "1 leaf",
        "1 leaf ",
        "1 leaf x>0",
        "1 leaf ==> ._0>=0",
        "1 leafs ==>",
        "1 merge 1 2",
        "1 merge 1 2 ",
        "1 merge 1 2 3 ",
        "1 merge 1  2 3",
        "1 merge 1 2 03",
        "1 merge 1 2 x",
        "1 merge 1 2 1000000000",
        "1 merge 1 2 3 4",
        "1 merge ==>",
        "1  ==>",
        "1 ==>",
    ] {
        same(&rt, number(&read(&rt, text)), None, text);
    }
    Ok(())
}

#[test]
fn reads_formulas(rt: HostRuntime) -> Result<(), Fail> {
    let cut = read(&rt, "1 apply 2 3 cut( [x:=1;] x>0 /* (a comment) */ )");
    let is_cut = matches!(applied(&cut), Some((2, 3, Rule::Cut(_))));
    let left = read(&rt, "1 apply 2 3 cutL(4,x>0&(y>0))");
    let is_left = matches!(applied(&left), Some((2, 3, Rule::CutL(4, _))));
    let right = read(&rt, "1 apply 2 3 cutR(5, p(x,y))");
    let is_right = matches!(applied(&right), Some((2, 3, Rule::CutR(5, _))));
    same(&rt, [is_cut, is_left, is_right], [true; 3], "cuts");
    Ok(())
}

#[test]
fn reads_no_rules(rt: HostRuntime) -> Result<(), Fail> {
    for text in &[
        "1 apply 2 3 notL( 1)",
        "1 apply 2 3 notL(1 )",
        "1 apply 2 3 notL (1)",
        "1 apply 2 3 notL(1) ",
        "1 apply 2 3 notL(1",
        "1 apply 2 3 notL1)",
        "1 apply 2 3 notL()",
        "1 apply 2 3 notL",
        "1 apply 2 3 NotL(1)",
        "1 apply 2 3 notl(1)",
        "1 apply 2 3 notL(1,2)",
        "1 apply 2 3 notL(01)",
        "1 apply 2 3 notL(1))",
        "1 apply 2 3 notX(1)",
        "1 apply 2 3 skolemL(x)",
        "1 apply 2 3 close(1)",
        "1 apply 2 3 close(1, 2)",
        "1 apply 2 3 close(1,2,3)",
        "1 apply 2 3 boundL(1)",
        "1 apply 2 3 boundL(1,)",
        "1 apply 2 3 boundL(1,true)",
        "1 apply 2 3 boundR(1,false)",
        "1 apply 2 3 boundR(1,1x)",
        "1 apply 2 3 boundR(1, y)",
        "1 apply 2 3 boundR(y,1)",
        "1 apply 2 3 cut()",
        "1 apply 2 3 cut(x)",
        "1 apply 2 3 cut(._0>0)",
        "1 apply 2 3 cut(_)",
        "1 apply 2 3 cut(x>0",
        "1 apply 2 3 cutL(x>0,1)",
        "1 apply 2 3 cutL(1)",
        "1 apply 2 3 cutR( 1,x>0)",
        "1 apply 2 3 (1)",
    ] {
        same(&rt, applied(&read(&rt, text)), None, text);
    }
    Ok(())
}

/// What is written of the line that the text says.
fn written<L: Ledger>(alloc: Global, text: &[u8], blank: Blank) -> Option<Vec<u8>>
    requires name { blank.name ≡ L.name }
    requires parts { blank.parts ≡ L.parts }
    requires some { 0 < blank.parts }
{
    let mut steps = Steps::<L>::new(blank);
    written_in(alloc, text, &mut PlainStore::new(alloc), &mut steps)
}

/// The same with a store.
fn written_in<S: Store, L: Ledger>(
    alloc: Global,
    text: &[u8],
    store: &mut S,
    steps: &mut Steps<L>,
) -> Option<Vec<u8>> {
    let Ok(Line::Step { number, step }) = read_line(alloc, text, store) else {
        return None;
    };
    let mut out = Vec::new(alloc);
    write_line(number, &step, store, &mut out, steps).ok()?;
    Some(out)
}

/// Whether what is written of the line that the text says is this text.
fn writes(alloc: Global, text: &str, want: &str) -> bool {
    match written::<Brand>(alloc, text.as_bytes(), Blank::new(1)) {
        Some(line) => line.as_slice() == want.as_bytes(),
        None => false,
    }
}

#[test]
fn writes_lines(rt: HostRuntime) -> Result<(), Fail> {
    for text in &[
        "1 start x>=0, y>0 ==> x>=0 -> x>=0",
        "2 start ==>",
        "999999999 axiom assignb",
        "10 rule G",
        "2 leaf ==> x>0",
        "3 apply 12 305 implyR(4)",
        "7 merge 4 5 6",
        "8 subst 13 p(._0)~>._0>=1,f()~>x+1",
        "8 subst 1 ",
        "9 rename 2 x True",
    ] {
        same(&rt, writes(rt.alloc(), text, text), true, text);
    }
    let spaced = "1 leaf  x>0,( y>0 )==>/* nothing */";
    let is_written = writes(rt.alloc(), spaced, "1 leaf x>0, y>0 ==>");
    same(&rt, is_written, true, spaced);
    Ok(())
}

#[test]
fn writes_rules(rt: HostRuntime) -> Result<(), Fail> {
    for rule in &[
        "close(5,60)",
        "closeTrue(1)",
        "closeFalse(2)",
        "notL(3)",
        "notR(4)",
        "andL(5)",
        "andR(6)",
        "orL(7)",
        "orR(8)",
        "implyL(9)",
        "implyR(10)",
        "equivL(11)",
        "equivR(12)",
        "cut([x:=1;]x>0)",
        "cutL(40,x>0&y>0)",
        "cutR(5,p(x,y))",
        "hideL(13)",
        "hideR(14)",
        "coHideR(15)",
        "exchangeL(16,17)",
        "exchangeR(18,19)",
        "skolemL(20)",
        "skolemR(21)",
        "boundL(4,y_1)",
        "boundR(5,trueX)",
        "equivifyR(22)",
        "commuteEquivL(23)",
        "commuteEquivR(24)",
    ] {
        let text = format!(in rt.alloc(); "1 apply 2 3 {rule}")?;
        let is_written = writes(rt.alloc(), text.as_str(), text.as_str());
        same(&rt, is_written, true, rule);
    }
    Ok(())
}

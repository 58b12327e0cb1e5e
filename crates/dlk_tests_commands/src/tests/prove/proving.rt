// What `prove` answers, and the terms that it writes.
use super::*;

/// The lines of the term that `prove` writes. `check` must say the same of the term.
pub(super) fn proof(
    rt: &impl Abort,
    alloc: Global,
    model: &str,
    strategy: &str,
) -> Result<Vec<u8>, NoReply> {
    let (model, texts) = (model.as_bytes(), [model.as_bytes(), strategy.as_bytes()]);
    let (status, reply) = replied(alloc, &PROVE, &texts)?;
    let term = reply.written.unwrap_or(Vec::new(alloc));
    let (report, texts) = (reply.printed.as_slice(), [model, &term]);
    prints(rt, alloc, &CHECK, &texts, status, report, strategy)?;
    Ok(term)
}

/// The lines of the term that `prove` writes, where it and `check` print this report, with this status.
pub(super) fn proves(
    rt: &impl Abort,
    alloc: Global,
    model: &str,
    strategy: &str,
    status: u8,
    report: &str,
) -> Result<Vec<u8>, NoReply> {
    let report = report.as_bytes();
    let texts = [model.as_bytes(), strategy.as_bytes()];
    let written = prints(rt, alloc, &PROVE, &texts, status, report, strategy)?;
    let term = written.unwrap_or(Vec::new(alloc));
    let texts = [model.as_bytes(), term.as_slice()];
    prints(rt, alloc, &CHECK, &texts, status, report, strategy)?;
    Ok(term)
}

#[test]
fn writes_terms(rt: HostRuntime) -> Result<(), Fail> {
    let alloc = rt.alloc();
    for (model, strategy, status, printed, term) in &[
        (
            "x>=0 -> x>=0",
            "implyR(1); close",
            0,
            "closed\nconclusion ==> x>=0 -> x>=0\ngoals 0\nleaves 0\nlines 3\n",
            TERM_BY_NODES,
        ),
        // nothing is found, and a failed alternative leaves no line
        (
            "x>=0",
            "(implyR(1)|andR(1))*1000",
            1,
            "open\nconclusion ==> x>=0\ngoals 1\ngoal 1 ==> x>=0\nleaves 0\nlines 1\n",
            "dlk 2\nnode 1 var x\nnode 2 num 0\nnode 3 ge 1 2\n1 start ==> 3\ndone\n",
        ),
        (
            "x>=0",
            "((((nil*0)*1000)*1000)*1000)*1000",
            1,
            "open\nconclusion ==> x>=0\ngoals 1\ngoal 1 ==> x>=0\nleaves 0\nlines 1\n",
            "dlk 2\nnode 1 var x\nnode 2 num 0\nnode 3 ge 1 2\n1 start ==> 3\ndone\n",
        ),
        // each part runs on all goals, and a leaf is listed once
        (
            "(x>=0 -> x+1>=0)&(x>=0 -> x+1>=0)",
            "andR(1); implyR(1); leaf",
            0,
            "closed\nconclusion ==> (x>=0 -> x+1>=0)&(x>=0 -> x+1>=0)\ngoals 0\nleaves 1\nleaf 1 x>=0 ==> x+1>=0\nlines 8\n",
            "dlk 2\nnode 1 var x\nnode 2 num 0\nnode 3 ge 1 2\nnode 4 num 1\nnode 5 add 1 4\nnode 6 ge 5 2\nnode 7 imply 3 6\nnode 8 and 7 7\n1 start ==> 8\n2 apply 1 1 andR(1)\n3 apply 2 1 implyR(1)\n4 apply 3 2 implyR(1)\n5 leaf 3 ==> 6\n6 merge 4 1 5\n7 leaf 3 ==> 6\n8 merge 6 1 7\ndone\n",
        ),
        // a failed alternative's lines are taken back
        (
            "x>=0 -> x>=0",
            " /* by hand */ (implyR(1); andR(1)) | (implyR(1); close)\n",
            0,
            "closed\nconclusion ==> x>=0 -> x>=0\ngoals 0\nleaves 0\nlines 3\n",
            TERM_BY_NODES,
        ),
        // `close` takes the first formulas that are the same
        (
            "x>=0 -> x>=0|x>=0",
            "implyR(1); orR(1); close",
            0,
            "closed\nconclusion ==> x>=0 -> x>=0|x>=0\ngoals 0\nleaves 0\nlines 4\n",
            "dlk 2\nnode 1 var x\nnode 2 num 0\nnode 3 ge 1 2\nnode 4 or 3 3\nnode 5 imply 3 4\n1 start ==> 5\n2 apply 1 1 implyR(1)\n3 apply 2 1 orR(1)\n4 apply 3 1 close(1,1)\ndone\n",
        ),
        // branches, places on the left and quoted formulas
        (
            "(a>0 -> b>0)&(b>0 -> c>0) -> (a>0 -> c>0)",
            "implyR(1); implyR(1); andL(-1); implyL(-1); <(close, implyL(-3); close)",
            0,
            "closed\nconclusion ==> (a>0 -> b>0)&(b>0 -> c>0) -> a>0 -> c>0\ngoals 0\nleaves 0\nlines 9\n",
            "dlk 2\nnode 1 var a\nnode 2 num 0\nnode 3 gt 1 2\nnode 4 var b\nnode 5 gt 4 2\nnode 6 imply 3 5\nnode 7 var c\nnode 8 gt 7 2\nnode 9 imply 5 8\nnode 10 and 6 9\nnode 11 imply 3 8\nnode 12 imply 10 11\n1 start ==> 12\n2 apply 1 1 implyR(1)\n3 apply 2 1 implyR(1)\n4 apply 3 1 andL(1)\n5 apply 4 1 implyL(1)\n6 apply 5 1 close(1,2)\n7 apply 6 1 implyL(3)\n8 apply 7 1 close(1,2)\n9 apply 8 1 close(3,1)\ndone\n",
        ),
        (
            "x>=0 -> \\forall x (x>=0 -> x>=0)",
            "implyR('R); boundR(z,1); skolemR(1); implyR(1); cut(\"z>=1\"); <(hideL(-3), coHideR(2)); nil",
            1,
            "open\nconclusion ==> x>=0 -> \\forall x (x>=0 -> x>=0)\ngoals 2\ngoal 1 x>=0, z>=0 ==> z>=0\ngoal 2 ==> z>=1\nleaves 0\nlines 8\n",
            "dlk 2\nnode 1 var x\nnode 2 num 0\nnode 3 ge 1 2\nnode 4 imply 3 3\nnode 5 forall x 4\nnode 6 imply 3 5\n1 start ==> 6\n2 apply 1 1 implyR(1)\n3 apply 2 1 boundR(1,z)\n4 apply 3 1 skolemR(1)\n5 apply 4 1 implyR(1)\nnode 7 var z\nnode 8 num 1\nnode 9 ge 7 8\n6 apply 5 1 cut(#9)\n7 apply 6 1 hideL(3)\n8 apply 7 2 coHideR(2)\ndone\n",
        ),
    ] {
        let lines = proves(&rt, alloc, model, strategy, *status, printed)?;
        assert_eq!(rt; lines.as_slice(), term.as_bytes(), "{model} by {strategy}");
    }
    Ok(())
}

#[test]
fn refuses_strategies(rt: HostRuntime) -> Result<(), Fail> {
    let alloc = rt.alloc();
    for (model, strategy, printed) in &[
        // the model comes first
        ("x>=0 & -> y>0", "(nil", "refused: model at 7: syntax\n"),
        ("x>=0", "(nil", "refused: strategy at 4: syntax\n"),
        ("x>=0", "nil*1001", "refused: strategy at 4: repeat\n"),
        ("x>=0", "foo(1)", "refused: strategy at 0: unknown\n"),
        (
            "x>=0",
            "nil; implyR(x)",
            "refused: strategy at 5: arguments\n",
        ),
        (
            "x>=0",
            "nil; implyR(1)",
            "refused: fails at 5: WrongShape\n",
        ),
        ("x>=0", "implyR(2)", "refused: fails at 0: NoPlace\n"),
        ("x>=0", "implyR(1.0)", "refused: fails at 0: NoPlace\n"),
        ("x>=0", "implyR(-1)", "refused: fails at 0: NoPlace\n"),
        ("x>=0", "close", "refused: fails at 0: NotEqual\n"),
        ("[x:=1;]x>=0", "leaf", "refused: fails at 0: NotArith\n"),
        // the last alternative's fault, and the last place's
        (
            "x>=0",
            "implyR(1)|close",
            "refused: fails at 10: NotEqual\n",
        ),
        ("x>=0", "andL('L)", "refused: fails at 0: NoPlace\n"),
        (
            "x>=0",
            "nil; <(nil, nil)",
            "refused: fails at 5: WrongCount\n",
        ),
        ("x>=0", "((nil*1000)*1000)*1000", "refused: budget at 2\n"),
    ] {
        let texts = [model.as_bytes(), strategy.as_bytes()];
        refuses(&rt, alloc, texts, printed, strategy)?;
    }
    Ok(())
}

/// `prove` refuses this strategy on a small model by this line.
fn refuses_strategy(
    rt: &impl Abort,
    alloc: Global,
    strategy: &[u8],
    line: &str,
) -> Result<(), NoReply> {
    let texts = ["x>=0".as_bytes(), &strategy[..]];
    refuses(rt, alloc, texts, line, line)
}

/// The status of `prove` with this strategy on the same model.
fn status_by(alloc: Global, strategy: &[u8]) -> Result<u8, NoReply> {
    let texts = ["x>=0".as_bytes(), &strategy[..]];
    let (status, _) = replied(alloc, &PROVE, &texts)?;
    Ok(status)
}

#[test]
fn refuses_long_strategies_and_terms(rt: HostRuntime) -> Result<(), Fail> {
    let alloc = rt.alloc();
    let long = padded(alloc, "nil", 1_048_577)?;
    refuses_strategy(&rt, alloc, &long, "refused: too-long strategy\n")?;
    let most = padded(alloc, "nil", 1_048_576)?;
    assert_eq!(rt; status_by(alloc, &most)?, 1);

    let name = repeated(alloc, "a", 300_000)?;
    let strategy = joined(alloc, b"(boundR(", &name, b",1);boundR(x,1))*255")?;
    let texts = [b"\\forall x x>=0".as_slice(), &strategy];
    let line = "refused: term-too-long 76513894\n";
    refuses(&rt, alloc, texts, line, line)?;
    Ok(())
}

#[test]
fn uses_axioms_inside(rt: HostRuntime) -> Result<(), Fail> {
    let alloc = rt.alloc();
    let strategy = "implyR(1); useAt(assignb,1); leaf";
    let term = proves(&rt, alloc, INCREMENT_MODEL, strategy, 0, INCREMENT_REPORT)?;
    assert_eq!(rt; term.as_slice(), INCREMENT_BY_NODES.as_bytes());
    Ok(())
}

#[test]
fn uses_each_form(rt: HostRuntime) -> Result<(), Fail> {
    let alloc = rt.alloc();
    for (model, strategy, status, printed) in &[
        // a car's loop, by what `loop` and `dW` stand for
        (
            "v>=0 & A>0 -> [{{a:=A;++a:=0;}{x'=v,v'=a&v>=0}}*@invariant(v>=0)]v>=0",
            "implyR(1); boxCut(\"v>=0\",1); <(cutR(\"v>=0\",1); <(nil, useAt(I,1); G(1); implyR(1)), nil); <(leaf, useAt(composeb,1); useAt(choiceb,1); andR(1); useAt(assignb,1); useAt(DWeq,1); G(1); implyR(1); leaf, leaf)",
            0,
            "closed\nconclusion ==> v>=0&A>0 -> [{{a:=A;++a:=0;}{x'=v,v'=a&v>=0}}*]v>=0\ngoals 0\nleaves 2\nleaf 1 v>=0&A>0 ==> v>=0\nleaf 2 v>=0 ==> v>=0\nlines 104\n",
        ),
        (
            "[x:=*;]x>=0",
            "useAt(randomb,1); skolemR(1); leaf",
            0,
            "closed\nconclusion ==> [x:=*;]x>=0\ngoals 0\nleaves 1\nleaf 1 ==> x>=0\nlines 15\n",
        ),
        // on the left, and from right to left
        (
            "[x:=1;]x>=1 -> true",
            "implyR(1); useAt(assignb,-1); closeTrue(1)",
            0,
            "closed\nconclusion ==> [x:=1;]x>=1 -> true\ngoals 0\nleaves 0\nlines 13\n",
        ),
        (
            "x>=0 -> y>=0",
            "useBack(testb,1)",
            1,
            "open\nconclusion ==> x>=0 -> y>=0\ngoals 1\ngoal 1 ==> [?x>=0;]y>=0\nleaves 0\nlines 10\n",
        ),
        // terms, and terms under a condition
        (
            "(x+1)'>=0",
            "useAt(Dplus,1.0)",
            1,
            "open\nconclusion ==> (x+1)'>=0\ngoals 1\ngoal 1 ==> (x)'+(1)'>=0\nleaves 0\nlines 15\n",
        ),
        (
            "(x^2)'>=0",
            "useAt(Dpow,1.0)",
            1,
            "open\nconclusion ==> (x^2)'>=0\ngoals 1\ngoal 1 ==> 2*x^(2-1)*(x)'>=0\nleaves 1\nleaf 1 ==> 2!=0\nlines 20\n",
        ),
        // formulas under a condition, with a pair that is given
        (
            "[{x'=1&x>=0}]x>=0",
            "useAt(DC,1,\"r(||)~>x>=-1\")",
            1,
            "open\nconclusion ==> [{x'=1&x>=0}]x>=0\ngoals 2\ngoal 1 ==> [{x'=1&x>=0&x>=-1}]x>=0\ngoal 2 ==> [{x'=1&x>=0}]x>=-1\nleaves 0\nlines 15\n",
        ),
        // an implication on the left, with a name that is given; and a fact
        (
            "x>=0 -> true",
            "implyR(1); useAt(allvac,-1,\"x_~~y\")",
            1,
            "open\nconclusion ==> x>=0 -> true\ngoals 1\ngoal 1 \\forall y x>=0 ==> true\nleaves 0\nlines 8\n",
        ),
        (
            "x+1=x+1",
            "useAt(eqrefl,1)",
            0,
            "closed\nconclusion ==> x+1=x+1\ngoals 0\nleaves 0\nlines 5\n",
        ),
        // boxes
        (
            "[x:=1;]true",
            "G(1); closeTrue(1)",
            0,
            "closed\nconclusion ==> [x:=1;]true\ngoals 0\nleaves 0\nlines 6\n",
        ),
        (
            "[x:=1;]true",
            "G('R); closeTrue(1)",
            0,
            "closed\nconclusion ==> [x:=1;]true\ngoals 0\nleaves 0\nlines 6\n",
        ),
        (
            "[x:=1;]x>=0",
            "boxCut(\"x>=1\",1)",
            1,
            "open\nconclusion ==> [x:=1;]x>=0\ngoals 2\ngoal 1 ==> [x:=1;]x>=1\ngoal 2 x>=1 ==> x>=0\nleaves 0\nlines 11\n",
        ),
    ] {
        proves(&rt, alloc, model, strategy, *status, printed)?;
    }
    Ok(())
}

#[test]
fn refuses_uses(rt: HostRuntime) -> Result<(), Fail> {
    let alloc = rt.alloc();
    for (model, strategy, why) in &[
        ("x>=0", "useAt(nope,1)", "UnknownName"),
        ("x>=0", "useAt(nope,'L)", "NoPlace"),
        ("x>=0", "useAt(nope,7)", "UnknownName"),
        ("[x:=1;]x>=1", "useAt(assignb,2)", "NoPlace"),
        ("[x:=1;]x>=1", "useAt(assignb,1.2)", "NoPlace"),
        ("x>=0", "useAt(assignb,1)", "NoMatch"),
        ("x>=0", "useBack(V,1)", "NoMatch"),
        // a form that wants a whole formula, and one on the right
        ("[{x'=1&x>=0}]x>=0", "useAt(DW,1.1)", "NoMatch"),
        ("[{x'=1&x>=0}]x>=0", "useAt(eqcongr,1)", "NoMatch"),
        // a name that is another one of the axiom's own
        ("[{t_'=1}]t_>=0", "useAt(DS,1)", "NoMatch"),
        // names that aren't the axiom's, or are given twice
        ("[x:=1;]x>=1", "useAt(assignb,1,\"y_~~x\")", "NoMatch"),
        ("[x:=1;]x>=1", "useAt(assignb,1,\"x_~~x,x_~~x\")", "NoMatch"),
        // a bad pair, and a substitution that isn't admissible
        (
            "[{x'=x}]x>0",
            "useAt(DG,1,\"y_~~y,term a(|y|)~>y,term b(|y|)~>0\")",
            "IllSubst",
        ),
        ("[x:=1;]x>0", "useAt(V,1)", "NotAdmissible"),
        ("x>=0", "G(1)", "WrongShape"),
        ("[x:=1;]x>=1", "G(-1)", "NoPlace"),
        ("[x:=1;]x>=1", "G(1.1)", "NoPlace"),
        ("x>=0", "boxCut(\"x>=1\",1)", "WrongShape"),
    ] {
        let line = format!(in alloc; "refused: fails at 0: {why}\n")?;
        let texts = [model.as_bytes(), strategy.as_bytes()];
        refuses(&rt, alloc, texts, &line, strategy)?;
    }
    Ok(())
}

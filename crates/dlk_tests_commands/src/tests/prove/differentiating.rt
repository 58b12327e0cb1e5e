// What `derive` does.
use super::proving::{proof, proves};
use super::*;

#[test]
fn differentiates_terms(rt: HostRuntime) -> Result<(), Fail> {
    let alloc = rt.alloc();
    for (model, strategy, goal, leaves, lines) in &[
        // a sum, a power and two variables
        (
            "(x^2+y)'>=0",
            "derive(1.0)",
            "2*x^(2-1)*x'+y'>=0",
            "leaves 1\nleaf 1 ==> 2!=0\n",
            62,
        ),
        // each other operator
        (
            "(-x-c()*y)'>=0",
            "derive(1.0)",
            "-x'-(0*y+c()*y')>=0",
            "leaves 0\n",
            85,
        ),
        // a name of the axiom's own
        ("(x_)'>=0", "derive(1.0)", "x_'>=0", "leaves 0\n", 14),
        // exponents: with a point, the same number written in two ways, one within another
        (
            "(x^0.5)'>=0",
            "derive(1.0)",
            "0.5*x^(0.5-1)*x'>=0",
            "leaves 1\nleaf 1 ==> 0.5!=0\n",
            34,
        ),
        (
            "(x^2+y^2)'>=0",
            "derive(1.0)",
            "2*x^(2-1)*x'+2*y^(2-1)*y'>=0",
            "leaves 1\nleaf 1 ==> 2!=0\n",
            81,
        ),
        (
            "((x^2)^3)'>=0",
            "derive(1.0)",
            "3*(x^2)^(3-1)*(2*x^(2-1)*x')>=0",
            "leaves 2\nleaf 1 ==> 3!=0\nleaf 2 ==> 2!=0\n",
            53,
        ),
        // below a `( )'`
        (
            "((2)'+1)'>=0",
            "derive(1.0.0.0)",
            "(0+1)'>=0",
            "leaves 0\n",
            15,
        ),
    ] {
        let report = format!(in alloc;
            "open\nconclusion ==> {model}\ngoals 1\ngoal 1 ==> {goal}\n{leaves}lines {lines}\n"
        )?;
        proves(&rt, alloc, model, strategy, 1, &report)?;
    }
    Ok(())
}

#[test]
fn differentiates_as_its_uses_do(rt: HostRuntime) -> Result<(), Fail> {
    let alloc = rt.alloc();
    let model = "(x^2+y)'>=0";
    let uses = "useAt(Dplus,1.0); useAt(Dpow,1.0.0); useAt(Dvar,1.0.0.1); useAt(Dvar,1.0.1)";
    let used = proof(&rt, alloc, model, uses)?;
    let derived = proof(&rt, alloc, model, "derive(1.0)")?;
    assert_eq!(rt; derived.as_slice(), used.as_slice());
    Ok(())
}

#[test]
fn differentiates_formulas(rt: HostRuntime) -> Result<(), Fail> {
    let alloc = rt.alloc();
    for (model, strategy, goal, lines) in &[
        ("(x>=0&y>0)'", "derive(1)", "x'>=0&y'>=0", 87),
        ("(x=1|y!=2)'", "derive(1)", "x'=0&y'=0", 87),
        ("(x<=y&x<y)'", "derive(1)", "x'<=y'&x'<=y'", 87),
        ("(\\forall x x<=y)'", "derive(1)", "\\forall x x'<=y'", 50),
        ("[x:=1;](x)'>=0", "derive(1.1.0)", "[x:=1;]x'>=0", 15),
        // what a failed alternative does is taken back
        ("x>=0", "(derive(1)|nil)*200", "x>=0", 1),
        // the last run that there may be is a use of its plan
        ("(x)'>=0", "(nil*999)*16;nil*14;derive(1.0)", "x'>=0", 15),
    ] {
        let report = format!(in alloc;
            "open\nconclusion ==> {model}\ngoals 1\ngoal 1 ==> {goal}\nleaves 0\nlines {lines}\n"
        )?;
        proves(&rt, alloc, model, strategy, 1, &report)?;
    }
    Ok(())
}

#[test]
fn differentiates_in_proofs(rt: HostRuntime) -> Result<(), Fail> {
    let alloc = rt.alloc();
    for (model, strategy, status, report) in &[
        // on the left
        (
            "(x)'>=0 -> true",
            "implyR(1); derive(-1.0)",
            1,
            "open\nconclusion ==> (x)'>=0 -> true\ngoals 1\ngoal 1 x'>=0 ==> true\nleaves 0\nlines 15\n",
        ),
        // on each goal that is left
        (
            "(x)'>=0&(y)'>=0",
            "andR(1); derive(1.0)",
            1,
            "open\nconclusion ==> (x)'>=0&(y)'>=0\ngoals 2\ngoal 1 ==> x'>=0\ngoal 2 ==> y'>=0\nleaves 0\nlines 30\n",
        ),
        // exponents that are one number
        (
            "(x^1.0)'>=0",
            "derive(1.0)",
            1,
            "open\nconclusion ==> (x^1)'>=0\ngoals 1\ngoal 1 ==> 1*x^(1-1)*x'>=0\nleaves 1\nleaf 1 ==> 1!=0\nlines 34\n",
        ),
        (
            "(x^2+x^2.0)'>=0",
            "derive(1.0)",
            1,
            "open\nconclusion ==> (x^2+x^2)'>=0\ngoals 1\ngoal 1 ==> 2*x^(2-1)*x'+2*x^(2-1)*x'>=0\nleaves 1\nleaf 1 ==> 2!=0\nlines 81\n",
        ),
        // the invariant of a system
        (
            "v>=0 -> [{x'=v,v'=1}]v>=0",
            "implyR(1); dI(1); <(close, derive(1.1); useAt(DEsys,1)*2; dW(1); step(1)*2; leaf)",
            0,
            "closed\nconclusion ==> v>=0 -> [{x'=v,v'=1}]v>=0\ngoals 0\nleaves 1\nleaf 1 true ==> 1>=0\nlines 128\n",
        ),
    ] {
        proves(&rt, alloc, model, strategy, *status, report)?;
    }
    Ok(())
}

#[test]
fn refuses_derivations(rt: HostRuntime) -> Result<(), Fail> {
    let alloc = rt.alloc();
    for (model, strategy, line) in &[
        // arguments: a place alone, which is no locator
        ("x>=0", "derive", "strategy at 0: arguments"),
        ("x>=0", "derive('R)", "strategy at 0: arguments"),
        ("x>=0", "derive(\"x\")", "strategy at 0: arguments"),
        ("x>=0", "derive(1,1)", "strategy at 0: arguments"),
        // the place or the path isn't there
        ("x>=0", "derive(2)", "fails at 0: NoPlace"),
        ("x>=0", "derive(-1)", "fails at 0: NoPlace"),
        ("(!x>=0)'", "derive(1.7)", "fails at 0: NoPlace"),
        // no `( )'` stands there
        ("x>=0", "derive(1)", "fails at 0: WrongShape"),
        ("x>=0", "nil; derive(1.0)", "fails at 5: WrongShape"),
        ("(x>=0)'", "derive(1);derive(1)", "fails at 10: WrongShape"),
        // a use fails, at the byte of the name
        (
            "((x)'+1)'>=0",
            "nil; derive(1.0.0.0)",
            "fails at 5: NotAdmissible",
        ),
        // the name is the last run that there may be
        ("(x)'>=0", "(nil*999)*16;nil*15;derive(1.0)", "budget at 20"),
    ] {
        let line = format!(in alloc; "refused: {line}\n")?;
        let texts = [model.as_bytes(), strategy.as_bytes()];
        refuses(&rt, alloc, texts, &line, strategy)?;
    }
    Ok(())
}

#[test]
fn refuses_what_has_no_derivative(rt: HostRuntime) -> Result<(), Fail> {
    let alloc = rt.alloc();
    for (model, strategy) in &[
        ("(!x>=0)'", "derive(1)"),
        ("(true)'", "derive(1)"),
        ("(x>=0 -> y>=0)'", "derive(1)"),
        ("(\\exists x x>=0)'", "derive(1)"),
        ("((x>=0)')'", "derive(1)"),
        ("(x^y)'>=0", "derive(1.0)"),
        ("(x^0)'>=0", "derive(1.0)"),
        ("(x^0.0)'>=0", "derive(1.0)"),
        ("(x/y)'>=0", "derive(1.0)"),
        ("(x')'>=0", "derive(1.0)"),
        ("(x+y/2)'>=0", "derive(1.0)"),
    ] {
        let texts = [model.as_bytes(), strategy.as_bytes()];
        refuses(&rt, alloc, texts, "refused: fails at 0: NoMatch\n", model)?;
    }
    Ok(())
}

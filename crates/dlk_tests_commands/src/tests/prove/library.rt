// What names of the library do.
use super::*;

#[test]
fn runs_the_library(rt: HostRuntime) -> Result<(), Fail> {
    let alloc = rt.alloc();
    for (model, strategy, status, printed) in &[
        // a car
        (
            "v>=0 & A>0 -> [{{a:=A;++a:=0;}{x'=v,v'=a&v>=0}}*@invariant(v>=0)]v>=0",
            "implyR(1); loop(\"v>=0\",1); <(leaf,\n  useAt(composeb,1); useAt(choiceb,1); andR(1); useAt(assignb,1); dW(1); leaf,\n  leaf)\n",
            0,
            "closed\nconclusion ==> v>=0&A>0 -> [{{a:=A;++a:=0;}{x'=v,v'=a&v>=0}}*]v>=0\ngoals 0\nleaves 2\nleaf 1 v>=0&A>0 ==> v>=0\nleaf 2 v>=0 ==> v>=0\nlines 104\n",
        ),
        (
            "x>=0 -> [{x:=x+1;}*]x>=0",
            "implyR(1); loop(\"x>=0\",1)",
            1,
            "open\nconclusion ==> x>=0 -> [{x:=x+1;}*]x>=0\ngoals 3\ngoal 1 x>=0 ==> x>=0\ngoal 2 x>=0 ==> [x:=x+1;]x>=0\ngoal 3 x>=0 ==> x>=0\nleaves 0\nlines 23\n",
        ),
        (
            "[{x'=1&x>=0}]x>=0",
            "dW(1)",
            1,
            "open\nconclusion ==> [{x'=1&x>=0}]x>=0\ngoals 1\ngoal 1 x>=0 ==> x>=0\nleaves 0\nlines 16\n",
        ),
        (
            "[{x'=1&x>=0}]x>=0",
            "dC(\"x>=-1\",1)",
            1,
            "open\nconclusion ==> [{x'=1&x>=0}]x>=0\ngoals 2\ngoal 1 ==> [{x'=1&x>=0&x>=-1}]x>=0\ngoal 2 ==> [{x'=1&x>=0}]x>=-1\nleaves 0\nlines 15\n",
        ),
        (
            "x>=0 -> [{x'=1}]x>=0",
            "implyR(1); dI(1)",
            1,
            "open\nconclusion ==> x>=0 -> [{x'=1}]x>=0\ngoals 2\ngoal 1 x>=0, true ==> x>=0\ngoal 2 x>=0, true ==> [{x'=1}](x>=0)'\nleaves 0\nlines 28\n",
        ),
        (
            "[{x'=1}]x>=0",
            "dG(y,\"0\",\"1\",1)",
            1,
            "open\nconclusion ==> [{x'=1}]x>=0\ngoals 1\ngoal 1 ==> \\exists y [{x'=1,y'=0*y+1}]x>=0\nleaves 0\nlines 12\n",
        ),
        // each axiom of `step`: that of equations where a loop binds the variable
        (
            "[x:=1;]x>=1",
            "step(1)",
            1,
            "open\nconclusion ==> [x:=1;]x>=1\ngoals 1\ngoal 1 ==> 1>=1\nleaves 0\nlines 12\n",
        ),
        (
            "[x':=1;]x'>=1",
            "step(1)",
            1,
            "open\nconclusion ==> [x':=1;]x'>=1\ngoals 1\ngoal 1 ==> 1>=1\nleaves 0\nlines 12\n",
        ),
        (
            "[x:=1;][{x:=x+1;}*]x>=1",
            "step(1)",
            1,
            "open\nconclusion ==> [x:=1;][{x:=x+1;}*]x>=1\ngoals 1\ngoal 1 ==> \\forall x (x=1 -> [{x:=x+1;}*]x>=1)\nleaves 0\nlines 12\n",
        ),
        (
            "[?x>=0;]x>=0",
            "step(1)",
            1,
            "open\nconclusion ==> [?x>=0;]x>=0\ngoals 1\ngoal 1 ==> x>=0 -> x>=0\nleaves 0\nlines 11\n",
        ),
        (
            "[x:=1;++x:=2;]x>=1",
            "step(1)",
            1,
            "open\nconclusion ==> [x:=1;++x:=2;]x>=1\ngoals 1\ngoal 1 ==> [x:=1;]x>=1&[x:=2;]x>=1\nleaves 0\nlines 11\n",
        ),
        (
            "[x:=1;x:=2;]x>=1",
            "step(1)",
            1,
            "open\nconclusion ==> [x:=1;x:=2;]x>=1\ngoals 1\ngoal 1 ==> [x:=1;][x:=2;]x>=1\nleaves 0\nlines 11\n",
        ),
        (
            "[x:=*;]x>=0",
            "step(1)",
            1,
            "open\nconclusion ==> [x:=*;]x>=0\ngoals 1\ngoal 1 ==> \\forall x x>=0\nleaves 0\nlines 12\n",
        ),
        (
            "<x:=1;>x>=1",
            "step(1)",
            1,
            "open\nconclusion ==> <x:=1;>x>=1\ngoals 1\ngoal 1 ==> ![x:=1;]!x>=1\nleaves 0\nlines 11\n",
        ),
        // each rule of `prop`
        (
            "((x>=0<->y>=0)->(!y>=0<->!x>=0))&(x>=0&true|false->y>=0|x>=0&true)",
            "prop",
            0,
            "closed\nconclusion ==> ((x>=0 <-> y>=0) -> (!y>=0 <-> !x>=0))&(x>=0&true|false -> y>=0|x>=0&true)\ngoals 0\nleaves 0\nlines 33\n",
        ),
        // `prop` takes two hundred connectives apart
        (
            "!!!!!!!!!!!!!!!!!!!!!!!!!!!!!!!!!!!!!!!!!!!!!!!!!!!!!!!!!!!!!!!!!!!!!!!!!!!!!!!!!!!!!!!!!!!!!!!!!!!!!!!!!!!!!!!!!!!!!!!!!!!!!!!!!!!!!!!!!!!!!!!!!!!!!!!!!!!!!!!!!!!!!!!!!!!!!!!!!!!!!!!!!!!!!!!!!!!!!!!!!x>=0",
            "prop",
            1,
            "open\nconclusion ==> !!!!!!!!!!!!!!!!!!!!!!!!!!!!!!!!!!!!!!!!!!!!!!!!!!!!!!!!!!!!!!!!!!!!!!!!!!!!!!!!!!!!!!!!!!!!!!!!!!!!!!!!!!!!!!!!!!!!!!!!!!!!!!!!!!!!!!!!!!!!!!!!!!!!!!!!!!!!!!!!!!!!!!!!!!!!!!!!!!!!!!!!!!!!!!!!!!!!!!!!!x>=0\ngoals 1\ngoal 1 ==> !x>=0\nleaves 0\nlines 201\n",
        ),
        // a locator, an argument too few or too many, and a formula for a term
        (
            "x>=0",
            "nil; dW('R)",
            2,
            "refused: strategy at 5: arguments\n",
        ),
        ("x>=0", "step", 2, "refused: strategy at 0: arguments\n"),
        ("x>=0", "prop(1)", 2, "refused: strategy at 0: arguments\n"),
        ("x>=0", "loop(1)", 2, "refused: strategy at 0: arguments\n"),
        (
            "x>=0",
            "dG(y,\"x>=0\",\"1\",1)",
            2,
            "refused: strategy at 0: arguments\n",
        ),
        // a part that fails: the first, the last alternative, and one that comes later
        ("x>=0", "nil; dI(1)", 2, "refused: fails at 5: NoMatch\n"),
        (
            "[x:=1;]x>=1",
            "step(2)",
            2,
            "refused: fails at 0: NoPlace\n",
        ),
        (
            "x>=0 -> [x:=1;]x>=0",
            "implyR(1); loop(\"x>=0\",1)",
            2,
            "refused: fails at 11: NoMatch\n",
        ),
    ] {
        let texts = [model.as_bytes(), strategy.as_bytes()];
        prints(
            &rt,
            alloc,
            &PROVE,
            &texts,
            *status,
            printed.as_bytes(),
            strategy,
        )?;
    }
    Ok(())
}

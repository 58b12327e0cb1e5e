// What `trim` writes.
use super::*;

/// The words of a trim.
const TRIM: [&str; 4] = ["trim", "model", "term", "out"];

/// A model and a term, the status, what is printed, and what is written.
type Row = (&'static str, &'static str, u8, &'static str, &'static str);

const ROWS: &[Row] = &[
    // a lemma twice, of which the second is equal only by its new numbers
    (
        "(x>=0 -> x>=0)&(x>=0 -> x>=0)",
        "1 start ==> (x>=0 -> x>=0)&(x>=0 -> x>=0)\n2 apply 1 1 andR(1)\n3 start ==> x>=0 -> x>=0\n4 apply 3 1 implyR(1)\n5 apply 4 1 close(1,1)\n6 start ==> x>=0 -> x>=0\n7 apply 6 1 implyR(1)\n8 apply 7 1 close(1,1)\n9 merge 2 1 5\n10 merge 9 1 8\ndone\n",
        0,
        "closed\nconclusion ==> (x>=0 -> x>=0)&(x>=0 -> x>=0)\ngoals 0\nleaves 0\nlines 7\n",
        "dlk 2\nnode 1 var x\nnode 2 num 0\nnode 3 ge 1 2\nnode 4 imply 3 3\nnode 5 and 4 4\n1 start ==> 5\n2 apply 1 1 andR(1)\n3 start ==> 4\n4 apply 3 1 implyR(1)\n5 apply 4 1 close(1,1)\n6 merge 2 1 5\n7 merge 6 1 5\ndone\n",
    ),
    // one line, and the same line twice
    (
        "x>=0",
        "1 start ==> x>=0\ndone\n",
        1,
        OPEN_REPORT,
        OPEN_BY_NODES,
    ),
    (
        "x>=0",
        "dlk 2\nnode 1 num 0\nnode 2 var x\nnode 3 ge 2 1\n1 start ==> 3\n2 start ==> 3\ndone\n",
        1,
        OPEN_REPORT,
        OPEN_BY_NODES,
    ),
    // a branch that nothing needs, and its leaf
    (
        "x>=0&x>=0",
        "1 start ==> x>=0&x>=0\n2 apply 1 1 andR(1)\n3 leaf ==> x>=0\n4 merge 2 1 3\n5 apply 2 2 hideR(1)\ndone\n",
        1,
        "open\nconclusion ==> x>=0&x>=0\ngoals 2\ngoal 1 ==> x>=0\ngoal 2 ==>\nleaves 0\nlines 3\n",
        "dlk 2\nnode 1 var x\nnode 2 num 0\nnode 3 ge 1 2\nnode 4 and 3 3\n1 start ==> 4\n2 apply 1 1 andR(1)\n3 apply 2 2 hideR(1)\ndone\n",
    ),
    // each line but for its number is the one before
    (
        "x>=0",
        "1 start ==> x>=0\n2 rename 1 x y\n3 rename 2 x y\n4 rename 3 x y\n5 rename 4 x y\ndone\n",
        1,
        "open\nconclusion ==> x>=0\ngoals 1\ngoal 1 ==> x>=0\nleaves 0\nlines 5\n",
        "dlk 2\nnode 1 var x\nnode 2 num 0\nnode 3 ge 1 2\n1 start ==> 3\n2 rename 1 x y\n3 rename 2 x y\n4 rename 3 x y\n5 rename 4 x y\ndone\n",
    ),
    // pairs in another order are another step
    (
        "(true -> [x:=1;]true)&(true -> [x:=1;]true)",
        "1 axiom V\n2 subst 1 a;~>x:=1;,p()~>true\n3 subst 1 p()~>true,a;~>x:=1;\n4 start ==> (true -> [x:=1;]true)&(true -> [x:=1;]true)\n5 apply 4 1 andR(1)\n6 merge 5 1 2\n7 merge 6 1 3\ndone\n",
        0,
        "closed\nconclusion ==> (true -> [x:=1;]true)&(true -> [x:=1;]true)\ngoals 0\nleaves 0\nlines 7\n",
        "dlk 2\n1 axiom V\nnode 1 num 1\nnode 2 assign x 1\nnode 3 true\n2 subst 1 a;~>2,p()~>3\n3 subst 1 p()~>3,a;~>2\nnode 4 box 2 3\nnode 5 imply 3 4\nnode 6 and 5 5\n4 start ==> 6\n5 apply 4 1 andR(1)\n6 merge 5 1 2\n7 merge 6 1 3\ndone\n",
    ),
    // in the same order they are not, nor an axiom twice
    (
        "(true -> [x:=1;]true)&(true -> [x:=1;]true)",
        "1 axiom V\n2 subst 1 a;~>x:=1;,p()~>true\n3 axiom V\n4 subst 3 a;~>x:=1;,p()~>true\n5 start ==> (true -> [x:=1;]true)&(true -> [x:=1;]true)\n6 apply 5 1 andR(1)\n7 merge 6 1 2\n8 merge 7 1 4\ndone\n",
        0,
        "closed\nconclusion ==> (true -> [x:=1;]true)&(true -> [x:=1;]true)\ngoals 0\nleaves 0\nlines 6\n",
        "dlk 2\n1 axiom V\nnode 1 num 1\nnode 2 assign x 1\nnode 3 true\n2 subst 1 a;~>2,p()~>3\nnode 4 box 2 3\nnode 5 imply 3 4\nnode 6 and 5 5\n3 start ==> 6\n4 apply 3 1 andR(1)\n5 merge 4 1 2\n6 merge 5 1 2\ndone\n",
    ),
];

#[test]
fn trims(rt: HostRuntime) -> Result<(), Fail> {
    let alloc = rt.alloc();
    for (model, term, status, printed, written) in ROWS {
        let texts = [model.as_bytes(), term.as_bytes()];
        writes(&rt, alloc, &TRIM, &texts, *status, printed, Some(*written))?;
        // `check` says the same of what is written, and there is nothing more to leave out
        let texts = [model.as_bytes(), written.as_bytes()];
        let check = ["check", "model", "term"];
        writes(&rt, alloc, &check, &texts, *status, printed, None)?;
        writes(&rt, alloc, &TRIM, &texts, *status, printed, Some(*written))?;
    }
    let texts = [INCREMENT_MODEL.as_bytes(), INCREMENT_TERM.as_bytes()];
    let written = Some(INCREMENT_BY_NODES);
    writes(&rt, alloc, &TRIM, &texts, 0, INCREMENT_REPORT, written)?;
    Ok(())
}

#[test]
fn refuses_terms(rt: HostRuntime) -> Result<(), Fail> {
    let alloc = rt.alloc();
    for (model, term, line) in &[
        ("x>=", "", "model at 3: syntax"),
        ("x>=0", "", "line 1: NoEnd"),
        // in a line that is not needed
        (
            "x>=0",
            "1 axiom boxb\n2 start ==> x>=0\ndone\n",
            "line 1: UnknownName",
        ),
        (
            "x>=1",
            "1 start ==> x>=1\n2 start ==> x>=0\ndone\n",
            "other-conclusion 2\nexpected ==> x>=1\nfound ==> x>=0",
        ),
    ] {
        let texts = [model.as_bytes(), term.as_bytes()];
        refuses(&rt, alloc, &TRIM, &texts, line)?;
    }
    Ok(())
}

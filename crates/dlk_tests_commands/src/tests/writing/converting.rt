// What `convert` writes.
use super::*;

/// The words of a conversion.
const CONVERT: [&str; 3] = ["convert", "term", "out"];

#[test]
fn writes_version_2(rt: HostRuntime) -> Result<(), Fail> {
    let alloc = rt.alloc();
    for (term, status, printed, written) in &[
        (TERM, 0, REPORT, TERM_BY_NODES),
        (TERM_BY_NODES, 0, REPORT, TERM_BY_NODES),
        (INCREMENT_TERM, 0, INCREMENT_REPORT, INCREMENT_BY_NODES),
        (INCREMENT_BY_NODES, 0, INCREMENT_REPORT, INCREMENT_BY_NODES),
        // another spelling, and no line feed at the end
        ("1 start ==> ((x>=00))\ndone", 1, OPEN_REPORT, OPEN_BY_NODES),
        // nodes in another order, one of them behind the step, and one that nothing names
        (
            "dlk 2\nnode 1 num 0\nnode 2 var x\nnode 3 var y\nnode 4 ge 2 1\n1 start ==> 4\nnode 5 true\ndone",
            1,
            OPEN_REPORT,
            OPEN_BY_NODES,
        ),
        // a conclusion that is no model's
        (
            "1 start x>=0, y>=1 ==> x>=0\ndone\n",
            1,
            "open\nconclusion x>=0, y>=1 ==> x>=0\ngoals 1\ngoal 1 x>=0, y>=1 ==> x>=0\nleaves 0\nlines 1\n",
            "dlk 2\nnode 1 var x\nnode 2 num 0\nnode 3 ge 1 2\nnode 4 var y\nnode 5 num 1\nnode 6 ge 4 5\n1 start 3 6 ==> 3\ndone\n",
        ),
    ] {
        let texts = [term.as_bytes()];
        writes(
            &rt,
            alloc,
            &CONVERT,
            &texts,
            *status,
            printed,
            Some(*written),
        )?;
    }
    Ok(())
}

#[test]
fn refuses_lines(rt: HostRuntime) -> Result<(), Fail> {
    let alloc = rt.alloc();
    for (term, line) in &[
        ("", "line 1: NoEnd"),
        ("done\n", "line 1: Malformed"),
        ("1 start ==> x>=0\n", "line 2: NoEnd"),
        ("2 start ==> x>=0\ndone\n", "line 1: WrongNumber"),
        (
            "1 start ==> x>=0\n2 apply 1 1 implyR(1)\ndone\n",
            "line 2: WrongShape",
        ),
        ("dlk 2", "line 2: NoEnd"),
        ("dlk 2\ndone\n", "line 2: Malformed"),
        ("dlk 2\nnode 1 true\ndone\n", "line 3: Malformed"),
        // other heads are lines of version 1
        ("dlk 2 \n1 start ==> x>=0\ndone\n", "line 1: Malformed"),
        ("dlk 2\r\n1 start ==> x>=0\ndone\n", "line 1: Malformed"),
        ("dlk 3\n1 start ==> x>=0\ndone\n", "line 1: Malformed"),
    ] {
        refuses(&rt, alloc, &CONVERT, &[term.as_bytes()], line)?;
    }
    Ok(())
}

/// What is converted of the term that `prove` writes is checked as that term is, and converted to itself.
#[test]
fn converts_what_is_proved(rt: HostRuntime) -> Result<(), Fail> {
    let alloc = rt.alloc();
    for (model, strategy) in &[
        (
            "(a>0 -> b>0)&(b>0 -> c>0) -> (a>0 -> c>0)",
            "implyR(1); implyR(1); andL(-1); implyL(-1); <(close, implyL(-3); close)",
        ),
        (
            "x>=0 -> \\forall x (x>=0 -> x>=0)",
            "implyR('R); boundR(z,1); skolemR(1); implyR(1); cut(\"z>=1\"); <(hideL(-3), coHideR(2)); nil",
        ),
        (
            "v>=0 & A>0 -> [{{a:=A;++a:=0;}{x'=v,v'=a&v>=0}}*@invariant(v>=0)]v>=0",
            "implyR(1); loop(\"v>=0\",1); <(leaf, useAt(composeb,1); useAt(choiceb,1); andR(1); useAt(assignb,1); dW(1); leaf, leaf)",
        ),
        ("(x^2+y)'>=0", "derive(1.0)"),
        ("[x:=*;]x>=0", "useAt(randomb,1); skolemR(1); leaf"),
    ] {
        let term = proof(alloc, model, strategy)?;
        let (status, report) = checked(alloc, model.as_bytes(), &term)?;
        let (_, reply) = replied(alloc, &CONVERT, &[&term])?;
        assert_eq!(&rt; reply.printed, report.printed, "{model}");
        let out = reply.written.unwrap_or(Vec::new(alloc));
        let (found, shown) = checked(alloc, model.as_bytes(), &out)?;
        assert_eq!(&rt; shown.printed, report.printed, "{model}");
        assert_eq!(&rt; found, status, "{model}");
        let (_, again) = replied(alloc, &CONVERT, &[&out])?;
        assert_eq!(&rt; again.written, Some(out), "{model}");
    }
    Ok(())
}

// Terms of version 2.
use super::*;

#[test]
fn checks_terms_by_nodes(rt: HostRuntime) -> Result<(), Fail> {
    let alloc = rt.alloc();
    for (model, term, status, printed) in &[
        ("x>=0 -> x>=0", TERM_BY_NODES, 0, REPORT),
        (INCREMENT_MODEL, INCREMENT_BY_NODES, 0, INCREMENT_REPORT),
        // without the last line feed, and with nodes that nothing names, one of them behind the last step
        (
            "x>=0",
            "dlk 2\nnode 1 true\nnode 2 var x\nnode 3 num 0\nnode 4 ge 2 3\n1 start ==> 4\nnode 5 hole\ndone",
            1,
            "open\nconclusion ==> x>=0\ngoals 1\ngoal 1 ==> x>=0\nleaves 0\nlines 1\n",
        ),
        // both sides, and none
        (
            "x>=0 -> x>=0",
            "dlk 2\nnode 1 var x\nnode 2 num 0\nnode 3 ge 1 2\n1 leaf 3 ==> 3\nnode 4 imply 3 3\n2 start ==> 4\n3 apply 2 1 implyR(1)\n4 merge 3 1 1\ndone\n",
            0,
            "closed\nconclusion ==> x>=0 -> x>=0\ngoals 0\nleaves 1\nleaf 1 x>=0 ==> x>=0\nlines 4\n",
        ),
        (
            "true",
            "dlk 2\n1 start ==>\ndone\n",
            2,
            "refused: other-conclusion 2\nexpected ==> true\nfound ==>\n",
        ),
        // the line of the last step is named, whatever nodes come behind it
        (
            "x>=1",
            "dlk 2\nnode 1 var x\nnode 2 num 0\nnode 3 ge 1 2\n1 start ==> 3\nnode 4 num 1\ndone\n",
            2,
            "refused: other-conclusion 5\nexpected ==> x>=1\nfound ==> x>=0\n",
        ),
        // each sort of symbol in pairs
        (
            "[{x'=x}]x>0 <-> \\exists y [{x'=x,y'=1*y+0}]x>0",
            "dlk 2\n1 axiom DG\n2 rename 1 y_ y\nnode 1 var x\nnode 2 true\nnode 3 system x' 1 2\nnode 4 num 0\nnode 5 gt 1 4\nnode 6 num 1\n3 subst 2 {c{|y|}}~>3,q(|y|)~>2,p(|y|)~>5,a(|y|)~>6,b(|y|)~>4\ndone\n",
            0,
            "closed\nconclusion ==> [{x'=x}]x>0 <-> \\exists y [{x'=x,y'=1*y+0}]x>0\ngoals 0\nleaves 0\nlines 3\n",
        ),
    ] {
        says(&rt, alloc, model, term, *status, printed)?;
    }
    Ok(())
}

/// `x>=0 -> x>=0` begun, and a node that is no formula.
const FRONT: &str = "dlk 2\nnode 1 var x\nnode 2 num 0\nnode 3 ge 1 2\nnode 4 imply 3 3\n";

#[test]
fn refuses_lines_by_nodes(rt: HostRuntime) -> Result<(), Fail> {
    let alloc = rt.alloc();
    for (lines, printed) in &[
        // a tree that is there, another number of a step and of a node, and no end
        ("node 5 ge 1 2\n1 start ==> 4\ndone\n", "line 6: Malformed"),
        ("3 start ==> 4\ndone\n", "line 6: WrongNumber"),
        ("node 6 true\ndone\n", "line 6: WrongNumber"),
        ("node 4 true\ndone\n", "line 6: WrongNumber"),
        (
            "1 start ==> 4\n2 apply 1 1 implyR(1)\n3 apply 2 1 close(1,1)\n",
            "line 9: NoEnd",
        ),
        ("", "line 6: NoEnd"),
        ("done\n", "line 6: Malformed"),
        (
            "1 start ==> 4\n2 apply 1 1 implyR(1)\n3 apply 2 1 close(1,1)\ndone\nx\n",
            "line 10: Malformed",
        ),
        ("1 start ==> 4\ndone\nnode 5 true\n", "line 8: Malformed"),
        ("1 start ==> 4\n\ndone\n", "line 7: Malformed"),
        // nodes that aren't there, and of another sort than is wanted
        ("1 start ==> 5\n", "line 6: Malformed"),
        ("1 start ==> 0\n", "line 6: Malformed"),
        ("1 start ==> 1\n", "line 6: Malformed"),
        ("node 5 not 6\n", "line 6: Malformed"),
        ("node 5 not 5\n", "line 6: Malformed"),
        ("node 5 not 1\n", "line 6: Malformed"),
        ("node 5 add 1 3\n", "line 6: Malformed"),
        ("node 5 and 3\n", "line 6: Malformed"),
        ("node 5 and 3 3 3\n", "line 6: Malformed"),
        // one spelling only
        ("node 05 true\n", "line 6: Malformed"),
        ("node  5 true\n", "line 6: Malformed"),
        ("node 5 true \n", "line 6: Malformed"),
        ("node 5 num 00\n", "line 6: Malformed"),
        ("node 5 num 1.0\n", "line 6: Malformed"),
        ("node 5 dot 8\n", "line 6: Malformed"),
        ("node 5 var true\n", "line 6: Malformed"),
        ("node 5 yes\n", "line 6: Malformed"),
        ("node\n", "line 6: Malformed"),
        ("1 start ==> 3, 4\n", "line 6: Malformed"),
        ("1 start  ==> 4\n", "line 6: Malformed"),
        ("1 start ==> x>=0\n", "line 6: Malformed"),
        ("1 start ==> 4\n2 apply 1 1 cut(4)\n", "line 7: Malformed"),
        ("1 start ==> 4\n2 apply 1 1 cut(#1)\n", "line 7: Malformed"),
        ("1 axiom V\n2 subst 1 p()~>3, a;~>4\n", "line 7: Malformed"),
        ("1 axiom V\n2 subst 1 a;~>4\n", "line 7: Malformed"),
        ("1 axiom V\n2 subst 1 term p()~>1\n", "line 7: Malformed"),
        // a system whose domain isn't `true` takes no place
        (
            "node 5 system x' 1 3\n1 axiom DW\n2 subst 1 {c}~>5\n",
            "line 8: Malformed",
        ),
        // steps that are none of the calculus
        (
            "node 5 dot 0\nnode 6 ge 5 2\n1 start ==> 6\n",
            "line 8: WrongShape",
        ),
        ("node 5 hole\n1 start ==> 5\n", "line 7: WrongShape"),
        ("1 start ==> 4\n2 apply 1 2 implyR(1)\n", "line 7: NoGoal"),
        ("1 start ==> 4\n2 apply 2 1 implyR(1)\n", "line 7: NoFact"),
        ("1 axiom boxb\n", "line 6: UnknownName"),
    ] {
        let term = joined(alloc, FRONT.as_bytes(), lines.as_bytes(), b"")?;
        let printed = format!(in alloc; "refused: {printed}\n")?;
        let model = b"x>=0 -> x>=0".as_slice();
        answers(&rt, alloc, model, &term, 2, printed.as_str())?;
    }
    Ok(())
}

#[test]
fn refuses_a_step_by_nodes(rt: HostRuntime) -> Result<(), Fail> {
    let alloc = rt.alloc();
    let term =
        "dlk 2\nnode 1 var x\nnode 2 num 0\nnode 3 ge 1 2\nnode 4 num 1\nnode 5 ge 1 4\nnode 6 imply 3 5\n1 start ==> 6\n2 apply 1 1 implyR(1)\n3 apply 2 1 close(1,1)\n4 apply 3 1 hideL(1)\nnonsense\ndone\n";
    let printed = "refused: line 10: NotEqual\n";
    says(&rt, alloc, "x>=0 -> x>=1", term, 2, printed)?;
    Ok(())
}

/// A conjunction of so many times `true` by its nodes, taken apart.
fn taken_apart(alloc: Global, count: u32) -> Result<Vec<u8>, AllocError> {
    let mut term = b"dlk 2\nnode 1 true\n".to_vec(alloc)?;
    for node in 1..count {
        let next = node.saturating_add(1);
        let line = format!(in alloc; "node {next} and 1 {node}\n")?;
        term.extend_from_slice(line.as_bytes())?;
    }
    let start = format!(in alloc; "1 start ==> {count}\n")?;
    term.extend_from_slice(start.as_bytes())?;
    for fact in 1..count {
        let next = fact.saturating_add(1);
        let line = format!(in alloc; "{next} apply {fact} {fact} andR(1)\n")?;
        term.extend_from_slice(line.as_bytes())?;
    }
    Ok(term)
}

#[test]
fn keeps_to_numbers_of_goals_by_nodes(rt: HostRuntime) -> Result<(), Fail> {
    let alloc = rt.alloc();
    let model = joined(alloc, b"true", &repeated(alloc, "&true", 255)?, b"")?;
    let term = joined(alloc, &taken_apart(alloc, 256)?, b"done\n", b"")?;
    let front = "open\nconclusion ==> true&";
    let back = "goal 256 ==> true\nleaves 0\nlines 256\n";
    answers_between(&rt, alloc, &model, &term, 1, front, back)?;
    let more = taken_apart(alloc, 257)?;
    let printed = "refused: line 515: GoalsFull\n";
    answers(&rt, alloc, &model, &more, 2, printed)?;
    Ok(())
}

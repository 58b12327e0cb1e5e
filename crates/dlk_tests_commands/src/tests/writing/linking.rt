// What `link` writes.
use super::*;

/// The words of a link.
const LINK: [&str; 5] = ["link", "model", "term", "lemma", "out"];

/// A term of a goal twice, and what is proved so.
const TWICE_MODEL: &str = "(x>=0 -> x>=0)&(x>=0 -> x>=0)";

const TWICE: &str = "1 start ==> (x>=0 -> x>=0)&(x>=0 -> x>=0)\n2 apply 1 1 andR(1)\ndone\n";

/// A term of two goals.
const BOTH_MODEL: &str = "x>=0&y>=0";

const BOTH: &str = "1 start ==> x>=0&y>=0\n2 apply 1 1 andR(1)\ndone\n";

/// A term and a lemma, what is printed, the status, and what is written.
type Row = (
    &'static str,
    &'static str,
    &'static str,
    u8,
    &'static str,
    &'static str,
);

const ROWS: &[Row] = &[
    // both goals are the lemma's conclusion
    (
        TWICE_MODEL,
        TWICE,
        TERM,
        0,
        "closed\nconclusion ==> (x>=0 -> x>=0)&(x>=0 -> x>=0)\ngoals 0\nleaves 0\nlines 7\n",
        "dlk 2\nnode 1 var x\nnode 2 num 0\nnode 3 ge 1 2\nnode 4 imply 3 3\nnode 5 and 4 4\n1 start ==> 5\n2 apply 1 1 andR(1)\n3 start ==> 4\n4 apply 3 1 implyR(1)\n5 apply 4 1 close(1,1)\n6 merge 2 2 5\n7 merge 6 1 5\ndone\n",
    ),
    // one is, by a lemma of version 2, with a leaf
    (
        BOTH_MODEL,
        BOTH,
        "dlk 2\nnode 1 num 0\nnode 2 var y\nnode 3 ge 2 1\n1 leaf ==> 3\ndone\n",
        1,
        "open\nconclusion ==> x>=0&y>=0\ngoals 1\ngoal 1 ==> x>=0\nleaves 1\nleaf 1 ==> y>=0\nlines 4\n",
        "dlk 2\nnode 1 var x\nnode 2 num 0\nnode 3 ge 1 2\nnode 4 var y\nnode 5 ge 4 2\nnode 6 and 3 5\n1 start ==> 6\n2 apply 1 1 andR(1)\n3 leaf ==> 5\n4 merge 2 2 3\ndone\n",
    ),
    // a leaf twice is one leaf, and a number is the same in another spelling
    (
        "x>=1&x>=1",
        "1 start ==> x>=1&x>=1.0\n2 apply 1 1 andR(1)\ndone\n",
        "1 leaf ==> x>=01\ndone\n",
        0,
        "closed\nconclusion ==> x>=1&x>=1\ngoals 0\nleaves 1\nleaf 1 ==> x>=1\nlines 5\n",
        "dlk 2\nnode 1 var x\nnode 2 num 1\nnode 3 ge 1 2\nnode 4 and 3 3\n1 start ==> 4\n2 apply 1 1 andR(1)\n3 leaf ==> 3\n4 merge 2 2 3\n5 merge 4 1 3\ndone\n",
    ),
    // a lemma with goals, which come in the place of the goal
    (
        BOTH_MODEL,
        BOTH,
        "1 start ==> x>=0\n2 apply 1 1 cut(z>=0)\ndone\n",
        1,
        "open\nconclusion ==> x>=0&y>=0\ngoals 3\ngoal 1 z>=0 ==> x>=0\ngoal 2 ==> x>=0, z>=0\ngoal 3 ==> y>=0\nleaves 0\nlines 5\n",
        "dlk 2\nnode 1 var x\nnode 2 num 0\nnode 3 ge 1 2\nnode 4 var y\nnode 5 ge 4 2\nnode 6 and 3 5\n1 start ==> 6\n2 apply 1 1 andR(1)\n3 start ==> 3\nnode 7 var z\nnode 8 ge 7 2\n4 apply 3 1 cut(#8)\n5 merge 2 1 4\ndone\n",
    ),
    // a term as its own lemma, whose conclusion is a goal of it
    (
        "x>=0",
        "1 start ==> x>=0\ndone\n",
        "1 start ==> x>=0\ndone\n",
        1,
        "open\nconclusion ==> x>=0\ngoals 1\ngoal 1 ==> x>=0\nleaves 0\nlines 3\n",
        "dlk 2\nnode 1 var x\nnode 2 num 0\nnode 3 ge 1 2\n1 start ==> 3\n2 start ==> 3\n3 merge 1 1 2\ndone\n",
    ),
];

#[test]
fn links(rt: HostRuntime) -> Result<(), Fail> {
    let alloc = rt.alloc();
    for (model, term, lemma, status, printed, written) in ROWS {
        let texts = [model.as_bytes(), term.as_bytes(), lemma.as_bytes()];
        writes(&rt, alloc, &LINK, &texts, *status, printed, Some(*written))?;
        // `check` says the same of what is written
        let check = ["check", "model", "term"];
        let texts = [model.as_bytes(), written.as_bytes()];
        writes(&rt, alloc, &check, &texts, *status, printed, None)?;
    }
    Ok(())
}

#[test]
fn refuses_links(rt: HostRuntime) -> Result<(), Fail> {
    let alloc = rt.alloc();
    for (model, term, lemma, line) in &[
        (TWICE_MODEL, TWICE, "1 start ==> x>=1\ndone\n", "no-goal"),
        // nothing is left to be proved
        ("x>=0 -> x>=0", TERM, TERM, "no-goal"),
        // the model before the term, the term before the lemma
        ("x>=", "", "", "model at 3: syntax"),
        ("x>=0", "", "", "line 1: NoEnd"),
        ("x>=0", "1 start ==> x>=0\n", "", "line 2: NoEnd"),
        (
            "x>=1",
            "1 start ==> x>=0\ndone\n",
            "",
            "other-conclusion 1\nexpected ==> x>=1\nfound ==> x>=0",
        ),
        (TWICE_MODEL, TWICE, "", "lemma line 1: NoEnd"),
        (TWICE_MODEL, TWICE, "x\n", "lemma line 1: Malformed"),
        (
            TWICE_MODEL,
            TWICE,
            "1 start ==> x>=0\n2 apply 1 1 close(1,1)\ndone\n",
            "lemma line 2: NoPlace",
        ),
        (
            TWICE_MODEL,
            TWICE,
            "dlk 2\nnode 1 var x\nnode 2 var x\n",
            "lemma line 3: Malformed",
        ),
    ] {
        let texts = [model.as_bytes(), term.as_bytes(), lemma.as_bytes()];
        refuses(&rt, alloc, &LINK, &texts, line)?;
    }
    Ok(())
}

/// A conjunction of 256 times `true` taken apart, and a lemma of `true` with two goals.
#[test]
fn keeps_to_numbers_of_goals(rt: HostRuntime) -> Result<(), Fail> {
    let alloc = rt.alloc();
    let model = joined(alloc, b"true", &repeated(alloc, "&true", 255)?, b"")?;
    let mut term = joined(alloc, b"1 start ==> ", &model, b"\n")?;
    for fact in 1..256_u32 {
        let number = fact + 1;
        let line = format!(in alloc; "{number} apply {fact} {fact} andR(1)\n")?;
        term.extend_from_slice(line.as_bytes())?;
    }
    term.extend_from_slice(b"done\n")?;
    let two = b"1 start ==> true\n2 apply 1 1 cut(true)\ndone\n".as_slice();
    let texts = [model.as_slice(), term.as_slice(), two];
    refuses(&rt, alloc, &LINK, &texts, "link: GoalsFull")?;
    let one = b"1 start ==> true\n2 apply 1 1 closeTrue(1)\ndone\n".as_slice();
    let texts = [model.as_slice(), term.as_slice(), one];
    let (status, _) = replied(alloc, &LINK, &texts)?;
    assert_eq!(&rt; status, 0);
    Ok(())
}

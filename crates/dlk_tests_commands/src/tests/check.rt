// What `check`, `report`, `smt` and `guard` answer to models and terms.
mod cuts;
mod exporting;
mod guarding;
mod limits;
mod models;
mod orders;
mod terms;
mod versions;

use super::answers::{
    INCREMENT_BY_NODES, INCREMENT_MODEL, INCREMENT_REPORT, INCREMENT_TERM, REPORT, TERM,
    TERM_BY_NODES, checked, joined, padded, proof, repeated, replied, words_of,
};
use dlk_replies::{Form, LastWord, NoReply, Role};
use std::alloc::{AllocError, Global};
use std::process::Abort;
use std::test::Fail;

/// A command on a model and a term prints these bytes, with this status. What is said where it doesn't names the row.
fn prints(
    rt: &impl Abort,
    alloc: Global,
    words: &[&str],
    texts: &[&[u8]],
    status: u8,
    printed: &[u8],
    row: &str,
) -> Result<(), NoReply> {
    let (found, reply) = replied(alloc, words, texts)?;
    assert_eq!(rt; reply.printed.as_slice(), printed, "{row}");
    assert_eq!(rt; found, status, "{row}");
    Ok(())
}

/// `check` prints this of the bytes of a model and of a term.
fn answers(
    rt: &impl Abort,
    alloc: Global,
    model: &[u8],
    term: &[u8],
    status: u8,
    printed: &str,
) -> Result<(), NoReply> {
    let words = ["check", "model", "term"];
    let (texts, bytes) = ([model, term], printed.as_bytes());
    prints(rt, alloc, &words, &texts, status, bytes, printed)
}

/// `check` prints this of a model and a term.
fn says(
    rt: &impl Abort,
    alloc: Global,
    model: &str,
    term: &str,
    status: u8,
    printed: &str,
) -> Result<(), NoReply> {
    let texts = [model.as_bytes(), term.as_bytes()];
    let words = ["check", "model", "term"];
    prints(rt, alloc, &words, &texts, status, printed.as_bytes(), term)
}

/// What `check` prints of a model and a term begins and ends with these texts.
fn answers_between(
    rt: &impl Abort,
    alloc: Global,
    model: &[u8],
    term: &[u8],
    status: u8,
    front: &str,
    back: &str,
) -> Result<(), NoReply> {
    let (found, reply) = checked(alloc, model, term)?;
    let printed = reply.printed.as_slice();
    assert_eq!(rt; found, status, "{front}");
    assert!(rt; printed.starts_with(front.as_bytes()), "{front}");
    assert!(rt; printed.ends_with(back.as_bytes()), "{back}");
    Ok(())
}

#[test]
fn accepts_and_refuses_terms(rt: HostRuntime) -> Result<(), Fail> {
    let alloc = rt.alloc();
    for (model, term, status, printed) in &[
        (
            "x>=0 -> x>=0",
            TERM,
            0,
            "closed\nconclusion ==> x>=0 -> x>=0\ngoals 0\nleaves 0\nlines 3\n",
        ),
        // without the last line feed, and with another spelling of the model
        (
            "((x>=00)) ->\tx>=0\r\n",
            "1 start ==> x>=0 -> x>=0\n2 apply 1 1 implyR(1)\n3 apply 2 1 close(1,1)\ndone",
            0,
            "closed\nconclusion ==> x>=0 -> x>=0\ngoals 0\nleaves 0\nlines 3\n",
        ),
        (
            "x>=0 -> x>=1",
            "1 start ==> x>=0 -> x>=1\n2 apply 1 1 implyR(1)\ndone\n",
            1,
            "open\nconclusion ==> x>=0 -> x>=1\ngoals 1\ngoal 1 x>=0 ==> x>=1\nleaves 0\nlines 2\n",
        ),
        (
            "(x>=0 -> y>=0) -> z>=0",
            "1 start ==> (x>=0->y>=0)->z>=0\ndone\n",
            1,
            "open\nconclusion ==> (x>=0 -> y>=0) -> z>=0\ngoals 1\ngoal 1 ==> (x>=0 -> y>=0) -> z>=0\nleaves 0\nlines 1\n",
        ),
        // the first wrong line, though later ones are wrong too
        (
            "x>=0 -> x>=1",
            "1 start ==> x>=0 -> x>=1\n2 apply 1 1 implyR(1)\n3 apply 2 1 close(1,1)\n4 apply 3 1 hideL(1)\nnonsense\ndone\n",
            2,
            "refused: line 3: NotEqual\n",
        ),
        (
            "x>=0 -> x>=0",
            "1 start ==> x>=0 -> x>=0\n2 apply 1 1 implyR(1)\n3 apply 2 1 close(1,1)\n",
            2,
            "refused: line 4: NoEnd\n",
        ),
        ("x>=0", "", 2, "refused: line 1: NoEnd\n"),
        ("x>=0", "\n", 2, "refused: line 1: Malformed\n"),
        ("x>=0", "done\n", 2, "refused: line 1: Malformed\n"),
        (
            "x>=0",
            "1 start ==> x>=0\ndone\nx\n",
            2,
            "refused: line 3: Malformed\n",
        ),
        (
            "x>=0 -> x>=0",
            "1 start ==> x>=0 -> x>=0\n2 apply 1 1 implyR(1)\n3 apply 2 1 close(1,1)\ndone\nx\n",
            2,
            "refused: line 5: Malformed\n",
        ),
        (
            "x>=0",
            "1 start ==> x>=0\ndone\n\n",
            2,
            "refused: line 3: Malformed\n",
        ),
        (
            "x>=0 -> x>=0",
            "1 start ==> x>=0 -> x>=0\n2 apply 1 1 implyR(1)\n4 apply 2 1 close(1,1)\ndone\n",
            2,
            "refused: line 3: WrongNumber\n",
        ),
        (
            "x>=0",
            "1 start ==> x>=0\n2 apply 2 1 implyR(1)\ndone\n",
            2,
            "refused: line 2: NoFact\n",
        ),
        (
            "x>=0",
            "1 start ==> x>=0\n2 apply 1 2 implyR(1)\ndone\n",
            2,
            "refused: line 2: NoGoal\n",
        ),
        (
            "x>=0",
            "1 start ==> x>=0\n2 apply 1 1 implyR(2)\ndone\n",
            2,
            "refused: line 2: NoPlace\n",
        ),
        (
            "x>=0",
            "1 start ==> x>=0\n2 apply 1 1 implyR(1)\ndone\n",
            2,
            "refused: line 2: WrongShape\n",
        ),
        (
            "x>=0",
            "01 start ==> x>=0\ndone\n",
            2,
            "refused: line 1: Malformed\n",
        ),
        (
            "x>=0",
            "1 start x>=0\ndone\n",
            2,
            "refused: line 1: Malformed\n",
        ),
        // the sequents of lines have the whole syntax, without dots and holes
        (
            "[x:=1;]x>0 & true",
            "1 start /* all */ ==> ([x:=1;](x>00))&(true)\ndone\n",
            1,
            "open\nconclusion ==> [x:=1;]x>0&true\ngoals 1\ngoal 1 ==> [x:=1;]x>0&true\nleaves 0\nlines 1\n",
        ),
        (
            "x>=0",
            "1 start ==> ._0>=0\ndone\n",
            2,
            "refused: line 1: Malformed\n",
        ),
        (
            "x>=0",
            "1 start ==> [{x'=1,x'=2}]x>=0\ndone\n",
            2,
            "refused: line 1: Malformed\n",
        ),
        (
            "x>=1",
            "1 start ==> x>=0\ndone\n",
            2,
            "refused: other-conclusion 1\nexpected ==> x>=1\nfound ==> x>=0\n",
        ),
        (
            "x>=0",
            "1 start x>=0, y>=1 ==> x>=0\ndone\n",
            2,
            "refused: other-conclusion 1\nexpected ==> x>=0\nfound x>=0, y>=1 ==> x>=0\n",
        ),
    ] {
        says(&rt, alloc, model, term, *status, printed)?;
    }
    Ok(())
}

/// What stands behind an input, words, and whether they have the form.
const FORMS: &[(LastWord, &[&str], bool)] = &[
    (LastWord::Output, &["v", "in", "out"], true),
    (LastWord::Output, &["v", "in"], false),
    (LastWord::Output, &["v", "in", "out", "more"], false),
    (LastWord::Output, &["w", "in", "out"], false),
    (LastWord::Number, &["v", "in", "1"], true),
    (LastWord::Number, &["v", "in", "99"], true),
    (LastWord::Number, &["v", "in", "500"], true),
    (LastWord::Number, &["v", "in", "0"], false),
    (LastWord::Number, &["v", "in", "01"], false),
    (LastWord::Number, &["v", "in", "501"], false),
    (LastWord::Number, &["v", "in", "1000"], false),
];

/// Words of a form that no command has yet: an input, and then an output or a number.
#[test]
fn knows_forms(rt: HostRuntime) -> Result<(), Fail> {
    let alloc = rt.alloc();
    for (last, words, fits) in FORMS {
        let form = Form {
            verb: "v",
            inputs: &[Role::File],
            last: Some(*last),
        };
        let words = words_of(alloc, words)?;
        assert_eq!(rt; form.fits(&words), *fits);
    }
    Ok(())
}

// What `session` prints and writes.
use super::*;

/// The words of a session.
const SESSION: [&str; 4] = ["session", "model", "script", "term"];

const MODEL: &str = "x>=0 -> x>=0";

/// What is written where the start alone is saved.
const START: &str =
    "dlk 2\nnode 1 var x\nnode 2 num 0\nnode 3 ge 1 2\nnode 4 imply 3 3\n1 start ==> 4\ndone\n";

/// A model and a script, the status, what is printed, and what is written.
type Row = (
    &'static str,
    &'static str,
    u8,
    &'static str,
    Option<&'static str>,
);

const ROWS: &[Row] = &[
    (
        MODEL,
        "apply 1 implyR(1)\napply 1 andR(1)\napply 2 nil\napply 1 close\nundo\napply 1 close\nsave\n",
        0,
        "ok goals 1\nfails at 0: WrongShape\nno-goal\nok goals 0\nok goals 1\nok goals 0\nsaved 3\n",
        Some(TERM_BY_NODES),
    ),
    (
        "x>=0",
        "undo\nshow\n",
        1,
        "nothing\nopen\nconclusion ==> x>=0\ngoals 1\ngoal 1 ==> x>=0\nleaves 0\nlines 1\n",
        None,
    ),
    // no lines, and no line feed at the end
    (MODEL, "", 1, "", None),
    (MODEL, "undo", 1, "nothing\n", None),
    // the strategy is all that stands behind the space
    (
        MODEL,
        "apply 1  nil\napply 1 nil\r\napply 1 /* by hand */ implyR(1) ; close\n",
        0,
        "ok goals 1\nok goals 1\nok goals 0\n",
        None,
    ),
    // each run that is done is undone by itself, also one without steps
    (
        MODEL,
        "apply 1 nil\napply 1 implyR(1)\nundo\nundo\nundo\n",
        1,
        "ok goals 1\nok goals 1\nok goals 1\nok goals 1\nnothing\n",
        None,
    ),
    // what is saved stays so, whatever comes behind it
    (
        MODEL,
        "save\napply 1 implyR(1)\napply 1 close\nshow\n",
        0,
        "saved 1\nok goals 1\nok goals 0\nclosed\nconclusion ==> x>=0 -> x>=0\ngoals 0\nleaves 0\nlines 3\n",
        Some(START),
    ),
    (
        MODEL,
        "apply 1 implyR(1);close\nsave\nundo\nshow\n",
        1,
        "ok goals 0\nsaved 3\nok goals 1\nopen\nconclusion ==> x>=0 -> x>=0\ngoals 1\ngoal 1 ==> x>=0 -> x>=0\nleaves 0\nlines 1\n",
        Some(TERM_BY_NODES),
    ),
    // the last that is saved is written
    (
        MODEL,
        "apply 1 implyR(1);close\nsave\nundo\nsave\n",
        1,
        "ok goals 0\nsaved 3\nok goals 1\nsaved 1\n",
        Some(START),
    ),
    // a goal that isn't the first
    (
        "x>=0&y>=0",
        "apply 1 andR(1)\napply 2 leaf\napply 2 leaf\napply 1 leaf\n",
        0,
        "ok goals 2\nok goals 1\nno-goal\nok goals 0\n",
        None,
    ),
    // runs are not given back, neither those of what fails nor those that are undone
    (
        MODEL,
        "apply 1 ((nil*1000)*15)\nundo\napply 1 (nil*999);implyR(2)\napply 1 nil\napply 1 notL('L)\n",
        1,
        "ok goals 1\nok goals 1\nfails at 10: NoPlace\nbudget at 0\nfails at 0: NoPlace\n",
        None,
    ),
    (
        MODEL,
        "apply 1 ((nil*1000)*1000)*1000\napply 1 nil\napply 1 notL('L)\nshow\n",
        1,
        "budget at 2\nbudget at 0\nfails at 0: NoPlace\nopen\nconclusion ==> x>=0 -> x>=0\ngoals 1\ngoal 1 ==> x>=0 -> x>=0\nleaves 0\nlines 1\n",
        None,
    ),
];

#[test]
fn answers_scripts(rt: HostRuntime) -> Result<(), Fail> {
    let alloc = rt.alloc();
    for (model, script, status, printed, written) in ROWS {
        let texts = [model.as_bytes(), script.as_bytes()];
        writes(&rt, alloc, &SESSION, &texts, *status, printed, *written)?;
    }
    Ok(())
}

#[test]
fn refuses_scripts(rt: HostRuntime) -> Result<(), Fail> {
    let alloc = rt.alloc();
    for (script, line) in &[
        ("aply 1 nil\n", 1),
        ("\n", 1),
        ("undo\n\n", 2),
        ("undo \n", 1),
        ("undo\r\n", 1),
        (" undo\n", 1),
        ("Undo\n", 1),
        ("show 1\n", 1),
        ("apply\n", 1),
        ("apply 1\n", 1),
        ("apply 1 \n", 1),
        ("apply  1 nil\n", 1),
        ("apply 0 nil\n", 1),
        ("apply 01 nil\n", 1),
        ("apply 1234567890 nil\n", 1),
        ("apply -1 nil\n", 1),
        // a strategy that is refused, behind lines that are none
        ("apply 1 foo(1)\n", 1),
        ("save\napply 1 nil*1001\n", 2),
        ("undo\nsave\napply 1 implyR(x)\nshow", 3),
    ] {
        let why = format!(in alloc; "script line {line}")?;
        let texts = [MODEL.as_bytes(), script.as_bytes()];
        refuses(&rt, alloc, &SESSION, &texts, why.as_str())?;
    }
    let texts = [b"x>=".as_slice(), b"aply 1 nil".as_slice()];
    refuses(&rt, alloc, &SESSION, &texts, "model at 3: syntax")?;
    Ok(())
}

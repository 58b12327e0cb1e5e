// The limits of steps and of files, and reports as JSON.
ghost use Rattle.std.specs.Prelude.{◌≡◌, ◌<◌, []};

use super::*;
use dlk_kernel::{Kernel, Reason};
use dlk_replay::{LineWhy, ReplayFault, replay};
use dlk_shared::SharedStore;
use dlk_store::{Steps, Store};
use std::marker::Brand;
use std::sync::ledger::{Blank, Ledger};

/// A term under way: its lines, how many they are, and the number of the fact that the next step is on.
#[derive(Drop)]
pub(super) struct Draft {
    pub term: Vec<u8>,
    pub lines: usize,
    pub fact: usize,
}

impl Draft {
    /// One more line, with this step.
    pub fn step(&mut self, alloc: Global, step: &str) -> Result<(), AllocError> {
        self.lines = self.lines.saturating_add(1);
        let number = self.lines;
        let line = format!(in alloc; "{number} {step}\n")?;
        self.term.extend_from_slice(line.as_bytes())
    }

    /// One more line: a rule on a goal of the fact, which gives the next one.
    pub fn rule(&mut self, alloc: Global, goal: usize, rule: &str) -> Result<(), AllocError> {
        let fact = self.fact;
        let step = format!(in alloc; "apply {fact} {goal} {rule}")?;
        self.step(alloc, step.as_str())?;
        self.fact = self.lines;
        Ok(())
    }

    /// A conjunction of so many times `true` behind this left side, taken apart: so many goals.
    pub fn take_apart(
        &mut self,
        alloc: Global,
        left: &str,
        count: usize,
    ) -> Result<(), AllocError> {
        let right = trues(alloc, "&", count)?;
        let start = format!(in alloc; "start {left} ==> {right}")?;
        self.step(alloc, start.as_str())?;
        self.fact = self.lines;
        self.split(alloc, count)
    }

    /// The first goal, such a conjunction, taken apart.
    pub fn split(&mut self, alloc: Global, count: usize) -> Result<(), AllocError> {
        for goal in 1..count {
            self.rule(alloc, goal, "andR(1)")?;
        }
        Ok(())
    }
}

/// So many times `true`, with this between.
pub(super) fn trues(alloc: Global, between: &str, count: usize) -> Result<String, AllocError> {
    let mut text = String::from_str(alloc, "true")?;
    for _ in 1..count {
        text.push_str(between)?;
        text.push_str("true")?;
    }
    Ok(text)
}

/// A term without lines.
pub(super) fn empty(alloc: Global) -> Draft {
    Draft {
        term: Vec::new(alloc),
        lines: 0,
        fact: 0,
    }
}

/// A conjunction of so many times `true` taken apart, without the end of the term.
fn taken_apart(alloc: Global, count: usize) -> Result<Vec<u8>, AllocError> {
    let mut draft = empty(alloc);
    draft.take_apart(alloc, "", count)?;
    Ok(draft.term)
}

/// A fact with one goal more than this many cuts, in the place of a goal of another with 129.
fn merged(alloc: Global, cuts: usize) -> Result<Vec<u8>, AllocError> {
    let mut draft = empty(alloc);
    draft.take_apart(alloc, "", 129)?;
    draft.step(alloc, "start ==> true")?;
    draft.fact = draft.lines;
    for _ in 0..cuts {
        draft.rule(alloc, 1, "cut(true)")?;
    }
    let by = draft.fact;
    let merge = format!(in alloc; "merge 129 1 {by}")?;
    draft.step(alloc, merge.as_str())?;
    Ok(draft.term)
}

#[test]
fn keeps_to_numbers_of_goals(rt: HostRuntime) -> Result<(), Fail> {
    let alloc = rt.alloc();
    let model = joined(alloc, b"true", &repeated(alloc, "&true", 255)?, b"")?;
    let term = joined(alloc, &taken_apart(alloc, 256)?, b"done\n", b"")?;
    let front = "open\nconclusion ==> true&";
    let back = "goal 256 ==> true\nleaves 0\nlines 256\n";
    answers_between(&rt, alloc, &model, &term, 1, front, back)?;
    let more = taken_apart(alloc, 257)?;
    answers(
        &rt,
        alloc,
        &model,
        &more,
        2,
        "refused: line 257: GoalsFull\n",
    )?;
    for (cuts, printed) in [
        (127, "refused: line 259: NoEnd\n"),
        (128, "refused: line 259: GoalsFull\n"),
    ] {
        answers(&rt, alloc, &model, &merged(alloc, cuts)?, 2, printed)?;
    }
    Ok(())
}

#[test]
fn keeps_to_numbers_of_formulas(rt: HostRuntime) -> Result<(), Fail> {
    let alloc = rt.alloc();
    for (word, count, printed) in [
        ("start", 256, "refused: other-conclusion 1\n"),
        ("start", 257, "refused: line 1: SideFull\n"),
        ("leaf", 256, "refused: other-conclusion 1\n"),
        ("leaf", 257, "refused: line 1: SideFull\n"),
    ] {
        let left = repeated(alloc, ",true", count)?;
        let front = format!(in alloc; "1 {word} ")?;
        let term = joined(
            alloc,
            front.as_bytes(),
            left.get(1..).unwrap_or(&[]),
            b" ==>\ndone\n",
        )?;
        answers_between(&rt, alloc, b"true", &term, 2, printed, "")?;
    }
    for (count, printed) in [
        (254, "refused: line 3: NoEnd\n"),
        (255, "refused: line 2: SideFull\n"),
    ] {
        let right = repeated(alloc, ",true", count)?;
        let front = b"1 start ==> true".as_slice();
        let term = joined(alloc, front, &right, b"\n2 apply 1 1 cut(true)\n")?;
        answers(&rt, alloc, b"true", &term, 2, printed)?;
    }
    Ok(())
}

#[test]
fn keeps_to_sizes_of_formulas(rt: HostRuntime) -> Result<(), Fail> {
    let alloc = rt.alloc();
    let mut term = b"1 axiom eqrefl\n".to_vec(alloc)?;
    for fact in 1..20_u32 {
        let number = fact + 1;
        let step = format!(in alloc; "{number} subst {fact} f()~>f()+f()\n")?;
        term.extend_from_slice(step.as_bytes())?;
    }
    term.extend_from_slice(b"done\n")?;
    answers(&rt, alloc, b"true", &term, 2, "refused: line 16: TooBig\n")?;
    for (count, printed) in [
        (998, "refused: line 3: NoEnd\n"),
        (999, "refused: line 2: TooDeep\n"),
    ] {
        let negated = repeated(alloc, "!", count)?;
        let front = b"1 start ==> true\n2 apply 1 1 cutR(1,".as_slice();
        let term = joined(alloc, front, &negated, b"true)\n")?;
        answers(&rt, alloc, b"true", &term, 2, printed)?;
    }
    Ok(())
}

/// Of a term whose line is refused because there would be too many leaves: the line, the rows, and the leaves of the fact
/// before the last.
fn leaves_full<L: Ledger>(alloc: Global, term: &[u8], blank: Blank) -> Option<[usize; 3]>
    requires name { blank.name ≡ L.name }
    requires parts { blank.parts ≡ L.parts }
    requires some { 0 < blank.parts }
{
    let mut kernel = Kernel::new(alloc, SharedStore::new(alloc));
    leaves_full_on(alloc, &mut kernel, term, &mut Steps::<L>::new(blank))
}

/// The same on a kernel.
fn leaves_full_on<S: Store, L: Ledger>(
    alloc: Global,
    kernel: &mut Kernel<S>,
    term: &[u8],
    steps: &mut Steps<L>,
) -> Option<[usize; 3]>
    requires { kernel.old.rows ≡ [] }
{
    let Err(
        ReplayFault::Bad {
            line,
            why: LineWhy::Step(Reason::LeavesFull),
        },
    ) = replay(alloc, term, kernel, steps)
    else {
        return None;
    };
    let rows = kernel.rows();
    if rows < 2 {
        return None;
    }
    Some([line, rows as usize, kernel.leaves(rows - 1).len()])
}

/// 1,025 conjuncts in 41 groups of 25, taken apart with a leaf for each.
fn many_leaves(alloc: Global) -> Result<Vec<u8>, AllocError> {
    let mut start = String::from_str(alloc, "start ==> ")?;
    for number in 0..1025_u32 {
        let front = if number == 0 {
            "("
        } else if number % 25 == 0 {
            ")&("
        } else {
            "&"
        };
        let conjunct = format!(in alloc; "{front}x>={number}")?;
        start.push_str(conjunct.as_str())?;
    }
    start.push(')')?;
    let mut leaves = empty(alloc);
    leaves.step(alloc, start.as_str())?;
    leaves.fact = 1;
    for number in 0..1025_u32 {
        if number % 25 == 0 && number < 1000 {
            leaves.rule(alloc, 1, "andR(1)")?;
        }
        if number % 25 < 24 {
            leaves.rule(alloc, 1, "andR(1)")?;
        }
        let leaf = format!(in alloc; "leaf ==> x>={number}")?;
        leaves.step(alloc, leaf.as_str())?;
        let fact = leaves.fact;
        let last = leaves.lines;
        let merge = format!(in alloc; "merge {fact} 1 {last}")?;
        leaves.step(alloc, merge.as_str())?;
        leaves.fact = leaves.lines;
    }
    Ok(leaves.term)
}

#[test]
fn keeps_to_numbers_of_leaves(rt: HostRuntime) -> Result<(), Fail> {
    let alloc = rt.alloc();
    let term = many_leaves(alloc)?;
    let found = leaves_full::<Brand>(alloc, &term, Blank::new(1));
    assert_eq!(rt; found, Some([3075, 3074, 1024]));
    Ok(())
}

#[test]
fn keeps_to_numbers_of_lines(rt: HostRuntime) -> Result<(), Fail> {
    let alloc = rt.alloc();
    let mut term = Vec::new(alloc);
    for number in 1..400_001_u32 {
        let line = format!(in alloc; "{number} axiom eqrefl\n")?;
        term.extend_from_slice(line.as_bytes())?;
    }
    // an unknown name comes before the number of lines
    for (name, reason) in [("eqrefl", "LinesFull"), ("boxb", "UnknownName")] {
        let last = format!(in alloc; "400001 axiom {name}\ndone\n")?;
        let term = joined(alloc, &term, last.as_bytes(), b"")?;
        let printed = format!(in alloc; "refused: line 400001: {reason}\n")?;
        answers(&rt, alloc, b"true", &term, 2, printed.as_str())?;
    }
    Ok(())
}

#[test]
fn reports_as_json(rt: HostRuntime) -> Result<(), Fail> {
    let alloc = rt.alloc();
    for (model, term, status, printed) in &[
        (
            "x>=0 -> x>=0",
            TERM,
            0,
            "{\"conclusion\":\"==> x>=0 -> x>=0\",\"goals\":[],\"leaves\":[],\"lines\":3,\"status\":\"closed\"}\n",
        ),
        (
            "\\forall x x>=0&y>=1",
            "1 start ==> \\forall x x>=0&y>=1\n2 apply 1 1 andR(1)\n3 apply 2 1 skolemR(1)\ndone\n",
            1,
            "{\"conclusion\":\"==> \\\\forall x x>=0&y>=1\",\"goals\":[\"==> x>=0\",\"==> y>=1\"],\"leaves\":[],\"lines\":3,\"status\":\"open\"}\n",
        ),
        (
            "x>=0",
            "1 leaf ==> x>=0\ndone\n",
            0,
            "{\"conclusion\":\"==> x>=0\",\"goals\":[],\"leaves\":[\"==> x>=0\"],\"lines\":1,\"status\":\"closed\"}\n",
        ),
        (
            "x>=1",
            "1 start ==> x>=0\ndone\n",
            2,
            "refused: other-conclusion 1\nexpected ==> x>=1\nfound ==> x>=0\n",
        ),
        ("x>=0 &", TERM, 2, "refused: model at 6: syntax\n"),
        ("x>=0", "", 2, "refused: line 1: NoEnd\n"),
    ] {
        let texts = [model.as_bytes(), term.as_bytes()];
        let (words, printed) = (["report", "model", "term"], printed.as_bytes());
        prints(&rt, alloc, &words, &texts, *status, printed, model)?;
    }
    Ok(())
}

ghost use Rattle.std.specs.Prelude.{◌≡◌, ◌<◌, []};

use super::same;
use dlk_calculus::Reason;
use dlk_guard::{Guard, Unwatched};
use dlk_kernel::Kernel;
use dlk_replay::LineWhy::{Malformed, NoEnd, WrongNumber};
use dlk_replay::ReplayFault::Bad;
use dlk_replay::{Ending, LineWhy, ReplayFault, replay, replay_watched};
use dlk_rules::Step;
use dlk_shared::SharedStore;
use dlk_store::{Steps, Store};
use std::alloc::Global;
use std::marker::Brand;
use std::sync::ledger::{Blank, Ledger};
use std::test::Fail;

/// What becomes of a file, with nothing counted.
fn uncounted<L: Ledger>(alloc: Global, file: &[u8], blank: Blank) -> Result<Ending, ReplayFault>
    requires name { blank.name ≡ L.name }
    requires parts { blank.parts ≡ L.parts }
    requires some { 0 < blank.parts }
{
    let mut kernel = Kernel::new(alloc, SharedStore::new(alloc));
    let mut steps = Steps::<L>::new(blank);
    replay_watched(alloc, file, &mut kernel, &mut Unwatched, &mut steps)
}

fn fate(alloc: Global, file: &[u8]) -> Result<Ending, ReplayFault> {
    uncounted::<Brand>(alloc, file, Blank::new(1))
}

/// The line that a guard refuses of an accepted file, with nothing counted.
fn uncounted_refusal<L: Ledger>(
    alloc: Global,
    file: &[u8],
    blank: Blank,
) -> Result<Option<usize>, ReplayFault>
    requires name { blank.name ≡ L.name }
    requires parts { blank.parts ≡ L.parts }
    requires some { 0 < blank.parts }
{
    let mut kernel = Kernel::new(alloc, SharedStore::new(alloc));
    refusal_on(alloc, file, &mut kernel, &mut Steps::<L>::new(blank))
}

/// The same on a kernel.
fn refusal_on<S: Store, L: Ledger>(
    alloc: Global,
    file: &[u8],
    kernel: &mut Kernel<S>,
    steps: &mut Steps<L>,
) -> Result<Option<usize>, ReplayFault>
    requires { kernel.old.rows ≡ [] }
{
    let mut guard = Guard::new(alloc);
    replay_watched(alloc, file, kernel, &mut guard, steps)?;
    Ok(guard.verdict().map(|refusal| refusal.line))
}

fn refused_line(alloc: Global, file: &[u8]) -> Result<Option<usize>, ReplayFault> {
    uncounted_refusal::<Brand>(alloc, file, Blank::new(1))
}

/// The facts that the steps of an accepted file apply rules to, with nothing counted.
fn uncounted_applied<L: Ledger>(alloc: Global, file: &[u8], blank: Blank) -> Option<Vec<u32>>
    requires name { blank.name ≡ L.name }
    requires parts { blank.parts ≡ L.parts }
    requires some { 0 < blank.parts }
{
    let mut kernel = Kernel::new(alloc, SharedStore::new(alloc));
    let mut steps = Steps::<L>::new(blank);
    let outcome = replay(alloc, file, &mut kernel, &mut steps).ok()?;
    let mut facts = Vec::new(alloc);
    for step in &outcome.steps {
        if let Step::Apply { fact, .. } = step {
            facts.push(*fact).ok()?;
        }
    }
    Some(facts)
}

fn applied(alloc: Global, file: &[u8]) -> Option<Vec<u32>> {
    uncounted_applied::<Brand>(alloc, file, Blank::new(1))
}

/// What becomes of a file of three lines.
const THREE: Ending = Ending {
    fact: 3,
    lines: 3,
    line: 3,
};

/// What becomes of a file of version 2 whose last step stands in its eighth line.
const EIGHT: Ending = Ending {
    fact: 3,
    lines: 3,
    line: 8,
};

#[test]
fn replays_files(rt: HostRuntime) -> Result<(), Fail> {
    for (file, want) in &[
        (
            "1 start ==> x>=0 -> x>=0\n2 apply 1 1 implyR(1)\n3 apply 2 1 close(1,1)\ndone\n",
            Ok(THREE),
        ),
        (
            "1 start ==> x>=0 -> x>=0\n2 apply 1 1 implyR(1)\n3 apply 2 1 close(1,1)\ndone",
            Ok(THREE),
        ),
        (
            "1 start ==> x>=0 -> x>=0\n2 apply 1 1 implyR(1)\n3 apply 2 1 close(1,1)\n",
            Err(Bad {
                line: 4,
                why: NoEnd,
            }),
        ),
        (
            "1 start ==> x>=0 -> x>=0\n2 apply 1 1 implyR(1)\n4 apply 2 1 close(1,1)\ndone\n",
            Err(Bad {
                line: 3,
                why: WrongNumber,
            }),
        ),
        (
            "1 start ==> x>=0 -> x>=1\n2 apply 1 1 implyR(1)\n3 apply 2 1 close(1,1)\nnonsense\ndone\n",
            Err(Bad {
                line: 3,
                why: LineWhy::Step(Reason::NotEqual),
            }),
        ),
        (
            "1 start ==> x>=0\ndone\nx\n",
            Err(Bad {
                line: 3,
                why: Malformed,
            }),
        ),
        (
            "1 start ==> x>=0\ndone\n\n",
            Err(Bad {
                line: 3,
                why: Malformed,
            }),
        ),
        (
            "1 start ==> x>=0\n\ndone\n",
            Err(Bad {
                line: 2,
                why: Malformed,
            }),
        ),
        (
            "done\n",
            Err(Bad {
                line: 1,
                why: Malformed,
            }),
        ),
        (
            "",
            Err(Bad {
                line: 1,
                why: NoEnd,
            }),
        ),
    ] {
        same(&rt, fate(rt.alloc(), file.as_bytes()), *want, file);
    }
    Ok(())
}

/// A file of version 2 before its first step.
const NODES: &str = "dlk 2\nnode 1 var x\nnode 2 num 0\nnode 3 ge 1 2\nnode 4 imply 3 3\n";

#[test]
fn replays_files_of_version_2(rt: HostRuntime) -> Result<(), Fail> {
    for (steps, want) in &[
        (
            "1 start ==> 4\n2 apply 1 1 implyR(1)\n3 apply 2 1 close(1,1)\ndone\n",
            Ok(EIGHT),
        ),
        (
            "1 start ==> 4\n2 apply 1 1 implyR(1)\n3 apply 2 1 close(1,1)\nnode 5 true\ndone",
            Ok(EIGHT),
        ),
        (
            "node 5 ge 1 2\n1 start ==> 4\n",
            Err(Bad {
                line: 6,
                why: Malformed,
            }),
        ),
        (
            "3 start ==> 4\n",
            Err(Bad {
                line: 6,
                why: WrongNumber,
            }),
        ),
        (
            "node 6 true\n",
            Err(Bad {
                line: 6,
                why: WrongNumber,
            }),
        ),
        (
            "node 6 nonsense\n",
            Err(Bad {
                line: 6,
                why: Malformed,
            }),
        ),
        (
            "1 start ==> 4\n2 apply 1 1 implyR(1)\n3 apply 2 1 close(1,1)\n",
            Err(Bad {
                line: 9,
                why: NoEnd,
            }),
        ),
        (
            "1 start ==> 4\n2 apply 1 1 close(1,1)\n",
            Err(Bad {
                line: 7,
                why: LineWhy::Step(Reason::NoPlace),
            }),
        ),
        (
            "1 start ==> 4\ndone\nnode 5 true\n",
            Err(Bad {
                line: 8,
                why: Malformed,
            }),
        ),
        (
            "done\n",
            Err(Bad {
                line: 6,
                why: Malformed,
            }),
        ),
        (
            "dlk 2\n",
            Err(Bad {
                line: 6,
                why: Malformed,
            }),
        ),
        (
            "1 start ==> x>=0 -> x>=0\ndone\n",
            Err(Bad {
                line: 6,
                why: Malformed,
            }),
        ),
    ] {
        let file = format!(in rt.alloc(); "{NODES}{steps}")?;
        same(&rt, fate(rt.alloc(), file.as_bytes()), *want, steps);
    }
    Ok(())
}

#[test]
fn finds_the_version(rt: HostRuntime) -> Result<(), Fail> {
    for (file, line, why) in &[
        ("dlk 2", 2, NoEnd),
        ("dlk 2\n", 2, NoEnd),
        ("dlk 2\r\n1 start ==> x>=0\ndone\n", 1, Malformed),
        ("dlk 1\n1 start ==> x>=0\ndone\n", 1, Malformed),
        ("dlk 2\n1 start ==> x>=0\ndone\n", 2, Malformed),
        ("1 start ==> x>=0\ndlk 2\ndone\n", 2, Malformed),
        ("1 start ==> x>=0\nnode 1 true\ndone\n", 2, Malformed),
    ] {
        let want = Err(Bad {
            line: *line,
            why: *why,
        });
        same(&rt, fate(rt.alloc(), file.as_bytes()), want, file);
    }
    Ok(())
}

#[test]
fn keeps_steps(rt: HostRuntime) -> Result<(), Fail> {
    let file = "1 start ==> x>=0 -> x>=0\n2 apply 1 1 implyR(1)\n3 apply 2 1 close(1,1)\ndone\n";
    let kept = applied(rt.alloc(), file.as_bytes());
    match kept {
        Some(facts) => same(&rt, facts.as_slice() == [1, 2].as_slice(), true, file),
        None => same(&rt, false, true, file),
    }
    Ok(())
}

#[test]
fn guards_files(rt: HostRuntime) -> Result<(), Fail> {
    for (file, want) in &[
        ("1 start ==> x>=0\ndone\n", Ok(None)),
        (
            "1 axiom DW\n2 axiom Dforall\n3 axiom DW\ndone\n",
            Ok(Some(2)),
        ),
        ("1 axiom DI\n2 axiom DW\ndone\n", Ok(None)),
        (
            "dlk 2\n1 axiom DW\nnode 1 true\n2 axiom Dforall\n3 axiom DW\ndone\n",
            Ok(Some(2)),
        ),
        ("1 axiom DW\n2 axiom DI\ndone\n", Ok(Some(2))),
        (
            "1 axiom Dforall\n",
            Err(Bad {
                line: 2,
                why: NoEnd,
            }),
        ),
    ] {
        same(&rt, refused_line(rt.alloc(), file.as_bytes()), *want, file);
    }
    Ok(())
}

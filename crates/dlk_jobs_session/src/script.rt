// Reads the scripts of sessions.
ghost use Rattle.std.specs.Prelude.{◌≡◌, ℕ, List, map, All, IfSome, IfNone, IfOk, IfErr};
ghost use Rattle.dlk_lines.specs.Read.{IsLineFaultOf};
ghost use Rattle.dlk_session.specs.Sessions.{Apply, Line as TheLine};
ghost use Rattle.dlk_tacsyn.specs.Tactics.{Tactic as TreeTactic};
ghost use Rattle.dlk_jobs_session.specs.Parts.{GoalThen};
ghost use Rattle.dlk_jobs_session.specs.Scripts.{ScriptLine, Script, ScriptFault as FaultOf};
ghost use Rattle.dlk_jobs_session.specs.Ties.{line_at, IsKnownLine, of_syntax, IsScriptFaultOf};

use dlk_lines::{LineFault, number_before};
use dlk_replay::first_line;
use dlk_store::Store;
use dlk_tacsyn::laws::one_strategy;
use dlk_tacsyn::{TacSyntax, Tactic, strategy};
use std::alloc::{AllocFailed, Global};

/// A line of a script.
#[derive(Drop, Debug)]
pub(crate) enum Line {
    /// A strategy on a goal of the last row.
    Apply { goal: u32, strategy: Tactic },
    /// The last run that is done is undone.
    Undo,
    /// The last row is reported.
    Show,
    /// The steps are saved.
    Save,
}

/// Why a script was not read.
#[derive(Clone, Copy, Debug, PartialEq, Eq)]
pub(crate) enum ScriptFault {
    /// The first line that says nothing, counted from 1.
    Wrong(usize),
    Memory,
}

impl<T: Drop> From<AllocFailed<T>> for ScriptFault {
    ghost use Rattle.std.specs.Prelude.{◌≡◌};
    ghost use Rattle.dlk_jobs_session.specs.declared.script.ScriptFault.TheVariants.{Memory};

    ghost from_gives = { λ _ e. e ≡ Memory };

    fn from(_: AllocFailed<T>) -> ScriptFault {
        ScriptFault::Memory
    }
}

/// The lines that a file says. The strategies' ids are those of the store.
///
/// # Errors
///
/// - `Wrong`: the first line that says nothing.
/// - `Memory`: for want of memory.
pub(crate) fn read_script<S: Store>(
    alloc: Global,
    bytes: &[u8],
    store: &mut S,
) -> Result<Vec<Line>, ScriptFault>
    ensures said { IfOk result (λ lines. Script bytes.now (map (line_at (S.trees store.new)) lines.items)) }
    ensures known { IfOk result (λ lines. All (IsKnownLine (S.trees store.new)) lines.items) }
    ensures fault { IfErr result (IsScriptFaultOf (FaultOf bytes.now)) }
    ensures grows { S.grows store.old store.new }
{
    let mut lines = Vec::new(alloc);
    let mut left = bytes;
    while !left.is_empty() {
        let (text, behind) = first_line(left);
        match read_line(alloc, text, store) {
            Ok(line) => lines.push(line)?,
            Err(LineFault::Malformed) => return Err(ScriptFault::Wrong(lines.len() + 1)),
            Err(LineFault::Memory) => return Err(ScriptFault::Memory),
        }
        left = behind;
    }
    Ok(lines)
}

/// What a line says.
fn read_line<S: Store>(alloc: Global, text: &[u8], store: &mut S) -> Result<Line, LineFault>
    ensures said { IfOk result (λ line. ScriptLine text.now (line_at (S.trees store.new) line)) }
    ensures known { IfOk result (IsKnownLine (S.trees store.new)) }
    ensures fault { IfErr result (IsLineFaultOf ((line : TheLine) → ¬ ScriptLine text.now line)) }
    ensures grows { S.grows store.old store.new }
{
    if text == b"undo".as_slice() {
        return Ok(Line::Undo);
    }
    if text == b"show".as_slice() {
        return Ok(Line::Show);
    }
    if text == b"save".as_slice() {
        return Ok(Line::Save);
    }
    read_apply(alloc, text, store)
}

/// The goal that a text names which runs a strategy, and the strategy's text.
fn goal_and_strategy(text: &[u8]) -> Option<(u32, &[u8])>
    ensures found { IfSome result (λ p. GoalThen text.now p.0 p.1.now) }
    ensures none { IfNone result ((goal : ℕ) (rest : List ℕ) → ¬ GoalThen text.now goal rest) }
{
    let behind = text.strip_prefix(b"apply ".as_slice())?;
    number_before(behind, b' ')
}

/// A text that is no strategy makes its line `Malformed`.
fn of_syntax(fault: TacSyntax) -> LineFault
    ensures { result ≡ of_syntax fault }
{
    match fault {
        TacSyntax::Syntax { .. }
        | TacSyntax::Nesting { .. }
        | TacSyntax::Repeat { .. }
        | TacSyntax::UnknownAtom { .. }
        | TacSyntax::Arguments { .. } => LineFault::Malformed,
        TacSyntax::Memory => LineFault::Memory,
    }
}

/// The strategy that a line runs, and the goal.
fn read_apply<S: Store>(alloc: Global, text: &[u8], store: &mut S) -> Result<Line, LineFault>
    ensures said { IfOk result (λ line. ScriptLine text.now (line_at (S.trees store.new) line)) }
    ensures known { IfOk result (IsKnownLine (S.trees store.new)) }
    ensures fault { IfErr result (IsLineFaultOf ((goal : ℕ) (tactic : TreeTactic) → ¬ ScriptLine text.now (Apply goal tactic))) }
    ensures grows { S.grows store.old store.new }
{
    one_strategy();
    let Some((goal, rest)) = goal_and_strategy(text) else {
        return Err(LineFault::Malformed);
    };
    match strategy(alloc, rest, store) {
        Ok(strategy) => Ok(Line::Apply { goal, strategy }),
        Err(fault) => Err(of_syntax(fault)),
    }
}

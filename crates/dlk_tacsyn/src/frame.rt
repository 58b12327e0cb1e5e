//! Open brackets, and what stands in them.
ghost use Rattle.std.specs.Prelude.{◌≡◌, ◌≢◌, ◌∷◌, [], List, IfOk, IfErr, All, map, length};
ghost use Rattle.dlk_tree.specs.Trees.{Tree};
ghost use Rattle.dlk_tacsyn.specs.Tactics.{Choice, Sequence};
ghost use Rattle.dlk_tacsyn.specs.Strategies.{whole};
ghost use Rattle.dlk_tacsyn.specs.Ties.{tactic_at, TacticIsKnown};
ghost use Rattle.dlk_tacsyn.specs.Steps.{empty_frame, end_step, end_sequence, end_choice, closed};
ghost use Rattle.dlk_tacsyn.specs.States.{frame_at, FrameIsKnown};

use crate::tactic::Tactic;
use std::alloc::{AllocError, Global};

/// What opened a bracket.
#[derive(Clone, Copy, Debug, PartialEq, Eq)]
pub(crate) enum Opened {
    /// `(`; and the text as a whole, which is no bracket
    Group,
    /// `<(`, at this byte
    Fork(usize),
}

/// A bracket: what stands in it before the last `,`, then before the last `|`, then before the last `;`. It keeps in how many
/// brackets it stands, and itself.
#[derive(Drop, Debug)]
pub(crate) struct Frame {
    pub opened: Opened,
    pub level: u32,
    pub branches: Vec<Tactic>,
    pub choices: Vec<Tactic>,
    pub steps: Vec<Tactic>,
}

/// The open brackets round one, and that one.
#[derive(Drop, Debug)]
pub(crate) struct Brackets {
    pub outer: Vec<Frame>,
    pub inner: Frame,
}

impl Frame {
    /// A bracket with nothing in it.
    pub fn empty(alloc: Global, opened: Opened, level: u32) -> Frame
        ensures empty { (trees : List Tree) → frame_at trees result ≡ empty_frame opened level }
        ensures known { (trees : List Tree) → FrameIsKnown trees result }
    {
        Frame {
            opened,
            level,
            branches: Vec::new(alloc),
            choices: Vec::new(alloc),
            steps: Vec::new(alloc),
        }
    }

    /// A strategy more before a `;`.
    pub fn end_step(self, step: Tactic) -> Result<Frame, AllocError>
        ensures ended { IfOk result (λ f. (trees : List Tree) → end_step (frame_at trees self) (tactic_at trees step) ≡ frame_at trees f) }
        ensures known { IfOk result (λ f. (trees : List Tree) → FrameIsKnown trees self → TacticIsKnown trees step → FrameIsKnown trees f) }
    {
        let mut steps = self.steps;
        steps.push(step)?;
        Ok(Frame {
            opened: self.opened,
            level: self.level,
            branches: self.branches,
            choices: self.choices,
            steps,
        })
    }

    /// A sequence more before a `|`, with this last.
    pub fn end_sequence(self, alloc: Global, step: Tactic) -> Result<Frame, AllocError>
        ensures ended { IfOk result (λ f. (trees : List Tree) → end_sequence (frame_at trees self) (tactic_at trees step) ≡ frame_at trees f) }
        ensures known { IfOk result (λ f. (trees : List Tree) → FrameIsKnown trees self → TacticIsKnown trees step → FrameIsKnown trees f) }
    {
        let mut steps = self.steps;
        steps.push(step)?;
        let mut choices = self.choices;
        choices.push(sequence(steps))?;
        Ok(Frame {
            opened: self.opened,
            level: self.level,
            branches: self.branches,
            choices,
            steps: Vec::new(alloc),
        })
    }

    /// A strategy more before a `,`, with this last.
    pub fn end_choice(self, alloc: Global, step: Tactic) -> Result<Frame, AllocError>
        ensures ended { IfOk result (λ f. (trees : List Tree) → end_choice (frame_at trees self) (tactic_at trees step) ≡ frame_at trees f) }
        ensures known { IfOk result (λ f. (trees : List Tree) → FrameIsKnown trees self → TacticIsKnown trees step → FrameIsKnown trees f) }
    {
        let ended = self.end_sequence(alloc, step)?;
        let mut branches = ended.branches;
        branches.push(choice(ended.choices))?;
        Ok(Frame {
            opened: ended.opened,
            level: ended.level,
            branches,
            choices: Vec::new(alloc),
            steps: Vec::new(alloc),
        })
    }

    /// What stood in the bracket as one strategy.
    pub fn closed(self) -> Tactic
        ensures closed { (trees : List Tree) → tactic_at trees result ≡ closed self.opened (map (tactic_at trees) self.branches.items) }
        ensures known { (trees : List Tree) → FrameIsKnown trees self → TacticIsKnown trees result }
    {
        match self.opened {
            Opened::Group => choice(self.branches),
            Opened::Fork(at) => Tactic::branch(at, self.branches),
        }
    }
}

/// The choice of these, which is the one where there is one.
fn choice(parts: Vec<Tactic>) -> Tactic
    ensures whole { (trees : List Tree) → tactic_at trees result ≡ whole Choice (map (tactic_at trees) parts.items) }
    ensures known { (trees : List Tree) → All (TacticIsKnown trees) parts.items → TacticIsKnown trees result }
{
    match only(parts) {
        Ok(part) => part,
        Err(parts) => Tactic::choice(parts),
    }
}

/// The sequence of these, which is the one where there is one.
fn sequence(parts: Vec<Tactic>) -> Tactic
    ensures whole { (trees : List Tree) → tactic_at trees result ≡ whole Sequence (map (tactic_at trees) parts.items) }
    ensures known { (trees : List Tree) → All (TacticIsKnown trees) parts.items → TacticIsKnown trees result }
{
    match only(parts) {
        Ok(part) => part,
        Err(parts) => Tactic::sequence(parts),
    }
}

/// The part, where there is one.
fn only(mut parts: Vec<Tactic>) -> Result<Tactic, Vec<Tactic>>
    ensures one { IfOk result (λ part. parts.items ≡ part ∷ []) }
    ensures same { IfErr result (λ all. all.items ≡ parts.items) }
    ensures more { IfErr result (λ all. length all.items ≢ 1) }
{
    if parts.len() != 1 {
        return Err(parts);
    }
    match parts.pop() {
        Some(part) => Ok(part),
        None => Err(parts),
    }
}

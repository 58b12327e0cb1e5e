//! The goals of a row, of which up to two stand in the row itself.
ghost use Rattle.std.specs.Prelude.{◌≡◌, ◌<◌, ◌+◌, ◌∷◌, ◌++◌, [], length, get_or, IfOk, OnOk};
ghost use Rattle.dlk_calculus.specs.Places.{IsPlace, put_all};
ghost use Rattle.dlk_kernel.specs.Goals.{goals_of};

use dlk_sequent::{Listed, Sequent, Shared};
use std::alloc::{AllocError, Global};
use std::marker::Model;
use std::slice::from_ref;

/// Where the goals stand.
#[derive(Drop, Debug)]
enum Kept {
    None,
    One(Shared<Sequent>),
    Two([Shared<Sequent>; 2]),
    More(Vec<Shared<Sequent>>),
}

/// Goals in order, which contracts see as their list. Most rows have one or two, and these take no memory of their own.
#[derive(Drop, Debug)]
pub struct Goals {
    kept: Kept,
}

impl Model for Goals {
    ghost use Rattle.std.specs.Prelude.{List};
    ghost use Rattle.dlk_sequent.specs.declared.sequent.Sequent.{Sequent};
    ghost use Rattle.dlk_kernel.specs.Goals.{goals_of};

    ghost Value = { List Sequent };

    ghost view = { λ g. goals_of g.kept };
}

/// The goal of this number, from 0 on, of three lists that stand behind each other.
fn goal_of<'a>(
    before: &'a [Shared<Sequent>],
    new: &'a [Shared<Sequent>],
    after: &'a [Shared<Sequent>],
    number: usize,
) -> &'a Shared<Sequent>
    requires { number < length before.now + length new.now + length after.now }
    ensures { result.now ≡ get_or (before.now ++ new.now ++ after.now) number result.now }
{
    if number < before.len() {
        return &before[number];
    }
    let behind = number - before.len();
    if behind < new.len() {
        return &new[behind];
    }
    &after[behind - new.len()]
}

/// The same goals at the end.
fn append(into: &mut Vec<Shared<Sequent>>, from: &[Shared<Sequent>]) -> Result<(), AllocError>
    ensures { OnOk result (into.new.items ≡ into.old.items ++ from.now) }
{
    for goal in from {
        into.push(goal.share()?)?;
    }
    Ok(())
}

/// More than two goals of three lists, shared.
fn joined_many(
    alloc: Global,
    before: &[Shared<Sequent>],
    new: &[Shared<Sequent>],
    after: &[Shared<Sequent>],
) -> Result<Goals, AllocError>
    ensures { IfOk result (λ goals. goals ≡ before.now ++ new.now ++ after.now) }
{
    let mut all = Vec::with_capacity(alloc, before.len() + new.len() + after.len())?;
    append(&mut all, before)?;
    append(&mut all, new)?;
    append(&mut all, after)?;
    Ok(Goals {
        kept: Kept::More(all),
    })
}

/// The goals of three lists, shared.
fn joined(
    alloc: Global,
    before: &[Shared<Sequent>],
    new: &[Shared<Sequent>],
    after: &[Shared<Sequent>],
) -> Result<Goals, AllocError>
    ensures { IfOk result (λ goals. goals ≡ before.now ++ new.now ++ after.now) }
{
    let count = before.len() + new.len() + after.len();
    if count > 2 {
        return joined_many(alloc, before, new, after);
    }
    if count == 0 {
        return Ok(Goals::new());
    }
    let first = goal_of(before, new, after, 0).share()?;
    if count == 1 {
        return Ok(Goals::one(first));
    }
    let second = goal_of(before, new, after, 1).share()?;
    Ok(Goals {
        kept: Kept::Two([first, second]),
    })
}

impl Goals {
    /// No goals.
    pub(crate) fn new() -> Goals
        ensures { result ≡ [] }
    {
        Goals { kept: Kept::None }
    }

    /// One goal.
    pub(crate) fn one(goal: Shared<Sequent>) -> Goals
        ensures { result ≡ goal ∷ [] }
    {
        Goals {
            kept: Kept::One(goal),
        }
    }

    /// The goals of a list, which takes no memory.
    pub(crate) fn of(goals: Listed<Shared<Sequent>>) -> Goals
        ensures { result ≡ goals }
    {
        Goals {
            kept: Kept::More(goals.into_vec()),
        }
    }

    /// The goals.
    pub(crate) fn as_slice(&self) -> &[Shared<Sequent>]
        ensures { result.now ≡ self.now }
    {
        match &self.kept {
            Kept::None => &[],
            Kept::One(goal) => from_ref(goal),
            Kept::Two(goals) => goals,
            Kept::More(goals) => goals.as_slice(),
        }
    }

    /// The goals where they stand.
    fn into_kept(self) -> Kept
        ensures { goals_of result ≡ self }
    {
        self.kept
    }

    /// The same goals with one more at the end.
    pub(crate) fn with(self, alloc: Global, goal: Shared<Sequent>) -> Result<Goals, AllocError>
        ensures { IfOk result (λ goals. goals ≡ self ++ goal ∷ []) }
    {
        match self.into_kept() {
            Kept::None => Ok(Goals::one(goal)),
            Kept::One(first) => Ok(Goals {
                kept: Kept::Two([first, goal]),
            }),
            Kept::Two(goals) => {
                let mut goals = Vec::from_array(alloc, goals)?;
                goals.push(goal)?;
                Ok(Goals {
                    kept: Kept::More(goals),
                })
            }
            Kept::More(mut goals) => {
                goals.push(goal)?;
                Ok(Goals {
                    kept: Kept::More(goals),
                })
            }
        }
    }

    /// The same goals once more.
    pub(crate) fn share(&self, alloc: Global) -> Result<Goals, AllocError>
        ensures { IfOk result (λ goals. goals ≡ self.now) }
    {
        joined(alloc, self.as_slice(), &[], &[])
    }

    /// The same goals but for others instead of the one at a place, which is there. Places count from 1.
    pub(crate) fn with_all_at(
        &self,
        alloc: Global,
        place: u32,
        new: &[Shared<Sequent>],
    ) -> Result<Goals, AllocError>
        requires { IsPlace self.now place }
        ensures { IfOk result (λ goals. goals ≡ put_all self.now place new.now) }
    {
        let goals = self.as_slice();
        let at = place as usize;
        joined(alloc, &goals[..at - 1], new, &goals[at..])
    }
}

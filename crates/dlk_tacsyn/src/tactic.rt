//! Strategies as trees.
ghost use Rattle.std.specs.Prelude.{◌≡◌, List, map, All, IfOk};
ghost use Rattle.dlk_tree.specs.Trees.{Tree};
ghost use Rattle.dlk_tacsyn.specs.Tactics.{Branch, Choice, Sequence};
ghost use Rattle.dlk_tacsyn.specs.Strategies.{parts as all_parts};
ghost use Rattle.dlk_tacsyn.specs.Ties.{tactic_at, TacticIsKnown};

use dlk_sequent::{Extra, Listed, Place};
use dlk_store::Id;
use dlk_tree::Name;
use std::alloc::{AllocError, Global};

/// An argument of an atom.
#[derive(Drop, Debug)]
pub enum Arg {
    /// A formula of the goal, and the way into it: its kids, counted from 0.
    At { place: Place, path: Listed<u32> },
    /// `'L`: the first place on the left at which the atom doesn't fail.
    AnyLeft,
    /// `'R`: the first place on the right at which it doesn't.
    AnyRight,
    /// A name.
    Word(Name),
    /// A quoted formula.
    Formula(Id),
    /// A quoted term.
    Term(Id),
    /// Quoted names with the names that they get, and pairs of a substitution.
    With(Extra),
}

/// A strategy without parts, by its name and its arguments. It keeps the byte at which its name stands in the text.
#[derive(Drop, Debug)]
pub struct Atom {
    pub name: Name,
    pub args: Listed<Arg>,
    pub at: usize,
}

/// A strategy.
#[derive(Drop, Debug)]
pub enum Tactic {
    /// The first of these that doesn't fail; at least two.
    Choice(Vec<Tactic>),
    /// One after another, each on every goal that is left; at least two.
    Seq(Vec<Tactic>),
    /// The first on the first goal, the second on the second and so on, at least one. It keeps the byte of its `<(`, and stands
    /// behind a part of a sequence alone.
    Branch { at: usize, parts: Vec<Tactic> },
    /// The body on each goal that is left, again and again, until it fails or was run so many times.
    Repeat { body: Box<Tactic>, times: u32 },
    One(Atom),
}

impl Arg {
    /// The same once more.
    pub fn copy(&self, alloc: Global) -> Result<Arg, AllocError>
        ensures { IfOk result (λ arg. arg ≡ self.now) }
    {
        match self {
            Arg::At { place, path } => {
                let path = path.copied(alloc)?;
                Ok(Arg::At {
                    place: *place,
                    path,
                })
            }
            Arg::AnyLeft => Ok(Arg::AnyLeft),
            Arg::AnyRight => Ok(Arg::AnyRight),
            Arg::Word(name) => Ok(Arg::Word(name.clone()?)),
            Arg::Formula(id) => Ok(Arg::Formula(*id)),
            Arg::Term(id) => Ok(Arg::Term(*id)),
            Arg::With(extra) => Ok(Arg::With(extra.copy(alloc)?)),
        }
    }
}

impl Atom {
    /// The same once more.
    pub fn copy(&self, alloc: Global) -> Result<Atom, AllocError>
        ensures { IfOk result (λ atom. atom ≡ self.now) }
    {
        let mut args = Listed::new(alloc);
        for arg in self.args.as_slice() {
            let arg = arg.copy(alloc)?;
            args.push(arg)?;
        }
        let name = self.name.clone()?;
        Ok(Atom {
            name,
            args,
            at: self.at,
        })
    }
}

impl Tactic {
    /// The first of these that doesn't fail.
    pub fn choice(parts: Vec<Tactic>) -> Tactic
        ensures made { (trees : List Tree) → tactic_at trees result ≡ Choice (all_parts (map (tactic_at trees) parts.items)) }
        ensures known { (trees : List Tree) → All (TacticIsKnown trees) parts.items → TacticIsKnown trees result }
    {
        Tactic::Choice(parts)
    }

    /// One after another, each on every goal that is left.
    pub fn sequence(parts: Vec<Tactic>) -> Tactic
        ensures made { (trees : List Tree) → tactic_at trees result ≡ Sequence (all_parts (map (tactic_at trees) parts.items)) }
        ensures known { (trees : List Tree) → All (TacticIsKnown trees) parts.items → TacticIsKnown trees result }
    {
        Tactic::Seq(parts)
    }

    /// Each on a goal of its own. The `<(` is at this byte.
    pub fn branch(at: usize, parts: Vec<Tactic>) -> Tactic
        ensures made { (trees : List Tree) → tactic_at trees result ≡ Branch at (all_parts (map (tactic_at trees) parts.items)) }
        ensures known { (trees : List Tree) → All (TacticIsKnown trees) parts.items → TacticIsKnown trees result }
    {
        Tactic::Branch { at, parts }
    }
}

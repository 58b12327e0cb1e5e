//! What is kept of a node.
ghost use Rattle.std.specs.Prelude.{◌≡◌, ◌≤◌, ◌^◌, IfOk, OnErr, IsTrue};
ghost use Rattle.dlk_tree.specs.Table.{has_parts};
ghost use Rattle.dlk_tree.specs.Occurs.{is_hole};
ghost use Rattle.dlk_shared.specs.Kept.{dot_bit};
ghost use Rattle.dlk_shared.specs.SetTables.{number_in};
ghost use Rattle.dlk_shared.specs.Mixed.{mixed};

use crate::kids::Kids;
use dlk_store::{Id, Which};
use dlk_tree::Op;
use dlk_vars::VarFault;
use std::hash::{Hash, Hasher};

/// What a number is multiplied by before the next is added: odd, and such that its multiples by small numbers lie far apart.
const MULTIPLIER: u64 = 0x9e37_79b9_7f4a_7c15;

/// A place in a table in four bytes. A table is full where its places need more, which counts as want of memory.
pub fn narrow(n: usize) -> Result<u32, VarFault>
    ensures same { IfOk result (λ m. m ≡ n) }
    ensures full { OnErr result (2 ^ 32 ≤ n) }
{
    match u32::try_from(n) {
        Ok(m) => Ok(m),
        Err(_) => Err(VarFault::Memory),
    }
}

/// What a node is known by: the number of its operator, and its kids.
#[derive(PartialEq, Eq, Drop)]
pub struct Key {
    pub op: u32,
    pub kids: Kids,
}

/// A table hashes one number in place of the whole key.
impl Hash for Key {
    ghost use Rattle.std.specs.Hash as fed;
    ghost use Rattle.dlk_shared.specs.Mixed.{mixed, mixed_alike};

    ghost hash_input = { λ k. fed.u64 (mixed k.op k.kids) };

    ghost respects_eq = { λ a b h. mixed_alike a.op b.op a.kids b.kids h };

    fn hash<H: Hasher>(&self, state: &mut H) {
        state.write_u64(mixed(self.op, self.kids.as_slice()));
    }
}

/// The number of an operator and the ids of kids, mixed to one number.
fn mixed(op: u32, kids: &[Id]) -> u64
    ensures { result ≡ mixed op kids.now }
{
    let mut all = u64::from(op);
    for id in kids {
        all = all.wrapping_mul(MULTIPLIER).wrapping_add(id.0 as u64);
    }
    all
}

/// The numbers of the three sets of a node's tree.
#[derive(Clone, Copy)]
pub struct NodeSets {
    pub free: u32,
    pub bound: u32,
    pub must: u32,
}

impl NodeSets {
    /// The number of one of the three sets.
    pub fn of(&self, which: Which) -> u32
        ensures { result ≡ number_in which self.now }
    {
        match which {
            Which::Free => self.free,
            Which::Bound => self.bound,
            Which::Must => self.must,
        }
    }
}

/// What is kept of a node's tree.
#[derive(Clone, Copy)]
pub struct Facts {
    /// The number of nodes, at most the greatest `u32`.
    pub size: u32,
    /// The depth, at most the greatest `u32`.
    pub depth: u32,
    /// A bit for each number of an argument dot, whether that dot stands in the tree.
    pub dots: u8,
    /// Whether `_` stands in the tree.
    pub hole: bool,
    pub sets: NodeSets,
    /// The number of its signature.
    pub sign: u32,
}

/// The bit of an operator that is an argument dot, and else none.
pub fn dot_bit(op: &Op) -> u8
    requires { IsTrue (has_parts op.now) }
    ensures { result ≡ dot_bit op.now }
{
    match op {
        Op::Dot(n) => 1 << n,
        _ => 0,
    }
}

pub fn is_hole(op: &Op) -> bool
    ensures { result ≡ is_hole op.now }
{
    matches!(op, Op::Hole)
}

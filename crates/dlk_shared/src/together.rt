//! The three sets of a node, of those that its operator brings and those of its kids.
ghost use Rattle.std.specs.Prelude.{IfOk, All, map};
ghost use Rattle.dlk_tree.specs.Statics.{none, free_in_turn, must_in_both, must_in_one, statics};
ghost use Rattle.dlk_shared.specs.Shapes.{put_together};
ghost use Rattle.dlk_shared.specs.SetTables.{Means, MeanSets, Keeps, AreSets, sets_at, in_kids};

use crate::node::NodeSets;
use crate::sets::SetTable;
use crate::shape::{StaticsShape, shape_of};
use dlk_store::Which;
use dlk_tree::Op;
use dlk_vars::VarFault;

impl SetTable {
    /// What some kid reads, binds or must-binds.
    fn in_kids(&mut self, which: Which, kids: &[NodeSets], empty: u32) -> Result<u32, VarFault>
        requires empty { Means self.old empty none }
        requires kids { All (AreSets self.old) kids.now }
        ensures means { IfOk result (λ n. Means self.new n (in_kids which (map (sets_at self.old) kids.now))) }
        ensures keeps { Keeps self.old self.new }
    {
        let mut all = empty;
        for kid in kids {
            all = self.either(all, kid.of(which))?;
        }
        Ok(all)
    }

    /// What two kids read where the second comes after the first.
    fn in_turn(&mut self, kids: &[NodeSets], empty: u32) -> Result<u32, VarFault>
        requires empty { Means self.old empty none }
        requires kids { All (AreSets self.old) kids.now }
        ensures means { IfOk result (λ n. Means self.new n (free_in_turn (map (sets_at self.old) kids.now))) }
        ensures keeps { Keeps self.old self.new }
    {
        match kids {
            [first, second, ..] => {
                let rest = self.without(second.free, first.must)?;
                self.either(first.free, rest)
            }
            _ => Ok(empty),
        }
    }

    /// What both of two kids must-bind.
    fn must_in_both(&mut self, kids: &[NodeSets], empty: u32) -> Result<u32, VarFault>
        requires empty { Means self.old empty none }
        requires kids { All (AreSets self.old) kids.now }
        ensures means { IfOk result (λ n. Means self.new n (must_in_both (map (sets_at self.old) kids.now))) }
        ensures keeps { Keeps self.old self.new }
    {
        match kids {
            [first, second, ..] => self.both(first.must, second.must),
            _ => Ok(empty),
        }
    }

    /// What one of two kids must-binds.
    fn must_in_one(&mut self, kids: &[NodeSets], empty: u32) -> Result<u32, VarFault>
        requires empty { Means self.old empty none }
        requires kids { All (AreSets self.old) kids.now }
        ensures means { IfOk result (λ n. Means self.new n (must_in_one (map (sets_at self.old) kids.now))) }
        ensures keeps { Keeps self.old self.new }
    {
        match kids {
            [first, second, ..] => self.either(first.must, second.must),
            _ => Ok(empty),
        }
    }

    /// What the node reads.
    fn free_over(
        &mut self,
        shape: StaticsShape,
        own: NodeSets,
        kids: &[NodeSets],
        empty: u32,
    ) -> Result<u32, VarFault>
        requires own { AreSets self.old own }
        requires kids { All (AreSets self.old) kids.now }
        requires empty { Means self.old empty none }
        ensures means { IfOk result (λ n. Means self.new n (put_together shape (sets_at self.old own) (map (sets_at self.old) kids.now)).free) }
        ensures keeps { Keeps self.old self.new }
    {
        match shape {
            StaticsShape::Own => Ok(own.free),
            StaticsShape::Differential => {
                let free = self.in_kids(Which::Free, kids, empty)?;
                self.and_primes(free)
            }
            StaticsShape::Quantified => {
                let free = self.in_kids(Which::Free, kids, empty)?;
                self.without(free, own.bound)
            }
            StaticsShape::Evolved => {
                let free = self.in_kids(Which::Free, kids, empty)?;
                self.either(own.free, free)
            }
            StaticsShape::Modal | StaticsShape::Sequence => self.in_turn(kids, empty),
            StaticsShape::AsKids
            | StaticsShape::Assigned
            | StaticsShape::Tested
            | StaticsShape::Branching => self.in_kids(Which::Free, kids, empty),
        }
    }

    /// What the node binds.
    fn bound_over(
        &mut self,
        shape: StaticsShape,
        own: NodeSets,
        kids: &[NodeSets],
        empty: u32,
    ) -> Result<u32, VarFault>
        requires own { AreSets self.old own }
        requires kids { All (AreSets self.old) kids.now }
        requires empty { Means self.old empty none }
        ensures means { IfOk result (λ n. Means self.new n (put_together shape (sets_at self.old own) (map (sets_at self.old) kids.now)).bound) }
        ensures keeps { Keeps self.old self.new }
    {
        match shape {
            StaticsShape::Own | StaticsShape::Assigned | StaticsShape::Evolved => Ok(own.bound),
            StaticsShape::Tested => Ok(empty),
            StaticsShape::Quantified => {
                let bound = self.in_kids(Which::Bound, kids, empty)?;
                self.either(bound, own.bound)
            }
            StaticsShape::AsKids
            | StaticsShape::Differential
            | StaticsShape::Modal
            | StaticsShape::Branching
            | StaticsShape::Sequence => self.in_kids(Which::Bound, kids, empty),
        }
    }

    /// What the node must-binds.
    fn must_over(
        &mut self,
        shape: StaticsShape,
        own: NodeSets,
        kids: &[NodeSets],
        empty: u32,
    ) -> Result<u32, VarFault>
        requires own { AreSets self.old own }
        requires kids { All (AreSets self.old) kids.now }
        requires empty { Means self.old empty none }
        ensures means { IfOk result (λ n. Means self.new n (put_together shape (sets_at self.old own) (map (sets_at self.old) kids.now)).must) }
        ensures keeps { Keeps self.old self.new }
    {
        match shape {
            StaticsShape::Own | StaticsShape::Assigned | StaticsShape::Evolved => Ok(own.must),
            StaticsShape::Branching => self.must_in_both(kids, empty),
            StaticsShape::Sequence => self.must_in_one(kids, empty),
            StaticsShape::AsKids
            | StaticsShape::Differential
            | StaticsShape::Quantified
            | StaticsShape::Modal
            | StaticsShape::Tested => Ok(empty),
        }
    }

    /// The three sets of a node whose operator has this shape and these sets of its own, over kids with these sets.
    pub fn together(
        &mut self,
        shape: StaticsShape,
        own: NodeSets,
        kids: &[NodeSets],
        empty: u32,
    ) -> Result<NodeSets, VarFault>
        requires own { AreSets self.old own }
        requires kids { All (AreSets self.old) kids.now }
        requires empty { Means self.old empty none }
        ensures means { IfOk result (λ n. MeanSets self.new n (put_together shape (sets_at self.old own) (map (sets_at self.old) kids.now))) }
        ensures keeps { Keeps self.old self.new }
    {
        let free = self.free_over(shape, own, kids, empty)?;
        let bound = self.bound_over(shape, own, kids, empty)?;
        let must = self.must_over(shape, own, kids, empty)?;
        Ok(NodeSets { free, bound, must })
    }

    /// The three sets of a node with this operator over kids with these sets.
    pub fn node_sets(&mut self, op: &Op, kids: &[NodeSets]) -> Result<NodeSets, VarFault>
        requires { All (AreSets self.old) kids.now }
        ensures means { IfOk result (λ n. MeanSets self.new n (statics op.now (map (sets_at self.old) kids.now))) }
        ensures keeps { Keeps self.old self.new }
    {
        let empty = self.none()?;
        let own = self.own_sets(op, empty)?;
        self.together(shape_of(op), own, kids, empty)
    }
}

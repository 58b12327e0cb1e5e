//! Makes the nodes of what a text says.
ghost use Rattle.std.specs.Prelude.{◌≡◌, ◌<◌, ◌≤◌, ◌+◌, ◌^◌, IfOk, OnOk, All, map, length};
ghost use Rattle.dlk_tree.specs.Table.{Fits, kid_sorts};
ghost use Rattle.dlk_store.specs.Stores.{IsId, tree, sorts_at};
ghost use Rattle.dlk_parse.specs.Made.{IsWellMade, AreMade};
ghost use Rattle.dlk_parse.specs.Stacks.{top};
ghost use Rattle.dlk_parse.specs.Making.{call, put, put_outside, make_step, making_at, AllWellMade};

use dlk_reader::Code;
use dlk_store::{Id, Store, StoreFault};
use dlk_tree::{Kind, Name, Op, Sym, arity_of};
use std::alloc::Global;

/// What waits for its operator, and how many notes are open.
#[derive(Drop, Debug)]
struct Maker {
    ids: Vec<Id>,
    notes: usize,
}

/// The ids of the trees of the phrases whose code this is, in order. Formulas that stand beside a program make no nodes.
pub(crate) fn make_all<S: Store>(
    alloc: Global,
    code: Vec<Code>,
    store: &mut S,
) -> Result<Vec<Id>, StoreFault>
    requires { IsWellMade code.items }
    ensures made { IfOk result (λ ids. AreMade code.items (S.trees store.new) ids.items) }
    ensures grows { S.grows store.old store.new }
{
    let mut maker = Maker {
        ids: Vec::new(alloc),
        notes: 0,
    };
    for piece in code {
        maker.step(alloc, piece, store)?;
    }
    Ok(maker.ids)
}

impl Maker {
    fn step<S: Store>(&mut self, alloc: Global, code: Code, store: &mut S) -> Result<(), StoreFault>
        requires known { All (IsId (S.trees store.old)) self.old.ids.items }
        requires well_made { AllWellMade (make_step (making_at (S.trees store.old) self.old) code) }
        requires room { self.old.notes < 2 ^ 63 }
        ensures steps { OnOk result (making_at (S.trees store.new) self.new ≡ make_step (making_at (S.trees store.old) self.old) code) }
        ensures known { OnOk result (All (IsId (S.trees store.new)) self.new.ids.items) }
        ensures grows { S.grows store.old store.new }
    {
        match code {
            Code::Notes => {
                self.notes += 1;
                Ok(())
            }
            Code::EndNotes(_) => {
                self.notes = self.notes.saturating_sub(1);
                Ok(())
            }
            Code::Operator(op) => self.put_outside(alloc, op, store),
            Code::Call {
                holds,
                name,
                count,
                ..
            } => {
                // more arguments stand beside programs alone
                let Ok(arity) = u8::try_from(count) else {
                    return Ok(());
                };
                self.put_outside(alloc, call(holds, name, arity), store)
            }
            Code::System { items, .. } => self.put_outside(alloc, Op::System(items), store),
        }
    }

    /// Puts a node in place of its kids, unless notes are open.
    fn put_outside<S: Store>(
        &mut self,
        alloc: Global,
        op: Op,
        store: &mut S,
    ) -> Result<(), StoreFault>
        requires known { All (IsId (S.trees store.old)) self.old.ids.items }
        requires well_made { AllWellMade (put_outside op (making_at (S.trees store.old) self.old)) }
        ensures steps { OnOk result (making_at (S.trees store.new) self.new ≡ put_outside op (making_at (S.trees store.old) self.old)) }
        ensures known { OnOk result (All (IsId (S.trees store.new)) self.new.ids.items) }
        ensures grows { S.grows store.old store.new }
    {
        if self.notes > 0 {
            return Ok(());
        }
        self.put(alloc, op, store)
    }

    /// Puts a node in place of its kids, which stand last.
    fn put<S: Store>(&mut self, alloc: Global, op: Op, store: &mut S) -> Result<(), StoreFault>
        requires known { All (IsId (S.trees store.old)) self.old.ids.items }
        requires fits { Fits op (sorts_at (S.trees store.old) (top (length (kid_sorts op)) self.old.ids.items)) }
        ensures put { OnOk result (map (tree (S.trees store.new)) self.new.ids.items ≡ put op (map (tree (S.trees store.old)) self.old.ids.items)) }
        ensures notes { OnOk result (self.new.notes ≡ self.old.notes) }
        ensures known { OnOk result (All (IsId (S.trees store.new)) self.new.ids.items) }
        ensures grows { S.grows store.old store.new }
    {
        let at = self.ids.len().saturating_sub(arity_of(&op));
        let id = store.make(alloc, op, &self.ids[at..])?;
        self.ids.truncate(at);
        self.ids.push(id)?;
        Ok(())
    }
}

/// The operator of an application.
fn call(holds: bool, name: Name, arity: u8) -> Op
    ensures { result ≡ call holds name arity }
{
    let symbol = Sym {
        kind: if holds { Kind::Pred } else { Kind::Func },
        name,
        arity,
        taboo: None,
    };
    if holds {
        Op::Holds(symbol)
    } else {
        Op::Apply(symbol)
    }
}

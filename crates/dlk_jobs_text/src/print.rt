// `print FILE`: the canonical text of an expression.
ghost use Rattle.std.specs.Prelude.{◌≡◌, ◌<◌, IfOk, IfErr};
ghost use Rattle.dlk_tree.specs.Trees.{Tree};
ghost use Rattle.dlk_grammar.specs.declared.token.Form.TheVariants.{Expression};
ghost use Rattle.dlk_grammar.specs.Texts.{TreeText};
ghost use Rattle.dlk_store.specs.Stores.{IsId, tree, StandsFor};
ghost use Rattle.dlk_jobs_text.specs.Prints.{Prints, printed};
ghost use Rattle.dlk_jobs_text.specs.Refused.{RefusesFile};
ghost use Rattle.dlk_replies.specs.Ended.{EndsIn};
ghost use Rattle.dlk_replies.specs.Shown.{reply_of};

use dlk_grammar::Dots;
use dlk_parse::read_expression;
use dlk_print::text;
use dlk_replies::{Ended, NoReply, Reply, Role, Status, answer_of, end_by, printing, refuse_text};
use dlk_shared::SharedStore;
use dlk_store::{Id, Steps, Store};
use std::alloc::Global;
use std::sync::ledger::Ledger;

/// The expression of a file.
///
/// # Errors
///
/// - `Refused`: the bytes are none.
/// - `Memory`: for want of memory.
pub(crate) fn read_file<S: Store>(
    alloc: Global,
    file: &[u8],
    dots: Dots,
    store: &mut S,
) -> Result<Id, Ended>
    ensures found { IfOk result (λ id. (t : Tree) × TreeText Expression dots file.now t × StandsFor (S.trees store.new) id t) }
    ensures refused { IfErr result (EndsIn (RefusesFile dots file.now)) }
    ensures grows { S.grows store.old store.new }
{
    match read_expression(alloc, file, dots, store) {
        Ok(expression) => Ok(expression),
        Err(fault) => Err(end_by(refuse_text(alloc, Role::File, fault))),
    }
}

/// The canonical text of a tree, on a line.
pub(crate) fn print_tree<S: Store, L: Ledger>(
    alloc: Global,
    store: &S,
    id: Id,
    steps: &mut Steps<L>,
) -> Result<Reply, NoReply>
    requires { IsId (S.trees store.now) id }
    ensures { IfOk result (λ r. reply_of r ≡ printed (tree (S.trees store.now) id)) }
{
    let mut printed = Vec::new(alloc);
    text(store, id, &mut printed, steps)?;
    printed.push(b'\n')?;
    Ok(printing(Status::Done, printed))
}

/// Prints an expression by a store.
fn print_on<S: Store, L: Ledger>(
    alloc: Global,
    store: &mut S,
    file: &[u8],
    steps: &mut Steps<L>,
) -> Result<Reply, Ended>
    ensures reply { IfOk result (λ r. Prints file.now (reply_of r)) }
    ensures ended { IfErr result (EndsIn (Prints file.now)) }
{
    let expression = read_file(alloc, file, Dots::Allowed, store)?;
    let reply = print_tree(alloc, store, expression, steps)?;
    Ok(reply)
}

/// Prints the canonical text of an expression, and a line feed.
///
/// # Errors
///
/// `Memory` alone: each refusal is a reply.
#[inline(never)]
pub fn print<L: Ledger>(alloc: Global, file: &[u8], steps: &mut Steps<L>) -> Result<Reply, NoReply>
    ensures { IfOk result (λ r. Prints file.now (reply_of r)) }
{
    let mut store = SharedStore::new(alloc);
    answer_of(print_on(alloc, &mut store, file, steps))
}

// `gen N`: make a model and a strategy, prove it, and check the term that this makes.
ghost use Rattle.std.specs.Prelude.{◌≡◌, ◌≤◌, IfOk};
ghost use Rattle.dlk_library.specs.Generated.{generated_model, generated_strategy};
ghost use Rattle.dlk_jobs_prove.specs.Generates.{Generates};
ghost use Rattle.dlk_replies.specs.Shown.{reply_of};

use crate::prove::prove;
use dlk_jobs_check::check::check;
use dlk_library::{GenFault, generate};
use dlk_replies::{NoReply, Reply, Showing};
use dlk_store::Steps;
use std::alloc::Global;
use std::sync::ledger::Ledger;

/// A model of so many assignments, and a strategy that proves it.
fn texts(alloc: Global, count: u32) -> Result<(Vec<u8>, Vec<u8>), NoReply>
    requires first { 1 ≤ count }
    requires last { count ≤ 500 }
    ensures model { IfOk result (λ made. made.0.items ≡ generated_model count) }
    ensures strategy { IfOk result (λ made. made.1.items ≡ generated_strategy count) }
{
    match generate(alloc, count) {
        Ok(made) => Ok(made),
        Err(GenFault::Memory) => Err(NoReply::Memory),
    }
}

/// Proves a model of so many assignments, and checks the term that this makes, from its bytes.
///
/// # Errors
///
/// `Memory` alone: each refusal is a reply.
#[inline(never)]
pub fn generated<L: Ledger>(
    alloc: Global,
    count: u32,
    steps: &mut Steps<L>,
) -> Result<Reply, NoReply>
    requires first { 1 ≤ count }
    requires last { count ≤ 500 }
    ensures { IfOk result (λ r. Generates count (reply_of r)) }
{
    let (model, strategy) = texts(alloc, count)?;
    let proved = prove(alloc, &model, &strategy, steps)?;
    match &proved.written {
        Some(term) => check(alloc, Showing::Summed(count), &model, term, steps),
        None => Ok(proved),
    }
}

// `link MODEL TERM LEMMA OUT`: prove goals of a term by a lemma, write the term that this makes, and report.
ghost use Rattle.std.specs.Prelude.{◌≡◌, [], IfOk, IfErr};
ghost use Rattle.dlk_jobs_terms.specs.Links.{Links};
ghost use Rattle.dlk_jobs_terms.specs.Refused.{IsLinkRefused};
ghost use Rattle.dlk_replies.specs.Ended.{EndsIn};
ghost use Rattle.dlk_replies.specs.Shown.{reply_of};

use crate::taken::{Lemma, record_taken, taken_for, taken_lemma};
use dlk_jobs_check::term::read_model;
use dlk_kernel::Kernel;
use dlk_link::LinkFault;
use dlk_replay::accepted_says_steps;
use dlk_replies::{Ended, NoReply, Reply, answer_of, end_by, refused};
use dlk_rules::step_stays;
use dlk_shared::SharedStore;
use dlk_store::{Steps, Store};
use std::alloc::Global;
use std::sync::ledger::Ledger;

/// The answer to a lemma that isn't linked into a term.
fn refuse_link(alloc: Global, fault: LinkFault) -> Result<Reply, NoReply>
    ensures { IfOk result (λ r. IsLinkRefused fault (reply_of r)) }
{
    match fault {
        LinkFault::NoGoal => refused(alloc, "no-goal"),
        LinkFault::Step(why) => {
            let word = why.word();
            let why = format!(in alloc; "link: {word}")?;
            refused(alloc, why.as_str())
        }
        LinkFault::Memory => Err(NoReply::Memory),
    }
}

/// Links a lemma into a term on a kernel without rows.
fn link_on<S: Store, L: Ledger>(
    alloc: Global,
    kernel: &mut Kernel<S>,
    model: &[u8],
    term: &[u8],
    lemma: &[u8],
    steps: &mut Steps<L>,
) -> Result<Reply, Ended>
    requires { kernel.old.rows ≡ [] }
    ensures reply { IfOk result (λ r. Links model.now term.now lemma.now (reply_of r)) }
    ensures ended { IfErr result (EndsIn (Links model.now term.now lemma.now)) }
{
    accepted_says_steps();
    step_stays();
    let formula = read_model(alloc, model, kernel)?;
    // The lemma comes before the term, whose rows stay. Yet what is against the term is answered before what is against the lemma.
    let lemma = taken_lemma(alloc, lemma, kernel, steps);
    let main = taken_for(alloc, formula, term, kernel, steps)?;
    let by = lemma?;
    let Lemma {
        steps: others,
        concludes,
    } = by;
    let linked = match dlk_link::link(alloc, main, others, &concludes, kernel, steps) {
        Ok(linked) => linked,
        Err(fault) => return Err(end_by(refuse_link(alloc, fault))),
    };
    record_taken(alloc, kernel, &linked, steps)
}

/// Proves the goals of a term that a lemma concludes by that lemma. The reply has the report, and the text of the term to be written.
///
/// # Errors
///
/// `Memory` alone: each refusal is a reply.
#[inline(never)]
pub fn link<L: Ledger>(
    alloc: Global,
    model: &[u8],
    term: &[u8],
    lemma: &[u8],
    steps: &mut Steps<L>,
) -> Result<Reply, NoReply>
    ensures { IfOk result (λ r. Links model.now term.now lemma.now (reply_of r)) }
{
    let mut kernel = Kernel::new(alloc, SharedStore::new(alloc));
    answer_of(link_on(alloc, &mut kernel, model, term, lemma, steps))
}

// What is said of a strategy that isn't done.
ghost use Rattle.std.specs.Prelude.{◌≡◌, IfOk, string_bytes};
ghost use Rattle.dlk_jobs_record.specs.Fates.{fail_text, fails_text, budget_text};

use dlk_elab::FailWhy;
use dlk_replies::NoReply;
use std::alloc::Global;

/// The word for why a strategy fails.
fn fail_word(why: FailWhy) -> &'static str
    ensures { result.now ≡ fail_text why }
{
    match why {
        FailWhy::WrongCount => "WrongCount",
        FailWhy::UnknownName => "UnknownName",
        FailWhy::NoPlace => "NoPlace",
        FailWhy::NoMatch => "NoMatch",
        FailWhy::Step(reason) => reason.word(),
    }
}

/// The text for a strategy that fails at a byte.
pub fn fails_text(alloc: Global, at: usize, why: FailWhy) -> Result<String, NoReply>
    ensures { IfOk result (λ text. string_bytes text ≡ fails_text at why) }
{
    let word = fail_word(why);
    let text = format!(in alloc; "fails at {at}: {word}")?;
    Ok(text)
}

/// The text for a strategy whose next atom, at a byte, would be run past the budget.
pub fn budget_text(alloc: Global, at: usize) -> Result<String, NoReply>
    ensures { IfOk result (λ text. string_bytes text ≡ budget_text at) }
{
    let text = format!(in alloc; "budget at {at}")?;
    Ok(text)
}

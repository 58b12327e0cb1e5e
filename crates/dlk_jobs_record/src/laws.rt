//! The laws of what is answered by a command that writes a term.
ghost use Rattle.std.specs.Prelude.{◌≡◌, ◌≤◌, ℕ, List, [], length, All, Some};
ghost use Rattle.dlk_tree.specs.Trees.{Tree};
ghost use Rattle.dlk_calculus.specs.Provables.{Provable};
ghost use Rattle.dlk_calculus.specs.Steps.{Step};
ghost use Rattle.dlk_kernel.specs.Taken.{Takes};
ghost use Rattle.dlk_recorder.specs.Terms.{HasSymbols};
ghost use Rattle.dlk_replies.specs.declared.form.Role.TheVariants.{Term};
ghost use Rattle.dlk_replies.specs.declared.reply.Layout.TheVariants.{Text};
ghost use Rattle.dlk_replies.specs.declared.reply.Showing.TheVariants.{Reported};
ghost use Rattle.dlk_replies.specs.Forms.{limit_of};
ghost use Rattle.dlk_replies.specs.Replies.{Reply as TheReply, printing};
ghost use Rattle.dlk_jobs_check.specs.Terms.{ModelText, proves};
ghost use Rattle.dlk_jobs_check.specs.Checks.{Checks};
ghost use Rattle.dlk_jobs_record.specs.Records.{Records, IsLast, IsWritten, WritesUnlessRefused};

use dlk_recorder::recorded_is_accepted;

/// There is one answer to steps that show a provable. It writes a term, or it is a refusal.
/// The statement of the program's answers asks for it.
pub fn one_record()
    ensures one { (steps : List Step) (p : Provable) (one other : TheReply) → Records steps p one → Records steps p other → one ≡ other }
    ensures some { (steps : List Step) (p : Provable) → (reply : TheReply) × Records steps p reply }
    ensures whole { (steps : List Step) (p : Provable) (reply : TheReply) → Records steps p reply → WritesUnlessRefused reply }
{}

/// The term that is written of steps that are taken in turn, at least one, is no longer than a term may be, and is accepted with the rows that
/// they give, of which the last is reported.
pub fn recorded_is_written()
    ensures { (steps : List Step) (rows : List Provable) (p : Provable) (reply : TheReply) (term : List ℕ) → Takes [] steps rows → All HasSymbols steps →
        IsLast rows p → Records steps p reply → reply.written ≡ Some term → IsWritten term rows p reply }
{
    recorded_is_accepted();
}

/// Where a term is written that shows a model's formula, `check` answers the same to it: the same status, and the same report.
pub fn written_is_checked()
    ensures { (model term : List ℕ) (f : Tree) (rows : List Provable) (p : Provable) (reply : TheReply) → ModelText model f → p.conclusion ≡ proves f →
        IsWritten term rows p reply → (length term ≤ limit_of Term) × Checks (Reported Text) model term (printing reply.status reply.printed) }
{}

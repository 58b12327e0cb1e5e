//! The laws of what `print`, `vars` and `subst` answer. Each is a contract of a function that does nothing.
ghost use Rattle.std.specs.Prelude.{◌≡◌, ℕ, List};
ghost use Rattle.dlk_replies.specs.Replies.{Reply as TheReply};
ghost use Rattle.dlk_jobs_text.specs.Prints.{Prints};
ghost use Rattle.dlk_jobs_text.specs.Lists.{Lists};
ghost use Rattle.dlk_jobs_text.specs.Substitutes.{Substitutes};

/// There is one answer to the texts of each command.
pub fn one_text_reply()
    ensures prints { (file : List ℕ) (one other : TheReply) → Prints file one → Prints file other → one ≡ other }
    ensures lists { (file : List ℕ) (one other : TheReply) → Lists file one → Lists file other → one ≡ other }
    ensures substitutes { (file substitution : List ℕ) (one other : TheReply) → Substitutes file substitution one → Substitutes file substitution other →
        one ≡ other }
{}

/// There is some answer to the texts of each command.
pub fn some_text_reply()
    ensures prints { (file : List ℕ) → (reply : TheReply) × Prints file reply }
    ensures lists { (file : List ℕ) → (reply : TheReply) × Lists file reply }
    ensures substitutes { (file substitution : List ℕ) → (reply : TheReply) × Substitutes file substitution reply }
{}

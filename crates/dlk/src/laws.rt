//! The laws of the program's answers. Each is a contract of a function that does nothing but call the law below it.
ghost use Rattle.std.specs.Prelude.{◌≡◌, List, IsSome};
ghost use Rattle.dlk_desk.specs.Outside.{Files};
ghost use Rattle.dlk_replies.specs.Forms.{Word};
ghost use Rattle.dlk_replies.specs.Inputs.{inputs};
ghost use Rattle.dlk_replies.specs.Replies.{Reply as TheReply};
ghost use Rattle.dlk.specs.Answers.{bytes_of, Answers};

use dlk_answers::laws::{one_response, some_response};

/// There is one answer to words and files. The statement of the program's answers asks for it.
pub fn one_reply()
    ensures { (words : List Word) (files : Files) (one other : TheReply) → Answers words files one → Answers words files other → one ≡ other }
{
    one_response();
}

/// Where each input is there, something is answered to words and files.
/// The statement of the program's answers asks for it.
pub fn some_reply()
    ensures { (words : List Word) (files : Files) → IsSome (bytes_of files (inputs words)) → (reply : TheReply) × Answers words files reply }
{
    some_response();
}

// What the tests share: words and texts, and what is answered to them.

ghost use Rattle.std.specs.Prelude.{◌≡◌, ◌<◌};

use dlk_answers::{respond, words_refused};
use dlk_replies::{Command, NoReply, Reply};
use dlk_store::Steps;
use std::alloc::{AllocError, Global};
use std::marker::Brand;
use std::sync::ledger::{Blank, Ledger};

/// A closed proof of `x>=0 -> x>=0`.
pub const TERM: &str =
    "1 start ==> x>=0 -> x>=0\n2 apply 1 1 implyR(1)\n3 apply 2 1 close(1,1)\ndone\n";

/// The same proof in version 2.
pub const TERM_BY_NODES: &str =
    "dlk 2\nnode 1 var x\nnode 2 num 0\nnode 3 ge 1 2\nnode 4 imply 3 3\n1 start ==> 4\n2 apply 1 1 implyR(1)\n3 apply 2 1 close(1,1)\ndone\n";

/// What is reported of both.
pub const REPORT: &str = "closed\nconclusion ==> x>=0 -> x>=0\ngoals 0\nleaves 0\nlines 3\n";

/// `examples/increment/model`.
pub const INCREMENT_MODEL: &str = "x>=0 -> [x:=x+1;]x>=1\n";

/// `examples/increment/term`.
pub const INCREMENT_TERM: &str =
    "1 start ==> x>=0 -> [x:=x+1;]x>=1\n2 apply 1 1 implyR(1)\n3 axiom assignb\n4 rename 3 x_ x\n5 subst 4 f()~>x+1,p(._0)~>._0>=1\n6 rule CE\n7 subst 6 p(||)~>[x:=x+1;]x>=1,q(||)~>x+1>=1,C{_}~>_\n8 merge 7 1 5\n9 apply 2 1 cutR(1,x+1>=1)\n10 apply 9 2 coHideR(1)\n11 apply 10 2 equivifyR(1)\n12 apply 11 2 commuteEquivR(1)\n13 merge 12 2 8\n14 leaf x>=0 ==> x+1>=1\n15 merge 13 1 14\ndone\n";

/// The same proof in version 2.
pub const INCREMENT_BY_NODES: &str =
    "dlk 2\nnode 1 var x\nnode 2 num 0\nnode 3 ge 1 2\nnode 4 num 1\nnode 5 add 1 4\nnode 6 assign x 5\nnode 7 ge 1 4\nnode 8 box 6 7\nnode 9 imply 3 8\n1 start ==> 9\n2 apply 1 1 implyR(1)\n3 axiom assignb\n4 rename 3 x_ x\nnode 10 dot 0\nnode 11 ge 10 4\n5 subst 4 f()~>5,p(._0)~>11\n6 rule CE\nnode 12 ge 5 4\nnode 13 hole\n7 subst 6 p(||)~>8,q(||)~>12,C{_}~>13\n8 merge 7 1 5\n9 apply 2 1 cutR(1,#12)\n10 apply 9 2 coHideR(1)\n11 apply 10 2 equivifyR(1)\n12 apply 11 2 commuteEquivR(1)\n13 merge 12 2 8\n14 leaf 3 ==> 12\n15 merge 13 1 14\ndone\n";

/// What is reported of both.
pub const INCREMENT_REPORT: &str =
    "closed\nconclusion ==> x>=0 -> [x:=x+1;]x>=1\ngoals 0\nleaves 1\nleaf 1 x>=0 ==> x+1>=1\nlines 15\n";

/// Words of the command line.
pub fn words_of(alloc: Global, texts: &[&str]) -> Result<Vec<String>, AllocError> {
    let mut words = Vec::new(alloc);
    for text in texts {
        words.push(String::from_str(alloc, text)?)?;
    }
    Ok(words)
}

/// The answer to words and to the texts of their inputs.
fn respond_to<L: Ledger>(
    alloc: Global,
    words: &[String],
    inputs: &[Vec<u8>],
    blank: Blank,
) -> Result<Reply, NoReply>
    requires name { blank.name ≡ L.name }
    requires parts { blank.parts ≡ L.parts }
    requires some { 0 < blank.parts }
{
    let Some(command) = Command::parse(words) else {
        return words_refused(alloc);
    };
    if inputs.len() != command.form().inputs.len() {
        return words_refused(alloc);
    }
    let mut steps = Steps::<L>::new(blank);
    respond(alloc, command, words, inputs, &mut steps)
}

/// The exit status of the answer to words and to the texts of their inputs, and the answer.
pub fn replied(alloc: Global, words: &[&str], texts: &[&[u8]]) -> Result<(u8, Reply), NoReply> {
    let words = words_of(alloc, words)?;
    let mut inputs = Vec::new(alloc);
    for text in texts {
        inputs.push(text.to_vec(alloc)?)?;
    }
    let reply = respond_to::<Brand>(alloc, &words, &inputs, Blank::new(1))?;
    Ok((reply.status.code(), reply))
}

/// What a command on one file answers to the file's bytes.
pub fn answered(alloc: Global, verb: &str, file: &[u8]) -> Result<(u8, Reply), NoReply> {
    replied(alloc, &[verb, "m"], &[file])
}

/// What `check` answers to the bytes of a model and of a term.
pub fn checked(alloc: Global, model: &[u8], term: &[u8]) -> Result<(u8, Reply), NoReply> {
    replied(alloc, &["check", "model", "term"], &[model, term])
}

/// The lines of the term that `prove` writes, and none where it writes nothing.
pub fn proof(alloc: Global, model: &str, strategy: &str) -> Result<Vec<u8>, NoReply> {
    let words = ["prove", "model", "strategy", "term"];
    let texts = [model.as_bytes(), strategy.as_bytes()];
    let (_, reply) = replied(alloc, &words, &texts)?;
    Ok(reply.written.unwrap_or(Vec::new(alloc)))
}

/// A text so many times.
pub fn repeated(alloc: Global, text: &str, count: usize) -> Result<Vec<u8>, AllocError> {
    let mut bytes = Vec::new(alloc);
    for _ in 0..count {
        bytes.extend_from_slice(text.as_bytes())?;
    }
    Ok(bytes)
}

/// Three texts one after another.
pub fn joined(
    alloc: Global,
    front: &[u8],
    middle: &[u8],
    back: &[u8],
) -> Result<Vec<u8>, AllocError> {
    let mut bytes = front.to_vec(alloc)?;
    bytes.extend_from_slice(middle)?;
    bytes.extend_from_slice(back)?;
    Ok(bytes)
}

/// So many bytes, which begin with these and go on with spaces.
pub fn padded(alloc: Global, text: &str, length: usize) -> Result<Vec<u8>, AllocError> {
    let mut bytes = text.as_bytes().to_vec(alloc)?;
    for _ in text.len()..length {
        bytes.push(b' ')?;
    }
    Ok(bytes)
}

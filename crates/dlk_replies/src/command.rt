// The commands, and what their words name.
ghost use Rattle.std.specs.Prelude.{◌≡◌, [], length, map, string_bytes, None, Some, IsTrue, option_copied};
ghost use Rattle.dlk_replies.specs.Forms.{form_of, inputs_of, others_of, output_of, ends_in, command_of};
ghost use Rattle.dlk_replies.specs.Shown.{form_shown};

use crate::form::{Form, LastWord, Role};

/// What a command does.
#[derive(Clone, Copy, Debug, PartialEq, Eq)]
pub enum Command {
    /// Replays a term, and prints the report.
    Check,
    /// Prints an expression's canonical text.
    Print,
    /// Prints an expression's free, bound and must-bound variables, and its symbols.
    Vars,
    /// Applies a substitution to an expression, and prints the result.
    Subst,
    /// Replays a term, and prints the report as JSON.
    Report,
    /// Replays a term, and prints its leaves as SMT-LIB text.
    Smt,
    /// Replays a term, and prints whether its lines are guarded, and the report.
    Guard,
    /// Runs a strategy on a model, writes the term that it makes, and prints the report.
    Prove,
    /// Makes a model of so many assignments and a strategy, proves it, checks the term that this makes, and prints a summary.
    Gen,
    /// Replays a term, and writes it anew in the newest version.
    Convert,
    /// Proves goals of a term by a lemma, writes the term that this makes, and prints the report.
    Link,
    /// Leaves out the lines of a term that its last doesn't need, writes what is left, and prints the report.
    Trim,
    /// Carries out the lines of a script on a model, writes the term that they save, and prints a reply to each.
    Session,
}

const COMMANDS: [Command; 13] = [
    Command::Check,
    Command::Print,
    Command::Vars,
    Command::Subst,
    Command::Report,
    Command::Smt,
    Command::Guard,
    Command::Prove,
    Command::Gen,
    Command::Convert,
    Command::Link,
    Command::Trim,
    Command::Session,
];

/// The form of a command that ends with its inputs.
fn reading(verb: &'static str, inputs: &'static [Role]) -> Form
    ensures { form_shown result ≡ record { verb = verb.now; inputs = inputs.now; last = None } }
{
    Form {
        verb,
        inputs,
        last: None,
    }
}

/// The form of a command that ends with the file that it writes.
fn writing(verb: &'static str, inputs: &'static [Role]) -> Form
    ensures { form_shown result ≡ record { verb = verb.now; inputs = inputs.now; last = Some LastWord.Output } }
{
    Form {
        verb,
        inputs,
        last: Some(LastWord::Output),
    }
}

/// The form of a command without inputs that ends with a number.
fn counting(verb: &'static str) -> Form
    ensures { form_shown result ≡ record { verb = verb.now; inputs = []; last = Some LastWord.Number } }
{
    Form {
        verb,
        inputs: &[],
        last: Some(LastWord::Number),
    }
}

impl Command {
    /// The form of its words.
    pub fn form(self) -> Form
        ensures { form_shown result ≡ form_of self }
    {
        match self {
            Command::Check => reading("check", &[Role::Model, Role::Term]),
            Command::Print => reading("print", &[Role::File]),
            Command::Vars => reading("vars", &[Role::File]),
            Command::Subst => reading("subst", &[Role::File, Role::Substitution]),
            Command::Report => reading("report", &[Role::Model, Role::Term]),
            Command::Smt => reading("smt", &[Role::Model, Role::Term]),
            Command::Guard => reading("guard", &[Role::Model, Role::Term]),
            Command::Prove => writing("prove", &[Role::Model, Role::Strategy]),
            Command::Gen => counting("gen"),
            Command::Convert => writing("convert", &[Role::Term]),
            Command::Link => writing("link", &[Role::Model, Role::Term, Role::Lemma]),
            Command::Trim => writing("trim", &[Role::Model, Role::Term]),
            Command::Session => writing("session", &[Role::Model, Role::Script]),
        }
    }

    /// The command of these words, if they have one of the forms.
    pub fn parse(words: &[String]) -> Option<Command>
        ensures { result ≡ command_of (map string_bytes words.now) }
    {
        COMMANDS
            .iter()
            .copied()
            .find(|command| command.form().fits(words))
    }

    /// The names of the inputs, which follow the verb.
    pub fn inputs(self, words: &[String]) -> &[String]
        requires { command_of (map string_bytes words.now) ≡ Some self }
        ensures names { map string_bytes result.now ≡ inputs_of self (map string_bytes words.now) }
        ensures count { length result.now ≡ length (form_of self).inputs }
    {
        let count = self.form().inputs.len();
        &words[1..1 + count]
    }

    /// The words behind the inputs.
    pub fn others(self, words: &[String]) -> &[String]
        requires { command_of (map string_bytes words.now) ≡ Some self }
        ensures words { map string_bytes result.now ≡ others_of self (map string_bytes words.now) }
        ensures fits { IsTrue (ends_in (form_of self).last (map string_bytes result.now)) }
    {
        let count = self.form().inputs.len();
        &words[1 + count..]
    }

    /// The name of the file that is written, if the form has one.
    pub fn output(self, words: &[String]) -> Option<&str>
        requires { command_of (map string_bytes words.now) ≡ Some self }
        ensures { option_copied result ≡ output_of self (map string_bytes words.now) }
    {
        match (self.form().last, self.others(words)) {
            (Some(LastWord::Output), [name, ..]) => Some(name.as_str()),
            _ => None,
        }
    }
}

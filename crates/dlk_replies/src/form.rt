// The usages of the command line: a verb, a word for each input, and then at most one word of another kind.
ghost use Rattle.std.specs.Prelude.{◌≡◌, ◌<◌, ◌≤◌, ◌-◌, ◌^◌, map, string_bytes, IsTrue};
ghost use Rattle.dlk_tree.specs.Names.{is_between};
ghost use Rattle.dlk_grammar.specs.Tokens.{is_digit, value};
ghost use Rattle.dlk_replies.specs.Forms.{word_of, limit_of, is_count, is_last, ends_in, has_form};
ghost use Rattle.dlk_replies.specs.Shown.{form_shown};

/// What a word after the verb names that is an input.
#[derive(Clone, Copy, Debug, PartialEq, Eq)]
pub enum Role {
    /// A file of one formula.
    Model,
    /// A file of a proof term.
    Term,
    /// A file of one formula, program or term.
    File,
    /// A file of a substitution's pairs.
    Substitution,
    /// A file of a strategy.
    Strategy,
    /// A file of a proof term that proves goals of another.
    Lemma,
    /// A file of a session's lines.
    Script,
}

impl Role {
    /// The word for it in a refusal.
    pub fn word(self) -> &'static str
        ensures { result.now ≡ word_of self }
    {
        match self {
            Role::Model => "model",
            Role::Term => "term",
            Role::File => "file",
            Role::Substitution => "subst",
            Role::Strategy => "strategy",
            Role::Lemma => "lemma",
            Role::Script => "script",
        }
    }

    /// The greatest length of the file, in bytes.
    pub fn limit(self) -> usize
        ensures limit { result ≡ limit_of self }
        ensures small { result < 2 ^ 32 }
    {
        match self {
            Role::Model => 1_048_576,
            Role::Term | Role::Lemma => 67_108_864,
            Role::File | Role::Substitution | Role::Strategy | Role::Script => 1_048_576,
        }
    }
}

/// What the word behind the inputs is.
#[derive(Clone, Copy, Debug, PartialEq, Eq)]
pub enum LastWord {
    /// The file that is written.
    Output,
    /// A number from 1 to 500 without leading zeros.
    Number,
}

/// Whether the word is a number from 1 to 500 without leading zeros.
fn is_count(word: &str) -> bool
    ensures { result ≡ is_count word.now }
{
    match word.as_bytes() {
        [first] => is_between(b'1', b'9', *first),
        [first, second] => is_between(b'1', b'9', *first) && is_digit(*second),
        [first, second, third] => {
            is_between(b'1', b'4', *first) && is_digit(*second) && is_digit(*third) || word == "500"
        }
        _ => false,
    }
}

/// The number that a word writes which is one from 1 to 500.
pub fn count_of(word: &str) -> u32
    requires { IsTrue (is_count word.now) }
    ensures count { result ≡ value word.now }
    ensures first { 1 ≤ result }
    ensures last { result ≤ 500 }
{
    match word.as_bytes() {
        [first] => digit(*first),
        [first, second] => 10 * digit(*first) + digit(*second),
        [first, second, third] => 10 * (10 * digit(*first) + digit(*second)) + digit(*third),
        _ => unreachable!(),
    }
}

/// What a digit counts.
fn digit(byte: u8) -> u32
    requires { IsTrue (is_digit byte) }
    ensures count { result ≡ byte - 48 }
    ensures few { result ≤ 9 }
{
    byte as u32 - 48
}

fn is_between(low: u8, high: u8, byte: u8) -> bool
    ensures { result ≡ is_between low high byte }
{
    low <= byte && byte <= high
}

fn is_digit(byte: u8) -> bool
    ensures { result ≡ is_digit byte }
{
    is_between(b'0', b'9', byte)
}

impl LastWord {
    /// Whether the word is one.
    fn fits(self, word: &str) -> bool
        ensures { result ≡ is_last self word.now }
    {
        match self {
            LastWord::Output => true,
            LastWord::Number => is_count(word),
        }
    }
}

/// The form of a command's words: a verb, a word for each input, and then at most one word of another kind.
#[derive(Clone, Copy, Debug, PartialEq, Eq)]
pub struct Form {
    pub verb: &'static str,
    /// What the words behind the verb name, in their order.
    pub inputs: &'static [Role],
    /// What the word behind those is, if there is one.
    pub last: Option<LastWord>,
}

/// Whether these words may stand behind the inputs.
fn ends_in(last: Option<LastWord>, words: &[String]) -> bool
    ensures { result ≡ ends_in last (map string_bytes words.now) }
{
    match (last, words) {
        (None, []) => true,
        (Some(last), [word]) => last.fits(word),
        _ => false,
    }
}

impl Form {
    /// Whether the words have it.
    pub fn fits(&self, words: &[String]) -> bool
        ensures { result ≡ has_form (map string_bytes words.now) (form_shown self.now) }
    {
        let [verb, rest @ ..] = words else {
            return false;
        };
        if verb.as_str() != self.verb {
            return false;
        }
        let count = self.inputs.len();
        if rest.len() < count {
            return false;
        }
        ends_in(self.last, &rest[count..])
    }
}

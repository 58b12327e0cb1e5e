//! What has been read of a text, byte by byte.
ghost use Rattle.std.specs.Prelude.{◌≡◌, ◌≤◌, ◌∷◌, [], IsTrue, false, length, OnOk, OnErr, Some, None, Err};
ghost use Rattle.std.specs.List.{list_all};
ghost use Rattle.dlk_grammar.specs.Tokens.{is_digit};
ghost use Rattle.dlk_scripts.specs.declared.part.PartKind.TheVariants as kind;
ghost use Rattle.dlk_scripts.specs.declared.state.Within.TheVariants.{Between, Name as AName, Number as ANumber, Quoted as AString, Quote, Less, Slash};
ghost use Rattle.dlk_scripts.specs.declared.state.Within.TheVariants.{Comment, CommentStar};
ghost use Rattle.dlk_scripts.specs.Table.{when, changed};
ghost use Rattle.dlk_scripts.specs.Steps.{first_state, mark_of, takes_mark, take, begins, grows, moves, digits_go_on, start, ends_name, ends_number, settle};
ghost use Rattle.dlk_scripts.specs.Steps.{step_in, step, as_word, begun_by, settled_by, ended, ended_by, Does, HasDigits};
ghost use Rattle.dlk_scripts.specs.declared.state.ByteFault.TheVariants.{Memory, Syntax};

use crate::bytes::{is_digit, is_space, mark, number};
use crate::listed::Listed;
use crate::mode::{Change, Mode, Openings};
use crate::part::{Part, PartKind, Quoted};
use crate::table::{
    is_whole, leads, wants_argument, wants_first, wants_fork, wants_name, wants_number,
};
use dlk_tree::{Name, NameFault, is_letter, is_name_byte};
use std::alloc::{AllocError, AllocFailed, Global};

/// How many digits a number has at most.
const MOST_DIGITS: usize = 9;

/// What the bytes behind the last whole part are.
#[derive(Clone, Copy)]
pub(crate) enum Within {
    /// White space and whole comments.
    Between,
    /// A slash.
    Slash,
    /// A comment.
    Comment,
    /// A comment whose last byte is a star.
    CommentStar,
    Name,
    Number,
    /// A string without its last quote.
    Quoted,
    /// The `<` of `<(`.
    Less,
    /// The quote of `'L` or `'R`.
    Quote,
}

/// What has been read.
#[derive(Drop)]
pub(crate) struct State {
    pub(crate) mode: Mode,
    pub(crate) opens: Openings,
    pub(crate) parts: Listed<Part>,
    pub(crate) within: Within,
    /// The place of the part that isn't whole.
    pub(crate) begin: usize,
    /// The bytes of a name, a number or a string so far.
    pub(crate) buffer: Listed<u8>,
}

/// Why a byte was not read.
#[derive(Clone, Copy)]
pub(crate) enum ByteFault {
    Memory,
    /// No text of the grammar goes on with it.
    Syntax,
}

impl From<AllocError> for ByteFault {
    ghost from_gives = { λ _ e. e ≡ Memory };

    fn from(_: AllocError) -> ByteFault {
        ByteFault::Memory
    }
}

impl<T: Drop> From<AllocFailed<T>> for ByteFault {
    ghost from_gives = { λ _ e. e ≡ Memory };

    fn from(_: AllocFailed<T>) -> ByteFault {
        ByteFault::Memory
    }
}

/// Whether a number may go on with these digits.
fn digits_go_on(mode: Mode, digits: &[u8]) -> bool
    requires { IsTrue (list_all is_digit digits.now) }
    ensures { result ≡ digits_go_on mode digits.now }
{
    digits.len() <= MOST_DIGITS
        && (!wants_first(mode) || digits.len() < MOST_DIGITS || number(digits) >= 1)
}

impl State {
    /// Nothing has been read.
    pub(crate) fn new(alloc: Global) -> Self
        ensures { result ≡ first_state }
    {
        State {
            mode: Mode::Wants,
            opens: Openings::new(alloc),
            parts: Listed::new(alloc),
            within: Within::Between,
            begin: 0,
            buffer: Listed::new(alloc),
        }
    }

    fn change(&mut self, change: Change) -> Result<(), AllocError>
        ensures { OnOk result (self.new ≡ record self.old { opens = changed change self.old.opens }) }
    {
        match change {
            Change::Keep => {}
            Change::Open(opening) => self.opens.push(opening)?,
            Change::Close => self.opens.pop(),
        }
        Ok(())
    }

    /// The part at this place has come.
    fn take(&mut self, kind: PartKind, at: usize) -> Result<(), ByteFault>
        ensures done { Does (take self.old kind at) result self.new }
        ensures owed { take self.old kind at ≡ None → result ≡ Err Syntax }
    {
        let Some(turn) = leads(self.mode, self.opens.top(), &kind) else {
            return Err(ByteFault::Syntax);
        };
        self.change(turn.change)?;
        self.parts.push(Part { kind, at })?;
        self.mode = turn.mode;
        self.within = Within::Between;
        Ok(())
    }

    /// Only what is within changes.
    fn moves(&mut self, within: Within) -> Result<(), ByteFault>
        ensures { Does (Some (moves self.old within)) result self.new }
    {
        self.within = within;
        Ok(())
    }

    fn grows(&mut self, byte: u8) -> Result<(), ByteFault>
        ensures { Does (Some (grows self.old byte)) result self.new }
    {
        self.buffer.push(byte)?;
        Ok(())
    }

    /// A part of several bytes begins here without bytes, where it may.
    fn begins(
        &mut self,
        alloc: Global,
        may: bool,
        within: Within,
        at: usize,
    ) -> Result<(), ByteFault>
        ensures done { Does (when may (Some (begins self.old within at []))) result self.new }
        ensures owed { may ≡ false → result ≡ Err Syntax }
    {
        if !may {
            return Err(ByteFault::Syntax);
        }
        self.within = within;
        self.begin = at;
        self.buffer = Listed::new(alloc);
        Ok(())
    }

    /// A part of several bytes begins here with its first byte, where it may.
    fn begins_with(
        &mut self,
        alloc: Global,
        may: bool,
        within: Within,
        at: usize,
        byte: u8,
    ) -> Result<(), ByteFault>
        ensures done { Does (when may (Some (begins self.old within at (byte ∷ [])))) result self.new }
        ensures owed { may ≡ false → result ≡ Err Syntax }
    {
        self.begins(alloc, may, within, at)?;
        self.grows(byte)
    }

    /// A part of one byte.
    fn one_byte(&mut self, at: usize, byte: u8) -> Result<(), ByteFault>
        ensures done { Does (takes_mark self.old at (mark_of byte)) result self.new }
        ensures owed { takes_mark self.old at (mark_of byte) ≡ None → result ≡ Err Syntax }
    {
        match mark(byte) {
            Some(kind) => self.take(kind, at),
            None => Err(ByteFault::Syntax),
        }
    }

    /// A byte between parts.
    fn start(&mut self, alloc: Global, at: usize, byte: u8) -> Result<(), ByteFault>
        ensures done { Does (start self.old at byte) result self.new }
        ensures owed { start self.old at byte ≡ None → result ≡ Err Syntax }
    {
        if is_space(byte) {
            return Ok(());
        }
        if byte == b'/' {
            return self.moves(Within::Slash);
        }
        if is_letter(byte) {
            return self.begins_with(alloc, wants_name(self.mode), Within::Name, at, byte);
        }
        if is_digit(byte) {
            return self.begins_with(alloc, wants_number(self.mode), Within::Number, at, byte);
        }
        if byte == b'"' {
            return self.begins(alloc, wants_argument(self.mode), Within::Quoted, at);
        }
        if byte == b'\'' {
            return self.begins(alloc, wants_argument(self.mode), Within::Quote, at);
        }
        if byte == b'<' {
            return self.begins(alloc, wants_fork(self.mode), Within::Less, at);
        }
        self.one_byte(at, byte)
    }

    /// A name ends.
    fn ends_name(&mut self, alloc: Global) -> Result<(), ByteFault>
        ensures done { Does (ends_name self.old) result self.new }
        ensures owed { as_word self.old ≡ None → result ≡ Err Syntax }
    {
        match Name::new(alloc, self.buffer.as_slice()) {
            Ok(name) => self.take(PartKind::Name(name), self.begin),
            Err(NameFault::NotAName) => Err(ByteFault::Syntax),
            Err(NameFault::Memory) => Err(ByteFault::Memory),
        }
    }

    /// A number ends.
    fn ends_number(&mut self) -> Result<(), ByteFault>
        requires few { length self.old.buffer ≤ 9 }
        requires digits { IsTrue (list_all is_digit self.old.buffer) }
        ensures done { Does (ends_number self.old) result self.new }
        ensures owed { ends_number self.old ≡ None → result ≡ Err Syntax }
    {
        let value = number(self.buffer.as_slice());
        self.take(PartKind::Number(value), self.begin)
    }

    /// A string ends.
    fn ends_string(&mut self, alloc: Global) -> Result<(), ByteFault>
        ensures { Does (take self.old (kind.Quoted self.old.buffer) self.old.begin) result self.new }
    {
        let bytes = self.buffer.as_slice().to_vec(alloc)?;
        self.take(PartKind::Quoted(Quoted::new(bytes)), self.begin)
    }

    /// A byte behind bytes of a name.
    fn name(&mut self, alloc: Global, at: usize, byte: u8) -> Result<(), ByteFault>
        ensures done { Does (step_in AName self.old at byte) result self.new }
        ensures owed { begun_by AName self.old at byte ≡ None → result ≡ Err Syntax }
    {
        if is_name_byte(byte) {
            return self.grows(byte);
        }
        self.ends_name(alloc)?;
        self.start(alloc, at, byte)
    }

    /// A byte behind digits of a number.
    fn number(&mut self, alloc: Global, at: usize, byte: u8) -> Result<(), ByteFault>
        requires few { length self.old.buffer ≤ 9 }
        requires digits { IsTrue (list_all is_digit self.old.buffer) }
        ensures done { Does (step_in ANumber self.old at byte) result self.new }
        ensures owed { begun_by ANumber self.old at byte ≡ None → result ≡ Err Syntax }
    {
        if !is_digit(byte) {
            self.ends_number()?;
            return self.start(alloc, at, byte);
        }
        self.grows(byte)?;
        if digits_go_on(self.mode, self.buffer.as_slice()) {
            Ok(())
        } else {
            Err(ByteFault::Syntax)
        }
    }

    /// A byte of a string.
    fn string(&mut self, alloc: Global, byte: u8) -> Result<(), ByteFault>
        ensures { Does (step_in AString self.old 0 byte) result self.new }
    {
        if byte == b'"' {
            return self.ends_string(alloc);
        }
        self.grows(byte)
    }

    /// The byte behind `'`.
    fn side(&mut self, byte: u8) -> Result<(), ByteFault>
        ensures done { Does (step_in Quote self.old 0 byte) result self.new }
        ensures owed { step_in Quote self.old 0 byte ≡ None → result ≡ Err Syntax }
    {
        if byte == b'L' {
            return self.take(PartKind::AnyLeft, self.begin);
        }
        if byte == b'R' {
            return self.take(PartKind::AnyRight, self.begin);
        }
        Err(ByteFault::Syntax)
    }

    /// The byte behind `<`.
    fn fork(&mut self, byte: u8) -> Result<(), ByteFault>
        ensures done { Does (step_in Less self.old 0 byte) result self.new }
        ensures owed { step_in Less self.old 0 byte ≡ None → result ≡ Err Syntax }
    {
        if byte != b'(' {
            return Err(ByteFault::Syntax);
        }
        self.take(PartKind::Fork, self.begin)
    }

    /// The byte behind `/`.
    fn slash(&mut self, byte: u8) -> Result<(), ByteFault>
        ensures done { Does (step_in Slash self.old 0 byte) result self.new }
        ensures owed { step_in Slash self.old 0 byte ≡ None → result ≡ Err Syntax }
    {
        if byte == b'*' {
            return self.moves(Within::Comment);
        }
        Err(ByteFault::Syntax)
    }

    /// A byte of a comment.
    fn comment(&mut self, byte: u8) -> Result<(), ByteFault>
        ensures { Does (step_in Comment self.old 0 byte) result self.new }
    {
        if byte == b'*' {
            return self.moves(Within::CommentStar);
        }
        self.moves(Within::Comment)
    }

    /// A byte of a comment behind a star.
    fn comment_star(&mut self, byte: u8) -> Result<(), ByteFault>
        ensures { Does (step_in CommentStar self.old 0 byte) result self.new }
    {
        if byte == b'/' {
            return self.moves(Within::Between);
        }
        self.comment(byte)
    }

    /// The byte at this place comes.
    ///
    /// # Errors
    ///
    /// `Syntax` comes exactly where no text goes on with it, and `Memory` where memory ran out.
    pub(crate) fn step(&mut self, alloc: Global, at: usize, byte: u8) -> Result<(), ByteFault>
        requires { HasDigits self.old }
        ensures done { Does (step self.old at byte) result self.new }
        ensures owed { begun_by self.old.within self.old at byte ≡ None → result ≡ Err Syntax }
    {
        match self.within {
            Within::Between => self.start(alloc, at, byte),
            Within::Slash => self.slash(byte),
            Within::Comment => self.comment(byte),
            Within::CommentStar => self.comment_star(byte),
            Within::Name => self.name(alloc, at, byte),
            Within::Number => self.number(alloc, at, byte),
            Within::Quoted => self.string(alloc, byte),
            Within::Less => self.fork(byte),
            Within::Quote => self.side(byte),
        }
    }

    /// A name or a number that has come ends here.
    fn settle(&mut self, alloc: Global) -> Result<(), ByteFault>
        requires { HasDigits self.old }
        ensures done { Does (settle self.old) result self.new }
        ensures owed { settled_by self.old.within self.old ≡ None → result ≡ Err Syntax }
        ensures settled { self.old.within ≡ Between → OnErr result ⊥ }
    {
        match self.within {
            Within::Between => Ok(()),
            Within::Name => self.ends_name(alloc),
            Within::Number => self.ends_number(),
            Within::Slash
            | Within::Comment
            | Within::CommentStar
            | Within::Quoted
            | Within::Less
            | Within::Quote => Err(ByteFault::Syntax),
        }
    }

    /// The text ends.
    ///
    /// # Errors
    ///
    /// `Syntax` comes exactly where what was read is no whole text, and `Memory` where memory ran out.
    pub(crate) fn ended(&mut self, alloc: Global) -> Result<(), ByteFault>
        requires { HasDigits self.old }
        ensures done { Does (ended self.old) result self.new }
        ensures owed { ended_by self.old.within self.old ≡ None → result ≡ Err Syntax }
    {
        self.settle(alloc)?;
        if is_whole(self.mode) && self.opens.is_empty() {
            Ok(())
        } else {
            Err(ByteFault::Syntax)
        }
    }

    /// The parts that were read.
    pub(crate) fn into_parts(self) -> Vec<Part>
        ensures { result.items ≡ self.parts }
    {
        self.parts.into_vec()
    }
}

//! Tokens, taken one by one.
ghost use Rattle.std.specs.Prelude.{◌≡◌, List, [], Err, IfOk, IfErr, length};
ghost use Rattle.dlk_grammar.specs.declared.token.Token.{Token as TheToken};
ghost use Rattle.dlk_lex.specs.declared.source.Origin.{Origin as TheOrigin};
ghost use Rattle.dlk_lex.specs.declared.fault.LexFault.TheVariants.{Memory};
ghost use Rattle.dlk_lex.specs.Faults.{IsLexFaultOf};
ghost use Rattle.dlk_grammar.specs.Readings.{IsLong, OpensTooDeep};
ghost use Rattle.dlk_lex.specs.Noted.{FirstOf, AreNoted, starts_of};
ghost use Rattle.dlk_lex.specs.Taken.{IsOrigin, Refuses, WantsMemory, IsNext};
ghost use Rattle.dlk_lex.specs.Sources.{HasTaken, Takes, Finishes};

use crate::copies::copy;
use crate::fault::LexFault;
use crate::noted::Noted;
use crate::splitting::{first_token, is_end};
use dlk_grammar::Token;
use std::alloc::Global;

/// What tokens are taken from.
#[derive(Clone, Copy)]
pub enum Origin<'a> {
    /// Bytes, of which those before a place are behind.
    Bytes { bytes: &'a [u8], at: usize },
    /// The tokens of a text, with its end.
    Tokens(&'a [Token]),
}

impl Origin<'_> {
    /// Takes the next token. The end can be taken again.
    #[inline(always)]
    fn next(&mut self, alloc: Global) -> Result<Token, LexFault>
        requires { IsOrigin self.old }
        ensures next { IfOk result (λ t. IsNext self.old t self.new) }
        ensures bad { IfErr result (IsLexFaultOf (Refuses self.old)) }
        ensures memory { result ≡ Err Memory → WantsMemory self.old }
    {
        match self {
            Origin::Bytes { bytes, at } => {
                let token = first_token(alloc, bytes, *at)?;
                *at = token.end;
                Ok(token)
            }
            Origin::Tokens(tokens) => {
                let token = copy(&tokens[0])?;
                if is_end(&token.kind) {
                    return Ok(token);
                }
                *tokens = &tokens[1..];
                Ok(token)
            }
        }
    }
}

/// Tokens of a text, taken one by one, and what they have shown so far.
#[derive(Drop)]
pub struct Source<'a> {
    pub(crate) origin: Origin<'a>,
    pub(crate) noted: Noted,
}

impl Source<'_> {
    /// The tokens of an origin, of which none is taken.
    pub fn new(alloc: Global, origin: Origin<'_>) -> Source<'_>
        requires { IsOrigin origin }
        ensures origin { result.origin ≡ origin.entry }
        ensures fresh { HasTaken origin.entry [] result }
    {
        Source {
            origin,
            noted: Noted::new(alloc),
        }
    }

    /// How many tokens were taken.
    pub fn number(&self) -> usize
        ensures { (first : TheOrigin) (taken : List TheToken) → HasTaken first taken self.now → result ≡ length taken }
    {
        self.noted.starts.len()
    }

    /// Takes the next token. The end can be taken again, and is not counted.
    ///
    /// # Errors
    ///
    /// `BadByte` comes exactly where the split comes to a byte at which no token, space or whole comment begins, and `Memory`
    /// where memory runs out. Nothing is said of the source behind a fault.
    #[inline(always)]
    pub fn next(&mut self, alloc: Global) -> Result<Token, LexFault>
        requires { IsOrigin self.old.origin }
        ensures { (first : TheOrigin) (taken : List TheToken) → HasTaken first taken self.old → Takes first taken self.old result self.new }
    {
        let token = self.origin.next(alloc)?;
        if !is_end(&token.kind) {
            self.noted.note(&token)?;
        }
        Ok(token)
    }

    /// Takes all that is left, and the end, for what it shows.
    ///
    /// # Errors
    ///
    /// Those of `next`.
    #[inline(never)]
    pub fn finish(&mut self, alloc: Global) -> Result<(), LexFault>
        requires { IsOrigin self.old.origin }
        ensures { (first : TheOrigin) (taken : List TheToken) → HasTaken first taken self.old → Finishes first taken self.old result self.new }
    {
        loop {
            let token = self.origin.next(alloc)?;
            self.noted.note(&token)?;
            if is_end(&token.kind) {
                return Ok(());
            }
        }
    }

    /// The byte of the first literal of more than 38 digits.
    pub fn first_long(&self) -> Option<usize>
        ensures { (seen : List TheToken) → AreNoted seen self.now.noted → FirstOf IsLong seen result }
    {
        self.noted.long
    }

    /// The byte of the first bracket that opens level 1,201.
    pub fn first_deep(&self) -> Option<usize>
        ensures { (seen : List TheToken) → AreNoted seen self.now.noted → FirstOf OpensTooDeep seen result }
    {
        self.noted.levels.deep
    }

    /// The bytes at which the tokens begin.
    pub fn starts(&self) -> &[usize]
        ensures { (seen : List TheToken) → AreNoted seen self.now.noted → result.now ≡ starts_of seen }
    {
        self.noted.starts.as_slice()
    }
}

//! The reader of renames with pairs behind them.
ghost use Rattle.std.specs.Prelude.{◌≡◌, []};
ghost use Rattle.dlk_grammar.specs.Lexemes.{Swaps as SwapsLexeme};
ghost use Rattle.dlk_grammar.specs.Readings.{permits};
ghost use Rattle.dlk_grammar.specs.declared.token.Dots.TheVariants.{Allowed};
ghost use Rattle.dlk_machine.specs.Machine.{when};
ghost use Rattle.dlk_machine.specs.Pairs.{PairsState, Fresh};
ghost use Rattle.dlk_machine.specs.Extras.{ExtraState, InPairs as PairsWithin, NewWanted as NameWanted, Renamed as RenameEnds, extra_step, extra_ended};
ghost use Rattle.dlk_reader.specs.Outcomes.{leaving};
ghost use Rattle.dlk_reader.specs.Shows.{seen, Agrees};
ghost use Rattle.dlk_forms.specs.PairReaders.{Rests, ShowsPairsAt};
ghost use Rattle.dlk_forms.specs.ExtraReaders.{pairs_go_on, ShowsExtraAt, ShowsExtra, ExtraComes};
ghost use Rattle.dlk_forms.specs.Said.{IsCodeOfExtra};
ghost use Rattle.dlk_forms.specs.declared.extras.ExtraSoFar.{ExtraSoFar as TheReader};

use crate::dots::permits;
use crate::pair_heads::LeftMode;
use crate::pairs::{PairMode, PairsCode, PairsReader, PairsSoFar};
use dlk_grammar::Dots;
use dlk_reader::{Lexeme, LexemeFault, LexemeReader};
use dlk_tree::Name;
use std::alloc::Global;
use std::mem;

/// Where the reader stands.
#[derive(Drop)]
pub(crate) enum ExtraMode {
    /// In the pairs. Where the first of them may begin, a rename may, too.
    InPairs(Option<PairMode>),
    /// Behind a name and `~~`.
    NewWanted(Name),
    /// Behind a whole rename.
    Renamed,
}

/// What is read of renames and pairs.
#[derive(Drop)]
pub(crate) struct ExtraSoFar {
    /// The renames that are whole, in order.
    pub(crate) renames: Vec<(Name, Name)>,
    pub(crate) pairs: PairsSoFar,
}

/// Renames in order, and the pairs behind them.
#[derive(Drop)]
pub struct ExtraCode {
    /// The names, each with the one that it gets.
    pub renames: Vec<(Name, Name)>,
    /// The pairs.
    pub pairs: PairsCode,
}

/// A reader of renames and pairs, in which dots are allowed.
#[derive(Drop)]
pub(crate) struct ExtraReader {
    pub(crate) extra: ExtraSoFar,
    pub(crate) mode: ExtraMode,
}

/// A lexeme behind a whole rename.
fn rename_ends(lexeme: Lexeme) -> Result<ExtraMode, LexemeFault>
    ensures { (r : TheReader) → Rests r.pairs []
        → Agrees (ShowsExtraAt r) result (extra_step (RenameEnds r.renames.items) (seen lexeme)) }
{
    match lexeme {
        Lexeme::Comma => {
            let begins = PairMode::Left(LeftMode::Begins);
            Ok(ExtraMode::InPairs(Some(begins)))
        }
        _ => Err(LexemeFault::Syntax),
    }
}

impl ExtraSoFar {
    /// A lexeme of the pairs.
    fn pairs_step(
        &mut self,
        alloc: Global,
        mode: Option<PairMode>,
        lexeme: Lexeme,
    ) -> Result<ExtraMode, LexemeFault>
        ensures { (x : PairsState) → ShowsPairsAt self.old.pairs mode x
            → Agrees (ShowsExtraAt self.new) result (pairs_go_on self.old.renames.items x (seen lexeme)) }
    {
        let mode = self.pairs.step(alloc, mode, lexeme)?;
        Ok(ExtraMode::InPairs(Some(mode)))
    }

    /// The mark of a rename, which stands behind a name with which the first pair could begin.
    fn swap(&mut self, alloc: Global, mode: Option<PairMode>) -> Result<ExtraMode, LexemeFault>
        ensures { (x : PairsState) → ShowsPairsAt self.old.pairs mode x
            → Agrees (ShowsExtraAt self.new) result (extra_step (PairsWithin self.old.renames.items x) SwapsLexeme) }
    {
        match mode {
            Some(PairMode::Left(LeftMode::LeftName(name))) => {
                if self.pairs.symbols.is_empty() {
                    Ok(ExtraMode::NewWanted(name))
                } else {
                    Err(LexemeFault::Syntax)
                }
            }
            mode => self.pairs_step(alloc, mode, Lexeme::Swaps),
        }
    }

    /// A lexeme where the new name of a rename is wanted.
    fn rename(&mut self, name: Name, lexeme: Lexeme) -> Result<ExtraMode, LexemeFault>
        ensures { Rests self.old.pairs []
            → Agrees (ShowsExtraAt self.new) result (extra_step (NameWanted self.old.renames.items name) (seen lexeme)) }
    {
        match lexeme {
            Lexeme::Name(_, new) => {
                self.renames.push((name, new))?;
                Ok(ExtraMode::Renamed)
            }
            _ => Err(LexemeFault::Syntax),
        }
    }

    /// A lexeme where a rename or the first pair may begin, or in the pairs.
    fn item_step(
        &mut self,
        alloc: Global,
        mode: Option<PairMode>,
        lexeme: Lexeme,
    ) -> Result<ExtraMode, LexemeFault>
        ensures { (x : PairsState) → ShowsPairsAt self.old.pairs mode x
            → Agrees (ShowsExtraAt self.new) result (extra_step (PairsWithin self.old.renames.items x) (seen lexeme)) }
    {
        if let Lexeme::Swaps = lexeme {
            return self.swap(alloc, mode);
        }
        self.pairs_step(alloc, mode, lexeme)
    }

    /// What a lexeme makes of what was read.
    fn step(
        &mut self,
        alloc: Global,
        mode: ExtraMode,
        lexeme: Lexeme,
    ) -> Result<ExtraMode, LexemeFault>
        ensures { (x : ExtraState) → ShowsExtraAt self.old mode x
            → Agrees (ShowsExtraAt self.new) result (extra_step x (seen lexeme)) }
    {
        match mode {
            ExtraMode::InPairs(mode) => self.item_step(alloc, mode, lexeme),
            ExtraMode::NewWanted(name) => self.rename(name, lexeme),
            ExtraMode::Renamed => rename_ends(lexeme),
        }
    }

    /// The end of the pairs, or of the renames where there are none.
    fn pairs_end(self, mode: Option<PairMode>) -> Result<ExtraCode, LexemeFault>
        ensures { (x : PairsState) → ShowsPairsAt self.pairs mode x
            → Agrees IsCodeOfExtra result (extra_ended (PairsWithin self.renames.items x)) }
    {
        let ExtraSoFar { renames, pairs } = self;
        let pairs = pairs.end(mode)?;
        Ok(ExtraCode { renames, pairs })
    }

    /// The end of all.
    fn end(self, mode: ExtraMode) -> Result<ExtraCode, LexemeFault>
        ensures { (x : ExtraState) → ShowsExtraAt self mode x
            → Agrees IsCodeOfExtra result (extra_ended x) }
    {
        match mode {
            ExtraMode::InPairs(mode) => self.pairs_end(mode),
            ExtraMode::NewWanted(_) => Err(LexemeFault::Syntax),
            ExtraMode::Renamed => self.pairs_end(None),
        }
    }
}

impl ExtraReader {
    /// A reader where nothing was read.
    pub(crate) fn new(alloc: Global) -> ExtraReader
        ensures { ShowsExtra result (PairsWithin [] Fresh) }
    {
        let PairsReader { pairs, mode } = PairsReader::new(alloc);
        let renames = Vec::new(alloc);
        ExtraReader {
            extra: ExtraSoFar { renames, pairs },
            mode: ExtraMode::InPairs(mode),
        }
    }

    /// Goes on by one more lexeme.
    fn go_on(&mut self, alloc: Global, lexeme: Lexeme) -> Result<(), LexemeFault>
        ensures { (x : ExtraState) → ShowsExtra self.old x
            → Agrees ShowsExtra (leaving self.new result) (when (permits Allowed (seen lexeme)) (extra_step x (seen lexeme))) }
    {
        if !permits(Dots::Allowed, &lexeme) {
            return Err(LexemeFault::Syntax);
        }
        let mode = mem::replace(&mut self.mode, ExtraMode::Renamed);
        self.mode = self.extra.step(alloc, mode, lexeme)?;
        Ok(())
    }
}

impl LexemeReader for ExtraReader {
    type Output = ExtraCode;

    ghost comes = { ExtraComes };

    fn step(&mut self, alloc: Global, lexeme: Lexeme) -> Result<(), LexemeFault> {
        self.go_on(alloc, lexeme)
    }

    fn end(self) -> Result<ExtraCode, LexemeFault> {
        self.extra.end(self.mode)
    }
}

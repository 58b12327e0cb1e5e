//! Reads strategies part by part.
ghost use Rattle.std.specs.Prelude.{◌≡◌, ◌≢◌, List, ℕ, Option, None, Err, IfOk, IfErr};
ghost use Rattle.dlk_tree.specs.Trees.{Tree};
ghost use Rattle.dlk_scripts.specs.declared.part.PartKind.TheVariants as kind;
ghost use Rattle.dlk_tacsyn.specs.declared.fault.TacSyntax.TheVariants.{Memory, Syntax};
ghost use Rattle.dlk_tacsyn.specs.Faults.{Fault as TheFault, IsTacSyntaxOf};
ghost use Rattle.dlk_tacsyn.specs.Strategies.{Says, Fails};
ghost use Rattle.dlk_tacsyn.specs.Ties.{tactic_at, TacticIsKnown};
ghost use Rattle.dlk_tacsyn.specs.Steps.{given, start, step, settled, finish, behind_close, behind_open, after_nothing, after_whole, after_name, after_call};
ghost use Rattle.dlk_tacsyn.specs.States.{ByReading, frame_at, stack_at, pending_at, state_at, PendingIsKnown, BracketsAreKnown, ReaderIsKnown};

use crate::argument::{Current, OpenAtom, given};
use crate::atom::atom;
use crate::fault::TacSyntax;
use crate::frame::{Brackets, Frame, Opened};
use crate::tactic::Tactic;
use dlk_scripts::{Part, PartKind};
use dlk_sequent::Listed;
use dlk_store::Store;
use dlk_tree::Name;
use std::alloc::Global;

/// How many brackets may be open.
const MOST_OPEN: u32 = 64;

/// How often a strategy may be repeated.
const MOST_TIMES: u32 = 1000;

/// What stands behind the last `;`, `|`, `,` or bracket.
#[derive(Drop, Debug)]
pub(crate) enum Pending {
    Nothing,
    /// A name, at this byte, that may still get arguments.
    Named { at: usize, name: Name },
    Called(OpenAtom),
    /// A strategy, that may still be repeated.
    Whole(Tactic),
}

/// What is read so far.
#[derive(Drop, Debug)]
pub(crate) struct Reader {
    pub brackets: Brackets,
    pub last: Pending,
}

impl Reader {
    /// Nothing is read.
    pub fn new(alloc: Global) -> Reader
        ensures start { (trees : List Tree) → state_at trees result ≡ start }
        ensures known { (trees : List Tree) → ReaderIsKnown trees result }
    {
        Reader {
            brackets: Brackets {
                outer: Vec::new(alloc),
                inner: Frame::empty(alloc, Opened::Group, 0),
            },
            last: Pending::Nothing,
        }
    }

    /// Reads a part more.
    pub fn take<S: Store>(
        self,
        alloc: Global,
        part: Part,
        store: &mut S,
    ) -> Result<Reader, TacSyntax>
        requires { ReaderIsKnown (S.trees store.old) self }
        ensures found { IfOk result (λ r. ByReading (λ read. step read (state_at (S.trees store.old) self) part ≡ Says (state_at (S.trees store.new) r))) }
        ensures known { IfOk result (ReaderIsKnown (S.trees store.new)) }
        ensures fault { IfErr result (IsTacSyntaxOf (λ f. ByReading (λ read. step read (state_at (S.trees store.old) self) part ≡ Fails f))) }
        ensures grows { S.grows store.old store.new }
    {
        let Reader { brackets, last } = self;
        match last {
            Pending::Nothing => after_nothing(alloc, brackets, part),
            Pending::Named { at, name } => after_name(alloc, brackets, at, name, part, store),
            Pending::Called(call) => after_call(alloc, brackets, call, part, store),
            Pending::Whole(t) => after_whole(alloc, brackets, t, part),
        }
    }

    /// The strategy of the text, which ends here. The fault's place is free where no text ends so.
    pub fn finish<S: Store>(self, alloc: Global, store: &mut S) -> Result<Tactic, TacSyntax>
        requires { ReaderIsKnown (S.trees store.old) self }
        ensures found { IfOk result (λ t. ByReading (λ read. finish read (state_at (S.trees store.old) self) ≡ Says (tactic_at (S.trees store.new) t))) }
        ensures known { IfOk result (TacticIsKnown (S.trees store.new)) }
        ensures fault { IfErr result (IsTacSyntaxOf (λ f. ByReading (λ read. finish read (state_at (S.trees store.old) self) ≡ Fails f))) }
        ensures grows { S.grows store.old store.new }
    {
        let Reader { brackets, last } = self;
        let t = settled(alloc, last, store)?;
        let inner = brackets.inner.end_choice(alloc, t)?;
        Ok(inner.closed())
    }
}

/// The strategy that stands last. Where none does, no text ends so, and the fault's place is free.
fn settled<S: Store>(alloc: Global, last: Pending, store: &mut S) -> Result<Tactic, TacSyntax>
    requires { PendingIsKnown (S.trees store.old) last }
    ensures found { IfOk result (λ t. ByReading (λ read. settled read (pending_at (S.trees store.old) last) ≡ Says (tactic_at (S.trees store.new) t))) }
    ensures known { IfOk result (TacticIsKnown (S.trees store.new)) }
    ensures fault { IfErr result (IsTacSyntaxOf (λ f. ByReading (λ read. settled read (pending_at (S.trees store.old) last) ≡ Fails f))) }
    ensures grows { S.grows store.old store.new }
{
    match last {
        Pending::Named { at, name } => atom(alloc, at, name, Listed::new(alloc), store),
        Pending::Whole(t) => Ok(t),
        Pending::Nothing | Pending::Called(_) => Err(TacSyntax::Syntax { at: 0 }),
    }
}

/// Opens a bracket at this byte.
fn open(alloc: Global, at: usize, brackets: Brackets, opened: Opened) -> Result<Reader, TacSyntax>
    ensures found { IfOk result (λ r. (trees : List Tree) →
        behind_open at (stack_at trees brackets.outer.items) (frame_at trees brackets.inner) opened ≡ Says (state_at trees r)) }
    ensures known { IfOk result (λ r. (trees : List Tree) → BracketsAreKnown trees brackets → ReaderIsKnown trees r) }
    ensures fault { IfErr result (IsTacSyntaxOf (λ f. (trees : List Tree) →
        behind_open at (stack_at trees brackets.outer.items) (frame_at trees brackets.inner) opened ≡ Fails f)) }
    ensures owed { (trees : List Tree) (f : TheFault) → behind_open at (stack_at trees brackets.outer.items) (frame_at trees brackets.inner) opened ≡ Fails f →
        result ≢ Err Memory }
{
    let level = brackets.inner.level;
    if level >= MOST_OPEN {
        return Err(TacSyntax::Nesting { at });
    }
    let Brackets { mut outer, inner } = brackets;
    outer.push(inner)?;
    let inner = Frame::empty(alloc, opened, level + 1);
    Ok(Reader {
        brackets: Brackets { outer, inner },
        last: Pending::Nothing,
    })
}

/// Closes the bracket, with all that stands in it ended.
fn close(at: usize, brackets: Brackets) -> Result<Reader, TacSyntax>
    ensures found { IfOk result (λ r. (trees : List Tree) →
        behind_close at (stack_at trees brackets.outer.items) (frame_at trees brackets.inner) ≡ Says (state_at trees r)) }
    ensures known { IfOk result (λ r. (trees : List Tree) → BracketsAreKnown trees brackets → ReaderIsKnown trees r) }
    ensures fault { IfErr result (IsTacSyntaxOf (λ f. (trees : List Tree) →
        behind_close at (stack_at trees brackets.outer.items) (frame_at trees brackets.inner) ≡ Fails f)) }
    ensures decides { IfErr result (λ why. why ≢ Memory) }
{
    let Brackets { mut outer, inner } = brackets;
    let Some(around) = outer.pop() else {
        return Err(TacSyntax::Syntax { at });
    };
    Ok(Reader {
        brackets: Brackets {
            outer,
            inner: around,
        },
        last: Pending::Whole(inner.closed()),
    })
}

/// Behind a `;`, a `|`, a `,` or an opening bracket.
fn after_nothing(alloc: Global, brackets: Brackets, part: Part) -> Result<Reader, TacSyntax>
    ensures found { IfOk result (λ r. (trees : List Tree) →
        after_nothing part.at part.kind (stack_at trees brackets.outer.items) (frame_at trees brackets.inner) ≡ Says (state_at trees r)) }
    ensures known { IfOk result (λ r. (trees : List Tree) → BracketsAreKnown trees brackets → ReaderIsKnown trees r) }
    ensures fault { IfErr result (IsTacSyntaxOf (λ f. (trees : List Tree) →
        after_nothing part.at part.kind (stack_at trees brackets.outer.items) (frame_at trees brackets.inner) ≡ Fails f)) }
    ensures owed { (trees : List Tree) (f : TheFault) →
        after_nothing part.at part.kind (stack_at trees brackets.outer.items) (frame_at trees brackets.inner) ≡ Fails f → result ≢ Err Memory }
{
    let Part { kind, at } = part;
    match kind {
        PartKind::Name(name) => Ok(Reader {
            brackets,
            last: Pending::Named { at, name },
        }),
        PartKind::Open => open(alloc, at, brackets, Opened::Group),
        PartKind::Fork => open(alloc, at, brackets, Opened::Fork(at)),
        _ => Err(TacSyntax::Syntax { at }),
    }
}

/// Behind a strategy.
fn after_whole(
    alloc: Global,
    brackets: Brackets,
    t: Tactic,
    part: Part,
) -> Result<Reader, TacSyntax>
    ensures found { IfOk result (λ r. (trees : List Tree) →
        after_whole part.at part.kind (stack_at trees brackets.outer.items) (frame_at trees brackets.inner) (tactic_at trees t) ≡ Says (state_at trees r)) }
    ensures known { IfOk result (λ r. (trees : List Tree) → BracketsAreKnown trees brackets → TacticIsKnown trees t → ReaderIsKnown trees r) }
    ensures fault { IfErr result (IsTacSyntaxOf (λ f. (trees : List Tree) →
        after_whole part.at part.kind (stack_at trees brackets.outer.items) (frame_at trees brackets.inner) (tactic_at trees t) ≡ Fails f)) }
{
    let Part { kind, at } = part;
    match kind {
        PartKind::Semicolon => {
            let Brackets { outer, inner } = brackets;
            let inner = inner.end_step(t)?;
            Ok(Reader {
                brackets: Brackets { outer, inner },
                last: Pending::Nothing,
            })
        }
        PartKind::Bar => {
            let Brackets { outer, inner } = brackets;
            let inner = inner.end_sequence(alloc, t)?;
            Ok(Reader {
                brackets: Brackets { outer, inner },
                last: Pending::Nothing,
            })
        }
        PartKind::Comma => {
            let Brackets { outer, inner } = brackets;
            let inner = inner.end_choice(alloc, t)?;
            Ok(Reader {
                brackets: Brackets { outer, inner },
                last: Pending::Nothing,
            })
        }
        PartKind::Close => {
            let Brackets { outer, inner } = brackets;
            let inner = inner.end_choice(alloc, t)?;
            close(at, Brackets { outer, inner })
        }
        PartKind::Star => Ok(Reader {
            brackets,
            last: Pending::Whole(t),
        }),
        PartKind::Number(n) => repeat(alloc, at, brackets, t, n),
        _ => Err(TacSyntax::Syntax { at }),
    }
}

/// Repeats a strategy so often as the number at this byte says.
fn repeat(
    alloc: Global,
    at: usize,
    brackets: Brackets,
    t: Tactic,
    n: u32,
) -> Result<Reader, TacSyntax>
    ensures found { IfOk result (λ r. (trees : List Tree) →
        after_whole at (kind.Number n) (stack_at trees brackets.outer.items) (frame_at trees brackets.inner) (tactic_at trees t) ≡ Says (state_at trees r)) }
    ensures known { IfOk result (λ r. (trees : List Tree) → BracketsAreKnown trees brackets → TacticIsKnown trees t → ReaderIsKnown trees r) }
    ensures fault { IfErr result (IsTacSyntaxOf (λ f. (trees : List Tree) →
        after_whole at (kind.Number n) (stack_at trees brackets.outer.items) (frame_at trees brackets.inner) (tactic_at trees t) ≡ Fails f)) }
    ensures owed { (trees : List Tree) (f : TheFault) →
        after_whole at (kind.Number n) (stack_at trees brackets.outer.items) (frame_at trees brackets.inner) (tactic_at trees t) ≡ Fails f →
        result ≢ Err Memory }
{
    if n > MOST_TIMES {
        return Err(TacSyntax::Repeat { at });
    }
    let body = Box::new(alloc, t)?;
    Ok(Reader {
        brackets,
        last: Pending::Whole(Tactic::Repeat { body, times: n }),
    })
}

/// Behind a name, which a part other than `(` makes an atom without arguments.
fn after_name<S: Store>(
    alloc: Global,
    brackets: Brackets,
    at: usize,
    name: Name,
    part: Part,
    store: &mut S,
) -> Result<Reader, TacSyntax>
    requires { BracketsAreKnown (S.trees store.old) brackets }
    ensures found { IfOk result (λ r. ByReading (λ read. after_name read part.at part.kind (stack_at (S.trees store.old) brackets.outer.items)
        (frame_at (S.trees store.old) brackets.inner) at name ≡ Says (state_at (S.trees store.new) r))) }
    ensures known { IfOk result (ReaderIsKnown (S.trees store.new)) }
    ensures fault { IfErr result (IsTacSyntaxOf (λ f. ByReading (λ read. after_name read part.at part.kind (stack_at (S.trees store.old) brackets.outer.items)
        (frame_at (S.trees store.old) brackets.inner) at name ≡ Fails f))) }
    ensures grows { S.grows store.old store.new }
{
    let Part { kind, at: behind } = part;
    match kind {
        PartKind::Open => Ok(Reader {
            brackets,
            last: Pending::Called(OpenAtom {
                at,
                name,
                before: Listed::new(alloc),
                current: Current::Nothing,
            }),
        }),
        kind => {
            let t = atom(alloc, at, name, Listed::new(alloc), store)?;
            after_whole(alloc, brackets, t, Part { kind, at: behind })
        }
    }
}

/// In the brackets of an atom.
fn after_call<S: Store>(
    alloc: Global,
    brackets: Brackets,
    call: OpenAtom,
    part: Part,
    store: &mut S,
) -> Result<Reader, TacSyntax>
    requires { BracketsAreKnown (S.trees store.old) brackets }
    ensures found { IfOk result (λ r. ByReading (λ read. after_call read part.at part.kind (stack_at (S.trees store.old) brackets.outer.items)
        (frame_at (S.trees store.old) brackets.inner) call ≡ Says (state_at (S.trees store.new) r))) }
    ensures known { IfOk result (ReaderIsKnown (S.trees store.new)) }
    ensures fault { IfErr result (IsTacSyntaxOf (λ f. ByReading (λ read.
        after_call read part.at part.kind (stack_at (S.trees store.old) brackets.outer.items) (frame_at (S.trees store.old) brackets.inner) call ≡ Fails f))) }
    ensures owed { part.kind ≡ kind.Comma → given call.before call.current ≡ None → result ≡ Err (Syntax part.at) }
    ensures unended { part.kind ≡ kind.Close → given call.before call.current ≡ None → result ≡ Err (Syntax part.at) }
    ensures grows { S.grows store.old store.new }
{
    let Part { kind, at } = part;
    let OpenAtom {
        at: place,
        name,
        before,
        current,
    } = call;
    match kind {
        PartKind::Comma => {
            let Some(before) = given(before, current)? else {
                return Err(TacSyntax::Syntax { at });
            };
            Ok(Reader {
                brackets,
                last: Pending::Called(OpenAtom {
                    at: place,
                    name,
                    before,
                    current: Current::Nothing,
                }),
            })
        }
        PartKind::Close => {
            let Some(written) = given(before, current)? else {
                return Err(TacSyntax::Syntax { at });
            };
            let t = atom(alloc, place, name, written, store)?;
            Ok(Reader {
                brackets,
                last: Pending::Whole(t),
            })
        }
        kind => {
            let Some(current) = current.with_part(alloc, kind)? else {
                return Err(TacSyntax::Syntax { at });
            };
            Ok(Reader {
                brackets,
                last: Pending::Called(OpenAtom {
                    at: place,
                    name,
                    before,
                    current,
                }),
            })
        }
    }
}

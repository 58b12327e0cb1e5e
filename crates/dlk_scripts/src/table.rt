//! What each part leads to.
ghost use Rattle.std.specs.Prelude.{◌≡◌};
ghost use Rattle.dlk_scripts.specs.Table.{at_comma, at_close, joins, repeated, named, wants, next, number, first_number, argument, argued, place, leads};
ghost use Rattle.dlk_scripts.specs.Table.{wants_name, wants_number, wants_first, wants_argument, wants_fork, is_whole};

use crate::mode::{Change, Mode, Opening, Turn};
use crate::part::PartKind;

/// How many repeats may stand after one part.
const MOST_REPEATS: u8 = 8;

fn turn(mode: Mode, change: Change) -> Option<Turn>
    ensures { result ≡ Some (record { mode = mode; change = change }) }
{
    Some(Turn { mode, change })
}

fn keeps(mode: Mode) -> Option<Turn>
    ensures { result ≡ Some (record { mode = mode; change = Change.Keep }) }
{
    turn(mode, Change::Keep)
}

fn at_comma(innermost: Option<Opening>) -> Option<Turn>
    ensures { result ≡ at_comma innermost }
{
    match innermost {
        Some(Opening::Fork) => keeps(Mode::Wants),
        Some(Opening::Group) => None,
        None => None,
    }
}

fn at_close(innermost: Option<Opening>) -> Option<Turn>
    ensures { result ≡ at_close innermost }
{
    match innermost {
        Some(Opening::Fork) => turn(Mode::After(MOST_REPEATS), Change::Close),
        Some(Opening::Group) => turn(Mode::After(0), Change::Close),
        None => None,
    }
}

/// Behind a whole sequence.
fn joins(innermost: Option<Opening>, kind: &PartKind) -> Option<Turn>
    ensures { result ≡ joins innermost kind.now }
{
    match kind {
        PartKind::Semicolon => keeps(Mode::Next),
        PartKind::Bar => keeps(Mode::Wants),
        PartKind::Comma => at_comma(innermost),
        PartKind::Close => at_close(innermost),
        _ => None,
    }
}

/// Behind a part of a sequence with so many repeats.
fn repeated(repeats: u8, innermost: Option<Opening>, kind: &PartKind) -> Option<Turn>
    ensures { result ≡ repeated repeats innermost kind.now }
{
    match kind {
        PartKind::Star if repeats < MOST_REPEATS => keeps(Mode::Starred(repeats + 1)),
        PartKind::Star => None,
        _ => joins(innermost, kind),
    }
}

fn named(innermost: Option<Opening>, kind: &PartKind) -> Option<Turn>
    ensures { result ≡ named innermost kind.now }
{
    match kind {
        PartKind::Open => keeps(Mode::Argument),
        _ => repeated(0, innermost, kind),
    }
}

fn wants(kind: &PartKind) -> Option<Turn>
    ensures { result ≡ wants kind.now }
{
    match kind {
        PartKind::Open => turn(Mode::Wants, Change::Open(Opening::Group)),
        PartKind::Name(_) => keeps(Mode::Named),
        _ => None,
    }
}

fn next(kind: &PartKind) -> Option<Turn>
    ensures { result ≡ next kind.now }
{
    match kind {
        PartKind::Fork => turn(Mode::Wants, Change::Open(Opening::Fork)),
        _ => wants(kind),
    }
}

fn number(mode: Mode, kind: &PartKind) -> Option<Turn>
    ensures { result ≡ number mode kind.now }
{
    match kind {
        PartKind::Number(_) => keeps(mode),
        _ => None,
    }
}

/// The first number of a place.
fn first_number(kind: &PartKind) -> Option<Turn>
    ensures { result ≡ first_number kind.now }
{
    match kind {
        PartKind::Number(n) if *n >= 1 => keeps(Mode::Place),
        _ => None,
    }
}

fn argument(kind: &PartKind) -> Option<Turn>
    ensures { result ≡ argument kind.now }
{
    match kind {
        PartKind::Minus => keeps(Mode::Signed),
        PartKind::AnyLeft | PartKind::AnyRight | PartKind::Name(_) | PartKind::Quoted(_) => keeps(
            Mode::Argued,
        ),
        _ => first_number(kind),
    }
}

fn argued(kind: &PartKind) -> Option<Turn>
    ensures { result ≡ argued kind.now }
{
    match kind {
        PartKind::Comma => keeps(Mode::Argument),
        PartKind::Close => keeps(Mode::After(0)),
        _ => None,
    }
}

fn place(kind: &PartKind) -> Option<Turn>
    ensures { result ≡ place kind.now }
{
    match kind {
        PartKind::Point => keeps(Mode::Pointed),
        _ => argued(kind),
    }
}

/// What a part leads to. None comes where no text goes on with it.
pub(crate) fn leads(mode: Mode, innermost: Option<Opening>, kind: &PartKind) -> Option<Turn>
    ensures { result ≡ leads mode innermost kind.now }
{
    match mode {
        Mode::Wants => wants(kind),
        Mode::Next => next(kind),
        Mode::Named => named(innermost, kind),
        Mode::After(n) => repeated(n, innermost, kind),
        Mode::Starred(n) => number(Mode::After(n), kind),
        Mode::Argument => argument(kind),
        Mode::Signed => first_number(kind),
        Mode::Place => place(kind),
        Mode::Pointed => number(Mode::Place, kind),
        Mode::Argued => argued(kind),
    }
}

/// Whether a name may come.
pub(crate) fn wants_name(mode: Mode) -> bool
    ensures { result ≡ wants_name mode }
{
    matches!(mode, Mode::Wants | Mode::Next | Mode::Argument)
}

/// Whether a number may come.
pub(crate) fn wants_number(mode: Mode) -> bool
    ensures { result ≡ wants_number mode }
{
    matches!(
        mode,
        Mode::Starred(_) | Mode::Argument | Mode::Signed | Mode::Pointed
    )
}

/// Whether a number would be the first of a place.
pub(crate) fn wants_first(mode: Mode) -> bool
    ensures { result ≡ wants_first mode }
{
    matches!(mode, Mode::Argument | Mode::Signed)
}

/// Whether an argument begins.
pub(crate) fn wants_argument(mode: Mode) -> bool
    ensures { result ≡ wants_argument mode }
{
    matches!(mode, Mode::Argument)
}

/// Whether `<(` may come.
pub(crate) fn wants_fork(mode: Mode) -> bool
    ensures { result ≡ wants_fork mode }
{
    matches!(mode, Mode::Next)
}

/// Whether a strategy may end.
pub(crate) fn is_whole(mode: Mode) -> bool
    ensures { result ≡ is_whole mode }
{
    matches!(mode, Mode::Named | Mode::After(_))
}

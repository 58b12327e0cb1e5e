//! Tests of bytes, and the number that digits say.
ghost use Rattle.std.specs.Prelude.{◌≡◌, ◌≤◌, IsTrue, length};
ghost use Rattle.std.specs.List.{list_all};
ghost use Rattle.dlk_grammar.specs.Tokens.{is_space, is_digit, value};
ghost use Rattle.dlk_scripts.specs.Steps.{mark_of};

use crate::part::PartKind;

pub(crate) fn is_space(b: u8) -> bool
    ensures { result ≡ is_space b }
{
    b == b' ' || b == b'\t' || b == b'\r' || b == b'\n'
}

pub(crate) fn is_digit(b: u8) -> bool
    ensures { result ≡ is_digit b }
{
    matches!(b, b'0'..=b'9')
}

/// The part that is this byte alone.
pub(crate) fn mark(b: u8) -> Option<PartKind>
    ensures { result ≡ mark_of b }
{
    if b == b'(' {
        return Some(PartKind::Open);
    }
    if b == b')' {
        return Some(PartKind::Close);
    }
    if b == b';' {
        return Some(PartKind::Semicolon);
    }
    if b == b'|' {
        return Some(PartKind::Bar);
    }
    if b == b',' {
        return Some(PartKind::Comma);
    }
    if b == b'*' {
        return Some(PartKind::Star);
    }
    if b == b'-' {
        return Some(PartKind::Minus);
    }
    if b == b'.' {
        return Some(PartKind::Point);
    }
    None
}

/// The number that at most nine digits say.
pub(crate) fn number(digits: &[u8]) -> u32
    requires few { length digits.now ≤ 9 }
    requires digits { IsTrue (list_all is_digit digits.now) }
    ensures { result ≡ value digits.now }
{
    let mut value = 0;
    for digit in digits {
        value = 10 * value + u32::from(*digit - b'0');
    }
    value
}

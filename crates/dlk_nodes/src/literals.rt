//! Numbers as they stand in terms.
ghost use Rattle.std.specs.Prelude.{◌≡◌, ◌+◌, ◌-◌, ◌*◌, ◌^◌, ◌<◌, ◌≤◌, IsTrue, IfOk, IfErr, MatchOption, length, fold};
ghost use Rattle.std.specs.List.{list_all};
ghost use Rattle.dlk_tree.specs.declared.op.Num.{Num as TreeNum};
ghost use Rattle.dlk_grammar.specs.Tokens.{is_digit, trimmed, literal_number};
ghost use Rattle.dlk_nodes.specs.Details.{SpellsNumber, AreFewDigits};
ghost use Rattle.dlk_lines.specs.Read.{IsLineFaultOf};

use dlk_lines::{LineFault, cut_at};
use dlk_print::append_number;
use dlk_tree::{Num, Op, fits};
use std::alloc::Global;

/// Whether each byte is a digit.
fn are_digits(text: &[u8]) -> bool
    ensures { result ≡ list_all is_digit text.now }
{
    text.iter().all(|b| b.is_ascii_digit())
}

/// The digits without the zeros at their end.
fn without_zeros(digits: &[u8]) -> &[u8]
    ensures { result.now ≡ trimmed digits.now }
{
    let mut n = digits.len();
    while n > 0 && digits[n - 1] == b'0' {
        n -= 1;
    }
    &digits[..n]
}

/// The number that the digits say when they are written behind it.
fn with_digits(number: u128, digits: &[u8]) -> u128
    requires few { length digits.now ≤ 38 }
    requires room { number < 10 ^ (38 - length digits.now) }
    requires digits { IsTrue (list_all is_digit digits.now) }
    ensures { result ≡ fold (λ n b. 10 * n + (b - 48)) number digits.now }
{
    let mut value = number;
    for digit in digits {
        value = 10 * value + u128::from(*digit - b'0');
    }
    value
}

/// The number that the digits before and behind a point say, where they are at most 38 digits.
fn number_of(integer: &[u8], fraction: &[u8]) -> Option<Num>
    ensures { MatchOption result (¬ AreFewDigits integer.now fraction.now) (λ n. n ≡ literal_number integer.now fraction.now) }
{
    if integer.len() + fraction.len() > 38 || !are_digits(integer) || !are_digits(fraction) {
        return None;
    }
    let kept = without_zeros(fraction);
    let whole = with_digits(0, integer);
    Some(Num {
        digits: with_digits(whole, kept),
        scale: kept.len() as u8,
    })
}

/// The one number whose text this may be.
fn candidate(text: &[u8]) -> Option<Num>
    ensures { MatchOption result ((n : TreeNum) → ¬ SpellsNumber text.now n) (λ found. (n : TreeNum) → SpellsNumber text.now n → n ≡ found) }
{
    match cut_at(text, b'.') {
        None => number_of(text, &[]),
        Some((integer, fraction)) => number_of(integer, fraction),
    }
}

/// The number that the text spells: the digits are written again, so that no other spelling is taken.
pub(crate) fn literal(alloc: Global, text: &[u8]) -> Result<Num, LineFault>
    ensures found { IfOk result (SpellsNumber text.now) }
    ensures fault { IfErr result (IsLineFaultOf ((n : TreeNum) → ¬ SpellsNumber text.now n)) }
{
    let Some(number) = candidate(text) else {
        return Err(LineFault::Malformed);
    };
    let mut written = Vec::new(alloc);
    append_number(&mut written, &number)?;
    if written.as_slice() != text || !fits(&Op::Number(number), &[]) {
        return Err(LineFault::Malformed);
    }
    Ok(number)
}

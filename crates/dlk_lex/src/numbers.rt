//! Literals.
ghost use Rattle.std.specs.Prelude.{◌≡◌, ◌≢◌, ◌+◌, ◌-◌, ◌*◌, ◌^◌, ◌<◌, ◌≤◌, IsTrue, length, fold, slice_index};
ghost use Rattle.std.specs.List.{list_all};
ghost use Rattle.dlk_grammar.specs.Tokens.{is_digit, trimmed};
ghost use Rattle.dlk_grammar.specs.Literals.{literal_kind};
ghost use Rattle.dlk_lex.specs.Fronts.{fraction_len, StandsInFront};

use crate::bytes::digit_run;
use dlk_grammar::TokenKind;
use dlk_tree::Num;

/// The digits without the zeros at their end.
fn without_zeros(digits: &[u8]) -> &[u8]
    ensures { result.now ≡ trimmed digits.now }
{
    let mut n = digits.len();
    while n > 0 && digits[n - 1] == b'0' {
        n -= 1;
    }
    &digits[..n]
}

/// The number that the digits say when they are written behind it.
fn with_digits(number: u128, digits: &[u8]) -> u128
    requires few { length digits.now ≤ 38 }
    requires room { number < 10 ^ (38 - length digits.now) }
    requires digits { IsTrue (list_all is_digit digits.now) }
    ensures { result ≡ fold (λ n b. 10 * n + (b - 48)) number digits.now }
{
    let mut value = number;
    for digit in digits {
        value = 10 * value + u128::from(*digit - b'0');
    }
    value
}

/// A literal as a token, by the digits before and behind its point.
fn literal(integer: &[u8], fraction: &[u8]) -> TokenKind
    requires integer { IsTrue (list_all is_digit integer.now) }
    requires fraction { IsTrue (list_all is_digit fraction.now) }
    ensures { result ≡ literal_kind integer.now fraction.now }
{
    if integer.len() + fraction.len() > 38 {
        return TokenKind::LongNumber;
    }
    let kept = without_zeros(fraction);
    let whole = with_digits(0, integer);
    TokenKind::Number(Num {
        digits: with_digits(whole, kept),
        scale: kept.len() as u8,
    })
}

/// How many digits stand behind a point at the front.
fn fraction_run(bytes: &[u8]) -> usize
    ensures count { result ≡ fraction_len bytes.now }
    ensures within { result ≢ 0 → result < length bytes.now }
{
    if bytes.is_empty() || bytes[0] != b'.' {
        return 0;
    }
    digit_run(&bytes[1..])
}

/// The longest literal at the front, and how many bytes it has.
pub(crate) fn number(bytes: &[u8]) -> (TokenKind, usize)
    requires { IsTrue (is_digit (slice_index bytes.now 0)) }
    ensures { StandsInFront bytes.now result }
{
    let integer = digit_run(bytes);
    let fraction = fraction_run(&bytes[integer..]);
    if fraction == 0 {
        return (literal(&bytes[..integer], &[]), integer);
    }
    let end = integer + 1 + fraction;
    (literal(&bytes[..integer], &bytes[integer + 1..end]), end)
}

//! Numbers of a line.
ghost use Rattle.std.specs.Prelude.{◌≡◌, ℕ, List, false, IfSome, IfNone, MatchOption};
ghost use Rattle.dlk_grammar.specs.Tokens.{is_digit};
ghost use Rattle.dlk_lines.specs.Numbers.{IsNumber};
ghost use Rattle.dlk_lines.specs.Parts.{NumberInFront, NumberThen};

/// A number at the front of the text, with a byte behind it that is no digit: the number, and what comes behind that byte.
pub fn number_before(text: &[u8], stop: u8) -> Option<(u32, &[u8])>
    requires { is_digit stop ≡ false }
    ensures found { IfSome result (λ p. NumberThen text.now stop p.0 p.1.now) }
    ensures none { IfNone result ((n : ℕ) (rest : List ℕ) → ¬ NumberThen text.now stop n rest) }
{
    let (number, rest) = number_in_front(text)?;
    if rest.is_empty() || rest[0] != stop {
        return None;
    }
    Some((number, &rest[1..]))
}

/// The number that the text is.
pub fn number(text: &[u8]) -> Option<u32>
    ensures { MatchOption result ((n : ℕ) → ¬ IsNumber text.now n) (IsNumber text.now) }
{
    let (number, rest) = number_in_front(text)?;
    if !rest.is_empty() {
        return None;
    }
    Some(number)
}

/// The number that the text begins with, as far as its digits go, and what comes behind the last of them.
fn number_in_front(text: &[u8]) -> Option<(u32, &[u8])>
    ensures found { IfSome result (λ p. NumberInFront text.now p.0 p.1.now) }
    ensures none { IfNone result ((n : ℕ) (rest : List ℕ) → ¬ NumberInFront text.now n rest) }
{
    let mut number = 0;
    let mut place = 0;
    while place < text.len() && text[place].is_ascii_digit() {
        if place == 9 {
            return None;
        }
        number = number * 10 + u32::from(text[place] - b'0');
        place += 1;
    }
    if place == 0 || text[0] == b'0' {
        return None;
    }
    Some((number, &text[place..]))
}

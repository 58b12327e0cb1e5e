//! The marks and their spellings.
ghost use Rattle.std.specs.Prelude.{◌≡◌, ◌<◌, map, IfSome, IfNone, length, slice_index, nat_eq};
ghost use Rattle.std.specs.List.{starts_with};
ghost use Rattle.dlk_grammar.specs.Tokens.{spelling};
ghost use Rattle.dlk_lex.specs.Fronts.{marks_from, IsFrontMark, HasNoMark};

use dlk_grammar::Mark;

/// The marks that begin with a byte, longer ones before shorter ones, and how each is written.
fn marks_from(first: u8) -> &'static [(&'static [u8], Mark)]
    ensures marks { map (λ row. row.1) result.now ≡ marks_from first }
    ensures texts { map (λ row. row.0.now) result.now ≡ map spelling (marks_from first) }
{
    match first {
        b'!' => &[(b"!=", Mark::NotEqual), (b"!", Mark::Not)],
        b'&' => &[(b"&", Mark::And)],
        b'\'' => &[(b"'", Mark::Prime)],
        b'(' => &[
            (b"(||)", Mark::RoundBars),
            (b"(|", Mark::RoundBar),
            (b"(", Mark::OpenRound),
        ],
        b')' => &[(b")", Mark::CloseRound)],
        b'*' => &[(b"*", Mark::Star)],
        b'+' => &[(b"++", Mark::Choice), (b"+", Mark::Plus)],
        b',' => &[(b",", Mark::Comma)],
        b'-' => &[(b"->", Mark::Imply), (b"-", Mark::Minus)],
        b'/' => &[(b"/", Mark::Slash)],
        b':' => &[(b":=", Mark::Gets)],
        b';' => &[(b";", Mark::Semicolon)],
        b'<' => &[
            (b"<->", Mark::Equiv),
            (b"<=", Mark::AtMost),
            (b"<", Mark::Less),
        ],
        b'=' => &[(b"==>", Mark::Turnstile), (b"=", Mark::Equal)],
        b'>' => &[(b">=", Mark::AtLeast), (b">", Mark::Greater)],
        b'?' => &[(b"?", Mark::Query)],
        b'@' => &[(b"@invariant", Mark::Invariant)],
        b'[' => &[(b"[", Mark::OpenSquare)],
        b'\\' => &[(b"\\forall", Mark::Forall), (b"\\exists", Mark::Exists)],
        b']' => &[(b"]", Mark::CloseSquare)],
        b'^' => &[(b"^", Mark::Caret)],
        b'{' => &[(b"{|", Mark::BraceBar), (b"{", Mark::OpenBrace)],
        b'|' => &[
            (b"|)", Mark::BarRound),
            (b"|}", Mark::BarBrace),
            (b"|", Mark::Or),
        ],
        b'}' => &[(b"}", Mark::CloseBrace)],
        b'~' => &[(b"~>", Mark::Becomes), (b"~~", Mark::Swaps)],
        _ => &[],
    }
}

/// Whether a text is at the front of bytes that begin with its first byte.
fn is_at_front(text: &[u8], bytes: &[u8]) -> bool
    requires bytes { 0 < length bytes.now }
    requires first { slice_index text.now 0 ≡ slice_index bytes.now 0 }
    ensures { result ≡ starts_with nat_eq bytes.now text.now }
{
    if text.len() == 1 {
        return true;
    }
    bytes.starts_with(text)
}

/// The longest mark at the front, and how many bytes it has.
pub(crate) fn front_mark(bytes: &[u8]) -> Option<(Mark, usize)>
    requires { 0 < length bytes.now }
    ensures found { IfSome result (λ found. IsFrontMark bytes.now found.0 × (found.1 ≡ length (spelling found.0))) }
    ensures none { IfNone result (HasNoMark bytes.now) }
{
    for (text, mark) in marks_from(bytes[0]) {
        if is_at_front(text, bytes) {
            return Some((*mark, text.len()));
        }
    }
    None
}

//! Parts of a text.
ghost use Rattle.std.specs.Prelude.{◌≡◌, ◌≢◌, ◌==◌, ℕ, ◌++◌, ◌∷◌, List, position, IfSome, IfNone};
ghost use Rattle.dlk_lines.specs.Parts.{CutAt, Bracketed};

/// The text before the first byte of this kind, and the text behind that byte.
pub fn cut_at(text: &[u8], byte: u8) -> Option<(&[u8], &[u8])>
    ensures found { IfSome result (λ p. CutAt text.now byte p.0.now p.1.now) }
    ensures none { IfNone result ((front rest : List ℕ) → text.now ≢ front ++ byte ∷ rest) }
{
    let place = place_of(text, byte)?;
    Some((&text[..place], &text[place + 1..]))
}

/// The index of the first byte of this kind.
pub fn place_of(text: &[u8], byte: u8) -> Option<usize>
    ensures { result ≡ position (λ b. b == byte) text.now }
{
    text.iter().position(|b| *b == byte)
}

/// The text before the first opening bracket, and what stands between it and a closing bracket at the end.
pub(crate) fn bracketed(text: &[u8]) -> Option<(&[u8], &[u8])>
    ensures found { IfSome result (λ p. Bracketed text.now p.0.now p.1.now) }
    ensures none { IfNone result ((word arguments : List ℕ) → ¬ Bracketed text.now word arguments) }
{
    let (word, rest) = cut_at(text, b'(')?;
    let arguments = rest.strip_suffix(b")".as_slice())?;
    Some((word, arguments))
}

//! Parts of a text.
ghost use Rattle.std.specs.Prelude.{◌≡◌, ◌≢◌, ◌++◌, ℕ, List, IfSome, IfNone};
ghost use Rattle.dlk_nodes.specs.Parts.{Front};

use dlk_lines::place_of;

/// The text before the first space, or all of it where there is none, and what is left, which begins with that space.
pub(crate) fn front_of(text: &[u8]) -> (&[u8], &[u8])
    ensures { Front text.now result.0.now result.1.now }
{
    match place_of(text, b' ') {
        None => (text, &[]),
        Some(place) => (&text[..place], &text[place..]),
    }
}

/// What comes behind this front of the text.
pub(crate) fn behind<'a>(text: &'a [u8], front: &[u8]) -> Option<&'a [u8]>
    ensures found { IfSome result (λ rest. text.now ≡ front.now ++ rest.now) }
    ensures none { IfNone result ((rest : List ℕ) → text.now ≢ front.now ++ rest) }
{
    text.strip_prefix(front)
}

/// What stands before this end of the text.
pub(crate) fn before<'a>(text: &'a [u8], end: &[u8]) -> Option<&'a [u8]>
    ensures found { IfSome result (λ front. text.now ≡ front.now ++ end.now) }
    ensures none { IfNone result ((front : List ℕ) → text.now ≢ front ++ end.now) }
{
    text.strip_suffix(end)
}

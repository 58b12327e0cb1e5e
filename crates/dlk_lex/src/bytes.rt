//! Tests of bytes, and runs of them.
ghost use Rattle.std.specs.Prelude.{◌≡◌, ◌≤◌, length};
ghost use Rattle.std.specs.List.{prefix_len};
ghost use Rattle.dlk_tree.specs.Names.{is_name_byte};
ghost use Rattle.dlk_grammar.specs.Tokens.{is_space, is_digit};
ghost use Rattle.dlk_lex.specs.Fronts.{is_no_feed};

use dlk_tree::is_name_byte;

pub(crate) fn is_space(b: u8) -> bool
    ensures { result ≡ is_space b }
{
    b == b' ' || b == b'\t' || b == b'\r' || b == b'\n'
}

pub(crate) fn is_digit(b: u8) -> bool
    ensures { result ≡ is_digit b }
{
    matches!(b, b'0'..=b'9')
}

/// How many bytes of a word are at the front.
pub(crate) fn word_run(bytes: &[u8]) -> usize
    ensures count { result ≡ prefix_len is_name_byte bytes.now }
    ensures within { result ≤ length bytes.now }
{
    let mut n = 0;
    while n < bytes.len() && is_name_byte(bytes[n]) {
        n += 1;
    }
    n
}

/// How many digits are at the front.
pub(crate) fn digit_run(bytes: &[u8]) -> usize
    ensures count { result ≡ prefix_len is_digit bytes.now }
    ensures within { result ≤ length bytes.now }
{
    let mut n = 0;
    while n < bytes.len() && is_digit(bytes[n]) {
        n += 1;
    }
    n
}

/// How many bytes are before the first line feed, or before the end.
pub(crate) fn line_run(bytes: &[u8]) -> usize
    ensures count { result ≡ prefix_len is_no_feed bytes.now }
    ensures within { result ≤ length bytes.now }
{
    let mut n = 0;
    while n < bytes.len() && bytes[n] != b'\n' {
        n += 1;
    }
    n
}

// How bytes are split into tokens.
use super::same;
use dlk_lex::{LexFault, TokenKind, tokens};
use std::test::Fail;

/// Each token of the text behind a space, and the end as a space.
fn parts(rt: &HostRuntime, text: &str) -> Result<Vec<u8>, LexFault> {
    let bytes = text.as_bytes();
    let mut out = Vec::new(rt.alloc());
    for token in tokens(rt.alloc(), bytes)? {
        out.push(b' ')?;
        for b in bytes.get(token.at..token.end).unwrap_or(&[]) {
            out.push(*b)?;
        }
    }
    Ok(out)
}

#[test]
fn splits(rt: HostRuntime) -> Result<(), Fail> {
    for (text, want) in &[
        ("", " "),
        (" \t\r\n", " "),
        ("\\forallx (x>=0.5)", " \\forall x ( x >= 0.5 ) "),
        ("\\exists@invariant{true}", " \\exists @invariant { true } "),
        ("p(||)(|y|){|y|}(||", " p (||) (| y |) {| y |} (| | "),
        ("[a:=b';?c;]<d++e>", " [ a := b ' ; ? c ; ] < d ++ e > "),
        ("<-><--><=>===>==", " <-> < - -> <= >= ==> = = "),
        ("!a&b|c->d!=!e", " ! a & b | c -> d != ! e "),
        ("+-*/^'++ +,", " + - * / ^ ' ++ + , "),
        ("f()~>g~~h", " f ( ) ~> g ~~ h "),
        ("._0._7_x1._3", " ._0 ._7 _ x1 ._3 "),
        ("1._0", " 1 ._0 "),
        ("x/*y*/z//w", " x z "),
        ("/*/*/x/**/y", " x y "),
        ("//x*/\ny", " y "),
        ("a/b", " a / b "),
    ] {
        let found = parts(&rt, text)?;
        same(&rt, &found.as_slice(), &want.as_bytes(), text);
    }
    Ok(())
}

#[test]
fn bad_bytes(rt: HostRuntime) {
    for (text, want) in &[
        ("x#", 1),
        ("1.", 1),
        (".5", 0),
        ("1.5.2", 3),
        ("x ._8", 2),
        ("/*/", 0),
        ("a/* b */ /* c", 9),
        ("//a\n@b", 4),
        ("x:y", 1),
    ] {
        let want = Some(LexFault::BadByte { at: *want });
        same(&rt, &parts(&rt, text).err(), &want, text);
    }
}

/// The number that the text begins with, if any.
fn number(rt: &HostRuntime, text: &str) -> Option<(u128, u8)> {
    let all = tokens(rt.alloc(), text.as_bytes()).ok()?;
    match &all.as_slice().first()?.kind {
        TokenKind::Number(n) => Some((n.digits, n.scale)),
        _ => None,
    }
}

#[test]
fn literals(rt: HostRuntime) {
    for (text, want) in &[
        ("007", Some((7, 0))),
        ("00.50", Some((5, 1))),
        ("1.05", Some((105, 2))),
        ("10.00", Some((10, 0))),
        ("0.0", Some((0, 0))),
        (
            "99999999999999999999999999999999999999",
            Some((99999999999999999999999999999999999999, 0)),
        ),
        ("0.0000000000000000000000000000000000001", Some((1, 37))),
        ("000000000000000000000000000000000000000", None),
        ("1.00000000000000000000000000000000000000", None),
    ] {
        same(&rt, &number(&rt, text), want, text);
    }
}

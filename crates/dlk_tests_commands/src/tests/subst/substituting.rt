// What `subst` prints.
ghost use Rattle.std.specs.Prelude.{◌≡◌, ◌<◌};

use super::*;
use dlk_grammar::Dots;
use dlk_parse::{read_expression, read_substitution};
use dlk_plain::PlainStore;
use dlk_print::text;
use dlk_sequent::Subst;
use dlk_store::{Steps, Store};
use std::marker::Brand;
use std::sync::ledger::{Blank, Ledger};

/// What `subst` answers to the bytes of an expression and of a substitution.
fn substituted(alloc: Global, file: &[u8], substitution: &[u8]) -> Result<(u8, Reply), NoReply> {
    replied(alloc, &["subst", "e", "s"], &[file, substitution])
}

/// `subst` prints these bytes, with this status. What is said where it doesn't names the row.
fn answers(
    rt: &impl Abort,
    alloc: Global,
    file: &[u8],
    substitution: &[u8],
    status: u8,
    printed: &[u8],
    row: &str,
) -> Result<(), NoReply> {
    let (found, reply) = substituted(alloc, file, substitution)?;
    assert_eq!(rt; reply.printed.as_slice(), printed, "{row}");
    assert_eq!(rt; found, status, "{row}");
    Ok(())
}

/// `subst` prints this text in a line.
fn makes(
    rt: &impl Abort,
    alloc: Global,
    file: &str,
    substitution: &str,
    text: &str,
) -> Result<(), NoReply> {
    let line = joined(alloc, text.as_bytes(), b"\n", b"")?;
    let (file, by) = (file.as_bytes(), substitution.as_bytes());
    answers(rt, alloc, file, by, 0, &line, text)
}

/// `subst` refuses the texts, for this reason.
fn refuses(
    rt: &impl Abort,
    alloc: Global,
    file: &str,
    substitution: &str,
    why: &str,
) -> Result<(), NoReply> {
    let line = joined(alloc, b"refused: ", why.as_bytes(), b"\n")?;
    let (file, by) = (file.as_bytes(), substitution.as_bytes());
    answers(rt, alloc, file, by, 2, &line, substitution)
}

/// `subst` prints this text, or, where there is none, that the substitution isn't admissible.
fn makes_if_any(
    rt: &impl Abort,
    alloc: Global,
    file: &str,
    substitution: &str,
    text: &str,
) -> Result<(), NoReply> {
    if text.is_empty() {
        refuses(rt, alloc, file, substitution, "not-admissible")
    } else {
        makes(rt, alloc, file, substitution, text)
    }
}

/// Each replacement of a symbol comes to stand for it.
#[test]
fn substitutes(rt: HostRuntime) -> Result<(), Fail> {
    let alloc = rt.alloc();
    for (file, substitution, text) in &[
        // nothing to replace
        ("((x)) + (1)>=01.50", "", "x+1>=1.5"),
        ("a;x:=f();", "// no pair\n", "a;x:=f();"),
        ("x>0", "p()~>true", "x>0"),
        // functions and predicates
        (
            "[x:=f();]p(x) <-> p(f())",
            "p(._0)~>._0>=1, f()~>x+1",
            "[x:=x+1;]x>=1 <-> x+1>=1",
        ),
        ("f()>=0", "f()~>h()", "f()>=0"),
        ("f()>=0", "term f()~>h()", "h()>=0"),
        ("f()&f()>0", "f()~>h(),term f()~>2", "h()&2>0"),
        ("p(x,y)", "p(._0,._1)~>._1>._0", "y>x"),
        ("f(f(x))>0", "f(._0)~>._0+._0", "x+x+(x+x)>0"),
        ("f(x)+f(x,y)", "f(._0)~>._0^2", "x^2+f(x,y)"),
        ("x:=f();", "f()~>x", "x:=x;"),
        ("(f(x))'>0", "f(._0)~>._0+1", "(x+1)'>0"),
        // a replacement is not replaced in
        ("f(x)>0", "f(._0)~>f(._0)+1", "f(x)+1>0"),
        ("p()&q()", "p()~>q(),q()~>p()", "q()&p()"),
        ("[x:=1;]p()", "p()~>q(),q()~>x>0", "[x:=1;]q()"),
        // unit symbols
        ("f(||)+f(|y|)", "f(||)~>x", "x+f(|y|)"),
        ("p(|y|)&p(||)&p(|z|)", "p(|y|)~>x>0", "x>0&p(||)&p(|z|)"),
        (
            "\\forall x [x:=1;]p(||)",
            "p(||)~>x>0",
            "\\forall x [x:=1;]x>0",
        ),
        ("p(|y|)", "p(|y|)~>\\forall y y>0", "\\forall y y>0"),
        ("(f(||))'>0", "f(||)~>x", "(x)'>0"),
        // predicationals
        ("C{x>0}", "C{_}~>\\forall x _", "\\forall x x>0"),
        ("C{x>0}", "C{_}~>[x:=1;](_&_)", "[x:=1;](x>0&x>0)"),
        ("C{x>0}", "C{_}~>true", "true"),
        ("C{D{x>0}}", "C{_}~>!_,D{_}~>(_)'", "!(x>0)'"),
        ("C{q(x)}", "C{_}~>_,q(._0)~>._0>0", "x>0"),
        ("C{p(||)}", "C{_}~>_&true,p(||)~>x>0", "x>0&true"),
        ("C{p()}&p()", "C{_}~>_", "p()&p()"),
        // program constants
        ("p() -> [a;]p()", "p()~>x>0, a;~>y:=1;", "x>0 -> [y:=1;]x>0"),
        (
            "a;b;a;",
            "a;~>x:=1;++?true;",
            "{x:=1;++?true;}b;{x:=1;++?true;}",
        ),
        // names like the word for functions
        ("f()>term()", "f()~>term,term()~>1", "term>1"),
        ("term;", "term;~>?term();,term term()~>2", "?term();"),
    ] {
        makes(&rt, alloc, file, substitution, text)?;
    }
    Ok(())
}

/// The items of a replacement come to stand for an ODE constant.
#[test]
fn splices_items(rt: HostRuntime) -> Result<(), Fail> {
    let alloc = rt.alloc();
    for (file, substitution, text) in &[
        (
            "[{x'=1,c&q(||)}]p(||)",
            "{c}~>{y'=x}",
            "[{x'=1,y'=x&q(||)}]p(||)",
        ),
        ("{c,x'=1}", "{c}~>{y'=2,z'=3}", "{y'=2,z'=3,x'=1}"),
        (
            "{x'=f(),c,z'=g()&p()}",
            "{c}~>{y'=2,d,w'=3},f()~>1,g()~>4,p()~>2>0",
            "{x'=1,y'=2,d,w'=3,z'=4&2>0}",
        ),
        ("{c,d}", "{c}~>{x'=1},{d}~>{y'=2}", "{x'=1,y'=2}"),
        ("{c,d}", "{c}~>{d},{d}~>{c}", "{d,c}"),
        ("{c,c&true}", "{c}~>{d}", "{d,d}"),
        ("{c&x>0}", "{c}~>{x'=x*x'}", "{x'=x*x'&x>0}"),
        ("{c,c{|y|}}", "{c{|y|}}~>{x'=1}", "{c,x'=1}"),
        ("[{c&p()}]p()", "{c}~>{y'=1},p()~>x>0", "[{y'=1&x>0}]x>0"),
        ("{y'=f(),c}", "{c}~>{z'=1},f()~>x", "{y'=x,z'=1}"),
        ("[{c{|x|}}]p()", "p()~>x>x'", "[{c{|x|}}]x>x'"),
    ] {
        makes(&rt, alloc, file, substitution, text)?;
    }
    Ok(())
}

/// A system of so many constants.
fn system_of(alloc: Global, name: &str, count: usize) -> Result<Vec<u8>, AllocError> {
    let mut bytes = b"{".as_slice().to_vec(alloc)?;
    for i in 0..count {
        if i > 0 {
            bytes.push(b',')?;
        }
        bytes.extend_from_slice(name.as_bytes())?;
    }
    bytes.push(b'}')?;
    Ok(bytes)
}

/// A system of the result evolves no variable twice and has at most 64 items.
#[test]
fn splices_few_items(rt: HostRuntime) -> Result<(), Fail> {
    let alloc = rt.alloc();
    for (file, substitution) in &[
        ("{x'=1,c}", "{c}~>{x'=2}"),
        ("{c,c}", "{c}~>{x'=1}"),
        ("{c,d}", "{c}~>{x'=1},{d}~>{x'=1}"),
    ] {
        refuses(&rt, alloc, file, substitution, "not-admissible")?;
    }
    let most = joined(alloc, &system_of(alloc, "d", 64)?, b"\n", b"")?;
    for (count, status, printed) in [
        (32, 0, most.as_slice()),
        (33, 2, b"refused: not-admissible\n".as_slice()),
    ] {
        let by = joined(alloc, b"{c}~>", &system_of(alloc, "d", count)?, b"")?;
        answers(&rt, alloc, b"{c,c}", &by, status, printed, "two systems")?;
    }
    Ok(())
}

/// A replacement with `x` free under what may bind `x`: the result, or nothing where it is refused.
#[test]
fn captures_nothing(rt: HostRuntime) -> Result<(), Fail> {
    let alloc = rt.alloc();
    for (file, substitution, text) in &[
        ("\\forall x p()", "p()~>x>0", ""),
        ("\\forall y p()", "p()~>x>0", "\\forall y x>0"),
        ("\\forall x p()", "p()~>x'>0", "\\forall x x'>0"),
        ("\\exists x p()", "p()~>x>0", ""),
        ("\\exists y p()", "p()~>x>0", "\\exists y x>0"),
        ("[x:=1;]p()", "p()~>x>0", ""),
        ("[x:=1;]p()", "p()~>x'>0", "[x:=1;]x'>0"),
        ("[x':=1;]p()", "p()~>x'>0", ""),
        ("[x:=*;]p()", "p()~>x'>0", "[x:=*;]x'>0"),
        ("<x:=1;>p()", "p()~>x>0", ""),
        ("<y:=1;>p()", "p()~>x>0", "<y:=1;>x>0"),
        ("[x:=f();]true", "f()~>x", "[x:=x;]true"),
        ("[?x>0;]p()", "p()~>x>0", "[?x>0;]x>0"),
        ("x:=1;?p();", "p()~>x>0", ""),
        ("?p();x:=1;", "p()~>x>0", "?x>0;x:=1;"),
        ("?p();++x:=1;", "p()~>x>0", "?x>0;++x:=1;"),
        ("{?p();++x:=1;}*", "p()~>x>0", ""),
        ("{?p();++y:=1;}*", "p()~>x>0", "{?x>0;++y:=1;}*"),
        ("{x'=1&p()}", "p()~>x>0", ""),
        ("{y'=1&p()}", "p()~>x>0", "{y'=1&x>0}"),
        ("{y'=1,x'=f()}", "f()~>y'", ""),
        ("{y'=1,z'=f()}", "f()~>x", "{y'=1,z'=x}"),
        ("(f())'>0", "f()~>x", ""),
        ("(f())'>0", "f()~>2", "(2)'>0"),
        ("(p())'", "p()~>x>0", ""),
        ("(p())'", "p()~>2>0", "(2>0)'"),
        ("C{p()}", "p()~>x>0", ""),
        ("C{p()}", "p()~>2>0", "C{2>0}"),
        ("C{p()}", "p()~>x>0,C{_}~>_", ""),
        ("C{p()}", "p()~>2>0,C{_}~>_", "2>0"),
    ] {
        makes_if_any(&rt, alloc, file, substitution, text)?;
    }
    Ok(())
}

/// The same where the symbol isn't under the binder, or what binds is replaced.
#[test]
fn captures_what_the_result_binds(rt: HostRuntime) -> Result<(), Fail> {
    let alloc = rt.alloc();
    for (file, substitution, text) in &[
        // the symbol isn't under the binder, or is another one
        ("[x:=1;]q()&p()", "p()~>x>0", "[x:=1;]q()&x>0"),
        ("\\forall x p(1)", "p()~>x>0", "\\forall x p(1)"),
        ("\\forall x p()>0", "p()~>x>0", "\\forall x p()>0"),
        // what binds is what stands there in the result
        ("[a;]p()", "p()~>x>0", ""),
        ("[a;]p()", "p()~>x>0,a;~>x:=1;", ""),
        ("[a;]p()", "p()~>x>0,a;~>y:=x;", "[y:=x;]x>0"),
        ("p() -> [a;]p()", "p()~>x>0, a;~>x:=*;", ""),
        ("p() -> [a;]p()", "p()~>x>0, a;~>y:=*;", "x>0 -> [y:=*;]x>0"),
        ("[a;x:=1;]p()", "p()~>x>0,a;~>y:=1;", ""),
        ("{?p();a;}*", "p()~>x>0,a;~>x:=1;", ""),
        ("{?p();a;}*", "p()~>x>0,a;~>y:=1;", "{?x>0;y:=1;}*"),
        ("a;x:=f();", "f()~>y,a;~>y:=2;", ""),
        ("a;x:=f();", "f()~>z,a;~>y:=2;", "y:=2;x:=z;"),
        ("{c&p()}", "p()~>x>0", ""),
        ("{c&p()}", "p()~>x>0,{c}~>{x'=1}", ""),
        ("{y'=f(),c}", "f()~>x,{c}~>{x'=1}", ""),
        (
            "[?q(||);]p()",
            "p()~>x>0,q(||)~>[x:=1;]true",
            "[?[x:=1;]true;]x>0",
        ),
    ] {
        makes_if_any(&rt, alloc, file, substitution, text)?;
    }
    Ok(())
}

/// An argument with `x` free in a replacement that may bind `x`: the result, or nothing where it is refused.
#[test]
fn plugs_without_capture(rt: HostRuntime) -> Result<(), Fail> {
    let alloc = rt.alloc();
    for (file, substitution, text) in &[
        ("p(x)", "p(._0)~>\\forall x ._0>0", ""),
        ("p(x)", "p(._0)~>\\forall y ._0>y", "\\forall y x>y"),
        ("p(x)", "p(._0)~>\\forall x x>0", "\\forall x x>0"),
        ("p(x)", "p(._0)~>\\exists x ._0>0", ""),
        ("p(x')", "p(._0)~>\\exists x ._0>0", "\\exists x x'>0"),
        ("p(f())", "p(._0)~>\\exists y ._0<y, f()~>y", ""),
        ("p(x)", "p(._0)~>[x:=1;]._0>0", ""),
        ("p(x)", "p(._0)~>[x:=._0;]x>0", "[x:=x;]x>0"),
        ("p(x)", "p(._0)~>[y:=1;]._0>0", "[y:=1;]x>0"),
        ("p(x)", "p(._0)~>[a;]._0>0,a;~>y:=1;", ""),
        ("p(x)", "p(._0)~><x:=1;>._0>0", ""),
        ("p(x)", "p(._0)~>[x:=1;?._0>0;]true", ""),
        ("p(x)", "p(._0)~>[?._0>0;x:=1;]true", "[?x>0;x:=1;]true"),
        ("p(x)", "p(._0)~>[?._0>0;++x:=1;]true", "[?x>0;++x:=1;]true"),
        ("p(x)", "p(._0)~>[{?._0>0;++x:=1;}*]true", ""),
        ("p(x)", "p(._0)~>[{x'=._0}]true", ""),
        ("p(x')", "p(._0)~>[{x'=1&._0>0}]true", ""),
        ("p(x)", "p(._0)~>[{y'=._0}]true", "[{y'=x}]true"),
        ("f(x)>0", "f(._0)~>(._0)'", ""),
        ("f(2)>0", "f(._0)~>(._0)'", "(2)'>0"),
        ("p(x)", "p(._0)~>(._0>0)'", ""),
        ("p(2)", "p(._0)~>(._0>0)'", "(2>0)'"),
        ("p(x)", "p(._0)~>C{._0>0}", ""),
        ("p(2)", "p(._0)~>C{._0>0}", "C{2>0}"),
        (
            "p(x,2)",
            "p(._0,._1)~>._0>0&\\forall x ._1>0",
            "x>0&\\forall x 2>0",
        ),
    ] {
        makes_if_any(&rt, alloc, file, substitution, text)?;
    }
    Ok(())
}

/// The first bad pair, and the first reason against it: before what it would make is looked for.
#[test]
fn refuses_pairs(rt: HostRuntime) -> Result<(), Fail> {
    let alloc = rt.alloc();
    for (substitution, pair) in &[
        ("p()~>true, p()~>false", "2: twice"),
        ("term f()~>h(),f()~>1", "2: twice"),
        ("p()~>true,p()~>_", "2: twice"),
        ("a;~>?true;,p()~>x>0,a;~>?true;", "3: twice"),
        ("{c{|y|}}~>{x'=1},{c}~>{x'=1},{c{|y|}}~>{x'=1}", "3: twice"),
        ("f(._0)~>._1", "1: dot"),
        ("p()~>._0>0", "1: dot"),
        ("p(||)~>._0>0", "1: dot"),
        ("C{_}~>_&._0>0", "1: dot"),
        ("a;~>?._0>0;", "1: dot"),
        ("{c}~>{x'=._0}", "1: dot"),
        ("p(._0)~>_&._1>0", "1: dot"),
        ("p()~>_", "1: hole"),
        ("p()~>x>0,q()~>_,r()~>._0>0", "2: hole"),
        ("p(._0)~>_&._0>0", "1: hole"),
        ("f()~>f(||)+0,a;~>?_;", "2: hole"),
        ("p(|y|)~>_&y>0", "1: hole"),
        ("p(|y|)~>y>0", "1: taboo"),
        ("p(|y|)~>y'>0", "1: taboo"),
        ("f(|y|)~>x*y", "1: taboo"),
        ("p(|y|)~>q(||)", "1: taboo"),
        ("{c{|y|}}~>{y'=1}", "1: taboo"),
        ("{c{|y|}}~>{x'=y}", "1: taboo"),
        ("{c{|y|}}~>{x'=y'}", "1: taboo"),
    ] {
        let why = format!(in alloc; "subst pair {pair}")?;
        refuses(&rt, alloc, "[x:=1;]p()", substitution, why.as_str())?;
    }
    let all =
        "p()~>true,p(._0)~>true,p(||)~>true,p(|y|)~>true,p(|z|)~>true,p()~>1,p(._0)~>1,p{_}~>_,p;~>?true;,{p}~>{x'=1},{p{|y|}}~>{x'=1}";
    let file = "[p;{p}{p{|y|}}]p{p(|z|)&p(x)>p()}";
    makes(&rt, alloc, file, all, "[?true;{x'=1}{x'=1}](true&1>1)")?;
    Ok(())
}

/// The file is read first. In it argument dots and `_` are refused.
#[test]
fn refuses_to_substitute(rt: HostRuntime) -> Result<(), Fail> {
    let alloc = rt.alloc();
    for (file, substitution, text) in &[
        ("._0>0", "", "file at 0: syntax"),
        ("C{_}", "C{_}~>_", "file at 2: syntax"),
        ("x>=0 # y", "# p", "file at 5: byte"),
        ("", "p()~>", "file at 0: syntax"),
        ("1+f(1,2,3,4,5,6,7,8,9)", "", "file at 2: shape"),
        ("p()", "p()~>x>0 # y", "subst at 9: byte"),
        ("p()", "p()~>._8>0", "subst at 5: byte"),
        (
            "p()",
            "f()~>123456789012345678901234567890123456789",
            "subst at 5: literal",
        ),
        ("p()", "p()~>", "subst at 5: syntax"),
        ("p()", "p()~>true,", "subst at 10: syntax"),
        ("p()", "p()~>true;q()~>true", "subst at 9: syntax"),
        ("p()", "p~>true", "subst at 1: syntax"),
        ("p()", "p(x)~>x>0", "subst at 2: syntax"),
        ("p()", "p(._1)~>true", "subst at 2: syntax"),
        ("p()", "p(._0,._2)~>true", "subst at 6: syntax"),
        ("p()", "p()~>x:=1;", "subst at 6: syntax"),
        ("p()", "term p()~>true", "subst at 10: syntax"),
        ("p()", "C{true}~>true", "subst at 2: syntax"),
        ("p()", "a;~>x>0", "subst at 5: syntax"),
        ("p()", "a;~>x", "subst at 5: syntax"),
        ("p()", "{c}~>x'=1", "subst at 5: syntax"),
        ("p()", "{c}~>{x'=1&true}", "subst at 10: syntax"),
        ("p()", "{c}~>{x:=1;}", "subst at 7: syntax"),
        ("p()", "{c,d}~>{x'=1}", "subst at 2: syntax"),
        (
            "p()",
            "f(._0,._1,._2,._3,._4,._5,._6,._7,._0)~>1",
            "subst at 33: syntax",
        ),
        ("p()", "p()~>f(1,2,3,4,5,6,7,8,9)>0", "subst at 5: shape"),
        ("p()", "a;~>?true;,{c}~>{x'=1,x'=2}", "subst at 16: shape"),
    ] {
        refuses(&rt, alloc, file, substitution, text)?;
    }
    Ok(())
}

/// Each replacement keeps to the limits of a tree, and each file to its limit.
#[test]
fn keeps_substitutions_small(rt: HostRuntime) -> Result<(), Fail> {
    let alloc = rt.alloc();
    for (text, count, end, answer) in &[
        ("!", 1_000, "true", "refused: subst: depth 1001\n"),
        ("(", 1_201, "true", "refused: subst at 1205: nesting\n"),
        ("x>0&", 16_385, "true", "refused: subst: size 65541\n"),
    ] {
        let by = joined(
            alloc,
            b"p()~>",
            &repeated(alloc, text, *count)?,
            end.as_bytes(),
        )?;
        answers(&rt, alloc, b"p()", &by, 2, answer.as_bytes(), text)?;
    }
    for (length, status, answer) in [
        (1_048_576, 0, "true\n"),
        (1_048_577, 2, "refused: too-long s\n"),
    ] {
        let by = padded(alloc, "p()~>true", length)?;
        answers(&rt, alloc, b"p()", &by, status, answer.as_bytes(), answer)?;
    }
    for (length, status, answer) in [
        (1_048_576, 0, "true\n"),
        (1_048_577, 2, "refused: too-long e\n"),
    ] {
        let file = padded(alloc, "p()", length)?;
        answers(
            &rt,
            alloc,
            &file,
            b"p()~>true",
            status,
            answer.as_bytes(),
            answer,
        )?;
    }
    Ok(())
}

/// `f(f(.. f(x) ..))` between two texts, with so many `f`.
fn nested(alloc: Global, front: &str, count: usize, back: &str) -> Result<Vec<u8>, AllocError> {
    let mut bytes = front.as_bytes().to_vec(alloc)?;
    bytes.extend_from_slice(&repeated(alloc, "f(", count)?)?;
    bytes.push(b'x')?;
    bytes.extend_from_slice(&repeated(alloc, ")", count)?)?;
    bytes.extend_from_slice(back.as_bytes())?;
    Ok(bytes)
}

/// What `nested` becomes, in brackets and behind `-`, where `f(._0)` is replaced by `._0+._0`.
fn doubled(alloc: Global, count: usize) -> Result<Vec<u8>, AllocError> {
    let mut sum = b"x".as_slice().to_vec(alloc)?;
    for i in 0..count {
        let right = if i == 0 {
            sum.as_slice().to_vec(alloc)?
        } else {
            joined(alloc, b"(", &sum, b")")?
        };
        sum = joined(alloc, &sum, b"+", &right)?;
    }
    joined(alloc, b"-(", &sum, b")\n")
}

/// A result has at most 65,536 nodes: `f(..)` with 15 `f` becomes 65,535.
#[test]
fn keeps_results_small(rt: HostRuntime) -> Result<(), Fail> {
    let alloc = rt.alloc();
    let most = doubled(alloc, 15)?;
    let too_big = b"refused: result-too-big\n".as_slice();
    for (front, count, back, status, printed) in [
        ("-", 15, "", 0, most.as_slice()),
        ("--", 15, "", 2, too_big),
        ("", 17, ">0", 2, too_big),
    ] {
        let file = nested(alloc, front, count, back)?;
        answers(
            &rt,
            alloc,
            &file,
            b"f(._0)~>._0+._0",
            status,
            printed,
            front,
        )?;
    }
    Ok(())
}

/// A text, and behind it another one in so many `C{..}`.
fn wrapped(alloc: Global, front: &str, count: usize, middle: &[u8]) -> Result<Vec<u8>, AllocError> {
    let open = joined(alloc, front.as_bytes(), &repeated(alloc, "C{", count)?, b"")?;
    joined(alloc, &open, middle, &repeated(alloc, "}", count)?)
}

/// A result is at most 1,000 deep. One that is too big and too deep is too big.
#[test]
fn keeps_results_shallow(rt: HostRuntime) -> Result<(), Fail> {
    let alloc = rt.alloc();
    let by = b"C{_}~>!!!!!!!!!!_,f(._0)~>._0+._0".as_slice();
    let deep = joined(alloc, &repeated(alloc, "!", 999)?, b"true\n", b"")?;
    let too_big = b"refused: result-too-big\n".as_slice();
    for (front, count, status, printed) in [
        ("!!!!!!!!!", 99, 0, deep.as_slice()),
        ("", 100, 2, b"refused: result-too-deep\n".as_slice()),
    ] {
        let file = wrapped(alloc, front, count, b"true")?;
        answers(&rt, alloc, &file, by, status, printed, front)?;
        let both = joined(alloc, &file, &nested(alloc, "&", 15, ">0")?, b"")?;
        answers(&rt, alloc, &both, by, 2, too_big, front)?;
    }
    Ok(())
}

/// A result whose plain tree has more than 2^40 nodes is refused, or isn't needed, as fast as a small one.
#[test]
fn looks_at_each_subtree_once(rt: HostRuntime) -> Result<(), Fail> {
    let alloc = rt.alloc();
    for (front, back, more, status, printed) in &[
        ("", ">=0", "", 2, "refused: result-too-big\n"),
        ("g(", ")>=0", ",g(._0)~>1", 0, "1>=0\n"),
        (
            "p(",
            ")",
            ",p(._0)~>\\exists z z>._0",
            2,
            "refused: result-too-big\n",
        ),
    ] {
        let file = nested(alloc, front, 40, back)?;
        let by = joined(alloc, b"f(._0)~>._0+._0", more.as_bytes(), b"")?;
        answers(&rt, alloc, &file, &by, *status, printed.as_bytes(), front)?;
    }
    Ok(())
}

/// 500 nested predicationals, each of which becomes 500 negations: 250,000 levels.
#[test]
fn makes_deep_results(rt: HostRuntime) -> Result<(), Fail> {
    let alloc = rt.alloc();
    let file = wrapped(alloc, "", 500, b"p()")?;
    let by = joined(alloc, b"C{_}~>", &repeated(alloc, "!", 500)?, b"_")?;
    let too_big = b"refused: result-too-big\n".as_slice();
    answers(&rt, alloc, &file, &by, 2, too_big, "deep")?;
    let start = joined(alloc, b"1 start ==> ", &file, b"\n")?;
    let subst = joined(alloc, b"2 subst 1 ", &by, b"\ndone\n")?;
    let (status, reply) = checked(alloc, b"p()", &joined(alloc, &start, &subst, b"")?)?;
    assert_eq!(rt;
        reply.printed.as_slice(),
        b"refused: line 2: TooBig\n".as_slice()
    );
    assert_eq!(rt; status, 2);
    Ok(())
}

/// What plain recursion makes of the two texts in the plain store, printed; nothing where it makes none.
fn plainly<L: Ledger>(
    alloc: Global,
    file: &[u8],
    substitution: &[u8],
    blank: Blank,
) -> Option<Vec<u8>>
    requires name { blank.name ≡ L.name }
    requires parts { blank.parts ≡ L.parts }
    requires some { 0 < blank.parts }
{
    let mut store = PlainStore::new(alloc);
    plainly_in(
        alloc,
        file,
        substitution,
        &mut store,
        &mut Steps::<L>::new(blank),
    )
}

/// The same with a store.
fn plainly_in<S: Store, L: Ledger>(
    alloc: Global,
    file: &[u8],
    substitution: &[u8],
    store: &mut S,
    steps: &mut Steps<L>,
) -> Option<Vec<u8>> {
    let expression = read_expression(alloc, file, Dots::Refused, store).ok()?;
    let pairs = read_substitution(alloc, substitution, store).ok()?;
    let sigma = Subst::new(alloc, store, pairs, steps).ok()?;
    let result = dlk_subst_plain::apply(alloc, store, &sigma, expression, steps).ok()?;
    let mut printed = Vec::new(alloc);
    text(store, result, &mut printed, steps).ok()?;
    printed.push(b'\n').ok()?;
    Some(printed)
}

/// The plain form and the table of results make the same.
#[test]
fn substitutes_as_plainly(rt: HostRuntime) -> Result<(), Fail> {
    let alloc = rt.alloc();
    for (file, substitution) in &[
        ("[x:=f();]p(x) <-> p(f())", "p(._0)~>._0>=1, f()~>x+1"),
        ("f(x)+f(y)+f(f(x))>f(f(y))", "f(._0)~>._0*._0"),
        ("p(x,y)&p(y,x)&p(x,y)", "p(._0,._1)~>._0>._1|._1>._0"),
        ("C{D{x>0}}&C{x>0}", "C{_}~>!_&_,D{_}~>(_)'"),
        ("{x'=f(),c,z'=f()}", "{c}~>{y'=2,d},f()~>1"),
        ("{c,c}", "{c}~>{x'=1}"),
        ("p(x)&\\forall y p(x)", "p(._0)~>\\exists y ._0<y"),
        ("p(x)&p(y)", "p(._0)~>\\exists y ._0<y"),
        ("p() -> [a;]p()", "p()~>x>0, a;~>x:=1;"),
        ("[a;{a;}*]p(||)", "a;~>x:=*;,p(||)~>x>0"),
    ] {
        let plain = plainly::<Brand>(
            alloc,
            file.as_bytes(),
            substitution.as_bytes(),
            Blank::new(1),
        );
        let (status, printed) = match &plain {
            Some(text) => (0, text.as_slice()),
            None => (2, b"refused: not-admissible\n".as_slice()),
        };
        let (file, by) = (file.as_bytes(), substitution.as_bytes());
        answers(&rt, alloc, file, by, status, printed, substitution)?;
    }
    Ok(())
}

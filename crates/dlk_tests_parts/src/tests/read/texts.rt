// Texts of each kind, and the limits.
use super::same;
use dlk_grammar::Dots;
use dlk_lex::tokens;
use dlk_parse::ParseFault::{Literal, Nesting, Shape, Syntax, TooDeep};
use dlk_parse::TextFault::{BadByte, Unread};
use dlk_parse::{
    ParseFault, TextFault, expression, extra, program, read_expression, read_extra, read_formula,
    read_sequent, read_substitution, term,
};
use dlk_plain::PlainStore;
use dlk_store::Store;
use dlk_tree::{Kind, Name, Sym};
use std::alloc::Global;
use std::process::Abort;
use std::test::Fail;

/// The size and the depth of the formula of a text.
fn formula_in<S: Store>(
    alloc: Global,
    text: &[u8],
    store: &mut S,
) -> Result<(u32, u32), TextFault> {
    let id = read_formula(alloc, text, store)?;
    Ok((store.size(id), store.depth(id)))
}

fn formula_of(rt: &HostRuntime, text: &[u8]) -> Result<(u32, u32), TextFault> {
    formula_in(rt.alloc(), text, &mut PlainStore::new(rt.alloc()))
}

/// The size of the expression of a text.
fn expression_in<S: Store>(
    alloc: Global,
    text: &str,
    dots: Dots,
    store: &mut S,
) -> Result<u32, TextFault> {
    let id = read_expression(alloc, text.as_bytes(), dots, store)?;
    Ok(store.size(id))
}

fn expression_of(rt: &HostRuntime, text: &str, dots: Dots) -> Result<u32, TextFault> {
    expression_in(rt.alloc(), text, dots, &mut PlainStore::new(rt.alloc()))
}

/// How many formulas stand on the sides of a sequent.
fn sides_in<S: Store>(
    alloc: Global,
    text: &str,
    store: &mut S,
) -> Result<(usize, usize), TextFault> {
    let s = read_sequent(alloc, text.as_bytes(), store)?;
    Ok((s.ante.as_slice().len(), s.succ.as_slice().len()))
}

fn sides_of(rt: &HostRuntime, text: &str) -> Result<(usize, usize), TextFault> {
    sides_in(rt.alloc(), text, &mut PlainStore::new(rt.alloc()))
}

/// The text `before` n times, then `middle`, then `after` n times.
fn nested(
    rt: &HostRuntime,
    n: usize,
    before: &str,
    middle: &str,
    after: &str,
) -> Result<Vec<u8>, Fail> {
    let mut text = Vec::new(rt.alloc());
    for _ in 0..n {
        text.extend_from_slice(before.as_bytes())?;
    }
    text.extend_from_slice(middle.as_bytes())?;
    for _ in 0..n {
        text.extend_from_slice(after.as_bytes())?;
    }
    Ok(text)
}

#[test]
fn reads_formulas(rt: HostRuntime) -> Result<(), Fail> {
    for (text, want) in &[
        ("((x)) + (1)>=01.50->(y>0)", Ok((9, 4))),
        ("-x^2*y--1=0", Ok((11, 6))),
        (
            "[{x'=v,v'=a & v>=0}](x>=0 & !(x<0 | f(x)!=p(|x|)))",
            Ok((20, 7)),
        ),
        (
            "<?x>0; {a; ++ y':=1;}*> p(||) <-> \\forall x q(x)",
            Ok((16, 7)),
        ),
        (
            "[{x:=1;}* @invariant(x=1, [{b;}@invariant(x>0)] true)] true",
            Ok((5, 4)),
        ),
        ("x>=0 & -> y>0", Err(Unread(Syntax { at: 7 }))),
        ("x>=0 # y", Err(BadByte { at: 5 })),
        ("f(._0)>=0", Err(Unread(Syntax { at: 2 }))),
        ("_", Err(Unread(Syntax { at: 0 }))),
        ("", Err(Unread(Syntax { at: 0 }))),
        ("f(1,2,3,4,5,6,7,8)=0", Ok((11, 3))),
        ("1=0 & f(1,2,3,4,5,6,7,8,9)=0", Err(Unread(Shape { at: 6 }))),
        (
            "x>=123456789012345678901234567890123456789",
            Err(Unread(Literal { at: 3 })),
        ),
    ] {
        same(&rt, &formula_of(&rt, text.as_bytes()), want, text);
    }
    Ok(())
}

#[test]
fn reads_up_to_the_limits(rt: HostRuntime) -> Result<(), Fail> {
    for (n, before, middle, after, want) in &[
        (999, "!", "true", "", Ok((1000, 1000))),
        (1000, "!", "true", "", Err(Unread(TooDeep { depth: 1001 }))),
        (1200, "(", "x>=0", ")", Ok((3, 2))),
        (1201, "(", "", "", Err(Unread(Nesting { at: 1200 }))),
        // a closing bracket opens no level, and below none there is none
        (1201, ")(", "", "", Err(Unread(Syntax { at: 0 }))),
    ] {
        let text = nested(&rt, *n, before, middle, after)?;
        same(&rt, &formula_of(&rt, &text), want, before);
    }
    Ok(())
}

/// A literal with one digit too many.
const LONG: &str = "123456789012345678901234567890123456789";

#[test]
fn says_the_first_fault(rt: HostRuntime) -> Result<(), Fail> {
    for (n, before, middle, after, want) in &[
        // where no text goes on, whatever is behind it
        (1, ")", " x>=0 ", ")", Err(Unread(Syntax { at: 0 }))),
        (1, "x>=0 ) ", "1.", "", Err(BadByte { at: 8 })),
        (1, ") ", "/* x", "", Err(BadByte { at: 2 })),
        // the end, behind a comment
        (1, "x>= ", "// 0", "", Err(Unread(Syntax { at: 8 }))),
        (1, ") ", LONG, "", Err(Unread(Literal { at: 2 }))),
        (2, LONG, " ", "", Err(Unread(Literal { at: 0 }))),
        (1201, "(", LONG, "", Err(Unread(Literal { at: 1201 }))),
        (1201, "(", "", "] ", Err(Unread(Nesting { at: 1200 }))),
        (1201, "(", "#", "", Err(BadByte { at: 1201 })),
    ] {
        let text = nested(&rt, *n, before, middle, after)?;
        same(&rt, &formula_of(&rt, &text), want, before);
    }
    Ok(())
}

#[test]
fn reads_expressions(rt: HostRuntime) -> Result<(), Fail> {
    for (text, dots, want) in &[
        ("x", Dots::Refused, Ok(1)),
        ("p()", Dots::Refused, Ok(1)),
        ("x:=1;", Dots::Refused, Ok(2)),
        ("._0+1", Dots::Allowed, Ok(3)),
        ("!_", Dots::Allowed, Ok(2)),
        ("._0+1", Dots::Refused, Err(Unread(Syntax { at: 0 }))),
        ("{x'=1,x'=2}", Dots::Refused, Err(Unread(Shape { at: 0 }))),
    ] {
        same(&rt, &expression_of(&rt, text, *dots), want, text);
    }
    Ok(())
}

#[test]
fn reads_sequents(rt: HostRuntime) -> Result<(), Fail> {
    for (text, want) in &[
        ("==>", Ok((0, 0))),
        ("x>=0 ==>", Ok((1, 0))),
        ("==> x>=0->y>=0, (1>=x)", Ok((0, 2))),
        ("x>=0,y>=0,z>=0==>0>=0", Ok((3, 1))),
        ("x>=0, ==>", Err(Unread(Syntax { at: 6 }))),
        ("x>=0", Err(Unread(Syntax { at: 4 }))),
        ("==> x>=0 ==>", Err(Unread(Syntax { at: 9 }))),
        ("==> x>=0 &", Err(Unread(Syntax { at: 10 }))),
        ("true ==> {x'=1}", Err(Unread(Syntax { at: 9 }))),
    ] {
        same(&rt, &sides_of(&rt, text), want, text);
    }
    Ok(())
}

/// The size of the term of a text, or why it is none.
fn term_in<S: Store>(
    alloc: Global,
    text: &[u8],
    store: &mut S,
) -> Result<Result<u32, ParseFault>, Fail> {
    let whole = tokens(alloc, text)?;
    match term(alloc, whole.as_slice(), Dots::Refused, store) {
        Ok(id) => Ok(Ok(store.size(id))),
        Err(why) => Ok(Err(why)),
    }
}

#[test]
fn reads_a_term(rt: HostRuntime) -> Result<(), Fail> {
    let alloc = rt.alloc();
    for (text, want) in &[("(x+f(y))'*2.5", Ok(7)), ("x=y", Err(Syntax { at: 1 }))] {
        let found = term_in(alloc, text.as_bytes(), &mut PlainStore::new(alloc));
        same(&rt, &found?, want, text);
    }
    Ok(())
}

/// The size of the program of a text, or why it is none.
fn program_in<S: Store>(
    alloc: Global,
    text: &[u8],
    store: &mut S,
) -> Result<Result<u32, ParseFault>, Fail> {
    let whole = tokens(alloc, text)?;
    match program(alloc, whole.as_slice(), Dots::Refused, store) {
        Ok(id) => Ok(Ok(store.size(id))),
        Err(why) => Ok(Err(why)),
    }
}

#[test]
fn reads_a_program(rt: HostRuntime) -> Result<(), Fail> {
    let alloc = rt.alloc();
    for (text, want) in &[
        ("x:=1; {x'=x&true}* ++ ?x>0;", Ok(12)),
        ("x:=1", Err(Syntax { at: 4 })),
    ] {
        let found = program_in(alloc, text.as_bytes(), &mut PlainStore::new(alloc));
        same(&rt, &found?, want, text);
    }
    Ok(())
}

/// How many pairs a substitution has.
fn pairs_in<S: Store>(alloc: Global, text: &str, store: &mut S) -> Result<usize, TextFault> {
    let pairs = read_substitution(alloc, text.as_bytes(), store)?;
    Ok(pairs.len())
}

fn pairs_of(rt: &HostRuntime, text: &str) -> Result<usize, TextFault> {
    pairs_in(rt.alloc(), text, &mut PlainStore::new(rt.alloc()))
}

/// The symbol of this kind and head.
fn symbol(alloc: Global, kind: Kind, name: &str, arity: u8, taboo: Option<&str>) -> Option<Sym> {
    let name = Name::new(alloc, name.as_bytes()).ok()?;
    let taboo = match taboo {
        Some(taboo) => Some(Name::new(alloc, taboo.as_bytes()).ok()?),
        None => None,
    };
    Some(Sym {
        kind,
        name,
        arity,
        taboo,
    })
}

/// A pair of each kind of symbol.
const PAIRS: &str =
    "f(._0,._1)~>._0*._1, p(._0)~>g(._0), term k()~>h(), term(||)~>x, q(|y|)~>x=1, C{_}~>!_, a;~>x:=1;b;, {c}~>{x'=f(1,2),d}, {e{|z|}}~>{y'=1}";

/// The kind, the name, the arity and the taboo of the symbol of each pair.
const SYMBOLS: &[(Kind, &str, u8, Option<&str>)] = &[
    (Kind::Func, "f", 2, None),
    (Kind::Pred, "p", 1, None),
    (Kind::Func, "k", 0, None),
    (Kind::UnitFunc, "term", 0, None),
    (Kind::UnitPred, "q", 0, Some("y")),
    (Kind::Quant, "C", 0, None),
    (Kind::Prog, "a", 0, None),
    (Kind::Ode, "c", 0, None),
    (Kind::Ode, "e", 0, Some("z")),
];

/// The symbols of the pairs of a substitution are those of the table.
fn has_symbols<S: Store>(rt: &impl Abort, alloc: Global, store: &mut S) -> Result<(), TextFault> {
    let pairs = read_substitution(alloc, PAIRS.as_bytes(), store)?;
    same(rt, &pairs.len(), &SYMBOLS.len(), "pairs");
    for (pair, (kind, name, arity, taboo)) in pairs.iter().zip(SYMBOLS) {
        let want = symbol(alloc, *kind, name, *arity, *taboo);
        same(rt, &Some(&pair.sym), &want.as_ref(), name);
    }
    Ok(())
}

#[test]
fn reads_each_kind_of_pair(rt: HostRuntime) -> Result<(), Fail> {
    let read = has_symbols(&rt, rt.alloc(), &mut PlainStore::new(rt.alloc()));
    Ok(read?)
}

#[test]
fn reads_substitutions(rt: HostRuntime) -> Result<(), Fail> {
    for (text, want) in &[
        ("", Ok(0)),
        ("f()~>1,f()~>x:=1;", Err(Unread(Syntax { at: 13 }))),
        ("f()~>1,", Err(Unread(Syntax { at: 7 }))),
        ("term p()~>true", Err(Unread(Syntax { at: 10 }))),
        ("f(._1)~>1", Err(Unread(Syntax { at: 2 }))),
        ("f(._0,._2)~>1", Err(Unread(Syntax { at: 6 }))),
        ("{c}~>{x'=1&true}", Err(Unread(Syntax { at: 10 }))),
        ("{c}~>d;", Err(Unread(Syntax { at: 5 }))),
        ("C{_}~>x", Err(Unread(Syntax { at: 7 }))),
        ("f()~>1,{c}~>{x'=1,x'=2}", Err(Unread(Shape { at: 12 }))),
    ] {
        same(&rt, &pairs_of(&rt, text), want, text);
    }
    Ok(())
}

/// How many renames and pairs an extra has.
fn extra_in<S: Store>(
    alloc: Global,
    text: &str,
    store: &mut S,
) -> Result<(usize, usize), TextFault> {
    let read = read_extra(alloc, text.as_bytes(), store)?;
    Ok((read.renames.as_slice().len(), read.pairs.as_slice().len()))
}

fn extra_of(rt: &HostRuntime, text: &str) -> Result<(usize, usize), TextFault> {
    extra_in(rt.alloc(), text, &mut PlainStore::new(rt.alloc()))
}

#[test]
fn reads_extras(rt: HostRuntime) -> Result<(), Fail> {
    for (text, want) in &[
        ("", Ok((0, 0))),
        ("x_~~y", Ok((1, 0))),
        ("x_~~y,a(|y|)~>1", Ok((1, 1))),
        ("r(||)~>x>=0", Ok((0, 1))),
        ("x_~~y,", Err(Unread(Syntax { at: 6 }))),
        ("x_~~", Err(Unread(Syntax { at: 4 }))),
        ("x_~~y x", Err(Unread(Syntax { at: 6 }))),
        ("p()~>x>0,x_~~y", Err(Unread(Syntax { at: 11 }))),
    ] {
        same(&rt, &extra_of(&rt, text), want, text);
    }
    Ok(())
}

/// Whether a rename gives one name another.
fn is_rename(rename: &(Name, Name), name: &str, new: &str) -> bool {
    rename.0.bytes() == name.as_bytes() && rename.1.bytes() == new.as_bytes()
}

/// An extra has these renames.
fn has_renames<S: Store>(rt: &impl Abort, alloc: Global, store: &mut S) -> Result<(), Fail> {
    let whole = tokens(alloc, b"x_~~y, term~~x_, r(||)~>x>=0")?;
    let read = extra(alloc, whole.as_slice(), store)?;
    let renames = [("x_", "y"), ("term", "x_")];
    same(
        rt,
        &read.renames.as_slice().len(),
        &renames.len(),
        "renames",
    );
    for (rename, (name, new)) in read.renames.as_slice().iter().zip(renames) {
        same(rt, &is_rename(rename, name, new), &true, name);
    }
    Ok(())
}

#[test]
fn reads_renames(rt: HostRuntime) -> Result<(), Fail> {
    has_renames(&rt, rt.alloc(), &mut PlainStore::new(rt.alloc()))
}

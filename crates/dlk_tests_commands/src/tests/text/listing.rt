// What `vars` prints.
use super::*;

/// The four lines of what is free, bound and must-bound, and of the symbols.
fn lines_of(alloc: Global, lists: &[&str; 4]) -> Result<String, AllocError> {
    let [free, bound, must, symbols] = lists;
    format!(in alloc; "free: {free}\nbound: {bound}\nmust: {must}\nsymbols: {symbols}\n")
}

/// `vars` prints these four lists.
fn lists_bytes(
    rt: &impl Abort,
    alloc: Global,
    file: &[u8],
    lists: &[&str; 4],
    row: &str,
) -> Result<(), NoReply> {
    let lines = lines_of(alloc, lists)?;
    answers(rt, alloc, "vars", file, 0, lines.as_bytes(), row)
}

/// `vars` prints these four lists of a text.
pub(super) fn lists(
    rt: &impl Abort,
    alloc: Global,
    file: &str,
    lists: &[&str; 4],
) -> Result<(), NoReply> {
    lists_bytes(rt, alloc, file.as_bytes(), lists, file)
}

/// `vars` refuses the file by this line.
fn refuses(rt: &impl Abort, alloc: Global, file: &[u8], line: &str) -> Result<(), NoReply> {
    answers(rt, alloc, "vars", file, 2, line.as_bytes(), line)
}

/// One line for each operator of terms.
#[test]
fn lists_terms(rt: HostRuntime) -> Result<(), Fail> {
    let alloc = rt.alloc();
    for (file, wanted) in &[
        ("x", ["x", "none", "none", "none"]),
        ("x'", ["x'", "none", "none", "none"]),
        ("2.5", ["none", "none", "none", "none"]),
        ("._0", ["none", "none", "none", "none"]),
        ("f(||)+0", ["all", "none", "none", "unit-function f(||)"]),
        (
            "f(|y|)+0",
            ["all but y, y'", "none", "none", "unit-function f(|y|)"],
        ),
        (
            "f(y',x)+0",
            ["x, y'", "none", "none", "function f(._0,._1)"],
        ),
        ("-x", ["x", "none", "none", "none"]),
        ("(x*y')'", ["x, x', y'", "none", "none", "none"]),
        ("y+x", ["x, y", "none", "none", "none"]),
        ("x'-x", ["x, x'", "none", "none", "none"]),
        ("z*x*y", ["x, y, z", "none", "none", "none"]),
        ("x/f()", ["x", "none", "none", "function f()"]),
        ("x^y", ["x, y", "none", "none", "none"]),
    ] {
        lists(&rt, alloc, file, wanted)?;
    }
    Ok(())
}

/// One line for each operator of formulas.
#[test]
fn lists_formulas(rt: HostRuntime) -> Result<(), Fail> {
    let alloc = rt.alloc();
    for (file, wanted) in &[
        ("true", ["none", "none", "none", "none"]),
        ("false", ["none", "none", "none", "none"]),
        ("_", ["all", "all", "none", "none"]),
        ("p(||)", ["all", "none", "none", "unit-predicate p(||)"]),
        (
            "p(|y|)",
            ["all but y, y'", "none", "none", "unit-predicate p(|y|)"],
        ),
        ("p(x,y)", ["x, y", "none", "none", "predicate p(._0,._1)"]),
        ("x=y", ["x, y", "none", "none", "none"]),
        ("x!=y", ["x, y", "none", "none", "none"]),
        ("x>=y", ["x, y", "none", "none", "none"]),
        ("x>y", ["x, y", "none", "none", "none"]),
        ("x<=y", ["x, y", "none", "none", "none"]),
        ("x<y", ["x, y", "none", "none", "none"]),
        ("C{x>=0}", ["all", "all", "none", "predicational C{_}"]),
        ("!\\exists y y>x", ["x", "y", "none", "none"]),
        ("(x>=y')'", ["x, x', y'", "none", "none", "none"]),
        ("\\forall x x>=y", ["y", "x", "none", "none"]),
        ("\\exists x x>=y", ["y", "x", "none", "none"]),
        ("x>0&\\exists x x>y", ["x, y", "x", "none", "none"]),
        ("y>0|\\exists x x>y", ["y", "x", "none", "none"]),
        (
            "[x:=1;]true -> [y:=1;]true",
            ["none", "x, y", "none", "none"],
        ),
        ("x>0 <-> y>0", ["x, y", "none", "none", "none"]),
        ("[x:=y;]x>=z", ["y, z", "x", "none", "none"]),
        ("<x:=y;>x>=z", ["y, z", "x", "none", "none"]),
    ] {
        lists(&rt, alloc, file, wanted)?;
    }
    Ok(())
}

/// One line for each operator of programs, and what a program must-binds.
#[test]
fn lists_programs(rt: HostRuntime) -> Result<(), Fail> {
    let alloc = rt.alloc();
    for (file, wanted) in &[
        ("a;", ["all", "all", "none", "program a;"]),
        ("x:=y+x;", ["x, y", "x", "x", "none"]),
        ("x':=x;", ["x", "x'", "x'", "none"]),
        ("x:=*;", ["none", "x", "x", "none"]),
        ("?x>0;", ["x", "none", "none", "none"]),
        ("?[y:=x;]y>0;", ["x", "none", "none", "none"]),
        ("{x'=y&z>0}", ["x, y, z", "x, x'", "x, x'", "none"]),
        (
            "{x'=y,z'=1&w>0}",
            ["w, x, y, z", "x, x', z, z'", "x, x', z, z'", "none"],
        ),
        ("{c&true}", ["all", "all", "none", "ode {c}"]),
        ("{c,x'=1}", ["all", "all", "x, x'", "ode {c}"]),
        (
            "{c{|y|},y'=z}",
            ["all but y'", "all", "y, y'", "ode {c{|y|}}"],
        ),
        (
            "{c{|y|}&[z:=y;]true}",
            ["all but y'", "all but y, y'", "none", "ode {c{|y|}}"],
        ),
        ("{x'=1&[z:=y;]true}", ["x, y", "x, x'", "x, x'", "none"]),
        ("{x:=1;++y:=1;}", ["none", "x, y", "none", "none"]),
        ("x:=1;++x:=y;y:=x;", ["y", "x, y", "x", "none"]),
        ("x:=1;y:=x;", ["none", "x, y", "x, y", "none"]),
        ("y:=x;x:=1;", ["x", "x, y", "x, y", "none"]),
        ("{x:=1;y:=2;++y:=3;}*", ["none", "x, y", "none", "none"]),
        ("x:=1;y:=2;++y:=3;", ["none", "x, y", "y", "none"]),
        ("{x:=y;}*", ["y", "x", "none", "none"]),
    ] {
        lists(&rt, alloc, file, wanted)?;
    }
    Ok(())
}

/// What is free behind a quantifier, a program and a derivative.
#[test]
fn lists_what_is_free(rt: HostRuntime) -> Result<(), Fail> {
    let alloc = rt.alloc();
    for (file, wanted) in &[
        ("(x)'", ["x, x'", "none", "none", "none"]),
        ("(x')'", ["x'", "none", "none", "none"]),
        ("(x>=0)'", ["x, x'", "none", "none", "none"]),
        ("(\\forall x x>=y)'", ["y, y'", "x", "none", "none"]),
        (
            "\\forall x p(x,y)",
            ["y", "x", "none", "predicate p(._0,._1)"],
        ),
        ("\\forall x x'>=y", ["x', y", "x", "none", "none"]),
        (
            "\\forall x p(|y|)",
            ["all but x, y, y'", "x", "none", "unit-predicate p(|y|)"],
        ),
        ("[x:=1;]x>=y", ["y", "x", "none", "none"]),
        ("[x':=1;]x>=x'", ["x", "x'", "none", "none"]),
        ("[x:=*;]x>=x'", ["x'", "x", "none", "none"]),
        ("[?x>0;]x>0", ["x", "none", "none", "none"]),
        ("[x:=1;y:=x;]x>=y", ["none", "x, y", "none", "none"]),
        ("[{x:=1;++y:=1;}]x>=y", ["x, y", "x, y", "none", "none"]),
        ("[{x:=x;}*]x>0", ["x", "x", "none", "none"]),
        ("[{x:=1;}*]x>0", ["x", "x", "none", "none"]),
        ("[{x'=1}]x'>=y", ["x, y", "x, x'", "none", "none"]),
        (
            "[x:=1;]p(||)",
            ["all but x", "x", "none", "unit-predicate p(||)"],
        ),
        (
            "[{x'=1}]p(||)",
            ["all but x'", "x, x'", "none", "unit-predicate p(||)"],
        ),
        (
            "[{c{|y|}&p(|y|)}]q()",
            [
                "all but y, y'",
                "all but y, y'",
                "none",
                "predicate q(), unit-predicate p(|y|), ode {c{|y|}}",
            ],
        ),
        ("C{_}&._0>=x", ["all", "all", "none", "predicational C{_}"]),
    ] {
        lists(&rt, alloc, file, wanted)?;
    }
    Ok(())
}

/// In which order variables and symbols are listed, and which are told apart.
#[test]
fn lists_in_order(rt: HostRuntime) -> Result<(), Fail> {
    let alloc = rt.alloc();
    for (file, wanted) in &[
        (
            "x1+x'+x+x10+x2+X+x_",
            ["X, x, x', x1, x10, x2, x_", "none", "none", "none"],
        ),
        (
            "f()+f(x)+f(x,x)+f(x)",
            [
                "x",
                "none",
                "none",
                "function f(), function f(._0), function f(._0,._1)",
            ],
        ),
        (
            "f(1,2,3,4,5,6,7,8)>0",
            [
                "none",
                "none",
                "none",
                "function f(._0,._1,._2,._3,._4,._5,._6,._7)",
            ],
        ),
        (
            "p(|z|)&p(|y|)&p(||)&p(|y|)",
            [
                "all",
                "none",
                "none",
                "unit-predicate p(||), unit-predicate p(|y|), unit-predicate p(|z|)",
            ],
        ),
        (
            "q(0)&p(0,0)&p(b())&B()&q()",
            [
                "none",
                "none",
                "none",
                "function b(), predicate B(), predicate p(._0), predicate p(._0,._1), predicate q(), predicate q(._0)",
            ],
        ),
        (
            "[{a,b&a{a(||)}}a;]a()&a()>a(||)",
            [
                "all",
                "all",
                "none",
                "function a(), unit-function a(||), predicate a(), unit-predicate a(||), predicational a{_}, program a;, ode {a}, ode {b}",
            ],
        ),
        (
            "{c{|y|},c,c{|x|}}",
            ["all", "all", "none", "ode {c}, ode {c{|x|}}, ode {c{|y|}}"],
        ),
    ] {
        lists(&rt, alloc, file, wanted)?;
    }
    Ok(())
}

#[test]
fn refuses_to_list(rt: HostRuntime) -> Result<(), Fail> {
    let alloc = rt.alloc();
    for (file, line) in &[
        ("x>=0 # y", "refused: file at 5: byte\n"),
        ("x>=0 & -> y>0", "refused: file at 7: syntax\n"),
        ("", "refused: file at 0: syntax\n"),
        ("1+f(1,2,3,4,5,6,7,8,9)", "refused: file at 2: shape\n"),
    ] {
        refuses(&rt, alloc, file.as_bytes(), line)?;
    }
    let big = joined(alloc, &repeated(alloc, "x+", 32768)?, b"x", b"")?;
    refuses(&rt, alloc, &big, "refused: file: size 65537\n")?;
    Ok(())
}

#[test]
fn lists_long_files(rt: HostRuntime) -> Result<(), Fail> {
    let alloc = rt.alloc();
    let most = padded(alloc, "y", 1_048_576)?;
    let wanted = ["y", "none", "none", "none"];
    lists_bytes(&rt, alloc, &most, &wanted, "the longest")?;
    let more = padded(alloc, "y", 1_048_577)?;
    refuses(&rt, alloc, &more, "refused: too-long m\n")?;
    Ok(())
}

#[test]
fn lists_deep_files(rt: HostRuntime) -> Result<(), Fail> {
    let alloc = rt.alloc();
    let deep = joined(alloc, &repeated(alloc, "\\forall x ", 998)?, b"x>y", b"")?;
    let wanted = ["y", "x", "none", "none"];
    lists_bytes(&rt, alloc, &deep, &wanted, "the deepest")?;
    Ok(())
}

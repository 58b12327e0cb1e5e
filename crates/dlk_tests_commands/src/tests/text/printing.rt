// What `print` prints.
ghost use Rattle.std.specs.Prelude.{◌≤◌};

use super::*;

/// `print` prints this text of a file, and the same of that text.
pub(super) fn prints(
    rt: &impl Abort,
    alloc: Global,
    file: &str,
    text: &str,
) -> Result<(), NoReply> {
    let bytes = text.as_bytes();
    answers(rt, alloc, "print", file.as_bytes(), 0, bytes, file)?;
    answers(rt, alloc, "print", bytes, 0, bytes, text)
}

/// `print` prints this line of bytes, with this status.
fn answers_bytes(
    rt: &impl Abort,
    alloc: Global,
    file: &[u8],
    status: u8,
    line: &str,
) -> Result<(), NoReply> {
    answers(rt, alloc, "print", file, status, line.as_bytes(), line)
}

#[test]
fn prints_texts(rt: HostRuntime) -> Result<(), Fail> {
    let alloc = rt.alloc();
    for (file, text) in &[
        ("((x)) + (1)>=01.50->(y>0)", "x+1>=1.5 -> y>0\n"),
        ("-x^2*y--1=0", "-x^2*y--1=0\n"),
        ("(-x)^2*y^(-2)=-(x^(2^z))", "(-x)^2*y^-2=-x^2^z\n"),
        ("x + 1 // a term", "x+1\n"),
        ("f(x)", "f(x)\n"),
        ("x := 1; ++ y' := 2.0;", "x:=1;++y':=2;\n"),
        ("x := *; {y := * ;}*", "x:=*;{y:=*;}*\n"),
        ("._0 + f(||)", "._0+f(||)\n"),
        ("C{_} & p(._7,x)", "C{_}&p(._7,x)\n"),
        ("_", "_\n"),
        (
            "(\\forall x (x>0)) & \\exists y y=x",
            "\\forall x x>0&\\exists y y=x\n",
        ),
        ("[{x' = v & true}](x>0)", "[{x'=v}]x>0\n"),
        ("{{a:=1;};{a:=2;}}*@invariant(a>0);", "{a:=1;a:=2;}*\n"),
        ("x<-1 & a(|y|)<->b(||)", "x<-1&a(|y|) <-> b(||)\n"),
        (
            "99999999999999999999999999999999999999",
            "99999999999999999999999999999999999999\n",
        ),
    ] {
        prints(&rt, alloc, file, text)?;
    }
    Ok(())
}

#[test]
fn refuses_texts(rt: HostRuntime) -> Result<(), Fail> {
    let alloc = rt.alloc();
    for (file, text) in &[
        ("{x'=1,x'=2}", "refused: file at 0: shape\n"),
        ("1+f(1,2,3,4,5,6,7,8,9)", "refused: file at 2: shape\n"),
        (
            "123456789012345678901234567890123456789",
            "refused: file at 0: literal\n",
        ),
        ("x /* y", "refused: file at 2: byte\n"),
        ("x>=0 # y", "refused: file at 5: byte\n"),
        ("._8", "refused: file at 0: byte\n"),
        ("x>=0 & -> y>0", "refused: file at 7: syntax\n"),
        ("x>0 ==> y>0", "refused: file at 4: syntax\n"),
        ("x>0; y>0", "refused: file at 3: syntax\n"),
        ("x:=*y;", "refused: file at 4: syntax\n"),
        ("x':=*;", "refused: file at 4: syntax\n"),
    ] {
        let line = text.as_bytes();
        answers(&rt, alloc, "print", file.as_bytes(), 2, line, file)?;
    }
    Ok(())
}

/// What a byte alone is refused with, if it is.
fn refusal_of(byte: u8) -> Option<&'static str> {
    match byte {
        b'a'..=b'z' | b'A'..=b'Z' | b'0'..=b'9' | b'_' => None,
        b' ' | b'\t' | b'\r' | b'\n' => Some("refused: file at 1: syntax\n"),
        b'(' | b'[' | b'{' | b'<' | b'!' | b'-' | b'?' => Some("refused: file at 1: syntax\n"),
        b')' | b']' | b'}' | b'>' | b'&' | b'|' | b'=' => Some("refused: file at 0: syntax\n"),
        b'+' | b'*' | b'/' | b'^' | b'\'' | b';' | b',' => Some("refused: file at 0: syntax\n"),
        _ => Some("refused: file at 0: byte\n"),
    }
}

#[test]
fn reads_bytes_alone(rt: HostRuntime) -> Result<(), Fail> {
    let alloc = rt.alloc();
    for byte in 0..=255u8 {
        let same = [byte, b'\n'];
        let (status, line) = match refusal_of(byte) {
            Some(text) => (2, text.as_bytes()),
            None => (0, same.as_slice()),
        };
        let row = format!(in alloc; "{byte}")?;
        answers(&rt, alloc, "print", &[byte], status, line, row.as_str())?;
    }
    Ok(())
}

#[test]
fn reads_long_files(rt: HostRuntime) -> Result<(), Fail> {
    let alloc = rt.alloc();
    for (length, status, text) in [
        (1_048_576, 0, "x>=0\n"),
        (1_048_577, 2, "refused: too-long m\n"),
    ] {
        let file = padded(alloc, "x>=0", length)?;
        answers_bytes(&rt, alloc, &file, status, text)?;
    }
    Ok(())
}

#[test]
fn reads_opened_programs(rt: HostRuntime) -> Result<(), Fail> {
    let alloc = rt.alloc();
    let file = repeated(alloc, "<?", 20_000)?;
    answers_bytes(&rt, alloc, &file, 2, "refused: file at 40000: syntax\n")?;
    Ok(())
}

#[test]
fn reads_nested_brackets(rt: HostRuntime) -> Result<(), Fail> {
    let alloc = rt.alloc();
    for (levels, status, text) in [
        (1200, 0, "x>=0\n"),
        (1201, 2, "refused: file at 1200: nesting\n"),
    ] {
        let front = repeated(alloc, "(", levels)?;
        let back = repeated(alloc, ")", levels)?;
        let file = joined(alloc, &front, b"x>=0", &back)?;
        answers_bytes(&rt, alloc, &file, status, text)?;
    }
    Ok(())
}

/// A system of so many constants.
fn system_of(alloc: Global, count: usize) -> Result<Vec<u8>, AllocError>
    requires { 1 ≤ count }
{
    joined(alloc, b"{", &repeated(alloc, "c,", count - 1)?, b"c}")
}

#[test]
fn reads_items(rt: HostRuntime) -> Result<(), Fail> {
    let alloc = rt.alloc();
    let most = system_of(alloc, 64)?;
    let line = joined(alloc, &most, b"\n", b"")?;
    answers(&rt, alloc, "print", &most, 0, &line, "64 items")?;
    let more = system_of(alloc, 65)?;
    answers_bytes(&rt, alloc, &more, 2, "refused: file at 0: shape\n")?;
    Ok(())
}

#[test]
fn keeps_to_depth(rt: HostRuntime) -> Result<(), Fail> {
    let alloc = rt.alloc();
    let deep = joined(alloc, &repeated(alloc, "!", 999)?, b"true", b"")?;
    let line = joined(alloc, &deep, b"\n", b"")?;
    answers(&rt, alloc, "print", &deep, 0, &line, "1,000 levels")?;
    let deeper = joined(alloc, b"!", &deep, b"")?;
    answers_bytes(&rt, alloc, &deeper, 2, "refused: file: depth 1001\n")?;
    Ok(())
}

#[test]
fn keeps_to_size(rt: HostRuntime) -> Result<(), Fail> {
    let alloc = rt.alloc();
    let big = joined(alloc, &repeated(alloc, "x+", 32768)?, b"x", b"")?;
    answers_bytes(&rt, alloc, &big, 2, "refused: file: size 65537\n")?;
    Ok(())
}

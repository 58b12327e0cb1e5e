// What is refused of models and terms.
use super::*;

#[test]
fn refuses_models(rt: HostRuntime) -> Result<(), Fail> {
    let alloc = rt.alloc();
    for (model, printed) in &[
        ("x>=0 # y", "refused: model at 5: byte\n"),
        ("x>=.5", "refused: model at 3: byte\n"),
        ("x>=0 /* y>=0", "refused: model at 5: byte\n"),
        (
            "x>=123456789012345678901234567890123456789",
            "refused: model at 3: literal\n",
        ),
        ("x>=0 & -> y>0", "refused: model at 7: syntax\n"),
        ("x>=0, y>=0", "refused: model at 4: syntax\n"),
        ("==> x>=0", "refused: model at 0: syntax\n"),
        ("", "refused: model at 0: syntax\n"),
        ("x>=", "refused: model at 3: syntax\n"),
        ("x>=0 -> (y>=0", "refused: model at 13: syntax\n"),
        ("x>=0 y>=0", "refused: model at 5: syntax\n"),
        ("x+1", "refused: model at 3: syntax\n"),
        ("f(x,)>=0", "refused: model at 4: syntax\n"),
        ("[x:=1 x>=0", "refused: model at 6: syntax\n"),
        ("p(||", "refused: model at 3: syntax\n"),
        ("x>=0 <- y", "refused: model at 5: syntax\n"),
        ("x:=1;", "refused: model at 1: syntax\n"),
        ("._0>=0", "refused: model at 0: syntax\n"),
        ("x>=0 & _", "refused: model at 7: syntax\n"),
        ("x>=0 & [{x'=1,x'=2}]x>=0", "refused: model at 8: shape\n"),
        ("f(1,2,3,4,5,6,7,8,9)>=0", "refused: model at 0: shape\n"),
        // the first fault in the order of the document
        (
            "x>=123456789012345678901234567890123456789 #",
            "refused: model at 43: byte\n",
        ),
        (
            "[{x'=1,x'=2}]x>=123456789012345678901234567890123456789",
            "refused: model at 16: literal\n",
        ),
        ("[{x'=1,x'=2}]x", "refused: model at 14: syntax\n"),
    ] {
        answers(&rt, alloc, model.as_bytes(), TERM.as_bytes(), 2, printed)?;
    }
    Ok(())
}

/// The place of a fault may be the end, behind many open programs.
#[test]
fn refuses_opened_programs(rt: HostRuntime) -> Result<(), Fail> {
    let alloc = rt.alloc();
    let model = repeated(alloc, "<?", 400_000)?;
    let printed = "refused: model at 800000: syntax\n";
    answers(&rt, alloc, &model, TERM.as_bytes(), 2, printed)?;
    Ok(())
}

#[test]
fn refuses_bytes(rt: HostRuntime) -> Result<(), Fail> {
    let alloc = rt.alloc();
    let words = ["check", "model", "term"];
    for byte in 128..=255u8 {
        let row = format!(in alloc; "{byte}")?;
        let model = [b'x', byte];
        let texts = [model.as_slice(), TERM.as_bytes()];
        let printed = "refused: model at 1: byte\n".as_bytes();
        prints(&rt, alloc, &words, &texts, 2, printed, row.as_str())?;
        let term = [byte];
        let texts = [b"x>=0".as_slice(), term.as_slice()];
        let printed = "refused: line 1: Malformed\n".as_bytes();
        prints(&rt, alloc, &words, &texts, 2, printed, row.as_str())?;
    }
    Ok(())
}

/// `true` behind so many `!`.
fn negations(alloc: Global, count: usize) -> Result<Vec<u8>, AllocError> {
    joined(alloc, &repeated(alloc, "!", count)?, b"true", b"")
}

#[test]
fn keeps_to_depth_of_models(rt: HostRuntime) -> Result<(), Fail> {
    let alloc = rt.alloc();
    let model = negations(alloc, 999)?;
    let term = joined(alloc, b"1 start ==> ", &model, b"\ndone\n")?;
    answers_between(&rt, alloc, &model, &term, 1, "open\n", "")?;
    let deeper = negations(alloc, 1000)?;
    answers(
        &rt,
        alloc,
        &deeper,
        &term,
        2,
        "refused: model: depth 1001\n",
    )?;
    Ok(())
}

#[test]
fn keeps_to_depth_of_lines(rt: HostRuntime) -> Result<(), Fail> {
    let alloc = rt.alloc();
    let deep = negations(alloc, 1000)?;
    let term = joined(alloc, b"1 start ==> ", &deep, b"\ndone\n")?;
    answers(
        &rt,
        alloc,
        b"true",
        &term,
        2,
        "refused: line 1: Malformed\n",
    )?;
    Ok(())
}

#[test]
fn keeps_to_lengths_of_models(rt: HostRuntime) -> Result<(), Fail> {
    let alloc = rt.alloc();
    let short = b"1 start ==> x>=0\ndone\n".as_slice();
    let most = padded(alloc, "x>=0", 1_048_576)?;
    answers_between(&rt, alloc, &most, short, 1, "open\n", "")?;
    let more = padded(alloc, "x>=0", 1_048_577)?;
    answers(&rt, alloc, &more, short, 2, "refused: too-long model\n")?;
    Ok(())
}

#[test]
fn keeps_to_lengths_of_terms(rt: HostRuntime) -> Result<(), Fail> {
    let alloc = rt.alloc();
    for (model, length, printed) in [
        ("x>=0", 67_108_864, "refused: line 1: Malformed\n"),
        ("#", 67_108_865, "refused: too-long term\n"),
    ] {
        let term = padded(alloc, "", length)?;
        answers(&rt, alloc, model.as_bytes(), &term, 2, printed)?;
    }
    let mut term = padded(alloc, "1 start ==> x>=0", 1_000_000)?;
    term.extend_from_slice(b"\ndone\n")?;
    answers_between(&rt, alloc, b"x>=0", &term, 1, "open\n", "")?;
    Ok(())
}

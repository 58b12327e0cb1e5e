// What is left where memory runs out. With ample memory each answer is the whole one; `bench/starved.py` has each allocation of this test
// refused in turn.
use super::*;

/// A term whose result has 2^40 nodes where `f` doubles.
const DOUBLED: &str =
    "f(f(f(f(f(f(f(f(f(f(f(f(f(f(f(f(f(f(f(f(f(f(f(f(f(f(f(f(f(f(f(f(f(f(f(f(f(f(f(f(x))))))))))))))))))))))))))))))))))))))))";

/// A desk with these three texts, one behind another, as the file `first`, and this one as `second`.
fn desk_with(alloc: Global, first: &[&str; 3], second: &str) -> Result<MemoryDesk, AllocError> {
    let mut text = Vec::new(alloc);
    for part in first {
        text.extend_from_slice(part.as_bytes())?;
    }
    let mut files = Vec::new(alloc);
    files.push((String::from_str(alloc, "first")?, text))?;
    files.push((
        String::from_str(alloc, "second")?,
        second.as_bytes().to_vec(alloc)?,
    ))?;
    Ok(MemoryDesk::new(alloc, files, 100, Vec::new(alloc)))
}

/// Whether nothing went out.
fn is_silent(desk: &MemoryDesk) -> bool {
    desk.printed().is_empty() && desk.file("term").is_none()
}

/// Whether the term was written whole, if one is to be written.
fn has_term(desk: &MemoryDesk, is_written: bool) -> bool {
    match desk.file("term") {
        Some(term) => is_written
            && term.starts_with(b"dlk 2\nnode 1 ")
            && term.ends_with(b"\ndone\n"),
        None => !is_written,
    }
}

/// Whether a run that ended so kept its word: the whole answer, or nothing with status 6; and where the desk itself wanted memory a fault of the
/// call in which it did.
fn is_kept(desk: &MemoryDesk, status: u8, wanted: u8, printed: &str) -> bool {
    if desk.starved() > 0 {
        return match status {
            4 => desk.read_faults() > 0 && is_silent(desk),
            5 => desk.write_faults() > 0 && printed.as_bytes().starts_with(desk.printed()),
            _ => false,
        };
    }
    if status == 6 {
        return is_silent(desk);
    }
    status == wanted && desk.printed() == printed.as_bytes()
}

#[test]
fn answers_whole_or_nothing(rt: HostRuntime) -> Result<(), Fail> {
    let alloc = rt.alloc();
    for (line, first, second, status, printed) in &[
        (
            "prove first second term",
            ["x>=0 -> [x:=x+1;]x>=1", "", ""],
            "implyR(1); useAt(assignb,1); leaf",
            0,
            "closed\nconclusion ==> x>=0 -> [x:=x+1;]x>=1\ngoals 0\nleaves 1\nleaf 1 x>=0 ==> x+1>=1\nlines 15\n",
        ),
        (
            "prove first second term",
            [
                "v>=0 & A>0 -> [{{a:=A;++a:=0;}{x'=v,v'=a&v>=0}}*@invariant(v>=0)]v>=0",
                "",
                "",
            ],
            "implyR(1); loop(\"v>=0\",1); <(leaf, useAt(composeb,1); useAt(choiceb,1); andR(1); useAt(assignb,1); dW(1); leaf, leaf)",
            0,
            "closed\nconclusion ==> v>=0&A>0 -> [{{a:=A;++a:=0;}{x'=v,v'=a&v>=0}}*]v>=0\ngoals 0\nleaves 2\nleaf 1 v>=0&A>0 ==> v>=0\nleaf 2 v>=0 ==> v>=0\nlines 104\n",
        ),
        (
            "subst first second",
            ["", DOUBLED, ">=0"],
            "f(._0)~>._0+._0",
            2,
            "refused: result-too-big\n",
        ),
        (
            "subst first second",
            ["g(", DOUBLED, ")>=0"],
            "f(._0)~>._0+._0, g(._0)~>1",
            0,
            "1>=0\n",
        ),
        (
            "subst first second",
            ["p(", DOUBLED, ")"],
            "f(._0)~>._0+._0, p(._0)~>\\exists z z>._0",
            2,
            "refused: result-too-big\n",
        ),
    ] {
        let mut desk = desk_with(alloc, first, second)?;
        let ended = status_of(alloc, line, &mut desk)?;
        assert!(rt; is_kept(&desk, ended, *status, printed), "{second}");
        // A file is written whole before anything is printed.
        let is_written = (ended == *status || desk.print_faults() > 0) && line.starts_with("prove");
        assert!(rt;
            desk.file_faults() > 0 || has_term(&desk, is_written),
            "{second}"
        );
    }
    Ok(())
}

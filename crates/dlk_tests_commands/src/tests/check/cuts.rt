// A term that is cut short.
use super::*;

/// How often the term of `examples/increment` is still a term but for its end, where it is cut in this line or behind it: the line is cut to a
/// line that is a step. A whole line is one such. The first one has a sequent behind `==>`, behind the space after it, and on both
/// sides of the space behind `x>=0`; the last but one has a leaf on both sides of the space behind `==>`; a substitution has its pairs
/// one by one, or none, and in a pair the term `x`, `x+1` or `._0`.
const TAKEN: [usize; 15] = [5, 1, 1, 1, 5, 1, 6, 1, 1, 1, 1, 1, 1, 3, 1];

/// The same of the term in version 2. Its first line is its head. A start and a leaf are also sequents without a right side, and pairs are read one
/// by one, of which the second ends in the number of an earlier node first.
const TAKEN_BY_NODES: [usize; 29] = [
    1, 1, 1, 1, 1, 1, 1, 1, 1, 1, 2, 1, 1, 1, 1, 1, 4, 1, 1, 1, 5, 1, 1, 1, 1, 1, 1, 2, 1,
];

/// Whether the line after this one is missing: true, where it is all that is wrong; false, where this line is refused; nothing, where
/// another line is, or another reason is given against the missing one.
fn lacks_next(alloc: Global, line: usize, printed: &[u8]) -> Result<Option<bool>, AllocError> {
    let next = line.saturating_add(1);
    let missing = format!(in alloc; "refused: line {next}: NoEnd\n")?;
    if printed == missing.as_bytes() {
        return Ok(Some(true));
    }
    let refused = format!(in alloc; "refused: line {line}: ")?;
    if printed.starts_with(refused.as_bytes()) {
        Ok(Some(false))
    } else {
        Ok(None)
    }
}

/// A term of `examples/increment` is refused at the line in which it is cut, or at the next one, which is missing. So often it is the next
/// one, by the line that is cut.
fn refuses_cuts(
    rt: &impl Abort,
    alloc: Global,
    term: &[u8],
    missing: &[usize],
) -> Result<(), NoReply> {
    let model = INCREMENT_MODEL.as_bytes();
    let whole = term.len().saturating_sub(1);
    let mut line = 1_usize;
    let mut taken = Vec::new(alloc);
    let mut here = 0_usize;
    for (cut, byte) in term.iter().enumerate() {
        let (status, reply) = checked(alloc, model, term.get(..cut).unwrap_or(&[]))?;
        if cut == whole {
            assert_eq!(rt; reply.printed.as_slice(), INCREMENT_REPORT.as_bytes());
            assert_eq!(rt; status, 0);
            break;
        }
        let lacks = lacks_next(alloc, line, &reply.printed)?;
        assert!(rt; lacks.is_some(), "{cut}");
        assert_eq!(rt; status, 2, "{cut}");
        if lacks == Some(true) {
            here = here.saturating_add(1);
        }
        if *byte == b'\n' {
            line = line.saturating_add(1);
            taken.push(here)?;
            here = 0;
        }
    }
    assert_eq!(rt; taken.as_slice(), missing);
    Ok(())
}

#[test]
fn refuses_cut_terms(rt: HostRuntime) -> Result<(), Fail> {
    let alloc = rt.alloc();
    refuses_cuts(&rt, alloc, INCREMENT_TERM.as_bytes(), &TAKEN)?;
    Ok(())
}

#[test]
fn refuses_cut_terms_by_nodes(rt: HostRuntime) -> Result<(), Fail> {
    let alloc = rt.alloc();
    refuses_cuts(&rt, alloc, INCREMENT_BY_NODES.as_bytes(), &TAKEN_BY_NODES)?;
    Ok(())
}

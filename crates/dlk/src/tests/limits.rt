// The least that is past the limit of leaves in what `link` makes, and the most that is within it. `bench/limits.py` has the limits of lines and of
// bytes, which take too long for a test.
use super::*;

/// A term of `true` with this goal alone, and with so many leaves, the first of them of this number.
fn with_leaves(alloc: Global, first: u32, count: u32) -> Result<Vec<u8>, AllocError> {
    let mut term = b"1 start ==> true\n".as_slice().to_vec(alloc)?;
    let mut fact = 1u32;
    for more in 0..count {
        let number = first.saturating_add(more);
        let cut = fact.saturating_add(1);
        let leaf = fact.saturating_add(2);
        let merged = fact.saturating_add(3);
        let hidden = fact.saturating_add(4);
        let lines = format!(in alloc;
            "{cut} apply {fact} 1 cut(x>={number})\n{leaf} leaf x>={number} ==> true\n{merged} merge {cut} 1 {leaf}\n{hidden} apply {merged} 1 hideR(2)\n"
        )?;
        term.extend_from_slice(lines.as_bytes())?;
        fact = hidden;
    }
    term.extend_from_slice(b"done\n")?;
    Ok(term)
}

/// A term with one leaf, and a lemma with 1,024: as many as there may be, where the one is among them.
#[test]
fn links_as_many_leaves_as_may_be(rt: HostRuntime) -> Result<(), Fail> {
    let alloc = rt.alloc();
    let lemma = with_leaves(alloc, 0, 1_024)?;
    for (first, status, printed, written) in [
        (
            1_023,
            1,
            "open\nconclusion ==> true\ngoals 1\ngoal 1 ==> true\nleaves 1024\n",
            true,
        ),
        (1_024, 2, "refused: link: LeavesFull\n", false),
    ] {
        let term = with_leaves(alloc, first, 1)?;
        let files = [
            ("model", b"true".as_slice()),
            ("term", term.as_slice()),
            ("lemma", lemma.as_slice()),
        ];
        let mut desk = desk_with(alloc, &files, 65_536, &[])?;
        let found = status_of(alloc, "link model term lemma out", &mut desk)?;
        assert_eq!(rt; found, status);
        assert!(rt; desk.printed().starts_with(printed.as_bytes()));
        assert_eq!(rt; desk.file("out").is_some(), written);
    }
    Ok(())
}

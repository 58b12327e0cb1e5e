// What `smt` answers.
use super::*;

/// The words of an export.
const SMT: [&str; 3] = ["smt", "model", "term"];

#[test]
fn exports_leaves(rt: HostRuntime) -> Result<(), Fail> {
    let alloc = rt.alloc();
    for (model, term, status, printed) in &[
        // examples/increment
        (
            INCREMENT_MODEL,
            INCREMENT_TERM,
            0,
            "; leaf 1\n(set-logic NRA)\n(declare-const |v.x| Real)\n(assert (>= |v.x| 0.0))\n(assert (not (>= (+ |v.x| 1.0) 1.0)))\n(check-sat)\n",
        ),
        // a power
        (
            "x^2>=0",
            "1 leaf ==> x^2>=0\ndone\n",
            0,
            "; leaf 1\n(set-logic NRA)\n(declare-const |v.x| Real)\n(assert (not (>= (let ((|e| |v.x|)) (* |e| |e|)) 0.0)))\n(check-sat)\n",
        ),
        // a power that has no text
        (
            "x^y>=0",
            "1 leaf ==> x^y>=0\ndone\n",
            2,
            "refused: leaf 1: power\n",
        ),
        // goals are left, and no leaves
        (
            "x^17>=0",
            "1 leaf ==> x^17>=0\ndone\n",
            2,
            "refused: leaf 1: power\n",
        ),
        (
            "x/2!=y",
            "1 leaf ==> x/2!=y\ndone\n",
            0,
            "; leaf 1\n(set-logic NRA)\n(declare-const |v.x| Real)\n(declare-const |v.y| Real)\n(assert (not (not (= (/ |v.x| 2.0) |v.y|))))\n(check-sat)\n",
        ),
        ("x>=0", "1 start ==> x>=0\ndone\n", 1, ""),
        // what `check` refuses
        ("x>=0 & -> y>0", "", 2, "refused: model at 7: syntax\n"),
        ("x>=0", "", 2, "refused: line 1: NoEnd\n"),
        (
            "x>=1",
            "1 start ==> x>=0\ndone\n",
            2,
            "refused: other-conclusion 1\nexpected ==> x>=1\nfound ==> x>=0\n",
        ),
    ] {
        let texts = [model.as_bytes(), term.as_bytes()];
        prints(&rt, alloc, &SMT, &texts, *status, printed.as_bytes(), model)?;
    }
    Ok(())
}

/// `smt` prints this of a model and a term.
fn exports(
    rt: &impl Abort,
    alloc: Global,
    model: &str,
    term: &[u8],
    printed: &[u8],
) -> Result<(), NoReply> {
    let texts = [model.as_bytes(), &term[..]];
    prints(rt, alloc, &SMT, &texts, 0, printed, model)?;
    Ok(())
}

#[test]
fn exports_leaf_by_leaf(rt: HostRuntime) -> Result<(), Fail> {
    let alloc = rt.alloc();
    let model = "v>=0 & A>0 -> [{{a:=A;++a:=0;}{x'=v,v'=a&v>=0}}*@invariant(v>=0)]v>=0";
    let strategy =
        "implyR(1); boxCut(\"v>=0\",1); <(cutR(\"v>=0\",1); <(nil, useAt(I,1); G(1); implyR(1)), nil); <(leaf, useAt(composeb,1); useAt(choiceb,1); andR(1); useAt(assignb,1); useAt(DWeq,1); G(1); implyR(1); leaf, leaf)";
    let term = proof(alloc, model, strategy)?;
    let printed =
        "; leaf 1\n(set-logic NRA)\n(declare-const |v.A| Real)\n(declare-const |v.v| Real)\n(assert (and (>= |v.v| 0.0) (> |v.A| 0.0)))\n(assert (not (>= |v.v| 0.0)))\n(check-sat)\n; leaf 2\n(reset)\n(set-logic NRA)\n(declare-const |v.v| Real)\n(assert (>= |v.v| 0.0))\n(assert (not (>= |v.v| 0.0)))\n(check-sat)\n".as_bytes();
    exports(&rt, alloc, model, &term, printed)?;
    Ok(())
}

// What `guard` says of a term: of each condition on its lines there is a row that breaks it alone, and rows beside it that don't.
use super::*;

/// `guard` says this line of a term, and then what `check` prints of it, with the same status.
fn guards(
    rt: &impl Abort,
    alloc: Global,
    model: &str,
    term: &[u8],
    line: &str,
) -> Result<(), NoReply> {
    let (status, reply) = checked(alloc, model.as_bytes(), term)?;
    let wanted = joined(alloc, line.as_bytes(), b"\n", reply.printed.as_slice())?;
    let (words, texts) = (["guard", "model", "term"], [model.as_bytes(), term]);
    prints(rt, alloc, &words, &texts, status, &wanted, model)?;
    Ok(())
}

/// Uses of DI. `dI` merges its instance at line 15 of the term that is written.
#[test]
fn guards_invariants(rt: HostRuntime) -> Result<(), Fail> {
    let alloc = rt.alloc();
    for (model, line) in &[
        // DI: no ODE constant is left in the system
        ("[{c,x'=1}]x>=0", "unguarded line 15: di-constant c"),
        (
            "[{x'=1,c{|y|}}]x>=0",
            "unguarded line 15: di-constant c{|y|}",
        ),
        ("[{y'=c(),x'=1}]x>=0", "guarded"),
        // the formula is made of comparisons by connectives
        (
            "[{x'=1}](!x<0&(x>=1|true)->(x!=2<->x<=3)&(x=4|x>5|false))",
            "guarded",
        ),
        (
            "[{x'=1}]\\forall y x>=y",
            "unguarded line 15: di-not-smooth",
        ),
        ("[{x'=1}][y:=x;]y>=0", "unguarded line 15: di-not-smooth"),
        ("[{x'=1}](x>=0&p())", "unguarded line 15: di-not-smooth"),
        ("[{x'=1}](x>=0)'", "unguarded line 15: di-not-smooth"),
        // of smooth terms: no primed variable, no function of one, no differential
        ("[{x'=1}]x-2*x>=-x+f()", "guarded"),
        ("[{x'=1}]x'>=0", "unguarded line 15: di-not-smooth"),
        ("[{x'=1}]f(x)>=0", "unguarded line 15: di-not-smooth"),
        ("[{x'=1}]f(1)>=0", "unguarded line 15: di-not-smooth"),
        ("[{x'=1}](x)'>=0", "unguarded line 15: di-not-smooth"),
        // powers have whole literals as exponents, or no variables
        ("[{x'=1}]x^2+x^0>=x^2.0", "guarded"),
        ("[{x'=1}]x>=2^f()-f()^0.5*3^-1", "guarded"),
        ("[{x'=1}]x^-2>=0", "unguarded line 15: di-not-smooth"),
        ("[{x'=1}]x^2.5>=0", "unguarded line 15: di-not-smooth"),
        ("[{x'=1}]x^(1+1)>=0", "unguarded line 15: di-not-smooth"),
        ("[{x'=1}]x^f()>=0", "unguarded line 15: di-not-smooth"),
        ("[{x'=1}]2^x>=0", "unguarded line 15: di-not-smooth"),
        // divisors have no variables, or a part of the domain keeps them off 0
        ("[{x'=1}]x/(2*f())>=x/(1/f())", "guarded"),
        ("[{x'=1}]x/(1+f())>=x/-f()", "guarded"),
        ("[{x'=1}]x/(1-f())>=0", "guarded"),
        ("[{x'=1}]x/f()^2>=0", "guarded"),
        ("[{x'=1}]1/x>=0", "unguarded line 15: di-not-smooth"),
        ("[{x'=1&x!=0}]1/x>=0", "guarded"),
        ("[{x'=1&x>0}]1/x>=0", "guarded"),
        ("[{x'=1&x<0}]1/x>=0", "guarded"),
        ("[{x'=1&0!=x}]1/x>=0", "guarded"),
        ("[{x'=1&0>x}]1/x>=0", "guarded"),
        ("[{x'=1&0<x}]1/x>=0", "guarded"),
        ("[{x'=1&x>=0}]1/x>=0", "unguarded line 15: di-not-smooth"),
        ("[{x'=1&x>1}]1/x>=0", "unguarded line 15: di-not-smooth"),
        ("[{x'=1&(x<=9&x>0)&true}]1/x>=0", "guarded"),
        ("[{x'=1&x>0|x<0}]1/x>=0", "unguarded line 15: di-not-smooth"),
        ("[{x'=1&!x=0}]1/x>=0", "unguarded line 15: di-not-smooth"),
        (
            "[{x'=1&x!=0}]1/(x*x)>=0",
            "unguarded line 15: di-not-smooth",
        ),
        ("[{x'=1&x*x!=0}]1/(x*x)>=0", "guarded"),
        ("[{x'=1&x!=0&1/x>0}]1/(1/x)>=0", "guarded"),
        (
            "[{x'=1&1/x>0}]1/(1/x)>=0",
            "unguarded line 15: di-not-smooth",
        ),
        // the system evolves each variable, or a part of the domain says that it is constant
        ("[{x'=1}]x<=B", "unguarded line 15: di-not-evolved B"),
        ("[{x'=1,B'=2}]x<=B", "guarded"),
        ("[{x'=1&B'=0}]x<=B", "guarded"),
        ("[{x'=1&x<=9&B'=0.0&true}]x<=B", "guarded"),
        ("[{x'=1&B'=2}]x<=B", "unguarded line 15: di-not-evolved B"),
        (
            "[{x'=1&(B'=0|false)}]x<=B",
            "unguarded line 15: di-not-evolved B",
        ),
        ("[{x'=1&0=B'}]x<=B", "unguarded line 15: di-not-evolved B"),
        ("[{x'=1&(B)'=0}]x<=B", "unguarded line 15: di-not-evolved B"),
        (
            "[{x'=1&B'<=0&B'>=0}]x<=B",
            "unguarded line 15: di-not-evolved B",
        ),
        ("[{x'=1&B'=0}]x<=B+A", "unguarded line 15: di-not-evolved A"),
        // no primed variable that the system evolves is free in the domain or in a right side
        ("[{x'=1&x'=1}]x>=0", "unguarded line 15: di-primed x'"),
        ("[{x'=1&(x>=0)'}]x>=0", "unguarded line 15: di-primed x'"),
        (
            "[{x'=1&\\forall x x'=1}]x>=0",
            "unguarded line 15: di-primed x'",
        ),
        ("[{x'=1&[x':=1;]x'=1}]x>=0", "guarded"),
        ("[{x'=1&[{x'=2}]x'=2}]x>=0", "guarded"),
        ("[{x'=1&B'=1}]x>=0", "guarded"),
        ("[{x'=x'+1}]x>=0", "unguarded line 15: di-primed x'"),
        ("[{x'=y',y'=1}]x>=0", "unguarded line 15: di-primed y'"),
        ("[{x'=B'}]x>=0", "guarded"),
    ] {
        let term = proof(alloc, model, "dI(1)")?;
        guards(&rt, alloc, model, term.as_slice(), line)?;
    }
    Ok(())
}

/// Uses of DG, which `dG` merges at line 7, of CE and of Dforall.
#[test]
fn guards_proofs(rt: HostRuntime) -> Result<(), Fail> {
    let alloc = rt.alloc();
    for (model, strategy, line) in &[
        // neither of the two axioms
        ("x>=0 -> x>=0", "implyR(1); close", "guarded"),
        // DG: both terms of the new equation are smooth
        ("[{x'=-1}]x!=0", "dG(y,\"x^2/2+B\",\"f()\",1)", "guarded"),
        (
            "[{x'=-1}]x!=0",
            "dG(y,\"2/x\",\"0\",1)",
            "unguarded line 7: dg-not-smooth",
        ),
        (
            "[{x'=-1}]x!=0",
            "dG(y,\"0\",\"2/x\",1)",
            "unguarded line 7: dg-not-smooth",
        ),
        ("[{x'=-1&x>0}]x!=0", "dG(y,\"2/x\",\"2/x\",1)", "guarded"),
        (
            "[{x'=-1}]x!=0",
            "dG(y,\"x'\",\"0\",1)",
            "unguarded line 7: dg-not-smooth",
        ),
        ("[{x'=-1,c{|y|}}]x!=0", "dG(y,\"0\",\"1\",1)", "guarded"),
        // nothing is put below a ( )' of a formula
        (
            "([?true;]x>=0)'",
            "useAt(testb,1.0)",
            "unguarded line 5: differential-context",
        ),
        (
            "[y:=1;](x>=0&[?true;]x>=0)'",
            "useAt(testb,1.1.0.1)",
            "unguarded line 5: differential-context",
        ),
        ("(x>=0)'&[?true;]x>=0", "useAt(testb,1.1)", "guarded"),
        ("[x:=(x)';][?true;]x>=0", "useAt(testb,1.1)", "guarded"),
        // Dforall, and another axiom of differentials
        (
            "(\\forall x x>=0)'",
            "useAt(Dforall,1)",
            "unguarded line 2: dforall",
        ),
        ("(x>=0|x<1)'", "useAt(Dor,1)", "guarded"),
        // the first line is named: what is done after it changes nothing
        (
            "[{x'=1}]x<=B&(\\forall x x>=0)'",
            "andR(1); <(dI(1), useAt(Dforall,1))",
            "unguarded line 16: di-not-evolved B",
        ),
    ] {
        let term = proof(alloc, model, strategy)?;
        guards(&rt, alloc, model, term.as_slice(), line)?;
    }
    Ok(())
}

/// Terms by hand, for lines that no strategy makes.
#[test]
fn guards_terms(rt: HostRuntime) -> Result<(), Fail> {
    let alloc = rt.alloc();
    for (model, term, line) in &[
        // the axioms themselves, of which no instance was made: as what is proved, and merged
        (
            "(q(||) -> [{c&q(||)}](p(||))') -> ([{c&q(||)}]p(||) <-> [?q(||);]p(||))",
            "1 axiom DI\ndone\n",
            "unguarded line 1: raw-fact",
        ),
        (
            "[{c{|y_|}&q(|y_|)}]p(|y_|) <-> \\exists y_ [{c{|y_|},y_'=a(|y_|)*y_+b(|y_|)&q(|y_|)}]p(|y_|)",
            "1 axiom DG\ndone\n",
            "unguarded line 1: raw-fact",
        ),
        (
            "(q(||) -> [{c&q(||)}](p(||))') -> ([{c&q(||)}]p(||) <-> [?q(||);]p(||))",
            "1 start ==> (q(||) -> [{c&q(||)}](p(||))') -> ([{c&q(||)}]p(||) <-> [?q(||);]p(||))\n2 axiom DI\n3 merge 1 1 2\ndone\n",
            "unguarded line 3: raw-fact",
        ),
        (
            "[{c&q(||)}]r(||) -> ([{c&q(||)}]p(||) <-> [{c&q(||)&r(||)}]p(||))",
            "1 axiom DC\ndone\n",
            "guarded",
        ),
        // a row that isn't used is no fault
        (
            "x>=0",
            "1 axiom DI\n2 axiom DG\n3 start ==> x>=0\ndone\n",
            "guarded",
        ),
        // instances as what is proved
        (
            "(true -> [{x'=1}](x>=0)') -> ([{x'=1}]x>=0 <-> [?true;]x>=0)",
            "1 axiom DI\n2 subst 1 {c}~>{x'=1},q(||)~>true,p(||)~>x>=0\ndone\n",
            "guarded",
        ),
        (
            "(B'=1 -> [{x'=1&B'=1}](x=B)') -> ([{x'=1&B'=1}]x=B <-> [?B'=1;]x=B)",
            "1 axiom DI\n2 subst 1 {c}~>{x'=1},q(||)~>B'=1,p(||)~>x=B\ndone\n",
            "unguarded line 2: di-not-evolved B",
        ),
        (
            "(true -> [{x'=1}](x*x*(1/(x*x))=1)') -> ([{x'=1}]x*x*(1/(x*x))=1 <-> [?true;]x*x*(1/(x*x))=1)",
            "1 axiom DI\n2 subst 1 {c}~>{x'=1},q(||)~>true,p(||)~>x*x*(1/(x*x))=1\ndone\n",
            "unguarded line 2: di-not-smooth",
        ),
        (
            "(true -> [{x'=1}](x^2*x^-2=1)') -> ([{x'=1}]x^2*x^-2=1 <-> [?true;]x^2*x^-2=1)",
            "1 axiom DI\n2 subst 1 {c}~>{x'=1},q(||)~>true,p(||)~>x^2*x^-2=1\ndone\n",
            "unguarded line 2: di-not-smooth",
        ),
        (
            "(true -> [{x'=1}]((x'-1)*(x'-1)=0)') -> ([{x'=1}](x'-1)*(x'-1)=0 <-> [?true;](x'-1)*(x'-1)=0)",
            "1 axiom DI\n2 subst 1 {c}~>{x'=1},q(||)~>true,p(||)~>(x'-1)*(x'-1)=0\ndone\n",
            "unguarded line 2: di-not-smooth",
        ),
        (
            "(x'=1 -> [{x'=1&x'=1}](false)') -> ([{x'=1&x'=1}]false <-> [?x'=1;]false)",
            "1 axiom DI\n2 subst 1 {c}~>{x'=1},q(||)~>x'=1,p(||)~>false\ndone\n",
            "unguarded line 2: di-primed x'",
        ),
        (
            "(x'=1 -> [{x'=0&x'=1}](false)') -> ([{x'=0&x'=1}]false <-> [?x'=1;]false)",
            "1 axiom DI\n2 subst 1 {c}~>{x'=0},q(||)~>x'=1,p(||)~>false\ndone\n",
            "unguarded line 2: di-primed x'",
        ),
        (
            "(true -> [{x'=x'+1}](false)') -> ([{x'=x'+1}]false <-> [?true;]false)",
            "1 axiom DI\n2 subst 1 {c}~>{x'=x'+1},q(||)~>true,p(||)~>false\ndone\n",
            "unguarded line 2: di-primed x'",
        ),
        (
            "[{x'=-1}]x!=0 <-> \\exists y_ [{x'=-1,y_'=2/x*y_+0}]x!=0",
            "1 axiom DG\n2 subst 1 {c{|y_|}}~>{x'=-1},q(|y_|)~>true,p(|y_|)~>x!=0,a(|y_|)~>2/x,b(|y_|)~>0\ndone\n",
            "unguarded line 2: dg-not-smooth",
        ),
        // a predicate that is left may read x'
        (
            "(q(||) -> [{x'=1&q(||)}](x>=0)') -> ([{x'=1&q(||)}]x>=0 <-> [?q(||);]x>=0)",
            "1 axiom DI\n2 subst 1 {c}~>{x'=1},p(||)~>x>=0\ndone\n",
            "unguarded line 2: di-primed x'",
        ),
        // an instance that is made line by line: the last of them counts
        (
            "(true -> [{x'=1}](x>=0)') -> ([{x'=1}]x>=0 <-> [?true;]x>=0)",
            "1 axiom DI\n2 subst 1 q(||)~>true\n3 subst 2 {c}~>{x'=1}\n4 subst 3 p(||)~>x>=0\ndone\n",
            "guarded",
        ),
        (
            "(true -> [{x'=1}](x>=B)') -> ([{x'=1}]x>=B <-> [?true;]x>=B)",
            "1 axiom DI\n2 subst 1 q(||)~>true\n3 subst 2 {c}~>{x'=1}\n4 subst 3 p(||)~>x>=B\ndone\n",
            "unguarded line 4: di-not-evolved B",
        ),
        (
            "(true -> [{c}](x>=0)') -> ([{c}]x>=0 <-> [?true;]x>=0)",
            "1 axiom DI\n2 subst 1 q(||)~>true,p(||)~>x>=0\ndone\n",
            "unguarded line 2: di-constant c",
        ),
        // another name makes no good instance of a bad one
        (
            "(true -> [{x'=1}](x>=z)') -> ([{x'=1}]x>=z <-> [?true;]x>=z)",
            "1 axiom DI\n2 subst 1 {c}~>{x'=1},q(||)~>true,p(||)~>x>=B\n3 rename 2 B z\ndone\n",
            "unguarded line 3: di-not-evolved z",
        ),
        // what is made of a good instance isn't looked at again
        (
            "(true -> [{x'=1}](x>=g(1))') -> ([{x'=1}]x>=g(1) <-> [?true;]x>=g(1))",
            "1 axiom DI\n2 subst 1 {c}~>{x'=1},q(||)~>true,p(||)~>x>=f()\n3 subst 2 term f()~>g(1)\ndone\n",
            "guarded",
        ),
        // Dforall, and below a ( )', though nothing is made of it
        (
            "x>=0",
            "1 axiom Dforall\n2 start ==> x>=0\ndone\n",
            "unguarded line 1: dforall",
        ),
        (
            "x>=0",
            "1 start ==> x>=0\n2 subst 1 C{_}~>(_)'\ndone\n",
            "unguarded line 2: differential-context",
        ),
        (
            "D{true} <-> D{true}",
            "1 rule CE\n2 subst 1 C{_}~>D{_},p(||)~>true,q(||)~>true\ndone\n",
            "guarded",
        ),
        (
            "(D{true})' <-> (D{true})'",
            "1 rule CE\n2 subst 1 C{_}~>(D{_})',p(||)~>true,q(||)~>true\ndone\n",
            "unguarded line 2: differential-context",
        ),
        (
            "(x_=0)' <-> (x_=0)'",
            "1 rule CE\n2 subst 1 C{_}~>D{_},p(||)~>x_=0,q(||)~>x_=0\n3 subst 2 D{_}~>(_)'\ndone\n",
            "unguarded line 3: differential-context",
        ),
        // of a line with both it is said before what speaks against the row
        (
            "(true -> [{x'=1}](x>=B)') -> ([{x'=1}]x>=B <-> [?true;]x>=B)",
            "1 axiom DI\n2 subst 1 {c}~>{x'=1},q(||)~>true,p(||)~>x>=B,C{_}~>(_)'\ndone\n",
            "unguarded line 2: differential-context",
        ),
        // the first line is named
        (
            "x>=0",
            "1 start ==> x>=0\n2 subst 1 C{_}~>(_)'\n3 axiom Dforall\n4 start ==> x>=0\ndone\n",
            "unguarded line 2: differential-context",
        ),
    ] {
        guards(&rt, alloc, model, term.as_bytes(), line)?;
    }
    Ok(())
}

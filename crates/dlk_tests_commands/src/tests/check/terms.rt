// Terms with axioms, leaves, merging and substitution: those of `examples/`, and steps that are refused.
use super::*;

#[test]
fn checks_examples(rt: HostRuntime) -> Result<(), Fail> {
    let alloc = rt.alloc();
    for (model, term, status, printed) in &[
        // examples/increment
        (INCREMENT_MODEL, INCREMENT_TERM, 0, INCREMENT_REPORT),
        // examples/car
        (
            "/* A car accelerates or coasts. */\nv>=0 & A>0 -> [{ a:=A; ++ a:=0; }] a>=0\n",
            "1 start ==> v>=0&A>0 -> [a:=A;++a:=0;]a>=0\n2 apply 1 1 implyR(1)\n3 axiom choiceb\n4 subst 3 a;~>a:=A;,b;~>a:=0;,p(||)~>a>=0\n5 apply 2 1 cutR(1,[a:=A;]a>=0&[a:=0;]a>=0)\n6 apply 5 2 coHideR(1)\n7 apply 6 2 equivifyR(1)\n8 apply 7 2 commuteEquivR(1)\n9 merge 8 2 4\n10 apply 9 1 andR(1)\n11 axiom assignb\n12 rename 11 x_ a\n13 subst 12 f()~>A,p(._0)~>._0>=0\n14 apply 10 1 cutR(1,A>=0)\n15 apply 14 2 coHideR(1)\n16 apply 15 2 equivifyR(1)\n17 apply 16 2 commuteEquivR(1)\n18 merge 17 2 13\n19 subst 12 f()~>0,p(._0)~>._0>=0\n20 apply 18 2 cutR(1,0>=0)\n21 apply 20 3 coHideR(1)\n22 apply 21 3 equivifyR(1)\n23 apply 22 3 commuteEquivR(1)\n24 merge 23 3 19\n25 leaf v>=0&A>0 ==> A>=0\n26 merge 24 1 25\n27 leaf v>=0&A>0 ==> 0>=0\n28 merge 26 1 27\ndone\n",
            0,
            "closed\nconclusion ==> v>=0&A>0 -> [a:=A;++a:=0;]a>=0\ngoals 0\nleaves 2\nleaf 1 v>=0&A>0 ==> A>=0\nleaf 2 v>=0&A>0 ==> 0>=0\nlines 28\n",
        ),
        // examples/any_value
        (
            "/* A square is never below zero, whatever value x has. */\n[x:=*;]x^2>=0\n",
            "1 start ==> [x:=*;]x^2>=0\n2 axiom randomb\n3 rename 2 x_ x\n4 subst 3 p(||)~>x^2>=0\n5 apply 1 1 cutR(1,\\forall x x^2>=0)\n6 apply 5 2 equivifyR(1)\n7 apply 6 2 commuteEquivR(1)\n8 merge 7 2 4\n9 apply 8 1 skolemR(1)\n10 leaf ==> x^2>=0\n11 merge 9 1 10\ndone\n",
            0,
            "closed\nconclusion ==> [x:=*;]x^2>=0\ngoals 0\nleaves 1\nleaf 1 ==> x^2>=0\nlines 11\n",
        ),
        // examples/loop
        (
            "/* A counter stays above zero: induction over the loop. */\nx>=0 -> [{ x:=x+1; }*]x>=0\n",
            "1 start ==> x>=0 -> [{x:=x+1;}*]x>=0\n2 apply 1 1 implyR(1)\n3 axiom I\n4 subst 3 a;~>x:=x+1;,p(||)~>x>=0\n5 apply 2 1 cut([{x:=x+1;}*](x>=0 -> [x:=x+1;]x>=0) -> (x>=0 -> [{x:=x+1;}*]x>=0))\n6 apply 5 2 coHideR(2)\n7 merge 6 2 4\n8 apply 7 1 implyL(2)\n9 apply 8 2 implyL(2)\n10 apply 9 3 close(2,1)\n11 apply 10 2 close(1,2)\n12 apply 11 1 coHideR(2)\n13 rule G\n14 subst 13 a;~>{x:=x+1;}*,p(||)~>x>=0 -> [x:=x+1;]x>=0\n15 merge 12 1 14\n16 apply 15 1 implyR(1)\n17 axiom assignb\n18 rename 17 x_ x\n19 subst 18 f()~>x+1,p(._0)~>._0>=0\n20 apply 16 1 cutR(1,x+1>=0)\n21 apply 20 2 coHideR(1)\n22 apply 21 2 equivifyR(1)\n23 apply 22 2 commuteEquivR(1)\n24 merge 23 2 19\n25 leaf x>=0 ==> x+1>=0\n26 merge 24 1 25\ndone\n",
            0,
            "closed\nconclusion ==> x>=0 -> [{x:=x+1;}*]x>=0\ngoals 0\nleaves 1\nleaf 1 x>=0 ==> x+1>=0\nlines 26\n",
        ),
        // examples/weakening
        (
            "/* The domain holds along the equation. */\n[{ x'=v, v'=-b & v>=0 }]v>=0\n",
            "1 axiom DW\n2 subst 1 {c}~>{x'=v,v'=-b},q(||)~>v>=0\ndone\n",
            0,
            "closed\nconclusion ==> [{x'=v,v'=-b&v>=0}]v>=0\ngoals 0\nleaves 0\nlines 2\n",
        ),
        // examples/ghost
        (
            "/* A ghost: a new variable with a linear equation. */\n[{x'=x}]x>0 <-> \\exists y [{x'=x,y'=-1/2*y+0}]x>0\n",
            "1 axiom DG\n2 rename 1 y_ y\n3 subst 2 {c{|y|}}~>{x'=x},q(|y|)~>true,p(|y|)~>x>0,term a(|y|)~>-1/2,term b(|y|)~>0\ndone\n",
            0,
            "closed\nconclusion ==> [{x'=x}]x>0 <-> \\exists y [{x'=x,y'=-1/2*y+0}]x>0\ngoals 0\nleaves 0\nlines 3\n",
        ),
        // examples/car_step
        (
            "/* A step of a car's loop keeps the speed from below zero: it accelerates or coasts, and never drives backwards. */\nv>=0 & A>0 -> [{ a:=A; ++ a:=0; }{ x'=v, v'=a & v>=0 }]v>=0\n",
            "1 start ==> v>=0&A>0 -> [{a:=A;++a:=0;}{x'=v,v'=a&v>=0}]v>=0\n2 apply 1 1 implyR(1)\n3 axiom composeb\n4 subst 3 a;~>{a:=A;++a:=0;},b;~>{x'=v,v'=a&v>=0},p(||)~>v>=0\n5 apply 2 1 cutR(1,[a:=A;++a:=0;][{x'=v,v'=a&v>=0}]v>=0)\n6 apply 5 2 coHideR(1)\n7 apply 6 2 equivifyR(1)\n8 apply 7 2 commuteEquivR(1)\n9 merge 8 2 4\n10 axiom choiceb\n11 subst 10 a;~>a:=A;,b;~>a:=0;,p(||)~>[{x'=v,v'=a&v>=0}]v>=0\n12 apply 9 1 cutR(1,[a:=A;][{x'=v,v'=a&v>=0}]v>=0&[a:=0;][{x'=v,v'=a&v>=0}]v>=0)\n13 apply 12 2 coHideR(1)\n14 apply 13 2 equivifyR(1)\n15 apply 14 2 commuteEquivR(1)\n16 merge 15 2 11\n17 apply 16 1 andR(1)\n18 axiom assignb\n19 rename 18 x_ a\n20 axiom DW\n21 subst 19 f()~>A,p(._0)~>[{x'=v,v'=._0&v>=0}]v>=0\n22 apply 17 1 cutR(1,[{x'=v,v'=A&v>=0}]v>=0)\n23 apply 22 2 coHideR(1)\n24 apply 23 2 equivifyR(1)\n25 apply 24 2 commuteEquivR(1)\n26 merge 25 2 21\n27 subst 20 {c}~>{x'=v,v'=A},q(||)~>v>=0\n28 apply 26 1 coHideR(1)\n29 merge 28 1 27\n30 subst 19 f()~>0,p(._0)~>[{x'=v,v'=._0&v>=0}]v>=0\n31 apply 29 1 cutR(1,[{x'=v,v'=0&v>=0}]v>=0)\n32 apply 31 2 coHideR(1)\n33 apply 32 2 equivifyR(1)\n34 apply 33 2 commuteEquivR(1)\n35 merge 34 2 30\n36 subst 20 {c}~>{x'=v,v'=0},q(||)~>v>=0\n37 apply 35 1 coHideR(1)\n38 merge 37 1 36\ndone\n",
            0,
            "closed\nconclusion ==> v>=0&A>0 -> [{a:=A;++a:=0;}{x'=v,v'=a&v>=0}]v>=0\ngoals 0\nleaves 0\nlines 38\n",
        ),
        // examples/invariant
        (
            "/* The speed stays from below zero while the car accelerates: a differential invariant. */\nv>=0 & A>=0 -> [{ v'=A }]v>=0\n",
            "1 start ==> v>=0&A>=0 -> [{v'=A}]v>=0\n2 apply 1 1 implyR(1)\n3 apply 2 1 andL(1)\n4 axiom DI\n5 subst 4 {c}~>{v'=A},q(||)~>true,p(||)~>v>=0\n6 apply 3 1 cut((true -> [{v'=A}](v>=0)') -> ([{v'=A}]v>=0 <-> [?true;]v>=0))\n7 apply 6 2 coHideR(2)\n8 merge 7 2 5\n9 apply 8 1 implyL(3)\n10 apply 9 2 equivL(3)\n11 apply 10 2 implyL(4)\n12 apply 11 3 close(4,1)\n13 apply 12 2 hideR(1)\n14 axiom testb\n15 subst 14 q(||)~>true,p(||)~>v>=0\n16 apply 13 2 cutR(1,true -> v>=0)\n17 apply 16 3 coHideR(1)\n18 apply 17 3 equivifyR(1)\n19 apply 18 3 commuteEquivR(1)\n20 merge 19 3 15\n21 apply 20 2 implyR(1)\n22 apply 21 2 close(1,1)\n23 apply 22 1 hideR(1)\n24 apply 23 1 implyR(1)\n25 axiom Dge\n26 subst 25 f(||)~>v,g(||)~>0\n27 rule CE\n28 subst 27 p(||)~>(v>=0)',q(||)~>(v)'>=(0)',C{_}~>[{v'=A}]_\n29 merge 28 1 26\n30 apply 24 1 cutR(1,[{v'=A}](v)'>=(0)')\n31 apply 30 2 coHideR(1)\n32 apply 31 2 equivifyR(1)\n33 apply 32 2 commuteEquivR(1)\n34 merge 33 2 29\n35 axiom Dvar\n36 rename 35 x_ v\n37 rule CQ\n38 subst 37 f(||)~>(v)',g(||)~>v'\n39 merge 38 1 36\n40 subst 39 p(._0)~>._0>=(0)'\n41 rule CE\n42 subst 41 p(||)~>(v)'>=(0)',q(||)~>v'>=(0)',C{_}~>[{v'=A}]_\n43 merge 42 1 40\n44 apply 34 1 cutR(1,[{v'=A}]v'>=(0)')\n45 apply 44 2 coHideR(1)\n46 apply 45 2 equivifyR(1)\n47 apply 46 2 commuteEquivR(1)\n48 merge 47 2 43\n49 axiom Dconst\n50 subst 49 f()~>0\n51 rule CQ\n52 subst 51 f(||)~>(0)',g(||)~>0\n53 merge 52 1 50\n54 subst 53 p(._0)~>v'>=._0\n55 rule CE\n56 subst 55 p(||)~>v'>=(0)',q(||)~>v'>=0,C{_}~>[{v'=A}]_\n57 merge 56 1 54\n58 apply 48 1 cutR(1,[{v'=A}]v'>=0)\n59 apply 58 2 coHideR(1)\n60 apply 59 2 equivifyR(1)\n61 apply 60 2 commuteEquivR(1)\n62 merge 61 2 57\n63 axiom DE\n64 rename 63 x_ v\n65 subst 64 f(||)~>A,q(||)~>true,p(||)~>v'>=0\n66 apply 62 1 cutR(1,[{v'=A}][v':=A;]v'>=0)\n67 apply 66 2 coHideR(1)\n68 apply 67 2 equivifyR(1)\n69 apply 68 2 commuteEquivR(1)\n70 merge 69 2 65\n71 axiom dassignb\n72 rename 71 x_ v\n73 subst 72 f()~>A,p(._0)~>._0>=0\n74 rule CE\n75 subst 74 p(||)~>[v':=A;]v'>=0,q(||)~>A>=0,C{_}~>[{v'=A}]_\n76 merge 75 1 73\n77 apply 70 1 cutR(1,[{v'=A}]A>=0)\n78 apply 77 2 coHideR(1)\n79 apply 78 2 equivifyR(1)\n80 apply 79 2 commuteEquivR(1)\n81 merge 80 2 76\n82 axiom V\n83 subst 82 a;~>{v'=A},p()~>A>=0\n84 apply 81 1 cutR(1,A>=0)\n85 apply 84 2 coHideR(1)\n86 merge 85 2 83\n87 apply 86 1 close(2,1)\ndone\n",
            0,
            "closed\nconclusion ==> v>=0&A>=0 -> [{v'=A}]v>=0\ngoals 0\nleaves 0\nlines 87\n",
        ),
    ] {
        says(&rt, alloc, model, term, *status, printed)?;
    }
    Ok(())
}

#[test]
fn merges_and_substitutes(rt: HostRuntime) -> Result<(), Fail> {
    let alloc = rt.alloc();
    for (model, term, status, printed) in &[
        // one proof twice
        (
            "(x>=0 -> x>=0)&(x>=0 -> x>=0)",
            "1 start ==> x>=0 -> x>=0\n2 apply 1 1 implyR(1)\n3 apply 2 1 close(1,1)\n4 start ==> (x>=0 -> x>=0)&(x>=0 -> x>=0)\n5 apply 4 1 andR(1)\n6 merge 5 1 3\n7 merge 6 1 3\ndone\n",
            0,
            "closed\nconclusion ==> (x>=0 -> x>=0)&(x>=0 -> x>=0)\ngoals 0\nleaves 0\nlines 7\n",
        ),
        // a variable that is free in a replacement, over a goal
        (
            "true",
            "1 rule CQ\n2 subst 1 p(._0)~>._0>x\ndone\n",
            2,
            "refused: line 2: FreeInSubst\n",
        ),
        // but not in that of a unit predicate
        (
            "C{x>0} <-> C{q(||)}",
            "1 rule CE\n2 subst 1 p(||)~>x>0\ndone\n",
            1,
            "open\nconclusion ==> C{x>0} <-> C{q(||)}\ngoals 1\ngoal 1 ==> x>0 <-> q(||)\nleaves 0\nlines 2\n",
        ),
        // a symbol with a taboo
        (
            "[{x'=x&q(|y_|)}]p(|y_|) <-> \\exists y_ [{x'=x,y_'=a(|y_|)*y_+b(|y_|)&q(|y_|)}]p(|y_|)",
            "1 axiom DG\n2 subst 1 {c{|y_|}}~>{x'=x}\ndone\n",
            0,
            "closed\nconclusion ==> [{x'=x&q(|y_|)}]p(|y_|) <-> \\exists y_ [{x'=x,y_'=a(|y_|)*y_+b(|y_|)&q(|y_|)}]p(|y_|)\ngoals 0\nleaves 0\nlines 2\n",
        ),
        (
            "true",
            "1 axiom DG\n2 subst 1 {c{|y_|}}~>{x'=y_}\ndone\n",
            2,
            "refused: line 2: IllSubst\n",
        ),
        // renaming that captures, and another name first
        (
            "x>=0 -> \\forall x x>=0",
            "1 start ==> x>=0 -> \\forall x x>=0\n2 apply 1 1 implyR(1)\n3 apply 2 1 skolemR(1)\ndone\n",
            2,
            "refused: line 3: NotFresh\n",
        ),
    ] {
        says(&rt, alloc, model, term, *status, printed)?;
    }
    Ok(())
}

#[test]
fn refuses_steps(rt: HostRuntime) -> Result<(), Fail> {
    let alloc = rt.alloc();
    for (term, printed) in &[
        ("1 axiom boxb\n", "refused: line 1: UnknownName\n"),
        ("1 axiom G\n", "refused: line 1: UnknownName\n"),
        ("1 rule K\n", "refused: line 1: UnknownName\n"),
        ("1 axiom [a]\n", "refused: line 1: Malformed\n"),
        ("1 leaf ==> [x:=1;]x>=1\n", "refused: line 1: NotArith\n"),
        ("1 leaf f(x)>=0 ==>\n", "refused: line 1: NotArith\n"),
        ("1 leaf ==> (x)'>=0\n", "refused: line 1: NotArith\n"),
        ("1 leaf ._0>=0 ==>\n", "refused: line 1: Malformed\n"),
        (
            "1 start ==> x>=0\n2 merge 1 1 2\n",
            "refused: line 2: NoFact\n",
        ),
        (
            "1 start ==> x>=0\n2 merge 3 1 1\n",
            "refused: line 2: NoFact\n",
        ),
        (
            "1 start ==> x>=0\n2 merge 1 2 1\n",
            "refused: line 2: NoGoal\n",
        ),
        (
            "1 start ==> x>=0\n2 leaf x>=0 ==> x>=0\n3 merge 1 1 2\n",
            "refused: line 3: NotEqual\n",
        ),
        (
            "1 start ==> x>=0\n2 merge 1 1\n",
            "refused: line 2: Malformed\n",
        ),
        (
            "1 axiom V\n2 subst 2 p()~>x>=0\n",
            "refused: line 2: NoFact\n",
        ),
        (
            "1 axiom V\n2 subst 1 p()~>x>=0,p()~>x>=1\n",
            "refused: line 2: IllSubst\n",
        ),
        (
            "1 axiom V\n2 subst 1 p()~>._0>=0\n",
            "refused: line 2: IllSubst\n",
        ),
        (
            "1 axiom V\n2 subst 1 p()~>x>=0,a;~>x:=1;\n",
            "refused: line 2: NotAdmissible\n",
        ),
        (
            "1 start ==> p()\n2 subst 1 p()~>x>=0\n",
            "refused: line 2: FreeInSubst\n",
        ),
        ("1 axiom V\n2 subst 1\n", "refused: line 2: Malformed\n"),
    ] {
        says(&rt, alloc, "x>=0", term, 2, printed)?;
    }
    Ok(())
}

#[test]
fn checks_terms_with_these_rules(rt: HostRuntime) -> Result<(), Fail> {
    let alloc = rt.alloc();
    for (model, term, status, printed) in &[
        // examples/chain
        (
            "(a>0 -> b>0)&(b>0 -> c>0) -> (a>0 -> c>0)",
            "1 start ==> (a>0 -> b>0)&(b>0 -> c>0) -> (a>0 -> c>0)\n2 apply 1 1 implyR(1)\n3 apply 2 1 implyR(1)\n4 apply 3 1 andL(1)\n5 apply 4 1 implyL(1)\n6 apply 5 1 close(1,2)\n7 apply 6 1 implyL(3)\n8 apply 7 1 close(1,2)\n9 apply 8 1 close(3,1)\ndone\n",
            0,
            "closed\nconclusion ==> (a>0 -> b>0)&(b>0 -> c>0) -> a>0 -> c>0\ngoals 0\nleaves 0\nlines 9\n",
        ),
        // examples/fresh
        (
            "x>=0 -> \\forall x (x>=0 -> x>=0)",
            "1 start ==> x>=0 -> \\forall x (x>=0 -> x>=0)\n2 apply 1 1 implyR(1)\n3 apply 2 1 boundR(1,z)\n4 apply 3 1 skolemR(1)\n5 apply 4 1 implyR(1)\n6 apply 5 1 close(2,1)\ndone\n",
            0,
            "closed\nconclusion ==> x>=0 -> \\forall x (x>=0 -> x>=0)\ngoals 0\nleaves 0\nlines 6\n",
        ),
        (
            "x>=0 -> \\forall x x>=0",
            "1 start ==> x>=0 -> \\forall x x>=0\n2 apply 1 1 implyR(1)\n3 apply 2 1 skolemR(1)\ndone\n",
            2,
            "refused: line 3: NotFresh\n",
        ),
        (
            "x>=0 -> \\forall x x>=0",
            "1 start ==> x>=0 -> \\forall x x>=0\n2 apply 1 1 implyR(1)\n3 apply 2 1 boundR(1,z)\n4 apply 3 1 skolemR(1)\ndone\n",
            1,
            "open\nconclusion ==> x>=0 -> \\forall x x>=0\ngoals 1\ngoal 1 x>=0 ==> z>=0\nleaves 0\nlines 4\n",
        ),
        // must-bound in the program, and yet not fresh
        (
            "\\forall x [y:=1;y':=1;x':=1;]p(||)",
            "1 start ==> \\forall x [y:=1;y':=1;x':=1;]p(||)\n2 apply 1 1 boundR(1,y)\ndone\n",
            2,
            "refused: line 2: NotFresh\n",
        ),
        // names exchanged in conclusion and goals
        (
            "y>=0 -> [y:=1;]p(|y|)",
            "1 start ==> x>=0 -> [x:=1;]p(|x|)\n2 apply 1 1 implyR(1)\n3 rename 2 x y\ndone\n",
            1,
            "open\nconclusion ==> y>=0 -> [y:=1;]p(|y|)\ngoals 1\ngoal 1 y>=0 ==> [y:=1;]p(|y|)\nleaves 0\nlines 3\n",
        ),
        // and not in leaves
        (
            "y>=y",
            "1 leaf ==> x>=x\n2 rename 1 x y\ndone\n",
            0,
            "closed\nconclusion ==> y>=y\ngoals 0\nleaves 1\nleaf 1 ==> x>=x\nlines 2\n",
        ),
        (
            "x>=0",
            "1 start ==> x>=0\n2 rename 2 x y\ndone\n",
            2,
            "refused: line 2: NoFact\n",
        ),
        (
            "x>=0",
            "1 start ==> x>=0\n2 rename 1 x true\ndone\n",
            2,
            "refused: line 2: Malformed\n",
        ),
    ] {
        says(&rt, alloc, model, term, *status, printed)?;
    }
    Ok(())
}

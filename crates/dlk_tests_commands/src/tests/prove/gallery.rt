// Models of `examples/gallery`: what `prove` prints of each by its strategy, and `check` of the term that it writes. The script of the gallery
// looks whether they stand here as they do there.
use super::proving::proves;
use super::*;

/// `examples/gallery/straight_line/model`.
const STRAIGHT_LINE_MODEL: &str =
    "/* Motion on a straight line from a() on, up to the end of the track at b(). */
  a() <= x & v() >= 0 -> [ { x' = v() & x <= b() } ] (a() <= x & x <= b())
";

/// `examples/gallery/straight_line/strategy`.
const STRAIGHT_LINE_STRATEGY: &str =
    "/* By the solution of the equation: after the time t_ the place is x+v()*t_, and
   at each time s_ before that the domain held, so also at t_.
   Leaf. v()*t_ is at least 0. */
implyR(1);
useAt(DS,1); skolemR(1); implyR(1)*2; step(1);
useAt(allinst,-3,\"f()~>t_\"); leaf
";

/// `examples/gallery/straight_line/report`.
const STRAIGHT_LINE_REPORT: &str = "closed
conclusion ==> a()<=x&v()>=0 -> [{x'=v()&x<=b()}](a()<=x&x<=b())
goals 0
leaves 1
leaf 1 a()<=x&v()>=0, t_>=0, 0<=t_&t_<=t_ -> x+v()*t_<=b() ==> a()<=x+v()*t_&x+v()*t_<=b()
lines 35
";

/// `examples/gallery/exponential_decay/model`.
const EXPONENTIAL_DECAY_MODEL: &str =
    "/* Exponential decay: what is there gets less, but never nothing. */
  x > 0 & k() > 0 -> [ { x' = -k()*x } ] x > 0
";

/// `examples/gallery/exponential_decay/strategy`.
const EXPONENTIAL_DECAY_STRATEGY: &str =
    "/* A ghost y that grows as fast as x*x decays: x*y*y=1 stays true, and no x with
   x*y*y=1 is 0 or less. Leaves. There is such a y at first, the root of 1/x. The
   slope of x*y*y is -k()*x*y*y+2*x*y*(1/2*k()*y), which is 0. And y*y>=0. */
implyR(1); andL(-1);
dG(y, \"1/2*k()\", \"0\", 1);
cut(\"\\exists y x*y*y=1\"); <(
  /* this y is where the ghost begins */
  skolemL(-3); useBack(selfassign,1.0,\"x_~~y\"); useAt(existsdual,1); notR(1);
  useAt(allinst,-4,\"f()~>y\"); notL(-4); useAt(selfassign,1);
  dC(\"x*y*y=1\", 1); <(
    dW(1); leaf,
    dI(1); <(
      prop,
      derive(1.1); useAt(DEsys,1)*2; dW(1); step(1)*2; leaf
    )
  ),
  hideR(1); leaf
)
";

/// `examples/gallery/exponential_decay/report`.
const EXPONENTIAL_DECAY_REPORT: &str = "closed
conclusion ==> x>0&k()>0 -> [{x'=-k()*x}]x>0
goals 0
leaves 3
leaf 1 true&x*y*y=1 ==> x>0
leaf 2 true ==> (-k()*x*y+x*(1/2*k()*y+0))*y+x*y*(1/2*k()*y+0)=0
leaf 3 x>0, k()>0 ==> \\exists y x*y*y=1
lines 272
";

/// `examples/gallery/platoon/model`.
const PLATOON_MODEL: &str =
    "/* A platoon of two cars: the second takes over each acceleration of the first
   at once. It stays behind the first if it wasn't faster at the beginning. */
  x2 < x1 & v2 <= v1
->
  [
    {
      a := *;                                     /* the first car, as it likes */
      { x1' = v1, v1' = a, x2' = v2, v2' = a }
    }*@invariant(x2 < x1 & v2 <= v1)
  ] x2 < x1
";

/// `examples/gallery/platoon/strategy`.
const PLATOON_STRATEGY: &str =
    "/* Leaves. The speeds have the same slope a, so v2<=v1 stays; and the slopes of
   the places are the speeds. */
implyR(1);
loop(\"x2<x1 & v2<=v1\", 1); <(
  prop,
  step(1)*2; skolemR(1);
  dC(\"v2<=v1\", 1); <(
    dI(1); <(
      prop,
      derive(1.1); useAt(DEsys,1)*4; dW(1); step(1)*4; leaf
    ),
    dI(1); <(
      prop,
      derive(1.1); useAt(DEsys,1)*4; dW(1); step(1)*4; leaf
    )
  ),
  prop
)
";

/// `examples/gallery/platoon/report`.
const PLATOON_REPORT: &str = "closed
conclusion ==> x2<x1&v2<=v1 -> [{a:=*;{x1'=v1,v1'=a,x2'=v2,v2'=a}}*]x2<x1
goals 0
leaves 2
leaf 1 true&v2<=v1 ==> v2<=v1&a<=a
leaf 2 true ==> a<=a
lines 451
";

/// `examples/gallery/bouncing_ball/model`.
const BOUNCING_BALL_MODEL: &str =
    "/* A ball that loses speed at each bounce never rises above the height H()
   from which it fell. */
  0 <= x & x = H() & v = 0 & g() > 0 & 0 <= c() & c() <= 1
->
  [
    {
      { x' = v, v' = -g() & x >= 0 }
      {   ?x = 0; v := -c()*v;                    /* bounce, */
       ++ ?x != 0;                                /* or fly on */
      }
    }*@invariant(2*g()*x <= 2*g()*H() - v^2 & x >= 0)
  ] (0 <= x & x <= H())
";

/// `examples/gallery/bouncing_ball/strategy`.
const BOUNCING_BALL_STRATEGY: &str =
    "/* Leaves. The energy 2*g()*x+v*v is constant in flight: both sides have the
   slope 2*g()*v. A bounce has x=0, and c()*c()*v*v<=v*v. The height:
   2*g()*x<=2*g()*H() as v*v>=0, and g()>0. */
implyR(1);
loop(\"g()>0 & 0<=c() & c()<=1 & x>=0 & 2*g()*x<=2*g()*H()-v*v\", 1); <(
  leaf,
  step(1); dC(\"2*g()*x<=2*g()*H()-v*v\", 1); <(
    dC(\"g()>0 & 0<=c() & c()<=1\", 1); <(
      dW(1); step(1); andR(1); step(1)*2; implyR(1); step(1)*1; leaf,
      useAt(V,1); prop
    ),
    dI(1); <(
      prop,
      derive(1.1); useAt(DEsys,1)*2; dW(1); step(1)*2; leaf
    )
  ),
  leaf
)
";

/// `examples/gallery/bouncing_ball/report`.
const BOUNCING_BALL_REPORT: &str = "closed
conclusion ==> 0<=x&x=H()&v=0&g()>0&0<=c()&c()<=1 -> [{{x'=v,v'=-g()&x>=0}{?x=0;v:=-c()*v;++?x!=0;}}*](0<=x&x<=H())
goals 0
leaves 5
leaf 1 0<=x&x=H()&v=0&g()>0&0<=c()&c()<=1 ==> g()>0&0<=c()&c()<=1&x>=0&2*g()*x<=2*g()*H()-v*v
leaf 2 (x>=0&2*g()*x<=2*g()*H()-v*v)&g()>0&0<=c()&c()<=1, x=0 ==> g()>0&0<=c()&c()<=1&x>=0&2*g()*x<=2*g()*H()--c()*v*(-c()*v)
leaf 3 (x>=0&2*g()*x<=2*g()*H()-v*v)&g()>0&0<=c()&c()<=1, x!=0 ==> g()>0&0<=c()&c()<=1&x>=0&2*g()*x<=2*g()*H()-v*v
leaf 4 x>=0 ==> (0*g()+2*0)*x+2*g()*v<=(0*g()+2*0)*H()+2*g()*0-(-g()*v+v*-g())
leaf 5 g()>0&0<=c()&c()<=1&x>=0&2*g()*x<=2*g()*H()-v*v ==> 0<=x&x<=H()
lines 450
";

/// `examples/gallery/water_tank/model`.
const WATER_TANK_MODEL: &str =
    "/* A water tank of height m() never overflows. Its controller sets the flow
   at least every ep() seconds: it fills with at most what there is room for,
   or drains. The flow stays as it is within a cycle: f' = 0. */
  0 <= x & x <= m() & ep() > 0 & D() > 0
->
  [
    {
      {   f := *; ?(0 <= f & f <= (m() - x)/ep());  /* fill, */
       ++ f := -D();                                /* or drain */
      }
      t := 0;
      { x' = f, f' = 0, t' = 1 & 0 <= x & t <= ep() }
    }*@invariant(0 <= x & x <= m())
  ] (0 <= x & x <= m())
";

/// `examples/gallery/water_tank/strategy`.
const WATER_TANK_STRATEGY: &str =
    "/* Leaves. While the tank fills, x+f*(ep()-t) is constant, and at first
   x+f*ep()<=m(), as ep()>0; f*(ep()-t) is at least 0. While it drains f
   stays below 0, which is the slope of x. */
implyR(1);
loop(\"ep()>0 & D()>0 & 0<=x & x<=m()\", 1); <(
  prop,
  (step(1) | implyR(1) | andR(1) | skolemR(1))*30; dC(\"ep()>0 & D()>0\", 1); <(
    /* fill */
    dC(\"f>=0 & x+f*(ep()-t)<=m()\", 1); <(
      dW(1); leaf,
      dI(1); <(
        leaf,
        derive(1.1); useAt(DEsys,1)*3; dW(1); step(1)*3; leaf
      )
    ),
    useAt(V,1); prop,
    /* drain */
    dC(\"f<=0\", 1); <(
      dC(\"x<=m()\", 1); <(
        dW(1); prop,
        dI(1); <(
          prop,
          derive(1.1); useAt(DEsys,1)*3; dW(1); step(1)*3; leaf
        )
      ),
      dI(1); <(
        leaf,
        derive(1.1); useAt(DEsys,1)*3; dW(1); step(1)*3; leaf
      )
    ),
    useAt(V,1); prop
  ),
  prop
)
";

/// `examples/gallery/water_tank/report`.
const WATER_TANK_REPORT: &str = "closed
conclusion ==> 0<=x&x<=m()&ep()>0&D()>0 -> [{{f:=*;?0<=f&f<=(m()-x)/ep();++f:=-D();}t:=0;{x'=f,f'=0,t'=1&0<=x&t<=ep()}}*](0<=x&x<=m())
goals 0
leaves 6
leaf 1 ((0<=x&t<=ep())&ep()>0&D()>0)&f>=0&x+f*(ep()-t)<=m() ==> ep()>0&D()>0&0<=x&x<=m()
leaf 2 ep()>0&D()>0&0<=x&x<=m(), 0<=f&f<=(m()-x)/ep(), t=0, (0<=x&t<=ep())&ep()>0&D()>0 ==> f>=0&x+f*(ep()-t)<=m()
leaf 3 (0<=x&t<=ep())&ep()>0&D()>0 ==> 0>=0&f+(0*(ep()-t)+f*(0-1))<=0
leaf 4 ((0<=x&t<=ep())&ep()>0&D()>0)&f<=0 ==> f<=0
leaf 5 ep()>0&D()>0&0<=x&x<=m(), f=-D(), t=0, (0<=x&t<=ep())&ep()>0&D()>0 ==> f<=0
leaf 6 (0<=x&t<=ep())&ep()>0&D()>0 ==> 0<=0
lines 871
";

#[test]
fn closes_models_of_the_gallery(rt: HostRuntime) -> Result<(), Fail> {
    let alloc = rt.alloc();
    for (model, strategy, report) in &[
        (
            STRAIGHT_LINE_MODEL,
            STRAIGHT_LINE_STRATEGY,
            STRAIGHT_LINE_REPORT,
        ),
        (
            EXPONENTIAL_DECAY_MODEL,
            EXPONENTIAL_DECAY_STRATEGY,
            EXPONENTIAL_DECAY_REPORT,
        ),
        (PLATOON_MODEL, PLATOON_STRATEGY, PLATOON_REPORT),
        (
            BOUNCING_BALL_MODEL,
            BOUNCING_BALL_STRATEGY,
            BOUNCING_BALL_REPORT,
        ),
        (WATER_TANK_MODEL, WATER_TANK_STRATEGY, WATER_TANK_REPORT),
    ] {
        proves(&rt, alloc, model, strategy, 0, report)?;
    }
    Ok(())
}

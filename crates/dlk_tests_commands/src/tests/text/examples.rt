// The models of `examples/models`: what `print` prints of each, and of that again, and what `vars` prints of it.
use super::listing::lists;
use super::printing::prints;
use super::*;

/// `examples/models/adaptive_cruise`.
const ADAPTIVE_CRUISE: &str =
    "/* Adaptive cruise control: the follower keeps behind the leading car,
   which may brake as hard as the follower. */
  ( A >= 0 & B > 0 & ep > 0
  & vf >= 0 & vl >= 0
  & xf < xl & xf + vf^2/(2*B) < xl + vl^2/(2*B) )
->
  [
    {
      al := *; ?(-B <= al & al <= A);                             // leader
      {
          af := -B;                                               // follower: brake
       ++ ?xf + vf^2/(2*B) + (A/B + 1)*(A/2*ep^2 + ep*vf) < xl + vl^2/(2*B);
          af := *; ?(-B <= af & af <= A);                         // anything where it is safe
       ++ ?vf = 0; af := 0;                                       // stand
      }
      t := 0;
      { xf' = vf, vf' = af, xl' = vl, vl' = al, t' = 1
        & vf >= 0 & vl >= 0 & t <= ep }
    }*@invariant(xf < xl & xf + vf^2/(2*B) < xl + vl^2/(2*B) & vf >= 0 & vl >= 0);
  ] xf < xl
";

/// `examples/models/bouncing_ball`.
const BOUNCING_BALL: &str =
    "/* A ball that bounces with a loss of speed stays below its first height. */
  x >= 0 & x = H & v = 0 & g > 0 & 1 >= c & c >= 0
->
  [
    {
      { x' = v, v' = -g & x >= 0 }
      { ?x = 0; v := -c*v;                  /* bounce on the ground */
     ++ ?x != 0; }                          /* or fly on */
    }*@invariant(2*g*x = 2*g*H - v^2 & x >= 0,
                 2*g*x <= 2*g*H - v^2 & x >= 0)
  ](0 <= x & x <= H)
";

/// `examples/models/car`.
const CAR: &str = "/* A car that accelerates or brakes never drives backwards. */
  v >= 0 & A > 0 & B > 0                    /* initial condition */
->
  [
    {
      {                                     /* control */
          a := A;                           /* accelerate, */
       ++ a := 0;                           /* coast, */
       ++ a := -B;                          /* or brake */
      }
      { x' = v, v' = a & v >= 0 }           /* motion: brakes do not reverse */
    }*@invariant(v >= 0)                    // loop invariant
  ]v >= 0                                   /* safety */
";

/// `examples/models/cruise_ghost`.
const CRUISE_GHOST: &str =
    "/* Cruise control: the error of the speed shrinks but never changes its sign.
   A ghost y witnesses it: d' = -K*d keeps d > 0 where d*y^2 = 1 for some y. */
  K > 0 & d = v - vset & d > 0
->
  ( [ { d' = -K*d, v' = -K*d & true } ] d > 0
  <->
    \\exists y [ { d' = -K*d, v' = -K*d, y' = K/2*y & true } ] d*y^2 = 1
  )
";

/// `examples/models/pendulum`.
const PENDULUM: &str = "/* A damped pendulum near its rest, with small pushes: an energy bound. */
  g > 0 & L > 0 & k > 0 & theta = 0 & w = 0 & E > 0
->
  [
    {
      push := *; ?(-0.01 <= push & push <= 0.01);
      { ?1/2*(w + push)^2 + g/L*(theta^2/2) <= E; w := w + push;
     ++ ?!(1/2*(w + push)^2 + g/L*(theta^2/2) <= E); }
      { theta' = w, w' = -g/L*theta - k*w }
    }*@invariant(g/L*(theta^2/2) + 1/2*w^2 <= E)
  ] g/L*(theta^2/2) + 1/2*w^2 <= E
";

/// `examples/models/robot`.
const ROBOT: &str = "/* A ground robot drives on circles of its choice and stops before
   obstacles that move at most at speed V (passive safety). */
  \\forall r ( r > 0 ->
  v >= 0 & A >= 0 & b > 0 & V >= 0 & ep > 0
  & dx^2 + dy^2 = 1
  & (v = 0 | (x - xo)^2 > (v^2/(2*b) + V*v/b)^2 | (y - yo)^2 > (v^2/(2*b) + V*v/b)^2)
->
  [
    {
      /* the obstacle picks its velocity */
      vxo := *; vyo := *; ?vxo^2 + vyo^2 <= V^2;
      {
          a := -b;                                            // brake
       ++ ?v = 0; a := 0; w := 0;                             // stand
       ++ { a := *; ?(-b <= a & a <= A); w := v/r;
            ?( (x - xo)^2 > (v^2/(2*b) + V*v/b + (A/b + 1)*(A/2*ep^2 + ep*(v + V)))^2
             | (y - yo)^2 > (v^2/(2*b) + V*v/b + (A/b + 1)*(A/2*ep^2 + ep*(v + V)))^2 ); }
      }
      t := 0;
      { x' = v*dx, y' = v*dy, v' = a, dx' = -w*dy, dy' = w*dx, w' = a/r,
        xo' = vxo, yo' = vyo, t' = 1 & t <= ep & v >= 0 }
    }*@invariant(v >= 0, dx^2 + dy^2 = 1)
  ](v > 0 -> (x - xo)^2 + (y - yo)^2 > 0) )
";

/// `examples/models/roundabout`.
const ROUNDABOUT: &str =
    "/* Two aircraft in a roundabout of radius r round (c1,c2) keep their distance:
   from their entry on both fly the circle with the same angular speed. */
  (x1 - y1)^2 + (x2 - y2)^2 >= p^2 & p > 0 & r > 0 & om != 0
  & d1 = -om*(x2 - c2) & d2 = om*(x1 - c1)
  & e1 = -om*(y2 - c2) & e2 = om*(y1 - c1)
  & (x1 - c1)^2 + (x2 - c2)^2 = r^2
->
  [
    {
      { x1' = d1, x2' = d2, d1' = -om*d2, d2' = om*d1,
        y1' = e1, y2' = e2, e1' = -om*e2, e2' = om*e1
        & (x1 - c1)^2 + (x2 - c2)^2 = r^2 }
    }*@invariant((x1 - y1)^2 + (x2 - y2)^2 >= p^2)
  ] (x1 - y1)^2 + (x2 - y2)^2 >= p^2
";

/// `examples/models/stop_sign`.
const STOP_SIGN: &str = "/* A car stops before the stop sign at m: it brakes unless it can still
   stop after one more control cycle. */
  v >= 0 & A > 0 & b > 0 & ep > 0
  & v^2 <= 2*b*(m - x)                              /* braking distance */
->
  [
    {
      {   ?2*b*(m - x) >= v^2 + (A + b)*(A*ep^2 + 2*ep*v); a := A;
       ++ a := -b;
      }
      { t := 0; }
      { x' = v, v' = a, t' = 1 & v >= 0 & t <= ep }
    }*@invariant(v >= 0 & v^2 <= 2*b*(m - x))
  ]x <= m
";

/// `examples/models/thermostat`.
const THERMOSTAT: &str = "/* A heater that is on (h=1) or off (h=0) keeps the temperature between
   18 and 22 degrees, cooling towards 5. */
  (h = 0 | h = 1) & 18 <= T & T <= 22 & K = 0.10
->
  [
    {
      { { ?T <= 18.5; h := 1; } ++ { ?T >= 21.50; h := 0; }
        ++ ?(T > 18.5 & T < 21.5); };
      c := 0;
      {
          { T' = -K*(T - 5), c' = 1 & h = 0 & T >= 18 & c <= 0.25 }
       ++ { T' = -K*(T - 35), c' = 1 & h = 1 & T <= 22 & c <= 0.25 }
      }
    }*@invariant(18 <= T & T <= 22)
  ](18 <= T & T <= 22)
";

/// `examples/models/two_cars`.
const TWO_CARS: &str = "/* Two cars towards a crossing at 0: the second goes on only where the first
   has passed or can no longer come; and it can reach its goal. */
  x < -10 & y < -10 & 0 < V & V <= 13.9 & ep > 0 & ep <= 0.1
->
  ( [
      {
        { vx := V; ++ vx := 0; }
        { ?(x > 5 | y + V*ep < -5 | y > 5); vy := V; ++ vy := 0; }
        { ?x + V*ep < -5 | y > 5 | x > 5; ++ vx := 0; }
        t := 0;
        { x' = vx, y' = vy, t' = 1 & t <= ep }
      }*@invariant(!(-5 <= x & x <= 5 & -5 <= y & y <= 5))
    ] !(-5 <= x & x <= 5 & -5 <= y & y <= 5) )
  & < { vx := V; vy := V; { x' = vx, y' = vy } }* > y > 5
";

/// `examples/models/water_tank`.
const WATER_TANK: &str = "// A water tank: its valve is looked at at least every ep seconds.
  0 <= x & x <= m & 0 < ep & 0 <= m
->
  [
    {
      f := *; ?(-1.25 <= f & f <= (m - x)/ep);  /* drain, or fill, but not more than fits */
      t := 0;
      { x' = f, t' = 1 & x >= 0 & t <= ep }
    }*@invariant(0 <= x & x <= m)
  ](0 <= x & x <= m)
";

#[test]
fn prints_models(rt: HostRuntime) -> Result<(), Fail> {
    let alloc = rt.alloc();
    for (model, text) in &[
        (
            ADAPTIVE_CRUISE,
            "A>=0&B>0&ep>0&vf>=0&vl>=0&xf<xl&xf+vf^2/(2*B)<xl+vl^2/(2*B) -> [{al:=*;?-B<=al&al<=A;{af:=-B;++?xf+vf^2/(2*B)+(A/B+1)*(A/2*ep^2+ep*vf)<xl+vl^2/(2*B);af:=*;?-B<=af&af<=A;++?vf=0;af:=0;}t:=0;{xf'=vf,vf'=af,xl'=vl,vl'=al,t'=1&vf>=0&vl>=0&t<=ep}}*]xf<xl\n",
        ),
        (
            BOUNCING_BALL,
            "x>=0&x=H&v=0&g>0&1>=c&c>=0 -> [{{x'=v,v'=-g&x>=0}{?x=0;v:=-c*v;++?x!=0;}}*](0<=x&x<=H)\n",
        ),
        (
            CAR,
            "v>=0&A>0&B>0 -> [{{a:=A;++a:=0;++a:=-B;}{x'=v,v'=a&v>=0}}*]v>=0\n",
        ),
        (
            CRUISE_GHOST,
            "K>0&d=v-vset&d>0 -> ([{d'=-K*d,v'=-K*d}]d>0 <-> \\exists y [{d'=-K*d,v'=-K*d,y'=K/2*y}]d*y^2=1)\n",
        ),
        (
            PENDULUM,
            "g>0&L>0&k>0&theta=0&w=0&E>0 -> [{push:=*;?-0.01<=push&push<=0.01;{?1/2*(w+push)^2+g/L*(theta^2/2)<=E;w:=w+push;++?!1/2*(w+push)^2+g/L*(theta^2/2)<=E;}{theta'=w,w'=-g/L*theta-k*w}}*]g/L*(theta^2/2)+1/2*w^2<=E\n",
        ),
        (
            ROBOT,
            "\\forall r (r>0 -> v>=0&A>=0&b>0&V>=0&ep>0&dx^2+dy^2=1&(v=0|(x-xo)^2>(v^2/(2*b)+V*v/b)^2|(y-yo)^2>(v^2/(2*b)+V*v/b)^2) -> [{vxo:=*;vyo:=*;?vxo^2+vyo^2<=V^2;{a:=-b;++?v=0;a:=0;w:=0;++a:=*;?-b<=a&a<=A;w:=v/r;?(x-xo)^2>(v^2/(2*b)+V*v/b+(A/b+1)*(A/2*ep^2+ep*(v+V)))^2|(y-yo)^2>(v^2/(2*b)+V*v/b+(A/b+1)*(A/2*ep^2+ep*(v+V)))^2;}t:=0;{x'=v*dx,y'=v*dy,v'=a,dx'=-w*dy,dy'=w*dx,w'=a/r,xo'=vxo,yo'=vyo,t'=1&t<=ep&v>=0}}*](v>0 -> (x-xo)^2+(y-yo)^2>0))\n",
        ),
        (
            ROUNDABOUT,
            "(x1-y1)^2+(x2-y2)^2>=p^2&p>0&r>0&om!=0&d1=-om*(x2-c2)&d2=om*(x1-c1)&e1=-om*(y2-c2)&e2=om*(y1-c1)&(x1-c1)^2+(x2-c2)^2=r^2 -> [{{x1'=d1,x2'=d2,d1'=-om*d2,d2'=om*d1,y1'=e1,y2'=e2,e1'=-om*e2,e2'=om*e1&(x1-c1)^2+(x2-c2)^2=r^2}}*](x1-y1)^2+(x2-y2)^2>=p^2\n",
        ),
        (
            STOP_SIGN,
            "v>=0&A>0&b>0&ep>0&v^2<=2*b*(m-x) -> [{{?2*b*(m-x)>=v^2+(A+b)*(A*ep^2+2*ep*v);a:=A;++a:=-b;}t:=0;{x'=v,v'=a,t'=1&v>=0&t<=ep}}*]x<=m\n",
        ),
        (
            THERMOSTAT,
            "(h=0|h=1)&18<=T&T<=22&K=0.1 -> [{{?T<=18.5;h:=1;++?T>=21.5;h:=0;++?T>18.5&T<21.5;}c:=0;{{T'=-K*(T-5),c'=1&h=0&T>=18&c<=0.25}++{T'=-K*(T-35),c'=1&h=1&T<=22&c<=0.25}}}*](18<=T&T<=22)\n",
        ),
        (
            TWO_CARS,
            "x<-10&y<-10&0<V&V<=13.9&ep>0&ep<=0.1 -> [{{vx:=V;++vx:=0;}{?x>5|y+V*ep<-5|y>5;vy:=V;++vy:=0;}{?x+V*ep<-5|y>5|x>5;++vx:=0;}t:=0;{x'=vx,y'=vy,t'=1&t<=ep}}*]!(-5<=x&x<=5&-5<=y&y<=5)&<{vx:=V;vy:=V;{x'=vx,y'=vy}}*>y>5\n",
        ),
        (
            WATER_TANK,
            "0<=x&x<=m&0<ep&0<=m -> [{f:=*;?-1.25<=f&f<=(m-x)/ep;t:=0;{x'=f,t'=1&x>=0&t<=ep}}*](0<=x&x<=m)\n",
        ),
    ] {
        prints(&rt, alloc, model, text)?;
    }
    Ok(())
}

#[test]
fn lists_models(rt: HostRuntime) -> Result<(), Fail> {
    let alloc = rt.alloc();
    for (model, free, bound) in &[
        (
            ADAPTIVE_CRUISE,
            "A, B, ep, vf, vl, xf, xl",
            "af, al, t, t', vf, vf', vl, vl', xf, xf', xl, xl'",
        ),
        (BOUNCING_BALL, "H, c, g, v, x", "v, v', x, x'"),
        (CAR, "A, B, v, x", "a, v, v', x, x'"),
        (CRUISE_GHOST, "K, d, v, vset", "d, d', v, v', y, y'"),
        (
            PENDULUM,
            "E, L, g, k, theta, w",
            "push, theta, theta', w, w'",
        ),
        (
            ROBOT,
            "A, V, b, dx, dy, ep, v, w, x, xo, y, yo",
            "a, dx, dx', dy, dy', r, t, t', v, v', vxo, vyo, w, w', x, x', xo, xo', y, y', yo, yo'",
        ),
        (
            ROUNDABOUT,
            "c1, c2, d1, d2, e1, e2, om, p, r, x1, x2, y1, y2",
            "d1, d1', d2, d2', e1, e1', e2, e2', x1, x1', x2, x2', y1, y1', y2, y2'",
        ),
        (STOP_SIGN, "A, b, ep, m, v, x", "a, t, t', v, v', x, x'"),
        (THERMOSTAT, "K, T, h", "T, T', c, c', h"),
        (TWO_CARS, "V, ep, x, y", "t, t', vx, vy, x, x', y, y'"),
        (WATER_TANK, "ep, m, x", "f, t, t', x, x'"),
    ] {
        lists(&rt, alloc, model, &[free, bound, "none", "none"])?;
    }
    Ok(())
}

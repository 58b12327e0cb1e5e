//! Words for the trees of the axioms.
use crate::shape::{Item, Label, TreeShape};

// Terms:
pub(crate) const X: TreeShape = TreeShape::Leaf(Label::Variable(b"x_"));

pub(crate) const Y: TreeShape = TreeShape::Leaf(Label::Variable(b"y_"));

pub(crate) const T: TreeShape = TreeShape::Leaf(Label::Variable(b"t_"));

pub(crate) const S: TreeShape = TreeShape::Leaf(Label::Variable(b"s_"));

pub(crate) const X_PRIMED: TreeShape = TreeShape::Leaf(Label::Primed(b"x_"));

pub(crate) const NUMBER_0: TreeShape = TreeShape::Leaf(Label::Number(0));

pub(crate) const NUMBER_1: TreeShape = TreeShape::Leaf(Label::Number(1));

pub(crate) const NUMBER_2: TreeShape = TreeShape::Leaf(Label::Number(2));

// f(||), g(||), a(|y_|) and b(|y_|):
pub(crate) const F: TreeShape = TreeShape::Leaf(Label::UnitFun(b"f", None));

pub(crate) const G: TreeShape = TreeShape::Leaf(Label::UnitFun(b"g", None));

pub(crate) const A_BUT_Y: TreeShape = TreeShape::Leaf(Label::UnitFun(b"a", Some(b"y_")));

pub(crate) const B_BUT_Y: TreeShape = TreeShape::Leaf(Label::UnitFun(b"b", Some(b"y_")));

// f(), g(), c() and h(e):
pub(crate) const F0: TreeShape = TreeShape::Leaf(Label::Apply(b"f", 0));

pub(crate) const G0: TreeShape = TreeShape::Leaf(Label::Apply(b"g", 0));

pub(crate) const C0: TreeShape = TreeShape::Leaf(Label::Apply(b"c", 0));

pub(crate) const H_OF: Label = Label::Apply(b"h", 1);

// Formulas. p(||), q(||), r(||), p(|y_|) and q(|y_|):
pub(crate) const P: TreeShape = TreeShape::Leaf(Label::UnitPred(b"p", None));

pub(crate) const Q: TreeShape = TreeShape::Leaf(Label::UnitPred(b"q", None));

pub(crate) const R: TreeShape = TreeShape::Leaf(Label::UnitPred(b"r", None));

pub(crate) const P_BUT_Y: TreeShape = TreeShape::Leaf(Label::UnitPred(b"p", Some(b"y_")));

pub(crate) const Q_BUT_Y: TreeShape = TreeShape::Leaf(Label::UnitPred(b"q", Some(b"y_")));

// p(), p(e), q(e) and C{e}:
pub(crate) const P0: TreeShape = TreeShape::Leaf(Label::Holds(b"p", 0));

pub(crate) const P_OF: Label = Label::Holds(b"p", 1);

pub(crate) const Q_OF: Label = Label::Holds(b"q", 1);

pub(crate) const C_OF: Label = Label::Predicational(b"C");

// Quantifiers:
pub(crate) const FORALL_X: Label = Label::Forall(b"x_");

pub(crate) const FORALL_T: Label = Label::Forall(b"t_");

pub(crate) const FORALL_S: Label = Label::Forall(b"s_");

pub(crate) const EXISTS_X: Label = Label::Exists(b"x_");

pub(crate) const EXISTS_Y: Label = Label::Exists(b"y_");

// Programs:
pub(crate) const A: TreeShape = TreeShape::Leaf(Label::Const(b"a"));

pub(crate) const B: TreeShape = TreeShape::Leaf(Label::Const(b"b"));

pub(crate) const ASSIGN_X: Label = Label::Assign(b"x_");

pub(crate) const ASSIGN_X_PRIMED: Label = Label::AssignPrimed(b"x_");

pub(crate) const ANY_X: TreeShape = TreeShape::Leaf(Label::Any(b"x_"));

// The items of systems, and systems by them:
const EVOLVE_X: Item = Item::Evolve(b"x_");

const EVOLVE_Y: Item = Item::Evolve(b"y_");

const ITEM_C: Item = Item::Const(b"c", None);

const ITEM_D: Item = Item::Const(b"d", None);

const ITEM_C_BUT_Y: Item = Item::Const(b"c", Some(b"y_"));

pub(crate) const SYSTEM_C: Label = Label::System(&[ITEM_C]);

pub(crate) const SYSTEM_X: Label = Label::System(&[EVOLVE_X]);

pub(crate) const SYSTEM_X_C: Label = Label::System(&[EVOLVE_X, ITEM_C]);

pub(crate) const SYSTEM_C_X: Label = Label::System(&[ITEM_C, EVOLVE_X]);

pub(crate) const SYSTEM_C_D: Label = Label::System(&[ITEM_C, ITEM_D]);

pub(crate) const SYSTEM_D_C: Label = Label::System(&[ITEM_D, ITEM_C]);

pub(crate) const SYSTEM_C_BUT_Y: Label = Label::System(&[ITEM_C_BUT_Y]);

pub(crate) const SYSTEM_C_BUT_Y_Y: Label = Label::System(&[ITEM_C_BUT_Y, EVOLVE_Y]);

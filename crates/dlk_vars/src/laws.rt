//! Laws of tables and sets: calls that do nothing, for their contracts.
ghost use Rattle.std.specs.Prelude.{◌≡◌, Some, IsTrue};
ghost use Rattle.dlk_tree.specs.declared.op.Var.{Var};
ghost use Rattle.dlk_vars.specs.Rows.{row_eq};
ghost use Rattle.dlk_vars.specs.Tables.{number_of, Grows};
ghost use Rattle.dlk_vars.specs.Sets.{has, IsWithin};

use crate::set::VarSet;
use crate::table::{VarNo, VarTable};
use dlk_tree::Var;

/// No two variables of a table have one number. The statement of kept sets asks for it.
pub fn one_variable(table: &VarTable, n: VarNo, v: &Var, w: &Var)
    requires first { number_of table.now v.now ≡ Some n.0 }
    requires second { number_of table.now w.now ≡ Some n.0 }
    ensures { v.now ≡ w.now }
{}

/// A variable keeps its number while the table grows. The statement of kept sets asks for it.
pub fn number_stays(old: &VarTable, new: &VarTable, n: VarNo, v: &Var)
    requires grows { Grows old.now new.now }
    requires number { number_of old.now v.now ≡ Some n.0 }
    ensures { number_of new.now v.now ≡ Some n.0 }
{}

/// A set has the same variables while the table grows, those among them that are numbered only then.
/// The statement of kept sets asks for it.
pub fn set_stays(old: &VarTable, new: &VarTable, set: &VarSet)
    requires grows { Grows old.now new.now }
    requires within { IsWithin old.now set.now }
    ensures members { (v : Var) → has new.now set.now v ≡ has old.now set.now v }
    ensures within { IsWithin new.now set.now }
{}

/// Sets with the same row and the same flag are one.
pub fn same_rows(a: &VarSet, b: &VarSet)
    requires { IsTrue (row_eq a.now b.now) }
    ensures { a.now ≡ b.now }
{}

//! The laws of the text for a solver. Each is a contract of a function that does nothing.
ghost use Rattle.std.specs.Prelude.{◌≡◌, ℕ, List, All, IsTrue, IsFalse};
ghost use Rattle.std.specs.List.{list_any};
ghost use Rattle.std.specs.Str.{bytes_eq};
ghost use Rattle.dlk_tree.specs.Names.{is_name};
ghost use Rattle.dlk_tree.specs.Table.{all_distinct};
ghost use Rattle.dlk_tree.specs.declared.op.Var.{Var};
ghost use Rattle.dlk_calculus.specs.Sequents.{Sequent, IsSequent};
ghost use Rattle.dlk_smt.specs.Smt.{Expr, uses, base_symbol, variable_symbol, function_symbol, declared, asserted};

/// Unlike variables and functions have unlike symbols, and the name of a power's base is the symbol of none.
/// The statement of the text for a solver asks for it.
pub fn unlike_symbols()
    ensures variables { (v w : Var) → IsTrue (is_name v.name) → IsTrue (is_name w.name) → variable_symbol v ≡ variable_symbol w → v ≡ w }
    ensures functions { (g h : List ℕ) → function_symbol g ≡ function_symbol h → g ≡ h }
    ensures apart { (v : Var) (g : List ℕ) → variable_symbol v ≡ function_symbol g → ⊥ }
    ensures no_variable { (v : Var) → base_symbol ≡ variable_symbol v → ⊥ }
    ensures no_function { (g : List ℕ) → base_symbol ≡ function_symbol g → ⊥ }
{}

/// Each symbol that an assertion of a sequent's script uses outside what binds it there is declared, and no symbol is declared twice.
/// The name of a power's base is never declared, so it is used inside its `let` alone.
/// The statement of the text for a solver asks for it.
pub fn declared_once()
    ensures used { (s : Sequent) → All (λ (e : Expr). (x : List ℕ) → IsTrue (uses x e) → IsTrue (list_any (bytes_eq x) (declared s))) (asserted s) }
    ensures once { (s : Sequent) → IsSequent s → IsTrue (all_distinct (declared s)) }
    ensures base { (s : Sequent) → IsFalse (list_any (bytes_eq base_symbol) (declared s)) }
{}

//! The script of one sequent: declarations and assertions.
ghost use Rattle.std.specs.Prelude.{◌≡◌, ◌++◌, [], IfOk, OnOk, All, map, filter, if◌then◌else◌};
ghost use Rattle.std.specs.List.{list_any};
ghost use Rattle.std.specs.Ordering.{nat_cmp};
ghost use Rattle.std.specs.Cmp.Lexicographic.{slice_cmp};
ghost use Rattle.dlk_tree.specs.Listed.{var_cmp};
ghost use Rattle.dlk_tree.specs.Statics.{free};
ghost use Rattle.dlk_store.specs.Stores.{IsId, tree};
ghost use Rattle.dlk_sequent.specs.Sequents.{sequent_at, IsKnown};
ghost use Rattle.dlk_smt.specs.Smt.{variable_symbol, function_symbol, in_some_formula, in_formulas, own_variables, own_functions, put_all, declaration};
ghost use Rattle.dlk_smt.specs.Smt.{declarations, assertion, assertions, expression, denied, smt};

use crate::collected::Symbols;
use crate::symbol::{append_function, append_variable};
use crate::translation::append_expression;
use dlk_print::{PrintFault, append};
use dlk_sequent::Sequent;
use dlk_store::{Id, Steps, Store};
use dlk_tree::{Name, Var};
use std::alloc::{AllocError, Global};
use std::collections::BTreeSet;
use std::sync::ledger::Ledger;

/// The variables and the functions of a sequent.
fn symbols<S: Store, L: Ledger>(
    alloc: Global,
    store: &S,
    s: &Sequent,
    steps: &mut Steps<L>,
) -> Result<Symbols, PrintFault>
    requires { IsKnown (S.trees store.now) s.now }
    ensures variables { IfOk result (λ symbols.
        symbols.variables.keys ≡ put_all var_cmp [] (in_formulas own_variables (sequent_at (S.trees store.now) s.now))) }
    ensures functions { IfOk result (λ symbols.
        symbols.functions.keys ≡ put_all (slice_cmp nat_cmp) [] (in_formulas own_functions (sequent_at (S.trees store.now) s.now))) }
{
    let mut symbols = Symbols::new(alloc);
    symbols.add_trees(store, s.ante.as_slice(), steps)?;
    symbols.add_trees(store, s.succ.as_slice(), steps)?;
    Ok(symbols)
}

fn variables_in_order(alloc: Global, set: BTreeSet<Var>) -> Result<Vec<Var>, AllocError>
    ensures { IfOk result (λ vars. vars.items ≡ set.keys) }
{
    set.into_iter().collect(alloc)
}

fn names_in_order(alloc: Global, set: BTreeSet<Name>) -> Result<Vec<Name>, AllocError>
    ensures { IfOk result (λ names. names.items ≡ set.keys) }
{
    set.into_iter().collect(alloc)
}

fn is_free_in_any<S: Store>(store: &S, ids: &[Id], v: &Var) -> bool
    requires { All (IsId (S.trees store.now)) ids.now }
    ensures { result ≡ list_any (λ t. free t v.now) (map (tree (S.trees store.now)) ids.now) }
{
    for id in ids {
        if store.frees(*id, v) {
            return true;
        }
    }
    false
}

/// Whether the variable is free in some formula.
fn is_free<S: Store>(store: &S, s: &Sequent, v: &Var) -> bool
    requires { IsKnown (S.trees store.now) s.now }
    ensures { result ≡ in_some_formula (λ t. free t v.now) (sequent_at (S.trees store.now) s.now) }
{
    is_free_in_any(store, s.ante.as_slice(), v) || is_free_in_any(store, s.succ.as_slice(), v)
}

/// Declares a variable.
fn declare_variable(v: &Var, out: &mut Vec<u8>) -> Result<(), PrintFault>
    ensures { OnOk result (out.new.items ≡ out.old.items ++ declaration (variable_symbol v.now)) }
{
    append(out, b"(declare-const ")?;
    append_variable(out, v)?;
    append(out, b" Real)\n")
}

/// Declares a variable, if it is free in some formula.
fn declare_free<S: Store>(
    store: &S,
    s: &Sequent,
    v: &Var,
    out: &mut Vec<u8>,
) -> Result<(), PrintFault>
    requires { IsKnown (S.trees store.now) s.now }
    ensures { OnOk result (out.new.items ≡ out.old.items ++
        (if in_some_formula (λ t. free t v.now) (sequent_at (S.trees store.now) s.now) then declaration (variable_symbol v.now) else [])) }
{
    if is_free(store, s, v) {
        declare_variable(v, out)
    } else {
        append(out, b"")
    }
}

/// Declares those of the variables that are free in some formula.
fn declare_variables<S: Store>(
    store: &S,
    s: &Sequent,
    vars: &[Var],
    out: &mut Vec<u8>,
) -> Result<(), PrintFault>
    requires { IsKnown (S.trees store.now) s.now }
    ensures { OnOk result (out.new.items ≡ out.old.items ++
        declarations (map variable_symbol (filter (λ v. in_some_formula (λ t. free t v) (sequent_at (S.trees store.now) s.now)) vars.now))) }
{
    for v in vars {
        declare_free(store, s, v, out)?;
    }
    Ok(())
}

/// Declares a function.
fn declare_function(name: &Name, out: &mut Vec<u8>) -> Result<(), PrintFault>
    ensures { OnOk result (out.new.items ≡ out.old.items ++ declaration (function_symbol name.now)) }
{
    append(out, b"(declare-const ")?;
    append_function(out, name)?;
    append(out, b" Real)\n")
}

/// Declares the functions.
fn declare_functions(names: &[Name], out: &mut Vec<u8>) -> Result<(), PrintFault>
    ensures { OnOk result (out.new.items ≡ out.old.items ++ declarations (map function_symbol names.now)) }
{
    for name in names {
        declare_function(name, out)?;
    }
    Ok(())
}

/// Asserts a formula.
fn assert<S: Store, L: Ledger>(
    store: &S,
    id: Id,
    out: &mut Vec<u8>,
    steps: &mut Steps<L>,
) -> Result<(), PrintFault>
    requires { IsId (S.trees store.now) id }
    ensures { OnOk result (out.new.items ≡ out.old.items ++ assertion (expression (tree (S.trees store.now) id))) }
{
    append(out, b"(assert ")?;
    append_expression(store, id, out, steps)?;
    append(out, b")\n")
}

/// Asserts that a formula is false.
fn deny<S: Store, L: Ledger>(
    store: &S,
    id: Id,
    out: &mut Vec<u8>,
    steps: &mut Steps<L>,
) -> Result<(), PrintFault>
    requires { IsId (S.trees store.now) id }
    ensures { OnOk result (out.new.items ≡ out.old.items ++ assertion (denied (tree (S.trees store.now) id))) }
{
    append(out, b"(assert (not ")?;
    append_expression(store, id, out, steps)?;
    append(out, b"))\n")
}

/// Asserts the formulas on the left.
fn assert_all<S: Store, L: Ledger>(
    store: &S,
    ids: &[Id],
    out: &mut Vec<u8>,
    steps: &mut Steps<L>,
) -> Result<(), PrintFault>
    requires { All (IsId (S.trees store.now)) ids.now }
    ensures { OnOk result (out.new.items ≡ out.old.items ++ assertions (map expression (map (tree (S.trees store.now)) ids.now))) }
{
    for id in ids {
        assert(store, *id, out, steps)?;
    }
    Ok(())
}

/// Asserts that the formulas on the right are false.
fn deny_all<S: Store, L: Ledger>(
    store: &S,
    ids: &[Id],
    out: &mut Vec<u8>,
    steps: &mut Steps<L>,
) -> Result<(), PrintFault>
    requires { All (IsId (S.trees store.now)) ids.now }
    ensures { OnOk result (out.new.items ≡ out.old.items ++ assertions (map denied (map (tree (S.trees store.now)) ids.now))) }
{
    for id in ids {
        deny(store, *id, out, steps)?;
    }
    Ok(())
}

/// Appends the script.
pub(crate) fn append_script<S: Store, L: Ledger>(
    alloc: Global,
    store: &S,
    s: &Sequent,
    out: &mut Vec<u8>,
    steps: &mut Steps<L>,
) -> Result<(), PrintFault>
    requires { IsKnown (S.trees store.now) s.now }
    ensures { OnOk result (out.new.items ≡ out.old.items ++ smt (sequent_at (S.trees store.now) s.now)) }
{
    let symbols = symbols(alloc, store, s, steps)?;
    let variables = variables_in_order(alloc, symbols.variables)?;
    let functions = names_in_order(alloc, symbols.functions)?;
    append(out, b"(set-logic NRA)\n")?;
    declare_variables(store, s, variables.as_slice(), out)?;
    declare_functions(functions.as_slice(), out)?;
    assert_all(store, s.ante.as_slice(), out, steps)?;
    deny_all(store, s.succ.as_slice(), out, steps)?;
    append(out, b"(check-sat)\n")
}

//! The texts of leaves.
ghost use Rattle.std.specs.Prelude.{◌≡◌, ◌↔◌, ◌++◌, [], ◌∷◌, Err, IfOk, OnOk, All, IsTrue, map, if◌then◌else◌, ◌==◌, codes, decimal};
ghost use Rattle.dlk_calculus.specs.Arithmetic.{is_arithmetic_sequent};
ghost use Rattle.dlk_sequent.specs.Sequents.{sequent_at, IsKnown};
ghost use Rattle.dlk_print.specs.Printed.{Begun};
ghost use Rattle.dlk_smt.specs.Smt.{line, smt, is_power, first_power, leaf_lines, leaves_lines};
ghost use Rattle.dlk_smt.specs.Faults.{NamesFirst};

use crate::fault::{LeavesFault, SmtFault};
use crate::power::is_power;
use crate::script::append_script;
use dlk_print::{PrintFault, append, append_decimal};
use dlk_sequent::{Sequent, Shared};
use dlk_store::{Steps, Store};
use std::alloc::Global;
use std::sync::ledger::Ledger;

/// Appends the SMT-LIB text of a sequent of arithmetic: a script that a solver answers with `unsat` where the sequent is valid over
/// the reals whatever `/` gives at 0, and with `sat` where it isn't, if it answers. Nobody proves that a solver agrees.
///
/// # Errors
///
/// `Power` exactly where a power has another exponent than a whole literal from 1 to 16; nothing was appended then. `Memory`: a
/// prefix of the text was appended.
pub fn leaf_text<S: Store, L: Ledger>(
    alloc: Global,
    store: &S,
    s: &Sequent,
    out: &mut Vec<u8>,
    steps: &mut Steps<L>,
) -> Result<(), SmtFault>
    requires known { IsKnown (S.trees store.now) s.now }
    requires arithmetic { IsTrue (is_arithmetic_sequent (sequent_at (S.trees store.now) s.now)) }
    ensures power { (result ≡ Err SmtFault.Power) ↔ IsTrue (is_power (sequent_at (S.trees store.now) s.now)) }
    ensures unchanged { result ≡ Err SmtFault.Power → out.new.items ≡ out.old.items }
    ensures ok { OnOk result (out.new.items ≡ out.old.items ++ smt (sequent_at (S.trees store.now) s.now)) }
    ensures memory { Begun out.old.items out.new.items (smt (sequent_at (S.trees store.now) s.now)) }
{
    if is_power(store, s, steps) {
        return Err(SmtFault::Power);
    }
    append_whole(alloc, store, s, out, steps)?;
    Ok(())
}

/// Appends the script of a sequent, whole or not at all but for the bytes that there was memory for.
fn append_whole<S: Store, L: Ledger>(
    alloc: Global,
    store: &S,
    s: &Sequent,
    out: &mut Vec<u8>,
    steps: &mut Steps<L>,
) -> Result<(), PrintFault>
    requires known { IsKnown (S.trees store.now) s.now }
    requires arithmetic { IsTrue (is_arithmetic_sequent (sequent_at (S.trees store.now) s.now)) }
    ensures ok { OnOk result (out.new.items ≡ out.old.items ++ smt (sequent_at (S.trees store.now) s.now)) }
    ensures memory { Begun out.old.items out.new.items (smt (sequent_at (S.trees store.now) s.now)) }
{
    let mut text = Vec::new(alloc);
    append_script(alloc, store, s, &mut text, steps)?;
    append(out, text.as_slice())
}

/// Appends what stands before the text of leaf i of several.
fn append_head(out: &mut Vec<u8>, i: usize) -> Result<(), PrintFault>
    ensures { OnOk result (out.new.items ≡ out.old.items ++ (line (codes "; leaf " ++ decimal i) ++ (if i == 1 then [] else line (codes "(reset)")))) }
{
    append(out, b"; leaf ")?;
    append_decimal(out, i as u128)?;
    append(out, if i == 1 { b"\n" } else { b"\n(reset)\n" })
}

/// Appends leaf i of several.
fn append_leaf<S: Store, L: Ledger>(
    alloc: Global,
    store: &S,
    i: usize,
    s: &Sequent,
    out: &mut Vec<u8>,
    steps: &mut Steps<L>,
) -> Result<(), LeavesFault>
    requires known { IsKnown (S.trees store.now) s.now }
    requires arithmetic { IsTrue (is_arithmetic_sequent (sequent_at (S.trees store.now) s.now)) }
    ensures first { NamesFirst (first_power i (sequent_at (S.trees store.now) s.now ∷ [])) result }
    ensures owed { IsTrue (is_power (sequent_at (S.trees store.now) s.now)) → result ≡ Err (LeavesFault.Power i) }
    ensures text { OnOk result (out.new.items ≡ out.old.items ++ leaf_lines i (sequent_at (S.trees store.now) s.now)) }
{
    if is_power(store, s, steps) {
        return Err(LeavesFault::Power { leaf: i });
    }
    append_head(out, i)?;
    append_whole(alloc, store, s, out, steps)?;
    Ok(())
}

/// The texts of leaves, which are sequents of arithmetic, as one script: each behind a line with its number, and from the second on
/// behind one that lets the solver forget those before.
///
/// # Errors
///
/// `Power` names the first leaf in which a power has another exponent than a whole literal from 1 to 16.
pub fn leaves_text<S: Store, L: Ledger>(
    alloc: Global,
    store: &S,
    leaves: &[Shared<Sequent>],
    steps: &mut Steps<L>,
) -> Result<Vec<u8>, LeavesFault>
    requires known { All (IsKnown (S.trees store.now)) leaves.now }
    requires arithmetic { All (λ s. IsTrue (is_arithmetic_sequent s)) (map (sequent_at (S.trees store.now)) leaves.now) }
    ensures first { NamesFirst (first_power 1 (map (sequent_at (S.trees store.now)) leaves.now)) result }
    ensures text { IfOk result (λ text. text.items ≡ leaves_lines 1 (map (sequent_at (S.trees store.now)) leaves.now)) }
{
    let mut out = Vec::new(alloc);
    for (i, s) in leaves.iter().enumerate() {
        append_leaf(alloc, store, i + 1, s.value(), &mut out, steps)?;
    }
    Ok(out)
}

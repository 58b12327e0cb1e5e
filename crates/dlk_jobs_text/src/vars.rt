// `vars FILE`: the free, bound and must-bound variables of an expression, and its symbols.
ghost use Rattle.std.specs.Prelude.{◌≡◌, ◌<◌, ◌++◌, ℕ, List, IfOk, OnOk, IfErr, codes};
ghost use Rattle.dlk_store.specs.Stores.{IsId, tree};
ghost use Rattle.dlk_print.specs.Lines.{line};
ghost use Rattle.dlk_jobs_text.specs.Prints.{FileText};
ghost use Rattle.dlk_jobs_text.specs.Lists.{kind_word, kind_and_symbol, variables, set_text, signature_text, Lists};
ghost use Rattle.dlk_replies.specs.Ended.{EndsIn};
ghost use Rattle.dlk_replies.specs.Shown.{reply_of};

use crate::print::read_file;
use dlk_grammar::Dots;
use dlk_print::{symbol_text, variable_text};
use dlk_replies::{Ended, NoReply, Reply, Status, answer_of, printing};
use dlk_shared::SharedStore;
use dlk_store::{Id, Listing, Store, Which};
use dlk_tree::{Kind, Sym, Var};
use std::alloc::Global;

/// What stands between two variables, and between two symbols.
const COMMA: &[u8] = b", ";

/// Appends the variables with commas between.
fn append_variables(out: &mut Vec<u8>, vars: &[Var]) -> Result<(), NoReply>
    ensures { OnOk result (out.new.items ≡ out.old.items ++ variables vars.now) }
{
    let [first, others @ ..] = vars else {
        return Ok(());
    };
    variable_text(first, out)?;
    for v in others {
        out.extend_from_slice(COMMA)?;
        variable_text(v, out)?;
    }
    Ok(())
}

/// What stands before the variables of a set, or alone where it lists none.
fn set_word(set: &Listing) -> &'static str
    ensures { set_text set.now.all_but set.now.vars ≡ result.now ++ variables set.now.vars }
{
    match (set.all_but, set.vars.as_slice().is_empty()) {
        (false, true) => "none",
        (false, false) => "",
        (true, true) => "all",
        (true, false) => "all but ",
    }
}

/// Appends a line with a set, by its members or by what it leaves out.
fn append_set(out: &mut Vec<u8>, label: &str, set: &Listing) -> Result<(), NoReply>
    ensures { OnOk result (out.new.items ≡ out.old.items ++ line (label.now ++ set_text set.now.all_but set.now.vars)) }
{
    out.extend_from_slice(label.as_bytes())?;
    out.extend_from_slice(set_word(set).as_bytes())?;
    append_variables(out, set.vars.as_slice())?;
    out.push(b'\n')?;
    Ok(())
}

/// The word for a kind of symbol.
fn kind_word(kind: Kind) -> &'static str
    ensures { result.now ≡ kind_word kind }
{
    match kind {
        Kind::Func => "function",
        Kind::UnitFunc => "unit-function",
        Kind::Pred => "predicate",
        Kind::UnitPred => "unit-predicate",
        Kind::Quant => "predicational",
        Kind::Prog => "program",
        Kind::Ode => "ode",
    }
}

/// Appends a kind's word, and the symbol over its argument dots.
fn append_symbol(out: &mut Vec<u8>, s: &Sym) -> Result<(), NoReply>
    ensures { OnOk result (out.new.items ≡ out.old.items ++ kind_and_symbol s.now) }
{
    out.extend_from_slice(kind_word(s.kind).as_bytes())?;
    out.push(b' ')?;
    symbol_text(s, out)?;
    Ok(())
}

/// Appends the symbols with commas between, or `none`.
fn append_symbols(out: &mut Vec<u8>, syms: &[Sym]) -> Result<(), NoReply>
    ensures { OnOk result (out.new.items ≡ out.old.items ++ signature_text syms.now) }
{
    let [first, others @ ..] = syms else {
        out.extend_from_slice(b"none")?;
        return Ok(());
    };
    append_symbol(out, first)?;
    for s in others {
        out.extend_from_slice(COMMA)?;
        append_symbol(out, s)?;
    }
    Ok(())
}

/// The variables of a tree and its symbols, a line each.
fn list_tree<S: Store>(alloc: Global, store: &S, id: Id) -> Result<Reply, NoReply>
    requires { IsId (S.trees store.now) id }
    ensures { IfOk result (λ r. (file : List ℕ) → FileText file (tree (S.trees store.now) id) → Lists file (reply_of r)) }
{
    let free = store.list(alloc, id, Which::Free)?;
    let bound = store.list(alloc, id, Which::Bound)?;
    let must = store.list(alloc, id, Which::Must)?;
    let symbols = store.symbols(alloc, id)?;
    let mut printed = Vec::new(alloc);
    append_set(&mut printed, "free: ", &free)?;
    append_set(&mut printed, "bound: ", &bound)?;
    append_set(&mut printed, "must: ", &must)?;
    printed.extend_from_slice(b"symbols: ")?;
    append_symbols(&mut printed, &symbols)?;
    printed.push(b'\n')?;
    Ok(printing(Status::Done, printed))
}

/// Lists an expression's variables and symbols by a store.
fn vars_on<S: Store>(alloc: Global, store: &mut S, file: &[u8]) -> Result<Reply, Ended>
    ensures reply { IfOk result (λ r. Lists file.now (reply_of r)) }
    ensures ended { IfErr result (EndsIn (Lists file.now)) }
{
    let expression = read_file(alloc, file, Dots::Allowed, store)?;
    let reply = list_tree(alloc, store, expression)?;
    Ok(reply)
}

/// Prints the free, bound and must-bound variables of an expression, and its symbols: a line each.
///
/// # Errors
///
/// `Memory` alone: each refusal is a reply.
#[inline(never)]
pub fn vars(alloc: Global, file: &[u8]) -> Result<Reply, NoReply>
    ensures { IfOk result (λ r. Lists file.now (reply_of r)) }
{
    let mut store = SharedStore::new(alloc);
    answer_of(vars_on(alloc, &mut store, file))
}

// Axioms and axiomatic rules.
ghost use Rattle.dlk_sequent.specs.Sequents.{IsKnown};

use dlk_axioms::AxiomForm::{C, E, F, I, Q, R};
use dlk_axioms::{AxiomForm, axiom, axiomatic_rule, form, own_names};
use dlk_plain::PlainStore;
use dlk_sequent::Sequent;
use dlk_store::Store;
use std::alloc::Global;
use std::fmt::Debug;
use std::process::Abort;
use std::test::Fail;

/// What is found of a row is what is wanted.
fn same<T: PartialEq + Debug + Drop>(rt: &impl Abort, found: T, want: T, row: &str) {
    assert_eq!(rt; found, want, "{row}");
}

/// A name, the form of its axiom, and how many nodes its formula has.
type Row = (&'static str, AxiomForm, u32);

const ROWS: &[Row] = &[
    ("diamond", E, 9),
    ("K", I, 13),
    ("DC", C, 16),
    ("DS", E, 38),
    ("Dquot", Q, 18),
    ("Dpow", R, 19),
    ("allinst", I, 6),
    ("eqrefl", F, 3),
];

/// The number of nodes of the axiom of this name.
fn size_of_axiom<S: Store>(alloc: Global, store: &mut S, name: &str) -> Result<Option<u32>, Fail> {
    match axiom(alloc, store, name.as_bytes())? {
        Some(id) => Ok(Some(store.size(id))),
        None => Ok(None),
    }
}

#[test]
fn axioms(rt: HostRuntime) -> Result<(), Fail> {
    for (name, form_wanted, size) in ROWS {
        let found = size_of_axiom(rt.alloc(), &mut PlainStore::new(rt.alloc()), name);
        same(&rt, found?, Some(*size), name);
        same(&rt, form(name.as_bytes()), Some(*form_wanted), name);
    }
    Ok(())
}

/// The number of nodes of the one formula of a sequent that has it on the right.
fn size_alone_right<S: Store>(store: &S, s: &Sequent) -> Option<u32>
    requires { IsKnown (S.trees store.now) s.now }
{
    match (s.ante.as_slice(), s.succ.as_slice()) {
        ([], [id]) => Some(store.size(*id)),
        _ => None,
    }
}

/// The numbers of nodes of the premise and of the conclusion of the rule of this name.
fn sizes_of_rule<S: Store>(
    alloc: Global,
    store: &mut S,
    name: &str,
) -> Result<(Option<u32>, Option<u32>), Fail> {
    let Some((premises, found)) = axiomatic_rule(alloc, store, name.as_bytes())? else {
        return Ok((None, None));
    };
    match premises.as_slice() {
        [only] => Ok((
            size_alone_right(store, only),
            size_alone_right(store, &found),
        )),
        _ => Ok((None, None)),
    }
}

#[test]
fn axiomatic_rules(rt: HostRuntime) -> Result<(), Fail> {
    for (name, premise, conclusion) in &[("G", 1, 3), ("mon", 3, 7), ("CE", 3, 5)] {
        let found = sizes_of_rule(rt.alloc(), &mut PlainStore::new(rt.alloc()), name);
        same(&rt, found?, (Some(*premise), Some(*conclusion)), name);
    }
    Ok(())
}

/// The own names of the axiom of this name, each with a comma behind it.
fn listed_names(alloc: Global, name: &str) -> Result<Option<Vec<u8>>, Fail> {
    let Some(names) = own_names(alloc, name.as_bytes())? else {
        return Ok(None);
    };
    let mut text = Vec::new(alloc);
    for name in &names {
        text.extend_from_slice(name.bytes())?;
        text.push(b',')?;
    }
    Ok(Some(text))
}

#[test]
fn lists_own_names(rt: HostRuntime) -> Result<(), Fail> {
    for (name, wanted) in &[("DS", "x_,t_,s_,"), ("DG", "y_,"), ("K", "")] {
        let found = listed_names(rt.alloc(), name)?.expect(&rt, "an axiom");
        same(&rt, found.as_slice(), wanted.as_bytes(), name);
    }
    Ok(())
}

/// Whether a name is that of an axiom, by each call that takes one.
fn is_axiom<S: Store>(alloc: Global, store: &mut S, name: &str) -> Result<[bool; 3], Fail> {
    let name = name.as_bytes();
    let is_known = axiom(alloc, store, name)?.is_some();
    let has_names = own_names(alloc, name)?.is_some();
    Ok([is_known, has_names, form(name).is_some()])
}

/// Whether a name is that of an axiomatic rule.
fn is_rule<S: Store>(alloc: Global, store: &mut S, name: &str) -> Result<bool, Fail> {
    Ok(axiomatic_rule(alloc, store, name.as_bytes())?.is_some())
}

#[test]
fn other_names_are_unknown(rt: HostRuntime) -> Result<(), Fail> {
    let alloc = rt.alloc();
    for name in &["", "assign", "assignbb", "k", "G"] {
        let found = is_axiom(alloc, &mut PlainStore::new(alloc), name);
        same(&rt, found?, [false; 3], name);
    }
    for name in &["", "g", "GG", "K"] {
        let found = is_rule(alloc, &mut PlainStore::new(alloc), name);
        same(&rt, found?, false, name);
    }
    Ok(())
}

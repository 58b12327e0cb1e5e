use super::same;
use dlk_tree::{Name, Var};
use dlk_vars::{VarFault, VarNo, VarSet, VarTable};
use indexmap::IndexSet;
use std::alloc::Global;
use std::process::Abort;
use std::test::Fail;

/// Numbers whose sets have rows of 0, 1, 3, 4, 5 and 9 words.
const ROWS: &[&[usize]] = &[
    &[],
    &[0, 63],
    &[5, 128, 191],
    &[64, 130, 255],
    &[191, 255, 319],
    &[1, 319, 511, 575],
];

fn some(alloc: Global, numbers: &[usize]) -> Result<VarSet, VarFault> {
    let mut set = VarSet::empty(alloc);
    for n in numbers {
        set = set.with(VarNo(*n))?;
    }
    Ok(set)
}

fn all_but(alloc: Global, numbers: &[usize]) -> Result<VarSet, VarFault> {
    VarSet::all(alloc).minus(&some(alloc, numbers)?)
}

/// The numbers that variables get in turn, each a name with a prime or without.
fn number_all(
    rt: &HostRuntime,
    table: &mut VarTable,
    vars: &[(&str, bool)],
) -> Result<Vec<usize>, Fail> {
    let mut numbers = Vec::new(rt.alloc());
    for (name, primed) in vars {
        let v = var(rt, name, *primed)?;
        numbers.push(table.number(&v)?.0)?;
    }
    Ok(numbers)
}

fn var(rt: &HostRuntime, name: &str, primed: bool) -> Result<Var, Fail> {
    let name = Name::new(rt.alloc(), name.as_bytes())?;
    Ok(Var { name, primed })
}

/// What unions of two sets, one with its numbers or with all others, say of each number.
fn unites(rt: &impl Abort, alloc: Global, left: &[usize], right: &[usize]) -> Result<(), VarFault> {
    let other = some(alloc, right)?;
    let two = some(alloc, left)?.union(&other)?;
    let most = all_but(alloc, left)?.union(&other)?;
    for n in 0..640 {
        let (in_left, in_right) = (left.contains(&n), right.contains(&n));
        let wanted = [in_left || in_right, !in_left || in_right];
        same(rt, [two.has(VarNo(n)), most.has(VarNo(n))], wanted, &n);
    }
    let others = [two.has_others(), most.has_others()];
    same(rt, others, [false, true], &"others");
    Ok(())
}

#[test]
fn unions(rt: HostRuntime) -> Result<(), Fail> {
    for left in ROWS {
        for right in ROWS {
            unites(&rt, rt.alloc(), left, right)?;
        }
    }
    Ok(())
}

/// Whether a set, and the rest of it, meet another set, and the rest of that.
fn meets(rt: &impl Abort, alloc: Global, left: &[usize], right: &[usize]) -> Result<(), VarFault> {
    let (set, rest) = (some(alloc, left)?, all_but(alloc, left)?);
    let (other, most) = (some(alloc, right)?, all_but(alloc, right)?);
    let shared = left.iter().any(|n| right.contains(n));
    let outside = right.iter().any(|n| !left.contains(n));
    let found = [set.meets(&other), rest.meets(&other), rest.meets(&most)];
    same(rt, found, [shared, outside, true], &"meets");
    let are_empty = [set.is_empty(), rest.is_empty()];
    same(rt, are_empty, [left.is_empty(), false], &"empty");
    Ok(())
}

#[test]
fn meetings(rt: HostRuntime) -> Result<(), Fail> {
    for left in ROWS {
        for right in ROWS {
            meets(&rt, rt.alloc(), left, right)?;
        }
    }
    Ok(())
}

/// What two sets have in common, what the first has alone, and what the second hasn't, say of each number.
fn differ(rt: &impl Abort, left: &VarSet, right: &VarSet, all: &VarSet) -> Result<(), VarFault> {
    let (both, less, rest) = (left.meet(right)?, left.minus(right)?, all.minus(right)?);
    for n in 0..640 {
        let found = [both.has(VarNo(n)), less.has(VarNo(n)), rest.has(VarNo(n))];
        let in_both = [63, 300].contains(&n);
        let in_rest = ![63, 65, 300, 400].contains(&n);
        same(rt, found, [in_both, [1, 64].contains(&n), in_rest], &n);
    }
    let others = [both.has_others(), less.has_others(), rest.has_others()];
    same(rt, others, [false, false, true], &"others");
    same(rt, left.meet(&rest)? == less, true, &"what is left");
    Ok(())
}

#[test]
fn differences(rt: HostRuntime) -> Result<(), Fail> {
    let alloc = rt.alloc();
    let left = some(alloc, &[1, 63, 64, 300])?;
    let right = some(alloc, &[63, 65, 300, 400])?;
    differ(&rt, &left, &right, &VarSet::all(alloc))?;
    same(&rt, left.minus(&left)?.is_empty(), true, &"nothing");
    Ok(())
}

#[test]
fn numbers(rt: HostRuntime) -> Result<(), Fail> {
    let mut table = VarTable::new(rt.alloc());
    let vars = [("x", false), ("x", true), ("x", false), ("y", true)];
    let numbers = number_all(&rt, &mut table, &vars)?;
    same(&rt, numbers.as_slice(), &[0, 1, 0, 2], &"numbers");
    let y = var(&rt, "y", false)?;
    same(&rt, table.find(&y), None, &"y");
    same(&rt, table.as_slice().len(), 3, &"variables");
    Ok(())
}

/// The set of a unit predicate with a taboo has a variable that is numbered only after the set was made.
#[test]
fn a_variable_comes_later(rt: HostRuntime) -> Result<(), Fail> {
    let mut table = VarTable::new(rt.alloc());
    let taboo = number_all(&rt, &mut table, &[("y", false), ("y", true)])?;
    let free = all_but(rt.alloc(), taboo.as_slice())?;
    let later = number_all(&rt, &mut table, &[("z", false), ("z", true)])?;
    for n in taboo {
        same(&rt, free.has(VarNo(n)), false, &n);
    }
    for n in later {
        same(&rt, free.has(VarNo(n)), true, &n);
    }
    Ok(())
}

/// Where a set stands in a table, and whether it is new there.
fn put(table: &mut IndexSet<VarSet>, set: VarSet) -> Result<(usize, bool), VarFault> {
    Ok(table.insert_full(set)?)
}

/// The same of a set, the rest of it, and the set again.
fn put_three(table: &mut IndexSet<VarSet>, alloc: Global) -> Result<[(usize, bool); 3], VarFault> {
    let first = put(table, some(alloc, &[3, 70])?)?;
    let second = put(table, all_but(alloc, &[3, 70])?)?;
    let third = put(table, some(alloc, &[3, 70])?.clone()?)?;
    Ok([first, second, third])
}

/// A table of sets keeps equal ones once.
#[test]
fn equal_sets(rt: HostRuntime) -> Result<(), Fail> {
    let mut table = IndexSet::new(rt.alloc());
    let found = put_three(&mut table, rt.alloc())?;
    same(&rt, found, [(0, true), (1, true), (0, false)], &"sets");
    Ok(())
}

// The plan of a `( )'`.
ghost use Rattle.std.specs.Prelude.{◌≡◌, ◌<◌};

use super::*;
use dlk_derive::plan;
use dlk_sequent::Place;

/// How many uses of axioms the plan has for the `( )'` that is the first kid of the first formula on the right.
fn uses<L: Ledger>(alloc: Global, blank: Blank, text: &[u8]) -> Option<usize>
    requires name { blank.name ≡ L.name }
    requires parts { blank.parts ≡ L.parts }
    requires some { 0 < blank.parts }
{
    let mut store = SharedStore::new(alloc);
    let sequent = read_sequent(alloc, text, &mut store).ok()?;
    let mut steps = Steps::<L>::new(blank);
    let atoms = plan(alloc, &store, &sequent, Place::Succ(1), &[0], &mut steps).ok()?;
    Some(atoms.len())
}

#[test]
fn plans_a_derivative(rt: HostRuntime) -> Result<(), Fail> {
    let alloc = rt.alloc();
    assert_eq!(rt;
        uses::<Brand>(alloc, Blank::new(1), b"==> (x^2+y)'>=0"),
        Some(4)
    );
    Ok(())
}

// The kernel, by itself, and a plan.
mod plans;
mod rules;

ghost use Rattle.std.specs.Prelude.{◌≡◌, ◌<◌};

use dlk_kernel::{Kernel, Step};
use dlk_parse::{read_formula, read_sequent};
use dlk_shared::SharedStore;
use dlk_store::{Steps, Store};
use std::alloc::{AllocError, Global};
use std::marker::Brand;
use std::process::Abort;
use std::sync::ledger::{Blank, Ledger};
use std::test::Fail;

/// The size and the depth of a formula, and the numbers of rows behind a step and back at the mark before it.
fn stepped_back<L: Ledger>(alloc: Global, blank: Blank) -> Option<[u32; 4]>
    requires name { blank.name ≡ L.name }
    requires parts { blank.parts ≡ L.parts }
    requires some { 0 < blank.parts }
{
    let mut kernel = Kernel::new(alloc, SharedStore::new(alloc));
    stepped_back_on(alloc, &mut kernel, &mut Steps::<L>::new(blank))
}

/// The same on a kernel.
fn stepped_back_on<S: Store, L: Ledger>(
    alloc: Global,
    kernel: &mut Kernel<S>,
    steps: &mut Steps<L>,
) -> Option<[u32; 4]> {
    let formula = read_formula(alloc, b"x>=0 -> x>=0", kernel).ok()?;
    let sequent = read_sequent(alloc, b"==> x>=0", kernel).ok()?;
    let mark = kernel.mark();
    kernel.step(alloc, &Step::Start(sequent), steps).ok()?;
    let rows = kernel.rows();
    kernel.release(mark);
    Some([
        kernel.size(formula),
        kernel.depth(formula),
        rows,
        kernel.rows(),
    ])
}

#[test]
fn goes_back(rt: HostRuntime) -> Result<(), Fail> {
    let alloc = rt.alloc();
    assert_eq!(rt;
        stepped_back::<Brand>(alloc, Blank::new(1)),
        Some([7, 3, 1, 0])
    );
    Ok(())
}

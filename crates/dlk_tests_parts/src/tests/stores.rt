// Numbers and sets of variables, and the store that keeps each tree once.
mod sharing;
mod variables;

use std::fmt::{Debug, Display};
use std::process::Abort;

/// What is found of a row is what is wanted.
fn same<T: PartialEq + Debug + Drop>(rt: &impl Abort, found: T, want: T, row: &impl Display) {
    assert_eq!(rt; found, want, "{row}");
}

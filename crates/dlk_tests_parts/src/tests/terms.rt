// Lines of terms, files of lines, and reports.
mod files;
mod lines;
mod reports;

use std::fmt::Debug;
use std::process::Abort;

/// What is found of a row is what is wanted.
fn same<T: PartialEq + Debug + Drop>(rt: &impl Abort, found: T, want: T, row: &str) {
    assert_eq!(rt; found, want, "{row}");
}

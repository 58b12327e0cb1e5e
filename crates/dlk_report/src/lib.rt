//! Reports of proofs.
#![tactic(auto)]

mod fault;
mod json;
mod laws;
mod printing;
mod report;

pub use fault::ReportFault;
pub use json::report_json;
pub use laws::{escapes, first_line};
pub use printing::report_text;
pub use report::{Report, shown};

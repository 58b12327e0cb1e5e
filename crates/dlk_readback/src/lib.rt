//! The laws of canonical text: parsing it gives the tree back.
#![tactic(auto)]

pub mod laws;

//! Node lines: the trees of a term file by the numbers of their nodes.
#![tactic(auto)]

mod adding;
mod by_nodes;
mod calls;
mod details;
pub mod file_laws;
mod items;
pub mod laws;
mod line;
mod literals;
mod node;
mod numbers;
mod pairs;
mod parts;
mod reading;
mod sequents;
mod spelling;
mod symbols;
mod table;
mod term;
mod words;
mod writing;

pub use adding::add_new;
/// The fault of a node's line is that of a step's.
pub use dlk_lines::LineFault as NodeFault;
pub use line::Line2;
pub use reading::read_node_line;
pub use table::NodeTable;
pub use term::write_step;
pub use writing::append_node;

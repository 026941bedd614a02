// Decision diagrams: designs whose rows are read from a root, one input at each node.
#![tactic(auto)]

mod node;
mod same;
mod table;
mod target;
mod theorems;

pub use node::Node;
pub use table::Diagram;
pub use target::Target;
pub use theorems::{buildings_have_reasons, figure_holds, steps_suffice};

#[cfg(test)]
mod tests;

// A decision diagram as its table: the nodes, and the reference at which each output begins.
ghost use Rattle.std.specs.Prelude.{◌≡◌, true};
ghost use Rattle.diagram.specs.Rules.{kept};

use crate::node::Node;

mod build;
mod questions;
mod spot;

// A table that keeps the rules of a diagram. It stays a list with references into it, in the customer's order:
// nodes are shared, and refusals name their places. The roots are references as numbers for the same reason as a
// node's branches: the table is the customer's format, in which any number may come.
#[derive(Drop)]
pub struct Diagram {
    inputs: u32,
    nodes: Vec<Node>,
    roots: Vec<u32>,
    ghost rules: { kept inputs nodes.items roots.items ≡ true },
}

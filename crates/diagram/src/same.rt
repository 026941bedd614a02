// Nodes are records: two meet if they are equal.
ghost use Rattle.diagram.specs.Same.{same_node};

use crate::node::Node;
use design::Record;

// So equal nodes can be searched for.
impl Record for Node {
    ghost meets = { same_node };

    fn meets(&self, other: &Node) -> bool {
        self == other
    }
}

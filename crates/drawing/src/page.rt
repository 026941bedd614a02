// The fixed table that a drawing is made in.
use arrayvec::ArrayVec;
use diagram::Node;

// The nodes placed so far, and for each k the reference of a piece. Sixteen inputs have
// 1 + 2 + .. + 16 = 136 pieces that can be nodes, and 17 values.
#[derive(Drop)]
pub struct Page {
    pub nodes: ArrayVec<Node, 136>,
    pub refers: [u32; 17],
}

// The camera's tables: two outputs over a window of three by three pixels.
//
// The pixels are the inputs, bright is 1:
//
//     0 1 2
//     3 4 5
//     6 7 8
//
// Output 0, 'a furrow runs down the middle', comes as cubes: it is on where the middle column 1, 4, 7 is bright
// (fixed set and value set 2 + 16 + 128 = 146). Where that column is dark and pixel 0 glares, the soil is wet and the
// camera's word does not count (fixed 147, value 1).
//
// Output 1, 'the left edge is bright', comes as a diagram over pixels 0, 3, 6: on where two of the three are bright,
// and a don't-care where all three are, which is wet soil again.
use cover::{Cover, Cube};
use design::Joined;
use diagram::{Diagram, Node};
use refusal::Refusal;
use std::alloc::Global;

// Both outputs as one design.
pub(crate) type Camera = Joined<Cover, Diagram>;

// Output 0, as above. Kinds stand as numbers, 1 on and 2 don't-care: a constant can call no `u32::from`.
const FURROW: [Cube; 2] = [
    Cube {
        output: 0,
        kind: 1,
        fixed: 146,
        value: 146,
    },
    Cube {
        output: 0,
        kind: 2,
        fixed: 147,
        value: 1,
    },
];

// Output 1, as above.
const LEFT_EDGE: [Node; 5] = [
    Node {
        level: 6,
        low: 0,
        high: 1,
    },
    Node {
        level: 6,
        low: 1,
        high: 2,
    },
    Node {
        level: 3,
        low: 0,
        high: 3,
    },
    Node {
        level: 3,
        low: 3,
        high: 4,
    },
    Node {
        level: 0,
        low: 5,
        high: 6,
    },
];

// The furrow's cover.
fn furrow(heap: Global) -> Result<Cover, Refusal> {
    Cover::new(9, 1, Vec::from_slice(heap, &FURROW)?)
}

// The left edge's diagram.
fn left_edge(heap: Global) -> Result<Diagram, Refusal> {
    let nodes = Vec::from_slice(heap, &LEFT_EDGE)?;
    Diagram::new(9, 1, nodes, Vec::from_slice(heap, &[7])?)
}

// The furrow as output 0, the left edge as output 1.
pub(crate) fn both(heap: Global) -> Result<Camera, Refusal> {
    Joined::new(furrow(heap)?, left_edge(heap)?)
}

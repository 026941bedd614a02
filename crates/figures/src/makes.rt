// The designs whose tallies are printed.
use cover::{Cover, Cube, Kind};
use design::Joined;
use diagram::{Diagram, Node};
use refusal::Refusal;
use samples::{small_cover, small_diagram};
use std::alloc::Global;

// A cover and a diagram as one.
pub(crate) type Pair = Joined<Cover, Diagram>;

// The small function twice, in either make.
pub(crate) fn pair(heap: Global) -> Result<Pair, Refusal> {
    Joined::new(small_cover(heap)?, small_diagram(heap)?)
}

// A pair within a pair.
pub(crate) fn nested(heap: Global) -> Result<Joined<Cover, Pair>, Refusal> {
    Joined::new(small_cover(heap)?, pair(heap)?)
}

// Eight inputs, of which only 1, 4 and 6 are tested.
const SPARSE: [Node; 3] = [
    Node {
        level: 6,
        low: 1,
        high: 0,
    },
    Node {
        level: 4,
        low: 3,
        high: 2,
    },
    Node {
        level: 1,
        low: 4,
        high: 3,
    },
];

// Two outputs by these nodes; the second is a don't-care throughout.
pub(crate) fn skipping(heap: Global) -> Result<Diagram, Refusal> {
    let nodes = Vec::from_slice(heap, &SPARSE)?;
    Diagram::new(8, 2, nodes, Vec::from_slice(heap, &[5, 2])?)
}

// The two nodes of a level: an input that is 1 changes which of the two references goes on.
fn crossed(level: u32, even: u32, odd: u32) -> [Node; 2] {
    [
        Node {
            level,
            low: even,
            high: odd,
        },
        Node {
            level,
            low: odd,
            high: even,
        },
    ]
}

// One if the number of ones is odd: two nodes a level, the last level first.
pub(crate) fn parity(heap: Global) -> Result<Diagram, Refusal> {
    let mut nodes = Vec::from_slice(heap, &crossed(15, 0, 1))?;
    for step in 0u32..15 {
        nodes.extend_from_slice(&crossed(14 - step, 3 + 2 * step, 4 + 2 * step))?;
    }
    Diagram::new(16, 1, nodes, Vec::from_slice(heap, &[33])?)
}

// Sixteen inputs, the lowest six fixed to each value but every fifth, on and don't-care in turn.
pub(crate) fn blocks(heap: Global) -> Result<Cover, Refusal> {
    let cubes = (0u16..64)
        .filter(|value| value % 5 != 0)
        .map(|value| Cube {
            output: 0,
            kind: u32::from(if value % 2 == 0 {
                Kind::DontCare
            } else {
                Kind::On
            }),
            fixed: 63,
            value,
        })
        .collect(heap)?;
    Cover::new(16, 1, cubes)
}

// One row of four inputs.
fn row_of(kind: Kind, row: u16) -> Cube {
    Cube {
        output: 0,
        kind: u32::from(kind),
        fixed: 15,
        value: row,
    }
}

// At each weight as many rows on as off; weights 0 and 4 have one row each, and it is a don't-care.
pub(crate) fn ties(heap: Global) -> Result<Cover, Refusal> {
    let on = [1, 2, 3, 5, 6, 7, 11]
        .into_iter()
        .map(|row| row_of(Kind::On, row));
    let free = [0, 15].into_iter().map(|row| row_of(Kind::DontCare, row));
    Cover::new(4, 1, on.chain(free).collect(heap)?)
}

// One cube that holds every row, of this kind.
pub(crate) fn all_of(heap: Global, inputs: u32, kind: Kind) -> Result<Cover, Refusal> {
    let all = Cube {
        output: 0,
        kind: u32::from(kind),
        fixed: 0,
        value: 0,
    };
    Cover::new(inputs, 1, Vec::from_slice(heap, &[all])?)
}

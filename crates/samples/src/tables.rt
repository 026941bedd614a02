// One small function of three inputs as a cover and as a diagram: the odd rows are on, row 6 is a don't-care.
ghost use Rattle.cover.specs.Covers.{told};
ghost use Rattle.cover.specs.Figures.{small_table};
ghost use Rattle.diagram.specs.Meaning.{tabled};
ghost use Rattle.diagram.specs.Figures.{figure};
ghost use Rattle.samples.specs.Made.{Made};

use cover::{Cover, Cube};
use diagram::{Diagram, Node};
use refusal::Refusal;
use std::alloc::Global;

// The cubes: the rows that have input 0, and row 6. Kinds stand as numbers, 1 on and 2 don't-care: a constant can call no
// `u32::from`.
const CUBES: [Cube; 2] = [
    Cube {
        output: 0,
        kind: 1,
        fixed: 1,
        value: 1,
    },
    Cube {
        output: 0,
        kind: 2,
        fixed: 7,
        value: 6,
    },
];

// The nodes: input 0 decides for one, else inputs 1 and 2 together for don't-care.
const NODES: [Node; 3] = [
    Node {
        level: 2,
        low: 0,
        high: 2,
    },
    Node {
        level: 1,
        low: 0,
        high: 3,
    },
    Node {
        level: 0,
        low: 4,
        high: 1,
    },
];

// The function as a cover.
pub fn small_cover(heap: Global) -> Result<Cover, Refusal>
    ensures { Made told small_table result }
{
    Cover::new(3, 1, Vec::from_slice(heap, &CUBES)?)
}

// The same function as a diagram.
pub fn small_diagram(heap: Global) -> Result<Diagram, Refusal>
    ensures { Made tabled figure result }
{
    Diagram::new(
        3,
        1,
        Vec::from_slice(heap, &NODES)?,
        Vec::from_slice(heap, &[5])?,
    )
}

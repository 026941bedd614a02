// Drawings, each read back at every row.
use anyhow::Context;
use diagram::{Node, Target};
use drawing::draw;
use samples::{Outcome, value_at};
use std::fmt;
use std::iter::Sum;
use std::ops::Add;
use symmetric::ValueVector;

// How much was drawn, and the rows at which the reading was compared with the vector's value.
#[derive(Clone, Copy, Default)]
struct Drawings {
    drawn: u32,
    nodes: usize,
    rows: Outcome,
}

// Two counts together. `sum` asks an impl of each type that is summed, as outcomes have theirs.
impl Add for Drawings {
    type Output = Drawings;

    fn add(self, other: Drawings) -> Drawings {
        Drawings {
            drawn: self.drawn.saturating_add(other.drawn),
            nodes: self.nodes.saturating_add(other.nodes),
            rows: self.rows + other.rows,
        }
    }
}

// All of a list together.
impl Sum<Drawings> for Drawings {
    fn sum<I: Iterator<Item = Drawings>>(iter: I) -> Drawings {
        iter.fold(Drawings::default(), |total, one| total + one)
    }
}

// The counts in one line.
impl fmt::Display for Drawings {
    fn fmt<W: fmt::Write>(&self, f: &mut fmt::Formatter<W>) -> fmt::Result {
        let Drawings { drawn, nodes, rows } = *self;
        let Outcome { compared, differ } = rows;
        write!(
            f,
            "{drawn} drawn, {nodes} nodes, {compared} rows read back, {differ} differ"
        )
    }
}

// Where a row goes on from a node.
fn branch(node: Node, row: u32) -> u32 {
    match row.checked_shr(node.level) {
        Some(rest) if rest % 2 == 1 => node.high,
        _ => node.low,
    }
}

// What a row is led to: a mark, after at most one step for each input.
fn read(nodes: &[Node], root: u32, row: u32) -> Target {
    let mut target = Target::from(root);
    for _ in 0..16 {
        if let Target::Node(place) = target
            && let Some(node) = nodes.get(place)
        {
            target = Target::from(branch(*node, row));
        }
    }
    target
}

// Draws a vector and reads the drawing at every row. The value 0 or 1 at a row is also the reference to its mark. A
// refused drawing is counted as one that differs.
fn read_back(vector: &ValueVector) -> Drawings {
    let mut buffer = [Node::default(); 136];
    let Ok(drawn) = draw(vector, &mut buffer) else {
        return Drawings {
            drawn: 1,
            nodes: 0,
            rows: Outcome {
                compared: 0,
                differ: 1,
            },
        };
    };
    let rows = (0u32..1 << vector.inputs())
        .map(|row| {
            let value = value_at(vector.bits(), row);
            Outcome::from(read(&buffer, drawn.root, row) == Target::from(value))
        })
        .sum();
    Drawings {
        drawn: 1,
        nodes: drawn.count,
        rows,
    }
}

// Every vector of so many inputs.
fn every(inputs: u32) -> Drawings {
    (0..32)
        .filter_map(|bits| ValueVector::new(inputs, bits))
        .map(|vector| read_back(&vector))
        .sum()
}

// All small vectors, and some of 16 inputs.
pub(crate) fn draw_all(rt: &HostRuntime) -> anyhow::Result<()> {
    let small: Drawings = (1..5).map(every).sum();
    println!(rt; "all vectors of 1 to 4 inputs: {small}")?;
    let large = [
        ("parity", 0xaaaa),
        ("majority", 0x1fe00),
        ("weight 8 alone", 0x100),
        ("weight 0 alone", 1),
        ("all", 0x1ffff),
    ];
    for (name, bits) in large {
        let vector = ValueVector::new(16, bits).context("no vector has these bits")?;
        println!(rt; "{name} at 16 inputs: {}", read_back(&vector))?;
    }
    Ok(())
}

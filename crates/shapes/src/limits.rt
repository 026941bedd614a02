// Tables at and beyond the limits of their makes.
use crate::maker::expected;
use cover::{Cover, Cube, Kind};
use design::Joined;
use diagram::{Diagram, Node};
use refusal::Refusal;
use std::alloc::Global;
use std::io;

// Says whether a table was made.
fn say<D: Drop>(rt: &HostRuntime, made: Result<D, Refusal>) -> io::Result<()> {
    match made {
        Ok(_) => println!(rt; "made"),
        Err(refusal) => println!(rt; "refused {refusal}"),
    }
}

// A cover of no cubes.
fn bare_cover(heap: Global, inputs: u32, outputs: u32) -> Result<Cover, Refusal> {
    Cover::new(inputs, outputs, Vec::new(heap))
}

// A diagram of no nodes: every output is 0 throughout.
fn bare_diagram(heap: Global, inputs: u32, outputs: u32) -> Result<Diagram, Refusal> {
    let roots = vec![in heap; 0; outputs as usize]?;
    Diagram::new(inputs, outputs, Vec::new(heap), roots)
}

// A cover of so many cubes, none of which meets another.
fn crowded_cover(heap: Global, count: u16) -> Result<Cover, Refusal> {
    let cubes = (0..count)
        .map(|value| Cube {
            output: 0,
            kind: u32::from(Kind::On),
            fixed: 8191,
            value,
        })
        .collect(heap)?;
    Cover::new(16, 1, cubes)
}

// A diagram of so many nodes, all alike.
fn crowded_diagram(heap: Global, count: u16) -> Result<Diagram, Refusal> {
    let node = Node {
        level: 15,
        low: 0,
        high: 1,
    };
    let nodes = vec![in heap; node; usize::from(count)]?;
    Diagram::new(16, 1, nodes, Vec::from_slice(heap, &[3])?)
}

// Tables of one make at its limits and one past each: bare ones of so many inputs and outputs, and ones of so many parts.
fn try_make<D: Drop, B: Fn(u32, u32) -> Result<D, Refusal>, C: Fn(u16) -> Result<D, Refusal>>(
    rt: &HostRuntime,
    make: &str,
    parts: &str,
    bare: B,
    crowded: C,
) -> io::Result<()>
    requires bare { B.IsAlwaysCallable bare }
    requires crowded { C.IsAlwaysCallable crowded }
{
    print!(rt; "{make} of 16 inputs: ")?;
    say(rt, bare(16, 1))?;
    print!(rt; "{make} of 17 inputs: ")?;
    say(rt, bare(17, 1))?;
    print!(rt; "{make} of 8 outputs: ")?;
    say(rt, bare(16, 8))?;
    print!(rt; "{make} of 9 outputs: ")?;
    say(rt, bare(16, 9))?;
    print!(rt; "{make} of 4,096 {parts}: ")?;
    say(rt, crowded(4096))?;
    print!(rt; "{make} of 4,097 {parts}: ")?;
    say(rt, crowded(4097))
}

// A cover of 16 inputs joined with a diagram of so many inputs and outputs.
fn try_pair(rt: &HostRuntime, name: &str, inputs: u32, outputs: u32) -> anyhow::Result<()> {
    let heap = rt.alloc();
    let first = expected(bare_cover(heap, 16, 4))?;
    let second = expected(bare_diagram(heap, inputs, outputs))?;
    print!(rt; "{name}: ")?;
    say(rt, Joined::new(first, second))?;
    Ok(())
}

// Each make at its limits and one past them, then pairs.
pub(crate) fn try_all(rt: &HostRuntime) -> anyhow::Result<()> {
    let heap = rt.alloc();
    try_make(
        rt,
        "cover",
        "cubes",
        |inputs, outputs| bare_cover(heap, inputs, outputs),
        |count| crowded_cover(heap, count),
    )?;
    try_make(
        rt,
        "diagram",
        "nodes",
        |inputs, outputs| bare_diagram(heap, inputs, outputs),
        |count| crowded_diagram(heap, count),
    )?;
    try_pair(rt, "pair of 4 and 4 outputs", 16, 4)?;
    try_pair(rt, "pair of 4 and 5 outputs", 16, 5)?;
    try_pair(rt, "pair of 16 and 15 inputs", 15, 5)
}

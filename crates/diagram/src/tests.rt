// Diagrams built, refused and asked.
use crate::{Diagram, Node, Target};
use design::{Design, Mark, Tally};
use refusal::Refusal;
use std::alloc::Global;
use std::test::Fail;

// A row of a diagram's table.
fn node(level: u32, low: u32, high: u32) -> Node {
    Node { level, low, high }
}

// The refusal of a table, or none.
fn refusal(inputs: u32, outputs: u32, nodes: Vec<Node>, roots: Vec<u32>) -> Option<Refusal> {
    Diagram::new(inputs, outputs, nodes, roots).err()
}

#[test]
fn references_lead_to_marks_and_nodes(rt: HostRuntime) {
    let targets = [0, 2, 3, u32::MAX].map(Target::from);
    let wanted = [
        Target::Mark(Mark::Zero),
        Target::Mark(Mark::DontCare),
        Target::Node(0),
        Target::Node(4294967292),
    ];
    assert_eq!(rt; targets, wanted);
}

#[test]
fn three_nodes_have_their_known_counts(rt: HostRuntime) -> Result<(), Fail> {
    let heap = rt.alloc();
    let nodes = vec![in heap; node(2, 0, 2), node(1, 0, 3), node(0, 4, 1)]?;
    let d = Diagram::new(3, 1, nodes, vec![in heap; 5]?)?;
    assert_eq!(rt; d.tally(0, 1), Ok(Tally { on: 1, free: 0 }));
    assert_eq!(rt; d.tally(0, 2), Ok(Tally { on: 2, free: 1 }));
    Ok(())
}

// Level 0 is skipped at the root, level 2 at a branch, and levels 2 and 3 above a mark.
fn skipping(heap: Global) -> Result<Diagram, Fail> {
    let nodes = vec![in heap; node(3, 2, 1), node(1, 1, 3)]?;
    Ok(Diagram::new(4, 1, nodes, vec![in heap; 4]?)?)
}

#[test]
fn a_skipped_level_doubles_the_rows(rt: HostRuntime) -> Result<(), Fail> {
    let d = skipping(rt.alloc())?;
    let tallies = [
        ((0, 2), Ok(Tally { on: 4, free: 2 })),
        ((0, 4), Ok(Tally { on: 1, free: 0 })),
        ((0, 5), Err(Refusal::NoWeight)),
        ((1, 5), Err(Refusal::NoOutput)),
    ];
    for ((output, weight), wanted) in tallies {
        assert_eq!(rt; d.tally(output, weight), wanted);
    }
    Ok(())
}

#[test]
fn a_row_is_read_past_a_skipped_level(rt: HostRuntime) -> Result<(), Fail> {
    let d = skipping(rt.alloc())?;
    let marks = [
        (0, Ok(Mark::One)),
        (7, Ok(Mark::DontCare)),
        (15, Ok(Mark::One)),
        (16, Err(Refusal::NoRow)),
    ];
    for (row, wanted) in marks {
        assert_eq!(rt; d.mark(0, row), wanted);
    }
    Ok(())
}

#[test]
fn the_first_broken_rule_is_told(rt: HostRuntime) -> Result<(), Fail> {
    let heap = rt.alloc();
    let low = [node(1, 0, 0), node(1, 1, 3)];
    let late = [node(2, 0, 0), node(0, 0, 4)];
    let good = [node(1, 0, 1), node(0, 2, 3)];
    let tables = [
        (17, 9, &[][..], &[9][..], Refusal::Inputs),
        (16, 9, &[], &[9], Refusal::Outputs),
        (2, 1, &low, &[], Refusal::BadNode { place: 1 }),
        (2, 1, &late, &[], Refusal::BadNode { place: 0 }),
        (2, 1, &good, &[9, 9], Refusal::RootCount { length: 2 }),
        (2, 2, &good, &[4, 5], Refusal::BadRoot { output: 1 }),
    ];
    for (inputs, outputs, nodes, roots, why) in tables {
        let told = refusal(inputs, outputs, nodes.to_vec(heap)?, roots.to_vec(heap)?);
        assert_eq!(rt; told, Some(why));
    }
    Ok(())
}

// So many nodes that test input 0, of marks alone.
fn crowd(heap: Global, count: usize) -> Result<Vec<Node>, Fail> {
    Ok(vec![in heap; node(0, 0, 1); count]?)
}

#[test]
fn as_many_nodes_as_may_be(rt: HostRuntime) -> Result<(), Fail> {
    let heap = rt.alloc();
    assert_eq!(rt;
        refusal(16, 1, crowd(heap, 4096)?, vec![in heap; 4098]?),
        None
    );
    assert_eq!(rt;
        refusal(16, 1, crowd(heap, 4097)?, vec![in heap]?),
        Some(Refusal::TooMany { count: 4097 })
    );
    Ok(())
}

#[test]
fn every_path_of_sixteen_inputs(rt: HostRuntime) -> Result<(), Fail> {
    let heap = rt.alloc();
    let mut nodes = vec![in heap; node(15, 1, 1)]?;
    for level in 1..16 {
        nodes.push(node(15 - level, 2 + level, 2 + level))?;
    }
    let d = Diagram::new(16, 1, nodes, vec![in heap; 18]?)?;
    assert_eq!(rt; d.tally(0, 8), Ok(Tally { on: 12870, free: 0 }));
    Ok(())
}

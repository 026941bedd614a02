// Pairs of covers and diagrams, the search among cubes, and nearest functions of small and of large tables.
use cover::{Cover, Cube, Kind};
use design::{Design, Joined, Mark, Tally, first_meeting};
use diagram::{Diagram, Node};
use refusal::Refusal;
use std::alloc::Global;
use std::test::Fail;
use symmetric::nearest;

// A cube at output 0.
fn cube(kind: Kind, fixed: u16, value: u16) -> Cube {
    Cube {
        output: 0,
        kind: u32::from(kind),
        fixed,
        value,
    }
}

// A node of this level with these two branches.
fn node(level: u32, low: u32, high: u32) -> Node {
    Node { level, low, high }
}

// Three inputs and two outputs: row 0 of output 0 is one, all else is zero.
fn corner(heap: Global) -> Result<Cover, Fail> {
    Ok(Cover::new(3, 2, vec![in heap; cube(Kind::On, 7, 0)]?)?)
}

// Three inputs and one output: row 0 is a don't-care, all else is zero.
fn free_corner(heap: Global) -> Result<Diagram, Fail> {
    let nodes = vec![in heap; node(2, 2, 0), node(1, 3, 0), node(0, 4, 0)]?;
    Ok(Diagram::new(3, 1, nodes, vec![in heap; 5]?)?)
}

// The bits of the vector nearest to a design's first output, and its wrong rows.
fn told<D: Design>(design: &D) -> Result<(u32, u32), Refusal> {
    let found = nearest(design, 0)?;
    Ok((found.vector.bits(), found.wrong))
}

// The same of a cover of one output.
fn told_cover(inputs: u32, cubes: Vec<Cube>) -> Result<(u32, u32), Refusal> {
    told(&Cover::new(inputs, 1, cubes)?)
}

#[test]
fn the_second_ones_outputs_follow(rt: HostRuntime) -> Result<(), Fail> {
    let heap = rt.alloc();
    let pair = Joined::new(corner(heap)?, free_corner(heap)?)?;
    let marks = [
        pair.mark(0, 0),
        pair.mark(1, 0),
        pair.mark(2, 0),
        pair.mark(2, 7),
        pair.mark(2, 8),
        pair.mark(3, 8),
    ];
    let wanted = [
        Ok(Mark::One),
        Ok(Mark::Zero),
        Ok(Mark::DontCare),
        Ok(Mark::Zero),
        Err(Refusal::NoRow),
        Err(Refusal::NoOutput),
    ];
    assert_eq!(rt; marks, wanted);
    Ok(())
}

#[test]
fn pairs_nest(rt: HostRuntime) -> Result<(), Fail> {
    let heap = rt.alloc();
    let inner = Joined::new(corner(heap)?, free_corner(heap)?)?;
    let pair = Joined::new(Cover::new(3, 5, vec![in heap]?)?, inner)?;
    let tallies = [
        pair.tally(5, 0),
        pair.tally(7, 0),
        pair.tally(7, 3),
        pair.tally(7, 4),
        pair.tally(8, 4),
    ];
    let wanted = [
        Ok(Tally { on: 1, free: 0 }),
        Ok(Tally { on: 0, free: 1 }),
        Ok(Tally { on: 0, free: 0 }),
        Err(Refusal::NoWeight),
        Err(Refusal::NoOutput),
    ];
    assert_eq!(rt; tallies, wanted);
    Ok(())
}

#[test]
fn inputs_are_compared_before_outputs_are_counted(rt: HostRuntime) -> Result<(), Fail> {
    let heap = rt.alloc();
    let unequal = Joined::new(
        Cover::new(3, 5, vec![in heap]?)?,
        Cover::new(4, 4, vec![in heap]?)?,
    );
    let many = Joined::new(
        Cover::new(3, 5, vec![in heap]?)?,
        Cover::new(3, 4, vec![in heap]?)?,
    );
    let wanted = [
        Some(Refusal::InputsDiffer {
            first: 3,
            second: 4,
        }),
        Some(Refusal::Outputs),
    ];
    assert_eq!(rt; [unequal.err(), many.err()], wanted);
    Ok(())
}

#[test]
fn the_earliest_of_two_is_found(rt: HostRuntime) {
    let cubes = [
        cube(Kind::On, 3, 0),
        cube(Kind::DontCare, 3, 1),
        cube(Kind::On, 1, 1),
    ];
    let found = [
        first_meeting(&cubes, &cube(Kind::On, 1, 1)),
        first_meeting(&cubes, &cube(Kind::On, 3, 2)),
    ];
    assert_eq!(rt; found, [Some(1), None]);
}

#[test]
fn an_input_is_nearest_to_more_than_half(rt: HostRuntime) -> Result<(), Fail> {
    let heap = rt.alloc();
    assert_eq!(rt;
        told_cover(1, vec![in heap; cube(Kind::On, 1, 1)]?)?,
        (2, 0)
    );
    assert_eq!(rt;
        told_cover(2, vec![in heap; cube(Kind::On, 1, 1)]?)?,
        (4, 1)
    );
    assert_eq!(rt;
        told_cover(3, vec![in heap; cube(Kind::On, 1, 1)]?)?,
        (12, 2)
    );
    assert_eq!(rt;
        told_cover(16, vec![in heap; cube(Kind::On, 1, 1)]?)?,
        (130560, 26333)
    );
    let drawn = Diagram::new(16, 1, vec![in heap; node(0, 0, 1)]?, vec![in heap; 3]?)?;
    assert_eq!(rt; told(&drawn)?, (130560, 26333));
    Ok(())
}

#[test]
fn zeros_and_dont_cares_are_nearest_to_zero(rt: HostRuntime) -> Result<(), Fail> {
    let heap = rt.alloc();
    assert_eq!(rt; told_cover(16, vec![in heap]?)?, (0, 0));
    assert_eq!(rt;
        told_cover(16, vec![in heap; cube(Kind::DontCare, 0, 0)]?)?,
        (0, 0)
    );
    Ok(())
}

#[test]
fn an_output_beyond_the_last_is_refused(rt: HostRuntime) -> Result<(), Fail> {
    let found = nearest(&corner(rt.alloc())?, 2);
    assert_eq!(rt; found.err(), Some(Refusal::NoOutput));
    Ok(())
}

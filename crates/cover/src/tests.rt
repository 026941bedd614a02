// Refusals at their edges and in their order, and the marks and tallies of small and of full tables.
use super::*;
use design::{Design, Mark, Tally};
use refusal::Refusal;
use std::alloc::{AllocError, Global};
use std::test::Fail;

// A cube of output 0. Its kind is a table's number, so that a bad one can be asked for.
fn cube(kind: u32, fixed: u16, value: u16) -> Cube {
    Cube {
        output: 0,
        kind,
        fixed,
        value,
    }
}

// 4,096 on cubes that hold all rows of 16 inputs.
fn full_table(heap: Global) -> Result<Vec<Cube>, AllocError> {
    (0..4096u16).map(|value| cube(1, 4095, value)).collect(heap)
}

#[test]
fn sizes_are_refused_first(rt: HostRuntime) -> Result<(), Fail> {
    let heap = rt.alloc();
    let bad = cube(3, 0, 0);
    let sizes = [
        (0, 9, Refusal::Inputs),
        (17, 1, Refusal::Inputs),
        (16, 0, Refusal::Outputs),
        (16, 9, Refusal::Outputs),
    ];
    for (inputs, outputs, refusal) in sizes {
        let answer = Cover::new(inputs, outputs, vec![in heap; bad]?);
        assert_eq!(rt; answer.err(), Some(refusal));
    }
    let mut many = full_table(heap)?;
    many.push(bad)?;
    assert_eq!(rt;
        Cover::new(16, 8, many).err(),
        Some(Refusal::TooMany { count: 4097 })
    );
    Ok(())
}

#[test]
fn bad_cubes_are_refused_before_meeting_ones(rt: HostRuntime) -> Result<(), Fail> {
    let heap = rt.alloc();
    let all = cube(1, 0, 0);
    let far = Cube {
        output: 1,
        kind: 1,
        fixed: 0,
        value: 0,
    };
    let tables = [
        (vec![in heap; all, all, far]?, 2),
        (vec![in heap; cube(3, 0, 0), far]?, 0),
        (vec![in heap; cube(1, 8, 0)]?, 0),
        (vec![in heap; cube(1, 1, 3)]?, 0),
    ];
    for (table, place) in tables {
        assert_eq!(rt;
            Cover::new(3, 1, table).err(),
            Some(Refusal::BadCube { place })
        );
    }
    Ok(())
}

#[test]
fn the_first_that_meets_and_the_earliest_it_meets(rt: HostRuntime) -> Result<(), Fail> {
    let heap = rt.alloc();
    let table = vec![in heap; cube(1, 3, 1), cube(2, 3, 2), cube(1, 2, 2), cube(1, 0, 0)]?;
    assert_eq!(rt;
        Cover::new(3, 1, table).err(),
        Some(Refusal::CubesMeet {
            place: 2,
            earlier: 1,
        })
    );
    Ok(())
}

// Of three inputs, the rows that have input 0 are on, and row 6 is a don't-care.
fn small_cover(heap: Global) -> Result<Cover, Fail> {
    Ok(Cover::new(3, 1, vec![in heap; cube(1, 1, 1), cube(2, 7, 6)]?)?)
}

#[test]
fn marks_of_a_small_table(rt: HostRuntime) -> Result<(), Fail> {
    let cover = small_cover(rt.alloc())?;
    let marks = [
        (0, Ok(Mark::Zero)),
        (6, Ok(Mark::DontCare)),
        (7, Ok(Mark::One)),
        (8, Err(Refusal::NoRow)),
    ];
    for (row, mark) in marks {
        assert_eq!(rt; cover.mark(0, row), mark);
    }
    Ok(())
}

#[test]
fn tallies_of_a_small_table(rt: HostRuntime) -> Result<(), Fail> {
    let cover = small_cover(rt.alloc())?;
    let tallies = [
        (0, 2, Ok(Tally { on: 2, free: 1 })),
        (0, 3, Ok(Tally { on: 1, free: 0 })),
        (0, 4, Err(Refusal::NoWeight)),
        (1, 4, Err(Refusal::NoOutput)),
    ];
    for (output, weight, tally) in tallies {
        assert_eq!(rt; cover.tally(output, weight), tally);
    }
    Ok(())
}

#[test]
fn a_full_table_is_taken(rt: HostRuntime) -> Result<(), Fail> {
    let cover = Cover::new(16, 1, full_table(rt.alloc())?)?;
    assert_eq!(rt; cover.tally(0, 8), Ok(Tally { on: 12870, free: 0 }));
    Ok(())
}

#[test]
fn kinds_have_their_numbers(rt: HostRuntime) {
    assert_eq!(rt; [Kind::On, Kind::DontCare].map(u32::from), [1, 2]);
    assert_eq!(rt;
        [0, 1, 2].map(Kind::try_from),
        [Err(NoKind), Ok(Kind::On), Ok(Kind::DontCare)]
    );
}

// The small tables are made, and count as they answer.
use super::*;
use design::{Design, Mark, Tally};
use std::test::Fail;

#[test]
fn the_cover_is_made(rt: HostRuntime) -> Result<(), Fail> {
    let cover = small_cover(rt.alloc())?;
    assert_eq!(rt; cover.mark(0, 6), Ok(Mark::DontCare));
    Ok(())
}

#[test]
fn the_diagram_is_made(rt: HostRuntime) -> Result<(), Fail> {
    let diagram = small_diagram(rt.alloc())?;
    assert_eq!(rt; diagram.mark(0, 6), Ok(Mark::DontCare));
    Ok(())
}

// Compares tallies and wrong counts on designs of many shapes, tries tables at their limits, and lists a small burn file.
#![tactic(auto)]

mod compare;
mod cubes;
mod digest;
mod frame;
mod limits;
mod maker;
mod nodes;
mod place;
mod shapes;
mod sheets;

// All comparisons, then the limits, the small file and the summary.
fn main(rt: HostRuntime) -> anyhow::Result<()> {
    let total = shapes::compare_shapes(&rt)?;
    limits::try_all(&rt)?;
    sheets::list_small(&rt)?;
    println!(rt; "all shapes: {total}")?;
    Ok(())
}

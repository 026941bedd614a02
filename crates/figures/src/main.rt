// Known figures and counts: designs of every make, their tallies held to a count over all rows, and drawings read back.
#![tactic(auto)]

mod compare;
mod drawn;
mod known;
mod makes;
mod sending;

use compare::compare;
use cover::{Cover, Kind};
use samples::{Outcome, small_cover, small_diagram};

// Every make, and pairs of them.
fn all_makes(rt: &HostRuntime) -> anyhow::Result<Outcome> {
    let heap = rt.alloc();
    let outcomes = [
        compare(rt, "cover A", small_cover(heap))?,
        compare(rt, "diagram B", small_diagram(heap))?,
        compare(rt, "A and B", makes::pair(heap))?,
        compare(rt, "A and A and B", makes::nested(heap))?,
        compare(rt, "skipped levels", makes::skipping(heap))?,
        compare(rt, "parity of 16", makes::parity(heap))?,
        compare(rt, "blocks of 16", makes::blocks(heap))?,
    ];
    Ok(outcomes.into_iter().sum())
}

// Tables at the edges of the nearest function.
fn all_edges(rt: &HostRuntime) -> anyhow::Result<Outcome> {
    let heap = rt.alloc();
    let outcomes = [
        compare(rt, "ties at every weight", makes::ties(heap))?,
        compare(rt, "all on", makes::all_of(heap, 16, Kind::On))?,
        compare(rt, "all off", Cover::new(16, 1, Vec::new(heap)))?,
        compare(rt, "all free", makes::all_of(heap, 16, Kind::DontCare))?,
        compare(rt, "one input on", makes::all_of(heap, 1, Kind::On))?,
        compare(rt, "one input free", makes::all_of(heap, 1, Kind::DontCare))?,
    ];
    Ok(outcomes.into_iter().sum())
}

// The designs' tallies first, then drawings, prices, the log and the long list.
fn main(rt: HostRuntime) -> anyhow::Result<()> {
    let Outcome { compared, differ } = all_makes(&rt)? + all_edges(&rt)?;
    println!(rt; "{compared} tallies compared with a count over all rows, {differ} differ")?;
    drawn::draw_all(&rt)?;
    sending::open_all(&rt)?;
    sending::fill_log(&rt)?;
    sending::send_many(&rt)?;
    Ok(())
}

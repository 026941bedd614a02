// Designs of many shapes, made at random, each compared with a count over all rows.
use crate::compare::{Compared, compare};
use crate::digest::Digest;
use crate::frame::Frame;
use crate::maker::{Maker, expected};
use design::{Design, Joined, Size};
use std::io;

// A design, and of how many cubes and nodes it is made.
#[derive(Drop)]
pub(crate) struct Shape<D> {
    pub(crate) design: D,
    pub(crate) parts: usize,
}

impl<A: Design + Drop> Shape<A> {
    // Both as one.
    fn beside<B: Design + Drop>(self, other: Shape<B>) -> anyhow::Result<Shape<Joined<A, B>>> {
        let parts = self.parts.saturating_add(other.parts);
        let design = expected(Joined::new(self.design, other.design))?;
        Ok(Shape { design, parts })
    }
}

// One line of a design: its size, the sums of T and D, of the wrong counts, and a checksum.
fn say<D: Design>(rt: &HostRuntime, shape: &Shape<D>) -> io::Result<Compared> {
    let mut digest = Digest::default();
    let compared = compare(&shape.design, &mut digest);
    let Size { inputs, outputs } = shape.design.size();
    let Digest {
        on,
        free,
        wrong,
        checksum,
    } = digest;
    let parts = shape.parts;
    let tallies = compared.tallies();
    let differ = compared.differ();
    println!(rt;
        "  n {inputs} m {outputs} of {parts}: {tallies} tallies, T {on} D {free} wrong {wrong} checksum {checksum}, {differ} differ"
    )?;
    Ok(compared)
}

// A list of designs, each made for its place and compared.
fn each<D: Design + Drop, F: FnMut(&mut Maker, u32) -> anyhow::Result<Shape<D>>>(
    rt: &HostRuntime,
    maker: &mut Maker,
    count: u32,
    mut make: F,
) -> anyhow::Result<Compared>
    requires { F.IsAlwaysCallable make }
{
    let mut total = Compared::default();
    for place in 0..count {
        total += say(rt, &make(maker, place)?)?;
    }
    Ok(total)
}

// Twenty designs of one kind under their title, each in the frame that fits its place.
fn twenty<D: Design + Drop, F: Fn(&mut Maker) -> anyhow::Result<Shape<D>>>(
    rt: &HostRuntime,
    maker: &mut Maker,
    title: &str,
    make: F,
) -> anyhow::Result<Compared>
    requires { F.IsAlwaysCallable make }
{
    println!(rt; "{title}:")?;
    each(rt, maker, 20, |maker, place| {
        maker.fit(place);
        make(maker)
    })
}

// Covers and diagrams, of two kinds each.
fn tables(rt: &HostRuntime, maker: &mut Maker) -> anyhow::Result<Compared> {
    let mut total = twenty(rt, maker, "covers split at random", |maker| {
        maker.cover(Maker::split)
    })?;
    total += twenty(rt, maker, "covers of cubes kept at random", |maker| {
        maker.cover(Maker::kept)
    })?;
    total += twenty(
        rt,
        maker,
        "diagrams with as many nodes at each level",
        |maker| maker.diagram(Maker::even_level),
    )?;
    total += twenty(rt, maker, "diagrams with nodes at any level", |maker| {
        maker.diagram(Maker::any_level)
    })?;
    Ok(total)
}

// Pairs; a pair within a pair has at most eight outputs.
fn pairs(rt: &HostRuntime, maker: &mut Maker) -> anyhow::Result<Compared> {
    println!(rt; "a cover and a diagram:")?;
    let mut total = each(rt, maker, 16, |maker, place| {
        maker.fit(place);
        let first = maker.cover(Maker::split)?;
        first.beside(maker.diagram(Maker::even_level)?)
    })?;
    println!(rt; "two diagrams and a cover:")?;
    total += each(rt, maker, 16, |maker, place| {
        maker.frame = Frame::new(place, 2);
        let first = maker.diagram(Maker::any_level)?;
        let second = maker.diagram(Maker::even_level)?;
        first.beside(second)?.beside(maker.cover(Maker::kept)?)
    })?;
    Ok(total)
}

// The largest tables there are.
fn full_tables(rt: &HostRuntime, maker: &mut Maker) -> anyhow::Result<Compared> {
    println!(rt; "4,096 cubes, and 4,096 nodes:")?;
    maker.frame = Frame::new(0, 1);
    let mut total = say(rt, &maker.cover(Maker::crowd)?)?;
    maker.fit(0);
    total += say(rt, &maker.diagram_of(Maker::even_level, 4096)?)?;
    Ok(total)
}

// All shapes, with one set of dice throughout.
pub(crate) fn compare_shapes(rt: &HostRuntime) -> anyhow::Result<Compared> {
    let mut maker = Maker::new(rt.alloc(), 16);
    let mut total = tables(rt, &mut maker)?;
    total += pairs(rt, &mut maker)?;
    total += full_tables(rt, &mut maker)?;
    Ok(total)
}

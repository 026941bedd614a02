// Diagrams made at random.
ghost use Rattle.std.specs.Prelude.{◌+◌, ◌<◌, ◌≤◌};

use crate::maker::{Maker, expected};
use crate::place::Place;
use crate::shapes::Shape;
use diagram::{Diagram, Node, Target};
use std::alloc::AllocError;

// Whether a node of this level may branch to the reference: to a mark, or to a node of a greater level. The test of a
// diagram's table is not open to others; here references are chosen before there is a table.
fn is_after(nodes: &[Node], level: u32, reference: u32) -> bool {
    match Target::from(reference) {
        Target::Mark(_) => true,
        Target::Node(place) => nodes.get(place).is_some_and(|node| node.level > level),
    }
}

impl Maker {
    // The level of a node where there are as many at each level, the last level first.
    pub(crate) fn even_level(&mut self, place: Place) -> u32
        ensures { result < self.old.frame.inputs }
    {
        let inputs = self.frame.inputs();
        let passed = u32::from(place.before) * inputs / u32::from(place.count);
        (inputs - 1).saturating_sub(passed)
    }

    // Any level, and level 0 for the last node.
    pub(crate) fn any_level(&mut self, place: Place) -> u32
        ensures { result < self.old.frame.inputs }
    {
        if place.before + 1 == place.count {
            return 0;
        }
        self.frame.level(&mut self.dice)
    }

    // How many references back a branch may lead: to every earlier node and mark, or to the last few only.
    fn reach(&mut self, before: u32, count: u16) -> u32
        requires { 1 ≤ before }
        ensures some { 1 ≤ result }
        ensures within { result ≤ before }
    {
        if self.dice.below(2) == 0 {
            before
        } else {
            before.min(u32::from(count / 16) * 3 + 3)
        }
    }

    // A mark, or a node before the place.
    fn earlier(&mut self, place: Place) -> u32
        ensures { result < place.before + 3 }
    {
        let before = u32::from(place.before) + 3;
        let back = self.reach(before, place.count);
        before - 1 - self.dice.below(back)
    }

    // A branch of a node: where no try leads to one that may be, a mark.
    fn branch(&mut self, nodes: &[Node], level: u32, place: Place) -> u32
        ensures { result < place.before + 3 }
    {
        for _ in 0..4 {
            let reference = self.earlier(place);
            if is_after(nodes, level, reference) {
                return reference;
            }
        }
        self.dice.below(3)
    }

    // So many nodes, each of which branches only to earlier ones.
    fn node_table<F: Fn(&mut Maker, Place) -> u32>(
        &mut self,
        level_of: F,
        count: u16,
    ) -> Result<Vec<Node>, AllocError>
        requires { F.IsAlwaysCallable level_of }
    {
        let mut nodes = Vec::new(self.heap);
        for before in 0..count {
            let place = Place { before, count };
            let level = level_of(self, place);
            let low = self.branch(&nodes, level, place);
            let high = self.branch(&nodes, level, place);
            nodes.push(Node { level, low, high })?;
        }
        Ok(nodes)
    }

    // The first output begins at the last node, each other one anywhere.
    fn root_list(&mut self, count: u16) -> Result<Vec<u32>, AllocError> {
        let end = u32::from(count) + 3;
        let mut roots = Vec::from_slice(self.heap, &[end - 1])?;
        for _ in 1..self.frame.outputs() {
            roots.push(self.dice.below(end))?;
        }
        Ok(roots)
    }

    // A diagram of the frame, of so many nodes that come by their levels in this way.
    pub(crate) fn diagram_of<F: Fn(&mut Maker, Place) -> u32>(
        &mut self,
        level_of: F,
        count: u16,
    ) -> anyhow::Result<Shape<Diagram>>
        requires { F.IsAlwaysCallable level_of }
    {
        let nodes = self.node_table(level_of, count)?;
        let roots = self.root_list(count)?;
        let parts = nodes.len();
        Ok(Shape {
            design: expected(Diagram::new(
                self.frame.inputs(),
                self.frame.outputs(),
                nodes,
                roots,
            ))?,
            parts,
        })
    }

    // The same of 1 to 60 nodes.
    pub(crate) fn diagram<F: Fn(&mut Maker, Place) -> u32>(
        &mut self,
        level_of: F,
    ) -> anyhow::Result<Shape<Diagram>>
        requires { F.IsAlwaysCallable level_of }
    {
        let count = 1 + self.dice.below(60) as u16;
        self.diagram_of(level_of, count)
    }
}

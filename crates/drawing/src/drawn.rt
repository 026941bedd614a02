// What a drawing is answered with.
ghost use Rattle.std.specs.Prelude.{Some};
ghost use Rattle.drawing.specs.Text.{text};

use std::fmt;

// How many nodes were drawn, and the reference of the root.
#[derive(Clone, Copy, PartialEq, Eq, Debug)]
pub struct Drawn {
    pub count: usize,
    pub root: u32,
}

// The number of nodes and the root, in words.
impl fmt::Display for Drawn {
    ghost output = { λ d. Some (text d) };

    fn fmt<W: fmt::Write>(&self, f: &mut fmt::Formatter<W>) -> fmt::Result {
        let Drawn { count, root } = *self;
        write!(f, "{count} nodes, root {root}")
    }
}

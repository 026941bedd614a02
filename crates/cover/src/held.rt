// What a cube holds, and which cubes it meets.
ghost use Rattle.std.specs.Prelude.{◌≡◌};
ghost use Rattle.cover.specs.Cubes.{good, holding, meet, marking};

use crate::cube::Cube;
use crate::kind::Kind;
use design::{Mark, Record, Size};

impl Cube {
    // Whether it may stand in a cover of the size. Sets have 16 bits, so that of 16 inputs or more each is in bounds.
    pub(crate) fn is_good(&self, size: Size) -> bool
        ensures { result ≡ good size.inputs size.outputs self.now }
    {
        self.output < size.outputs
            && Kind::try_from(self.kind).is_ok()
            && (size.inputs >= 16 || self.fixed < 1 << size.inputs)
            && self.value & self.fixed == self.value
    }

    // Whether it holds the row at the output.
    pub(crate) fn holds(&self, output: u32, row: u32) -> bool
        ensures { result ≡ holding output row self.now }
    {
        self.output == output && row & u32::from(self.fixed) == u32::from(self.value)
    }

    // The mark of the rows that it holds.
    pub(crate) fn mark(&self) -> Mark
        ensures { result ≡ marking self.now.kind }
    {
        Kind::try_from(self.kind).map_or(Mark::Zero, Mark::from)
    }
}

// Two cubes meet if they have the same output and share a row.
impl Record for Cube {
    ghost meets = { meet };

    fn meets(&self, other: &Cube) -> bool {
        self.output == other.output && (self.value ^ other.value) & (self.fixed & other.fixed) == 0
    }
}

// Places in a table of nodes that is being made.
ghost use Rattle.std.specs.Prelude.{◌<◌};

// How many nodes come before one, and how many there are to be.
#[derive(Clone, Copy)]
pub(crate) struct Place {
    pub(crate) before: u16,
    pub(crate) count: u16,
    ghost inside: { before < count },
}

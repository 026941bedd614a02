// The values of a symmetric function, one for each weight.
ghost use Rattle.std.specs.Prelude.{◌+◌, ◌^◌, ◌<◌, ◌≤◌};

// Bit w is the value at weight w; there are 1 to 16 inputs, and no bit above them.
#[derive(Clone, Copy, PartialEq, Eq, Debug)]
pub struct ValueVector {
    pub(crate) inputs: u32,
    pub(crate) bits: u32,
    ghost some: { 1 ≤ inputs },
    ghost few: { inputs ≤ 16 },
    ghost fits: { bits < 2 ^ (inputs + 1) },
}

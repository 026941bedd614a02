// The nearest symmetric function, as it is answered.
use crate::vector::ValueVector;

// The values at each weight, and at how many rows they are wrong.
#[derive(Clone, Copy, PartialEq, Eq, Debug)]
pub struct Nearest {
    pub vector: ValueVector,
    pub wrong: u32,
}

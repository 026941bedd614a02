// A row of a camera's cube table.

// It marks, at one output, the rows that agree with the value set on every input of the fixed set.
#[derive(Clone, Copy, PartialEq, Eq, Debug)]
pub struct Cube {
    pub output: u32,
    // 1 on, 2 don't-care; a plain number, since a camera's table may hold any: one of no kind is refused as a bad cube
    pub kind: u32,
    // a set of inputs: bit j is input j
    pub fixed: u16,
    pub value: u16,
}

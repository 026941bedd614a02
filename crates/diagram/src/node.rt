// A row of a decision diagram's table, as it comes.

// Tests the input numbered `level`: a row at which it is 1 goes on at `high`, any other at `low`.
// A branch is a reference: 0, 1 and 2 are marks, and 3 + p is the node at place p. It is a number and not a `Target`:
// the table is the customer's format, in which any number may come and nodes are shared, as boxed branches could not be.
#[derive(Clone, Copy, PartialEq, Eq, Debug, Default)]
pub struct Node {
    pub level: u32,
    pub low: u32,
    pub high: u32,
}

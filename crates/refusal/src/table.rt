// The refusals, in the order of their numbers.

// Why a call was refused. Places, positions, blocks and bytes count from 0.
#[derive(Clone, Copy, PartialEq, Eq, Debug)]
pub enum Refusal {
    // the inputs are not 1 to 16
    Inputs,
    // the outputs are not 1 to 8, or are more than 8 once joined
    Outputs,
    // more than 4,096 cubes or nodes
    TooMany { count: usize },
    // the lowest cube that breaks a rule
    BadCube { place: usize },
    // the first cube that meets an earlier one, and the earliest that it meets
    CubesMeet { place: usize, earlier: usize },
    // the lowest node that breaks a rule
    BadNode { place: usize },
    // the design has no such output
    NoOutput,
    // the design has no such row
    NoRow,
    // the design has no such weight
    NoWeight,
    // the root list has another length than there are outputs
    RootCount { length: usize },
    // the lowest output whose root is neither mark nor node
    BadRoot { output: usize },
    // two designs to be joined differ in their inputs
    InputsDiffer { first: u32, second: u32 },
    // the prices times the wrong counts pass 32 bits in sum
    CostTooLarge,
    // the number is 0 or leaves a gap; the next one that does not
    Gap { next: u32 },
    // the number belongs to another command
    NumberUsed { number: u32 },
    // the log has no room for a line
    LogFull,
    // the first price that is missing, surplus or not 1 to 255
    BadPrice { position: usize },
    // the output is taken already
    AlreadyTaken,
    // the output is not taken
    NotTaken,
    // by how much the spent figure would pass the limit
    OverLimit { excess: u32 },
    // the node buffer is shorter than the nodes
    NodesShort { count: usize },
    // the file is not 2 to 9 whole blocks
    FileLength,
    // the lowest block with a wrong sum
    BlockSum { block: u32 },
    // the lowest field that breaks its rule: its block and first byte
    BadField { block: u32, byte: u32 },
    // the number of the first rule that the fields break together; a number and not a `Cause`, since whoever makes or reads
    // a refusal may have any there
    BadCause { cause: u32 },
    // the byte buffer is shorter than the file
    BufferShort { length: usize },
    // there was no memory; this one stands outside the table
    NoMemory,
}

// The rules that the fields of a burn file can break together, in the order of their numbers.
#[derive(Clone, Copy, PartialEq, Eq, Debug)]
pub enum Cause {
    // the outputs told are not as many as the blocks after the first
    Blocks,
    // the spent figure is not what the taken outputs cost
    Spent,
    // the spent figure passes the limit
    Limit,
}

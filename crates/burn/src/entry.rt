// What a burn file keeps of one output.
use crate::rule::Inputs;
use arrayvec::ArrayVec;

// The price of an output, whether it is taken, its value vector and its wrong count.
#[derive(Clone, Copy, PartialEq, Eq, Debug, Default)]
pub struct Entry {
    pub price: u8,
    pub taken: bool,
    // bit w is the value at weight w
    pub vector: u32,
    pub wrong: u32,
}

// What the first block says: inputs, outputs, limit and spent figure.
#[derive(Clone, Copy)]
pub struct Head {
    pub inputs: Inputs,
    pub outputs: u32,
    pub limit: u32,
    pub spent: u32,
}

// The kind of block 0.
pub const HEAD: u8 = 1;

// The kind of an output's block.
pub const OUTPUT: u8 = 2;

// The first twelve bytes of a block: four bytes, then two numbers of four bytes each. The kind is a byte and no enum: a file
// may hold any, and one that is not the block's is refused by its place.
#[derive(Clone, Copy)]
pub struct Fields {
    pub kind: u8,
    pub number: u8,
    pub first: u8,
    pub second: u8,
    pub low: u32,
    pub high: u32,
}

// The fields of a file: what block 0 tells, and the entries of the blocks behind it.
#[derive(Drop)]
pub struct Table {
    pub head: Head,
    pub entries: ArrayVec<Entry, 8>,
}

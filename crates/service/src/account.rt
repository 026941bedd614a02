// What the ledger keeps of one output.
use symmetric::ValueVector;

// An output's price, its nearest symmetric function, at how many rows that is wrong, and whether it is taken.
#[derive(Clone, Copy)]
pub struct Account {
    pub(crate) price: u8,
    pub(crate) vector: ValueVector,
    pub(crate) wrong: u32,
    pub(crate) taken: bool,
}

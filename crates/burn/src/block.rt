// Blocks of 512 bytes: their sums, and how they are closed and checked.
ghost use Rattle.std.specs.Prelude.{◌≡◌, ◌≤◌, ◌++◌, length, take, replicate, Ok, Err, MatchResult};
ghost use Rattle.std.specs.List.{concat};
ghost use Rattle.std.specs.Simd.{first_chunks};
ghost use Rattle.burn.specs.Blocks.{weighed, laid_out, sealed, summed, sums};
ghost use Rattle.burn.specs.Files.{counted};

use crate::entry::Fields;
use refusal::Refusal;

// The length of a block.
pub const BLOCK: usize = 512;

// A block of a burn file.
pub type Block = [u8; BLOCK];

// The blocks of a file: 2 to 9 of them.
#[derive(Clone, Copy)]
pub struct Blocks<'a> {
    pub all: &'a [Block],
    ghost few: { (2 ≤ length all.now) × (length all.now ≤ 9) },
    ghost whole: { all.now ≡ first_chunks 512 (length all.now) (concat all.now) },
}

// The sum of (place + 1) × byte over a block's bytes before its sum.
fn weighted_sum(block: &Block) -> u32
    ensures { result ≡ weighed 1 (take 508 block.now) }
{
    block[..508]
        .iter()
        .enumerate()
        .map(|(place, byte)| (place as u32 + 1) * u32::from(*byte))
        .sum()
}

// The first twelve bytes, and zeros up to the end of the block.
fn padded(first: [u8; 12]) -> Block
    ensures { result ≡ first ++ replicate 500 0 }
{
    let mut block = [0; BLOCK];
    block[..12].copy_from_slice(&first);
    block
}

// The first twelve bytes of a block, from its fields.
fn lay_out(fields: Fields) -> [u8; 12]
    ensures { result ≡ laid_out fields }
{
    let Fields {
        kind,
        number,
        first,
        second,
        low,
        high,
    } = fields;
    let [a, b, c, d] = low.to_le_bytes();
    let [e, f, g, h] = high.to_le_bytes();
    [kind, number, first, second, a, b, c, d, e, f, g, h]
}

// A block from its fields: their bytes, zeros behind them, then the sum.
pub fn closed(fields: Fields) -> Block
    ensures { result ≡ sealed (laid_out fields) }
{
    let mut block = padded(lay_out(fields));
    let sum = weighted_sum(&block);
    block[508..].copy_from_slice(&sum.to_le_bytes());
    block
}

// Refuses the block, by its number, where its last four bytes are not its sum.
fn check_sum(block: &Block, number: u32) -> Result<(), Refusal>
    ensures { result ≡ summed number block.now }
{
    let [.., a, b, c, d] = *block;
    if u32::from_le_bytes([a, b, c, d]) != weighted_sum(block) {
        return Err(Refusal::BlockSum { block: number });
    }
    Ok(())
}

impl<'a> Blocks<'a> {
    // The blocks of a file that is 2 to 9 whole ones.
    pub fn of(file: &'a [u8]) -> Result<Blocks<'a>, Refusal>
        ensures { MatchResult result (λ b. (counted file.now ≡ Ok (length b.all.now)) × (concat b.all.now ≡ file.now)) (λ e. counted file.now ≡ Err e) }
    {
        let (all, rest) = file.as_chunks::<BLOCK>();
        if rest.is_empty() && (2..=9).contains(&all.len()) {
            return Ok(Blocks { all });
        }
        Err(Refusal::FileLength)
    }

    // Refuses the lowest block whose sum is wrong.
    pub fn check_sums(&self) -> Result<(), Refusal>
        ensures { result ≡ sums (concat self.now.all.now) 0 (length self.now.all.now) }
    {
        for (number, block) in self.all.iter().enumerate() {
            check_sum(block, number as u32)?;
        }
        Ok(())
    }
}

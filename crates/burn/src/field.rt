// The fields of one block, each held to its rule.
ghost use Rattle.std.specs.Prelude.{◌≡◌};
ghost use Rattle.burn.specs.Blocks.{taken_apart, zeros};
ghost use Rattle.burn.specs.Files.{head_read, entry_read};

use crate::block::Block;
use crate::entry::{Entry, Fields, HEAD, Head, OUTPUT};
use crate::rule::Inputs;
use refusal::Refusal;

// The first twelve bytes of a block, taken apart.
fn open(block: &Block) -> Fields
    ensures { result ≡ taken_apart block.now }
{
    let [kind, number, first, second, a, b, c, d, e, f, g, h, ..] = *block;
    Fields {
        kind,
        number,
        first,
        second,
        low: u32::from_le_bytes([a, b, c, d]),
        high: u32::from_le_bytes([e, f, g, h]),
    }
}

// Refuses the lowest byte from 12 to 507 that is not zero.
fn check_padding(bytes: &Block, block: u32) -> Result<(), Refusal>
    ensures { result ≡ zeros block bytes.now 12 496 }
{
    match bytes[12..508].iter().position(|byte| *byte != 0) {
        Some(place) => Err(Refusal::BadField {
            block,
            byte: 12 + place as u32,
        }),
        None => Ok(()),
    }
}

// Block 0: inputs, outputs, limit, spent.
pub fn read_head(block: &Block) -> Result<Head, Refusal>
    ensures { result ≡ head_read block.now }
{
    let fields = open(block);
    if fields.kind != HEAD {
        return Err(Refusal::BadField { block: 0, byte: 0 });
    }
    if fields.number != 0 {
        return Err(Refusal::BadField { block: 0, byte: 1 });
    }
    let inputs = Inputs::new(u32::from(fields.first))?;
    if !(1..=8).contains(&fields.second) {
        return Err(Refusal::BadField { block: 0, byte: 3 });
    }
    check_padding(block, 0)?;
    Ok(Head {
        inputs,
        outputs: u32::from(fields.second),
        limit: fields.low,
        spent: fields.high,
    })
}

// The block of an output: price, taken, value vector, wrong count. `check_entry` tries all but taken as well: a call of it here
// would not name the lowest field, since byte 3 lies between the others.
pub fn read_entry(bytes: &Block, block: u32, inputs: Inputs) -> Result<Entry, Refusal>
    ensures { result ≡ entry_read inputs block bytes.now }
{
    let fields = open(bytes);
    if fields.kind != OUTPUT {
        return Err(Refusal::BadField { block, byte: 0 });
    }
    if u32::from(fields.number) != block {
        return Err(Refusal::BadField { block, byte: 1 });
    }
    if fields.first < 1 {
        return Err(Refusal::BadField { block, byte: 2 });
    }
    if fields.second > 1 {
        return Err(Refusal::BadField { block, byte: 3 });
    }
    if !inputs.vector_fits(fields.low) {
        return Err(Refusal::BadField { block, byte: 4 });
    }
    if !inputs.wrong_fits(fields.high) {
        return Err(Refusal::BadField { block, byte: 8 });
    }
    check_padding(bytes, block)?;
    Ok(Entry {
        price: fields.first,
        taken: fields.second == 1,
        vector: fields.low,
        wrong: fields.high,
    })
}

// The outputs of a sheet, and the rules that they keep together.
ghost use Rattle.std.specs.Prelude.{◌≡◌, ◌^◌, ◌≤◌, length};
ghost use Rattle.burn.specs.Rules.{cost, costs, agreed, entry_checked, entries_checked};

use crate::entry::{Entry, Head};
use crate::rule::Inputs;
use refusal::{Cause, Refusal};

// The entries of at most 8 outputs.
#[derive(Clone, Copy)]
pub struct Outputs<'a> {
    pub entries: &'a [Entry],
    ghost few: { length entries.now ≤ 8 },
}

// What an output costs: price × wrong count if it is taken.
fn cost_of(entry: &Entry) -> u64
    ensures value { result ≡ cost entry.now }
    ensures bound { result ≤ 2 ^ 40 }
{
    if entry.taken {
        u64::from(entry.price) * u64::from(entry.wrong)
    } else {
        0
    }
}

// Refuses the lowest field of one output, in its block, that breaks its rule. Of a file, `read_entry`
// tries these and byte 3 between them.
fn check_entry(entry: &Entry, block: u32, inputs: Inputs) -> Result<(), Refusal>
    ensures { result ≡ entry_checked inputs block entry.now }
{
    if entry.price < 1 {
        return Err(Refusal::BadField { block, byte: 2 });
    }
    if !inputs.vector_fits(entry.vector) {
        return Err(Refusal::BadField { block, byte: 4 });
    }
    if !inputs.wrong_fits(entry.wrong) {
        return Err(Refusal::BadField { block, byte: 8 });
    }
    Ok(())
}

impl<'a> Outputs<'a> {
    // What all outputs cost together.
    fn total(&self) -> u64
        ensures { result ≡ costs self.now.entries.now }
    {
        self.entries.iter().map(cost_of).sum()
    }

    // Refuses the lowest field of the outputs that breaks its rule.
    pub fn check(&self, inputs: Inputs) -> Result<(), Refusal>
        ensures { result ≡ entries_checked inputs 1 self.now.entries.now }
    {
        for (block, entry) in (1u32..).zip(self.entries) {
            check_entry(entry, block, inputs)?;
        }
        Ok(())
    }

    // Refuses what the fields break together: the count of blocks, the spent figure, the limit.
    pub fn check_causes(&self, head: Head) -> Result<(), Refusal>
        ensures { result ≡ agreed head.outputs (length self.now.entries.now) head.limit head.spent self.now.entries.now }
    {
        if head.outputs as usize != self.entries.len() {
            return Err(Refusal::BadCause {
                cause: u32::from(Cause::Blocks),
            });
        }
        if u64::from(head.spent) != self.total() {
            return Err(Refusal::BadCause {
                cause: u32::from(Cause::Spent),
            });
        }
        if head.spent > head.limit {
            return Err(Refusal::BadCause {
                cause: u32::from(Cause::Limit),
            });
        }
        Ok(())
    }
}

// A sheet made of values, and the values of a sheet.
ghost use Rattle.std.specs.Prelude.{◌≡◌};
ghost use Rattle.burn.specs.Files.{contents, checked, told};

use crate::entry::{Entry, Head};
use crate::outputs::Outputs;
use crate::rule::Inputs;
use crate::sheet::Sheet;
use refusal::Refusal;

impl Sheet {
    // A sheet of these values; what a load would refuse is refused here, by the block and byte that it would have.
    pub fn new(inputs: u32, limit: u32, spent: u32, entries: Vec<Entry>) -> Result<Sheet, Refusal>
        ensures { told result ≡ checked (record { inputs = inputs; limit = limit; spent = spent; entries = entries.items }) }
    {
        let inputs = Inputs::new(inputs)?;
        let count = entries.len();
        if !(1..=8).contains(&count) {
            return Err(Refusal::BadField { block: 0, byte: 3 });
        }
        let head = Head {
            inputs,
            outputs: count as u32,
            limit,
            spent,
        };
        let outputs = Outputs {
            entries: entries.as_slice(),
        };
        outputs.check(inputs)?;
        outputs.check_causes(head)?;
        Ok(Sheet {
            inputs,
            limit,
            spent,
            entries,
        })
    }

    // How many inputs.
    pub fn inputs(&self) -> u32
        ensures { result ≡ (contents self.now).inputs }
    {
        self.inputs.count()
    }

    // The limit.
    pub fn limit(&self) -> u32
        ensures { result ≡ (contents self.now).limit }
    {
        self.limit
    }

    // The spent figure.
    pub fn spent(&self) -> u32
        ensures { result ≡ (contents self.now).spent }
    {
        self.spent
    }

    // The entry of each output, in order.
    pub fn entries(&self) -> &[Entry]
        ensures { result.now ≡ (contents self.now).entries }
    {
        self.entries.as_slice()
    }
}

// The refusals of a question about a row or a weight, in their order.
ghost use Rattle.std.specs.Prelude.{◌≡◌, Ok, Err, if◌then◌else◌, nat_lt};
ghost use Rattle.refusal.specs.declared.table.Refusal.TheVariants.{NoOutput};
ghost use Rattle.design.specs.Meaning.{at_row, at_weight};

use crate::size::Size;
use refusal::Refusal;

impl Size {
    // Refuses an output that a design of this size lacks.
    fn check_output(&self, output: u32) -> Result<(), Refusal>
        ensures { result ≡ (if nat_lt output self.now.outputs then Ok tt else Err NoOutput) }
    {
        if output >= self.outputs {
            return Err(Refusal::NoOutput);
        }
        Ok(())
    }

    // Refuses an output that a design of this size lacks, then a row.
    pub fn check_row(&self, output: u32, row: u32) -> Result<(), Refusal>
        ensures { result ≡ at_row self.now output row tt }
    {
        self.check_output(output)?;
        if self.inputs < 32 && row >= 1 << self.inputs {
            return Err(Refusal::NoRow);
        }
        Ok(())
    }

    // Refuses an output that a design of this size lacks, then a weight.
    pub fn check_weight(&self, output: u32, weight: u32) -> Result<(), Refusal>
        ensures { result ≡ at_weight self.now output weight tt }
    {
        self.check_output(output)?;
        if weight > self.inputs {
            return Err(Refusal::NoWeight);
        }
        Ok(())
    }
}

// The refusals of a table for its sizes, in their order.
ghost use Rattle.std.specs.Prelude.{◌≡◌};
ghost use Rattle.design.specs.Checks.{sizes};

use refusal::Refusal;

// Refuses a table for the first of its sizes that is out of its bounds.
pub fn check_sizes(inputs: u32, outputs: u32, parts: usize) -> Result<(), Refusal>
    ensures { result ≡ sizes inputs outputs parts }
{
    if !(1..=16).contains(&inputs) {
        return Err(Refusal::Inputs);
    }
    if !(1..=8).contains(&outputs) {
        return Err(Refusal::Outputs);
    }
    if parts > 4096 {
        return Err(Refusal::TooMany { count: parts });
    }
    Ok(())
}

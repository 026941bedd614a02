// The rules of a sheet's values that files and sheets share.
ghost use Rattle.std.specs.Prelude.{◌≡◌, ◌≤◌, Ok};
ghost use Rattle.burn.specs.Blocks.{field};
ghost use Rattle.burn.specs.Rules.{within, vector_fits, wrong_fits};

use refusal::Refusal;
use std::marker::Model;

// How many inputs there are: 1 to 16.
#[derive(Clone, Copy)]
pub struct Inputs {
    count: u32,
}

// In proofs the inputs are their number.
impl Model for Inputs {
    ghost use Rattle.std.specs.Prelude.{ℕ, ◌≤◌};
    ghost use Rattle.std.specs.Coded.{coded_ℕ};

    ghost Value = { ℕ };

    ghost coded = { coded_ℕ };

    ghost view = { λ i. i.count };

    ghost inverse = { λ n. record { count = n } };

    ghost invariant = { λ i. (1 ≤ i.count) × (i.count ≤ 16) };
}

impl Inputs {
    // Refuses, as block 0's field, what is not 1 to 16.
    pub fn new(count: u32) -> Result<Inputs, Refusal>
        ensures { result ≡ field 0 2 (within 1 16 count) (Ok count) }
    {
        if !(1..=16).contains(&count) {
            return Err(Refusal::BadField { block: 0, byte: 2 });
        }
        Ok(Inputs { count })
    }

    // The number.
    pub fn count(self) -> u32
        ensures value { result ≡ self }
        ensures few { result ≤ 16 }
    {
        self.count
    }

    // Whether a value vector has no bit above the inputs.
    pub fn vector_fits(self, vector: u32) -> bool
        ensures { result ≡ vector_fits self vector }
    {
        vector >> (self.count + 1) == 0
    }

    // Whether a wrong count is at most half of all rows.
    pub fn wrong_fits(self, wrong: u32) -> bool
        ensures { result ≡ wrong_fits self wrong }
    {
        wrong <= 1 << (self.count - 1)
    }
}

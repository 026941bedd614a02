// What was compared, and how much of it differs.
ghost use Rattle.std.specs.Prelude.{◌≡◌};
ghost use Rattle.std.specs.List.{fold};
ghost use Rattle.samples.specs.Outcomes.{nothing, both, one_of};

use std::iter::Sum;
use std::ops::{Add, AddAssign};

// How many comparisons were made, and how many of them differ. A sum past 32 bits stays at their largest number.
#[derive(Clone, Copy, PartialEq, Eq, Debug, Default)]
pub struct Outcome {
    pub compared: u32,
    pub differ: u32,
}

// One comparison, and whether both sides were the same.
impl From<bool> for Outcome {
    ghost from_gives = { λ same r. r ≡ one_of same };

    fn from(same: bool) -> Outcome {
        Outcome {
            compared: 1,
            differ: u32::from(!same),
        }
    }
}

// Two outcomes together.
impl Add for Outcome {
    type Output = Outcome;

    ghost add_gives = { λ a b r. r ≡ both a b };

    fn add(self, other: Outcome) -> Outcome {
        Outcome {
            compared: self.compared.saturating_add(other.compared),
            differ: self.differ.saturating_add(other.differ),
        }
    }
}

// The same in place.
impl AddAssign for Outcome {
    ghost add_assign_gives = { λ a b r. r ≡ both a b };

    fn add_assign(&mut self, other: Outcome) {
        *self = *self + other;
    }
}

// All of a list together.
impl Sum<Outcome> for Outcome {
    ghost sum_gives = { λ outcomes r. r ≡ fold both nothing outcomes };

    fn sum<I: Iterator<Item = Outcome>>(iter: I) -> Outcome {
        iter.fold(Outcome::default(), |total, one| total + one)
    }
}

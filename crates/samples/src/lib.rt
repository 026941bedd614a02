// What the programs that try designs share: small tables, numbers that look random, and counts over all rows.
#![tactic(auto)]

mod count;
mod dice;
mod outcome;
mod tables;
mod values;

pub use count::counted;
pub use dice::Dice;
pub use outcome::Outcome;
pub use tables::{small_cover, small_diagram};
pub use values::value_at;

#[cfg(test)]
mod tests;

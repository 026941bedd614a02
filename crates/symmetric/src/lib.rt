// Symmetric functions: those that depend only on how many inputs are one.
#![tactic(auto)]

mod decide;
mod found;
mod side;
mod theorems;
mod values;
mod vector;

pub use decide::nearest;
pub use found::Nearest;
pub use theorems::figures_hold;
pub use vector::ValueVector;

#[cfg(test)]
mod tests;

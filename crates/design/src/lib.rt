// What a design means, the interface that every make of design answers to, pairs of designs, and the
// search for the first record that meets another.
#![tactic(auto)]

mod check;
mod design;
mod joined;
mod mark;
mod question;
mod search;
mod size;
mod theorems;

pub use check::check_sizes;
pub use design::Design;
pub use joined::Joined;
pub use mark::Mark;
pub use search::{Record, first_meeting};
pub use size::{Size, Tally};
pub use theorems::tallies_add_up;

#[cfg(test)]
mod tests;

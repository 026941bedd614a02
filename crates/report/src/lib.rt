// The text that is printed of a burn file.
#![tactic(auto)]

mod text;

pub use text::{listing_of, report_of};

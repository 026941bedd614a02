// Symmetric functions drawn as reduced ordered decision diagrams.
#![tactic(auto)]

mod buffer;
mod drawn;
mod fill;
mod page;
mod theorems;

pub use buffer::draw;
pub use drawn::Drawn;
pub use theorems::figures_drawn;

#[cfg(test)]
mod tests;

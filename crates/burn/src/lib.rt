// The burn file: sheets that break none of its rules, written to bytes and loaded from them.
#![tactic(auto)]

mod block;
mod build;
mod entry;
mod field;
mod loading;
mod outputs;
mod rule;
mod sheet;
mod theorems;
mod write;

pub use entry::Entry;
pub use loading::load;
pub use sheet::Sheet;
pub use theorems::faults_are_named;

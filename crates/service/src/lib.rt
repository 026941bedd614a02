// The numbered service: accounts, a ledger, a log, and the calls on them.
#![tactic(auto)]

mod account;
mod book;
mod ledger;
mod log;
mod record;
mod running;
mod service;
mod theorems;

pub use running::run;
pub use service::Service;
pub use theorems::{any_terms_hold, prices_are_judged};

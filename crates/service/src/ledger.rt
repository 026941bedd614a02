// The ledger: an account for each output, the limit, and what is spent.
ghost use Rattle.std.specs.Prelude.{◌≤◌, vec_len};

use crate::account::Account;

// Output i has account i.
#[derive(Drop)]
pub struct Ledger {
    pub(crate) accounts: Vec<Account>,
    pub(crate) limit: u32,
    pub(crate) spent: u32,
    ghost few: { vec_len accounts ≤ 8 },
}

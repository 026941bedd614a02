// The burn sheet of a service.
ghost use Rattle.std.specs.Prelude.{◌≡◌, ◌⊎◌, map, Ok, Err, IfOk};
ghost use Rattle.refusal.specs.declared.table.Refusal.TheVariants.{NoMemory};
ghost use Rattle.burn.specs.Files.{told};
ghost use Rattle.service.specs.Holds.{terms_of, lines_of};
ghost use Rattle.service.specs.Sheets.{entry_from, sheet_of};

use crate::account::Account;
use crate::ledger::Ledger;
use crate::service::Service;
use burn::{Entry, Sheet};
use design::Design;
use refusal::Refusal;
use std::alloc::{AllocError, Global};

impl Account {
    // What a burn file keeps of it.
    fn entry(&self) -> Entry
        ensures { result ≡ entry_from self.now }
    {
        Entry {
            price: self.price,
            taken: self.taken,
            vector: self.vector.bits(),
            wrong: self.wrong,
        }
    }
}

impl Ledger {
    // An entry for each account.
    fn entries(&self, heap: Global) -> Result<Vec<Entry>, AllocError>
        ensures { IfOk result (λ v. v.items ≡ map entry_from self.now.accounts.items) }
    {
        self.accounts.iter().map(Account::entry).collect(heap)
    }
}

impl<D: Design + Drop> Service<D> {
    // The sheet of the service as it stands; nothing but want of memory stands against one.
    pub fn sheet(&self, heap: Global) -> Result<Sheet, Refusal>
        ensures { (told result ≡ Ok (sheet_of (terms_of self.now) (lines_of self.now))) ⊎ (result ≡ Err NoMemory) }
    {
        let entries = self.ledger.entries(heap)?;
        Sheet::new(
            self.design.size().inputs,
            self.ledger.limit,
            self.ledger.spent,
            entries,
        )
    }
}

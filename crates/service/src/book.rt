// Fresh commands, as the ledger decides them.
ghost use Rattle.std.specs.Prelude.{◌≡◌, ◌*◌, ◌≤◌, true, false};
ghost use Rattle.commands.specs.declared.command.Answer.TheVariants.{Taken, PutBack};
ghost use Rattle.service.specs.Books.{account_at, with_taken, answered, take_answer, back_answer, accounts_after, spent_after};

use crate::account::Account;
use crate::ledger::Ledger;
use refusal::Refusal;

impl Account {
    // What taking the output costs: its price for each wrong row.
    pub(crate) fn cost(&self) -> u64
        ensures cost { result ≡ self.now.price * self.now.wrong }
        ensures small { result ≤ 1095216660225 }
    {
        u64::from(self.price) * u64::from(self.wrong)
    }
}

impl Ledger {
    // The account of an output.
    pub(crate) fn account(&self, output: u32) -> Result<Account, Refusal>
        ensures answer { result ≡ account_at self.now output }
    {
        self.accounts
            .get(output as usize)
            .copied()
            .ok_or(Refusal::NoOutput)
    }

    // What is spent once an output is taken, if it is there, not taken, and within the limit.
    fn spent_with(&self, output: u32) -> Result<u32, Refusal>
        ensures answer { answered Taken result ≡ take_answer self.now output }
    {
        let account = self.account(output)?;
        if account.taken {
            return Err(Refusal::AlreadyTaken);
        }
        let limit = u64::from(self.limit);
        let total = u64::from(self.spent) + account.cost();
        if total > limit {
            return Err(Refusal::OverLimit {
                excess: u32::try_from(total - limit).unwrap_or(u32::MAX),
            });
        }
        Ok(total as u32)
    }

    // What is spent once an output is put back, if it is there and taken.
    fn spent_without(&self, output: u32) -> Result<u32, Refusal>
        ensures answer { answered PutBack result ≡ back_answer self.now output }
    {
        let account = self.account(output)?;
        if !account.taken {
            return Err(Refusal::NotTaken);
        }
        Ok(u64::from(self.spent).saturating_sub(account.cost()) as u32)
    }

    // Writes down whether an output is taken, and what is then spent. One that is not there has no account to change.
    fn enter(&mut self, output: u32, taken: bool, spent: u32)
        ensures accounts { self.new.accounts.items ≡ with_taken self.old output taken }
        ensures spent { self.new.spent ≡ spent }
        ensures limit { self.new.limit ≡ self.old.limit }
    {
        if let Some(account) = self.accounts.get_mut(output as usize) {
            account.taken = taken;
        }
        self.spent = spent;
    }

    // Takes an output, and tells what is then spent. `back` does likewise with its own reckoning and flag: one method for both
    // would have to be given these two, which is all that either says.
    pub(crate) fn take(&mut self, output: u32) -> Result<u32, Refusal>
        ensures answer { answered Taken result ≡ take_answer self.old output }
        ensures accounts { self.new.accounts.items ≡ accounts_after self.old output (answered Taken result) }
        ensures spent { self.new.spent ≡ spent_after self.old (answered Taken result) }
        ensures limit { self.new.limit ≡ self.old.limit }
    {
        let spent = self.spent_with(output)?;
        self.enter(output, true, spent);
        Ok(spent)
    }

    // Puts an output back, and tells what is then spent.
    pub(crate) fn back(&mut self, output: u32) -> Result<u32, Refusal>
        ensures answer { answered PutBack result ≡ back_answer self.old output }
        ensures accounts { self.new.accounts.items ≡ accounts_after self.old output (answered PutBack result) }
        ensures spent { self.new.spent ≡ spent_after self.old (answered PutBack result) }
        ensures limit { self.new.limit ≡ self.old.limit }
    {
        let spent = self.spent_without(output)?;
        self.enter(output, false, spent);
        Ok(spent)
    }
}

// What a service answers without changing.
ghost use Rattle.std.specs.Prelude.{◌≡◌, ◌^◌, ◌<◌, length, vec_len};
ghost use Rattle.rules.specs.declared.call.Call.TheVariants.{Ask, Show, Read, Draw};
ghost use Rattle.service.specs.Books.{flags};
ghost use Rattle.rules.specs.Rules.{reply};
ghost use Rattle.service.specs.Holds.{terms_of, lines_of};
ghost use Rattle.service.specs.Replies.{said_asked, said_shown, said_mark, said_drawn, lent_after};

use crate::account::Account;
use crate::ledger::Ledger;
use crate::service::Service;
use design::{Design, Mark};
use diagram::Node;
use drawing::{Drawn, draw};
use refusal::Refusal;
use rules::{Asked, Shown};

impl Ledger {
    // The taken outputs, bit i for output i.
    fn taken_set(&self) -> u32
        ensures { result ≡ flags self.now.accounts.items (length self.now.accounts.items) }
    {
        self.accounts
            .iter()
            .rev()
            .fold(0, |set, account| (set << 1) | u32::from(account.taken))
    }
}

impl<D: Design + Drop> Service<D> {
    // The limit, the spent figure, the count of log lines and the taken set.
    pub fn ask(&self) -> Asked
        ensures { said_asked result ≡ reply (terms_of self.now) (lines_of self.now) Ask }
    {
        Asked {
            limit: self.ledger.limit,
            spent: self.ledger.spent,
            lines: self.log.count(),
            taken: self.ledger.taken_set(),
        }
    }

    // The vector and the wrong count of an output's nearest symmetric function.
    pub fn show(&self, output: u32) -> Result<Shown, Refusal>
        ensures { said_shown result ≡ reply (terms_of self.now) (lines_of self.now) (Show output) }
    {
        let account = self.ledger.account(output)?;
        Ok(Shown {
            vector: account.vector.bits(),
            wrong: account.wrong,
        })
    }

    // The mark handed out: the vector's value at the row's count of ones if the output is taken, else the design's.
    pub fn read(&self, output: u32, row: u32) -> Result<Mark, Refusal>
        ensures { said_mark result ≡ reply (terms_of self.now) (lines_of self.now) (Read output row) }
    {
        let account = self.ledger.account(output)?;
        if !account.taken {
            return self.design.mark(output, row);
        }
        self.design.size().check_row(output, row)?;
        if (account.vector.bits() >> row.count_ones()) & 1 == 1 {
            return Ok(Mark::One);
        }
        Ok(Mark::Zero)
    }

    // Draws a taken output's function into a lent buffer.
    pub fn draw(&self, output: u32, buffer: &mut [Node]) -> Result<Drawn, Refusal>
        ensures answer { said_drawn result buffer.new ≡ reply (terms_of self.now) (lines_of self.now) (Draw output (length buffer.old)) }
        ensures after { buffer.new ≡ lent_after (terms_of self.now) (lines_of self.now) output buffer.old }
    {
        let Account {
            taken: true,
            vector,
            ..
        } = self.ledger.account(output)?
        else {
            return Err(Refusal::NotTaken);
        };
        draw(&vector, buffer)
    }
}

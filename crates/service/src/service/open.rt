// How a service is opened.
ghost use Rattle.std.specs.Prelude.{◌≡◌, not, [], Ok, IfOk, vec_items, position};
ghost use Rattle.std.specs.List.{enumerate_from};
ghost use Rattle.service.specs.Opening.{fair, priced, terms, AccountsMade};
ghost use Rattle.service.specs.Holds.{terms_of, lines_of, Opened};

use crate::account::Account;
use crate::ledger::Ledger;
use crate::log::Log;
use crate::service::Service;
use design::Design;
use refusal::Refusal;
use std::alloc::Global;
use symmetric::{Nearest, nearest};

// Whether there is an output at the position and its price is 1 to 255.
fn is_fair(outputs: u32, position: usize, price: u32) -> bool
    ensures { result ≡ fair outputs position price }
{
    position < outputs as usize && (1..=255).contains(&price)
}

// The position of the first price that is surplus or not 1 to 255.
fn first_unfair(outputs: u32, prices: &[u32]) -> Option<usize>
    ensures { result ≡ position (λ p. not (fair outputs p.0 p.1)) (enumerate_from 0 prices.now) }
{
    prices
        .iter()
        .enumerate()
        .position(|(position, price)| !is_fair(outputs, position, *price))
}

// Refuses the first price that is missing, surplus or not 1 to 255.
fn check_prices(outputs: u32, prices: &[u32]) -> Result<(), Refusal>
    ensures { result ≡ priced outputs prices.now }
{
    match first_unfair(outputs, prices) {
        Some(position) => Err(Refusal::BadPrice { position }),
        None if prices.len() < outputs as usize => Err(Refusal::BadPrice {
            position: prices.len(),
        }),
        None => Ok(()),
    }
}

// The accounts of all outputs; a price that passed fits a byte. At most 255 × 32,768 each, their costs together never pass 32 bits.
fn open_accounts<D: Design>(
    heap: Global,
    design: &D,
    prices: &[u32],
) -> Result<Vec<Account>, Refusal>
    requires { priced (D.Design.meaning design.now).outputs prices.now ≡ Ok tt }
    ensures { AccountsMade vec_items (D.Design.meaning design.now) prices.now result }
{
    let mut accounts = Vec::with_capacity(heap, 8)?;
    for (output, price) in prices.iter().enumerate() {
        let Nearest { vector, wrong } = nearest(design, output as u32)?;
        accounts.push_reserved(Account {
            price: *price as u8,
            vector,
            wrong,
            taken: false,
        });
    }
    Ok(accounts)
}

impl<D: Design + Drop> Service<D> {
    // A service on a design, with a price for each output: nothing is taken, spent or logged.
    pub fn open(heap: Global, design: D, limit: u32, prices: &[u32]) -> Result<Service<D>, Refusal>
        ensures opened { Opened D.Design.meaning (terms (D.Design.meaning design) limit prices.now) result }
        ensures terms { IfOk result (λ service. terms_of service ≡ terms (D.Design.meaning design) limit prices.now) }
        ensures lines { IfOk result (λ service. lines_of service ≡ []) }
    {
        check_prices(design.size().outputs, prices)?;
        let accounts = open_accounts(heap, &design, prices)?;
        let lines = Vec::with_capacity(heap, 256)?;
        Ok(Service {
            design,
            ledger: Ledger {
                accounts,
                limit,
                spent: 0,
            },
            log: Log { lines },
        })
    }
}

// The service: a design, its ledger and its log.
ghost use Rattle.std.specs.Prelude.{vec_items};
ghost use Rattle.service.specs.Stands.{Stands};

use crate::ledger::Ledger;
use crate::log::Log;
use design::Design;

mod numbered;
mod open;
mod questions;
mod sheets;

// Nothing but take and back changes one, and it stands by its terms and its lines at any time.
#[derive(Drop)]
pub struct Service<D: Design> {
    design: D,
    ledger: Ledger,
    log: Log,
    ghost stands: { Stands (D.meaning design) ledger (vec_items log.lines) },
}

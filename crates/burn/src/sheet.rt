// A burn sheet: a value of this type breaks no rule of the burn file.
ghost use Rattle.std.specs.Prelude.{◌≡◌, true};
ghost use Rattle.burn.specs.Rules.{keeps};

use crate::entry::Entry;
use crate::rule::Inputs;

// Inputs, limit, spent figure, and an entry for each output.
#[derive(Drop)]
pub struct Sheet {
    pub(crate) inputs: Inputs,
    pub(crate) limit: u32,
    pub(crate) spent: u32,
    pub(crate) entries: Vec<Entry>,
    ghost kept: { keeps inputs limit spent entries.items ≡ true },
}

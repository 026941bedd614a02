// Theorems on numbered commands: each function carries one on its contract, and does nothing.
ghost use Rattle.commands.specs.Promise.{CommandsKeepTheirPromise};
ghost use Rattle.commands.specs.Runs.{ShortRuns};

// A log keeps the promise of numbered commands, on every account.
pub fn commands_keep_their_promise() -> u8
    ensures { CommandsKeepTheirPromise }
{
    0
}

// The rules answer short runs at their edges as they should.
#[tactic(auto, unfolding(crate::specs::Rules::taken, crate::specs::Rules::spent, crate::specs::Rules::lines_from, crate::specs::Rules::heard_from))]
pub fn short_runs_hold() -> u8
    ensures { ShortRuns }
{
    0
}

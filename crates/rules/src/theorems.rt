// The promise of the rules: the function stands for the statement on its contract, and does nothing.
ghost use Rattle.rules.specs.Promise.{PromiseHolds};

// A service keeps its promise over every run of calls, on all terms.
pub fn promise_holds() -> u8
    ensures { PromiseHolds }
{
    0
}

// A theorem on burn files: the function carries it on its contract, and does nothing.
ghost use Rattle.burn.specs.Faults.{FaultLaws};

// Which fault a refusal of a file names.
pub fn faults_are_named() -> u8
    ensures { FaultLaws }
{
    0
}

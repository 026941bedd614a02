// The known figures as one theorem: the function carries it on its contract, and does nothing.
ghost use Rattle.figures.specs.Known.{KnownFigures};

// Small designs, runs and a burn file, each with what is told of it.
pub fn figures_known() -> u8
    ensures { KnownFigures }
{
    0
}

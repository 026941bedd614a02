// What is proved of drawings beyond the answers of single calls.
ghost use Rattle.drawing.specs.Figures.{FiguresDrawn};

// Small functions have their known drawings.
pub fn figures_drawn() -> u8
    ensures { FiguresDrawn }
{
    0
}

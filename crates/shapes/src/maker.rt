// What makes designs at random.
ghost use Rattle.std.specs.Prelude.{◌≡◌, Ok, Some, MatchResult, IsErr, codes};
ghost use Rattle.anyhow.specs.Error.{HasMessage};

use crate::frame::Frame;
use anyhow::Context;
use refusal::Refusal;
use samples::Dice;
use std::alloc::Global;

// What is refused where it should not be ends the program, in this word.
pub(crate) fn expected<T>(made: Result<T, Refusal>) -> anyhow::Result<T>
    ensures { MatchResult result (λ x. made ≡ Ok x) (λ why. IsErr made × HasMessage (Some (codes "refused")) why) }
{
    made.ok().context("refused")
}

// Memory, dice, and the frame that the next design is to fill.
#[derive(Drop)]
pub(crate) struct Maker {
    pub(crate) heap: Global,
    pub(crate) dice: Dice,
    pub(crate) frame: Frame,
}

impl Maker {
    // The same seed makes the same designs. The frame has 16 inputs and one output until another is set.
    pub(crate) fn new(heap: Global, seed: u32) -> Maker {
        Maker {
            heap,
            dice: Dice::new(seed),
            frame: Frame::new(0, 1),
        }
    }

    // Sets the frame at a place of a list, of 1 to 3 outputs at random.
    pub(crate) fn fit(&mut self, place: u32) {
        self.frame = Frame::at(&mut self.dice, place);
    }
}

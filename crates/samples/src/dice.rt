// Numbers that look random and are the same in every run.
ghost use Rattle.std.specs.Prelude.{◌≡◌, ℕ, ◌<◌};
ghost use Rattle.samples.specs.Rolls.{rolled, shown};

use std::marker::Model;

// Dice, seen as the number that decides all that is to come.
#[derive(Drop)]
pub struct Dice {
    state: u32,
}

// The model: the state alone.
impl Model for Dice {
    ghost Value = { ℕ };

    ghost view = { λ d. d.state };
}

impl Dice {
    // The same seed gives the same numbers.
    pub fn new(seed: u32) -> Dice
        ensures { result ≡ seed }
    {
        Dice { state: seed }
    }

    // The next number below an end, and 0 below 0.
    pub fn below(&mut self, end: u32) -> u32
        ensures next { self.new ≡ rolled self.old }
        ensures roll { result ≡ shown self.new end }
        ensures bound { 0 < end → result < end }
    {
        self.state = self.state.wrapping_mul(1664525).wrapping_add(1013904223);
        if end == 0 {
            return 0;
        }
        (self.state >> 16) % end
    }
}

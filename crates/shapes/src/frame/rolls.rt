// What is rolled within a frame.
ghost use Rattle.std.specs.Prelude.{◌≡◌, ◌-◌, ◌%◌, ◌<◌, ◌≤◌};

use crate::frame::Frame;
use samples::Dice;

impl Frame {
    // The frame at a place of a list: 16 inputs at the first, one fewer at each next, and 16 again after 1.
    pub(crate) fn new(place: u32, outputs: u32) -> Frame
        requires some { 1 ≤ outputs }
        requires few { outputs ≤ 3 }
        ensures inputs { result.inputs ≡ 16 - place % 16 }
        ensures outputs { result.outputs ≡ outputs }
    {
        Frame {
            inputs: 16 - place % 16,
            outputs,
        }
    }

    // The same, of 1 to 3 outputs at random.
    pub(crate) fn at(dice: &mut Dice, place: u32) -> Frame
        ensures { result.inputs ≡ 16 - place % 16 }
    {
        Frame::new(place, 1 + dice.below(3))
    }

    // How many inputs.
    pub(crate) fn inputs(self) -> u32
        ensures { result ≡ self.inputs }
    {
        self.inputs
    }

    // How many outputs.
    pub(crate) fn outputs(self) -> u32
        ensures { result ≡ self.outputs }
    {
        self.outputs
    }

    // Any output.
    pub(crate) fn output(self, dice: &mut Dice) -> u32
        ensures { result < self.outputs }
    {
        dice.below(self.outputs)
    }

    // Any level of a node.
    pub(crate) fn level(self, dice: &mut Dice) -> u32
        ensures { result < self.inputs }
    {
        dice.below(self.inputs)
    }

    // One input, as a set.
    pub(crate) fn input(self, dice: &mut Dice) -> u16 {
        1 << dice.below(self.inputs)
    }

    // Any set of inputs.
    pub(crate) fn set(self, dice: &mut Dice) -> u16 {
        let all = u16::MAX >> (16 - self.inputs);
        dice.below(65536) as u16 & all
    }
}

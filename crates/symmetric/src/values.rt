// A value vector made and asked.
ghost use Rattle.std.specs.Prelude.{◌≡◌};
ghost use Rattle.symmetric.specs.Vectors.{vectored, told};

use crate::vector::ValueVector;

impl ValueVector {
    // The vector of these bits, if there are 1 to 16 inputs and no bit is above them.
    pub fn new(inputs: u32, bits: u32) -> Option<ValueVector>
        ensures { told result ≡ vectored inputs bits }
    {
        if !(1..=16).contains(&inputs) || bits >= 1 << (inputs + 1) {
            return None;
        }
        Some(ValueVector { inputs, bits })
    }

    // How many inputs it is for.
    pub fn inputs(&self) -> u32
        ensures { result ≡ self.now.inputs }
    {
        self.inputs
    }

    // Its values as one number: bit w is the value at weight w.
    pub fn bits(&self) -> u32
        ensures { result ≡ self.now.bits }
    {
        self.bits
    }
}

// What a design's tallies and nearest functions come to, in a few numbers.
ghost use Rattle.std.specs.Prelude.{◌≡◌, ◌+◌, ◌*◌, ◌%◌, ◌^◌};

use design::Tally;

// The sums of the tallies and of the wrong counts, and a checksum of every number in its order.
#[derive(Clone, Copy, Default)]
pub(crate) struct Digest {
    // over all outputs and weights
    pub(crate) on: u32,
    pub(crate) free: u32,
    // over all outputs
    pub(crate) wrong: u32,
    pub(crate) checksum: u32,
}

impl Digest {
    // One number more in the checksum.
    fn mix(&mut self, number: u32)
        ensures { self.new.checksum ≡ (self.old.checksum * 31 % 2 ^ 32 + number) % 2 ^ 32 }
    {
        self.checksum = self.checksum.wrapping_mul(31).wrapping_add(number);
    }

    // The tally of an output at a weight.
    pub(crate) fn note_tally(&mut self, tally: Tally) {
        self.on = self.on.saturating_add(tally.on);
        self.free = self.free.saturating_add(tally.free);
        self.mix(tally.on);
        self.mix(tally.free);
    }

    // The vector nearest to an output, and its wrong count.
    pub(crate) fn note_nearest(&mut self, bits: u32, wrong: u32) {
        self.wrong = self.wrong.saturating_add(wrong);
        self.mix(bits);
        self.mix(wrong);
    }
}

// The one search for the first record that meets another.
ghost use Rattle.std.specs.Prelude.{◌≡◌, Bool};
ghost use Rattle.design.specs.Search.{first_place, Says};

// What can be searched for: two records of a kind meet or do not.
pub trait Record {
    ghost meets: { Self → Self → Bool };

    // Whether this record meets the other.
    fn meets(&self, other: &Self) -> bool
        ensures { result ≡ meets self.now other.now };
}

// The place of the first record that meets the wanted one.
pub fn first_meeting<R: Record>(records: &[R], wanted: &R) -> Option<usize>
    ensures answer { result ≡ first_place (λ x. R.meets x wanted.now) records.now }
    ensures first { Says (λ x. R.meets x wanted.now) records.now result }
{
    records.iter().position(|one| one.meets(wanted))
}

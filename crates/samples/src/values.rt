// The values of a vector.
ghost use Rattle.std.specs.Prelude.{◌≡◌, ◌/◌, ◌%◌, ◌^◌, if◌then◌else◌, count_ones, nat_le};

// The value at a row of at most 16 ones: the bit of their count.
pub fn value_at(bits: u32, row: u32) -> u32
    ensures { result ≡ (if nat_le (count_ones row) 16 then bits / 2 ^ count_ones row % 2 else 0) }
{
    match row.count_ones() {
        weight @ 0..=16 => (bits >> weight) % 2,
        _ => 0,
    }
}

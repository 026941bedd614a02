// Kinds of cubes.
ghost use Rattle.std.specs.Prelude.{◌≡◌};
ghost use Rattle.cover.specs.Kinds.{number, kind_of, mark_of};

use design::Mark;

// What a cube asks of the rows that it holds.
#[derive(Clone, Copy, PartialEq, Eq, Debug)]
pub enum Kind {
    On,
    DontCare,
}

// A number that is no kind's.
#[derive(Clone, Copy, PartialEq, Eq, Debug)]
pub struct NoKind;

// The kind that has a number.
impl TryFrom<u32> for Kind {
    type Error = NoKind;

    ghost try_from_gives = { λ number r. r ≡ kind_of number };

    fn try_from(number: u32) -> Result<Kind, NoKind> {
        match number {
            1 => Ok(Kind::On),
            2 => Ok(Kind::DontCare),
            _ => Err(NoKind),
        }
    }
}

// The number of a kind in a camera's table.
impl From<Kind> for u32 {
    ghost from_gives = { λ kind n. n ≡ number kind };

    fn from(kind: Kind) -> u32 {
        match kind {
            Kind::On => 1,
            Kind::DontCare => 2,
        }
    }
}

// The mark of the rows that a cube of a kind holds.
impl From<Kind> for Mark {
    ghost from_gives = { λ kind r. r ≡ mark_of kind };

    fn from(kind: Kind) -> Mark {
        match kind {
            Kind::On => Mark::One,
            Kind::DontCare => Mark::DontCare,
        }
    }
}

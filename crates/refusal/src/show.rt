// The number of a refusal, and its text.
ghost use Rattle.std.specs.Prelude.{◌≡◌, Some};
ghost use Rattle.refusal.specs.declared.table.Refusal.TheVariants.{NoMemory};
ghost use Rattle.refusal.specs.Table.{number, cause_number, told};
ghost use Rattle.refusal.specs.Text.{text};

use crate::table::{Cause, Refusal};
use std::alloc::{AllocError, AllocFailed};
use std::error::Error;
use std::fmt;

impl Refusal {
    // Its number in the table, and 0 for want of memory.
    pub fn number(&self) -> u32
        ensures { result ≡ number self.now }
    {
        match *self {
            Refusal::Inputs => 1,
            Refusal::Outputs => 2,
            Refusal::TooMany { .. } => 3,
            Refusal::BadCube { .. } => 4,
            Refusal::CubesMeet { .. } => 5,
            Refusal::BadNode { .. } => 6,
            Refusal::NoOutput => 7,
            Refusal::NoRow => 8,
            Refusal::NoWeight => 9,
            Refusal::RootCount { .. } => 10,
            Refusal::BadRoot { .. } => 11,
            Refusal::InputsDiffer { .. } => 12,
            Refusal::CostTooLarge => 13,
            Refusal::Gap { .. } => 14,
            Refusal::NumberUsed { .. } => 15,
            Refusal::LogFull => 16,
            Refusal::BadPrice { .. } => 17,
            Refusal::AlreadyTaken => 18,
            Refusal::NotTaken => 19,
            Refusal::OverLimit { .. } => 20,
            Refusal::NodesShort { .. } => 21,
            Refusal::FileLength => 22,
            Refusal::BlockSum { .. } => 23,
            Refusal::BadField { .. } => 24,
            Refusal::BadCause { .. } => 25,
            Refusal::BufferShort { .. } => 26,
            Refusal::NoMemory => 0,
        }
    }
}

// The number, then the values, blanks between.
impl fmt::Display for Refusal {
    ghost output = { λ r. Some (text (told r)) };

    fn fmt<W: fmt::Write>(&self, f: &mut fmt::Formatter<W>) -> fmt::Result {
        let number = self.number();
        match *self {
            Refusal::TooMany { count: value }
            | Refusal::BadCube { place: value }
            | Refusal::BadNode { place: value }
            | Refusal::RootCount { length: value }
            | Refusal::BadRoot { output: value }
            | Refusal::BadPrice { position: value }
            | Refusal::NodesShort { count: value }
            | Refusal::BufferShort { length: value } => write!(f, "{number} {value}"),
            Refusal::NumberUsed { number: value }
            | Refusal::Gap { next: value }
            | Refusal::OverLimit { excess: value }
            | Refusal::BadCause { cause: value }
            | Refusal::BlockSum { block: value } => write!(f, "{number} {value}"),
            Refusal::CubesMeet { place, earlier } => write!(f, "{number} {place} {earlier}"),
            Refusal::InputsDiffer { first, second } => write!(f, "{number} {first} {second}"),
            Refusal::BadField { block, byte } => write!(f, "{number} {block} {byte}"),
            _ => write!(f, "{number}"),
        }
    }
}

// A refusal goes by `?` where any error may.
impl Error for Refusal {}

// The number of a cause in the table.
impl From<Cause> for u32 {
    ghost from_gives = { λ cause n. n ≡ cause_number cause };

    fn from(cause: Cause) -> u32 {
        match cause {
            Cause::Blocks => 1,
            Cause::Spent => 2,
            Cause::Limit => 3,
        }
    }
}

// Want of memory, where an allocation fails.
impl From<AllocError> for Refusal {
    ghost from_gives = { λ _ r. r ≡ NoMemory };

    fn from(_e: AllocError) -> Refusal {
        Refusal::NoMemory
    }
}

// The same, where the failed call hands a value back.
impl<T: Drop> From<AllocFailed<T>> for Refusal {
    ghost from_gives = { λ _ r. r ≡ NoMemory };

    fn from(_e: AllocFailed<T>) -> Refusal {
        Refusal::NoMemory
    }
}

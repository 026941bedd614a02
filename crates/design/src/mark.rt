// The marks of a table.
ghost use Rattle.std.specs.Prelude.{Some};
ghost use Rattle.design.specs.Marks.{mark_word};

use std::fmt;

// What a design asks of an output at a row: 0, 1, or either.
#[derive(Clone, Copy, PartialEq, Eq, Debug)]
pub enum Mark {
    Zero,
    One,
    DontCare,
}

// A mark is printed as its word.
impl fmt::Display for Mark {
    ghost output = { λ mark. Some (mark_word mark) };

    fn fmt<W: fmt::Write>(&self, f: &mut fmt::Formatter<W>) -> fmt::Result {
        f.write_str(match self {
            Mark::Zero => "zero",
            Mark::One => "one",
            Mark::DontCare => "don't-care",
        })
    }
}

// Answers in words.
ghost use Rattle.std.specs.Prelude.{Some};
ghost use Rattle.commands.specs.Text.{answer_text};

use crate::command::Answer;
use std::fmt;

// What is then spent, or why it was refused.
impl fmt::Display for Answer {
    ghost output = { λ a. Some (answer_text a) };

    fn fmt<W: fmt::Write>(&self, f: &mut fmt::Formatter<W>) -> fmt::Result {
        match *self {
            Answer::Taken { spent } => write!(f, "taken, spent {spent}"),
            Answer::PutBack { spent } => write!(f, "put back, spent {spent}"),
            Answer::Refused(refusal) => write!(f, "refused {refusal}"),
        }
    }
}

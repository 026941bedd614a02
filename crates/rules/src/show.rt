// Calls and replies in words.
ghost use Rattle.std.specs.Prelude.{Some};
ghost use Rattle.rules.specs.Text.{call_text, asked_text, shown_text, reply_text};

use crate::call::{Asked, Call, Reply, Shown};
use drawing::Drawn;
use std::fmt;

// A call with what it names.
impl fmt::Display for Call {
    ghost output = { λ c. Some (call_text c) };

    fn fmt<W: fmt::Write>(&self, f: &mut fmt::Formatter<W>) -> fmt::Result {
        match *self {
            Call::Take { number, output } => write!(f, "take {number} of output {output}"),
            Call::Back { number, output } => write!(f, "back {number} of output {output}"),
            Call::Ask => write!(f, "ask"),
            Call::Show { output } => write!(f, "show output {output}"),
            Call::Read { output, row } => write!(f, "read output {output} at row {row}"),
            Call::Draw { output, room } => write!(
                f,
                "draw output {output} in room for {room} nodes"
            ),
        }
    }
}

// The account in one line.
impl fmt::Display for Asked {
    ghost output = { λ a. Some (asked_text a) };

    fn fmt<W: fmt::Write>(&self, f: &mut fmt::Formatter<W>) -> fmt::Result {
        let Asked {
            limit,
            spent,
            lines,
            taken,
        } = *self;
        write!(
            f,
            "limit {limit}, spent {spent}, {lines} lines, taken set {taken}"
        )
    }
}

// The vector as a number, and its wrong count.
impl fmt::Display for Shown {
    ghost output = { λ s. Some (shown_text s) };

    fn fmt<W: fmt::Write>(&self, f: &mut fmt::Formatter<W>) -> fmt::Result {
        let Shown { vector, wrong } = *self;
        write!(f, "vector {vector}, {wrong} windows judged wrongly")
    }
}

// What was replied; of a drawing its size and root.
impl fmt::Display for Reply {
    ghost output = { λ r. Some (reply_text r) };

    fn fmt<W: fmt::Write>(&self, f: &mut fmt::Formatter<W>) -> fmt::Result {
        match self {
            Reply::Answered(answer) => write!(f, "{answer}"),
            Reply::Asked(asked) => write!(f, "{asked}"),
            Reply::Shown(shown) => write!(f, "{shown}"),
            Reply::Marked(mark) => write!(f, "{mark}"),
            Reply::Drawn { root, nodes } => {
                let count = nodes.len();
                let drawn = Drawn { count, root: *root };
                write!(f, "{drawn}")
            }
            Reply::Refused(refusal) => write!(f, "refused {refusal}"),
        }
    }
}

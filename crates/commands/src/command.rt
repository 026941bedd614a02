// Commands, answers, and the lines of a log.
use refusal::Refusal;

// Take an output, or put it back.
#[derive(Clone, Copy, PartialEq, Eq, Debug)]
pub enum Command {
    Take { output: u32 },
    Back { output: u32 },
}

// What a command is answered. A granted one is told the spent figure that it leaves.
// No Result: an answer is a log's line and is handed out again whatever it was, nobody passes a refused one up by
// `?`, and an enum inside a Result would make each match one level deeper.
#[derive(Clone, Copy, PartialEq, Eq, Debug)]
pub enum Answer {
    Taken { spent: u32 },
    PutBack { spent: u32 },
    Refused(Refusal),
}

// A command that was decided, with its answer. Line 1 is the first of a log.
#[derive(Clone, Copy, PartialEq, Eq, Debug)]
pub struct Line {
    pub command: Command,
    pub answer: Answer,
}

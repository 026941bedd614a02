// What a service can be asked, and what it replies.
use commands::Answer;
use design::Mark;
use diagram::Node;
use refusal::Refusal;

// One call of a service. A draw says how many nodes its buffer has room for.
#[derive(Clone, Copy, PartialEq, Eq, Debug)]
pub enum Call {
    Take { number: u32, output: u32 },
    Back { number: u32, output: u32 },
    Ask,
    Show { output: u32 },
    Read { output: u32, row: u32 },
    Draw { output: u32, room: u32 },
}

// What ask answers: the limit, the spent figure, how many lines the log has, and the taken set, bit i for output i.
#[derive(Clone, Copy, PartialEq, Eq, Debug)]
pub struct Asked {
    pub limit: u32,
    pub spent: u32,
    pub lines: u32,
    pub taken: u32,
}

// What show answers: the value vector of an output's nearest symmetric function, and its wrong count.
#[derive(Clone, Copy, PartialEq, Eq, Debug)]
pub struct Shown {
    pub vector: u32,
    pub wrong: u32,
}

// The reply to one call of a run.
// No Result: a reply is listed among the others of its run whatever it was, nobody passes a refused one up by `?`, and
// an enum inside a Result would make each match one level deeper.
#[derive(PartialEq, Eq, Debug, Drop)]
pub enum Reply {
    Answered(Answer),
    Asked(Asked),
    Shown(Shown),
    Marked(Mark),
    Drawn { root: u32, nodes: Vec<Node> },
    Refused(Refusal),
}

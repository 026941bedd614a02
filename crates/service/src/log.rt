// The log: what was decided, in its order.
ghost use Rattle.std.specs.Prelude.{◌≤◌, vec_len, vec_capacity};

use commands::Line;

// Its room is there from the opening on, so that no command is ever refused for memory.
#[derive(Drop)]
pub struct Log {
    pub(crate) lines: Vec<Line>,
    ghost room: { 256 ≤ vec_capacity lines },
    ghost few: { vec_len lines ≤ 256 },
}

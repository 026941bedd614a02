// The numbers of commands, as the log has them.
ghost use Rattle.std.specs.Prelude.{◌≡◌, ◌<◌, ◌≤◌, [], ◌∷◌, ◌++◌, length, vec_len};
ghost use Rattle.service.specs.Numbers.{settled};

use crate::log::Log;
use commands::{Answer, Command, Line, same_command};
use refusal::Refusal;

impl Log {
    // How many lines there are.
    pub(crate) fn count(&self) -> u32
        ensures count { result ≡ length self.now.lines.items }
        ensures few { result ≤ 256 }
    {
        self.lines.len() as u32
    }

    // What a command under a number is answered unless it is to be decided.
    pub(crate) fn settled(&self, number: u32, command: Command) -> Option<Answer>
        ensures { result ≡ settled self.now.lines.items number command }
    {
        let count = self.count();
        if number == 0 || number > count + 1 {
            return Some(Answer::Refused(Refusal::Gap { next: count + 1 }));
        }
        match self.lines.get((number - 1) as usize) {
            Some(line) if same_command(line.command, command) => Some(line.answer),
            Some(_) => Some(Answer::Refused(Refusal::NumberUsed { number })),
            None if count == 256 => Some(Answer::Refused(Refusal::LogFull)),
            None => None,
        }
    }

    // One line more, while there is room.
    pub(crate) fn add(&mut self, line: Line)
        requires { length self.old.lines.items < 256 }
        ensures { self.new.lines.items ≡ self.old.lines.items ++ line ∷ [] }
    {
        self.lines.push_reserved(line);
    }
}

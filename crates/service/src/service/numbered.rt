// Take and back.
ghost use Rattle.std.specs.Prelude.{◌≡◌};
ghost use Rattle.commands.specs.declared.command.Command.TheVariants.{Take, Back};
ghost use Rattle.commands.specs.Rules.{numbered, logged};
ghost use Rattle.rules.specs.Rules.{account};
ghost use Rattle.service.specs.Booked.{Decided};
ghost use Rattle.service.specs.Holds.{terms_of, lines_of};

use crate::ledger::Ledger;
use crate::log::Log;
use crate::service::Service;
use commands::{Answer, Command, Line};
use design::Design;

impl Ledger {
    // The answer to a fresh command. A match and no closure: a command is logged and compared, as a closure could not be.
    fn decide(&mut self, command: Command) -> Answer
        ensures { Decided command self.old result self.new }
    {
        match command {
            Command::Take { output } => self
                .take(output)
                .map_or_else(Answer::Refused, |spent| Answer::Taken { spent }),
            Command::Back { output } => self
                .back(output)
                .map_or_else(Answer::Refused, |spent| Answer::PutBack { spent }),
        }
    }
}

impl<D: Design + Drop> Service<D> {
    // A command under its number: a repeat is answered as before, and only a fresh one is decided, and logged.
    fn obey(&mut self, number: u32, command: Command) -> Answer
        ensures answer { result ≡ numbered (account (terms_of self.old)) (lines_of self.old) number command }
        ensures lines { lines_of self.new ≡ logged (account (terms_of self.old)) (lines_of self.old) number command }
        ensures terms { terms_of self.new ≡ terms_of self.old }
    {
        if let Some(answer) = self.log.settled(number, command) {
            return answer;
        }
        let answer = self.ledger.decide(command);
        self.log.add(Line { command, answer });
        answer
    }

    // Takes an output, under the number of the command. `back` is the same with the other command: two public names of one `obey`.
    pub fn take(&mut self, number: u32, output: u32) -> Answer
        ensures answer { result ≡ numbered (account (terms_of self.old)) (lines_of self.old) number (Take output) }
        ensures lines { lines_of self.new ≡ logged (account (terms_of self.old)) (lines_of self.old) number (Take output) }
        ensures terms { terms_of self.new ≡ terms_of self.old }
    {
        self.obey(number, Command::Take { output })
    }

    // Puts an output back, under the number of the command.
    pub fn back(&mut self, number: u32, output: u32) -> Answer
        ensures answer { result ≡ numbered (account (terms_of self.old)) (lines_of self.old) number (Back output) }
        ensures lines { lines_of self.new ≡ logged (account (terms_of self.old)) (lines_of self.old) number (Back output) }
        ensures terms { terms_of self.new ≡ terms_of self.old }
    {
        self.obey(number, Command::Back { output })
    }
}

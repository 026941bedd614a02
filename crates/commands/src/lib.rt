// Numbered commands: what they are, how each is answered, and what holds however they are sent.
#![tactic(auto)]

mod command;
mod same;
mod show;
mod theorems;

pub use command::{Answer, Command, Line};
pub use same::same_command;
pub use theorems::{commands_keep_their_promise, short_runs_hold};

#[cfg(test)]
mod tests {
    use super::*;
    use refusal::Refusal;
    use std::test::Fail;

    #[test]
    fn commands_are_compared_whole(rt: HostRuntime) {
        assert!(rt; same_command(Command::Take { output: 1 }, Command::Take { output: 1 }));
        assert!(rt; !same_command(Command::Take { output: 1 }, Command::Take { output: 2 }));
        assert!(rt; !same_command(Command::Take { output: 1 }, Command::Back { output: 1 }));
    }

    #[test]
    fn answers_are_told_in_words(rt: HostRuntime) -> Result<(), Fail> {
        let heap = rt.alloc();
        let table = [
            (Answer::Taken { spent: 7 }, "taken, spent 7"),
            (Answer::PutBack { spent: 0 }, "put back, spent 0"),
            (
                Answer::Refused(Refusal::OverLimit { excess: 12 }),
                "refused 20 12",
            ),
        ];
        for (answer, words) in table {
            let text = answer.to_string(heap)?;
            assert!(rt; text.as_str() == words);
        }
        Ok(())
    }
}

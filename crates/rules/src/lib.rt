// Calls and replies of the numbered service, the rules that give each reply, and what is promised of them.
#![tactic(auto)]

mod call;
mod show;
mod theorems;

pub use call::{Asked, Call, Reply, Shown};
pub use theorems::promise_holds;

#[cfg(test)]
mod tests {
    use super::*;
    use commands::Answer;
    use design::Mark;
    use diagram::Node;
    use refusal::Refusal;
    use std::test::Fail;

    #[test]
    fn calls_are_told_in_words(rt: HostRuntime) -> Result<(), Fail> {
        let heap = rt.alloc();
        let table = [
            (
                Call::Take {
                    number: 1,
                    output: 0,
                },
                "take 1 of output 0",
            ),
            (
                Call::Back {
                    number: 12,
                    output: 3,
                },
                "back 12 of output 3",
            ),
            (Call::Ask, "ask"),
            (Call::Show { output: 7 }, "show output 7"),
            (
                Call::Read {
                    output: 2,
                    row: 65535,
                },
                "read output 2 at row 65535",
            ),
            (
                Call::Draw { output: 0, room: 4 },
                "draw output 0 in room for 4 nodes",
            ),
        ];
        for (call, words) in table {
            let text = call.to_string(heap)?;
            assert!(rt; text.as_str() == words);
        }
        Ok(())
    }

    #[test]
    fn replies_are_told_in_words(rt: HostRuntime) -> Result<(), Fail> {
        let heap = rt.alloc();
        let asked = Asked {
            limit: 7,
            spent: 3,
            lines: 1,
            taken: 2,
        };
        let shown = Shown {
            vector: 12,
            wrong: 0,
        };
        let table = [
            (
                Reply::Answered(Answer::Taken { spent: 3 }),
                "taken, spent 3",
            ),
            (
                Reply::Asked(asked),
                "limit 7, spent 3, 1 lines, taken set 2",
            ),
            (Reply::Shown(shown), "vector 12, 0 windows judged wrongly"),
            (Reply::Marked(Mark::DontCare), "don't-care"),
            (
                Reply::Refused(Refusal::NodesShort { count: 5 }),
                "refused 21 5",
            ),
        ];
        for (reply, words) in &table {
            let text = reply.to_string(heap)?;
            assert!(rt; text.as_str() == *words);
        }
        Ok(())
    }

    #[test]
    fn a_drawing_is_told_in_words(rt: HostRuntime) -> Result<(), Fail> {
        let heap = rt.alloc();
        let node = Node {
            level: 0,
            low: 0,
            high: 1,
        };
        let reply = Reply::Drawn {
            root: 3,
            nodes: vec![in heap; node]?,
        };
        let text = reply.to_string(heap)?;
        assert!(rt; text.as_str() == "1 nodes, root 3");
        Ok(())
    }
}

// A drawing in a longer buffer, in one that is too short, and as it is printed.
use crate::{Drawn, draw};
use diagram::Node;
use refusal::Refusal;
use std::test::Fail;
use symmetric::ValueVector;

// A row of a drawn table.
fn node(level: u32, low: u32, high: u32) -> Node {
    Node { level, low, high }
}

// Three inputs, one where at least two are one.
fn majority() -> Result<ValueVector, Fail> {
    ValueVector::new(3, 12).ok_or_else(|| Fail::new("not a vector"))
}

#[test]
fn majority_of_three_is_drawn(rt: HostRuntime) -> Result<(), Fail> {
    let mut buffer = [node(9, 9, 9); 5];
    let drawn = draw(&majority()?, &mut buffer);
    assert_eq!(rt; drawn, Ok(Drawn { count: 4, root: 6 }));
    let wanted = [
        node(2, 0, 1),
        node(1, 0, 3),
        node(1, 3, 1),
        node(0, 4, 5),
        node(9, 9, 9),
    ];
    assert_eq!(rt; buffer, wanted);
    Ok(())
}

#[test]
fn a_short_buffer_stays_as_it_is(rt: HostRuntime) -> Result<(), Fail> {
    let mut buffer = [node(9, 9, 9); 3];
    let drawn = draw(&majority()?, &mut buffer);
    assert_eq!(rt; drawn, Err(Refusal::NodesShort { count: 4 }));
    assert_eq!(rt; buffer, [node(9, 9, 9); 3]);
    Ok(())
}

#[test]
fn a_drawing_is_printed_in_words(rt: HostRuntime) -> Result<(), Fail> {
    let drawn = Drawn { count: 4, root: 6 };
    let text = drawn.to_string(rt.alloc())?;
    assert_eq!(rt; text.as_str(), "4 nodes, root 6");
    Ok(())
}

// What the references of a table lead to.
ghost use Rattle.std.specs.Prelude.{◌≡◌};
ghost use Rattle.diagram.specs.Walk.{target};

use design::Mark;

// Where a reference leads: 0, 1 and 2 to that mark, and 3 + p to the node at place p.
#[derive(Clone, Copy, PartialEq, Eq, Debug)]
pub enum Target {
    Mark(Mark),
    Node(usize),
}

// A reference of a table as what it leads to.
impl From<u32> for Target {
    ghost from_gives = { λ reference found. found ≡ target reference };

    fn from(reference: u32) -> Target {
        match reference {
            0 => Target::Mark(Mark::Zero),
            1 => Target::Mark(Mark::One),
            2 => Target::Mark(Mark::DontCare),
            _ => Target::Node((reference - 3) as usize),
        }
    }
}

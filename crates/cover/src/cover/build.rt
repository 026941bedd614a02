// How a cover is made.
ghost use Rattle.std.specs.Prelude.{◌≡◌, []};
ghost use Rattle.cover.specs.Tables.{all_good, apart, opened};
ghost use Rattle.cover.specs.Covers.{told};

use crate::cover::Cover;
use crate::cube::Cube;
use design::{Size, check_sizes, first_meeting};
use refusal::Refusal;

impl Cover {
    // A cover of the cubes, or the first reason against one.
    pub fn new(inputs: u32, outputs: u32, cubes: Vec<Cube>) -> Result<Cover, Refusal>
        ensures { told result ≡ opened inputs outputs cubes.items }
    {
        check_sizes(inputs, outputs, cubes.len())?;
        let size = Size { inputs, outputs };
        check_each(size, cubes.as_slice())?;
        check_pairs(cubes.as_slice())?;
        Ok(Cover { size, cubes })
    }
}

// Refuses the lowest bad cube.
fn check_each(size: Size, cubes: &[Cube]) -> Result<(), Refusal>
    ensures { result ≡ all_good size.inputs size.outputs 0 cubes.now }
{
    let bad = cubes.iter().position(|cube| !cube.is_good(size));
    bad.map_or(Ok(()), |place| Err(Refusal::BadCube { place }))
}

// Refuses the first cube that meets an earlier one, with the earliest that it meets.
fn check_pairs(cubes: &[Cube]) -> Result<(), Refusal>
    ensures { result ≡ apart [] cubes.now }
{
    let meeting = cubes.iter().enumerate().find_map(|(place, cube)| {
        first_meeting(&cubes[..place], cube).map(|earlier| Refusal::CubesMeet { place, earlier })
    });
    meeting.map_or(Ok(()), Err)
}

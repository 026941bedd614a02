// A cover: a table of cubes that has been checked.
ghost use Rattle.std.specs.Prelude.{◌≡◌, ◌≤◌, true, [], is_ok, vec_len};
ghost use Rattle.cover.specs.Tables.{all_good, apart};

use crate::cube::Cube;
use design::Size;

mod answers;
mod build;

// A design of 1 to 16 inputs and 1 to 8 outputs by at most 4,096 good cubes, no two of which meet.
#[derive(Drop)]
pub struct Cover {
    size: Size,
    cubes: Vec<Cube>,
    ghost some_inputs: { 1 ≤ size.inputs },
    ghost few_inputs: { size.inputs ≤ 16 },
    ghost some_outputs: { 1 ≤ size.outputs },
    ghost few_outputs: { size.outputs ≤ 8 },
    ghost few_cubes: { vec_len cubes ≤ 4096 },
    ghost good_cubes: { is_ok (all_good size.inputs size.outputs 0 cubes.items) ≡ true },
    ghost apart_cubes: { is_ok (apart [] cubes.items) ≡ true },
}

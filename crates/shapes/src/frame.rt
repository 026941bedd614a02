// How many inputs and outputs a design made at random has.
ghost use Rattle.std.specs.Prelude.{◌≤◌};

mod rolls;

// 1 to 16 inputs and 1 to 3 outputs.
#[derive(Clone, Copy)]
pub(crate) struct Frame {
    inputs: u32,
    outputs: u32,
    ghost some_inputs: { 1 ≤ inputs },
    ghost few_inputs: { inputs ≤ 16 },
    ghost some_outputs: { 1 ≤ outputs },
    ghost few_outputs: { outputs ≤ 3 },
}

// Covers: designs given by cubes, no two of which meet.
#![tactic(auto)]

mod cover;
mod cube;
mod held;
mod kind;
mod theorems;

pub use cover::Cover;
pub use cube::Cube;
pub use kind::{Kind, NoKind};
pub use theorems::{
    approximation_tallies, cubes_meet_in_a_row, kinds_agree, openings_have_reasons,
    small_cover_figures,
};

#[cfg(test)]
mod tests;

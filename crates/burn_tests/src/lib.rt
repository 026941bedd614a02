// The burn file at its edges, in a crate of its own so that `burn` is not proved twice.
#![tactic(auto)]

#[cfg(test)]
mod tests;

// Designs asked alone and in pairs, in a crate of its own so that no lower crate is proved twice.
#![tactic(auto)]

#[cfg(test)]
mod tests;

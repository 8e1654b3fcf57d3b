//! Two kinds of records that stand in lists, and code over lists of any kind.
#![tactic(auto)]

pub mod moves;
pub mod place;
pub mod profile;
#[cfg(test)]
mod tests;
pub mod write;

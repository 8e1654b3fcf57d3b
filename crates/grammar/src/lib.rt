//! What a driver script is: its lines, words and numbers, its head and its calls, and its first
//! fault, as definitions; and the grammar in its own words, which they are proved to be.
#![tactic(auto)]

pub mod head;
pub mod numbered;

//! The vocabulary of the product: the calls, their answers, the refusals and faults with their
//! numbers, and every word that a script or a report is written with.
#![tactic(auto)]

pub mod answer;
pub mod call;
pub mod fault;
pub mod head;
pub mod named;
pub mod refusal;
pub mod sizes;
pub mod word;

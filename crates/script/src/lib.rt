//! The reader of driver scripts: from any bytes to the head and the calls that they ask for, or to
//! the first fault with its part of the script.
#![tactic(auto)]

mod call;
pub mod calls;
mod cursor;
pub mod fault;
mod head_lines;
mod line;
pub mod lines;
mod number;
pub mod part;
pub mod reader;
mod text;
mod words;

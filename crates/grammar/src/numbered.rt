//! Calls in a script.
use rules::call::Call;

/// A call with the number of its line.
#[derive(Clone, Copy, Debug, PartialEq, Eq)]
pub struct NumberedCall {
    pub line: u32,
    pub call: Call,
}

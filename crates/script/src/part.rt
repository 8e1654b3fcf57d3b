//! Parts of a script, and how long they may be.

/// The most bytes that a script may have.
pub const MAX_SCRIPT: usize = 32_768;

/// The most bytes that a line may have before its end.
pub const MAX_LINE: usize = 80;

/// A part of a script: the place at which it begins, and its bytes.
#[derive(Clone, Copy, Debug, PartialEq, Eq)]
pub struct Part<'a> {
    pub at: usize,
    pub bytes: &'a [u8],
}

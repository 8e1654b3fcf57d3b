//! Texts that are still to be cut.
ghost use Rattle.script.specs.Near.{Near};

use crate::part::Part;

/// A part of a script that is still to be cut into words.
#[derive(Clone, Copy)]
pub(crate) struct Text<'a> {
    pub(crate) part: Part<'a>,
    /// It ends within the longest script, so that no place in it overflows.
    ghost near: { Near part },
}

//! The words of reports other than verbs.
ghost use Rattle.std.specs.Prelude.{Some as Just};
ghost use Rattle.rules.specs.Format.{word_text};

use crate::named::Spelled;
use std::fmt;

/// A word of a report.
#[derive(Clone, Copy, Debug, PartialEq, Eq)]
pub enum Word {
    /// A waiting part: the work does not wait.
    Idle,
    /// A waiting part: the work waits for its due tick.
    Delayed,
    /// A waiting part: the work waits for the pool to fall below its limit.
    Held,
    /// A waiting part: the work waits for a start.
    Queued,
    /// A ticket that can be collected.
    Ready,
    /// A ticket that cannot be collected yet.
    Waiting,
    /// The call was accepted.
    Ok,
    /// The call was refused.
    No,
    /// The script has been run to its end.
    Over,
    /// The last line of a report.
    End,
    /// A script that is not admitted.
    Fault,
}

impl Spelled for Word {
    ghost spelling = { word_text };

    fn text(self) -> &'static str {
        match self {
            Word::Idle => "idle",
            Word::Delayed => "delayed",
            Word::Held => "held",
            Word::Queued => "queued",
            Word::Ready => "ready",
            Word::Waiting => "waiting",
            Word::Ok => "ok",
            Word::No => "no",
            Word::Over => "over",
            Word::End => "end",
            Word::Fault => "fault",
        }
    }
}

impl fmt::Display for Word {
    ghost output = { λ word. Just (word_text word) };

    fn fmt<W: fmt::Write>(&self, f: &mut fmt::Formatter<W>) -> fmt::Result {
        f.write_str(self.text())
    }
}

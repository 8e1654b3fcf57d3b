//! What can be wrong with a script, and with the buffer that its report is written to.
ghost use Rattle.std.specs.Prelude.{◌≡◌};
ghost use Rattle.rules.specs.declared.fault.FaultKind.TheVariants.{Refused};
ghost use Rattle.rules.specs.Format.{fault_number};

use crate::refusal::Refusal;

/// The kind of a fault. Each has a number, by which reports name it.
#[derive(Clone, Copy, Debug, PartialEq, Eq)]
pub enum FaultKind {
    /// The script is longer than a script may be.
    ScriptTooLong,
    /// A line is longer than a line may be.
    LineTooLong,
    /// The first word of a line is no verb of its place, or the script ends within its head.
    UnknownVerb,
    /// A line has too few or too many words.
    WordCount,
    /// A word is not the number or the name that is due there.
    BadWord,
    /// The buffer has too few free bytes for another line of the report.
    BufferFull,
    /// The engine that the head asks for is refused.
    Refused(Refusal),
}

/// A refusal as the fault that carries it.
impl From<Refusal> for FaultKind {
    ghost from_gives = { λ refusal kind. kind ≡ Refused refusal };

    fn from(refusal: Refusal) -> FaultKind {
        FaultKind::Refused(refusal)
    }
}

/// The number of the fault. One that carries a refusal has the refusal's number.
impl From<FaultKind> for u8 {
    ghost from_gives = { λ kind n. n ≡ fault_number kind };

    fn from(kind: FaultKind) -> u8 {
        match kind {
            FaultKind::ScriptTooLong => 31,
            FaultKind::LineTooLong => 32,
            FaultKind::UnknownVerb => 33,
            FaultKind::WordCount => 34,
            FaultKind::BadWord => 35,
            FaultKind::BufferFull => 36,
            FaultKind::Refused(inner) => u8::from(inner),
        }
    }
}

//! What is wrong with a script, and which part of it.
ghost use Rattle.std.specs.Prelude.{◌≡◌};
ghost use Rattle.script.specs.declared.fault.LineFault.TheVariants.{Count, Word, Refused};
ghost use Rattle.script.specs.Parts.{piece_of, blame_of, failure_of};
ghost use Rattle.script.specs.Lines.{row_of};
ghost use Rattle.grammar.specs.Faults.{in_row};

use crate::lines::NumberedLine;
use crate::part::Part;
use rules::fault::FaultKind;
use rules::refusal::Refusal;

/// The fault of a script: its kind, the number of the line, and the part of the script at fault, if
/// there is one.
#[derive(Clone, Copy, Debug, PartialEq, Eq)]
pub struct Fault<'a> {
    pub kind: FaultKind,
    pub line: u32,
    pub part: Option<Part<'a>>,
}

/// A word that is not the number or the name that is due there.
#[derive(Clone, Copy)]
pub(crate) struct WordFault<'a> {
    pub(crate) word: Part<'a>,
}

/// A line has too few or too many words.
#[derive(Clone, Copy)]
pub(crate) struct WrongCount;

/// What is wrong with a line.
#[derive(Clone, Copy)]
pub(crate) enum LineFault<'a> {
    /// Its first word is no verb of its place.
    Verb(Part<'a>),
    /// It has too few or too many words.
    Count,
    /// A word is not what is due there.
    Word(WordFault<'a>),
    /// The engine that it asks for is refused.
    Refused(Refusal),
}

impl<'a> From<WrongCount> for LineFault<'a> {
    ghost from_gives = { λ e r. r ≡ Count };

    fn from(_e: WrongCount) -> LineFault<'a> {
        LineFault::Count
    }
}

impl<'a> From<WordFault<'a>> for LineFault<'a> {
    ghost from_gives = { λ e r. r ≡ Word e };

    fn from(e: WordFault<'a>) -> LineFault<'a> {
        LineFault::Word(e)
    }
}

impl<'a> From<Refusal> for LineFault<'a> {
    ghost from_gives = { λ e r. r ≡ Refused e };

    fn from(e: Refusal) -> LineFault<'a> {
        LineFault::Refused(e)
    }
}

impl<'a> LineFault<'a> {
    /// The fault of the script, where this is its line.
    pub(crate) fn in_line(self, line: NumberedLine<'a>) -> Fault<'a>
        ensures { failure_of result ≡ in_row (row_of line.entry) (blame_of (piece_of line.entry.text.part) self.entry) }
    {
        let (kind, part) = match self {
            LineFault::Verb(word) => (FaultKind::UnknownVerb, word),
            LineFault::Count => (FaultKind::WordCount, line.text.part),
            LineFault::Word(fault) => (FaultKind::BadWord, fault.word),
            LineFault::Refused(refusal) => (FaultKind::from(refusal), line.text.part),
        };
        Fault {
            kind,
            line: line.number,
            part: Some(part),
        }
    }
}

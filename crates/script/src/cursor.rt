//! Going through the lines of a script.
ghost use Rattle.std.specs.Prelude.{◌≡◌, ◌<◌, ◌≤◌, length};
ghost use Rattle.script.specs.Lines.{Fresh, Next, row_of};
ghost use Rattle.script.specs.Kept.{Kept};
ghost use Rattle.script.specs.Parts.{failure_of};
ghost use Rattle.grammar.specs.Reading.{too_long};

use crate::fault::Fault;
use crate::line::{Line, find, line_of};
use crate::lines::{Lines, NumberedLine, WordLine};
use crate::part::{MAX_LINE, Part};
use crate::text::Text;
use rules::fault::FaultKind;

impl<'a> Lines<'a> {
    /// The lines of a script, from its first one on.
    pub(crate) fn new(script: &'a [u8]) -> Lines<'a>
        requires { length script.now ≤ 32768 }
        ensures { Fresh script.now result }
    {
        Lines {
            script,
            at: 0,
            count: 0,
            skipped: 0,
        }
    }

    /// The next line, skipped or not.
    pub(crate) fn next_line(&mut self) -> Option<NumberedLine<'a>>
        ensures { Next self.old result self.new }
    {
        let script = self.script;
        let at = self.at;
        if at == script.len() {
            return None;
        }
        let rest = &script[at..];
        let n = find(rest, b'\n');
        let bytes = &rest[..n];
        self.count += 1;
        self.at = (at + n + 1).min(script.len());
        Some(NumberedLine {
            number: self.count,
            text: Text {
                part: Part { at, bytes },
            },
        })
    }

    /// The next line that is not skipped; none at the end. A line that is too long is a fault,
    /// skipped or not.
    pub(crate) fn next_words(&mut self) -> Result<Option<WordLine<'a>>, Fault<'a>>
        ensures { Kept self.old result self.new }
    {
        while let Some(line) = self.next_line() {
            if line.text.part.bytes.len() > MAX_LINE {
                return Err(too_long(line));
            }
            match line_of(line.text) {
                Line::Words(first, rest) => return Ok(Some(WordLine { line, first, rest })),
                Line::Empty | Line::Comment(_) => self.skipped += 1,
            }
        }
        Ok(None)
    }
}

/// The fault of a line that is too long: its first 80 bytes are at fault.
fn too_long<'a>(line: NumberedLine<'a>) -> Fault<'a>
    requires { 80 < length line.text.part.bytes.now }
    ensures { failure_of result ≡ too_long (row_of line.entry) }
{
    let part = Part {
        at: line.text.part.at,
        bytes: &line.text.part.bytes[0..MAX_LINE],
    };
    Fault {
        kind: FaultKind::LineTooLong,
        line: line.number,
        part: Some(part),
    }
}

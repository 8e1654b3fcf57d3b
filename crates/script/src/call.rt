//! The lines of the body of a script.
ghost use Rattle.std.specs.Prelude.{◌≡◌};
ghost use Rattle.grammar.specs.Calls.{call_with, call_in};
ghost use Rattle.script.specs.CallLines.{Shaped, line_verb, line_words};
ghost use Rattle.script.specs.Parts.{piece_of, words_left, told_word, told_line};

use crate::fault::{LineFault, WordFault, WrongCount};
use crate::lines::WordLine;
use crate::number::number;
use crate::part::Part;
use crate::words::Words;
use rules::call::{Call, Verb};
use rules::named::Named;

/// A line of the body: its verb, with as many words as the verb takes, in their order. The words are
/// parts of the script, and not yet known to be numbers.
#[derive(Clone, Copy)]
pub(crate) enum CallLine<'a> {
    Queue(Part<'a>, Part<'a>),
    Delay(Part<'a>, Part<'a>, Part<'a>),
    Advance(Part<'a>),
    Start(Part<'a>),
    Sleep(Part<'a>),
    Wake(Part<'a>),
    Finish(Part<'a>),
    Cancel(Part<'a>),
    Limit(Part<'a>, Part<'a>),
    Flush,
    Collect(Part<'a>),
    Close,
}

/// The line of a verb and the words behind it.
fn call_line<'a>(verb: Verb, mut words: Words<'a>) -> Result<CallLine<'a>, WrongCount>
    ensures { Shaped verb (words_left words.entry) result }
{
    let line = match verb {
        Verb::Queue => CallLine::Queue(words.due()?, words.due()?),
        Verb::Delay => CallLine::Delay(words.due()?, words.due()?, words.due()?),
        Verb::Advance => CallLine::Advance(words.due()?),
        Verb::Start => CallLine::Start(words.due()?),
        Verb::Sleep => CallLine::Sleep(words.due()?),
        Verb::Wake => CallLine::Wake(words.due()?),
        Verb::Finish => CallLine::Finish(words.due()?),
        Verb::Cancel => CallLine::Cancel(words.due()?),
        Verb::Limit => CallLine::Limit(words.due()?, words.due()?),
        Verb::Flush => CallLine::Flush,
        Verb::Collect => CallLine::Collect(words.due()?),
        Verb::Close => CallLine::Close,
    };
    words.end()?;
    Ok(line)
}

impl<'a> CallLine<'a> {
    /// The call that the line asks for.
    fn call(self) -> Result<Call, WordFault<'a>>
        ensures { told_word result ≡ call_with (line_verb self.entry) (line_words self.entry) }
    {
        Ok(match self {
            CallLine::Queue(work, pool) => Call::Queue {
                work: number(work)?,
                pool: number(pool)?,
            },
            CallLine::Delay(work, pool, ticks) => Call::Delay {
                work: number(work)?,
                pool: number(pool)?,
                ticks: number(ticks)?,
            },
            CallLine::Advance(tick) => Call::Advance {
                tick: number(tick)?,
            },
            CallLine::Start(pool) => Call::Start {
                pool: number(pool)?,
            },
            CallLine::Sleep(work) => Call::Sleep {
                work: number(work)?,
            },
            CallLine::Wake(work) => Call::Wake {
                work: number(work)?,
            },
            CallLine::Finish(work) => Call::Finish {
                work: number(work)?,
            },
            CallLine::Cancel(work) => Call::Cancel {
                work: number(work)?,
            },
            CallLine::Limit(pool, limit) => Call::Limit {
                pool: number(pool)?,
                limit: number(limit)?,
            },
            CallLine::Flush => Call::Flush,
            CallLine::Collect(place) => Call::Collect {
                place: number(place)?,
            },
            CallLine::Close => Call::Close,
        })
    }
}

/// The call that a line of the body asks for.
pub(crate) fn read_call<'a>(line: WordLine<'a>) -> Result<Call, LineFault<'a>>
    ensures { told_line (piece_of line.entry.line.text.part) result ≡ call_in (piece_of line.entry.line.text.part) }
{
    let verb = Verb::named(line.first.bytes).ok_or(LineFault::Verb(line.first))?;
    let call = call_line(verb, line.rest)?.call()?;
    Ok(call)
}

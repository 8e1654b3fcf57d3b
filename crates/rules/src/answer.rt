//! What an accepted call answers.
ghost use Rattle.std.specs.Prelude.{◌≡◌};
ghost use Rattle.rules.specs.Format.{line_word, waited_word, promise_word};

use crate::word::Word;

/// The line of a pool that a work entered.
#[derive(Clone, Copy, Debug, PartialEq, Eq)]
pub enum Line {
    /// The line of works that the pool's limit keeps back.
    Held,
    /// The line of works that may start.
    Queued,
}

/// What a cancelled work was waiting as.
#[derive(Clone, Copy, Debug, PartialEq, Eq)]
pub enum Waited {
    /// It waited for its due tick.
    Delayed,
    /// It stood in a held line.
    Held,
    /// It stood in a queued line.
    Queued,
}

/// What a flush says of its ticket.
#[derive(Clone, Copy, Debug, PartialEq, Eq)]
pub enum Promise {
    /// The ticket can be collected.
    Ready,
    /// The ticket cannot be collected yet.
    Waiting,
}

/// The answer of an accepted call.
#[derive(Clone, Copy, Debug, PartialEq, Eq)]
pub enum Answer {
    /// Of queue, and of delay with 0 ticks: the pool and the line that the work entered.
    Entered { pool: u32, line: Line },
    /// Of delay: the due tick.
    Due { tick: u32 },
    /// Of advance: how many works entered a pool.
    Arrived { works: u32 },
    /// Of start: the work that started.
    Started { work: u32 },
    /// Of sleep.
    Slept,
    /// Of wake.
    Woken,
    /// Of finish: how many tickets became ready.
    Finished { ready: u32 },
    /// Of cancel: what the work was, and how many tickets became ready.
    Cancelled { was: Waited, ready: u32 },
    /// Of limit: how many works left the held line.
    Limited { moved: u32 },
    /// Of flush: the ticket's place, and whether it is ready.
    Flushed { place: u32, promise: Promise },
    /// Of collect.
    Collected,
    /// Of close.
    Closed,
}

/// The word that names the line.
impl From<Line> for Word {
    ghost from_gives = { λ line word. word ≡ line_word line };

    fn from(line: Line) -> Word {
        match line {
            Line::Held => Word::Held,
            Line::Queued => Word::Queued,
        }
    }
}

/// The word that names what the work was.
impl From<Waited> for Word {
    ghost from_gives = { λ waited word. word ≡ waited_word waited };

    fn from(waited: Waited) -> Word {
        match waited {
            Waited::Delayed => Word::Delayed,
            Waited::Held => Word::Held,
            Waited::Queued => Word::Queued,
        }
    }
}

/// The word that names the promise.
impl From<Promise> for Word {
    ghost from_gives = { λ promise word. word ≡ promise_word promise };

    fn from(promise: Promise) -> Word {
        match promise {
            Promise::Ready => Word::Ready,
            Promise::Waiting => Word::Waiting,
        }
    }
}

//! The twelve calls and their verbs.
ghost use Rattle.std.specs.Prelude.{◌≡◌, Some as Just};
ghost use Rattle.std.proofs.Common.{rules};
ghost use Rattle.rules.specs.Format.{verb_index, verb_of, verb_text, verbs};

use crate::named::{Named, Spelled};
use std::fmt;

/// The verb of a call, as a script writes it.
#[derive(Clone, Copy, Debug, PartialEq, Eq)]
pub enum Verb {
    Queue,
    Delay,
    Advance,
    Start,
    Sleep,
    Wake,
    Finish,
    Cancel,
    Limit,
    Flush,
    Collect,
    Close,
}

/// A call with its numbers. Any numbers can be written down: a call that does not fit is refused
/// when it is made.
#[derive(Clone, Copy, Debug, PartialEq, Eq)]
pub enum Call {
    /// A work enters a pool.
    Queue { work: u32, pool: u32 },
    /// A work enters a pool after so many ticks.
    Delay { work: u32, pool: u32, ticks: u32 },
    /// The clock moves on to a tick.
    Advance { tick: u32 },
    /// A queued work of the pool starts.
    Start { pool: u32 },
    /// A running work goes to sleep.
    Sleep { work: u32 },
    /// A sleeping work wakes.
    Wake { work: u32 },
    /// The run of a work ends.
    Finish { work: u32 },
    /// A waiting work is withdrawn.
    Cancel { work: u32 },
    /// A pool takes another limit.
    Limit { pool: u32, limit: u32 },
    /// A ticket is asked for.
    Flush,
    /// The ticket at a place is given back.
    Collect { place: u32 },
    /// The engine is shut.
    Close,
}

impl Verb {
    /// The twelve verbs, in the order in which reports list them.
    pub const ALL: [Verb; 12] = [
        Verb::Queue,
        Verb::Delay,
        Verb::Advance,
        Verb::Start,
        Verb::Sleep,
        Verb::Wake,
        Verb::Finish,
        Verb::Cancel,
        Verb::Limit,
        Verb::Flush,
        Verb::Collect,
        Verb::Close,
    ];
}

/// The place of the verb among the twelve.
impl From<Verb> for usize {
    ghost from_gives = { λ verb n. n ≡ verb_index verb };

    fn from(verb: Verb) -> usize {
        verb as usize
    }
}

impl Spelled for Verb {
    ghost spelling = { verb_text };

    fn text(self) -> &'static str {
        match self {
            Verb::Queue => "queue",
            Verb::Delay => "delay",
            Verb::Advance => "advance",
            Verb::Start => "start",
            Verb::Sleep => "sleep",
            Verb::Wake => "wake",
            Verb::Finish => "finish",
            Verb::Cancel => "cancel",
            Verb::Limit => "limit",
            Verb::Flush => "flush",
            Verb::Collect => "collect",
            Verb::Close => "close",
        }
    }
}

impl fmt::Display for Verb {
    ghost output = { λ verb. Just (verb_text verb) };

    fn fmt<W: fmt::Write>(&self, f: &mut fmt::Formatter<W>) -> fmt::Result {
        f.write_str(self.text())
    }
}

impl Named for Verb {
    ghost values = { verbs };

    ghost read_back = { Prim.search rules };

    fn all() -> &'static [Verb] {
        &Verb::ALL
    }
}

impl Call {
    /// The verb of the call.
    pub fn verb(&self) -> Verb
        ensures { result ≡ verb_of self.now }
    {
        match self {
            Call::Queue { .. } => Verb::Queue,
            Call::Delay { .. } => Verb::Delay,
            Call::Advance { .. } => Verb::Advance,
            Call::Start { .. } => Verb::Start,
            Call::Sleep { .. } => Verb::Sleep,
            Call::Wake { .. } => Verb::Wake,
            Call::Finish { .. } => Verb::Finish,
            Call::Cancel { .. } => Verb::Cancel,
            Call::Limit { .. } => Verb::Limit,
            Call::Flush => Verb::Flush,
            Call::Collect { .. } => Verb::Collect,
            Call::Close => Verb::Close,
        }
    }
}

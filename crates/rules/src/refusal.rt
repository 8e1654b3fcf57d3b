//! Why a call, or the making of an engine, is refused.
ghost use Rattle.std.specs.Prelude.{◌≡◌};
ghost use Rattle.rules.specs.Format.{refusal_number};

/// A refusal. Each has a number, by which reports name it.
#[derive(Clone, Copy, Debug, PartialEq, Eq)]
pub enum Refusal {
    /// The engine is shut.
    Shut = 1,
    /// The work's number is not below the number of works.
    NoSuchWork = 2,
    /// The pool's number is not below the number of pools.
    NoSuchPool = 3,
    /// The work's waiting part is not idle.
    AlreadyWaiting = 4,
    /// The due tick lies past the last tick of the clock.
    DueTooLate = 5,
    /// The delay store is full.
    StoreFull = 6,
    /// The tick lies before the clock.
    TickInPast = 7,
    /// No queued work of the pool could start.
    NothingToStart = 8,
    /// The policy does not permit a start.
    NotPermitted = 9,
    /// The work is not awake.
    NotAwake = 10,
    /// The work is not asleep.
    NotAsleep = 11,
    /// The work's waiting part is idle.
    NotWaiting = 12,
    /// The limit is not 1 to 512.
    LimitOutOfRange = 13,
    /// No ticket place is free.
    NoFreePlace = 14,
    /// The place's number is not below the number of places, or no ticket is out there.
    NoTicketOut = 15,
    /// The ticket is not ready.
    TicketNotReady = 16,
    /// A work waits or runs, or a ticket is out.
    StillBusy = 17,
    /// At making: the number of works, pools or ticket places is out of its range.
    SizeOutOfRange = 18,
    /// At making: the cap is not 1 to 255.
    CapOutOfRange = 19,
}

/// The number of the refusal.
impl From<Refusal> for u8 {
    ghost from_gives = { λ refusal n. n ≡ refusal_number refusal };

    fn from(refusal: Refusal) -> u8 {
        refusal as u8
    }
}

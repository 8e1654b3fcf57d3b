//! The numbers with which an engine is made, and their ranges.
ghost use Rattle.std.specs.Prelude.{◌≡◌};
ghost use Rattle.rules.specs.Sizes.{capped, sized, within};

use crate::refusal::Refusal;

/// How large an engine is.
#[derive(Clone, Copy, Debug, PartialEq, Eq)]
pub struct Sizes {
    /// How many works it has: 1 to 256.
    pub works: u32,
    /// How many pools it has: 1 to 8.
    pub pools: u32,
    /// How many ticket places it has: 1 to 64.
    pub places: u32,
}

impl Sizes {
    /// The three numbers as sizes; refused where one is out of its range.
    pub fn new(works: u32, pools: u32, places: u32) -> Result<Sizes, Refusal>
        ensures { result ≡ sized works pools places }
    {
        if is_within(works, 256) && is_within(pools, 8) && is_within(places, 64) {
            Ok(Sizes {
                works,
                pools,
                places,
            })
        } else {
            Err(Refusal::SizeOutOfRange)
        }
    }
}

/// Whether a number lies in 1 to `most`.
fn is_within(n: u32, most: u32) -> bool
    ensures { result ≡ within 1 most n }
{
    (1..=most).contains(&n)
}

/// A number as the bound of a cap; refused where it is not 1 to 255.
pub fn cap_bound(bound: u32) -> Result<u8, Refusal>
    ensures { result ≡ capped bound }
{
    match u8::try_from(bound) {
        Ok(cap) if cap > 0 => Ok(cap),
        _ => Err(Refusal::CapOutOfRange),
    }
}

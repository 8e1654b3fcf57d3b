//! Numbers as words.
ghost use Rattle.std.specs.Prelude.{◌≡◌, ℕ, ◌^◌, ◌<◌, decimal, MatchOption, ◌≢◌};
ghost use Rattle.grammar.specs.Calls.{number_in};
ghost use Rattle.grammar.specs.Numbers.{number_of, read_on};
ghost use Rattle.script.specs.Parts.{piece_of, told_word};

use crate::fault::WordFault;
use crate::part::Part;

/// The number that the digits of `word` make after those of `n`.
fn read_on(n: u32, word: &[u8]) -> Option<u32>
    ensures { result ≡ read_on n word.now }
{
    match word {
        [] => Some(n),
        [d @ b'0'..=b'9', rest @ ..] => {
            read_on(n.checked_mul(10)?.checked_add(u32::from(*d - b'0'))?, rest)
        }
        _ => None,
    }
}

/// The number that a word writes: decimal, from 0 to 4,294,967,295, with no leading 0 but in 0
/// itself. A word writes n exactly if it is the decimal of n.
pub(crate) fn number_of(word: &[u8]) -> Option<u32>
    ensures value { result ≡ number_of word.now }
    ensures exact { MatchOption result ((n : ℕ) → n < 2 ^ 32 → word.now ≢ decimal n) (λ n. (n < 2 ^ 32) × (word.now ≡ decimal n)) }
{
    match word {
        [] => None,
        [b'0'] => Some(0),
        [b'0', ..] => None,
        _ => read_on(0, word),
    }
}

/// The number due at a word.
pub(crate) fn number<'a>(word: Part<'a>) -> Result<u32, WordFault<'a>>
    ensures { told_word result ≡ number_in (piece_of word.entry) }
{
    number_of(word.bytes).ok_or(WordFault { word })
}

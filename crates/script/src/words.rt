//! The words of a text, one after another.
ghost use Rattle.std.specs.Prelude.{◌≡◌, ◌<◌, [], ◌∷◌, length, MatchResult};
ghost use Rattle.grammar.specs.Text.{words_in};
ghost use Rattle.script.specs.Parts.{piece_of, words_left};

use crate::fault::WrongCount;
use crate::line::find;
use crate::part::Part;
use crate::text::Text;

/// The words that are left of a line: those of what stands behind a space, if one was there.
#[derive(Clone, Copy)]
pub(crate) struct Words<'a> {
    left: Option<Text<'a>>,
}

impl<'a> Words<'a> {
    /// The next word; that none is left is a wrong count.
    pub(crate) fn due(&mut self) -> Result<Part<'a>, WrongCount>
        ensures { MatchResult result (λ word. words_left self.old ≡ piece_of word ∷ words_left self.new) (λ _. words_left self.old ≡ []) }
    {
        let (word, behind) = cut(self.left.ok_or(WrongCount)?);
        *self = behind;
        Ok(word)
    }

    /// That no word is left; one that is left is a wrong count.
    #[tactic(auto, using(crate::proofs::Cutting::some_left))]
    pub(crate) fn end(self) -> Result<(), WrongCount>
        ensures { MatchResult result (λ _. words_left self.entry ≡ []) (λ _. 0 < length (words_left self.entry)) }
    {
        match self.left {
            None => Ok(()),
            Some(_) => Err(WrongCount),
        }
    }
}

/// The first word of a text, and the words behind it.
#[tactic(auto, using(crate::proofs::Cutting::cut_last, crate::proofs::Cutting::cut_more))]
pub(crate) fn cut<'a>(text: Text<'a>) -> (Part<'a>, Words<'a>)
    ensures { words_in (piece_of text.entry.part) ≡ piece_of result.0 ∷ words_left result.1 }
{
    let Part { at, bytes } = text.part;
    let n = find(bytes, b' ');
    let first = Part {
        at,
        bytes: &bytes[..n],
    };
    if n == bytes.len() {
        return (first, Words { left: None });
    }
    let rest = Part {
        at: at + n + 1,
        bytes: &bytes[n + 1..],
    };
    let left = Some(Text { part: rest });
    (first, Words { left })
}

//! The three lines of the head of a script.
ghost use Rattle.std.specs.Prelude.{◌≡◌};
ghost use Rattle.std.specs.Option.{ok_or};
ghost use Rattle.grammar.specs.Heads.{engine_in, policy_in, store_in};
ghost use Rattle.rules.specs.Names.{first_named};
ghost use Rattle.script.specs.HeadLines.{HeadRest};
ghost use Rattle.script.specs.Parts.{piece_of, told_word, told_line};

use crate::fault::{LineFault, WordFault};
use crate::lines::WordLine;
use crate::number::number;
use crate::part::Part;
use crate::words::Words;
use rules::head::{HeadVerb, PolicyName, StoreName};
use rules::named::{Named, Spelled};
use rules::sizes::{Sizes, cap_bound};

/// The words behind the verb that is due on a line of the head.
fn head_rest<'a>(line: WordLine<'a>, verb: HeadVerb) -> Result<Words<'a>, LineFault<'a>>
    ensures { HeadRest line.entry verb result }
{
    if verb.is_named(line.first.bytes) {
        Ok(line.rest)
    } else {
        Err(LineFault::Verb(line.first))
    }
}

/// The value that a word names.
fn name<'a, T: Named>(word: Part<'a>) -> Result<T, WordFault<'a>>
    ensures { told_word result ≡ ok_or (first_named T.spelling T.values word.entry.bytes.now) (piece_of word.entry) }
{
    T::named(word.bytes).ok_or(WordFault { word })
}

/// `engine W P F`: how many works, pools and ticket places.
pub(crate) fn read_engine<'a>(line: WordLine<'a>) -> Result<Sizes, LineFault<'a>>
    ensures { told_line (piece_of line.entry.line.text.part) result ≡ engine_in (piece_of line.entry.line.text.part) }
{
    let mut words = head_rest(line, HeadVerb::Engine)?;
    let works = words.due()?;
    let pools = words.due()?;
    let places = words.due()?;
    words.end()?;
    let sizes = Sizes::new(number(works)?, number(pools)?, number(places)?)?;
    Ok(sizes)
}

/// `policy N B`: the policy and the cap over it.
pub(crate) fn read_policy<'a>(line: WordLine<'a>) -> Result<(PolicyName, u8), LineFault<'a>>
    ensures { told_line (piece_of line.entry.line.text.part) result ≡ policy_in (piece_of line.entry.line.text.part) }
{
    let mut words = head_rest(line, HeadVerb::Policy)?;
    let policy = words.due()?;
    let bound = words.due()?;
    words.end()?;
    let policy = name(policy)?;
    let cap = cap_bound(number(bound)?)?;
    Ok((policy, cap))
}

/// `store S`: the delay store.
pub(crate) fn read_store<'a>(line: WordLine<'a>) -> Result<StoreName, LineFault<'a>>
    ensures { told_line (piece_of line.entry.line.text.part) result ≡ store_in (piece_of line.entry.line.text.part) }
{
    let mut words = head_rest(line, HeadVerb::Store)?;
    let store = words.due()?;
    words.end()?;
    let store = name(store)?;
    Ok(store)
}

//! The calls of a script, one after another.
ghost use Rattle.std.specs.Prelude.{◌≡◌};
ghost use Rattle.std.specs.Iterator.{YieldsFirst, item_count};
ghost use Rattle.grammar.specs.Reading.{rows_behind, calls_of};
ghost use Rattle.script.specs.Lines.{rows_left};
ghost use Rattle.script.specs.CallsLeft.{calls_left, NextCall};

use crate::lines::{Calls, Lines};
use crate::part::MAX_SCRIPT;
use grammar::numbered::NumberedCall;

/// The lines behind the next one that is not skipped; none if there is no such line, or a fault
/// before it.
fn behind_line<'a>(lines: Lines<'a>) -> Lines<'a>
    ensures { rows_left result ≡ rows_behind (rows_left lines.entry) }
{
    let mut rest = lines;
    match rest.next_words() {
        Ok(Some(_)) => rest,
        _ => Lines::new(&[]),
    }
}

/// The calls of a script, which stand behind its head. Those of a script that is not admitted end
/// before its first fault.
pub fn calls<'a>(script: &'a [u8]) -> Calls<'a>
    ensures { calls_left result ≡ calls_of script.now }
{
    if script.len() > MAX_SCRIPT {
        return Calls {
            lines: Lines::new(&[]),
        };
    }
    let body = behind_line(behind_line(behind_line(Lines::new(script))));
    Calls { lines: body }
}

impl<'a> Calls<'a> {
    /// The next call with the number of its line; none at the end, and then again none.
    pub fn next_call(&mut self) -> Option<NumberedCall>
        ensures { NextCall self.old result self.new }
    {
        let mut lines = self.lines;
        let call = lines.next_call().ok().flatten()?;
        self.lines = lines;
        Some(call)
    }
}

/// The calls in order, each with the number of its line.
impl<'a> Iterator for Calls<'a> {
    type Item = NumberedCall;

    ghost next_gives = { YieldsFirst calls_left };

    ghost remaining = { item_count calls_left };

    fn next(&mut self) -> Option<NumberedCall> {
        self.next_call()
    }
}

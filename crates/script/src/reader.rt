//! The reader of whole scripts.
ghost use Rattle.std.specs.Prelude.{◌≡◌, List, IfErr, IfSome, MatchResult};
ghost use Rattle.grammar.specs.Grammar.{Admitted};
ghost use Rattle.grammar.specs.Places.{PartStands};
ghost use Rattle.grammar.specs.Reading.{calls_of};
ghost use Rattle.grammar.specs.Faults.{in_row, passed};
ghost use Rattle.script.specs.Lines.{row_of};
ghost use Rattle.script.specs.Near.{Near};
ghost use Rattle.script.specs.Parts.{piece_of, told, told_line, failure_of};
ghost use Rattle.script.specs.Outcome.{HeadNext, HeadRead, CallRead, Checked, Outcome, okay};

use crate::call::read_call;
use crate::fault::{Fault, LineFault};
use crate::head_lines::{read_engine, read_policy, read_store};
use crate::lines::{Lines, NumberedLine, Outline, WordLine};
use crate::part::MAX_SCRIPT;
use grammar::head::Head;
use grammar::numbered::NumberedCall;
use rules::fault::FaultKind;

/// What was read of a line, with a fault of the line as one of the script.
fn located<'a, T>(line: NumberedLine<'a>, read: Result<T, LineFault<'a>>) -> Result<T, Fault<'a>>
    ensures { told failure_of result ≡ passed (in_row (row_of line.entry)) (told_line (piece_of line.entry.text.part) read.entry) okay }
{
    match read {
        Ok(value) => Ok(value),
        Err(fault) => Err(fault.in_line(line)),
    }
}

/// The next line of the head, within which the script must not end.
fn head_line<'a>(lines: &mut Lines<'a>) -> Result<WordLine<'a>, Fault<'a>>
    ensures { HeadNext lines.old result lines.new }
{
    lines.next_words()?.ok_or(Fault {
        kind: FaultKind::UnknownVerb,
        line: lines.count + 1,
        part: None,
    })
}

impl<'a> Lines<'a> {
    /// The next call with the number of its line; none at the end.
    #[tactic(auto, using(crate::proofs::Checking::line_fails, crate::proofs::Checking::call_fails))]
    pub(crate) fn next_call(&mut self) -> Result<Option<NumberedCall>, Fault<'a>>
        ensures { CallRead self.old result self.new }
    {
        let Some(line) = self.next_words()? else {
            return Ok(None);
        };
        let call = located(line.line, read_call(line))?;
        Ok(Some(NumberedCall {
            line: line.line.number,
            call,
        }))
    }

    /// Reads calls up to the end of the script, in search of a fault.
    #[tactic(auto, using(crate::proofs::Checking::checking_more))]
    fn check_calls(&mut self) -> Result<(), Fault<'a>>
        ensures { Checked self.old result self.new }
    {
        while let Some(_) = self.next_call()? {}
        Ok(())
    }
}

/// Reads the head.
fn read_head<'a>(lines: &mut Lines<'a>) -> Result<Head, Fault<'a>>
    ensures { HeadRead lines.old result lines.new }
{
    let first = head_line(lines)?;
    let sizes = located(first.line, read_engine(first))?;
    let second = head_line(lines)?;
    let (policy, cap) = located(second.line, read_policy(second))?;
    let third = head_line(lines)?;
    let store = located(third.line, read_store(third))?;
    Ok(Head {
        sizes,
        policy,
        cap,
        store,
    })
}

/// Reads a script: its head and the count of its skipped lines if it is admitted, and otherwise its
/// first fault. A script is admitted exactly if it is of the grammar, and the part of a fault is
/// what stands in the script at its place.
pub fn read<'a>(script: &'a [u8]) -> Result<Outline, Fault<'a>>
    ensures outcome { Outcome script.now result }
    ensures grammar { MatchResult result (λ o. Admitted script.now o.head (calls_of script.now)) (λ _. (h : Head) (cs : List NumberedCall) → Admitted script.now h cs → ⊥) }
    ensures part { IfErr result (λ f. PartStands script.now (failure_of f)) }
    ensures near { IfErr result (λ f. IfSome f.part Near) }
{
    if script.len() > MAX_SCRIPT {
        return Err(Fault {
            kind: FaultKind::ScriptTooLong,
            line: 0,
            part: None,
        });
    }
    let mut lines = Lines::new(script);
    let head = read_head(&mut lines)?;
    lines.check_calls()?;
    Ok(Outline {
        head,
        skipped: lines.skipped,
    })
}

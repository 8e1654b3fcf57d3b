//! The report on a driver script: the lines on its head, its calls and its skipped lines, or the one
//! line on its first fault.
#![tactic(auto)]

ghost use Rattle.std.specs.Prelude.{◌≡◌, ℕ, ◌<◌, ◌++◌, IfOk, OnOk, string_bytes, slice_index};
ghost use Rattle.script.specs.CallsLeft.{calls_left};
ghost use Rattle.script.specs.Parts.{failure_of};
ghost use Rattle.report.specs.Report.{count_at, sizes_report, head_report, calls_report, admitted_report, fault_report, report_on};

use grammar::head::Head;
use rules::call::Verb;
use rules::sizes::Sizes;
use rules::word::Word;
use script::calls::calls;
use script::fault::Fault;
use script::lines::{Calls, Outline};
use script::reader::read;
use std::alloc::{AllocError, Global};

/// Writes the report on a faulty script at the end of the text: one line with the number of the
/// fault and the number of its line.
fn write_fault(text: &mut String, fault: Fault) -> Result<(), AllocError>
    ensures { OnOk result (string_bytes text.new ≡ string_bytes text.old ++ fault_report (failure_of fault.entry)) }
{
    writeln!(
        text,
        "{} {} line {}",
        Word::Fault,
        u8::from(fault.kind),
        fault.line
    )
}

/// Writes the lines on the sizes of the engine at the end of the text.
fn write_sizes(text: &mut String, sizes: Sizes) -> Result<(), AllocError>
    ensures { OnOk result (string_bytes text.new ≡ string_bytes text.old ++ sizes_report sizes) }
{
    writeln!(
        text,
        "works {}\npools {}\nplaces {}",
        sizes.works, sizes.pools, sizes.places
    )
}

/// Writes the lines on the head of a script at the end of the text.
fn write_head(text: &mut String, head: Head) -> Result<(), AllocError>
    ensures { OnOk result (string_bytes text.new ≡ string_bytes text.old ++ head_report head) }
{
    write_sizes(text, head.sizes)?;
    writeln!(
        text,
        "policy {}\ncap {}\nstore {}",
        head.policy, head.cap, head.store
    )
}

/// How many of the calls have each verb, by the place of the verb.
fn tally(calls: Calls) -> [u32; 12]
    ensures { (k : ℕ) → k < 12 → slice_index result k ≡ count_at k (calls_left calls.entry) }
{
    let mut counts = [0; 12];
    for next in calls {
        counts[usize::from(next.call.verb())] += 1;
    }
    counts
}

/// Writes the lines on the calls at the end of the text, a line for each verb.
fn write_calls(text: &mut String, calls: Calls) -> Result<(), AllocError>
    ensures { OnOk result (string_bytes text.new ≡ string_bytes text.old ++ calls_report (calls_left calls.entry)) }
{
    let counts = tally(calls);
    for verb in Verb::ALL {
        writeln!(text, "{verb} {}", counts[usize::from(verb)])?;
    }
    Ok(())
}

/// Writes the report on an admitted script with this outline and these calls at the end of the text.
#[tactic(auto, using(std::proofs::lemmas::List::append_assoc))]
fn write_admitted(text: &mut String, outline: Outline, calls: Calls) -> Result<(), AllocError>
    ensures { OnOk result (string_bytes text.new ≡ string_bytes text.old ++ admitted_report outline.head (calls_left calls.entry) outline.skipped) }
{
    write_head(text, outline.head)?;
    write_calls(text, calls)?;
    writeln!(text, "skipped {}", outline.skipped)
}

/// The report on a script: what it asks for if it is admitted, and otherwise its first fault.
pub fn report(heap: Global, script: &[u8]) -> Result<String, AllocError>
    ensures { IfOk result (λ t. string_bytes t ≡ report_on script.now) }
{
    let mut text = String::new(heap);
    match read(script) {
        Ok(outline) => write_admitted(&mut text, outline, calls(script))?,
        Err(fault) => write_fault(&mut text, fault)?,
    }
    Ok(text)
}

//! Reads a driver script from standard input, and prints the report on it.
#![tactic(auto)]

use report::report;
use script::part::MAX_SCRIPT;
use std::io;
use std::io::{Read, Write};

fn main(rt: HostRuntime) -> io::Result<()> {
    let mut script = Vec::new(rt.alloc());
    // One byte more than the longest script is enough to see that a script is too long.
    rt.stdin()
        .take(MAX_SCRIPT as u64 + 1)
        .read_to_end(&mut script)?;
    let text = report(rt.alloc(), &script)?;
    rt.stdout().write_all(text.as_bytes())
}

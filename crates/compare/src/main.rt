//! Compares the reports on the scripts of the folder it runs in with what they must be: the report on
//! NAME.script is to be the file NAME.expected.
#![tactic(auto)]

use report::report;
use std::{fs, io};

/// The names of the scripts in the folder, in order.
fn script_names(rt: &HostRuntime) -> io::Result<Vec<String>> {
    let mut names = Vec::new(rt.alloc());
    for entry in fs::read_dir(rt, ".")? {
        let entry = entry?;
        if let Some(name) = entry.file_name().strip_suffix(".script") {
            names.push(String::from_str(rt.alloc(), name)?)?;
        }
    }
    names.sort()?;
    Ok(names)
}

/// The place of the first byte in which two texts differ; none if they are the same.
fn first_difference(a: &[u8], b: &[u8]) -> Option<usize> {
    // where the shorter one ends, if they are not of one length
    let end = (a.len() != b.len()).then_some(a.len().min(b.len()));
    a.iter().zip(b).position(|(x, y)| x != y).or(end)
}

/// Whether the report on a script is what it must be; says where it is not.
fn agrees(rt: &HostRuntime, name: &str) -> io::Result<bool> {
    let heap = rt.alloc();
    let script = fs::read(rt, format!(in heap; "{name}.script")?)?;
    let expected = fs::read(rt, format!(in heap; "{name}.expected")?)?;
    let text = report(heap, &script)?;
    match first_difference(text.as_bytes(), &expected) {
        None => Ok(true),
        Some(at) => {
            println!(rt; "{name} differs at byte {at}")?;
            Ok(false)
        }
    }
}

fn main(rt: HostRuntime) -> io::Result<()> {
    let names = script_names(&rt)?;
    let total = names.len();
    let mut agreed: usize = 0;
    for name in &names {
        if agrees(&rt, name.as_str())? {
            agreed = agreed.saturating_add(1);
        }
    }
    println!(rt; "{agreed} of {total} scripts agree")
}

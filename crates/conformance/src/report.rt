//! What is printed of a run that differs.
use crate::worlds::Outcome;
use anyhow::Result;
use case_files::{Differences, Left, Look, Prepared, Seen, bytes_differ, differences_of};

/// Prints what differs, a line for each thing that does, and says whether nothing does.
pub fn print_all(
    rt: &HostRuntime,
    file: &str,
    case: &str,
    how: &str,
    told: &Differences,
) -> Result<bool> {
    let mut passed = true;
    for text in [&told.status, &told.console, &told.complaint] {
        if let Some(text) = text {
            println!(rt; "{file}: {case}: {how}{text}")?;
            passed = false;
        }
    }
    Ok(passed)
}

/// Prints what differs in what was found behind a run, and says whether nothing does.
fn print_look(
    rt: &HostRuntime,
    file: &str,
    case: &str,
    how: &str,
    look: &Look,
    seen: &Seen,
) -> Result<bool> {
    match (look, seen) {
        (Look::File { name, expected }, Seen::File(found)) => {
            let text = bytes_differ(rt.alloc(), name.as_str(), expected, found)?;
            if let Some(text) = text {
                println!(rt; "{file}: {case}: {how}the file {text}")?;
                return Ok(false);
            }
            Ok(true)
        }
        (Look::Run { text, expected, .. }, Seen::Run(left)) => {
            let how = format!(in rt.alloc(); "{how}then `{text}`: ")?;
            let told = differences_of(rt.alloc(), expected, left)?;
            print_all(rt, file, case, how.as_str(), &told)
        }
        _ => Ok(false),
    }
}

/// Prints what differs in a run, which has to leave what is given, and behind it, and says whether nothing does. A run before it
/// that did not do its job leaves nothing to look at, and that differs too.
pub fn print_left(
    rt: &HostRuntime,
    file: &str,
    case: &str,
    how: &str,
    prepared: &Prepared,
    expected: &Left,
    outcome: &Outcome,
) -> Result<bool> {
    let told = differences_of(rt.alloc(), expected, &outcome.left)?;
    let mut passed = print_all(rt, file, case, how, &told)?;
    if prepared.looks.len() != outcome.seen.len() {
        println!(rt; "{file}: {case}: {how}nothing was looked at")?;
        return Ok(false);
    }
    for (look, seen) in prepared.looks.iter().zip(outcome.seen.iter()) {
        if !print_look(rt, file, case, how, look, seen)? {
            passed = false;
        }
    }
    Ok(passed)
}

/// Prints what differs in the run of a case and behind it, and says whether nothing does.
pub fn print_outcome(
    rt: &HostRuntime,
    file: &str,
    case: &str,
    how: &str,
    prepared: &Prepared,
    outcome: &Outcome,
) -> Result<bool> {
    print_left(rt, file, case, how, prepared, &prepared.expected, outcome)
}

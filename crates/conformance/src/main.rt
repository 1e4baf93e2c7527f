//! Runs cases that are data: each is a command with the files and the input that it meets, and what it has
//! to write and to answer. The words name the case files, and `docs/conformance.md` has their form.
//!
//! A case is run over a world in memory, with its input in one piece and in pieces of one byte. What
//! differs is printed with the case's name, and the last line counts: `N passed, M failed`.
#![tactic(auto)]

mod case_folder;
mod each_call;
mod report;
mod worlds;

use crate::each_call::run_each;
use crate::report::print_outcome;
use crate::worlds::{run_in_pieces, run_whole};
use anyhow::{Context, Result};
use case_files::{CaseFile, Flaw, Malformed, Written, prepare, read_cases};
use std::process::ExitCode;
use std::sync::Wait;
use std::thread::Threads;
use std::{env, fs, str};

/// How many cases passed, and how many failed.
#[derive(Clone, Copy, Debug)]
struct Tally {
    passed: usize,
    failed: usize,
}

impl Tally {
    /// Counts a case.
    fn count(&mut self, passed: bool) {
        if passed {
            self.passed = self.passed.saturating_add(1);
        } else {
            self.failed = self.failed.saturating_add(1);
        }
    }
}

/// Runs a case, prints what differs, and says whether it passed: as it stands, where it says so with each call of a disk
/// failing in turn, and in pieces. Where calls fail by their number, or the case says so, the run in pieces is left out.
fn run_case<'f, R: Threads + Wait + Sync>(
    rt: &HostRuntime,
    threads: &R,
    file: &str,
    case: &Written<'f>,
    common: &Written<'f>,
) -> Result<bool> {
    let name = case.name;
    let prepared = match prepare(rt.alloc(), case, common) {
        Ok(prepared) => prepared,
        Err(malformed) => {
            println!(rt; "{file}: {name}: {malformed}")?;
            return Ok(false);
        }
    };
    let outcome = run_whole(threads, rt.alloc(), &prepared)?;
    if !print_outcome(rt, file, name, "", &prepared, &outcome)? {
        return Ok(false);
    }
    if let Some(each) = &prepared.each {
        if !run_each(rt, threads, file, name, &prepared, each)? {
            return Ok(false);
        }
    }
    if prepared.whole {
        return Ok(true);
    }
    let outcome = run_in_pieces(threads, rt.alloc(), &prepared)?;
    let how = "in pieces of one byte: ";
    print_outcome(rt, file, name, how, &prepared, &outcome)
}

/// Runs the cases of a file.
fn run_cases<R: Threads + Wait + Sync>(
    rt: &HostRuntime,
    threads: &R,
    file: &str,
    cases: &CaseFile<'_>,
    tally: &mut Tally,
) -> Result<()> {
    let title = cases.title;
    let count = cases.cases.len();
    println!(rt; "{file}: {count} cases: {title}")?;
    if let Some(malformed) = cases.common.flaw {
        println!(rt; "{file}: {malformed}")?;
        tally.count(false);
        return Ok(());
    }
    for case in &cases.cases {
        let passed = run_case(rt, threads, file, case, &cases.common)?;
        tally.count(passed);
    }
    Ok(())
}

/// The line of the first byte that is not UTF-8.
fn bad_line(bytes: &[u8], valid: usize) -> usize {
    let before = bytes
        .iter()
        .take(valid)
        .filter(|byte| **byte == b'\n')
        .count();
    before.saturating_add(1)
}

/// Runs the cases of the file of a name.
fn run_file<R: Threads + Wait + Sync>(
    rt: &HostRuntime,
    threads: &R,
    file: &str,
    tally: &mut Tally,
) -> Result<()> {
    let bytes = fs::read(rt, file).context("the file cannot be read")?;
    match str::from_utf8(bytes.as_slice()) {
        Ok(text) => {
            let cases = read_cases(rt.alloc(), text)?;
            run_cases(rt, threads, file, &cases, tally)
        }
        Err(error) => {
            let malformed = Malformed::At {
                line: bad_line(bytes.as_slice(), error.valid_up_to()),
                flaw: Flaw::NotUtf8,
            };
            println!(rt; "{file}: {malformed}")?;
            tally.count(false);
            Ok(())
        }
    }
}

/// Runs the cases of all files that the words name, and says how many passed.
fn run_files<R: Threads + Wait + Sync>(rt: &HostRuntime, threads: &R) -> Result<Tally> {
    let mut tally = Tally {
        passed: 0,
        failed: 0,
    };
    for file in env::args(rt)?.skip(1) {
        if let Err(error) = run_file(rt, threads, file.as_str(), &mut tally) {
            println!(rt; "{file}: {error}")?;
            tally.count(false);
        }
    }
    Ok(tally)
}

fn main(rt: HostRuntime) -> Result<ExitCode> {
    let tally = run_files(&rt, &rt)?;
    let Tally { passed, failed } = tally;
    println!(rt; "{passed} passed, {failed} failed")?;
    let status = if failed == 0 { 0 } else { 1 };
    Ok(ExitCode::from(status))
}

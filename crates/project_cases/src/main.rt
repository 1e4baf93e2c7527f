//! Runs connections of one project that are data, worked out by hand, and a few that are served at once.
//!
//! The words name case files, whose lines are messages of HTTP; `README.md` has their form. What differs is printed, and the
//! last line counts: `N passed, M failed`.
#![tactic(auto)]

ghost use Rattle.std.specs.Prelude.{◌≡◌, ◌<◌};

mod case_fault;
mod cases;
mod hall;
mod links;
mod people;

use crate::cases::{Case, cases_of};
use crate::hall::served_at_once;
use anyhow::{Context, Result};
use mark_base::Steps;
use std::marker::Brand;
use std::process::ExitCode;
use std::sync::ledger::{Blank, Ledger};
use std::{env, fs, str};

/// Runs a case, prints what differs or why it has no form, and says whether it passed.
fn passes<G: Ledger>(rt: &HostRuntime, case: &Case<'_>, steps: &mut Steps<G>) -> Result<bool> {
    let alloc = rt.alloc();
    let name = case.name;
    match links::run_case(alloc, case, steps) {
        Ok(text) => {
            if !text.is_empty() {
                println!(rt; "{name}:\n{text}")?;
            }
            Ok(text.is_empty())
        }
        Err(fault) => {
            println!(rt; "{name}: {fault:?}")?;
            Ok(false)
        }
    }
}

/// Runs the cases of a file, and says how many did not pass.
fn run_file<G: Ledger>(rt: &HostRuntime, file: &str, steps: &mut Steps<G>) -> Result<(u64, u64)> {
    let bytes = fs::read(rt, file).context("a file cannot be read")?;
    let text = str::from_utf8(bytes.as_slice()).context("a file is not UTF-8")?;
    let mut passed = 0u64;
    let mut failed = 0u64;
    let Ok(cases) = cases_of(rt.alloc(), text) else {
        return Ok((0, 1));
    };
    for case in cases.iter() {
        if passes(rt, case, steps)? {
            passed = passed.saturating_add(1);
        } else {
            failed = failed.saturating_add(1);
        }
    }
    println!(rt; "{file}: {passed} passed")?;
    Ok((passed, failed))
}

/// Runs all files.
fn run_all<L: Ledger>(rt: &HostRuntime, blank: Blank) -> Result<ExitCode>
    requires name { blank.name ≡ L.name }
    requires parts { blank.parts ≡ L.parts }
    requires some { 0 < L.parts }
{
    let mut steps = Steps::<L>::new(blank);
    let mut passed = 0u64;
    let mut failed = 0u64;
    for file in env::args(rt)?.skip(1) {
        let count = run_file(rt, file.as_str(), &mut steps)?;
        passed = passed.saturating_add(count.0);
        failed = failed.saturating_add(count.1);
    }
    println!(rt; "{passed} passed, {failed} failed")?;
    let status = if failed == 0 { 0 } else { 1 };
    Ok(ExitCode::from(status))
}

fn main(rt: HostRuntime) -> Result<ExitCode> {
    let at_once = served_at_once(&rt, rt.alloc())?;
    println!(rt; "{at_once}")?;
    run_all::<Brand>(&rt, Blank::new(1))
}

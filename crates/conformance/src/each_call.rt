//! A case whose disk fails, each call in a run of its own.
use crate::report::{print_all, print_left};
use crate::worlds::run_failing;
use anyhow::Result;
use case_files::{EachCall, Left, Prepared, differences_of};
use project_journal::DiskFail;
use std::sync::Wait;
use std::thread::Threads;

/// Runs a case where this call fails, prints what differs, and says whether nothing does: the project is not opened; or a
/// request is refused since its change is not kept, the same request is answered as ever when it is asked again, and so is
/// all behind it.
fn run_with<R: Threads + Wait + Sync>(
    rt: &HostRuntime,
    threads: &R,
    file: &str,
    case: &str,
    prepared: &Prepared,
    each: &EachCall,
    fail: DiskFail,
) -> Result<bool> {
    let alloc = rt.alloc();
    let name = each.name.as_str();
    let DiskFail { call, done } = fail;
    let effect = if done { ", with its effect," } else { "" };
    let how = format!(in alloc; "where call {call} of {name}{effect} fails: ")?;
    let outcome = run_failing(
        threads,
        alloc,
        prepared,
        prepared.input.as_slice(),
        name,
        fail,
    )?;
    let unopened = each.unopened(alloc)?;
    if outcome.left.status == unopened.status {
        let told = differences_of(alloc, &unopened, &outcome.left)?;
        return print_all(rt, file, case, how.as_str(), &told);
    }
    let Some(unkept) = each.unkept_in(outcome.left.console.as_slice()) else {
        println!(rt; "{file}: {case}: {how}no request is refused for it")?;
        return Ok(false);
    };
    let input = each.input(alloc, unkept)?;
    let outcome = run_failing(threads, alloc, prepared, input.as_slice(), name, fail)?;
    let expected = Left {
        status: prepared.expected.status,
        console: each.console(alloc, unkept)?,
        complaint: prepared.expected.complaint.clone()?,
    };
    print_left(rt, file, case, how.as_str(), prepared, &expected, &outcome)
}

/// Runs a case where the call behind the last one would fail, and says whether the run is as ever.
fn run_behind<R: Threads + Wait + Sync>(
    rt: &HostRuntime,
    threads: &R,
    file: &str,
    case: &str,
    prepared: &Prepared,
    each: &EachCall,
) -> Result<bool> {
    let fail = DiskFail {
        call: each.calls.saturating_add(1),
        done: false,
    };
    let input = prepared.input.as_slice();
    let outcome = run_failing(
        threads,
        rt.alloc(),
        prepared,
        input,
        each.name.as_str(),
        fail,
    )?;
    let how = "where no call fails: ";
    print_left(rt, file, case, how, prepared, &prepared.expected, &outcome)
}

/// Runs a case for each call of its disk, which fails without its effect and with it, and says whether each run is as it has
/// to be, and no call is behind these. The first that is not ends it.
pub fn run_each<R: Threads + Wait + Sync>(
    rt: &HostRuntime,
    threads: &R,
    file: &str,
    case: &str,
    prepared: &Prepared,
    each: &EachCall,
) -> Result<bool> {
    for call in 1..=each.calls {
        for done in [false, true] {
            if !run_with(
                rt,
                threads,
                file,
                case,
                prepared,
                each,
                DiskFail { call, done },
            )? {
                return Ok(false);
            }
        }
    }
    run_behind(rt, threads, file, case, prepared, each)
}

//! The passes of the workers.
ghost use Rattle.std.specs.Prelude.{◌≡◌, ◌+◌, ◌<◌, ◌≤◌, IfOk, length, true};
ghost use Rattle.serve_command.specs.Serving.Workers.{HavePasses};

use crate::doors::Worker;
use mark_base::Memory;
use project_journal::Keeper;
use std::alloc::Global;
use turn_hall::{Hall, Pass};

/// How many workers serve a project.
const WORKERS: usize = 64;

/// Sixty-four workers that have no pass yet.
pub(crate) fn idle_workers(alloc: Global) -> Result<Vec<Worker>, Memory>
    ensures { IfOk result (λ workers. length workers.items ≡ 64) }
{
    let mut workers = Vec::new(alloc);
    for _ in 0..WORKERS {
        workers.push(Worker {
            pass: None,
            end: None,
        })?;
    }
    Ok(workers)
}

/// Gives each worker a pass: the first one gets the hall's first, and each other one split from that.
pub(crate) fn give_passes<K: Keeper>(hall: &Hall<K>, first: Pass, workers: &mut [Worker])
    requires hall { first.hall ≡ hall.now.id }
    requires first { first.knows.first ≡ true }
    requires whole { (first.knows.splits ≡ 0) × (first.knows.stands_for ≡ 1) }
    requires some { 0 < length workers.old }
    requires few { length workers.old ≤ 256 }
    ensures { HavePasses hall.now.id workers.new }
{
    let mut first = first;
    for k in 1..workers.len() {
        workers[k].pass = Some(first.split(hall));
    }
    workers[0].pass = Some(first);
}

/// Takes the passes of the workers, each other one joined to the first.
pub(crate) fn join_passes<K: Keeper>(hall: &Hall<K>, workers: &mut [Worker]) -> Pass
    requires passes { HavePasses hall.now.id workers.old }
    requires some { 0 < length workers.old }
    ensures hall { result.hall ≡ hall.now.id }
    ensures first { result.knows.first ≡ true }
    ensures all { result.knows.stands_for ≡ result.knows.splits + 1 }
{
    let Some(first) = workers[0].pass.take() else {
        unreachable!()
    };
    let mut first = first;
    for k in 1..workers.len() {
        let Some(pass) = workers[k].pass.take() else {
            unreachable!()
        };
        first.join(hall, pass);
    }
    first
}

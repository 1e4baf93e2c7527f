//! The line that a run writes where it does not do its job.
ghost use Rattle.std.specs.Prelude.{◌≡◌, ◌≤◌, Ok};
ghost use Rattle.program_inputs.specs.Troubles.{Complains, Ends, Says, line_of, status_of};

use crate::trouble::Trouble;
use mark_base::{Sink, write_all};
use std::alloc::Global;

/// Writes the line of a trouble, and gives the status; 6 where a write of it fails.
fn say<P: Sink>(sink: &mut P, line: &str, status: u8) -> u8
    ensures said { (trouble : _) → (verifies : _) → line.now ≡ line_of trouble → status ≡ status_of verifies trouble →
        Says verifies trouble (P.held sink.old) (P.held sink.new) (P.write_faults sink.old) (P.write_faults sink.new) result }
    ensures later { P.write_faults sink.old ≤ P.write_faults sink.new }
{
    match write_all(sink, line.as_bytes()) {
        Ok(()) => status,
        Err(_) => 6,
    }
}

/// Says a trouble on the complaint sink, and gives the status of the run.
fn complain<P: Sink>(alloc: Global, sink: &mut P, trouble: Trouble, verifies: bool) -> u8
    ensures told { Complains verifies trouble (P.held sink.old) (P.held sink.new) (P.write_faults sink.old) (P.write_faults sink.new) result }
    ensures later { P.write_faults sink.old ≤ P.write_faults sink.new }
{
    if let Some(line) = trouble.fixed_line() {
        return say(sink, line, trouble.status(verifies));
    }
    match trouble.made_line(alloc) {
        Ok(line) => say(sink, &line, trouble.status(verifies)),
        Err(_) => say(sink, "memory\n", 7),
    }
}

/// Ends a run: says its trouble on the complaint sink, where it has one, and gives its status, which is 6 where
/// a write of the line fails. `verifies` is for a command that looks for faults of a configuration or an .ann file:
/// its statuses for those are its own.
pub fn end_run<P: Sink>(
    alloc: Global,
    sink: &mut P,
    done: Result<(), Trouble>,
    verifies: bool,
) -> u8
    ensures told { Ends verifies done (P.held sink.old) (P.held sink.new) (P.write_faults sink.old) (P.write_faults sink.new) result }
    ensures later { P.write_faults sink.old ≤ P.write_faults sink.new }
    ensures done { result ≡ 0 → (done ≡ Ok tt) × (P.write_faults sink.new ≡ P.write_faults sink.old) }
{
    match done {
        Ok(()) => 0,
        Err(trouble) => complain(alloc, sink, trouble, verifies),
    }
}

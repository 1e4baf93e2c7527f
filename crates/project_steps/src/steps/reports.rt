//! What is made of a request for a table about the whole project.
ghost use Rattle.std.specs.Prelude.{◌≡◌, IfOk};
ghost use Rattle.project_machine.specs.Legal.{IsKept};
ghost use Rattle.project_machine.specs.Reports.{report_table};
ghost use Rattle.project_machine.specs.Requests.{ReadReport};
ghost use Rattle.project_steps.specs.Steps.Accepting.{Accepts};

use crate::steps::accepted::Accepted;
use mark_base::{Bytes, Memory, Slug};
use project_reports::{roster_csv, shown_progress_csv, snapshots_csv};
use project_state::{BookState, Reply, Report};
use std::alloc::Global;

/// The bytes of a table about the whole project, as a caller is shown it. Cost: as `shown_progress_csv`, `snapshots_csv`
/// and `roster_csv`.
fn report_csv(alloc: Global, state: &BookState, by: &Slug, report: Report) -> Result<Bytes, Memory>
    requires { IsKept state.now.state }
    ensures { IfOk result (λ bytes. bytes ≡ report_table state.now.state by.now report) }
{
    match report {
        Report::Progress => shown_progress_csv(alloc, state, by),
        Report::Snapshots => snapshots_csv(alloc, state),
        Report::Roster => roster_csv(alloc, state.roster().people()),
    }
}

/// A table about the whole project is read. Cost: the table, and of snapshots what `snapshots_csv` tells.
pub(crate) fn accept_report(
    alloc: Global,
    state: &BookState,
    by: &Slug,
    report: Report,
) -> Result<Accepted, Memory>
    requires { IsKept state.now.state }
    ensures { IfOk result (Accepts state.now.state by.now (ReadReport report)) }
{
    let bytes = report_csv(alloc, state, by, report)?;
    Ok(Accepted {
        reply: Reply::Table(bytes),
        made: None,
    })
}

//! How far curation is.
ghost use Rattle.std.specs.Prelude.{◌≡◌, ◌<◌, ◌++◌, flat_map, not, IfOk, OnOk, count_by};
ghost use Rattle.std.specs.List.{All, enumerate_from};
ghost use Rattle.unanimous_merge.specs.Rows.{AreCoherent};
ghost use Rattle.agreement_report.specs.Report.{IsReady, row, text_of};
ghost use Rattle.project_machine.specs.Legal.{IsKept};
ghost use Rattle.project_machine.specs.ProjectState.{document};
ghost use Rattle.project_machine.specs.SnapshotsTable.{accepts, snapshot_fields, snapshots_table};

use crate::item_counts::item_counts;
use crate::table_writer::{finish, write_row};
use crate::verdict_counts::count_accepted;
use csv::Writer;
use curator_decisions::Decisions;
use layer_rules::well_formed_layers_cohere;
use mark_base::{Bytes, Memory};
use project_state::{BookState, StoredSnapshot};
use std::alloc::Global;

/// The name of the document of a number, from 0, or nothing where there is none.
fn name_of(state: &BookState, doc: u32) -> &str
    ensures { result.now ≡ (document state.now.state doc).name }
{
    match state.document_name(doc) {
        Some(name) => name.text(),
        None => "",
    }
}

/// How many verdicts reject their items, by how many accept.
fn count_rejected(decisions: &Decisions, accepted: u32) -> u32
    requires { accepted ≡ count_by (λ one. accepts one.1) decisions.now }
    ensures { result ≡ count_by (λ one. not (accepts one.1)) decisions.now }
{
    decisions.count() - accepted
}

/// Writes the row of the snapshot of a number.
fn write_snapshot(
    alloc: Global,
    writer: &mut Writer<Vec<u8>>,
    state: &BookState,
    number: usize,
    snapshot: &StoredSnapshot,
) -> Result<(), Memory>
    requires ready { IsReady writer.old }
    requires coherent { AreCoherent snapshot.now.holders }
    ensures ready { OnOk result (IsReady writer.new) }
    ensures written { OnOk result (text_of writer.new ≡ text_of writer.old ++ row (snapshot_fields state.now.state number snapshot.now)) }
{
    let counts = item_counts(alloc, snapshot)?;
    let accepted = count_accepted(snapshot.decisions());
    let rejected = count_rejected(snapshot.decisions(), accepted);
    let number = number.to_string(alloc)?;
    let holders = snapshot.layers().count().to_string(alloc)?;
    let items = counts.items.to_string(alloc)?;
    let unanimous = counts.unanimous.to_string(alloc)?;
    let accepted = accepted.to_string(alloc)?;
    let rejected = rejected.to_string(alloc)?;
    let undecided = counts.undecided.to_string(alloc)?;
    write_row(
        writer,
        &[
            number.as_bytes(),
            name_of(state, snapshot.doc()).as_bytes(),
            holders.as_bytes(),
            items.as_bytes(),
            unanimous.as_bytes(),
            accepted.as_bytes(),
            rejected.as_bytes(),
            undecided.as_bytes(),
        ],
    )
}

/// Writes the rows of the snapshots of a project, as they were taken.
fn write_snapshots(
    alloc: Global,
    writer: &mut Writer<Vec<u8>>,
    state: &BookState,
) -> Result<(), Memory>
    requires ready { IsReady writer.old }
    requires coherent { All (λ shot. AreCoherent shot.holders) state.now.state.snapshots }
    ensures ready { OnOk result (IsReady writer.new) }
    ensures written { OnOk result (text_of writer.new ≡ text_of writer.old
        ++ flat_map (λ placed. row (snapshot_fields state.now.state placed.0 placed.1)) (enumerate_from 1 state.now.state.snapshots)) }
{
    for (place, snapshot) in state.snapshots().iter().enumerate() {
        write_snapshot(alloc, writer, state, place + 1, snapshot)?;
    }
    Ok(())
}

/// How far curation is, as CSV: a row for each snapshot, as they were taken, numbered from 1. The project is one that steps
/// leave.
///
/// `holders` is how many layers the snapshot holds, `items` how many items it has, and `unanimous` how many of these every
/// layer has, whatever was decided on them. `accepted` and `rejected` count the verdicts of either kind. `undecided` counts
/// the items that are not unanimous and have no verdict: those on which a curator has to decide.
///
/// Cost, read off the code and not measured: that of the items of each snapshot, anew with each call.
pub fn snapshots_csv(alloc: Global, state: &BookState) -> Result<Bytes, Memory>
    requires { IsKept state.now.state }
    ensures { IfOk result (λ bytes. bytes ≡ snapshots_table state.now.state) }
{
    well_formed_layers_cohere();
    let mut writer = Writer::from_writer(Vec::new(alloc));
    write_row(
        &mut writer,
        &[
            b"snapshot",
            b"document",
            b"holders",
            b"items",
            b"unanimous",
            b"accepted",
            b"rejected",
            b"undecided",
        ],
    )?;
    write_snapshots(alloc, &mut writer, state)?;
    finish(writer)
}

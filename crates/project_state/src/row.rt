//! What one annotator has done on one document.
ghost use Rattle.std.specs.Prelude.{◌≡◌, IfOk, is_some, replicate};
ghost use Rattle.std.specs.Arc.{arc_value};
ghost use Rattle.std.specs.Option.{option_map_or};
ghost use Rattle.std.specs.Prelude.{◌==◌, ◌-◌, ◌^◌, ◌<◌, false, None, Some};
ghost use Rattle.project_machine.specs.ProjectState.{blank_row};
ghost use Rattle.project_machine.specs.History.{under_hold, with_commit, with_draft, with_finished, with_ignored};
ghost use Rattle.project_state.specs.RowActs.{CanActOnRow, row_behind};

use crate::row_act::RowAct;
use layer_model::Layer;
use layer_undo::Script;
use mark_base::Memory;
use std::alloc::Global;
use std::marker::Model;
use std::sync::Arc;

/// What one annotator has done on one document: how often it was committed, the committed layer, the commands
/// done and undone since that were parked, the hold under which it is out, and whether it is finished and ignored.
#[derive(Drop)]
pub struct StoredRow {
    revision: u64,
    layer: Arc<Layer>,
    done: Script,
    undone: Script,
    hold: Option<u64>,
    finished: bool,
    ignored: bool,
}

impl Model for StoredRow {
    ghost use Rattle.std.specs.Arc.{arc_value};
    ghost use Rattle.project_machine.specs.ProjectState.{Row};
    ghost use Rattle.project_state.specs.Codes.{row_code};

    ghost Value = { Row };

    ghost coded = { row_code };

    ghost view = { λ row. record { revision = row.revision; layer = arc_value row.layer; done = row.done; undone = row.undone; hold = row.hold; finished = row.finished; ignored = row.ignored } };
}

impl StoredRow {
    /// A row on which nothing was done.
    pub fn blank(alloc: Global) -> Result<StoredRow, Memory>
        ensures { IfOk result (λ row. row ≡ blank_row) }
    {
        Ok(StoredRow {
            revision: 0,
            layer: Arc::new(alloc, Layer::new(alloc))?,
            done: Script::new(alloc),
            undone: Script::new(alloc),
            hold: None,
            finished: false,
            ignored: false,
        })
    }

    /// A row of these parts: how often it was committed, the committed layer, the commands that are parked, the
    /// hold under which it is out, and whether it is finished and ignored.
    pub fn new(
        revision: u64,
        layer: Arc<Layer>,
        done: Script,
        undone: Script,
        hold: Option<u64>,
        finished: bool,
        ignored: bool,
    ) -> StoredRow
        ensures { result ≡ record { revision = revision; layer = arc_value layer; done = done; undone = undone; hold = hold; finished = finished; ignored = ignored } }
    {
        StoredRow {
            revision,
            layer,
            done,
            undone,
            hold,
            finished,
            ignored,
        }
    }

    /// How often it was committed.
    pub fn revision(&self) -> u64
        ensures { result ≡ self.now.revision }
    {
        self.revision
    }

    /// The committed layer.
    pub fn layer(&self) -> &Arc<Layer>
        ensures { arc_value result.now ≡ self.now.layer }
    {
        &self.layer
    }

    /// The parked commands that were done.
    pub fn done(&self) -> &Script
        ensures { result.now ≡ self.now.done }
    {
        &self.done
    }

    /// The parked commands that were undone.
    pub fn undone(&self) -> &Script
        ensures { result.now ≡ self.now.undone }
    {
        &self.undone
    }

    /// Whether it is out.
    pub fn is_out(&self) -> bool
        ensures { result ≡ is_some self.now.hold }
    {
        self.hold.is_some()
    }

    /// Whether it is out under this hold.
    pub fn is_held(&self, hold: u64) -> bool
        ensures { result ≡ option_map_or (λ out. out == hold) self.now.hold false }
    {
        match self.hold {
            Some(out) => out == hold,
            None => false,
        }
    }

    /// Whether it is finished.
    pub fn is_finished(&self) -> bool
        ensures { result ≡ self.now.finished }
    {
        self.finished
    }

    /// Whether it is ignored.
    pub fn is_ignored(&self) -> bool
        ensures { result ≡ self.now.ignored }
    {
        self.ignored
    }

    /// It is out under a hold.
    fn hold(&mut self, place: u64)
        ensures { self.new ≡ under_hold (Some place) self.old }
    {
        self.hold = Some(place);
    }

    /// A layer is committed; nothing is parked any more.
    fn commit(&mut self, alloc: Global, layer: Arc<Layer>)
        requires { self.old.revision < 2 ^ 64 - 1 }
        ensures { self.new ≡ with_commit (arc_value layer) self.old }
    {
        self.revision += 1;
        self.layer = layer;
        self.done = Script::new(alloc);
        self.undone = Script::new(alloc);
    }

    /// Commands are parked; it is out no more.
    fn park(&mut self, done: Script, undone: Script)
        ensures { self.new ≡ with_draft done undone self.old }
    {
        self.done = done;
        self.undone = undone;
        self.hold = None;
    }

    /// It is finished, or open again.
    fn finish(&mut self, finished: bool)
        ensures { self.new ≡ with_finished finished self.old }
    {
        self.finished = finished;
    }

    /// It is left out of the tables, or put back.
    fn ignore(&mut self, ignored: bool)
        ensures { self.new ≡ with_ignored ignored self.old }
    {
        self.ignored = ignored;
    }

    /// It is out no more.
    pub(crate) fn free(&mut self)
        ensures { self.new ≡ under_hold None self.old }
    {
        self.hold = None;
    }

    /// The row behind an act. It takes no memory.
    pub(crate) fn act(&mut self, alloc: Global, act: RowAct)
        requires { CanActOnRow act self.old }
        ensures { self.new ≡ row_behind act self.old }
    {
        match act {
            RowAct::Hold(place) => self.hold(place),
            RowAct::Commit(layer) => self.commit(alloc, layer),
            RowAct::Park(done, undone) => self.park(done, undone),
            RowAct::Finish(finished) => self.finish(finished),
            RowAct::Ignore(ignored) => self.ignore(ignored),
        }
    }
}

/// Rows on which nothing was done.
pub(crate) fn blank_rows(alloc: Global, count: usize) -> Result<Vec<StoredRow>, Memory>
    ensures { IfOk result (λ rows. rows.items ≡ replicate count blank_row) }
{
    let mut rows = Vec::new(alloc);
    while rows.len() < count {
        rows.push(StoredRow::blank(alloc)?)?;
    }
    Ok(rows)
}

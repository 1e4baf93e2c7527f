//! Who asks for what.
ghost use Rattle.std.specs.Prelude.{IfOk};
ghost use Rattle.project_state.specs.Entries.Asking.{TellsRequest};
ghost use Rattle.project_state.specs.Entries.Reading.{Reads};

use crate::entries::asked::{
    NamedItem, add_text_asked, checkout_asked, commit_asked, decide_asked, finish_asked,
    ignore_asked, park_asked, readmit_asked, reopen_asked, snap_asked, take_over_asked,
    undecide_asked,
};
use crate::{BookState, Request};
use command_bytes::accepted_scripts_can_be_written;
use entry_bytes::Entry;
use layer_rules::unflawed_layers;
use mark_base::{Memory, Slug};
use std::alloc::Global;

/// A request and who makes it.
#[derive(Drop)]
pub struct Asking {
    pub caller: Slug,
    pub request: Request,
}

/// What is read of an entry.
fn read_entry(alloc: Global, state: &BookState, entry: &Entry) -> Result<Option<Asking>, Memory>
    ensures { IfOk result (Reads state.now.state entry.now) }
{
    match entry {
        Entry::AddText { by, name, text } => add_text_asked(alloc, by, name, text),
        Entry::Checkout { by, doc } => checkout_asked(state, by, *doc),
        Entry::TakeOver { by, doc } => take_over_asked(state, by, *doc),
        Entry::Commit {
            by,
            doc,
            hold,
            lines,
        } => commit_asked(alloc, state, by, *doc, *hold, lines),
        Entry::Park {
            by,
            doc,
            hold,
            commands,
        } => park_asked(alloc, state, by, *doc, *hold, commands),
        Entry::Finish { by, doc } => finish_asked(state, by, *doc),
        Entry::Reopen { by, doc, who } => reopen_asked(state, by, *doc, who),
        Entry::Snap { by, doc } => snap_asked(state, by, *doc),
        Entry::Decide {
            by,
            snapshot,
            holder,
            kind,
            number,
            accept,
        } => {
            let item = NamedItem {
                snapshot: *snapshot,
                holder: *holder,
                kind: *kind,
                number: *number,
            };
            decide_asked(state, by, item, *accept)
        }
        Entry::Undecide {
            by,
            snapshot,
            holder,
            kind,
            number,
        } => {
            let item = NamedItem {
                snapshot: *snapshot,
                holder: *holder,
                kind: *kind,
                number: *number,
            };
            undecide_asked(state, by, item)
        }
        Entry::Ignore { by, doc, who } => ignore_asked(state, by, *doc, who),
        Entry::Readmit { by, doc, who } => readmit_asked(state, by, *doc, who),
        _ => Ok(None),
    }
}

/// The request that makes the change of an entry, and who makes it: of each change that can be the next of a project
/// and has this entry. None where no request makes such a change, as of a freeing. Whether the request makes a change of
/// this entry is not tested. Cost: the bytes of the entry, and what `Doc::new`, `read_ann` and `read_scripts` say.
pub fn asking_of(alloc: Global, state: &BookState, entry: &Entry) -> Result<Option<Asking>, Memory>
    ensures { IfOk result (TellsRequest state.now.state entry.now) }
{
    unflawed_layers();
    accepted_scripts_can_be_written();
    let told = read_entry(alloc, state, entry)?;
    Ok(told)
}

//! The requests that make the changes of entries, kind by kind.
ghost use Rattle.std.specs.Prelude.{◌≡◌, ◌<◌, chars, length, IfOk, MatchOption};
ghost use Rattle.entry_bytes.specs.declared.entry.Entry.{Entry};
ghost use Rattle.project_machine.specs.Requests.{AddText};
ghost use Rattle.project_state.specs.Entries.Asking.{plain_asking};
ghost use Rattle.project_state.specs.Entries.Reading.{Reads};

use crate::entries::asking::Asking;
use crate::entries::documents::{document_at, document_name};
use crate::entries::lines::{layer_read, scripts_read};
use crate::entries::snapshots::holder_name;
use crate::entries::verdicts::verdict_of;
use crate::{BookState, Request};
use char_documents::{Doc, DocFault};
use command_bytes::id_of;
use mark_base::{Bytes, Memory, Slug, Text};
use std::alloc::Global;
use std::sync::Arc;

/// A text is added, where it is one of a document.
pub(crate) fn add_text_asked(
    alloc: Global,
    by: &Slug,
    name: &Slug,
    text: &Text,
) -> Result<Option<Asking>, Memory>
    ensures { IfOk result (λ told. MatchOption told (200000 < length (chars text.now)) (λ asking. plain_asking asking ≡ (by.now, AddText name.now (chars text.now)))) }
{
    match Doc::new(alloc, text.text()) {
        Ok(text) => Ok(Some(Asking {
            caller: by.copy()?,
            request: Request::AddText {
                doc: name.copy()?,
                text,
            },
        })),
        Err(DocFault::TooLong) => Ok(None),
        Err(DocFault::Memory) => Err(Memory),
    }
}

/// A layer is checked out.
pub(crate) fn checkout_asked(
    state: &BookState,
    by: &Slug,
    doc: u32,
) -> Result<Option<Asking>, Memory>
    ensures { IfOk result (Reads state.now.state (Entry.Checkout by.now doc)) }
{
    let Some(name) = document_name(state, doc)? else {
        return Ok(None);
    };
    Ok(Some(Asking {
        caller: by.copy()?,
        request: Request::Checkout { doc: name },
    }))
}

/// A layer is checked out anew.
pub(crate) fn take_over_asked(
    state: &BookState,
    by: &Slug,
    doc: u32,
) -> Result<Option<Asking>, Memory>
    ensures { IfOk result (Reads state.now.state (Entry.TakeOver by.now doc)) }
{
    let Some(name) = document_name(state, doc)? else {
        return Ok(None);
    };
    Ok(Some(Asking {
        caller: by.copy()?,
        request: Request::TakeOver { doc: name },
    }))
}

/// A layer is committed, where the lines are those of one.
pub(crate) fn commit_asked(
    alloc: Global,
    state: &BookState,
    by: &Slug,
    doc: u32,
    hold: u64,
    lines: &Text,
) -> Result<Option<Asking>, Memory>
    ensures { IfOk result (Reads state.now.state (Entry.Commit by.now doc hold lines.now)) }
{
    let Some(document) = document_at(state, doc) else {
        return Ok(None);
    };
    let Some(layer) = layer_read(alloc, lines, document.text(), state.conf())? else {
        return Ok(None);
    };
    Ok(Some(Asking {
        caller: by.copy()?,
        request: Request::Commit {
            doc: document.line()?.name,
            hold,
            layer: Arc::new(alloc, layer)?,
        },
    }))
}

/// A layer is parked, where the bytes are those of two scripts.
pub(crate) fn park_asked(
    alloc: Global,
    state: &BookState,
    by: &Slug,
    doc: u32,
    hold: u64,
    commands: &Bytes,
) -> Result<Option<Asking>, Memory>
    ensures { IfOk result (Reads state.now.state (Entry.Park by.now doc hold commands.now)) }
{
    let Some(document) = document_at(state, doc) else {
        return Ok(None);
    };
    let Some(scripts) = scripts_read(alloc, commands, document.text(), state.conf())? else {
        return Ok(None);
    };
    Ok(Some(Asking {
        caller: by.copy()?,
        request: Request::Park {
            doc: document.line()?.name,
            hold,
            done: scripts.done,
            undone: scripts.undone,
        },
    }))
}

/// A layer is finished.
pub(crate) fn finish_asked(state: &BookState, by: &Slug, doc: u32) -> Result<Option<Asking>, Memory>
    ensures { IfOk result (Reads state.now.state (Entry.Finish by.now doc)) }
{
    let Some(name) = document_name(state, doc)? else {
        return Ok(None);
    };
    Ok(Some(Asking {
        caller: by.copy()?,
        request: Request::Finish { doc: name },
    }))
}

/// A layer is opened again.
pub(crate) fn reopen_asked(
    state: &BookState,
    by: &Slug,
    doc: u32,
    who: &Slug,
) -> Result<Option<Asking>, Memory>
    ensures { IfOk result (Reads state.now.state (Entry.Reopen by.now doc who.now)) }
{
    let Some(name) = document_name(state, doc)? else {
        return Ok(None);
    };
    Ok(Some(Asking {
        caller: by.copy()?,
        request: Request::Reopen {
            doc: name,
            who: who.copy()?,
        },
    }))
}

/// A layer is left out of the tables.
pub(crate) fn ignore_asked(
    state: &BookState,
    by: &Slug,
    doc: u32,
    who: &Slug,
) -> Result<Option<Asking>, Memory>
    ensures { IfOk result (Reads state.now.state (Entry.Ignore by.now doc who.now)) }
{
    let Some(name) = document_name(state, doc)? else {
        return Ok(None);
    };
    Ok(Some(Asking {
        caller: by.copy()?,
        request: Request::Ignore {
            doc: name,
            who: who.copy()?,
        },
    }))
}

/// A layer is put back into the tables.
pub(crate) fn readmit_asked(
    state: &BookState,
    by: &Slug,
    doc: u32,
    who: &Slug,
) -> Result<Option<Asking>, Memory>
    ensures { IfOk result (Reads state.now.state (Entry.Readmit by.now doc who.now)) }
{
    let Some(name) = document_name(state, doc)? else {
        return Ok(None);
    };
    Ok(Some(Asking {
        caller: by.copy()?,
        request: Request::Readmit {
            doc: name,
            who: who.copy()?,
        },
    }))
}

/// A snapshot is taken.
pub(crate) fn snap_asked(state: &BookState, by: &Slug, doc: u32) -> Result<Option<Asking>, Memory>
    ensures { IfOk result (Reads state.now.state (Entry.Snap by.now doc)) }
{
    let Some(name) = document_name(state, doc)? else {
        return Ok(None);
    };
    Ok(Some(Asking {
        caller: by.copy()?,
        request: Request::Snap { doc: name },
    }))
}

/// An item as an entry names it: the number of the snapshot, the place of the holder, and the place of the letter
/// and the number of the ID.
#[derive(Clone, Copy)]
pub(crate) struct NamedItem {
    pub(crate) snapshot: u64,
    pub(crate) holder: u8,
    pub(crate) kind: u8,
    pub(crate) number: u32,
}

/// A verdict on an item is given.
pub(crate) fn decide_asked(
    state: &BookState,
    by: &Slug,
    item: NamedItem,
    accept: bool,
) -> Result<Option<Asking>, Memory>
    ensures { IfOk result (Reads state.now.state (Entry.Decide by.now item.snapshot item.holder item.kind item.number accept)) }
{
    let Some(id) = id_of(item.kind, item.number) else {
        return Ok(None);
    };
    let Some(holder) = holder_name(state, item.snapshot, item.holder)? else {
        return Ok(None);
    };
    Ok(Some(Asking {
        caller: by.copy()?,
        request: Request::Decide {
            number: item.snapshot,
            holder,
            id,
            verdict: verdict_of(accept),
        },
    }))
}

/// The verdict on an item is taken back.
pub(crate) fn undecide_asked(
    state: &BookState,
    by: &Slug,
    item: NamedItem,
) -> Result<Option<Asking>, Memory>
    ensures { IfOk result (Reads state.now.state (Entry.Undecide by.now item.snapshot item.holder item.kind item.number)) }
{
    let Some(id) = id_of(item.kind, item.number) else {
        return Ok(None);
    };
    let Some(holder) = holder_name(state, item.snapshot, item.holder)? else {
        return Ok(None);
    };
    Ok(Some(Asking {
        caller: by.copy()?,
        request: Request::Undecide {
            number: item.snapshot,
            holder,
            id,
        },
    }))
}

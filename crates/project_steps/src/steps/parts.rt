//! What an answer is made of: shared parts of a project, and copies.
ghost use Rattle.std.specs.Prelude.{◌≡◌, IfOk, map, true};
ghost use Rattle.std.specs.Arc.{arc_value};
ghost use Rattle.project_machine.specs.Machine.{line_of, out_of};
ghost use Rattle.project_machine.specs.ProjectState.{document, is_there, number_of, row_in};
ghost use Rattle.project_state.specs.Values as plain;

use crate::steps::rows::revision;
use char_documents::Doc;
use conf_model::Conf;
use layer_model::Layer;
use layer_undo::Script;
use mark_base::{Memory, Slug};
use project_state::{BookState, DocList, Out};
use std::alloc::Global;
use std::sync::Arc;

/// One more owner of a value.
pub(crate) fn share<T: Drop>(value: &Arc<T>) -> Result<Arc<T>, Memory>
    ensures { IfOk result (λ shared. arc_value shared ≡ arc_value value.now) }
{
    let shared = value.clone()?;
    Ok(shared)
}

/// The configuration, shared.
pub(crate) fn share_conf(state: &BookState) -> Result<Arc<Conf>, Memory>
    ensures { IfOk result (λ conf. arc_value conf ≡ state.now.state.conf) }
{
    share(state.conf())
}

/// The number of the document of a name; without one, their count.
pub(crate) fn doc_number(state: &BookState, name: &Slug) -> Result<u32, Memory>
    ensures { IfOk result (λ number. number ≡ number_of state.now.state name.now) }
{
    match u32::try_from(state.number_of(name)) {
        Ok(number) => Ok(number),
        Err(_) => Err(Memory),
    }
}

/// The text of the document of a name, shared.
pub(crate) fn share_text(state: &BookState, name: &Slug) -> Result<Arc<Doc>, Memory>
    requires { is_there state.now.state name.now ≡ true }
    ensures { IfOk result (λ doc. arc_value doc ≡ (document state.now.state (number_of state.now.state name.now)).text) }
{
    match state.document(name) {
        Some(document) => share(document.text()),
        None => unreachable!(),
    }
}

/// The layer of a row, shared.
pub(crate) fn share_layer(
    alloc: Global,
    state: &BookState,
    name: &Slug,
    who: &Slug,
) -> Result<Arc<Layer>, Memory>
    ensures { IfOk result (λ layer. arc_value layer ≡ (row_in state.now.state name.now who.now).layer) }
{
    match state.row_in(name, who) {
        Some(row) => share(row.layer()),
        None => Ok(Arc::new(alloc, Layer::new(alloc))?),
    }
}

/// A copy of the parked commands that were done.
fn copy_done(alloc: Global, state: &BookState, name: &Slug, who: &Slug) -> Result<Script, Memory>
    ensures { IfOk result (λ done. done ≡ (row_in state.now.state name.now who.now).done) }
{
    match state.row_in(name, who) {
        Some(row) => row.done().copy(),
        None => Ok(Script::new(alloc)),
    }
}

/// A copy of the parked commands that were undone.
fn copy_undone(alloc: Global, state: &BookState, name: &Slug, who: &Slug) -> Result<Script, Memory>
    ensures { IfOk result (λ undone. undone ≡ (row_in state.now.state name.now who.now).undone) }
{
    match state.row_in(name, who) {
        Some(row) => row.undone().copy(),
        None => Ok(Script::new(alloc)),
    }
}

/// A layer as it is handed out at the next place. Cost: the parked commands.
pub(crate) fn hand_out(
    alloc: Global,
    state: &BookState,
    name: &Slug,
    who: &Slug,
) -> Result<Out, Memory>
    requires { is_there state.now.state name.now ≡ true }
    ensures { IfOk result (λ out. plain.out_of out ≡ out_of state.now.state (document state.now.state (number_of state.now.state name.now)) (row_in state.now.state name.now who.now)) }
{
    let place = state.place();
    if place == u64::MAX {
        return Err(Memory);
    }
    Ok(Out {
        hold: place + 1,
        revision: revision(state, name, who),
        base: share_layer(alloc, state, name, who)?,
        done: copy_done(alloc, state, name, who)?,
        undone: copy_undone(alloc, state, name, who)?,
        doc: share_text(state, name)?,
        conf: share_conf(state)?,
    })
}

/// The list of documents. Cost: the documents.
pub(crate) fn doc_list(alloc: Global, state: &BookState) -> Result<DocList, Memory>
    ensures { IfOk result (λ list. list ≡ map line_of state.now.state.documents) }
{
    let mut lines = Vec::new(alloc);
    for document in state.document_list() {
        lines.push(document.line()?)?;
    }
    Ok(DocList::from_vec(lines))
}

//! What a change does to the tables of agreement.
ghost use Rattle.std.specs.Prelude.{◌≡◌, ◌<◌, ℕ, IfOk, false, length, slice_index};
ghost use Rattle.char_documents.specs.Tokens.{tokens_of};
ghost use Rattle.label_tracks.specs.Labels.{labels_of};
ghost use Rattle.label_tracks.specs.Levels.{grouping_of};
ghost use Rattle.project_machine.specs.Legal.{IsKept};
ghost use Rattle.project_machine.specs.ProjectState.{annotators, document};
ghost use Rattle.project_state.specs.Acting.{CanAct, FitsRows};
ghost use Rattle.project_state.specs.Tables.Tabling.{IsTableAct, Posts};

use crate::{Act, BookState, StoredDocument};
use char_documents::Doc;
use label_tracks::{Groups, LabelRow, row_of};
use layer_model::Layer;
use mark_base::Memory;
use std::alloc::Global;
use std::sync::Arc;

/// What a change does to the tables of agreement. `doc` is the number of a document and `rater` the place of an
/// annotator among the annotators, from 0.
#[derive(Drop)]
pub enum TableAct {
    /// A document of so many tokens comes in.
    Admit { tokens: u32 },
    /// The labels of an annotator on a document stand, in place of those that stood.
    Post { doc: u32, rater: u8, row: LabelRow },
    /// The labels of an annotator on a document stand no more.
    Drop { doc: u32, rater: u8 },
    /// Nothing changes.
    Nothing,
}

/// A document comes in.
fn admitted(added: &StoredDocument) -> TableAct
    ensures { result ≡ TableAct.Admit (length (tokens_of added.now.text)) }
{
    let text: &Doc = added.text();
    let _few = text.char_count();
    TableAct::Admit {
        tokens: text.tokens().len() as u32,
    }
}

/// The document of a number that is there.
#[tactic(auto, using(crate::proofs::StoredLemmas::got))]
pub(crate) fn document_there(state: &BookState, doc: usize) -> &StoredDocument
    requires { doc < length state.now.state.documents }
    ensures { result.now ≡ document state.now.state doc }
{
    match state.document_at(doc) {
        Some(document) => document,
        None => unreachable!(),
    }
}

/// The labels that a layer gives to the text of a document.
#[tactic(auto, using(crate::proofs::TablesProofs::TablingLemmas::grouped, crate::proofs::TablesProofs::TablingLemmas::level_of))]
pub(crate) fn labels_of(
    alloc: Global,
    state: &BookState,
    groups: &Groups,
    doc: &Doc,
    layer: &Layer,
) -> Result<LabelRow, Memory>
    requires { groups.now ≡ grouping_of state.now.state.conf.types state.now.state.level }
    ensures labels { IfOk result (λ row. row ≡ labels_of state.now.state.conf.types state.now.state.level layer.now doc.now) }
    ensures long { IfOk result (λ row. length row ≡ length (tokens_of doc.now)) }
    ensures below { IfOk result (λ row. (i : ℕ) → i < length row → slice_index row i < groups.now.width) }
{
    let row = row_of(alloc, layer, doc, state.conf(), groups)?;
    Ok(row)
}

/// The labels of a layer of a document stand.
fn posted(
    alloc: Global,
    state: &BookState,
    groups: &Groups,
    doc: usize,
    rater: usize,
    layer: &Layer,
) -> Result<TableAct, Memory>
    requires kept { IsKept state.now.state }
    requires groups { groups.now ≡ grouping_of state.now.state.conf.types state.now.state.level }
    requires doc_in { doc < length state.now.state.documents }
    requires rater_in { rater < length (annotators state.now.state) }
    ensures { IfOk result (Posts state.now.state doc rater layer.now) }
{
    let document = document_there(state, doc);
    let row = labels_of(alloc, state, groups, document.text(), layer)?;
    Ok(TableAct::Post {
        doc: doc as u32,
        rater: rater as u8,
        row,
    })
}

/// A layer is committed: its labels stand, unless the row is ignored.
fn committed(
    alloc: Global,
    state: &BookState,
    groups: &Groups,
    doc: usize,
    rater: usize,
    layer: &Arc<Layer>,
) -> Result<TableAct, Memory>
    requires kept { IsKept state.now.state }
    requires groups { groups.now ≡ grouping_of state.now.state.conf.types state.now.state.level }
    requires doc_in { doc < length state.now.state.documents }
    requires rater_in { rater < length (annotators state.now.state) }
    ensures { IfOk result (IsTableAct state.now.state (Act.Commit doc rater layer.now)) }
{
    let Some(row) = state.row(doc, rater) else {
        unreachable!()
    };
    if row.is_ignored() {
        Ok(TableAct::Nothing)
    } else {
        posted(alloc, state, groups, doc, rater, layer)
    }
}

/// A row is put back: its labels stand again.
fn readmitted(
    alloc: Global,
    state: &BookState,
    groups: &Groups,
    doc: usize,
    rater: usize,
) -> Result<TableAct, Memory>
    requires kept { IsKept state.now.state }
    requires groups { groups.now ≡ grouping_of state.now.state.conf.types state.now.state.level }
    requires doc_in { doc < length state.now.state.documents }
    requires rater_in { rater < length (annotators state.now.state) }
    ensures { IfOk result (IsTableAct state.now.state (Act.Ignore doc rater false)) }
{
    let Some(row) = state.row(doc, rater) else {
        unreachable!()
    };
    if row.revision() == 0 {
        Ok(TableAct::Nothing)
    } else {
        posted(alloc, state, groups, doc, rater, row.layer())
    }
}

/// What an act does to the tables that stand at a state. Cost: for a commit and for a layer that is put back as of
/// `row_of`.
pub fn table_act(
    alloc: Global,
    state: &BookState,
    groups: &Groups,
    act: &Act,
) -> Result<TableAct, Memory>
    requires kept { IsKept state.now.state }
    requires groups { groups.now ≡ grouping_of state.now.state.conf.types state.now.state.level }
    requires fits { FitsRows act.now state.now.state }
    requires can { CanAct act.now state.now.state }
    ensures { IfOk result (IsTableAct state.now.state act.now) }
{
    match act {
        Act::AddDocument(added) => Ok(admitted(added)),
        Act::Hold { .. } => Ok(TableAct::Nothing),
        Act::Commit { doc, rater, layer } => committed(alloc, state, groups, *doc, *rater, layer),
        Act::Park { .. } => Ok(TableAct::Nothing),
        Act::Finish { .. } => Ok(TableAct::Nothing),
        Act::Ignore {
            doc,
            rater,
            ignored,
        } => {
            if *ignored {
                Ok(TableAct::Drop {
                    doc: *doc as u32,
                    rater: *rater as u8,
                })
            } else {
                readmitted(alloc, state, groups, *doc, *rater)
            }
        }
        Act::Snap(_) => Ok(TableAct::Nothing),
        Act::Decide { .. } => Ok(TableAct::Nothing),
        Act::FreeAll => Ok(TableAct::Nothing),
    }
}

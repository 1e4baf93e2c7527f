//! The answers to requests on texts and rows that are not refused, and the changes that they make.
ghost use Rattle.std.specs.Prelude.{◌≡◌, IfOk, false, true};
ghost use Rattle.std.specs.Arc.{arc_value};
ghost use Rattle.project_machine.specs.Machine.{is_full};
ghost use Rattle.project_machine.specs.ProjectState.{is_annotator, is_there};
ghost use Rattle.project_machine.specs.Requests.{AddText, Checkout, Commit, Finish, Ignore, ListDocs, Park, ReadConf, ReadLayer, ReadText, Readmit, Reopen, TakeOver};
ghost use Rattle.project_steps.specs.Steps.Accepting.{Accepts};

use crate::steps::accepted::{Accepted, Made};
use crate::steps::parts::{
    doc_list, doc_number, hand_out, share, share_conf, share_layer, share_text,
};
use crate::steps::rows::revision;
use char_documents::Doc;
use layer_model::Layer;
use layer_undo::Script;
use mark_base::{Memory, Slug};
use project_state::{Act, BookState, Change, Reply, StoredDocument};
use std::alloc::Global;
use std::sync::Arc;

/// The configuration is read.
pub(crate) fn accept_read_conf(state: &BookState, by: &Slug) -> Result<Accepted, Memory>
    ensures { IfOk result (Accepts state.now.state by.now ReadConf) }
{
    Ok(Accepted {
        reply: Reply::Conf(share_conf(state)?),
        made: None,
    })
}

/// The documents are listed. Cost: their number.
pub(crate) fn accept_list_docs(
    alloc: Global,
    state: &BookState,
    by: &Slug,
) -> Result<Accepted, Memory>
    ensures { IfOk result (Accepts state.now.state by.now ListDocs) }
{
    Ok(Accepted {
        reply: Reply::Docs(doc_list(alloc, state)?),
        made: None,
    })
}

/// A text is read.
pub(crate) fn accept_read_text(state: &BookState, by: &Slug, doc: &Slug) -> Result<Accepted, Memory>
    requires { is_there state.now.state doc.now ≡ true }
    ensures { IfOk result (Accepts state.now.state by.now (ReadText doc.now)) }
{
    Ok(Accepted {
        reply: Reply::Text(share_text(state, doc)?),
        made: None,
    })
}

/// A text is added. Cost: a row for each annotator; the text is not copied.
pub(crate) fn accept_add_text(
    alloc: Global,
    state: &BookState,
    by: &Slug,
    doc: Slug,
    text: Doc,
) -> Result<Accepted, Memory>
    requires new { is_there state.now.state doc ≡ false }
    requires room { is_full state.now.state text ≡ false }
    ensures { IfOk result (Accepts state.now.state by.now (AddText doc text)) }
{
    let Ok(tokens) = u32::try_from(text.tokens().len()) else {
        return Err(Memory);
    };
    let shared = Arc::new(alloc, text)?;
    let rows = state.new_rows(alloc)?;
    let added = StoredDocument::new(doc.copy()?, share(&shared)?, rows);
    let change = Change::AddText {
        by: by.copy()?,
        name: doc,
        text: shared,
    };
    Ok(Accepted {
        reply: Reply::Added { tokens },
        made: Some(Made {
            change,
            act: Act::AddDocument(added),
        }),
    })
}

/// A layer is checked out. Cost: the parked commands.
#[tactic(auto, using(crate::proofs::StepsProofs::ActLemmas::checks_out))]
pub(crate) fn accept_checkout(
    alloc: Global,
    state: &BookState,
    by: &Slug,
    name: &Slug,
) -> Result<Accepted, Memory>
    requires { is_there state.now.state name.now ≡ true }
    ensures { IfOk result (Accepts state.now.state by.now (Checkout name.now)) }
{
    let out = hand_out(alloc, state, name, by)?;
    let doc = doc_number(state, name)?;
    let rater = state.rater_of(by);
    let by = by.copy()?;
    Ok(Accepted {
        reply: Reply::Out(out),
        made: Some(Made {
            change: Change::Checkout { by, doc },
            act: Act::Hold {
                doc: doc as usize,
                rater,
            },
        }),
    })
}

/// A layer is taken over. Cost: the parked commands.
#[tactic(auto, using(crate::proofs::StepsProofs::ActLemmas::takes_over))]
pub(crate) fn accept_take_over(
    alloc: Global,
    state: &BookState,
    by: &Slug,
    name: &Slug,
) -> Result<Accepted, Memory>
    requires { is_there state.now.state name.now ≡ true }
    ensures { IfOk result (Accepts state.now.state by.now (TakeOver name.now)) }
{
    let out = hand_out(alloc, state, name, by)?;
    let doc = doc_number(state, name)?;
    let rater = state.rater_of(by);
    let by = by.copy()?;
    Ok(Accepted {
        reply: Reply::Out(out),
        made: Some(Made {
            change: Change::TakeOver { by, doc },
            act: Act::Hold {
                doc: doc as usize,
                rater,
            },
        }),
    })
}

/// A layer is committed; it is not copied.
#[tactic(auto, using(crate::proofs::StepsProofs::ActLemmas::commits))]
pub(crate) fn accept_commit(
    state: &BookState,
    by: &Slug,
    name: &Slug,
    hold: u64,
    layer: Arc<Layer>,
) -> Result<Accepted, Memory>
    requires there { is_there state.now.state name.now ≡ true }
    requires own { is_annotator state.now.state by.now ≡ true }
    ensures { IfOk result (Accepts state.now.state by.now (Commit name.now hold (arc_value layer))) }
{
    let revision = revision(state, name, by);
    if revision == u64::MAX {
        return Err(Memory);
    }
    let doc = doc_number(state, name)?;
    let rater = state.rater_of(by);
    let by = by.copy()?;
    let act = Act::Commit {
        doc: doc as usize,
        rater,
        layer: share(&layer)?,
    };
    let change = Change::Commit {
        by,
        doc,
        hold,
        layer,
    };
    Ok(Accepted {
        reply: Reply::Committed {
            revision: revision + 1,
        },
        made: Some(Made { change, act }),
    })
}

/// A layer is parked. Cost: a copy of the commands.
#[tactic(auto, using(crate::proofs::StepsProofs::ActLemmas::parks))]
pub(crate) fn accept_park(
    state: &BookState,
    by: &Slug,
    name: &Slug,
    hold: u64,
    done: Script,
    undone: Script,
) -> Result<Accepted, Memory>
    ensures { IfOk result (Accepts state.now.state by.now (Park name.now hold done undone)) }
{
    let doc = doc_number(state, name)?;
    let rater = state.rater_of(by);
    let by = by.copy()?;
    let act = Act::Park {
        doc: doc as usize,
        rater,
        done: done.copy()?,
        undone: undone.copy()?,
    };
    let change = Change::Park {
        by,
        doc,
        hold,
        done,
        undone,
    };
    Ok(Accepted {
        reply: Reply::Parked,
        made: Some(Made { change, act }),
    })
}

/// A layer is finished.
#[tactic(auto, using(crate::proofs::StepsProofs::ActLemmas::finishes))]
pub(crate) fn accept_finish(state: &BookState, by: &Slug, name: &Slug) -> Result<Accepted, Memory>
    ensures { IfOk result (Accepts state.now.state by.now (Finish name.now)) }
{
    let doc = doc_number(state, name)?;
    let rater = state.rater_of(by);
    let by = by.copy()?;
    Ok(Accepted {
        reply: Reply::Finished(true),
        made: Some(Made {
            change: Change::Finish { by, doc },
            act: Act::Finish {
                doc: doc as usize,
                rater,
                finished: true,
            },
        }),
    })
}

/// A layer is read.
pub(crate) fn accept_read_layer(
    alloc: Global,
    state: &BookState,
    by: &Slug,
    doc: &Slug,
    who: &Slug,
) -> Result<Accepted, Memory>
    requires { is_there state.now.state doc.now ≡ true }
    ensures { IfOk result (Accepts state.now.state by.now (ReadLayer doc.now who.now)) }
{
    let layer = share_layer(alloc, state, doc, who)?;
    let text = share_text(state, doc)?;
    let conf = share_conf(state)?;
    Ok(Accepted {
        reply: Reply::Layer(layer, text, conf),
        made: None,
    })
}

/// A layer is opened again.
#[tactic(auto, using(crate::proofs::StepsProofs::ActLemmas::reopens))]
pub(crate) fn accept_reopen(
    state: &BookState,
    by: &Slug,
    name: &Slug,
    who: Slug,
) -> Result<Accepted, Memory>
    ensures { IfOk result (Accepts state.now.state by.now (Reopen name.now who)) }
{
    let doc = doc_number(state, name)?;
    let rater = state.rater_of(&who);
    let by = by.copy()?;
    Ok(Accepted {
        reply: Reply::Finished(false),
        made: Some(Made {
            change: Change::Reopen { by, doc, who },
            act: Act::Finish {
                doc: doc as usize,
                rater,
                finished: false,
            },
        }),
    })
}

/// A layer is left out of the tables.
#[tactic(auto, using(crate::proofs::StepsProofs::ActLemmas::ignores))]
pub(crate) fn accept_ignore(
    state: &BookState,
    by: &Slug,
    name: &Slug,
    who: Slug,
) -> Result<Accepted, Memory>
    requires there { is_there state.now.state name.now ≡ true }
    requires whose { is_annotator state.now.state who ≡ true }
    ensures { IfOk result (Accepts state.now.state by.now (Ignore name.now who)) }
{
    let doc = doc_number(state, name)?;
    let rater = state.rater_of(&who);
    let by = by.copy()?;
    Ok(Accepted {
        reply: Reply::Ignored(true),
        made: Some(Made {
            change: Change::Ignore { by, doc, who },
            act: Act::Ignore {
                doc: doc as usize,
                rater,
                ignored: true,
            },
        }),
    })
}

/// A layer is put back into the tables.
#[tactic(auto, using(crate::proofs::StepsProofs::ActLemmas::readmits))]
pub(crate) fn accept_readmit(
    state: &BookState,
    by: &Slug,
    name: &Slug,
    who: Slug,
) -> Result<Accepted, Memory>
    requires there { is_there state.now.state name.now ≡ true }
    requires whose { is_annotator state.now.state who ≡ true }
    ensures { IfOk result (Accepts state.now.state by.now (Readmit name.now who)) }
{
    let doc = doc_number(state, name)?;
    let rater = state.rater_of(&who);
    let by = by.copy()?;
    Ok(Accepted {
        reply: Reply::Ignored(false),
        made: Some(Made {
            change: Change::Readmit { by, doc, who },
            act: Act::Ignore {
                doc: doc as usize,
                rater,
                ignored: false,
            },
        }),
    })
}

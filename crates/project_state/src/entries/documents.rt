//! Documents by their numbers.
ghost use Rattle.std.specs.Prelude.{◌≡◌, [], IfOk, IfSome, MatchOption, is_some, length, nat_lt};
ghost use Rattle.project_machine.specs.ProjectState.{document};

use crate::{BookState, StoredDocument};
use mark_base::{Memory, Slug};

/// The document of a number, from 0.
#[tactic(auto, using(crate::proofs::EntriesProofs::PlaceLemmas::found_at, crate::proofs::EntriesProofs::PlaceLemmas::there_at, crate::proofs::EntriesProofs::PlaceLemmas::nowhere_at))]
pub(crate) fn document_at(state: &BookState, doc: u32) -> Option<&StoredDocument>
    ensures there { is_some result ≡ nat_lt doc (length state.now.state.documents) }
    ensures here { IfSome result (λ found. found.now ≡ document state.now.state doc) }
{
    match state.document_list().get(doc as usize) {
        Some(document) => Some(document),
        None => None,
    }
}

/// The name of the document of a number.
pub(crate) fn document_name(state: &BookState, doc: u32) -> Result<Option<Slug>, Memory>
    ensures { IfOk result (λ found. MatchOption found ((document state.now.state doc).name ≡ []) (λ name. name ≡ (document state.now.state doc).name)) }
{
    match document_at(state, doc) {
        Some(document) => Ok(Some(document.line()?.name)),
        None => Ok(None),
    }
}

//! The pieces of documents.
ghost use Rattle.std.specs.Prelude.{◌≡◌, ◌∷◌, ◌++◌, [], IfOk, OnOk, map};
ghost use Rattle.entry_bytes.specs.Entries.{entry_bytes};
ghost use Rattle.project_machine.specs.Entries.{document_piece};

use crate::state_pieces::run::Run;
use entry_bytes::Entry;
use mark_base::{Memory, Text};
use project_state::StoredDocument;
use std::alloc::Global;

/// The piece of a document.
fn document_piece(alloc: Global, document: &StoredDocument) -> Result<Entry, Memory>
    ensures { IfOk result (λ piece. piece ≡ document_piece document.now) }
{
    Ok(Entry::Document {
        name: document.name().copy()?,
        text: Text::of(alloc, document.text().text())?,
    })
}

/// Puts the piece of a document.
fn put_document(alloc: Global, document: &StoredDocument, run: &mut Run) -> Result<(), Memory>
    ensures { OnOk result (run.new ≡ run.old ++ map entry_bytes (document_piece document.now ∷ [])) }
{
    let piece = document_piece(alloc, document)?;
    run.put(alloc, &piece)
}

/// Puts the pieces of documents.
pub(crate) fn put_documents(
    alloc: Global,
    documents: &[StoredDocument],
    run: &mut Run,
) -> Result<(), Memory>
    ensures { OnOk result (run.new ≡ run.old ++ map entry_bytes (map document_piece documents.now)) }
{
    for document in documents {
        put_document(alloc, document, run)?;
    }
    Ok(())
}

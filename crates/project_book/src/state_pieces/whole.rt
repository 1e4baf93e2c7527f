//! The pieces of a whole state.
ghost use Rattle.std.specs.Prelude.{◌≡◌, ◌∷◌, ◌++◌, [], IfOk, OnOk, map};
ghost use Rattle.std.specs.List.{All};
ghost use Rattle.entry_bytes.specs.Entries.{entry_bytes};
ghost use Rattle.project_journal.specs.Keeper.{IsEntry};
ghost use Rattle.project_machine.specs.Entries.{first_piece, pieces_of};
ghost use Rattle.project_machine.specs.Legal.{IsKept};

use crate::state_pieces::documents::put_documents;
use crate::state_pieces::rows::put_rows;
use crate::state_pieces::run::Run;
use crate::state_pieces::snapshots::put_snapshots;
use annotation_conf::write_conf;
use entry_bytes::{Entry, PersonList};
use mark_base::{Bytes, Memory};
use project_state::BookState;
use std::alloc::Global;

/// Puts the first piece: the place, the level, how much follows, the configuration and the people.
#[tactic(auto, using(project_state::proofs::EntriesProofs::RosterLemmas::few_people))]
fn put_first(alloc: Global, state: &BookState, run: &mut Run) -> Result<(), Memory>
    requires { IsKept state.now.state }
    ensures { OnOk result (run.new ≡ run.old ++ map entry_bytes (first_piece state.now.state ∷ [])) }
{
    let piece = Entry::Restored {
        place: state.place(),
        level: state.level(),
        documents: state.documents(),
        snapshots: state.snapshots().len() as u64,
        conf: write_conf(alloc, state.conf())?,
        people: PersonList::of(alloc, state.roster().people())?,
    };
    run.put(alloc, &piece)
}

/// Puts the last piece.
fn put_end(alloc: Global, run: &mut Run) -> Result<(), Memory>
    ensures { OnOk result (run.new ≡ run.old ++ map entry_bytes (Entry.End ∷ [])) }
{
    run.put(alloc, &Entry::End)
}

/// The pieces of a project's state in their order, each as the bytes of its entry: how it stands at its place, without
/// the history behind it. Holds of layers that are out are not among them. `Memory` is answered too where a piece
/// would have more than 16,777,216 bytes. Cost, read off the code and not measured: the bytes of the pieces, what
/// `write_ann` says of each layer, and for each row the people.
pub fn pieces(alloc: Global, state: &BookState) -> Result<Vec<Bytes>, Memory>
    // As steps leave a state: what it has was accepted, so that it can be written.
    requires { IsKept state.now.state }
    ensures pieces { IfOk result (λ pieces. pieces.items ≡ map entry_bytes (pieces_of state.now.state)) }
    // Each has 1 to 16,777,216 bytes.
    ensures entries { IfOk result (λ pieces. All IsEntry pieces.items) }
{
    let mut run = Run::new(alloc);
    put_first(alloc, state, &mut run)?;
    put_documents(alloc, state.document_list(), &mut run)?;
    put_rows(alloc, state, &mut run)?;
    put_snapshots(alloc, state, &mut run)?;
    put_end(alloc, &mut run)?;
    Ok(run.into_vec())
}

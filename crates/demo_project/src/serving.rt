//! The session: one connection in memory.
ghost use Rattle.std.specs.Prelude.{◌≡◌, ◌≤◌, IfOk, codes, drop, length, nat_eq};
ghost use Rattle.std.specs.List.{starts_with};
ghost use Rattle.mark_base.specs.FailList.{IsFaultless};
ghost use Rattle.project_journal.specs.MemoryKeepers.{fails_of_appends};
ghost use Rattle.demo_project.specs.Sessions.{ServesAll, says_unable};

use annotation_http::{Ending, Start, serve_link};
use mark_base::{Bytes, Memory, MemoryLink, Steps};
use project_book::{Alone, Book};
use project_journal::MemoryKeeper;
use std::alloc::Global;
use std::sync::ledger::Ledger;

/// How an answer begins that says that memory ran out.
const UNABLE: &[u8] = b"HTTP/1.1 503";

/// Whether the bytes from a place on begin with the first line of an answer that says that memory ran out.
fn begins_unable(bytes: &[u8], at: usize) -> bool
    requires { at ≤ length bytes.now }
    ensures { result ≡ starts_with nat_eq (drop at bytes.now) (codes "HTTP/1.1 503") }
{
    let (_, rest) = bytes.split_at(at);
    rest.starts_with(UNABLE)
}

/// Whether the bytes have the first line of an answer that says that memory ran out.
fn says_unable(bytes: &[u8]) -> bool
    ensures { result ≡ says_unable bytes.now }
{
    for at in 0..bytes.len() {
        if begins_unable(bytes, at) {
            return true;
        }
    }
    false
}

/// Serves the messages with a project, and gives the project back.
///
/// Where memory ran out, be it for one answer, `Memory` is answered; so it is where the session ends otherwise than
/// between two messages.
pub(crate) fn serve<G: Ledger>(
    alloc: Global,
    book: Book<MemoryKeeper>,
    input: Bytes,
    steps: &mut Steps<G>,
) -> Result<Book<MemoryKeeper>, Memory>
    requires sure { IsFaultless (fails_of_appends book.keeper) }
    ensures told { IfOk result (λ left. ServesAll (fails_of_appends book.keeper) book.log input left.log) }
{
    book.keeps();
    let mut visitor = Alone::new(book);
    let mut link = MemoryLink::new(alloc, input, Vec::new(alloc), Vec::new(alloc));
    match serve_link(alloc, &mut visitor, Start::Bare, &mut link, steps) {
        Ending::End => {}
        _ => return Err(Memory),
    }
    if says_unable(link.written()) {
        return Err(Memory);
    }
    Ok(visitor.into_book())
}

//! The connections of a case, served one after another.
ghost use Rattle.std.specs.Prelude.{◌≡◌, ◌≤◌, [], None, IfSome};
ghost use Rattle.project_machine.specs.Legal.{IsLegal};

use crate::case_fault::{CaseFault, CaseWhat};
use crate::cases::Case;
use crate::links::talk::{Talk, talk_of};
use crate::links::turns::serve_turns;
use crate::people::{conf_of, roster_of};
use annotation_http::{Start, serve_link};
use mark_base::{Bytes, MemoryLink, Steps};
use project_book::{Alone, Book, Visitor};
use project_journal::{Keeper, MemoryKeeper};
use std::alloc::Global;
use std::sync::ledger::Ledger;

/// How the bytes of a link come.
#[derive(Clone, Copy, PartialEq, Eq)]
enum Pieces {
    Whole,
    OneByte,
}

/// The project of a case, or nothing where its founding is not kept.
fn found<K: Keeper>(alloc: Global, case: &Case<'_>, keeper: K) -> Result<Option<Book<K>>, CaseFault>
    requires empty { IfSome (K.kept keeper) (λ told. told ≡ []) }
    requires certain { K.doubt keeper ≡ None }
{
    let conf = conf_of(alloc, case.section("conf"))?;
    let roster = roster_of(alloc, case.section("people"))?;
    Ok(Book::found(alloc, keeper, conf, roster).ok())
}

/// A link with the bytes of a connection.
fn link_of(alloc: Global, sent: &[u8], pieces: Pieces) -> Result<MemoryLink, CaseFault> {
    let bytes = Bytes::of(alloc, sent)?;
    if pieces == Pieces::Whole {
        return Ok(MemoryLink::new(alloc, bytes, Vec::new(alloc), Vec::new(alloc)));
    }
    let sizes = vec![in alloc; 1usize; sent.len()]?;
    Ok(MemoryLink::cut_into(alloc, bytes, sizes))
}

/// Serves a connection, and gives what differs.
fn serve<V: Visitor, G: Ledger>(
    alloc: Global,
    visitor: &mut V,
    talk: &Talk,
    pieces: Pieces,
    steps: &mut Steps<G>,
) -> Result<String, CaseFault>
    requires room { 1000002 ≤ (V.visiting visitor.old).room }
    requires legal { IsLegal (V.visiting visitor.old).seen }
    ensures { IsLegal (V.visiting visitor.new).seen }
{
    let mut link = link_of(alloc, talk.sent.as_slice(), pieces)?;
    let ending = serve_link(alloc, visitor, Start::Bare, &mut link, steps);
    let ended = format!(in alloc; "{ending:?}")?;
    if link.written() == talk.answered.as_slice() && ended.as_str() == talk.ending.as_str() {
        return Ok(String::new(alloc));
    }
    let got = String::from_utf8_lossy(alloc, link.written())?;
    let wanted = String::from_utf8_lossy(alloc, talk.answered.as_slice())?;
    let ending = talk.ending.as_str();
    Ok(format!(in alloc; "it was answered:\n{got}\n{ended}\nand not:\n{wanted}\n{ending}\n")?)
}

/// Serves the connections of a case in turn.
fn serve_all<V: Visitor, G: Ledger>(
    alloc: Global,
    case: &Case<'_>,
    visitor: &mut V,
    pieces: Pieces,
    steps: &mut Steps<G>,
) -> Result<String, CaseFault>
    requires legal { IsLegal (V.visiting visitor.old).seen }
{
    let mut text = String::new(alloc);
    for number in 1u32..=99 {
        let name = format!(in alloc; "connection {number}")?;
        if !case.has(name.as_str()) {
            break;
        }
        if visitor.room() < 1_000_002 {
            return Err(CaseFault::At {
                line: case.line,
                what: CaseWhat::NoRoom,
            });
        }
        let talk = talk_of(alloc, case.section(name.as_str()))?;
        let differs = serve(alloc, visitor, &talk, pieces, steps)?;
        if !differs.is_empty() {
            text.push_str(name.as_str())?;
            text.push_str(": ")?;
            text.push_str(differs.as_str())?;
        }
    }
    Ok(text)
}

/// Runs a case with the bytes of its links in such pieces, and gives what differs.
fn run_in<G: Ledger>(
    alloc: Global,
    case: &Case<'_>,
    pieces: Pieces,
    steps: &mut Steps<G>,
) -> Result<String, CaseFault> {
    let fails = case.numbers(alloc, "fails")?;
    let keeper = MemoryKeeper::new(alloc, Vec::new(alloc), fails);
    let Some(book) = found(alloc, case, keeper)? else {
        return Ok(String::from_str(alloc, "the project is not founded\n")?);
    };
    book.keeps();
    let mut visitor = Alone::new(book);
    if case.has("turns") {
        return serve_turns(alloc, case, &mut visitor, steps);
    }
    serve_all(alloc, case, &mut visitor, pieces, steps)
}

/// Runs a case, whole and, but where it says `whole`, in pieces of one byte, and gives what differs.
pub(crate) fn run_case<G: Ledger>(
    alloc: Global,
    case: &Case<'_>,
    steps: &mut Steps<G>,
) -> Result<String, CaseFault> {
    let text = run_in(alloc, case, Pieces::Whole, steps)?;
    if !text.is_empty() || case.has("whole") {
        return Ok(text);
    }
    run_in(alloc, case, Pieces::OneByte, steps)
}

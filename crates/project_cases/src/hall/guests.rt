//! Two guests of one hall.
ghost use Rattle.std.specs.Prelude.{◌≡◌, IfOk};

use crate::hall::answers::answers_to;
use crate::hall::projects::{conf, list_messages, put_message, roster};
use anyhow::{Error, Result};
use mark_base::{Bytes, Steps};
use project_book::Book;
use project_journal::{Keeper, MemoryKeeper};
use std::alloc::Global;
use std::sync::Wait;
use std::sync::ledger::Ledger;
use turn_hall::{Guest, Hall, Pass, badges_tell_passes};

/// A project over a keeper in memory.
pub(crate) fn found(alloc: Global) -> Result<Book<MemoryKeeper>> {
    let keeper = MemoryKeeper::new(alloc, Vec::new(alloc), Vec::new(alloc));
    match Book::found(alloc, keeper, conf(alloc)?, roster(alloc)?) {
        Ok(book) => Ok(book),
        Err(_) => Err(Error::msg("the project is not founded")),
    }
}

/// Serves a message by a guest with a pass, and gives the pass back with the answer.
fn serve_by<K: Keeper, R: Wait, G: Ledger>(
    rt: &R,
    alloc: Global,
    hall: &Hall<K>,
    pass: Pass,
    message: Bytes,
    steps: &mut Steps<G>,
) -> Result<(Pass, String)>
    requires { pass.hall ≡ hall.now.id }
    ensures { IfOk result (λ served. served.0.hall ≡ hall.now.id) }
{
    pass.keeps();
    badges_tell_passes();
    let mut guest = Guest::new(rt, hall, pass);
    let text = answers_to(alloc, &mut guest, message, steps)?;
    Ok((guest.into_pass(), text))
}

/// The first guest puts a document, and a note of its pass tells the second, which lists the documents.
pub(crate) fn tell_by_note<R: Wait, G: Ledger>(
    rt: &R,
    alloc: Global,
    steps: &mut Steps<G>,
) -> Result<(String, String)> {
    let Ok((hall, mut first)) = Hall::open(alloc, found(alloc)?) else {
        return Err(Error::msg("the hall is not opened"));
    };
    let mut second = first.split(&hall);
    let message = put_message(alloc, "news")?;
    let (mut first, put) = serve_by(rt, alloc, &hall, first, message, steps)?;
    second.learn(&hall, first.note(&hall));
    let (_, list) = serve_by(rt, alloc, &hall, second, list_messages(alloc, 1)?, steps)?;
    Ok((put, list))
}

//! What a visitor is answered.
ghost use Rattle.std.specs.Prelude.{◌≡◌};
ghost use Rattle.project_machine.specs.Legal.{IsLegal};

use annotation_http::{Start, serve_link};
use anyhow::{Error, Result};
use mark_base::{Bytes, MemoryLink, Steps};
use project_book::Visitor;
use std::alloc::Global;
use std::sync::ledger::Ledger;

/// Serves the messages of a connection by a visitor, and gives the answers and how the connection ends.
pub(crate) fn answers_to<V: Visitor, G: Ledger>(
    alloc: Global,
    visitor: &mut V,
    messages: Bytes,
    steps: &mut Steps<G>,
) -> Result<String>
    requires { IsLegal (V.visiting visitor.old).seen }
    ensures { (V.visiting visitor.new).badge ≡ (V.visiting visitor.old).badge }
{
    if visitor.room() < 1_000_002 {
        return Err(Error::msg("the visitor has no room"));
    }
    let mut link = MemoryLink::new(alloc, messages, Vec::new(alloc), Vec::new(alloc));
    let ending = serve_link(alloc, visitor, Start::Bare, &mut link, steps);
    let answers = String::from_utf8_lossy(alloc, link.written())?;
    Ok(format!(in alloc; "{answers}\n{ending:?}")?)
}

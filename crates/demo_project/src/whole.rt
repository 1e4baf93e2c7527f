//! The whole session of a number.
ghost use Rattle.std.specs.Prelude.{IfOk};
ghost use Rattle.demo_project.specs.Demos.{DemoTold};

use crate::counting::count_messages;
use crate::founding::found;
use crate::input::demo_input;
use crate::serving::serve;
use crate::summary::summary_of;
use http_wire::bytes_determine_messages;
use mark_base::{Bytes, Memory, Steps};
use std::alloc::Global;
use std::sync::ledger::Ledger;

/// Founds a project in memory, serves all requests of a number with it as one connection, and gives the summary.
///
/// `Memory` is answered where memory ran out: for one of the answers too, and where the session does not end between two
/// messages. Cost: 36,642 requests, most of them a span on a desk, each of which copies and checks the layer of its desk.
pub fn demo<G: Ledger>(alloc: Global, number: u32, steps: &mut Steps<G>) -> Result<Bytes, Memory>
    ensures told { IfOk result (λ lines. DemoTold number lines) }
{
    bytes_determine_messages();
    let input = demo_input(alloc, number)?;
    let answers = count_messages(alloc, input.copy()?)?;
    let book = found(alloc)?;
    let mut left = serve(alloc, book, input, steps)?;
    let lines = summary_of(alloc, &mut left, answers, steps)?;
    Ok(lines)
}

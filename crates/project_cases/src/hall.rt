//! Connections that are served at once, over memory.
//!
//! Two links of which the first waits for the answer of the second; four links that each put a document, and two at doors
//! that fail or do not, all by `run` with the words of `serve`; and two guests of one hall, of which the second is told by a note what the
//! first did, or acts between any two requests of the first. What is printed is the same in whatever order threads run.
ghost use Rattle.std.specs.Prelude.{◌≡◌, ◌<◌};

mod answers;
mod behind;
mod case_door;
mod doors;
mod guests;
mod projects;
mod served;
mod sites;
mod watch;

use crate::hall::behind::list_behind;
use crate::hall::doors::at_doors;
use crate::hall::guests::tell_by_note;
use crate::hall::served::{four_links, two_at_once};
use anyhow::Result;
use mark_base::Steps;
use std::alloc::Global;
use std::marker::Brand;
use std::sync::Wait;
use std::sync::ledger::{Blank, Ledger};
use std::thread::Threads;

/// What comes of guests, with a counter of steps.
fn told<L: Ledger, R: Threads + Wait + Sync>(rt: &R, alloc: Global, blank: Blank) -> Result<String>
    requires name { blank.name ≡ L.name }
    requires parts { blank.parts ≡ L.parts }
    requires some { 0 < L.parts }
{
    let mut steps = Steps::<L>::new(blank);
    let (put, list) = tell_by_note(rt, alloc, &mut steps)?;
    let behind = list_behind(rt, alloc, &mut steps)?;
    Ok(format!(in alloc;
        "the first guest puts a document:\n{put}\nthe second guest lists it:\n{list}\na guest lists behind another:\n{behind}"
    )?)
}

/// Serves them, and says what came of them.
pub(crate) fn served_at_once<R: Threads + Wait + Sync>(rt: &R, alloc: Global) -> Result<String> {
    let two = two_at_once(rt, alloc)?;
    let four = four_links(rt, alloc)?;
    let doors = at_doors(rt, alloc)?;
    let told = told::<Brand, R>(rt, alloc, Blank::new(1))?;
    Ok(format!(in alloc; "two links at once: {two}\nfour links: {four}\n{doors}\n{told}")?)
}

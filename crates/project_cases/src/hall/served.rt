//! A project in memory that is served by the command `serve`.
use crate::hall::case_door::{CaseDoor, CaseLink};
use crate::hall::projects::put_message;
use crate::hall::sites::{FILE, Site};
use crate::hall::watch::Watch;
use anyhow::{Error, Result};
use mark_base::{Bytes, MemoryLink};
use std::alloc::Global;
use std::sync::{Arc, Wait};
use std::thread::Threads;

/// A link of a case, which puts a document of a name.
fn link_of(
    alloc: Global,
    watch: &Arc<Watch>,
    number: u64,
    name: &str,
    waits_for: Option<u64>,
) -> Result<CaseLink> {
    let message = put_message(alloc, name)?;
    Ok(CaseLink {
        number,
        waits_for,
        inner: MemoryLink::new(alloc, message, Vec::new(alloc), Vec::new(alloc)),
        watch: Arc::try_clone(watch)?,
        read_faults: 0,
        write_faults: 0,
    })
}

/// Serves links of a project, and says what they noted, and where the project stands when it is opened again, which the
/// command `compact` prints.
fn serve_links<R: Threads + Wait + Sync>(
    rt: &R,
    alloc: Global,
    watch: &Watch,
    links: Vec<CaseLink>,
) -> Result<String> {
    let door = CaseDoor::new(links);
    let mut site = Site::founded(rt, alloc, door, Vec::new(alloc), Vec::new(alloc))?;
    if site.serve(rt, alloc)?.status != 0 {
        return Err(Error::msg("the run ends with a fault"));
    }
    let Ok(noted) = watch.text(alloc) else {
        return Err(Error::msg("memory"));
    };
    let words = ["compact", FILE, "compacted.book"];
    let left = site.run(rt, alloc, &words, Bytes::from_vec(Vec::new(alloc)))?;
    let place = left.printed.trim_end();
    Ok(format!(in alloc; "{noted}; the project is at {place}")?)
}

/// Two links, of which the first waits for the answer of the second.
pub(crate) fn two_at_once<R: Threads + Wait + Sync>(rt: &R, alloc: Global) -> Result<String> {
    let watch = Arc::new(alloc, Watch::new())?;
    let mut links = Vec::new(alloc);
    links.push(link_of(alloc, &watch, 1, "one", Some(2))?)?;
    links.push(link_of(alloc, &watch, 2, "two", None)?)?;
    serve_links(rt, alloc, &watch, links)
}

/// Four links, each of which puts a document of another name.
pub(crate) fn four_links<R: Threads + Wait + Sync>(rt: &R, alloc: Global) -> Result<String> {
    let watch = Arc::new(alloc, Watch::new())?;
    let mut links = Vec::new(alloc);
    let mut number = 0u64;
    for name in ["one", "two", "three", "four"] {
        number = number.saturating_add(1);
        links.push(link_of(alloc, &watch, number, name, None)?)?;
    }
    serve_links(rt, alloc, &watch, links)
}

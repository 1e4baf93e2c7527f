//! Projects that are served at doors in memory.
use crate::hall::projects::{list_messages, put_message};
use crate::hall::sites::{FILE, Left, Site};
use anyhow::Result;
use mark_base::MemoryLink;
use serve_command::{Door, MemoryDoor, SureDoor};
use std::alloc::Global;
use std::sync::Wait;
use std::thread::Threads;

/// Two links, which put the documents x and y.
fn links(alloc: Global) -> Result<Vec<MemoryLink>> {
    let mut links = Vec::new(alloc);
    for name in ["x", "y"] {
        let message = put_message(alloc, name)?;
        links.push(MemoryLink::new(alloc, message, Vec::new(alloc), Vec::new(alloc)))?;
    }
    Ok(links)
}

/// Which of the two documents a later session of the project lists. Their order there is that in which they were put.
fn listed<R: Threads + Wait + Sync, D: Door + Send + Drop>(
    rt: &R,
    alloc: Global,
    site: &mut Site<D>,
) -> Result<String> {
    let left = site.run(rt, alloc, &["session", FILE], list_messages(alloc, 1)?)?;
    let Left {
        status,
        printed,
        complaint: _,
    } = left;
    let has_x = printed.contains("{\"characters\":5,\"name\":\"x\"}");
    let has_y = printed.contains("{\"characters\":5,\"name\":\"y\"}");
    Ok(format!(in alloc; "then with {status} x {has_x}, y {has_y}")?)
}

/// Founds a project and serves what comes in at a door, where disks and doors fail at the calls of these numbers; says how
/// that run ends, and what a later session finds.
fn serve_door<R: Threads + Wait + Sync, D: Door + Send + Drop>(
    rt: &R,
    alloc: Global,
    door: D,
    disk_fails: Vec<u64>,
    door_fails: Vec<u64>,
) -> Result<String> {
    let mut site = Site::founded(rt, alloc, door, disk_fails, door_fails)?;
    let left = site.serve(rt, alloc)?;
    let there = listed(rt, alloc, &mut site)?;
    let Left {
        status,
        printed,
        complaint,
    } = left;
    let complaint = complaint.trim_end();
    Ok(format!(in alloc; "{status} [{printed}] [{complaint}]; {there}")?)
}

/// Serves two links at doors that fail and at doors that do not, and where no door and no disk is handed out.
pub(crate) fn at_doors<R: Threads + Wait + Sync>(rt: &R, alloc: Global) -> Result<String> {
    let none = || Vec::new(alloc);
    let sure = SureDoor::new(links(alloc)?);
    let sure = serve_door(rt, alloc, sure, none(), none())?;
    let whole = MemoryDoor::new(links(alloc)?, none());
    let whole = serve_door(rt, alloc, whole, none(), none())?;
    let second = MemoryDoor::new(links(alloc)?, vec![in alloc; 2u64]?);
    let second = serve_door(rt, alloc, second, none(), none())?;
    let shut = SureDoor::new(links(alloc)?);
    let shut = serve_door(rt, alloc, shut, none(), vec![in alloc; 1u64]?)?;
    let lost = SureDoor::new(links(alloc)?);
    let lost = serve_door(rt, alloc, lost, vec![in alloc; 2u64]?, none())?;
    Ok(format!(in alloc;
        "a door that cannot fail: {sure}\na door that does not fail: {whole}\na door whose second call fails: {second}\nno door: {shut}\nno disk: {lost}"
    )?)
}

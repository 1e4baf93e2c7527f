//! The command `serve`.
ghost use Rattle.std.specs.Prelude.{◌≡◌, ◌≢◌, ◌+◌, ◌<◌, ◌≤◌, IfErr, IsErrOf, Some, length, true};
ghost use mathlib.Core.List.{IsPrefix};
ghost use Rattle.mark_base.specs.Streams.{CountsOne};
ghost use Rattle.named_disks.specs.NamedDisks.{IsIn, KeepsOthers, is_there, reads_as};
ghost use Rattle.serve_command.specs.Serving.Serving.{Ends, EndsBehind};
ghost use Rattle.serve_command.specs.Serving.Workers.{IsServingEnd, TellsDoor};

use crate::doors::{Door, Doors, Worker, serve_all};
use crate::serving::passes::{give_passes, idle_workers, join_passes};
use crate::serving::pledge::Pledge;
use crate::serving::project::{close, open_in};
use crate::serving::serve_end::ServeEnd;
use mark_base::{Failed, Memory};
use named_disks::{Disks, DisksFault};
use program_inputs::Trouble;
use project_book::Book;
use project_journal::{Disk, Keeper};
use std::alloc::Global;
use std::marker::Brand;
use std::sync::{Mutex, Wait};
use std::thread::Threads;
use turn_hall::{Hall, Pass};

/// Serves the connections of a door by workers of a hall, and gives back the hall's first pass, to which the others were
/// joined.
fn serve_hall<R: Threads + Wait + Sync, K: Keeper + Send + Drop, D: Door + Send + Drop>(
    rt: &R,
    alloc: Global,
    hall: &Hall<K>,
    first: Pass,
    workers: &mut [Worker],
    door: &Mutex<D>,
) -> Pass
    requires hall { first.hall ≡ hall.now.id }
    requires first { first.knows.first ≡ true }
    requires whole { (first.knows.splits ≡ 0) × (first.knows.stands_for ≡ 1) }
    requires some { 0 < length workers.old }
    requires few { length workers.old ≤ 256 }
    ensures hall { result.hall ≡ hall.now.id }
    ensures first { result.knows.first ≡ true }
    ensures all { result.knows.stands_for ≡ result.knows.splits + 1 }
{
    give_passes(hall, first, workers);
    serve_all(rt, alloc, hall, workers, door);
    join_passes(hall, workers)
}

/// How serving has ended at a door: it failed where it has counted a fault.
fn end_at<D: Door>(door: &D) -> Result<(), ServeEnd>
    ensures end { IfErr result IsServingEnd }
    ensures door { TellsDoor result (D.door_faults door.now) }
    ensures sure { D.sure → IfErr result (λ end. end ≢ ServeEnd.DoorFailed) }
{
    if door.faults() > 0 {
        return Err(ServeEnd::DoorFailed);
    }
    Ok(())
}

/// Serves the connections of a door in a project, until the door ends or fails, or the workers have no room for more.
/// Gives the project and the door back.
fn serve_book<R: Threads + Wait + Sync, K: Keeper + Send + Drop, D: Door + Send + Drop>(
    rt: &R,
    alloc: Global,
    book: Book<K>,
    door: D,
) -> (Book<K>, D, Result<(), ServeEnd>)
    requires { D.door_faults door ≡ 0 }
    ensures begun { IsPrefix book.log result.0.log }
    ensures end { IfErr result.2 IsServingEnd }
    ensures door { TellsDoor result.2 (D.door_faults result.1) }
    ensures sure { D.sure → IfErr result.2 (λ end. end ≢ ServeEnd.DoorFailed) }
{
    let mut workers = match idle_workers(alloc) {
        Ok(workers) => workers,
        Err(Memory) => return (book, door, Err(ServeEnd::Trouble(Trouble::Memory))),
    };
    let (hall, first) = match Hall::open(alloc, book) {
        Ok(opened) => opened,
        Err(book) => return (book, door, Err(ServeEnd::Trouble(Trouble::Memory))),
    };
    let door = Mutex::new(door);
    let pass = serve_hall(rt, alloc, &hall, first, workers.as_mut_slice(), &door);
    let door = door.into_inner();
    let end = end_at(&door);
    match hall.close(pass) {
        Ok(book) => (book, door, end),
        Err(_) => unreachable!(),
    }
}

/// Serves the project in a disk, and gives the disk and the door back.
fn serve_disk<
    R: Threads + Wait + Sync,
    E: Disk + Send + Drop,
    D: Door + Send + Drop,
    P: Pledge + Send,
>(rt: &R, alloc: Global, disk: E, door: D) -> (E, D, Result<(), ServeEnd>)
    requires sure { P.given → E.faultless disk }
    requires door { D.door_faults door ≡ 0 }
    ensures ends { EndsBehind P.given D.sure (E.holds disk) (E.holds result.0) result.2 }
    ensures door { TellsDoor result.2 (D.door_faults result.1) }
    ensures sure { P.given → E.faultless result.0 }
    ensures never { P.given → IfErr result.2 (λ end. end ≢ ServeEnd.Trouble Trouble.DiskFailed) }
    ensures unused { P.given → IfErr result.2 (λ end. end ≢ ServeEnd.Trouble Trouble.DiskInUse) }
{
    let book = match open_in::<E, P>(alloc, disk) {
        Ok(book) => book,
        Err((disk, trouble)) => return (disk, door, Err(ServeEnd::Trouble(trouble))),
    };
    let (book, door, end) = serve_book(rt, alloc, book, door);
    (close(book), door, end)
}

/// Serves the project in the file of a name to the connections of a door. Gives the disk of the file back to the disks, and
/// the door.
fn serve_named<R: Threads + Wait + Sync, D: Disks, O: Door + Send + Drop>(
    rt: &R,
    alloc: Global,
    disks: &mut D,
    name: &str,
    door: O,
) -> (O, Result<(), ServeEnd>)
    requires name { IsIn (D.out disks.old) name.now }
    requires door { O.door_faults door ≡ 0 }
    ensures ends { EndsBehind (D.faultless disks.old) O.sure (reads_as (D.stored disks.old) name.now) (reads_as (D.stored disks.new) name.now) result.1 }
    ensures door { TellsDoor result.1 (O.door_faults result.0) }
    ensures given_back { IsIn (D.out disks.new) name.now }
    ensures others { KeepsOthers name.now (D.stored disks.old) (D.out disks.old) (D.stored disks.new) (D.out disks.new) }
    ensures none_made { is_there (D.stored disks.new) name.now ≡ is_there (D.stored disks.old) name.now }
    ensures stays { D.faultless disks.old → D.faultless disks.new }
    ensures never { D.faultless disks.old → IfErr result.1 (λ end. end ≢ ServeEnd.Trouble Trouble.DiskFailed) }
    ensures unused { D.faultless disks.old → IfErr result.1 (λ end. end ≢ ServeEnd.Trouble Trouble.DiskInUse) }
{
    let disk = match disks.disk(alloc, name) {
        Ok(disk) => disk,
        Err(DisksFault::Absent) => return (door, Err(ServeEnd::Trouble(Trouble::NotAJournal))),
        Err(DisksFault::InUse) => return (door, Err(ServeEnd::Trouble(Trouble::DiskInUse))),
        Err(DisksFault::Failed) => return (door, Err(ServeEnd::Trouble(Trouble::DiskFailed))),
        Err(DisksFault::Memory) => return (door, Err(ServeEnd::Trouble(Trouble::Memory))),
    };
    let (disk, door, end) = serve_disk::<R, D::Disk, O, Brand>(rt, alloc, disk, door);
    disks.give_back(name, disk);
    (door, end)
}

/// The command `serve NAME PORT`: asks for the door of a port, opens the project in the file of a name, and serves the
/// connections that come in, as up to sixty-four at a time, until the door ends or fails, or no worker has room for one more.
/// Then, or where memory ran out, the disk of the project is given back to its name, and the door to the doors. Where the
/// door is refused, the file is not looked at, nor where it comes with a fault that it has counted.
///
/// A fault of a connection ends that one alone. A fault of the door stops the worker that met it; the others go on, and
/// the run ends once all have stopped. Cost, read off the code and not measured: that of opening the file, and of each
/// connection.
pub fn serve_project<R: Threads + Wait + Sync, D: Disks, O: Doors>(
    rt: &R,
    alloc: Global,
    disks: &mut D,
    doors: &mut O,
    name: &str,
    port: u16,
) -> Result<(), ServeEnd>
    requires { IsIn (D.out disks.old) name.now }
    ensures ends { Ends (D.faultless disks.old) O.Door.sure (reads_as (D.stored disks.old) name.now) (reads_as (D.stored disks.new) name.now) (O.doors_faults doors.old) (O.doors_faults doors.new) result }
    ensures handed { (IsErrOf result ServeEnd.DoorRefused → ⊥) → O.handed doors.new ≡ O.handed doors.old + 1 }
    ensures taken { (IsErrOf result ServeEnd.DoorRefused → ⊥) → CountsOne (O.taken doors.old) (O.taken doors.new) }
    ensures asked { O.asked doors.new ≡ Some port }
    ensures given_back { IsIn (D.out disks.new) name.now }
    ensures others { KeepsOthers name.now (D.stored disks.old) (D.out disks.old) (D.stored disks.new) (D.out disks.new) }
    ensures none_made { is_there (D.stored disks.new) name.now ≡ is_there (D.stored disks.old) name.now }
    ensures stays { D.faultless disks.old → D.faultless disks.new }
    ensures never { D.faultless disks.old → IfErr result (λ end. end ≢ ServeEnd.Trouble Trouble.DiskFailed) }
    ensures unused { D.faultless disks.old → IfErr result (λ end. end ≢ ServeEnd.Trouble Trouble.DiskInUse) }
{
    let door = match doors.door(port) {
        Ok(door) => door,
        Err(Failed) => return Err(ServeEnd::DoorRefused),
    };
    if door.faults() > 0 {
        doors.give_back(door);
        return Err(ServeEnd::DoorRefused);
    }
    let (door, end) = serve_named(rt, alloc, disks, name, door);
    doors.give_back(door);
    end
}

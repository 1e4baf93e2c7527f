//! Workers that serve the connections of one door, all in one project.
ghost use Rattle.std.specs.Prelude.{◌≡◌, ℕ, ◌<◌, ◌≤◌, All, IfOk, IsOk, IsSome, length, slice_index_or};
ghost use Rattle.project_machine.specs.Legal.{IsLegal};
ghost use Rattle.serve_command.specs.declared.doors.worker.Worker.{Worker};
ghost use Rattle.serve_command.specs.Doors.Workers.{Continues, HasPass, Served, Serves, Stopped};

use crate::doors::door::Door;
use crate::doors::worker::{Worker, WorkerEnd};
use annotation_http::{Start, connections_tell_one_history, serve_link};
use mark_base::{Failed, Link, Steps};
use project_book::Visitor;
use project_journal::Keeper;
use std::alloc::Global;
use std::marker::Brand;
use std::sync::ledger::{Blank, Ledger};
use std::sync::{Mutex, Wait};
use std::thread::{self, Threads};
use turn_hall::{Guest, Hall, Pass, badges_tell_passes};

/// How often a pass may still have to ask before it serves one more connection: 1,000,000 answers, the last park, and
/// one to spare.
const ROOM_OF_A_LINK: u64 = 1_000_002;

/// Serves one connection, and drops its link. A fault of it ends it alone.
fn serve_one<V: Visitor, L: Link + Drop, G: Ledger>(
    alloc: Global,
    visitor: &mut V,
    link: L,
    steps: &mut Steps<G>,
)
    requires room { 1000002 ≤ (V.visiting visitor.old).room }
    requires legal { IsLegal (V.visiting visitor.old).seen }
    ensures continues { Continues (V.visiting visitor.old) (V.visiting visitor.new) }
    ensures legal { IsLegal (V.visiting visitor.new).seen }
{
    connections_tell_one_history(visitor);
    let mut link = link;
    let _ending = serve_link(alloc, visitor, Start::Bare, &mut link, steps);
}

/// Takes the next link of a door. Nobody else takes one meanwhile.
fn take_link<D: Door, R: Wait>(rt: &R, door: &Mutex<D>) -> Result<Option<D::Link>, Failed>
    ensures sure { D.sure → IsOk result }
    ensures endless { D.endless → IfOk result IsSome }
{
    door.lock(rt).next()
}

/// Serves links of a door, one after another.
fn serve_links<V: Visitor, D: Door, R: Wait, G: Ledger>(
    rt: &R,
    alloc: Global,
    visitor: &mut V,
    door: &Mutex<D>,
    steps: &mut Steps<G>,
) -> WorkerEnd
    requires { IsLegal (V.visiting visitor.old).seen }
    ensures continues { Continues (V.visiting visitor.old) (V.visiting visitor.new) }
    ensures stopped { Stopped D.sure D.endless (V.visiting visitor.new).room result }
{
    for _ in rt.forever() {
        if visitor.room() < ROOM_OF_A_LINK {
            return WorkerEnd::Drawn;
        }
        match take_link(rt, door) {
            Ok(Some(link)) => serve_one(alloc, visitor, link, steps),
            Ok(None) => return WorkerEnd::DoorEnded,
            Err(Failed) => return WorkerEnd::DoorFailed,
        }
    }
    unreachable!()
}

/// Serves links of a door with a pass of a hall, and gives the pass back.
fn serve_pass<K: Keeper, D: Door, R: Wait, G: Ledger>(
    rt: &R,
    alloc: Global,
    hall: &Hall<K>,
    pass: Pass,
    door: &Mutex<D>,
    blank: Blank,
) -> (Pass, WorkerEnd)
    requires hall { pass.hall ≡ hall.now.id }
    requires name { blank.name ≡ G.name }
    requires parts { blank.parts ≡ G.parts }
    requires some { 0 < G.parts }
    ensures served { Served pass result.0 }
    ensures stopped { Stopped D.sure D.endless result.0.knows.room result.1 }
{
    pass.keeps();
    badges_tell_passes();
    let mut steps = Steps::<G>::new(blank);
    let mut guest = Guest::new(rt, hall, pass);
    let end = serve_links(rt, alloc, &mut guest, door, &mut steps);
    (guest.into_pass(), end)
}

/// Serves links of a door with the pass of a worker.
fn serve_worker<K: Keeper, D: Door, R: Wait>(
    rt: &R,
    alloc: Global,
    hall: &Hall<K>,
    worker: &mut Worker,
    door: &Mutex<D>,
)
    requires { HasPass hall.now.id worker.old }
    ensures { Serves D.sure D.endless worker.old worker.new }
{
    let Some(pass) = worker.pass.take() else {
        unreachable!()
    };
    let (pass, end) = serve_pass::<K, D, R, Brand>(rt, alloc, hall, pass, door, Blank::new(1));
    worker.pass = Some(pass);
    worker.end = Some(end);
}

/// Serves the connections of a door, each worker one at a time with its own pass of a hall, by at most sixty-four
/// threads. Where a thread cannot be made, a worker begins when another has stopped. A worker stops where the door ends
/// or fails, or where its pass may ask fewer than 1,000,002 times, which is looked at before each connection; the
/// others go on. Afterwards each has its pass again, with what it has seen by now.
///
/// A fault of one connection ends that one alone, as does want of memory, and its link is dropped. A link that waits
/// for its peer holds up its worker and no other. Cost, read off the code and not measured: what `serve_link` costs
/// for each connection, and for each worker one thread.
pub fn serve_all<R: Threads + Wait + Sync, K: Keeper + Send + Drop, D: Door + Send + Drop>(
    rt: &R,
    alloc: Global,
    hall: &Hall<K>,
    workers: &mut [Worker],
    door: &Mutex<D>,
)
    requires { All (HasPass hall.now.id) workers.old }
    ensures { (i : ℕ) (worker : Worker) → i < length workers.old → Serves D.sure D.endless (slice_index_or workers.old i worker) (slice_index_or workers.new i worker) }
{
    thread::for_each_mut(
        rt,
        workers,
        64,
        &|_, worker: &mut Worker|
            requires { HasPass hall.now.id worker.now }
            ensures { Serves D.sure D.endless worker.entry.now worker.exit.now }
        { serve_worker(rt, alloc, hall, worker, door) },
    );
}

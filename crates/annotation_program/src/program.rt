//! The top call of the program.
ghost use Rattle.std.specs.Prelude.{◌≡◌, ◌⊎◌, ℕ, List, None, Some, map, string_bytes};
ghost use Rattle.mark_base.specs.Streams.{Rose};
ghost use Rattle.named_disks.specs.NamedDisks.{IsIn, KeepsNames, KeepsOthers, is_there, reads_as};
ghost use Rattle.command_words.specs.Asked.{command_of};
ghost use Rattle.annotation_cli.specs.Run.{Runs};
ghost use Rattle.annotation_program.specs.Serving.{IsChangedIn, Serves, serving_of};

use crate::serving::{Serving, serving_of, trouble_of};
use annotation_cli::World;
use annotation_cli::run::run_alone;
use mark_base::{Link, Sink};
use named_disks::Disks;
use program_inputs::{Folder, end_run};
use serve_command::{Doors, serve_project};
use std::alloc::Global;
use std::sync::Wait;
use std::thread::Threads;

/// Serves the project of a file by the door of a port, and gives the status.
fn serve<R: Threads + Wait + Sync, P: Sink, D: Disks, O: Doors>(
    rt: &R,
    alloc: Global,
    serving: Serving<'_>,
    complaint: &mut P,
    disks: &mut D,
    doors: &mut O,
) -> u8
    requires { IsIn (D.out disks.old) serving.book.now }
    ensures served { Serves (D.faultless disks.old) O.Door.sure (reads_as (D.stored disks.old) serving.entry.book.now) (reads_as (D.stored disks.new) serving.entry.book.now)
        (record { faults = O.doors_faults doors.old; handed = O.handed doors.old; taken = O.taken doors.old })
        (record { faults = O.doors_faults doors.new; handed = O.handed doors.new; taken = O.taken doors.new })
        (P.held complaint.old) (P.held complaint.new) (P.write_faults complaint.old) (P.write_faults complaint.new) result }
    ensures asked { O.asked doors.new ≡ Some serving.entry.port }
    ensures free { IsIn (D.out disks.new) serving.entry.book.now }
    ensures others { KeepsOthers serving.entry.book.now (D.stored disks.old) (D.out disks.old) (D.stored disks.new) (D.out disks.new) }
    ensures none_made { is_there (D.stored disks.new) serving.entry.book.now ≡ is_there (D.stored disks.old) serving.entry.book.now }
    ensures stays { D.faultless disks.old → D.faultless disks.new }
    ensures words { result ≡ 2 → ⊥ }
    ensures disk { result ≡ 4 → D.faultless disks.old → ⊥ }
    ensures door { result ≡ 5 → Rose (O.doors_faults doors.old) (O.doors_faults doors.new) }
    ensures write { result ≡ 6 → Rose (P.write_faults complaint.old) (P.write_faults complaint.new) }
    ensures done { result ≡ 0 → (O.doors_faults doors.new ≡ O.doors_faults doors.old) × (P.write_faults complaint.new ≡ P.write_faults complaint.old) }
{
    let done = serve_project(rt, alloc, disks, doors, serving.book, serving.port);
    end_run(alloc, complaint, trouble_of(done), false)
}

/// Runs the command of these words, those after the program's name, and gives its status.
///
/// `serve BOOK PORT` asks for a port of this machine, opens the project of a file and serves the connections that come in at
/// the port, up to sixty-four at a time, until it gives no more; a fault of one connection ends that one alone. All other words are those
/// of [`annotation_cli::run::run_alone`], with its statuses. 5 comes also where the port is not had or fails, by `door: Failed`.
/// Of these calls `serve` alone may wait, and asks for a door; it neither reads the folder nor touches the console.
pub fn run<R: Threads + Wait + Sync, F: Folder, C: Link, P: Sink, D: Disks, O: Doors>(
    rt: &R,
    alloc: Global,
    words: &[String],
    world: &mut World<F, C, P, D, O>,
) -> u8
    requires free { (name : List ℕ) → IsIn (D.out world.old.disks) name }

    // What other words than those of `serve` do.
    ensures alone { serving_of (map string_bytes words.now) ≡ None → Runs (F.file world.old.folder) (map string_bytes words.now) (D.faultless world.old.disks)
        (record { folder_faults = F.folder_faults world.old.folder; left = C.left world.old.console; held = C.held world.old.console; stored = D.stored world.old.disks })
        (record { folder_faults = F.folder_faults world.new.folder; left = C.left world.new.console; held = C.held world.new.console; stored = D.stored world.new.disks })
        (P.held world.old.complaint) (P.held world.new.complaint) (P.write_faults world.old.complaint) (P.write_faults world.new.complaint) result }
    ensures apart { serving_of (map string_bytes words.now) ≡ None → world.new.doors ≡ world.old.doors }

    // What those of `serve` do.
    ensures served { (book : List ℕ) (port : ℕ) → serving_of (map string_bytes words.now) ≡ Some (book, port)
        → Serves (D.faultless world.old.disks) O.Door.sure (reads_as (D.stored world.old.disks) book) (reads_as (D.stored world.new.disks) book)
        (record { faults = O.doors_faults world.old.doors; handed = O.handed world.old.doors; taken = O.taken world.old.doors })
        (record { faults = O.doors_faults world.new.doors; handed = O.handed world.new.doors; taken = O.taken world.new.doors })
        (P.held world.old.complaint) (P.held world.new.complaint) (P.write_faults world.old.complaint) (P.write_faults world.new.complaint) result }
    ensures asked { (book : List ℕ) (port : ℕ) → serving_of (map string_bytes words.now) ≡ Some (book, port) → O.asked world.new.doors ≡ Some port }
    ensures none_made { (book : List ℕ) (port : ℕ) → serving_of (map string_bytes words.now) ≡ Some (book, port)
        → is_there (D.stored world.new.disks) book ≡ is_there (D.stored world.old.disks) book }
    ensures unread { (book : List ℕ) (port : ℕ) → serving_of (map string_bytes words.now) ≡ Some (book, port) → world.new.folder ≡ world.old.folder }
    ensures unprinted { (book : List ℕ) (port : ℕ) → serving_of (map string_bytes words.now) ≡ Some (book, port) → world.new.console ≡ world.old.console }

    // What all do.
    ensures free { (name : List ℕ) → IsIn (D.out world.new.disks) name }
    ensures others { KeepsNames (λ name. IsChangedIn (serving_of (map string_bytes words.now)) (command_of (map string_bytes words.now)) name → ⊥)
        (D.stored world.old.disks) (D.out world.old.disks) (D.stored world.new.disks) (D.out world.new.disks) }
    ensures stays { D.faultless world.old.disks → D.faultless world.new.disks }
    ensures words { result ≡ 2 → (command_of (map string_bytes words.now) ≡ None) × (serving_of (map string_bytes words.now) ≡ None) }

    // A disk that cannot fail gives no status 4.
    ensures folder { result ≡ 4 → Rose (F.folder_faults world.old.folder) (F.folder_faults world.new.folder) ⊎ (D.faultless world.old.disks → ⊥) }
    ensures read { result ≡ 5 → Rose (C.read_faults world.old.console) (C.read_faults world.new.console)
        ⊎ Rose (O.doors_faults world.old.doors) (O.doors_faults world.new.doors) }
    ensures write { result ≡ 6 → Rose (C.write_faults world.old.console) (C.write_faults world.new.console)
        ⊎ Rose (P.write_faults world.old.complaint) (P.write_faults world.new.complaint) }

    // Where the job was done no call of the folder, the console, the complaint sink or the doors failed, nor one of a door.
    ensures done { result ≡ 0 → (F.folder_faults world.new.folder ≡ F.folder_faults world.old.folder)
        × (C.read_faults world.new.console ≡ C.read_faults world.old.console)
        × (C.write_faults world.new.console ≡ C.write_faults world.old.console)
        × (P.write_faults world.new.complaint ≡ P.write_faults world.old.complaint)
        × (O.doors_faults world.new.doors ≡ O.doors_faults world.old.doors) }
{
    match serving_of(words) {
        Some(serving) => serve(
            rt,
            alloc,
            serving,
            &mut world.complaint,
            &mut world.disks,
            &mut world.doors,
        ),
        None => run_alone(alloc, words, world),
    }
}

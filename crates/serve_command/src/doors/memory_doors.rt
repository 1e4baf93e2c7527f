//! Doors that are handed out from memory.
ghost use Rattle.std.specs.Prelude.{◌≡◌, ◌+◌, ◌^◌, ◌<◌, ◌∷◌, length, IfOk, None, OnErr, OnOk, Some, is_err};
ghost use Rattle.mark_base.specs.Streams.{CountsOne, HasCause, TellsFault};
ghost use Rattle.std.specs.Vec.Iter.{into_iter_len};

use crate::doors::door::Door;
use crate::doors::doors::Doors;
use mark_base::{FailList, Failed};
use std::alloc::Global;
use std::vec::IntoIter;

/// Doors of any type that are handed out in order, whatever the port. Calls fail by number, and where none is left. A door
/// that comes back is dropped.
#[derive(Drop)]
pub struct MemoryDoors<D> {
    doors: IntoIter<D, Global>,
    fails: FailList,
    handed: u64,
    taken: u64,
    asked: Option<u16>,
    ghost few: { handed + into_iter_len doors < 2 ^ 64 },
}

impl<D: Door + Send + Drop> MemoryDoors<D> {
    ghost use Rattle.serve_command.specs.Doors.MemoryDoors.{doors_of, door_calls_of};

    /// Hands out these doors in order. The numbers name the calls, from 1, that fail; such a call hands out nothing, and
    /// the door is handed out by a later one. A call with none left fails too, and is counted.
    pub fn new(doors: Vec<D>, fails: Vec<u64>) -> Self
        ensures doors { doors_of result ≡ doors.items }
        ensures handed { ⟦<MemoryDoors<D> as Doors>⟧.handed result ≡ 0 }
        ensures taken { ⟦<MemoryDoors<D> as Doors>⟧.taken result ≡ 0 }
        ensures asked { ⟦<MemoryDoors<D> as Doors>⟧.asked result ≡ None }
        ensures faults { ⟦<MemoryDoors<D> as Doors>⟧.doors_faults result ≡ 0 }
        ensures fails { door_calls_of result ≡ record { fails = fails.items; calls = 0; faults = 0 } }
    {
        MemoryDoors {
            doors: doors.into_iter(),
            fails: FailList::new(fails),
            handed: 0,
            taken: 0,
            asked: None,
        }
    }
}

impl<D: Door + Send + Drop> Doors for MemoryDoors<D> {
    ghost use Rattle.serve_command.specs.Doors.MemoryDoors.{HandsOut, doors_of, door_calls_of};

    type Door = D;

    ghost doors_faults = { λ doors. doors.fails.faults };

    ghost handed = { λ doors. doors.handed };

    ghost taken = { λ doors. doors.taken };

    ghost asked = { λ doors. doors.asked };

    fn door(&mut self, port: u16) -> Result<D, Failed>
        ensures cause { HasCause (⟦<MemoryDoors<D> as Doors>⟧.doors_faults self.old) (⟦<MemoryDoors<D> as Doors>⟧.doors_faults self.new) result }
        ensures handed { OnOk result (⟦<MemoryDoors<D> as Doors>⟧.handed self.new ≡ ⟦<MemoryDoors<D> as Doors>⟧.handed self.old + 1) }
        ensures same { OnErr result (⟦<MemoryDoors<D> as Doors>⟧.handed self.new ≡ ⟦<MemoryDoors<D> as Doors>⟧.handed self.old) }
        ensures taken { ⟦<MemoryDoors<D> as Doors>⟧.taken self.new ≡ ⟦<MemoryDoors<D> as Doors>⟧.taken self.old }
        ensures asked { ⟦<MemoryDoors<D> as Doors>⟧.asked self.new ≡ Some port }
        // The call is counted once, and fails exactly where the list has its number or no door is left.
        ensures listed { HandsOut (door_calls_of self.old) (doors_of self.old) (is_err result) (door_calls_of self.new) }
        // The next door is handed out; a call that fails hands out none.
        ensures next { IfOk result (λ door. doors_of self.old ≡ door ∷ doors_of self.new) }
        ensures left { OnErr result (doors_of self.new ≡ doors_of self.old) }
    {
        self.asked = Some(port);
        if self.fails.fails() {
            return Err(Failed);
        }
        match self.doors.next() {
            Some(door) => {
                self.handed += 1;
                Ok(door)
            }
            None => {
                self.fails.count_fault();
                Err(Failed)
            }
        }
    }

    fn give_back(&mut self, door: D)
        ensures cause { TellsFault (0 < D.door_faults door) (⟦<MemoryDoors<D> as Doors>⟧.doors_faults self.old) (⟦<MemoryDoors<D> as Doors>⟧.doors_faults self.new) }
        ensures handed { ⟦<MemoryDoors<D> as Doors>⟧.handed self.new ≡ ⟦<MemoryDoors<D> as Doors>⟧.handed self.old }
        ensures taken { CountsOne (⟦<MemoryDoors<D> as Doors>⟧.taken self.old) (⟦<MemoryDoors<D> as Doors>⟧.taken self.new) }
        ensures asked { ⟦<MemoryDoors<D> as Doors>⟧.asked self.new ≡ ⟦<MemoryDoors<D> as Doors>⟧.asked self.old }
        ensures left { doors_of self.new ≡ doors_of self.old }
        ensures calls { door_calls_of self.new ≡ record (door_calls_of self.old) { faults = (door_calls_of self.new).faults } }
    {
        if door.faults() > 0 {
            self.fails.count_fault();
        }
        self.taken = self.taken.saturating_add(1);
    }
}

//! Doors in memory.
ghost use Rattle.std.specs.Prelude.{◌≡◌, ◌≤◌, ◌++◌, IfOk, IsOk, IsSome, OnErr, is_err, ⊤};
ghost use Rattle.std.specs.Option.{option_to_list};
ghost use Rattle.mark_base.specs.FailList.{CountsCall};
ghost use Rattle.mark_base.specs.Streams.{HasCause};

use crate::doors::door::Door;
use mark_base::{FailList, Failed, MemoryLink};
use std::alloc::Global;
use std::vec::IntoIter;

/// A door in memory, whose calls fail by number. It ends behind its last link.
#[derive(Drop)]
pub struct MemoryDoor {
    links: IntoIter<MemoryLink, Global>,
    fails: FailList,
    faults: u64,
}

impl MemoryDoor {
    ghost use Rattle.serve_command.specs.Doors.MemoryDoors.{calls_of, links_of};

    /// A door that hands out these links in order. The numbers name the calls, from 1, that fail; such a call hands out
    /// nothing, and the link is handed out by a later one.
    pub fn new(links: Vec<MemoryLink>, fails: Vec<u64>) -> Self
        ensures links { links_of result ≡ links.items }
        ensures faults { ⟦<MemoryDoor as Door>⟧.door_faults result ≡ 0 }
        ensures fails { calls_of result ≡ record { fails = fails.items; calls = 0; faults = 0 } }
    {
        MemoryDoor {
            links: links.into_iter(),
            fails: FailList::new(fails),
            faults: 0,
        }
    }
}

impl Door for MemoryDoor {
    ghost use Rattle.serve_command.specs.Doors.MemoryDoors.{calls_of, links_of};

    type Link = MemoryLink;

    ghost door_faults = { λ door. door.faults };

    ghost sure = { ⊥ };

    ghost endless = { ⊥ };

    fn next(&mut self) -> Result<Option<MemoryLink>, Failed>
        ensures cause { HasCause (⟦<MemoryDoor as Door>⟧.door_faults self.old) (⟦<MemoryDoor as Door>⟧.door_faults self.new) result }
        ensures sure { ⟦<MemoryDoor as Door>⟧.sure → IsOk result }
        ensures endless { ⟦<MemoryDoor as Door>⟧.endless → IfOk result IsSome }
        // The call is counted once, and fails exactly where the list has its number.
        ensures listed { CountsCall (calls_of self.old) (is_err result) (calls_of self.new) }
        // The next link is handed out; a call that fails hands out none.
        ensures next { IfOk result (λ link. links_of self.old ≡ option_to_list link ++ links_of self.new) }
        ensures same { OnErr result (links_of self.new ≡ links_of self.old) }
    {
        if self.fails.fails() {
            self.faults = self.faults.saturating_add(1);
            return Err(Failed);
        }
        Ok(self.links.next())
    }

    fn faults(&self) -> u64 {
        self.faults
    }
}

/// A door in memory that cannot fail. It ends behind its last link.
#[derive(Drop)]
pub struct SureDoor {
    links: IntoIter<MemoryLink, Global>,
}

impl SureDoor {
    ghost use Rattle.serve_command.specs.Doors.MemoryDoors.{sure_links_of};

    /// A door that hands out these links in order.
    pub fn new(links: Vec<MemoryLink>) -> Self
        ensures links { sure_links_of result ≡ links.items }
    {
        SureDoor {
            links: links.into_iter(),
        }
    }
}

impl Door for SureDoor {
    ghost use Rattle.serve_command.specs.Doors.MemoryDoors.{sure_links_of};

    type Link = MemoryLink;

    ghost door_faults = { λ door. 0 };

    ghost sure = { ⊤ };

    ghost endless = { ⊥ };

    fn next(&mut self) -> Result<Option<MemoryLink>, Failed>
        ensures cause { HasCause (⟦<SureDoor as Door>⟧.door_faults self.old) (⟦<SureDoor as Door>⟧.door_faults self.new) result }
        ensures sure { ⟦<SureDoor as Door>⟧.sure → IsOk result }
        ensures endless { ⟦<SureDoor as Door>⟧.endless → IfOk result IsSome }
        // The next link is handed out.
        ensures next { IfOk result (λ link. sure_links_of self.old ≡ option_to_list link ++ sure_links_of self.new) }
    {
        Ok(self.links.next())
    }

    fn faults(&self) -> u64 {
        0
    }
}

//! Runs of the program over a world in memory.
ghost use Rattle.std.specs.Prelude.{ℕ, List};
ghost use Rattle.named_disks.specs.NamedDisks.{IsIn};

use annotation_program::{World, run};
use anyhow::{Error, Result};
use mark_base::{Bytes, MemoryLink, MemorySink, Text};
use named_disks::{Disks, MemoryDisks};
use program_inputs::MemoryFolder;
use serve_command::{Door, MemoryDoors};
use std::alloc::Global;
use std::sync::Wait;
use std::thread::Threads;

/// The name of the project's file.
pub(crate) const FILE: &str = "cases.book";

/// The files that the runs read: a configuration of one type, and the people.
const FILES: [(&str, &str); 2] = [
    ("cases.conf", "[entities]\nPerson\n"),
    ("cases.csv", "ann,annotator\ncur,curator\n"),
];

/// What a run left.
#[derive(Drop)]
pub(crate) struct Left {
    pub(crate) status: u8,
    pub(crate) printed: String,
    pub(crate) complaint: String,
}

/// A world in memory between two runs: no disk is out.
#[derive(Drop)]
pub(crate) struct Site<D: Door + Send + Drop> {
    world: World<MemoryFolder, MemoryLink, MemorySink, MemoryDisks, MemoryDoors<D>>,
    ghost free: { (name : List ℕ) → IsIn (⟦<MemoryDisks as Disks>⟧.out world.disks) name },
}

/// The files of the folder.
fn files(alloc: Global) -> Result<Vec<(Text, Bytes)>> {
    let mut files = Vec::new(alloc);
    for (name, text) in FILES {
        let (Ok(name), Ok(bytes)) = (Text::of(alloc, name), Bytes::of(alloc, text.as_bytes()))
        else {
            return Err(Error::msg("memory"));
        };
        files.push((name, bytes))?;
    }
    Ok(files)
}

/// A console on which these bytes come in.
fn console(alloc: Global, input: Bytes) -> MemoryLink {
    MemoryLink::new(alloc, input, Vec::new(alloc), Vec::new(alloc))
}

impl<D: Door + Send + Drop> Site<D> {
    /// A world without a project, with this one door. Calls of the disks and of the doors fail by these numbers, from 1.
    fn new(alloc: Global, door: D, disk_fails: Vec<u64>, door_fails: Vec<u64>) -> Result<Self> {
        let mut doors = Vec::new(alloc);
        doors.push(door)?;
        let world = World {
            folder: MemoryFolder::new(files(alloc)?, Vec::new(alloc)),
            console: console(alloc, Bytes::from_vec(Vec::new(alloc))),
            complaint: MemorySink::new(alloc, Vec::new(alloc)),
            disks: MemoryDisks::new(alloc, Vec::new(alloc), disk_fails),
            doors: MemoryDoors::new(doors, door_fails),
        };
        Ok(Site { world })
    }

    /// Runs words with this input, and tells what the run left.
    pub(crate) fn run<R: Threads + Wait + Sync>(
        &mut self,
        rt: &R,
        alloc: Global,
        words: &[&str],
        input: Bytes,
    ) -> Result<Left> {
        let mut owned = Vec::new(alloc);
        for word in words {
            owned.push(String::from_str(alloc, word)?)?;
        }
        self.world.console = console(alloc, input);
        self.world.complaint = MemorySink::new(alloc, Vec::new(alloc));
        let status = run(rt, alloc, owned.as_slice(), &mut self.world);
        Ok(Left {
            status,
            printed: String::from_utf8_lossy(alloc, self.world.console.written())?,
            complaint: String::from_utf8_lossy(alloc, self.world.complaint.written())?,
        })
    }

    /// A world in which the project was founded by a run, the first call of its disks.
    pub(crate) fn founded<R: Threads + Wait + Sync>(
        rt: &R,
        alloc: Global,
        door: D,
        disk_fails: Vec<u64>,
        door_fails: Vec<u64>,
    ) -> Result<Self> {
        let mut site = Site::new(alloc, door, disk_fails, door_fails)?;
        let words = ["found", FILE, "cases.conf", "cases.csv"];
        let left = site.run(rt, alloc, &words, Bytes::from_vec(Vec::new(alloc)))?;
        if left.status != 0 {
            return Err(Error::msg("the project is not founded"));
        }
        Ok(site)
    }

    /// Serves the project at a port, and tells what the run left.
    pub(crate) fn serve<R: Threads + Wait + Sync>(
        &mut self,
        rt: &R,
        alloc: Global,
    ) -> Result<Left> {
        let words = ["serve", FILE, "8080"];
        self.run(rt, alloc, &words, Bytes::from_vec(Vec::new(alloc)))
    }
}

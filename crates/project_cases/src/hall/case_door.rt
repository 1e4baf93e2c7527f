//! A door of a case, and its links.
ghost use Rattle.std.specs.Prelude.{None, ⊤};

use crate::hall::watch::Watch;
use mark_base::{Failed, Link, MemoryLink, Sink, Source};
use serve_command::Door;
use std::alloc::Global;
use std::sync::Arc;
use std::thread;
use std::vec::IntoIter;

/// For how many turns a link looks whether another was answered.
const MOST_TURNS: u32 = 10_000_000;

/// A link in memory that notes what it is answered. Its first read may wait until another link was answered; where that
/// does not come it fails.
#[derive(Drop)]
pub(crate) struct CaseLink {
    /// Its number in the case.
    pub(crate) number: u64,
    /// The link whose answer it waits for.
    pub(crate) waits_for: Option<u64>,
    /// The bytes to read.
    pub(crate) inner: MemoryLink,
    /// Where it notes what it is answered.
    pub(crate) watch: Arc<Watch>,
    /// How many reads failed.
    pub(crate) read_faults: u64,
    /// How many writes failed.
    pub(crate) write_faults: u64,
}

/// Looks until a link was answered, and says whether it was.
fn looks_for(watch: &Watch, number: u64) -> bool {
    for _ in 0..MOST_TURNS {
        if watch.is_answered(number) {
            return true;
        }
        thread::yield_now();
    }
    false
}

impl Source for CaseLink {
    ghost left = { λ link. None };

    ghost read_faults = { λ link. link.read_faults };

    ghost kept_by_read = { λ link. (None, link.write_faults) };

    fn read(&mut self, room: &mut [u8]) -> Result<usize, Failed> {
        let is_free = match self.waits_for {
            Some(number) => looks_for(&self.watch, number),
            None => true,
        };
        if is_free {
            if let Ok(count) = self.inner.read(room) {
                return Ok(count);
            }
        }
        self.read_faults = self.read_faults.saturating_add(1);
        Err(Failed)
    }
}

impl Sink for CaseLink {
    ghost held = { λ link. None };

    ghost write_faults = { λ link. link.write_faults };

    ghost kept_by_write = { λ link. (None, link.read_faults) };

    fn write(&mut self, piece: &[u8]) -> Result<usize, Failed> {
        self.watch.note(self.number, piece);
        Ok(piece.len())
    }
}

impl Link for CaseLink {
    ghost use Rattle.std.specs.Prelude.{refl};

    ghost reads_apart = { λ link. refl };

    ghost writes_apart = { λ link. refl };
}

/// A door that hands out the links of a case.
#[derive(Drop)]
pub(crate) struct CaseDoor {
    links: IntoIter<CaseLink, Global>,
}

impl CaseDoor {
    /// A door that hands out these links.
    pub(crate) fn new(links: Vec<CaseLink>) -> Self {
        CaseDoor {
            links: links.into_iter(),
        }
    }
}

impl Door for CaseDoor {
    type Link = CaseLink;

    ghost door_faults = { λ door. 0 };

    ghost sure = { ⊤ };

    ghost endless = { ⊥ };

    fn next(&mut self) -> Result<Option<CaseLink>, Failed> {
        Ok(self.links.next())
    }

    fn faults(&self) -> u64 {
        0
    }
}

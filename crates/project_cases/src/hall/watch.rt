//! What the links of a case note while they are served.
use mark_base::Memory;
use std::alloc::Global;
use std::str;
use std::sync::atomic::{AtomicU64, Ordering};

/// How often something was counted of each of sixteen numbers, by any thread.
#[derive(Drop)]
struct Counts {
    /// Four bits a number.
    word: AtomicU64,
}

impl Counts {
    /// Nothing yet.
    fn new() -> Self {
        Counts {
            word: AtomicU64::new(0),
        }
    }

    /// Counts one of a number below 16.
    fn add(&self, number: u64) {
        if number < 16 {
            self.word.fetch_add(1u64 << (4 * number), Ordering::SeqCst);
        }
    }

    /// How many were counted of a number below 16.
    fn of(&self, number: u64) -> u64 {
        if number < 16 {
            (self.word.load(Ordering::SeqCst) >> (4 * number)) & 15
        } else {
            0
        }
    }

    /// Each number of which some were counted, and how many.
    fn text(&self, alloc: Global) -> Result<String, Memory> {
        let mut text = String::new(alloc);
        for number in 0..16 {
            let count = self.of(number);
            if count != 0 {
                text.push_str(format!(in alloc; " {number}:{count}")?.as_str())?;
            }
        }
        Ok(text)
    }
}

/// What the links of a case note: which of them were answered, and at which places.
#[derive(Drop)]
pub(crate) struct Watch {
    answered: Counts,
    places: Counts,
}

impl Watch {
    /// Nothing yet.
    pub(crate) fn new() -> Self {
        Watch {
            answered: Counts::new(),
            places: Counts::new(),
        }
    }

    /// Whether the link of a number was answered.
    pub(crate) fn is_answered(&self, number: u64) -> bool {
        self.answered.of(number) != 0
    }

    /// Notes an answer to the link of a number.
    pub(crate) fn note(&self, number: u64, answer: &[u8]) {
        if let Some(place) = place_of(answer) {
            self.places.add(place);
            self.answered.add(number);
        }
    }

    /// The numbers of the links that were answered and the places, each with how often.
    pub(crate) fn text(&self, alloc: Global) -> Result<String, Memory> {
        let answered = self.answered.text(alloc)?;
        let places = self.places.text(alloc)?;
        Ok(format!(in alloc; "answers by link{answered}, by place{places}")?)
    }
}

/// The place of an answer.
fn place_of(answer: &[u8]) -> Option<u64> {
    let text = str::from_utf8(answer).ok()?;
    for line in text.lines() {
        if let Some(place) = line.strip_prefix("Place: ") {
            return place.parse::<u64>().ok();
        }
    }
    None
}

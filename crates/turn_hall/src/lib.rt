//! A turn lock, by which many connections share one project book while each keeps a history of its own.
//!
//! [`Hall`] holds the book. A [`Pass`] is the right to take turns in it, with what was seen there, and a [`Guest`] is the
//! visitor that a connection is served with:
//!
//! ```text
//! let (hall, mut first) = Hall::open(alloc, book)?;
//! let second = first.split(&hall);
//! // in one thread:
//! let mut guest = Guest::new(rt, &hall, second);
//! let reply = guest.ask(&caller, request, &mut steps);
//! let second = guest.into_pass();
//! // once the threads are joined:
//! first.join(&hall, second);
//! let book = hall.close(first)?;
//! ```
//!
//! A [`Note`] tells one pass what another has seen, so that its next answer is not from before that.
//!
//! A request takes one turn. Its thread draws a ticket from word 1, looks at the turn in word 0 until that is its ticket,
//! takes the book out of slot 0, asks it, and gives it back as the turn goes on. What holds between any two of these
//! steps, in whatever order threads make them, is the rule of the hall (`specs/Rule.antt`); what each step makes of what
//! a pass knows stands in `specs/Steps.antt`, and what the public calls tell of it in `specs/Passes.antt`. A thread that
//! waits looks at the turn a few times before it sleeps, and calls of the system are made only where a thread sleeps or
//! may.
#![tactic(auto)]

mod guest;
mod hall;
mod laws;
mod note;
mod pass;
mod plays;
mod rule;
mod shared;
mod turn;
mod view;

pub use crate::guest::Guest;
pub use crate::hall::Hall;
pub use crate::laws::badges_tell_passes;
pub use crate::note::Note;
pub use crate::pass::Pass;

//! Halls are shared between threads, and passes and notes pass from one to another: this is where a type that cannot is
//! refused.
use crate::hall::Hall;
use crate::note::Note;
use crate::pass::Pass;
use project_journal::Keeper;

/// Asks that a value may pass between threads and be seen from several at once.
fn is_shared<T: Send + Sync>(_value: &T) {}

/// Asks that a value may pass from one thread to another.
fn is_sent<T: Send>(_value: &T) {}

/// Halls are shared; passes and notes are sent.
fn are_shared<K: Keeper + Send>(hall: &Hall<K>, pass: &Pass, note: &Note) {
    is_shared(hall);
    is_sent(pass);
    is_sent(note);
}

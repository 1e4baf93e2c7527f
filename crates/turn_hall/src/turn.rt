//! One turn: a ticket, the book, and the turn given on.
ghost use Rattle.std.specs.Prelude.{◌≡◌, ℕ, ◌<◌, [], ◌∷◌, Some, None, IsSome};
ghost use Rattle.project_machine.specs.History.{last};
ghost use Rattle.project_state.specs.Values.{answer_of, asked_of};
ghost use Rattle.turn_hall.specs.Steps.{Takes};
ghost use Rattle.turn_hall.specs.Turns.{AsksHeld, AsksIn, HasBook, IsTurn};
ghost use Rattle.turn_hall.specs.Views.{IsIdle};

use crate::plays::{Draw, Give, Look};
use crate::rule::HallRule;
use crate::view::View;
use atomic_table::{Seat, Shared};
use mark_base::{Slug, Steps};
use project_book::{Book, Reply, Request};
use project_journal::Keeper;
use std::hint;
use std::snapshot::Snapshot;
use std::sync::Wait;
use std::sync::ledger::Ledger;

/// How often a thread looks at the turn before it sleeps. A turn that only reads is over before a thread has fallen
/// asleep and was woken.
const LOOKS: u32 = 100;

/// Waits until the turn is the ticket's, and takes the book. A thread that waits looks at the turn a few times, and then
/// sleeps until it goes on; it sleeps only while the low 32 bits of the turn are those that it found, and at most 256
/// tickets are out at a time.
fn wait_for_turn<K: Keeper, R: Wait>(
    rt: &R,
    shared: &Shared<Option<Book<K>>, View, Snapshot<Book<K>>, HallRule<K>>,
    seat: &mut Seat<Option<Book<K>>, View>,
    ticket: u64,
)
    requires table { (seat.old.table_id ≡ shared.now.table_id) × (shared.now.table_id.words ≡ 2) }
    requires waits { (seat.old.me.0.ticket ≡ Some ticket) × (seat.old.me.0.taken ≡ None) × (seat.old.me.1 ≡ []) }
    ensures table { seat.new.table_id ≡ seat.old.table_id }
    ensures takes { Takes K.faults seat.old.me.0 seat.new.me }
{
    let mut looks = 0;
    for _ in rt.forever() {
        let turn = shared.load::<Look<K>>(seat, 0);
        if turn == ticket {
            return;
        }
        if looks < LOOKS {
            looks += 1;
            hint::spin_loop();
        } else {
            shared.park(rt, 0, (turn & 0xffff_ffff) as u32);
        }
    }
    unreachable!()
}

/// Wakes all that sleep, where a ticket was drawn behind this one, whose turn is over: just one of them has the next.
///
/// Where none was, nobody sleeps, and no wake-up is lost. The steps of all threads have one order. Here the turn went on
/// before word 1 is read, and whoever waits has drawn its ticket before it looks at the turn. If it drew before word 1
/// is read, its ticket is found here, and it is woken; it does not sleep if the turn has gone on by then, since the
/// system compares the turn as it lays a thread to sleep. If it drew afterwards, its look finds that the turn went on.
/// So it can only sleep for a later turn, which somebody with a ticket before its own ends, who finds that it was drawn.
/// The reading tells a proof nothing, and is no step of a pass, as little as sleeping and waking are.
fn wake_waiting<K: Keeper>(
    shared: &Shared<Option<Book<K>>, View, Snapshot<Book<K>>, HallRule<K>>,
    ticket: u64,
)
    requires { shared.now.table_id.words ≡ 2 }
{
    if shared.peek(1) != ticket.wrapping_add(1) {
        shared.wake_all(0);
    }
}

/// One request to the book in a slot, and the place of its last change.
fn ask_in<K: Keeper, G: Ledger>(
    slot: &mut Option<Book<K>>,
    caller: &Slug,
    request: Request,
    steps: &mut Steps<G>,
) -> (Reply, u64)
    requires { IsSome slot.old }
    ensures { AsksIn K.faults K.faultless slot.old slot.new caller.now (asked_of request) (answer_of result.0) result.1 steps.old steps.new }
{
    match slot {
        Some(book) => {
            book.keeps();
            let reply = book.ask(caller, request, steps);
            book.keeps();
            (reply, book.place())
        }
        None => unreachable!(),
    }
}

/// One request to the book that a seat has taken, and the place of its last change.
fn ask_held<K: Keeper, G: Ledger>(
    shared: &Shared<Option<Book<K>>, View, Snapshot<Book<K>>, HallRule<K>>,
    seat: &mut Seat<Option<Book<K>>, View>,
    caller: &Slug,
    request: Request,
    steps: &mut Steps<G>,
) -> (Reply, u64)
    requires table { seat.old.table_id ≡ shared.now.table_id }
    requires held { HasBook seat.old.me.1 }
    ensures table { seat.new.table_id ≡ seat.old.table_id }
    ensures view { seat.new.me.0 ≡ seat.old.me.0 }
    ensures asked { AsksHeld K.faults K.faultless seat.old.me.1 seat.new.me.1 caller.now (asked_of request) (answer_of result.0) result.1 steps.old steps.new }
{
    let slot = seat.slot_mut(shared, 0);
    ask_in(slot, caller, request, steps)
}

/// One turn: a ticket is drawn, the book is taken and asked, and given back as the turn goes on. Answers the reply, and
/// the place of the last change of the book.
pub(crate) fn take_turn<K: Keeper, R: Wait, G: Ledger>(
    rt: &R,
    shared: &Shared<Option<Book<K>>, View, Snapshot<Book<K>>, HallRule<K>>,
    seat: &mut Seat<Option<Book<K>>, View>,
    caller: &Slug,
    request: Request,
    steps: &mut Steps<G>,
) -> (Reply, u64)
    requires table { (seat.old.table_id ≡ shared.now.table_id) × (shared.now.table_id.words ≡ 2) }
    requires idle { IsIdle seat.old.me.0 × (seat.old.me.1 ≡ []) }
    requires room { (0 < seat.old.me.0.room) × (0 < seat.old.me.0.stands_for) }
    ensures table { seat.new.table_id ≡ seat.old.table_id }
    ensures turn { IsTurn seat.old.me.0 seat.new.me.0 caller.now (asked_of request) (answer_of result.0) result.1 steps.old steps.new }
    ensures empty { seat.new.me.1 ≡ [] }
{
    let ticket = shared.fetch_add::<Draw>(seat, 1, 1);
    wait_for_turn(rt, shared, seat, ticket);
    let (reply, place) = ask_held(shared, seat, caller, request, steps);
    shared.fetch_add::<Give<K>>(seat, 0, 1);
    wake_waiting(shared, ticket);
    (reply, place)
}

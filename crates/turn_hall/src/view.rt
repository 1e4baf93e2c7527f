//! What a pass knows of a hall.
use project_book::Change;
use std::collections::LinkedList;
use std::marker::Model;

/// The book as a pass took it: its history, and its keeper's count of faults.
pub struct Taken {
    log: Vec<Change>,
    count: u64,
}

/// What a pass knows of a hall. No program makes one: it stands in proofs alone.
pub struct View {
    seen: Vec<Change>,
    shorter: Vec<Change>,
    mine: LinkedList<u64>,
    faults: u64,
    spent: bool,
    room: u64,
    drawn: u64,
    ticket: Option<u64>,
    taken: Option<Taken>,
    splits: u64,
    stands_for: u64,
    first: bool,
}

impl Model for View {
    ghost use Rattle.std.specs.Prelude.{map, option_map};
    ghost use Rattle.project_state.specs.Values.{happened_of};
    ghost use Rattle.turn_hall.specs.Codes.{view_code};
    ghost use Rattle.turn_hall.specs.Views as views;

    ghost Value = { views.View };

    ghost coded = { view_code };

    ghost view = { λ v. record { seen = map happened_of v.seen.items; shorter = map happened_of v.shorter.items; mine = v.mine; faults = v.faults; spent = v.spent; room = v.room; drawn = v.drawn; ticket = v.ticket; taken = option_map (λ taken. (map happened_of taken.log.items, taken.count)) v.taken; splits = v.splits; stands_for = v.stands_for; first = v.first } };
}

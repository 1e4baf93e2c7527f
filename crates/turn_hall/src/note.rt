//! A note: what a pass has seen, to be told to another.
use crate::view::View;
use atomic_table::Badge;
use std::marker::Model;

/// What a pass has seen, to be told to another of the hall. Contracts see it as a pass that may ask nothing.
#[derive(Drop)]
pub struct Note {
    pub(crate) badge: Badge<View>,
    pub(crate) place: u64,
}

impl Model for Note {
    ghost use Rattle.turn_hall.specs.Codes.{pass_code};
    ghost use Rattle.turn_hall.specs.Passes.{IsNote, PassValue, view_of};

    ghost Value = { PassValue };

    ghost coded = { pass_code };

    ghost view = { λ n. record { hall = n.badge.table_id; knows = view_of n.badge.views } };

    ghost invariant = { λ n. IsNote n.badge.views n.place };
}

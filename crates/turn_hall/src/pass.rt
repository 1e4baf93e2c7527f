//! A pass: the right to take turns in a hall, with what was seen there.
ghost use Rattle.std.specs.Prelude.{◌≡◌, ◌+◌, ◌<◌, ◌≤◌, true, false};
ghost use Rattle.project_machine.specs.Asking.{IsVisiting, Visited};
ghost use Rattle.project_machine.specs.History.{last};
ghost use Rattle.project_machine.specs.Legal.{IsLegal};
ghost use Rattle.project_state.specs.Values.{answer_of, asked_of};
ghost use Rattle.project_book.specs.Visits.{own_steps};
ghost use Rattle.turn_hall.specs.Passes.{IsSeen, Joined, Learnt, TookTurn, visiting_of};
ghost use Rattle.turn_hall.specs.Steps.{noted, split_from, split_off};

use crate::hall::Hall;
use crate::note::Note;
use crate::plays::{Cut, Hear, Learn, Unite, Write};
use crate::turn::take_turn;
use crate::view::View;
use atomic_table::Badge;
use mark_base::{Slug, Steps};
use project_book::{Reply, Request};
use project_journal::Keeper;
use std::marker::Model;
use std::mem;
use std::sync::Wait;
use std::sync::ledger::Ledger;

/// The right to take turns in a hall, with what was seen there. Contracts see the hall that it is of, and what it
/// knows. It is not copied, so each change stands in one pass.
#[derive(Drop)]
pub struct Pass {
    pub(crate) badge: Badge<View>,
    pub(crate) place: u64,
    pub(crate) room: u64,
    pub(crate) splits: u32,
    pub(crate) stands_for: u32,
    pub(crate) first: bool,
}

impl Model for Pass {
    ghost use Rattle.turn_hall.specs.Codes.{pass_code};
    ghost use Rattle.turn_hall.specs.Passes.{IsPass, PassValue, view_of};

    ghost Value = { PassValue };

    ghost coded = { pass_code };

    ghost view = { λ p. record { hall = p.badge.table_id; knows = view_of p.badge.views } };

    ghost invariant = { λ p. IsPass p.badge.views p.place p.room p.splits p.stands_for p.first };
}

impl Pass {
    /// Tells a proof what each pass keeps. It does nothing.
    pub fn keeps(&self)
        ensures legal { IsLegal self.now.knows.seen }
        ensures visiting { IsVisiting (visiting_of self.now) }
    {
        let _badge = &self.badge;
    }

    /// Whether this is the first pass of its hall.
    pub fn is_first(&self) -> bool
        ensures { result ≡ self.now.knows.first }
    {
        self.first
    }

    /// How often it was split.
    pub fn splits(&self) -> u32
        ensures { result ≡ self.now.knows.splits }
    {
        self.splits
    }

    /// For how many passes it stands: itself, and those that were joined to it.
    pub fn stands_for(&self) -> u32
        ensures { result ≡ self.now.knows.stands_for }
    {
        self.stands_for
    }

    /// The place of the last change that it has seen.
    pub(crate) fn place(&self) -> u64
        ensures { result ≡ last self.now.knows.seen }
    {
        self.place
    }

    /// How often it may still ask.
    pub(crate) fn room(&self) -> u64
        ensures { result ≡ self.now.knows.room }
    {
        self.room
    }

    /// Makes another pass, which has seen what this one has, has made no change, and may ask as often as this one still
    /// may. Only the first pass of a hall is split, and at most 255 times.
    pub fn split<K: Keeper>(&mut self, hall: &Hall<K>) -> Pass
        requires hall { self.old.hall ≡ hall.now.id }
        requires first { self.old.knows.first ≡ true }
        requires few { self.old.knows.splits < 255 }
        ensures hall { (self.new.hall ≡ self.old.hall) × (result.hall ≡ self.old.hall) }
        ensures pass { self.new.knows ≡ split_from self.old.knows }
        ensures new { result.knows ≡ split_off self.old.knows }
    {
        let badge = mem::replace(&mut self.badge, Badge::blank());
        let mut seat = badge.into_seat();
        let other = hall.table.shared.split_seat::<Cut>(&mut seat);
        self.badge = seat.into_badge();
        self.splits += 1;
        Pass {
            badge: other.into_badge(),
            place: self.place,
            room: self.room,
            splits: 0,
            stands_for: 1,
            first: false,
        }
    }

    /// Makes a note of what this pass has seen.
    pub fn note<K: Keeper>(&mut self, hall: &Hall<K>) -> Note
        requires hall { self.old.hall ≡ hall.now.id }
        ensures hall { result.hall ≡ self.old.hall }
        ensures pass { self.new ≡ self.old }
        ensures new { result.knows ≡ noted self.old.knows }
    {
        let badge = mem::replace(&mut self.badge, Badge::blank());
        let mut seat = badge.into_seat();
        let other = hall.table.shared.split_seat::<Write>(&mut seat);
        self.badge = seat.into_badge();
        Note {
            badge: other.into_badge(),
            place: self.place,
        }
    }

    /// Takes in another pass of the hall: what it has seen, its changes, its faults and the tickets that it drew. The
    /// room stays as it was.
    pub fn join<K: Keeper>(&mut self, hall: &Hall<K>, other: Pass)
        requires hall { (self.old.hall ≡ hall.now.id) × (other.hall ≡ hall.now.id) }
        requires second { other.knows.first ≡ false }
        ensures hall { self.new.hall ≡ self.old.hall }
        ensures knows { Joined self.old.knows other.knows self.new.knows }
    {
        let Pass {
            badge,
            place,
            stands_for,
            ..
        } = other;
        let mut seat = mem::replace(&mut self.badge, Badge::blank()).into_seat();
        hall.table
            .shared
            .join_seat::<Unite>(&mut seat, badge.into_seat());
        hall.table.shared.load::<Learn>(&mut seat, 0);
        self.badge = seat.into_badge();
        self.place = self.place.max(place);
        self.stands_for += stands_for;
    }

    /// Learns what the pass of a note had seen. All else stays as it was.
    pub fn learn<K: Keeper>(&mut self, hall: &Hall<K>, note: Note)
        requires hall { (self.old.hall ≡ hall.now.id) × (note.hall ≡ hall.now.id) }
        ensures hall { self.new.hall ≡ self.old.hall }
        ensures knows { Learnt self.old.knows note.knows self.new.knows }
    {
        let Note { badge, place } = note;
        let mut seat = mem::replace(&mut self.badge, Badge::blank()).into_seat();
        hall.table
            .shared
            .join_seat::<Hear>(&mut seat, badge.into_seat());
        hall.table.shared.load::<Learn>(&mut seat, 0);
        self.badge = seat.into_badge();
        self.place = self.place.max(place);
    }

    /// One request in one turn.
    pub(crate) fn ask<K: Keeper, R: Wait, G: Ledger>(
        &mut self,
        rt: &R,
        hall: &Hall<K>,
        caller: &Slug,
        request: Request,
        steps: &mut Steps<G>,
    ) -> Reply
        requires hall { self.old.hall ≡ hall.now.id }
        requires room { 0 < self.old.knows.room }
        ensures visited { Visited (visiting_of self.old) (visiting_of self.new) caller.now (asked_of request) (answer_of result) }
        ensures turn { TookTurn self.old self.new }
        ensures few { steps.new ≤ steps.old + own_steps (visiting_of self.old) (visiting_of self.new) }
    {
        let mut seat = mem::replace(&mut self.badge, Badge::blank()).into_seat();
        let (reply, place) = take_turn(rt, &hall.table.shared, &mut seat, caller, request, steps);
        self.badge = seat.into_badge();
        self.place = place;
        self.room -= 1;
        reply
    }
}

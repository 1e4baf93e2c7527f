//! A visitor that is answered behind what another does.
ghost use Rattle.std.specs.Prelude.{◌≡◌, ◌+◌, ◌<◌};

use crate::hall::answers::answers_to;
use crate::hall::guests::found;
use crate::hall::projects::list_messages;
use anyhow::{Error, Result};
use char_documents::Doc;
use mark_base::{Slug, Steps};
use project_book::{Reply, Request, Visitor};
use std::alloc::Global;
use std::marker::Brand;
use std::sync::Wait;
use std::sync::ledger::{Blank, Ledger};
use turn_hall::{Guest, Hall};

/// One request of a visitor, whose steps are counted apart.
fn ask_apart<V: Visitor, L: Ledger>(
    visitor: &mut V,
    caller: &Slug,
    request: Request,
    blank: Blank,
) -> Reply
    requires name { blank.name ≡ L.name }
    requires parts { blank.parts ≡ L.parts }
    requires some { 0 < L.parts }
    requires room { 0 < (V.visiting visitor.old).room }
    ensures { (V.visiting visitor.new).room + 1 ≡ (V.visiting visitor.old).room }
{
    let mut steps = Steps::<L>::new(blank);
    visitor.ask(caller, request, &mut steps)
}

/// One request of a visitor, whose steps nobody is told.
fn ask_alone<V: Visitor>(visitor: &mut V, caller: &Slug, request: Request) -> Reply
    requires { 0 < (V.visiting visitor.old).room }
    ensures { (V.visiting visitor.new).room + 1 ≡ (V.visiting visitor.old).room }
{
    ask_apart::<V, Brand>(visitor, caller, request, Blank::new(1))
}

/// Before it passes a request on to the first visitor it has the second one ask the last of its requests, or for the
/// documents where none is left, whose steps are counted apart. All that it tells is the first one's, but that its room is
/// the lesser of the two.
#[derive(Drop)]
struct Behind<V: Visitor, W: Visitor> {
    first: V,
    second: W,
    curator: Slug,
    requests: Vec<Request>,
}

impl<V: Visitor, W: Visitor> Visitor for Behind<V, W> {
    ghost use Rattle.std.specs.Prelude.{min};

    ghost visiting = { λ both. record (V.visiting both.first) { room = min (V.visiting both.first).room (W.visiting both.second).room } };

    ghost faultless = { λ both. V.faultless both.first };

    fn keeps(&self) {
        self.first.keeps();
    }

    fn place(&self) -> u64 {
        self.first.place()
    }

    fn room(&self) -> u64 {
        self.first.room().min(self.second.room())
    }

    fn ask<G: Ledger>(&mut self, caller: &Slug, request: Request, steps: &mut Steps<G>) -> Reply {
        let others = match self.requests.pop() {
            Some(request) => request,
            None => Request::ListDocs,
        };
        let _reply = ask_alone(&mut self.second, &self.curator, others);
        self.first.ask(caller, request, steps)
    }
}

/// A name, which is a slug.
fn slug(alloc: Global, name: &str) -> Result<Slug> {
    match Slug::new(alloc, name) {
        Ok(name) => Ok(name),
        Err(_) => Err(Error::msg("a name is not read")),
    }
}

/// Requests that add the documents a, b and c, the first one last.
fn additions(alloc: Global) -> Result<Vec<Request>> {
    let mut requests = Vec::new(alloc);
    for name in ["c", "b", "a"] {
        let doc = slug(alloc, name)?;
        match Doc::new(alloc, "a b c") {
            Ok(text) => requests.push(Request::AddText { doc, text })?,
            Err(_) => return Err(Error::msg("a text is not read")),
        }
    }
    Ok(requests)
}

/// One connection lists the documents three times by a guest of a hall, before each of which another guest adds one.
pub(crate) fn list_behind<R: Wait, G: Ledger>(
    rt: &R,
    alloc: Global,
    steps: &mut Steps<G>,
) -> Result<String> {
    let Ok((hall, mut first)) = Hall::open(alloc, found(alloc)?) else {
        return Err(Error::msg("the hall is not opened"));
    };
    let second = first.split(&hall);
    first.keeps();
    let mut visitor = Behind {
        first: Guest::new(rt, &hall, first),
        second: Guest::new(rt, &hall, second),
        curator: slug(alloc, "cur")?,
        requests: additions(alloc)?,
    };
    answers_to(alloc, &mut visitor, list_messages(alloc, 3)?, steps)
}

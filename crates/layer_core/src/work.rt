//! A layer that commands change.
ghost use Rattle.std.specs.Prelude.{◌≡◌, IfOk, IfErr, OnErr, OnOk, None, Ok, true, length};
ghost use Rattle.std.specs.Arc.{arc_value};
ghost use Rattle.layer_rules.specs.CheckFaults.{IsCheckFault};
ghost use Rattle.layer_rules.specs.WellFormed.{IsWellFormed};
ghost use Rattle.layer_core.specs.Backs.{IsWayBack, fits_back, led_back};
ghost use Rattle.layer_core.specs.Changes.{AreNamers, FitsLayer, draft_by};
ghost use Rattle.layer_core.specs.Commands.{apply};
ghost use Rattle.layer_core.specs.Indexes.{IsIndex};
ghost use Rattle.layer_core.specs.MadeLayers.{draft};
ghost use Rattle.layer_core.specs.Outcomes.{IsIndexed, IsOutcome, IsSomeWellFormed};
ghost use Rattle.layer_core.specs.OwnRules.{own_rule};
ghost use Rattle.layer_core.specs.Works.{IsRefusal};

use crate::change::Change;
use crate::changes::{change, subject};
use crate::command_rules::{moved_rule, own_rule};
use crate::index::Index;
use crate::outcome::{Outcome, done};
use crate::ways_back::go_back;
use crate::{Back, Command, Refusal};
use char_documents::Doc;
use conf_model::Conf;
use layer_model::{Layer, Rule};
use layer_rules::{CheckFault, check};
use mark_base::{AnnId, Memory};
use std::alloc::Global;
use std::marker::Model;
use std::sync::Arc;

/// What a command did: the ID of the annotation that it made, where it made one.
#[derive(Clone, Copy, Debug, PartialEq, Eq)]
pub struct Done {
    pub made: Option<AnnId>,
}

/// A well-formed layer on a text, under a configuration, that commands change.
#[derive(Drop)]
pub struct Work {
    alloc: Global,
    layer: Layer,
    index: Option<Index>,
    doc: Arc<Doc>,
    conf: Arc<Conf>,
}

impl Model for Work {
    ghost use Rattle.std.specs.Prelude.{length};
    ghost use Rattle.std.specs.Arc.{arc_value};
    ghost use Rattle.layer_rules.specs.WellFormed.{IsWellFormed};
    ghost use Rattle.layer_core.specs.Outcomes.{IsIndexed};
    ghost use Rattle.layer_core.specs.Works.{WorkState, work_code};

    ghost Value = { WorkState };

    ghost coded = { work_code };

    ghost view = { λ work. record { conf = arc_value work.conf; text = arc_value work.doc; layer = work.layer } };

    ghost invariant = { λ work. IsWellFormed (arc_value work.conf) (length (arc_value work.doc)) work.layer × IsIndexed work.layer work.index };
}

/// The index of a layer, made anew where none is kept. Cost: nothing where one is, and else as `Index::of`.
fn ready(alloc: Global, layer: &Layer, index: Option<Index>) -> Result<Index, Memory>
    requires well_formed { IsSomeWellFormed layer.now }
    requires index { IsIndexed layer.now index }
    ensures { IfOk result (λ index. IsIndex None layer.now index) }
{
    layer.keeps();
    match index {
        Some(index) => Ok(index),
        None => Index::of(alloc, layer),
    }
}

/// The annotations that name the one of which a command asks who names it.
fn namers(
    alloc: Global,
    layer: &Layer,
    index: &Index,
    command: &Command,
) -> Result<Vec<AnnId>, Memory>
    requires { IsIndex None layer.now index.now }
    ensures { IfOk result (λ ids. AreNamers layer.now command.now ids.items) }
{
    match subject(command) {
        Some(id) => index.namers(alloc, layer, None, id),
        None => Ok(Vec::new(alloc)),
    }
}

/// The first rule that a command's own fields break, and what the command does to the layer.
fn asked(
    alloc: Global,
    conf: &Conf,
    doc: &Doc,
    layer: &Layer,
    index: &Index,
    command: &Command,
) -> Result<(Option<Rule>, Change), Memory>
    requires { IsIndex None layer.now index.now }
    ensures own { IfOk result (λ asked. asked.0 ≡ own_rule conf.now (length doc.now) layer.now command.now) }
    ensures change { IfOk result (λ asked. draft_by layer.now asked.1 ≡ draft conf.now layer.now command.now) }
    ensures fits { IfOk result (λ asked. FitsLayer layer.now asked.1) }
{
    let namers = namers(alloc, layer, index, command)?;
    let fields = own_rule(conf, layer, &namers, command);
    let own = moved_rule(doc.char_count(), command).or(fields);
    let change = change(alloc, conf, layer, &namers, command)?;
    Ok((own, change))
}

/// Carries a command out over the index of a layer, and answers the index behind it, as far as one is kept.
fn carry_out(
    alloc: Global,
    conf: &Conf,
    doc: &Doc,
    layer: &mut Layer,
    index: Index,
    command: &Command,
) -> (Outcome, Option<Index>)
    requires well_formed { IsWellFormed conf.now (length doc.now) layer.old }
    requires index { IsIndex None layer.old index }
    ensures outcome { IsOutcome conf.now (length doc.now) (own_rule conf.now (length doc.now) layer.old command.now) (draft conf.now layer.old command.now) layer.old layer.new result.0 }
    ensures index { IsIndexed layer.new result.1 }
{
    match asked(alloc, conf, doc, layer, &index, command) {
        Ok((own, change)) => done(alloc, conf, doc, layer, index, own, change),
        Err(_) => (Err(Refusal::Memory), Some(index)),
    }
}

impl Work {
    /// Takes a layer to work on. The fault is its least flaw, or want of memory.
    pub fn open(
        alloc: Global,
        layer: Layer,
        doc: Arc<Doc>,
        conf: Arc<Conf>,
    ) -> Result<Work, CheckFault>
        ensures opened { IfOk result (λ work. work ≡ record { conf = arc_value conf; text = arc_value doc; layer = layer }) }
        ensures fault { IfErr result (IsCheckFault (arc_value conf) (length (arc_value doc)) layer) }
    {
        check(alloc, &layer, &doc, &conf)?;
        Ok(Work {
            alloc,
            layer,
            index: None,
            doc,
            conf,
        })
    }

    /// The layer as it stands.
    pub fn layer(&self) -> &Layer
        ensures value { result.now ≡ self.now.layer }
        ensures well_formed { IsWellFormed self.now.conf (length self.now.text) result.now }
    {
        &self.layer
    }

    /// Carries a command out. A refusal is the first rule by number that the command breaks, by its own
    /// fields or by the layer that it would make, and leaves the layer as it was.
    ///
    /// Cost: what the command changes, what names it, what makes a pair with it, and the members of the
    /// classes, each a look-up; where an event is to have an event as an argument, sixteen times the arguments
    /// of all events; to equate what a join of the members of the classes that share one costs. To purge and to
    /// load cost a copy of the layer and a check of the copy, and a purge besides, for each step of the longest
    /// way from name to name, a look-up of what each annotation names. The first command, and one behind such a
    /// command, its undo or an undo of a delete of what stood in a class, cost what the annotations name
    /// besides.
    pub fn apply(&mut self, command: Command) -> Result<Done, Refusal>
        ensures done { IfOk result (λ done. apply self.old.conf (length self.old.text) self.old.layer command ≡ Ok (record { layer = self.new.layer; made = done.made })) }
        ensures refused { IfErr result (IsRefusal self.old.conf (length self.old.text) self.old.layer command) }
        ensures kept { OnErr result (self.new ≡ self.old) }
        ensures conf { self.new.conf ≡ self.old.conf }
        ensures text { self.new.text ≡ self.old.text }
    {
        self.carry_out(&command)
    }

    /// Carries a command out that the caller keeps, as `apply` does, and copies no more of it than the
    /// layer takes in. Cost: as `apply`.
    pub fn carry_out(&mut self, command: &Command) -> Result<Done, Refusal>
        ensures done { IfOk result (λ done. apply self.old.conf (length self.old.text) self.old.layer command.now ≡ Ok (record { layer = self.new.layer; made = done.made })) }
        ensures refused { IfErr result (IsRefusal self.old.conf (length self.old.text) self.old.layer command.now) }
        ensures kept { OnErr result (self.new ≡ self.old) }
        ensures conf { self.new.conf ≡ self.old.conf }
        ensures text { self.new.text ≡ self.old.text }
    {
        let (done, _) = self.carry_out_back(command)?;
        Ok(done)
    }

    /// Carries a command out as `apply` does, and tells what leads back to the layer before it, for
    /// `revert`. Cost: as `apply`.
    pub fn apply_back(&mut self, command: Command) -> Result<(Done, Back), Refusal>
        ensures done { IfOk result (λ told. apply self.old.conf (length self.old.text) self.old.layer command ≡ Ok (record { layer = self.new.layer; made = told.0.made })) }
        ensures back { IfOk result (λ told. IsWayBack told.1 self.new.layer self.old.layer) }
        ensures refused { IfErr result (IsRefusal self.old.conf (length self.old.text) self.old.layer command) }
        ensures kept { OnErr result (self.new ≡ self.old) }
        ensures conf { self.new.conf ≡ self.old.conf }
        ensures text { self.new.text ≡ self.old.text }
    {
        self.carry_out_back(&command)
    }

    /// Carries a command out that the caller keeps, as `apply_back` does. Cost: as `apply`.
    pub fn carry_out_back(&mut self, command: &Command) -> Result<(Done, Back), Refusal>
        ensures done { IfOk result (λ told. apply self.old.conf (length self.old.text) self.old.layer command.now ≡ Ok (record { layer = self.new.layer; made = told.0.made })) }
        ensures back { IfOk result (λ told. IsWayBack told.1 self.new.layer self.old.layer) }
        ensures refused { IfErr result (IsRefusal self.old.conf (length self.old.text) self.old.layer command.now) }
        ensures kept { OnErr result (self.new ≡ self.old) }
        ensures conf { self.new.conf ≡ self.old.conf }
        ensures text { self.new.text ≡ self.old.text }
    {
        let index = ready(self.alloc, &self.layer, self.index.take())?;
        let (outcome, index) = carry_out(
            self.alloc,
            &self.conf,
            &self.doc,
            &mut self.layer,
            index,
            command,
        );
        self.index = index;
        outcome
    }

    /// Goes a way back that `apply_back` told of the layer as it stands: the layer before that command
    /// stands again. Want of memory leaves the work as it was and gives the way back again. Cost: a copy of
    /// the annotation that the command took away or changed, and what it names, each a look-up; behind an equate
    /// the members of the classes for each member that leaves. Where it joined classes that stood apart, and
    /// behind a purge and a delete of what stands in a class, a copy of the layer.
    pub fn revert(&mut self, back: Back) -> Result<(), (Back, Memory)>
        requires fits { fits_back back ≡ true }
        requires well_formed { IsWellFormed self.old.conf (length self.old.text) (led_back back self.old.layer) }
        ensures done { OnOk result (self.new ≡ record { conf = self.old.conf; text = self.old.text; layer = led_back back self.old.layer }) }
        ensures kept { OnErr result (self.new ≡ self.old) }
        ensures given { IfErr result (λ stop. stop.0 ≡ back) }
    {
        go_back(self.alloc, &mut self.layer, &mut self.index, back)
    }
}

//! What the rules on one record see.
ghost use Rattle.std.specs.Prelude.{◌≡◌, Option};
ghost use Rattle.layer_model.specs.declared.rule.Rule.{Rule};

use crate::mark_rules::{
    bad_fragments, barred_relation, barred_type, missing, missing_in_event, missing_in_relation,
    out_of_text, refused_argument, refused_target, refused_types, span_too_long, too_many,
    unknown_attribute, unknown_event_type, unknown_relation, unknown_role, unknown_type,
    unknown_value, unwanted, unwanted_in_event, unwanted_in_relation, unwanted_target,
};
use crate::targets::{is_normal_target, is_note_target};
use conf_model::Conf;
use layer_model::{Attribute, Event, Layer, Normal, Note, Relation, Rule, Span};

/// Tells the rule that a record breaks, if it breaks one.
pub(crate) trait Judge<V> {
    ghost use Rattle.std.specs.Prelude.{Option};
    ghost use Rattle.layer_model.specs.declared.rule.Rule.{Rule};

    ghost told: { Self → V → Option Rule };

    fn rule(&self, found: &V) -> Option<Rule>
        ensures { result ≡ told self.now found.now };
}

/// A layer, its configuration and how many characters its text has.
#[derive(Clone, Copy)]
pub(crate) struct Scene<'a> {
    pub layer: &'a Layer,
    pub conf: &'a Conf,
    pub characters: u32,
}

impl Judge<Span> for Scene<'_> {
    ghost use Rattle.layer_model.specs.declared.mark.Mark.TheVariants as marked;
    ghost use Rattle.layer_rules.specs.LowestFlaw.{mark_rule};

    ghost told = { λ scene span. mark_rule scene.conf.now scene.characters scene.layer.now (marked.Span span) };

    fn rule(&self, span: &Span) -> Option<Rule> {
        unknown_type(self.conf, span.kind)
            .or(barred_type(self.conf, span.kind))
            .or(bad_fragments(span))
            .or(out_of_text(self.characters, span))
            .or(span_too_long(span))
    }
}

impl Judge<Event> for Scene<'_> {
    ghost use Rattle.layer_model.specs.declared.mark.Mark.TheVariants as marked;
    ghost use Rattle.layer_rules.specs.LowestFlaw.{mark_rule};

    ghost told = { λ scene event. mark_rule scene.conf.now scene.characters scene.layer.now (marked.Event event) };

    fn rule(&self, event: &Event) -> Option<Rule> {
        unknown_event_type(self.conf, event.kind)
            .or(barred_type(self.conf, event.kind))
            .or(missing_in_event(self.layer, event))
            .or(unwanted_in_event(self.conf, self.layer, event))
            .or(unknown_role(self.conf, event))
            .or(refused_argument(self.conf, self.layer, event))
            .or(too_many(self.conf, event))
    }
}

impl Judge<Relation> for Scene<'_> {
    ghost use Rattle.layer_model.specs.declared.mark.Mark.TheVariants as marked;
    ghost use Rattle.layer_rules.specs.LowestFlaw.{mark_rule};

    ghost told = { λ scene relation. mark_rule scene.conf.now scene.characters scene.layer.now (marked.Relation relation) };

    fn rule(&self, relation: &Relation) -> Option<Rule> {
        unknown_relation(self.conf, relation.kind)
            .or(barred_relation(self.conf, relation.kind))
            .or(missing_in_relation(self.layer, relation))
            .or(unwanted_in_relation(self.conf, self.layer, relation))
            .or(refused_types(self.conf, self.layer, relation))
    }
}

impl Judge<Attribute> for Scene<'_> {
    ghost use Rattle.layer_model.specs.declared.mark.Mark.TheVariants as marked;
    ghost use Rattle.layer_rules.specs.LowestFlaw.{mark_rule};

    ghost told = { λ scene attribute. mark_rule scene.conf.now scene.characters scene.layer.now (marked.Attribute attribute) };

    fn rule(&self, attribute: &Attribute) -> Option<Rule> {
        unknown_attribute(self.conf, attribute.kind)
            .or(missing(self.layer, attribute.target))
            .or(unwanted_target(self.conf, self.layer, attribute))
            .or(refused_target(self.conf, self.layer, attribute))
            .or(unknown_value(self.conf, attribute))
    }
}

impl Judge<Normal> for Scene<'_> {
    ghost use Rattle.layer_model.specs.declared.mark.Mark.TheVariants as marked;
    ghost use Rattle.layer_rules.specs.LowestFlaw.{mark_rule};

    ghost told = { λ scene normal. mark_rule scene.conf.now scene.characters scene.layer.now (marked.Normal normal) };

    fn rule(&self, normal: &Normal) -> Option<Rule> {
        let target = normal.target;
        missing(self.layer, target).or(unwanted(target, is_normal_target(target.kind)))
    }
}

impl Judge<Note> for Scene<'_> {
    ghost use Rattle.layer_model.specs.declared.mark.Mark.TheVariants as marked;
    ghost use Rattle.layer_rules.specs.LowestFlaw.{mark_rule};

    ghost told = { λ scene note. mark_rule scene.conf.now scene.characters scene.layer.now (marked.Note note) };

    fn rule(&self, note: &Note) -> Option<Rule> {
        let target = note.target;
        missing(self.layer, target).or(unwanted(target, is_note_target(target.kind)))
    }
}

//! The rules on one annotation, for a caller that knows which to ask about.
ghost use Rattle.std.specs.Prelude.{◌≡◌, option_and_then};
ghost use Rattle.layer_model.specs.Layers.{mark_at};
ghost use Rattle.layer_rules.specs.LayerRules.{bad_text};
ghost use Rattle.layer_rules.specs.LowestFlaw.{mark_rule};

use crate::rules_by_kind::{Judge, Scene};
use crate::text_flaw::Texts;
use conf_model::Conf;
use layer_model::{Layer, Rule};
use mark_base::{AnnId, Kind};

/// The first of the rules on one annotation, and on what it names, that the annotation of an ID breaks,
/// where the layer has one: those of the numbers 1 to 10 and 12. Cost: what it names and its length, each
/// a look-up in an ordered map.
pub fn annotation_rule(conf: &Conf, characters: u32, layer: &Layer, id: AnnId) -> Option<Rule>
    ensures { result ≡ option_and_then (mark_rule conf.now characters layer.now) (mark_at layer.now id) }
{
    let scene = Scene {
        layer,
        conf,
        characters,
    };
    match id.kind {
        Kind::Text => scene.rule(layer.span(id.number)?),
        Kind::Event => scene.rule(layer.event(id.number)?),
        Kind::Relation => scene.rule(layer.relation(id.number)?),
        Kind::Attribute | Kind::Legacy => scene.rule(layer.attribute(id)?),
        Kind::Normal => scene.rule(layer.normal(id.number)?),
        Kind::Note => scene.rule(layer.note(id.number)?),
    }
}

/// The rule on texts, where the annotation of an ID is a normalization or a note that breaks it. Cost: its
/// texts.
pub fn text_rule(layer: &Layer, id: AnnId) -> Option<Rule>
    ensures { result ≡ option_and_then bad_text (mark_at layer.now id) }
{
    match id.kind {
        Kind::Normal => Texts.rule(layer.normal(id.number)?),
        Kind::Note => Texts.rule(layer.note(id.number)?),
        _ => None,
    }
}

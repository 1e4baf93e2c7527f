//! Whether a layer is well-formed, and its least flaw where it is not.
ghost use Rattle.std.specs.Prelude.{◌≡◌, IfErr, IfOk, None, OnOk, length};
ghost use Rattle.layer_rules.specs.FlawPlaces.{first_rule, places};
ghost use Rattle.layer_rules.specs.WellFormed.{IsWellFormed, least_flaw};
ghost use Rattle.layer_rules.specs.CheckFaults.{IsCheckFault};
ghost use Rattle.layer_rules.specs.LowestFlaw.{HasGoodSpans, later_rules};

use crate::CheckFault;
use crate::class_rules::member_flaw;
use crate::event_chains::deep_flaw;
use crate::layer_full::full_flaw;
use crate::lowest_flaw::single_flaw;
use crate::overlaps::overlap_flaw;
use crate::rules_by_kind::Scene;
use crate::same_attributes::attribute_there_flaw;
use crate::same_events::same_event_flaw;
use crate::same_relations::same_relation_flaw;
use crate::same_spans::same_span_flaw;
use crate::text_flaw::text_flaw;
use char_documents::Doc;
use conf_model::Conf;
use layer_model::{Flaw, Layer};
use mark_base::Memory;
use std::alloc::Global;

/// The least flaw of the rules that look at more than one annotation or class and at what it names.
fn later_flaw(alloc: Global, layer: &Layer, conf: &Conf) -> Result<Option<Flaw>, Memory>
    requires { HasGoodSpans conf.now layer.now }
    ensures { IfOk result (λ flaw. flaw ≡ first_rule (later_rules conf.now layer.now) (places layer.now)) }
{
    let deep = deep_flaw(alloc, layer)?;
    let spans = same_span_flaw(alloc, layer)?;
    let events = same_event_flaw(alloc, layer)?;
    let relations = same_relation_flaw(alloc, layer)?;
    let attributes = attribute_there_flaw(alloc, layer)?;
    let members = member_flaw(conf, layer);
    let overlaps = overlap_flaw(alloc, layer, conf)?;
    let texts = text_flaw(layer);
    let rest = overlaps.or(texts.or(full_flaw(layer)));
    let marked = relations.or(attributes.or(members.or(rest)));
    Ok(deep.or(spans.or(events.or(marked))))
}

/// The least flaw of a layer.
fn least_flaw(alloc: Global, scene: &Scene) -> Result<Option<Flaw>, Memory>
    ensures { IfOk result (λ flaw. flaw ≡ least_flaw scene.now.conf.now scene.now.characters scene.now.layer.now) }
{
    scene.layer.keeps();
    if let Some(flaw) = single_flaw(scene) {
        return Ok(Some(flaw));
    }
    let later = later_flaw(alloc, scene.layer, scene.conf)?;
    Ok(later)
}

/// Checks that a layer is well-formed for a configuration and a text: that no annotation, no two of
/// them and no class breaks a rule. The fault is the least flaw of the layer: of the rule of the least
/// number, at the least place, where places are ordered by ID and the classes come after all IDs. Of two
/// annotations that do not go together the higher one is the place, and the rule names the lower one.
/// Events may still lack arguments, for which `may_commit` asks. The memory that is taken is given back.
///
/// Cost: the annotations, what they name and their lengths, each a look-up in an ordered map. Two spans
/// are compared only where the configuration has lines on overlaps; of the members of one class two of each
/// type are compared.
pub fn check(alloc: Global, layer: &Layer, doc: &Doc, conf: &Conf) -> Result<(), CheckFault>
    ensures well_formed { OnOk result (IsWellFormed conf.now (length doc.now) layer.now) }
    ensures unflawed { OnOk result (least_flaw conf.now (length doc.now) layer.now ≡ None) }
    ensures flaw { IfErr result (IsCheckFault conf.now (length doc.now) layer.now) }
{
    let scene = Scene {
        layer,
        conf,
        characters: doc.char_count(),
    };
    match least_flaw(alloc, &scene)? {
        Some(flaw) => Err(CheckFault::Flaw(flaw)),
        None => Ok(()),
    }
}

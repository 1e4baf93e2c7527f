//! Chains of events, each later one an argument of the one before it.
//!
//! The events that begin a chain of one event more are those with an argument that begins one, so
//! sixteen rounds find the events that begin a chain of more than 16 events. Circles need no test of
//! their own: an event on a circle begins chains of every length.
ghost use Rattle.std.specs.Prelude.{◌≡◌, ◌+◌, ◌&&◌, IfOk, is_some};
ghost use Rattle.std.specs.Ordering.{nat_cmp};
ghost use Rattle.std.specs.List.{list_any};
ghost use Rattle.std.specs.FinMap as finite;
ghost use Rattle.mark_base.specs.declared.ann_id.Kind.{Kind};
ghost use Rattle.layer_model.specs.declared.mark.Mark.{Mark};
ghost use Rattle.mark_base.specs.ReadIds.{id_at};
ghost use Rattle.layer_rules.specs.FlawPlaces.{first_place, places};
ghost use Rattle.layer_rules.specs.LayerRules.{is_event_id, too_deep};
ghost use Rattle.layer_rules.specs.WellFormed.{at_too_deep};
ghost use Rattle.layer_rules.specs.LowestFlaw.{first_among};
ghost use Rattle.layer_rules.specs.EventChains.{HoldsChains, is_held};

use layer_model::{Flaw, FlawPlace, Layer, Rule, id_at};
use mark_base::{AnnId, Arg, Kind, Memory};
use std::alloc::Global;
use std::collections::BTreeMap;

/// Whether a number is held.
fn holds<V>(held: &BTreeMap<u32, V>, number: u32) -> bool
    ensures { result ≡ is_held held.now.entries number }
{
    held.contains_key(&number)
}

/// Whether an ID is that of an event which is held.
fn is_held<V>(held: &BTreeMap<u32, V>, id: AnnId) -> bool
    ensures { result ≡ (is_event_id id && is_held held.now.entries id.number) }
{
    id.kind == Kind::Event && holds(held, id.number)
}

/// Whether some argument is an event which is held.
fn leads_on<V>(held: &BTreeMap<u32, V>, args: &[Arg]) -> bool
    ensures { result ≡ list_any (λ arg. is_event_id arg.target && is_held held.now.entries arg.target.number) args.now }
{
    for arg in args {
        if is_held(held, arg.target) {
            return true;
        }
    }
    false
}

/// The events that begin a chain of one event more than those that are held.
fn deeper<V>(
    alloc: Global,
    layer: &Layer,
    events: u32,
    before: &BTreeMap<u32, V>,
) -> Result<BTreeMap<u32, ()>, Memory>
    requires { HoldsChains layer.now events before.now.entries }
    ensures { IfOk result (λ held. HoldsChains layer.now (events + 1) held.entries) }
{
    let mut held = BTreeMap::new(alloc);
    for (number, event) in layer.events() {
        if leads_on(before, event.args.items()) {
            held.insert(*number, ())?;
        }
    }
    Ok(held)
}

/// The events that begin a chain of more than 16 events.
fn deep_events(alloc: Global, layer: &Layer) -> Result<BTreeMap<u32, ()>, Memory>
    ensures { IfOk result (λ held. HoldsChains layer.now 16 held.entries) }
{
    let mut held = deeper(alloc, layer, 0, layer.events())?;
    for events in 1..16 {
        held = deeper(alloc, layer, events, &held)?;
    }
    Ok(held)
}

/// The flaw of the first event that is held.
fn first_deep(layer: &Layer, held: &BTreeMap<u32, ()>) -> Option<Flaw>
    requires { HoldsChains layer.now 16 held.now.entries }
    ensures { result ≡ first_among Kind.Event (λ n v. too_deep layer.now (id_at Kind.Event n) (Mark.Event v)) (finite.entries layer.now.events) }
{
    for (number, _) in layer.events() {
        let id = id_at(Kind::Event, *number);
        if holds(held, id.number) {
            return Some(Flaw {
                rule: Rule::TooDeep,
                at: FlawPlace::Mark(id),
            });
        }
    }
    None
}

/// The flaw of the first event that begins a chain of more than 16 events. Cost: sixteen times the
/// arguments of all events, each a look-up.
pub fn deep_flaw(alloc: Global, layer: &Layer) -> Result<Option<Flaw>, Memory>
    ensures { IfOk result (λ flaw. flaw ≡ first_place (at_too_deep layer.now) (places layer.now)) }
{
    layer.keeps();
    let held = deep_events(alloc, layer)?;
    Ok(first_deep(layer, &held))
}

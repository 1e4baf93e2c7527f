//! What the annotations of a layer are made of.
ghost use Rattle.std.specs.Prelude.{◌≡◌, ◌++◌, map, IfOk, OnOk, option_map};
ghost use Rattle.layer_model.specs.Coherent.{trigger_id};
ghost use Rattle.content_keys.specs.LayerContents.{attribute_node, class_node, ends_of, event_node, measured, node_of, normal_node, relation_node, span_node};
ghost use Rattle.content_keys.specs.Parts.{made_of};

use layer_model::{Attribute, Class, Event, Layer, Normal, Relation, Span};
use mark_base::{AnnId, Arg, Frag, Kind, Memory};
use std::alloc::Global;

/// What an annotation is made of: its own numbers, the IDs that it names in order, and the arguments
/// whose order does not count.
#[derive(Drop)]
pub(crate) struct Parts {
    pub own: Vec<u64>,
    pub named: Vec<AnnId>,
    pub args: Vec<Arg>,
}

fn push_ends(out: &mut Vec<u64>, frags: &[Frag]) -> Result<(), Memory>
    ensures { OnOk result (out.new.items ≡ out.old.items ++ ends_of frags.now) }
{
    for frag in frags {
        out.push(u64::from(frag.start))?;
        out.push(u64::from(frag.end))?;
    }
    Ok(())
}

/// Appends a text behind its length in bytes.
fn push_measured(out: &mut Vec<u64>, text: &str) -> Result<(), Memory>
    ensures { OnOk result (out.new.items ≡ out.old.items ++ measured text.now) }
{
    out.push(text.len() as u64)?;
    for byte in text.as_bytes() {
        out.push(u64::from(*byte))?;
    }
    Ok(())
}

fn span_parts(alloc: Global, span: &Span) -> Result<Parts, Memory>
    ensures { IfOk result (λ parts. made_of parts ≡ span_node span.now) }
{
    let mut own = Vec::new(alloc);
    own.push(0)?;
    own.push(u64::from(span.kind.n))?;
    push_ends(&mut own, span.frags.items())?;
    Ok(Parts {
        own,
        named: Vec::new(alloc),
        args: Vec::new(alloc),
    })
}

/// The ID of the span that states an event.
fn trigger_of(event: &Event) -> AnnId
    ensures { result ≡ trigger_id event.now }
{
    AnnId {
        kind: Kind::Text,
        number: event.trigger,
    }
}

fn event_parts(alloc: Global, event: &Event) -> Result<Parts, Memory>
    ensures { IfOk result (λ parts. made_of parts ≡ event_node event.now) }
{
    let mut own = Vec::new(alloc);
    own.push(1)?;
    own.push(u64::from(event.kind.n))?;
    let mut named = Vec::new(alloc);
    named.push(trigger_of(event))?;
    let args = Vec::from_slice(alloc, event.args.items())?;
    Ok(Parts { own, named, args })
}

fn relation_parts(alloc: Global, relation: &Relation) -> Result<Parts, Memory>
    ensures { IfOk result (λ parts. made_of parts ≡ relation_node relation.now) }
{
    let mut own = Vec::new(alloc);
    own.push(2)?;
    own.push(u64::from(relation.kind.n))?;
    let mut named = Vec::new(alloc);
    named.push(relation.first)?;
    named.push(relation.second)?;
    let args = Vec::new(alloc);
    Ok(Parts { own, named, args })
}

fn attribute_parts(alloc: Global, attribute: &Attribute) -> Result<Parts, Memory>
    ensures { IfOk result (λ parts. made_of parts ≡ attribute_node attribute.now) }
{
    let mut own = Vec::new(alloc);
    own.push(3)?;
    own.push(u64::from(attribute.kind.n))?;
    if let Some(value) = attribute.value {
        own.push(u64::from(value))?;
    }
    let mut named = Vec::new(alloc);
    named.push(attribute.target)?;
    let args = Vec::new(alloc);
    Ok(Parts { own, named, args })
}

fn normal_parts(alloc: Global, normal: &Normal) -> Result<Parts, Memory>
    ensures { IfOk result (λ parts. made_of parts ≡ normal_node normal.now) }
{
    let mut own = Vec::new(alloc);
    own.push(4)?;
    push_measured(&mut own, normal.store.text())?;
    push_measured(&mut own, normal.entry.text())?;
    push_measured(&mut own, normal.text.text())?;
    let mut named = Vec::new(alloc);
    named.push(normal.target)?;
    let args = Vec::new(alloc);
    Ok(Parts { own, named, args })
}

/// What the annotation of this ID is made of. A note, and an ID that the layer does not have, answer
/// None. Cost: the parts.
pub(crate) fn parts_of(alloc: Global, layer: &Layer, id: AnnId) -> Result<Option<Parts>, Memory>
    ensures { IfOk result (λ o. option_map made_of o ≡ node_of layer.now id) }
{
    let parts = match id.kind {
        Kind::Text => match layer.span(id.number) {
            Some(span) => span_parts(alloc, span)?,
            None => return Ok(None),
        },
        Kind::Event => match layer.event(id.number) {
            Some(event) => event_parts(alloc, event)?,
            None => return Ok(None),
        },
        Kind::Relation => match layer.relation(id.number) {
            Some(relation) => relation_parts(alloc, relation)?,
            None => return Ok(None),
        },
        Kind::Attribute | Kind::Legacy => match layer.attribute(id) {
            Some(attribute) => attribute_parts(alloc, attribute)?,
            None => return Ok(None),
        },
        Kind::Normal => match layer.normal(id.number) {
            Some(normal) => normal_parts(alloc, normal)?,
            None => return Ok(None),
        },
        Kind::Note => return Ok(None),
    };
    Ok(Some(parts))
}

/// What a class is made of. Cost: its members.
pub(crate) fn class_parts(alloc: Global, class: &Class) -> Result<Parts, Memory>
    ensures { IfOk result (λ parts. made_of parts ≡ class_node class.now) }
{
    let mut own = Vec::new(alloc);
    own.push(5)?;
    own.push(u64::from(class.kind.n))?;
    let mut args = Vec::new(alloc);
    for member in class.members.items() {
        args.push(Arg {
            role: 0,
            target: *member,
        })?;
    }
    let named = Vec::new(alloc);
    Ok(Parts { own, named, args })
}

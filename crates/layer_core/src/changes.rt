//! What a command does to a layer.
ghost use Rattle.std.specs.Prelude.{◌≡◌, ◌<◌, ◌++◌, ◌∷◌, [], true, IfOk, IfSome, Some, length};
ghost use Rattle.std.specs.Option.{option_map_or};
ghost use Rattle.mark_base.specs.declared.ann_id.Kind.{Kind};
ghost use Rattle.layer_model.specs.Annotations.{Annotations};
ghost use Rattle.layer_model.specs.Classes.{joined};
ghost use Rattle.layer_model.specs.Layers.{is_of_kind, with_classes};
ghost use Rattle.layer_rules.specs.LayerRules.{is_arg};
ghost use Rattle.layer_core.specs.declared.command.Command.{Command};
ghost use Rattle.layer_core.specs.Changes.{AreNamers, FitsLayer, draft_by, subject};
ghost use Rattle.layer_core.specs.CommandRules.{is_span_letter};
ghost use Rattle.layer_core.specs.MadeLayers.{draft, with_attribute, with_changed, with_new, without_first};
ghost use Rattle.layer_core.specs.Namers.{AreNamersOf};

use crate::Command;
use crate::attribute_value::{Valued, value_of};
use crate::cascade::falling;
use crate::change::Change;
use crate::command_names::{arg_named, args_named, event_named};
use crate::first_annotation::{
    attribute_on, event_of, first_note, first_reference, is_in_trigger, span_of,
};
use crate::new_numbers::new_number;
use conf_model::Conf;
use layer_model::{Attribute, Event, Layer, Mark, Normal, Note, Relation, Span, id_at};
use layer_rules::is_id;
use mark_base::{
    AnnId, Arg, ArgList, AttrId, FragList, IdList, Kind, Memory, Name, NamedArg, RelId, Text,
};
use std::alloc::Global;

/// The annotation of which a command asks who names it.
pub(crate) fn subject(command: &Command) -> Option<AnnId>
    ensures { result ≡ subject command.now }
{
    match command {
        Command::RetypeSpan { id, .. } => Some(*id),
        Command::SetAttribute { target, .. } => Some(*target),
        Command::ClearAttribute { id } => Some(*id),
        Command::SetNote { target, .. } => Some(*target),
        Command::SetReference { target, .. } => Some(*target),
        Command::Delete { id } => Some(*id),
        _ => None,
    }
}

/// A new annotation of a letter.
fn put_new(layer: &Layer, kind: Kind, mark: Mark) -> Change
    requires { is_of_kind kind mark ≡ true }
    ensures made { draft_by layer.now result ≡ Some (with_new layer.now kind mark) }
    ensures fits { FitsLayer layer.now result }
{
    let id = id_at(kind, new_number(layer, kind));
    Change::Put {
        id,
        mark,
        is_new: true,
    }
}

/// A new span.
fn add_span(conf: &Conf, layer: &Layer, kind: &Name, frags: &FragList) -> Result<Change, Memory>
    ensures made { IfOk result (λ made. draft_by layer.now made ≡ draft conf.now layer.now (Command.AddSpan kind.now frags.now)) }
    ensures fits { IfOk result (FitsLayer layer.now) }
{
    let Some(kind) = conf.types().find(kind) else {
        return Ok(Change::Nothing);
    };
    let frags = frags.copy()?;
    let made = put_new(layer, Kind::Text, Mark::Span(Span { kind, frags }));
    Ok(made)
}

/// Another type of a span.
fn retype_span(
    conf: &Conf,
    layer: &Layer,
    namers: &[AnnId],
    id: AnnId,
    kind: &Name,
) -> Result<Change, Memory>
    requires { AreNamersOf layer.now id namers.now }
    ensures made { IfOk result (λ made. draft_by layer.now made ≡ draft conf.now layer.now (Command.RetypeSpan id kind.now)) }
    ensures fits { IfOk result (FitsLayer layer.now) }
{
    if is_in_trigger(layer, namers, id) {
        return Ok(Change::Nothing);
    }
    let Some(kind) = conf.types().find(kind) else {
        return Ok(Change::Nothing);
    };
    let Some(span) = span_of(layer, id) else {
        return Ok(Change::Nothing);
    };
    let frags = span.frags.copy()?;
    Ok(Change::Put {
        id,
        mark: Mark::Span(Span { kind, frags }),
        is_new: false,
    })
}

/// Other fragments of a span.
fn move_span(layer: &Layer, id: AnnId, frags: &FragList) -> Result<Change, Memory>
    ensures made { IfOk result (λ made. (conf : _) → draft_by layer.now made ≡ draft conf layer.now (Command.MoveSpan id frags.now)) }
    ensures fits { IfOk result (FitsLayer layer.now) }
{
    let Some(span) = span_of(layer, id) else {
        return Ok(Change::Nothing);
    };
    let kind = span.kind;
    let frags = frags.copy()?;
    Ok(Change::Put {
        id,
        mark: Mark::Span(Span { kind, frags }),
        is_new: false,
    })
}

/// Whether a letter is that of spans.
fn is_span_letter(kind: Kind) -> bool
    ensures { result ≡ is_span_letter kind }
{
    match kind {
        Kind::Text => true,
        _ => false,
    }
}

/// A new event.
fn add_event(
    alloc: Global,
    conf: &Conf,
    layer: &Layer,
    kind: &Name,
    trigger: AnnId,
    args: &[NamedArg],
) -> Result<Change, Memory>
    ensures made { IfOk result (λ made. draft_by layer.now made ≡ draft conf.now layer.now (Command.AddEvent kind.now trigger args.now)) }
    ensures fits { IfOk result (FitsLayer layer.now) }
{
    if !is_span_letter(trigger.kind) {
        return Ok(Change::Nothing);
    }
    let Some(kind) = event_named(conf, kind) else {
        return Ok(Change::Nothing);
    };
    let Some(placed) = args_named(alloc, conf, kind, args)? else {
        return Ok(Change::Nothing);
    };
    let event = Event {
        kind,
        trigger: trigger.number,
        args: ArgList::from_vec(placed),
    };
    let made = put_new(layer, Kind::Event, Mark::Event(event));
    Ok(made)
}

/// An event with other arguments.
fn with_args(event: &Event, args: Vec<Arg>) -> Event
    ensures { result ≡ record event.now { args = args.items } }
{
    Event {
        kind: event.kind,
        trigger: event.trigger,
        args: ArgList::from_vec(args),
    }
}

/// Arguments with one more behind them.
fn with_last(alloc: Global, args: &[Arg], last: Arg) -> Result<Vec<Arg>, Memory>
    ensures { IfOk result (λ more. more.items ≡ args.now ++ last ∷ []) }
{
    let mut more = Vec::from_slice(alloc, args)?;
    more.push(last)?;
    Ok(more)
}

/// Whether two arguments are the same.
pub(crate) fn is_arg(wanted: Arg, arg: Arg) -> bool
    ensures { result ≡ is_arg wanted arg }
{
    wanted.role == arg.role && is_id(wanted.target, arg.target)
}

/// Arguments without the first that is another.
fn without_first(alloc: Global, wanted: Arg, args: &[Arg]) -> Result<Vec<Arg>, Memory>
    ensures { IfOk result (λ fewer. fewer.items ≡ without_first wanted args.now) }
{
    let mut fewer = Vec::new(alloc);
    let mut left = args;
    while let Some((arg, others)) = left.split_first() {
        if is_arg(wanted, *arg) {
            fewer.extend_from_slice(others)?;
            return Ok(fewer);
        }
        fewer.push(*arg)?;
        left = others;
    }
    Ok(fewer)
}

/// One more argument of an event.
fn add_arg(
    alloc: Global,
    conf: &Conf,
    layer: &Layer,
    id: AnnId,
    arg: &NamedArg,
) -> Result<Change, Memory>
    ensures made { IfOk result (λ made. draft_by layer.now made ≡ draft conf.now layer.now (Command.AddArg id arg.now)) }
    ensures fits { IfOk result (FitsLayer layer.now) }
{
    let Some(event) = event_of(layer, id) else {
        return Ok(Change::Nothing);
    };
    let Some(placed) = arg_named(conf, event.kind, arg) else {
        return Ok(Change::Nothing);
    };
    let args = with_last(alloc, event.args.items(), placed)?;
    Ok(Change::Put {
        id,
        mark: Mark::Event(with_args(event, args)),
        is_new: false,
    })
}

/// An event without an argument.
fn remove_arg(
    alloc: Global,
    conf: &Conf,
    layer: &Layer,
    id: AnnId,
    arg: &NamedArg,
) -> Result<Change, Memory>
    ensures made { IfOk result (λ made. draft_by layer.now made ≡ draft conf.now layer.now (Command.RemoveArg id arg.now)) }
    ensures fits { IfOk result (FitsLayer layer.now) }
{
    let Some(event) = event_of(layer, id) else {
        return Ok(Change::Nothing);
    };
    let Some(placed) = arg_named(conf, event.kind, arg) else {
        return Ok(Change::Nothing);
    };
    let args = without_first(alloc, placed, event.args.items())?;
    Ok(Change::Put {
        id,
        mark: Mark::Event(with_args(event, args)),
        is_new: false,
    })
}

/// A new relation.
fn add_relation(conf: &Conf, layer: &Layer, kind: &Name, first: AnnId, second: AnnId) -> Change
    ensures made { draft_by layer.now result ≡ draft conf.now layer.now (Command.AddRelation kind.now first second) }
    ensures fits { FitsLayer layer.now result }
{
    let Some(kind) = conf.relation(kind) else {
        return Change::Nothing;
    };
    let relation = Relation {
        kind,
        first,
        second,
    };
    put_new(layer, Kind::Relation, Mark::Relation(relation))
}

/// A new attribute, or another value in the lowest of its type on the target.
fn with_attribute(layer: &Layer, namers: &[AnnId], attribute: Attribute) -> Change
    requires { AreNamersOf layer.now attribute.target namers.now }
    ensures made { draft_by layer.now result ≡ Some (with_attribute layer.now attribute.kind attribute.target attribute.value) }
    ensures fits { FitsLayer layer.now result }
{
    match attribute_on(layer, namers, attribute.kind, attribute.target) {
        Some(id) => Change::Put {
            id,
            mark: Mark::Attribute(attribute),
            is_new: false,
        },
        None => put_new(layer, Kind::Attribute, Mark::Attribute(attribute)),
    }
}

/// An attribute that is set.
fn set_attribute(
    conf: &Conf,
    layer: &Layer,
    namers: &[AnnId],
    kind: &Name,
    target: AnnId,
    value: &Option<Name>,
) -> Change
    requires { AreNamersOf layer.now target namers.now }
    ensures made { draft_by layer.now result ≡ draft conf.now layer.now (Command.SetAttribute kind.now target value.now) }
    ensures fits { FitsLayer layer.now result }
{
    let Some(kind) = conf.attribute(kind) else {
        return Change::Nothing;
    };
    match value_of(conf, kind, value) {
        Valued::Undeclared => Change::Nothing,
        Valued::Declared(value) => {
            let attribute = Attribute {
                kind,
                target,
                value,
            };
            with_attribute(layer, namers, attribute)
        }
    }
}

/// An annotation that no other names goes.
fn clear(namers: &[AnnId], id: AnnId) -> Change
    ensures attribute { (conf : _) → (layer : Annotations) → AreNamersOf layer id namers.now → draft_by layer result ≡ draft conf layer (Command.ClearAttribute id) }
    ensures any { (conf : _) → (layer : Annotations) → AreNamersOf layer id namers.now → draft_by layer result ≡ draft conf layer (Command.Delete id) }
    ensures fits { (layer : Annotations) → AreNamersOf layer id namers.now → FitsLayer layer result }
{
    match namers.first() {
        Some(_) => Change::Nothing,
        None => Change::Without { id },
    }
}

/// Members that are one class. Cost: their number.
fn equate(conf: &Conf, kind: &Name, members: &IdList) -> Result<Change, Memory>
    ensures made { IfOk result (λ made. (layer : Annotations) → draft_by layer made ≡ draft conf.now layer (Command.Equate kind.now members.now)) }
    ensures fits { IfOk result (λ made. (layer : Annotations) → FitsLayer layer made) }
{
    if members.items().is_empty() {
        return Ok(Change::Nothing);
    }
    let Some(kind) = conf.relation(kind) else {
        return Ok(Change::Nothing);
    };
    let members = members.copy()?;
    Ok(Change::Join { kind, members })
}

/// A member leaves its class.
fn unequate(conf: &Conf, kind: &Name, id: AnnId) -> Change
    ensures made { (layer : Annotations) → draft_by layer result ≡ draft conf.now layer (Command.Unequate kind.now id) }
    ensures fits { (layer : Annotations) → FitsLayer layer result }
{
    match conf.relation(kind) {
        Some(kind) => Change::Part { kind, id },
        None => Change::Nothing,
    }
}

/// Another text in the mark that is there, or a new one of a letter.
fn with_text(layer: &Layer, there: Option<AnnId>, kind: Kind, mark: Mark) -> Change
    requires new { is_of_kind kind mark ≡ true }
    requires changed { IfSome there (λ id. id.kind ≡ kind) }
    ensures made { draft_by layer.now result ≡ Some (option_map_or (λ id. with_changed layer.now id mark) there (with_new layer.now kind mark)) }
    ensures fits { FitsLayer layer.now result }
{
    match there {
        Some(id) => Change::Put {
            id,
            mark,
            is_new: false,
        },
        None => put_new(layer, kind, mark),
    }
}

/// A note, or another text in the lowest of its type on the target.
fn set_note(
    layer: &Layer,
    namers: &[AnnId],
    target: AnnId,
    kind: &Name,
    text: &Text,
) -> Result<Change, Memory>
    requires { AreNamersOf layer.now target namers.now }
    ensures made { IfOk result (λ made. (conf : _) → draft_by layer.now made ≡ draft conf layer.now (Command.SetNote target kind.now text.now)) }
    ensures fits { IfOk result (FitsLayer layer.now) }
{
    let there = first_note(layer, namers, kind, target);
    let note = Mark::Note(Note {
        kind: kind.copy()?,
        target,
        text: text.copy()?,
    });
    let made = with_text(layer, there, Kind::Note, note);
    Ok(made)
}

/// A reference, or another text in the lowest of its target to its entry.
fn set_reference(
    layer: &Layer,
    namers: &[AnnId],
    target: AnnId,
    store: &Text,
    entry: &Text,
    text: &Text,
) -> Result<Change, Memory>
    requires { AreNamersOf layer.now target namers.now }
    ensures made { IfOk result (λ made. (conf : _) → draft_by layer.now made ≡ draft conf layer.now (Command.SetReference target store.now entry.now text.now)) }
    ensures fits { IfOk result (FitsLayer layer.now) }
{
    let there = first_reference(layer, namers, target, store.text(), entry.text());
    let normal = Mark::Normal(Normal {
        target,
        store: store.copy()?,
        entry: entry.copy()?,
        text: text.copy()?,
    });
    let made = with_text(layer, there, Kind::Normal, normal);
    Ok(made)
}

/// An annotation goes, with all that names it, again and again. Cost: as `falling`.
fn purge(alloc: Global, layer: &Layer, id: AnnId) -> Result<Change, Memory>
    ensures made { IfOk result (λ made. (conf : _) → draft_by layer.now made ≡ draft conf layer.now (Command.Purge id)) }
    ensures fits { IfOk result (FitsLayer layer.now) }
{
    let ids = IdList::from_vec(falling(alloc, layer, id)?);
    Ok(Change::Less { ids })
}

/// The layer of a load. Cost: a copy of it.
fn load(loaded: &Layer) -> Result<Change, Memory>
    ensures made { IfOk result (λ made. (conf layer : _) → draft_by layer made ≡ draft conf layer (Command.Load loaded.now)) }
    ensures fits { IfOk result (λ made. (layer : Annotations) → FitsLayer layer made) }
{
    let made = loaded.copy()?;
    Ok(Change::Whole { layer: made })
}

/// What a command does to a layer, where its names are declared and its IDs lead to what it changes, and
/// where these annotations name its subject. Cost: their number, the annotation that is put, and look-ups
/// in ordered maps; where the greatest number of a letter is taken, the numbers up to the first that is
/// free. A load costs a copy of the layer that it makes, and a purge what `falling` costs.
pub(crate) fn change(
    alloc: Global,
    conf: &Conf,
    layer: &Layer,
    namers: &[AnnId],
    command: &Command,
) -> Result<Change, Memory>
    requires named { AreNamers layer.now command.now namers.now }
    ensures made { IfOk result (λ made. draft_by layer.now made ≡ draft conf.now layer.now command.now) }
    ensures fits { IfOk result (FitsLayer layer.now) }
{
    match command {
        Command::AddSpan { kind, frags } => add_span(conf, layer, kind, frags),
        Command::RetypeSpan { id, kind } => retype_span(conf, layer, namers, *id, kind),
        Command::MoveSpan { id, frags } => move_span(layer, *id, frags),
        Command::AddEvent {
            kind,
            trigger,
            args,
        } => add_event(alloc, conf, layer, kind, *trigger, args.items()),
        Command::AddArg { id, arg } => add_arg(alloc, conf, layer, *id, arg),
        Command::RemoveArg { id, arg } => remove_arg(alloc, conf, layer, *id, arg),
        Command::AddRelation {
            kind,
            first,
            second,
        } => Ok(add_relation(conf, layer, kind, *first, *second)),
        Command::SetAttribute {
            kind,
            target,
            value,
        } => Ok(set_attribute(conf, layer, namers, kind, *target, value)),
        Command::ClearAttribute { id } => Ok(clear(namers, *id)),
        Command::Equate { kind, members } => equate(conf, kind, members),
        Command::Unequate { kind, id } => Ok(unequate(conf, kind, *id)),
        Command::SetNote { target, kind, text } => set_note(layer, namers, *target, kind, text),
        Command::SetReference {
            target,
            store,
            entry,
            text,
        } => set_reference(layer, namers, *target, store, entry, text),
        Command::Delete { id } => Ok(clear(namers, *id)),
        Command::Purge { id } => purge(alloc, layer, *id),
        Command::Load { layer } => load(layer),
    }
}

//! The commands that change a layer.
ghost use Rattle.std.specs.Prelude.{◌≡◌, IfOk};
ghost use Rattle.layer_core.specs.declared.command.Command.TheVariants as ask;

use layer_model::Layer;
use mark_base::{AnnId, FragList, IdList, Memory, Name, NamedArg, NamedArgs, Text};
use std::alloc::Global;

/// A change of a layer that an annotator asks for. Types, roles and values stand by their names, as the
/// configuration declares them; annotations by their IDs.
#[derive(Drop)]
pub enum Command {
    /// A new span of this type on these fragments.
    AddSpan {
        kind: Name,
        frags: FragList,
    },
    /// Another type for a span.
    RetypeSpan {
        id: AnnId,
        kind: Name,
    },
    /// Other fragments for a span.
    MoveSpan {
        id: AnnId,
        frags: FragList,
    },
    /// A new event of this type, stated by this span, with these arguments.
    AddEvent {
        kind: Name,
        trigger: AnnId,
        args: NamedArgs,
    },
    /// One more argument of an event, behind the others.
    AddArg {
        id: AnnId,
        arg: NamedArg,
    },
    /// The first such argument of an event is taken out.
    RemoveArg {
        id: AnnId,
        arg: NamedArg,
    },
    /// A new relation of this type between two annotations.
    AddRelation {
        kind: Name,
        first: AnnId,
        second: AnnId,
    },
    /// A new attribute of this type on an annotation, or another value for the one that is there.
    SetAttribute {
        kind: Name,
        target: AnnId,
        value: Option<Name>,
    },
    /// An attribute is taken away.
    ClearAttribute {
        id: AnnId,
    },
    /// These spans are one class of this equivalence, with every class that shares a member.
    Equate {
        kind: Name,
        members: IdList,
    },
    /// A span is taken out of its class; a class of one vanishes.
    Unequate {
        kind: Name,
        id: AnnId,
    },
    /// A new note of this type on an annotation, or another text for the lowest that is there.
    SetNote {
        target: AnnId,
        kind: Name,
        text: Text,
    },
    /// A new reference to an entry of a store, or another text for the lowest that is there.
    SetReference {
        target: AnnId,
        store: Text,
        entry: Text,
        text: Text,
    },
    /// An annotation that no other names is taken away, from its classes too.
    Delete {
        id: AnnId,
    },
    /// An annotation is taken away with all that names it, again and again.
    Purge {
        id: AnnId,
    },
    /// This layer in place of the one that stands.
    Load {
        layer: Layer,
    },
}

/// A second command that adds this span.
fn add_span(alloc: Global, kind: &Name, frags: &FragList) -> Result<Command, Memory>
    ensures { IfOk result (λ copy. copy ≡ ask.AddSpan kind.now frags.now) }
{
    Ok(Command::AddSpan {
        kind: kind.copy()?,
        frags: FragList::of(alloc, frags.items())?,
    })
}

/// A second command that gives a span this type.
fn retype_span(id: AnnId, kind: &Name) -> Result<Command, Memory>
    ensures { IfOk result (λ copy. copy ≡ ask.RetypeSpan id kind.now) }
{
    let kind = kind.copy()?;
    Ok(Command::RetypeSpan { id, kind })
}

/// A second command that gives a span these fragments.
fn move_span(alloc: Global, id: AnnId, frags: &FragList) -> Result<Command, Memory>
    ensures { IfOk result (λ copy. copy ≡ ask.MoveSpan id frags.now) }
{
    let frags = FragList::of(alloc, frags.items())?;
    Ok(Command::MoveSpan { id, frags })
}

/// A second command that adds this event.
fn add_event(
    alloc: Global,
    kind: &Name,
    trigger: AnnId,
    args: &NamedArgs,
) -> Result<Command, Memory>
    ensures { IfOk result (λ copy. copy ≡ ask.AddEvent kind.now trigger args.now) }
{
    Ok(Command::AddEvent {
        kind: kind.copy()?,
        trigger,
        args: NamedArgs::of(alloc, args.items())?,
    })
}

/// A second command that adds this argument.
fn add_arg(id: AnnId, arg: &NamedArg) -> Result<Command, Memory>
    ensures { IfOk result (λ copy. copy ≡ ask.AddArg id arg.now) }
{
    let arg = arg.copy()?;
    Ok(Command::AddArg { id, arg })
}

/// A second command that takes this argument out.
fn remove_arg(id: AnnId, arg: &NamedArg) -> Result<Command, Memory>
    ensures { IfOk result (λ copy. copy ≡ ask.RemoveArg id arg.now) }
{
    let arg = arg.copy()?;
    Ok(Command::RemoveArg { id, arg })
}

/// A second command that adds this relation.
fn add_relation(kind: &Name, first: AnnId, second: AnnId) -> Result<Command, Memory>
    ensures { IfOk result (λ copy. copy ≡ ask.AddRelation kind.now first second) }
{
    Ok(Command::AddRelation {
        kind: kind.copy()?,
        first,
        second,
    })
}

/// A second value.
fn copy_value(value: &Option<Name>) -> Result<Option<Name>, Memory>
    ensures { IfOk result (λ copy. copy ≡ value.now) }
{
    match value {
        Some(value) => {
            let copy = value.copy()?;
            Ok(Some(copy))
        }
        None => Ok(None),
    }
}

/// A second command that sets this attribute.
fn set_attribute(kind: &Name, target: AnnId, value: &Option<Name>) -> Result<Command, Memory>
    ensures { IfOk result (λ copy. copy ≡ ask.SetAttribute kind.now target value.now) }
{
    Ok(Command::SetAttribute {
        kind: kind.copy()?,
        target,
        value: copy_value(value)?,
    })
}

/// A second command that makes these spans one class.
fn equate(alloc: Global, kind: &Name, members: &IdList) -> Result<Command, Memory>
    ensures { IfOk result (λ copy. copy ≡ ask.Equate kind.now members.now) }
{
    Ok(Command::Equate {
        kind: kind.copy()?,
        members: IdList::of(alloc, members.items())?,
    })
}

/// A second command that takes this span out of its class.
fn unequate(kind: &Name, id: AnnId) -> Result<Command, Memory>
    ensures { IfOk result (λ copy. copy ≡ ask.Unequate kind.now id) }
{
    let kind = kind.copy()?;
    Ok(Command::Unequate { kind, id })
}

/// A second command that sets this note.
fn set_note(target: AnnId, kind: &Name, text: &Text) -> Result<Command, Memory>
    ensures { IfOk result (λ copy. copy ≡ ask.SetNote target kind.now text.now) }
{
    Ok(Command::SetNote {
        target,
        kind: kind.copy()?,
        text: text.copy()?,
    })
}

/// A second command that sets this reference.
fn set_reference(target: AnnId, store: &Text, entry: &Text, text: &Text) -> Result<Command, Memory>
    ensures { IfOk result (λ copy. copy ≡ ask.SetReference target store.now entry.now text.now) }
{
    Ok(Command::SetReference {
        target,
        store: store.copy()?,
        entry: entry.copy()?,
        text: text.copy()?,
    })
}

/// A second command that loads this layer.
fn load(layer: &Layer) -> Result<Command, Memory>
    ensures { IfOk result (λ copy. copy ≡ ask.Load layer.now) }
{
    let layer = layer.copy()?;
    Ok(Command::Load { layer })
}

impl Command {
    /// A second command that asks for the same. Cost: its length, a layer's too.
    pub fn copy(&self, alloc: Global) -> Result<Command, Memory>
        ensures { IfOk result (λ copy. copy ≡ self.now) }
    {
        match self {
            Command::AddSpan { kind, frags } => add_span(alloc, kind, frags),
            Command::RetypeSpan { id, kind } => retype_span(*id, kind),
            Command::MoveSpan { id, frags } => move_span(alloc, *id, frags),
            Command::AddEvent {
                kind,
                trigger,
                args,
            } => add_event(alloc, kind, *trigger, args),
            Command::AddArg { id, arg } => add_arg(*id, arg),
            Command::RemoveArg { id, arg } => remove_arg(*id, arg),
            Command::AddRelation {
                kind,
                first,
                second,
            } => add_relation(kind, *first, *second),
            Command::SetAttribute {
                kind,
                target,
                value,
            } => set_attribute(kind, *target, value),
            Command::ClearAttribute { id } => Ok(Command::ClearAttribute { id: *id }),
            Command::Equate { kind, members } => equate(alloc, kind, members),
            Command::Unequate { kind, id } => unequate(kind, *id),
            Command::SetNote { target, kind, text } => set_note(*target, kind, text),
            Command::SetReference {
                target,
                store,
                entry,
                text,
            } => set_reference(*target, store, entry, text),
            Command::Delete { id } => Ok(Command::Delete { id: *id }),
            Command::Purge { id } => Ok(Command::Purge { id: *id }),
            Command::Load { layer } => load(layer),
        }
    }
}

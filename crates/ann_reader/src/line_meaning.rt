//! What a line says under a configuration: the annotation that it spells, or the class.
ghost use Rattle.std.specs.Prelude.{◌≡◌, IfOk, map, option_map, option_and_then};
ghost use Rattle.ann_reader.specs.LineTypes.{HasTypes};
ghost use Rattle.ann_reader.specs.NamesRead.{value_read};
ghost use Rattle.ann_reader.specs.LineMeanings.{arg_of, args_of, is_role, ends_of, span_by, event_by, relation_by, attribute_by, normal_by, note_by, mark_of, said_by, said_of};
ghost use Rattle.ann_reader.specs.FormShows.{seen_text, seen_pair, seen_form, seen_ends, seen_said, seen_value};
ghost use Rattle.mark_base.specs.ReadIds.{id_read};
ghost use Rattle.ann_reader.specs.Words.{all_of};

use crate::declared_names::{LineTypes, Value, value_read};
use crate::line_form::{Form, Pair};
use crate::roles::role_read;
use conf_model::Conf;
use layer_model::{Attribute, Event, Mark, Normal, Note, Relation, Span};
use mark_base::{
    AnnId, Arg, ArgList, AttrId, Frag, FragList, IdList, Memory, Name, NameFault, RelId, Text,
    TypeId,
};
use std::alloc::Global;

/// The argument of a pair.
fn arg_of(conf: &Conf, kind: TypeId, pair: &Pair) -> Option<Arg>
    ensures { result ≡ arg_of conf.now kind (seen_pair pair.now) }
{
    let role = role_read(conf, kind, pair.role)?;
    let target = AnnId::read(pair.target.as_bytes())?;
    Some(Arg { role, target })
}

/// The arguments of an event, where each pair is one.
fn args_of(
    alloc: Global,
    conf: &Conf,
    kind: TypeId,
    pairs: &[Pair],
) -> Result<Option<ArgList>, Memory>
    ensures { IfOk result (λ args. args ≡ args_of conf.now kind (map seen_pair pairs.now)) }
{
    let mut args = Vec::new(alloc);
    for pair in pairs {
        match arg_of(conf, kind, pair) {
            Some(arg) => args.push(arg)?,
            None => return Ok(None),
        }
    }
    Ok(Some(ArgList::from_vec(args)))
}

/// Whether a word is the name of the first or the second role of a relation type.
fn is_role(conf: &Conf, kind: RelId, second: bool, word: &str) -> bool
    ensures { result ≡ is_role conf.now kind.n second word.now }
{
    match conf.relation_role(kind, second) {
        Some(name) => name.text() == word,
        None => false,
    }
}

/// The two arguments of a relation, in the order of its roles.
#[derive(Clone, Copy)]
pub(crate) struct Ends<'a> {
    pub first: &'a str,
    pub second: &'a str,
}

/// The arguments of a relation, whose pairs may stand in either order.
pub(crate) fn ends_of<'a>(conf: &Conf, kind: RelId, a: &Pair<'a>, b: &Pair<'a>) -> Option<Ends<'a>>
    ensures { option_map seen_ends result ≡ ends_of conf.now kind.n (seen_pair a.now) (seen_pair b.now) }
{
    if is_role(conf, kind, false, a.role) && is_role(conf, kind, true, b.role) {
        Some(Ends {
            first: a.target,
            second: b.target,
        })
    } else if is_role(conf, kind, true, a.role) && is_role(conf, kind, false, b.role) {
        Some(Ends {
            first: b.target,
            second: a.target,
        })
    } else {
        None
    }
}

/// The span of a T line.
fn span_of(kind: Option<TypeId>, frags: Vec<Frag>) -> Option<Mark>
    ensures { result ≡ span_by kind frags.items }
{
    match kind {
        Some(kind) => {
            let frags = FragList::from_vec(frags);
            Some(Mark::Span(Span { kind, frags }))
        }
        None => None,
    }
}

/// The event of an E line of a type.
fn event_by(kind: TypeId, trigger: Option<AnnId>, args: Option<ArgList>) -> Option<Mark>
    ensures { result ≡ event_by kind trigger args }
{
    match trigger {
        Some(trigger) => match args {
            Some(args) => Some(Mark::Event(Event {
                kind,
                trigger: trigger.number,
                args,
            })),
            None => None,
        },
        None => None,
    }
}

/// The event of an E line.
fn event_of(
    alloc: Global,
    conf: &Conf,
    kind: Option<TypeId>,
    trigger: &str,
    pairs: &[Pair],
) -> Result<Option<Mark>, Memory>
    ensures { IfOk result (λ mark. mark ≡ option_and_then (λ id. event_by id (id_read trigger.now) (args_of conf.now id (map seen_pair pairs.now))) kind) }
{
    match kind {
        Some(kind) => {
            let args = args_of(alloc, conf, kind, pairs)?;
            Ok(event_by(kind, AnnId::read(trigger.as_bytes()), args))
        }
        None => Ok(None),
    }
}

/// The relation of an R line of a type.
fn relation_by(kind: RelId, ends: &Ends) -> Option<Mark>
    ensures { result ≡ relation_by kind.n (id_read ends.now.first.now) (id_read ends.now.second.now) }
{
    let first = AnnId::read(ends.first.as_bytes())?;
    let second = AnnId::read(ends.second.as_bytes())?;
    Some(Mark::Relation(Relation {
        kind,
        first,
        second,
    }))
}

/// The relation of an R line.
fn relation_of(conf: &Conf, kind: Option<RelId>, a: &Pair, b: &Pair) -> Option<Mark>
    ensures { result ≡ option_and_then (λ id. option_and_then (λ ends. relation_by id (id_read ends.first) (id_read ends.second)) (ends_of conf.now id (seen_pair a.now) (seen_pair b.now))) (option_map (λ relation. relation.n) kind) }
{
    let Some(kind) = kind else {
        return None;
    };
    match ends_of(conf, kind, a, b) {
        Some(ends) => relation_by(kind, &ends),
        None => None,
    }
}

/// The attribute of an A or M line of a type.
fn attribute_by(kind: AttrId, target: Option<AnnId>, value: Value) -> Option<Mark>
    ensures { result ≡ attribute_by kind.n target (seen_value value) }
{
    let target = target?;
    match value {
        Value::Declared(value) => Some(Mark::Attribute(Attribute {
            kind,
            target,
            value,
        })),
        Value::Undeclared => None,
    }
}

/// The attribute of an A or M line.
fn attribute_of(
    alloc: Global,
    conf: &Conf,
    kind: Option<AttrId>,
    target: &str,
    value: Option<&str>,
) -> Result<Option<Mark>, Memory>
    ensures { IfOk result (λ mark. mark ≡ option_and_then (λ id. attribute_by id (id_read target.now) (value_read conf.now id (option_map seen_text value.entry))) (option_map (λ attribute. attribute.n) kind)) }
{
    match kind {
        Some(kind) => {
            let value = value_read(alloc, conf, kind, value)?;
            Ok(attribute_by(kind, AnnId::read(target.as_bytes()), value))
        }
        None => Ok(None),
    }
}

/// The normalization of an N line.
fn normal_of(
    alloc: Global,
    target: &str,
    store: &str,
    entry: &str,
    text: &str,
) -> Result<Option<Mark>, Memory>
    ensures { IfOk result (λ mark. mark ≡ normal_by (id_read target.now) store.now entry.now text.now) }
{
    let Some(target) = AnnId::read(target.as_bytes()) else {
        return Ok(None);
    };
    let store = Text::of(alloc, store)?;
    let entry = Text::of(alloc, entry)?;
    let text = Text::of(alloc, text)?;
    Ok(Some(Mark::Normal(Normal {
        target,
        store,
        entry,
        text,
    })))
}

/// The note of a # line.
fn note_of(alloc: Global, kind: &str, target: &str, text: &str) -> Result<Option<Mark>, Memory>
    ensures { IfOk result (λ mark. mark ≡ note_by kind.now (id_read target.now) text.now) }
{
    let Some(target) = AnnId::read(target.as_bytes()) else {
        return Ok(None);
    };
    match Name::new(alloc, kind) {
        Ok(kind) => {
            let text = Text::of(alloc, text)?;
            Ok(Some(Mark::Note(Note { kind, target, text })))
        }
        Err(NameFault::Memory) => Err(Memory),
        Err(_) => Ok(None),
    }
}

/// The annotation that a line spells, where each of its parts can be read. Its fragments are taken as they are. Cost:
/// the line.
#[tactic(auto, unfolding(crate::specs::LineMeanings::mark_of))]
pub(crate) fn mark_of(
    alloc: Global,
    conf: &Conf,
    form: Form,
    types: &LineTypes,
) -> Result<Option<Mark>, Memory>
    requires { HasTypes conf.now (seen_form form) types.now }
    ensures { IfOk result (λ mark. mark ≡ mark_of conf.now (seen_form form.entry)) }
{
    match form {
        Form::Bad | Form::Class { .. } => Ok(None),
        Form::Text { frags, .. } => Ok(span_of(types.marked, frags)),
        Form::Event { trigger, pairs, .. } => event_of(alloc, conf, types.marked, trigger, &pairs),
        Form::Relation { a, b, .. } => Ok(relation_of(conf, types.related, &a, &b)),
        Form::Attribute { target, value, .. } => {
            attribute_of(alloc, conf, types.attributed, target, value)
        }
        Form::Normal {
            target,
            store,
            entry,
            text,
            ..
        } => normal_of(alloc, target, store, entry, text),
        Form::Note {
            kind,
            target,
            text,
            ..
        } => note_of(alloc, kind, target, text),
    }
}

/// A relation type and IDs that a line holds to be one.
#[derive(Drop)]
pub(crate) struct Said {
    pub kind: RelId,
    pub members: IdList,
}

/// The IDs that words spell, where each is one.
fn ids_of(alloc: Global, words: &[&str]) -> Result<Option<IdList>, Memory>
    ensures { IfOk result (λ ids. ids ≡ all_of (map id_read (map seen_text words.now))) }
{
    let mut ids = Vec::new(alloc);
    for word in words {
        match AnnId::read(word.as_bytes()) {
            Some(id) => ids.push(id)?,
            None => return Ok(None),
        }
    }
    Ok(Some(IdList::from_vec(ids)))
}

/// What a `*` line says.
fn class_of(alloc: Global, kind: Option<RelId>, ids: &[&str]) -> Result<Option<Said>, Memory>
    ensures { IfOk result (λ said. option_map seen_said said ≡ said_by (option_map (λ relation. relation.n) kind) (all_of (map id_read (map seen_text ids.now)))) }
{
    let Some(kind) = kind else {
        return Ok(None);
    };
    match ids_of(alloc, ids)? {
        Some(members) => Ok(Some(Said { kind, members })),
        None => Ok(None),
    }
}

/// What a line says of a class.
pub(crate) fn said_of(
    alloc: Global,
    conf: &Conf,
    form: &Form,
    types: &LineTypes,
) -> Result<Option<Said>, Memory>
    requires { HasTypes conf.now (seen_form form.now) types.now }
    ensures { IfOk result (λ said. option_map seen_said said ≡ said_of conf.now (seen_form form.now)) }
{
    match form {
        Form::Class { ids, .. } => class_of(alloc, types.related, ids),
        _ => Ok(None),
    }
}

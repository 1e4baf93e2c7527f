//! What the words of a line name in a configuration.
ghost use Rattle.std.specs.Prelude.{◌≡◌, IfOk, Some, None, option_map};
ghost use Rattle.ann_reader.specs.LineTypes.{HasTypes};
ghost use Rattle.conf_model.specs.Lookups.{value_named};
ghost use Rattle.ann_reader.specs.NamesRead.{by_name, type_read, where_event, event_read, relation_read, attribute_read, value_read};
ghost use Rattle.ann_reader.specs.FormShows.{seen_form, seen_text, seen_value};

use crate::line_form::Form;
use conf_model::Conf;
use mark_base::{AttrId, Memory, Name, NameFault, RelId, TypeId};
use std::alloc::Global;

/// The name that a word is.
fn name_read(alloc: Global, word: &str) -> Result<Option<Name>, Memory>
    ensures { IfOk result (λ name. name ≡ by_name (λ bytes. Some bytes) word.now) }
{
    match Name::new(alloc, word) {
        Ok(name) => Ok(Some(name)),
        Err(NameFault::Memory) => Err(Memory),
        Err(_) => Ok(None),
    }
}

/// The type of a name. Cost: the number of types, of which there are at most 256; no name is made.
fn type_read(conf: &Conf, word: &str) -> Option<TypeId>
    ensures { result ≡ type_read conf.now word.now }
{
    let types = conf.types();
    for n in 0..types.count() {
        let id = TypeId { n };
        match types.row(id) {
            Some(row) => {
                if row.name.text() == word {
                    return Some(id);
                }
            }
            None => return None,
        }
    }
    None
}

/// A type, where it is an event type.
fn where_event(conf: &Conf, id: TypeId) -> Option<TypeId>
    ensures { result ≡ where_event conf.now id }
{
    let row = conf.types().row(id)?;
    if row.event { Some(id) } else { None }
}

/// The event type of a name. Cost: as `type_read`.
fn event_read(conf: &Conf, word: &str) -> Option<TypeId>
    ensures { result ≡ event_read conf.now word.now }
{
    match type_read(conf, word) {
        Some(id) => where_event(conf, id),
        None => None,
    }
}

/// The relation type of a name.
fn relation_read(alloc: Global, conf: &Conf, word: &str) -> Result<Option<RelId>, Memory>
    ensures { IfOk result (λ id. option_map (λ relation. relation.n) id ≡ relation_read conf.now word.now) }
{
    match name_read(alloc, word)? {
        Some(name) => Ok(conf.relation(&name)),
        None => Ok(None),
    }
}

/// The attribute of a name.
fn attribute_read(alloc: Global, conf: &Conf, word: &str) -> Result<Option<AttrId>, Memory>
    ensures { IfOk result (λ id. option_map (λ attribute. attribute.n) id ≡ attribute_read conf.now word.now) }
{
    match name_read(alloc, word)? {
        Some(name) => Ok(conf.attribute(&name)),
        None => Ok(None),
    }
}

/// The types that a line names, each as the table has it that the line needs.
#[derive(Clone, Copy)]
pub(crate) struct LineTypes {
    /// Of a span, or the event type of an event.
    pub marked: Option<TypeId>,
    /// Of a relation, or of a class.
    pub related: Option<RelId>,
    /// Of an attribute.
    pub attributed: Option<AttrId>,
}

/// The type of a span or an event.
fn of_mark(marked: Option<TypeId>) -> LineTypes
    ensures { result ≡ record { marked = marked; related = None; attributed = None } }
{
    LineTypes {
        marked,
        related: None,
        attributed: None,
    }
}

/// The type of a relation or a class.
fn of_relation(related: Option<RelId>) -> LineTypes
    ensures { result ≡ record { marked = None; related = related; attributed = None } }
{
    LineTypes {
        marked: None,
        related,
        attributed: None,
    }
}

/// The type of an attribute.
fn of_attribute(attributed: Option<AttrId>) -> LineTypes
    ensures { result ≡ record { marked = None; related = None; attributed = attributed } }
{
    LineTypes {
        marked: None,
        related: None,
        attributed,
    }
}

/// The types that a line names. Cost: a walk over the types, at most 256 of them.
pub(crate) fn line_types(alloc: Global, conf: &Conf, form: &Form) -> Result<LineTypes, Memory>
    ensures { IfOk result (HasTypes conf.now (seen_form form.now)) }
{
    match form {
        Form::Bad | Form::Normal { .. } | Form::Note { .. } => Ok(of_mark(None)),
        Form::Text { kind, .. } => Ok(of_mark(type_read(conf, kind))),
        Form::Event { kind, .. } => Ok(of_mark(event_read(conf, kind))),
        Form::Relation { kind, .. } => Ok(of_relation(relation_read(alloc, conf, kind)?)),
        Form::Attribute { kind, .. } => Ok(of_attribute(attribute_read(alloc, conf, kind)?)),
        Form::Class { kind, .. } => Ok(of_relation(relation_read(alloc, conf, kind)?)),
    }
}

/// The value of an attribute: one that is not declared, none where none is given, or the declared one.
#[derive(Clone, Copy, Debug, PartialEq, Eq)]
pub(crate) enum Value {
    Undeclared,
    Declared(Option<u16>),
}

/// The value of a name.
fn value_named(alloc: Global, conf: &Conf, kind: AttrId, word: &str) -> Result<Option<u16>, Memory>
    ensures { IfOk result (λ value. value ≡ by_name (value_named conf.now kind.n) word.now) }
{
    match name_read(alloc, word)? {
        Some(name) => Ok(conf.value(kind, &name)),
        None => Ok(None),
    }
}

/// The value of an attribute, where one is given.
pub(crate) fn value_read(
    alloc: Global,
    conf: &Conf,
    kind: AttrId,
    word: Option<&str>,
) -> Result<Value, Memory>
    ensures { IfOk result (λ value. seen_value value ≡ value_read conf.now kind.n (option_map seen_text word.entry)) }
{
    match word {
        None => Ok(Value::Declared(None)),
        Some(word) => match value_named(alloc, conf, kind, word)? {
            Some(value) => Ok(Value::Declared(Some(value))),
            None => Ok(Value::Undeclared),
        },
    }
}

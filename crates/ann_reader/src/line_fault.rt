//! What is at fault with a line, whatever the layer turns out to be.
ghost use Rattle.std.specs.Prelude.{◌≡◌, IfOk, IfSome, is_none, is_some, length, map};
ghost use Rattle.std.specs.List.{list_any};
ghost use Rattle.mark_base.specs.Names.{name_fault};
ghost use Rattle.conf_model.specs.Lookups.{values_of};
ghost use Rattle.layer_rules.specs.AttributeValues.{value_refused};
ghost use Rattle.layer_rules.specs.LayerRules.{counted_letter};
ghost use Rattle.layer_rules.specs.MarkRules.{is_barred_type};
ghost use Rattle.std.specs.Option.{option_map_or};
ghost use Rattle.std.specs.Prelude.{false};
ghost use Rattle.ann_reader.specs.Roles.{role_read};
ghost use Rattle.ann_reader.specs.LineIds.{own_id, id_words};
ghost use Rattle.ann_reader.specs.LineForms.{form_of};
ghost use Rattle.ann_reader.specs.LineFaults.{is_formless, is_nameless, is_twice, has_unknown_type, has_barred_type, first_absent, first_unfit, has_unknown_role, has_unknown_value, has_bad_text, one_too_many, naming_rule, value_rule, line_rule, is_bad_line, has_bad_id, line_fault};
ghost use Rattle.ann_reader.specs.LineShows.{seen_line};
ghost use Rattle.ann_reader.specs.LineTypes.{HasTypes};
ghost use Rattle.ann_reader.specs.FormShows.{seen_form, seen_pair, seen_id_word, seen_value};

use crate::AnnWhat;
use crate::declared_names::{LineTypes, Value, value_read};
use crate::known_lines::KnownLines;
use crate::line::Line;
use crate::line_form::{Form, Pair};
use crate::line_ids::{
    IdWord, id_words, is_own_misspelt, may_stand, some_misspelt, some_without_letter,
};
use crate::line_meaning::ends_of;
use crate::roles::role_read;
use crate::word::first_byte;
use conf_model::Conf;
use layer_model::Rule;
use layer_rules::{is_bad_entry, is_bad_store, is_bad_text};
use mark_base::{AnnId, AttrId, Kind, Memory, Name, NameFault, TypeId};
use std::alloc::Global;

/// Whether a word is no name.
fn is_no_name(word: &str) -> bool
    ensures { result ≡ is_some (name_fault word.now) }
{
    Name::fault(word).is_some()
}

/// Whether the type is not in the table that the line needs.
fn has_unknown_type(conf: &Conf, form: &Form, types: &LineTypes) -> bool
    requires { HasTypes conf.now (seen_form form.now) types.now }
    ensures { result ≡ has_unknown_type conf.now (seen_form form.now) }
{
    match form {
        Form::Bad | Form::Normal { .. } | Form::Note { .. } => false,
        Form::Text { .. } | Form::Event { .. } => types.marked.is_none(),
        Form::Relation { .. } | Form::Class { .. } => types.related.is_none(),
        Form::Attribute { .. } => types.attributed.is_none(),
    }
}

/// Whether annotations may not have a type.
fn is_barred(conf: &Conf, kind: Option<TypeId>) -> bool
    ensures { result ≡ option_map_or (is_barred_type conf.now) kind false }
{
    match kind {
        Some(id) => match conf.types().row(id) {
            Some(row) => !row.usable,
            None => false,
        },
        None => false,
    }
}

/// Whether the type only orders others, or is an equivalence in the place of a relation, or the other way
/// round.
fn has_barred_type(conf: &Conf, form: &Form, types: &LineTypes) -> bool
    requires { HasTypes conf.now (seen_form form.now) types.now }
    ensures { result ≡ has_barred_type conf.now (seen_form form.now) }
{
    match form {
        Form::Text { .. } | Form::Event { .. } => is_barred(conf, types.marked),
        Form::Relation { .. } => match types.related {
            Some(id) => conf.is_equivalence(id),
            None => false,
        },
        Form::Class { .. } => match types.related {
            Some(id) => !conf.is_equivalence(id),
            None => false,
        },
        _ => false,
    }
}

/// The first ID that is named and heads no line.
fn first_absent(known: &KnownLines, named: &[IdWord]) -> Option<Rule>
    ensures { result ≡ first_absent known.now (map seen_id_word named.now) }
{
    for id_word in named {
        if let Some(id) = AnnId::read(id_word.word.as_bytes()) {
            if known.head(id).is_none() {
                return Some(Rule::NoSuch(id));
            }
        }
    }
    None
}

/// The first ID whose letter may not stand in its place.
fn first_unfit(named: &[IdWord]) -> Option<Rule>
    ensures { result ≡ first_unfit (map seen_id_word named.now) }
{
    for id_word in named {
        if let Some(id) = AnnId::read(id_word.word.as_bytes()) {
            if !may_stand(id_word.letters, id.kind) {
                return Some(Rule::WrongKind(id));
            }
        }
    }
    None
}

/// Whether some pair has a role that the event type does not have.
fn some_unknown_role(conf: &Conf, kind: TypeId, pairs: &[Pair]) -> bool
    ensures { result ≡ list_any (λ pair. is_none (role_read conf.now kind.n pair.role)) (map seen_pair pairs.now) }
{
    for pair in pairs {
        if role_read(conf, kind, pair.role).is_none() {
            return true;
        }
    }
    false
}

/// Whether a role is not one that the type has, or the two of a relation are not its two.
fn has_unknown_role(conf: &Conf, form: &Form, types: &LineTypes) -> bool
    requires { HasTypes conf.now (seen_form form.now) types.now }
    ensures { result ≡ has_unknown_role conf.now (seen_form form.now) }
{
    match form {
        Form::Event { pairs, .. } => match types.marked {
            Some(id) => some_unknown_role(conf, id, pairs),
            None => false,
        },
        Form::Relation { a, b, .. } => match types.related {
            Some(id) => ends_of(conf, id, a, b).is_none(),
            None => false,
        },
        _ => false,
    }
}

/// Whether a value is not declared, is given where none are, or is absent where some are.
fn is_refused(conf: &Conf, kind: AttrId, value: Value) -> bool
    ensures { result ≡ value_refused (length (values_of conf.now kind.n)) (seen_value value) }
{
    let count = conf.value_count(kind);
    match value {
        Value::Undeclared => true,
        Value::Declared(None) => count > 0,
        Value::Declared(Some(value)) => value >= count,
    }
}

/// Whether the value of an attribute is not what its type wants.
fn has_unknown_value(
    alloc: Global,
    conf: &Conf,
    form: &Form,
    types: &LineTypes,
) -> Result<bool, Memory>
    requires { HasTypes conf.now (seen_form form.now) types.now }
    ensures { IfOk result (λ unknown. unknown ≡ has_unknown_value conf.now (seen_form form.now)) }
{
    match form {
        Form::Attribute { value, .. } => match types.attributed {
            Some(id) => Ok(is_refused(conf, id, value_read(alloc, conf, id, *value)?)),
            None => Ok(false),
        },
        _ => Ok(false),
    }
}

/// Whether a text, a store or an entry may not stand.
fn has_bad_text(form: &Form) -> bool
    ensures { result ≡ has_bad_text (seen_form form.now) }
{
    match form {
        Form::Normal {
            store,
            entry,
            text,
            ..
        } => is_bad_text(text) || is_bad_store(store) || is_bad_entry(entry),
        Form::Note { text, .. } => is_bad_text(text),
        _ => false,
    }
}

/// The letter as which a letter is counted.
fn counted_letter(kind: Kind) -> Kind
    ensures { result ≡ counted_letter kind }
{
    match kind {
        Kind::Legacy => Kind::Attribute,
        _ => kind,
    }
}

/// The rule that is broken by a line of this byte, where so many before it are counted together with it.
fn one_too_many(before: u32, byte: u8) -> Option<Rule>
    ensures { result ≡ one_too_many before byte }
{
    if before < 10000 {
        return None;
    }
    let kind = Kind::of_letter(byte)?;
    Some(Rule::LayerFull(counted_letter(kind)))
}

/// The first of the rules of types and IDs that a line breaks.
fn naming_rule(
    conf: &Conf,
    known: &KnownLines,
    form: &Form,
    types: &LineTypes,
    named: &[IdWord],
) -> Option<Rule>
    requires typed { HasTypes conf.now (seen_form form.now) types.now }
    requires named { map seen_id_word named.now ≡ id_words (seen_form form.now) }
    ensures { result ≡ naming_rule conf.now known.now (seen_form form.now) }
{
    if has_unknown_type(conf, form, types) {
        return Some(Rule::UnknownType);
    }
    if has_barred_type(conf, form, types) {
        return Some(Rule::NotForUse);
    }
    if let Some(rule) = first_absent(known, named) {
        return Some(rule);
    }
    first_unfit(named)
}

/// The first of the rules of roles, values, texts and counts that a line breaks.
fn value_rule(
    alloc: Global,
    conf: &Conf,
    before: u32,
    line: &Line,
    form: &Form,
    types: &LineTypes,
) -> Result<Option<Rule>, Memory>
    requires { HasTypes conf.now (seen_form form.now) types.now }
    ensures { IfOk result (λ rule. rule ≡ value_rule conf.now before (seen_line line.now) (seen_form form.now)) }
{
    if has_unknown_role(conf, form, types) {
        return Ok(Some(Rule::UnknownRole));
    }
    if has_unknown_value(alloc, conf, form, types)? {
        return Ok(Some(Rule::UnknownValue));
    }
    if has_bad_text(form) {
        return Ok(Some(Rule::BadText));
    }
    Ok(one_too_many(before, first_byte(line.text.as_bytes())))
}

/// Whether an earlier line has the ID of a line.
fn is_twice(known: &KnownLines, line: &Line, own: Option<AnnId>) -> bool
    requires { own ≡ own_id (form_of line.now.text.now) }
    ensures { result ≡ is_twice known.now (seen_line line.now) }
{
    match own {
        Some(id) => match known.head(id) {
            Some(first) => first < line.number,
            None => false,
        },
        None => false,
    }
}

/// Whether a line has no form.
fn is_formless(form: &Form) -> bool
    ensures { result ≡ is_formless (seen_form form.now) }
{
    matches!(form, Form::Bad)
}

/// Whether a line is a note whose type is no name.
fn is_nameless(form: &Form) -> bool
    ensures { result ≡ is_nameless (seen_form form.now) }
{
    match form {
        Form::Note { kind, .. } => is_no_name(kind),
        _ => false,
    }
}

/// Whether a line has no form, a note's type that is no name, or a place of an ID that begins with none of
/// the letters.
fn is_bad_line(form: &Form, named: &[IdWord]) -> bool
    requires { map seen_id_word named.now ≡ id_words (seen_form form.now) }
    ensures { result ≡ is_bad_line (seen_form form.now) }
{
    is_formless(form) || is_nameless(form) || some_without_letter(named)
}

/// Whether an ID of a line is misspelt.
fn has_bad_id(form: &Form, own: Option<AnnId>, named: &[IdWord]) -> bool
    requires own { own ≡ own_id (seen_form form.now) }
    requires named { map seen_id_word named.now ≡ id_words (seen_form form.now) }
    ensures { result ≡ has_bad_id (seen_form form.now) }
{
    is_own_misspelt(form, own) || some_misspelt(named)
}

/// The first rule that a line breaks.
fn line_rule(
    alloc: Global,
    conf: &Conf,
    known: &KnownLines,
    before: u32,
    line: &Line,
    form: &Form,
    types: &LineTypes,
    named: &[IdWord],
) -> Result<Option<Rule>, Memory>
    requires typed { HasTypes conf.now (seen_form form.now) types.now }
    requires named { map seen_id_word named.now ≡ id_words (seen_form form.now) }
    ensures { IfOk result (λ rule. rule ≡ line_rule conf.now known.now before (seen_line line.now) (seen_form form.now)) }
{
    match naming_rule(conf, known, form, types, named) {
        Some(rule) => Ok(Some(rule)),
        None => value_rule(alloc, conf, before, line, form, types),
    }
}

/// The first fault of a line among all, where so many before it are counted together with it, and its own ID is read
/// already. Cost: the line, and the number of its IDs times the logarithm of the number of lines.
pub(crate) fn line_fault(
    alloc: Global,
    conf: &Conf,
    known: &KnownLines,
    before: u32,
    line: &Line,
    form: &Form,
    own: Option<AnnId>,
    types: &LineTypes,
) -> Result<Option<AnnWhat>, Memory>
    requires formed { seen_form form.now ≡ form_of line.now.text.now }
    requires own { own ≡ own_id (seen_form form.now) }
    requires typed { HasTypes conf.now (seen_form form.now) types.now }
    ensures { IfOk result (λ what. what ≡ line_fault conf.now known.now before (seen_line line.now)) }
{
    let named = id_words(alloc, form)?;
    if is_bad_line(form, &named) {
        return Ok(Some(AnnWhat::BadLine));
    }
    if has_bad_id(form, own, &named) {
        return Ok(Some(AnnWhat::BadId));
    }
    if is_twice(known, line, own) {
        return Ok(Some(AnnWhat::IdTwice));
    }
    match line_rule(alloc, conf, known, before, line, form, types, &named)? {
        Some(rule) => Ok(Some(AnnWhat::Broken(rule))),
        None => Ok(None),
    }
}

//! The words of a configuration's canonical text: alternatives, marks and pairs.
ghost use Rattle.std.specs.Prelude.{◌≡◌, ◌++◌, ◌∷◌, List, string_bytes, decimal, map, filter, not, IfOk, OnOk, codes};
ghost use Rattle.std.specs.List.{join_with_byte, flat_map};
ghost use Rattle.conf_model.specs.ConfText.{where_so, type_name_at, relation_name_at, has_type_named, alternatives_text, braces_text, mark_text, pair_text, role_text, with_commas};

use conf_model::{Alternatives, Conf, Role};
use mark_base::{Memory, RelId, Text, TypeId};
use std::alloc::Global;

/// A text of these characters.
pub(crate) fn text_of(alloc: Global, text: &str) -> Result<Text, Memory>
    ensures { IfOk result (λ made. made ≡ text.now) }
{
    Ok(Text::from_string(String::from_str(alloc, text)?))
}

/// The name of a type by its place.
fn type_name(conf: &Conf, place: u16) -> &str
    ensures { result.now ≡ type_name_at conf.now place }
{
    match conf.types().row(TypeId { n: place }) {
        Some(row) => row.name.text(),
        None => "",
    }
}

/// The name of a relation type by its place.
fn relation_name(conf: &Conf, place: u16) -> &str
    ensures { result.now ≡ relation_name_at conf.now place }
{
    match conf.relation_name(RelId { n: place }) {
        Some(name) => name.text(),
        None => "",
    }
}

/// Adds a word where something holds.
pub(crate) fn push_where(
    alloc: Global,
    words: &mut Vec<Text>,
    so: bool,
    word: &str,
) -> Result<(), Memory>
    ensures { OnOk result (words.new.items ≡ words.old.items ++ where_so so word.now) }
{
    if so {
        words.push(text_of(alloc, word)?)?;
    }
    Ok(())
}

/// Adds the names of types.
fn push_type_names(
    alloc: Global,
    words: &mut Vec<Text>,
    conf: &Conf,
    places: &[u16],
) -> Result<(), Memory>
    ensures { OnOk result (words.new.items ≡ words.old.items ++ map (type_name_at conf.now) places.now) }
{
    for place in places {
        words.push(text_of(alloc, type_name(conf, *place))?)?;
    }
    Ok(())
}

/// Whether one of some types has a name.
fn has_type_named(conf: &Conf, places: &[u16], name: &str) -> bool
    ensures { result ≡ has_type_named conf.now places.now name.now }
{
    places.iter().any(|place| name == type_name(conf, *place))
}

/// Whether a relation type has the name of one of some types.
fn is_named_as_type(conf: &Conf, types: &[u16], place: u16) -> bool
    ensures { result ≡ has_type_named conf.now types.now (relation_name_at conf.now place) }
{
    has_type_named(conf, types, relation_name(conf, place))
}

/// Adds the names of relation types that none of some types has. Cost: the number of the ones times that
/// of the others.
fn push_relation_names(
    alloc: Global,
    words: &mut Vec<Text>,
    conf: &Conf,
    types: &[u16],
    places: &[u16],
) -> Result<(), Memory>
    ensures { OnOk result (words.new.items ≡ words.old.items ++ map (relation_name_at conf.now) (filter (λ place. not (has_type_named conf.now types.now (relation_name_at conf.now place))) places.now)) }
{
    for place in places {
        if !is_named_as_type(conf, types, *place) {
            words.push(text_of(alloc, relation_name(conf, *place))?)?;
        }
    }
    Ok(())
}

/// Appends words with a mark before each.
fn push_marked(out: &mut String, mark: &str, words: &[Text]) -> Result<(), Memory>
    ensures { OnOk result (string_bytes out.new ≡ string_bytes out.old ++ flat_map (λ word. mark.now ++ word) words.now) }
{
    for word in words {
        out.push_str(mark)?;
        out.push_str(word.text())?;
    }
    Ok(())
}

/// Appends words with a bar between each two.
fn push_joined(out: &mut String, words: &[Text]) -> Result<(), Memory>
    ensures { OnOk result (string_bytes out.new ≡ string_bytes out.old ++ join_with_byte 124 words.now) }
{
    match words {
        [] => Ok(()),
        [word, rest @ ..] => {
            out.push_str(word.text())?;
            push_marked(out, "|", rest)?;
            Ok(())
        }
    }
}

/// Words with a bar between each two.
pub(crate) fn joined(alloc: Global, words: &[Text]) -> Result<Text, Memory>
    ensures { IfOk result (λ made. made ≡ join_with_byte 124 words.now) }
{
    let mut out = String::new(alloc);
    push_joined(&mut out, words)?;
    Ok(Text::from_string(out))
}

/// Appends words with a comma and a space between each two.
fn push_with_commas(out: &mut String, words: &[Text]) -> Result<(), Memory>
    ensures { OnOk result (string_bytes out.new ≡ string_bytes out.old ++ with_commas words.now) }
{
    match words {
        [] => Ok(()),
        [word, rest @ ..] => {
            out.push_str(word.text())?;
            push_marked(out, ", ", rest)?;
            Ok(())
        }
    }
}

/// Words with a comma and a space between each two.
pub(crate) fn with_commas(alloc: Global, words: &[Text]) -> Result<Text, Memory>
    ensures { IfOk result (λ made. made ≡ with_commas words.now) }
{
    let mut out = String::new(alloc);
    push_with_commas(&mut out, words)?;
    Ok(Text::from_string(out))
}

/// Alternatives: the built-in macros, then types, then relation types, joined by bars.
pub(crate) fn alternatives_text(
    alloc: Global,
    conf: &Conf,
    named: &Alternatives,
) -> Result<Text, Memory>
    ensures { IfOk result (λ made. made ≡ alternatives_text conf.now named.now) }
{
    let mut words = Vec::new(alloc);
    push_where(alloc, &mut words, named.entity, "<ENTITY>")?;
    push_where(alloc, &mut words, named.event, "<EVENT>")?;
    push_where(alloc, &mut words, named.any, "<ANY>")?;
    push_where(alloc, &mut words, named.relation, "<RELATION>")?;
    push_type_names(alloc, &mut words, conf, named.bound.items())?;
    push_relation_names(
        alloc,
        &mut words,
        conf,
        named.bound.items(),
        named.between.items(),
    )?;
    joined(alloc, words.as_slice())
}

/// A number in decimal digits between braces, or two with a hyphen between.
fn braces_text(alloc: Global, least: u32, most: u32) -> Result<Text, Memory>
    ensures { IfOk result (λ made. made ≡ braces_text least most) }
{
    let mut out = String::new(alloc);
    out.push_str("{")?;
    out.push_str(least.to_string(alloc)?.as_str())?;
    if least != most {
        out.push_str("-")?;
        out.push_str(most.to_string(alloc)?.as_str())?;
    }
    out.push_str("}")?;
    Ok(Text::from_string(out))
}

/// The mark of two counts.
pub(crate) fn mark_text(alloc: Global, least: u32, most: u32) -> Result<Text, Memory>
    ensures { IfOk result (λ made. made ≡ mark_text least most) }
{
    match (least, most) {
        (1, 1) => text_of(alloc, ""),
        (0, 1) => text_of(alloc, "?"),
        (0, 4_294_967_295) => text_of(alloc, "*"),
        (1, 4_294_967_295) => text_of(alloc, "+"),
        _ => braces_text(alloc, least, most),
    }
}

/// A role and its alternatives.
pub(crate) fn pair_text(
    alloc: Global,
    conf: &Conf,
    role: &str,
    named: &Alternatives,
) -> Result<Text, Memory>
    ensures { IfOk result (λ made. made ≡ pair_text conf.now role.now named.now) }
{
    let targets = alternatives_text(alloc, conf, named)?;
    let mut out = String::new(alloc);
    out.push_str(role)?;
    out.push_str(":")?;
    out.push_str(targets.text())?;
    Ok(Text::from_string(out))
}

/// A role of an event type with its mark.
pub(crate) fn role_text(alloc: Global, conf: &Conf, role: &Role) -> Result<Text, Memory>
    ensures { IfOk result (λ made. made ≡ role_text conf.now role.now) }
{
    let mark = mark_text(alloc, role.least, role.most)?;
    let targets = alternatives_text(alloc, conf, &role.targets)?;
    let mut out = String::new(alloc);
    out.push_str(role.name.text())?;
    out.push_str(mark.text())?;
    out.push_str(":")?;
    out.push_str(targets.text())?;
    Ok(Text::from_string(out))
}

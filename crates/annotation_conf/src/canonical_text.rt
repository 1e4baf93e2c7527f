//! The canonical text of a configuration.
ghost use Rattle.std.specs.Prelude.{◌≡◌, ◌++◌, ◌≤◌, ◌<◌, [], string_bytes, length, replicate, filter, map, codes, IfOk, OnOk, if◌then◌else◌, true, false, nat_lt, Ok};
ghost use Rattle.std.specs.List.{flat_map, enumerate_from, join_with_byte};
ghost use Rattle.conf_model.specs.ConfOf.{conf_of};
ghost use Rattle.conf_model.specs.Lookups.{roles_of};
ghost use Rattle.conf_model.specs.ConfText.{where_so, depth_by, line_text, pairs_text, role_text, type_text, arguments_text, relation_text, kinds_text, overlap_text, attribute_text, conf_text};

use crate::conf_words::{joined, pair_text, push_where, role_text, text_of, with_commas};
use conf_model::{Arguments, AttributeType, Conf, Overlap, RelationType, Role};
use mark_base::{Memory, Name, Text, TypeId};
use std::alloc::Global;
use type_hierarchy::TypeRow;

/// Appends a name and its pairs: one TAB between, where there are pairs, and a line feed.
fn push_line(alloc: Global, out: &mut String, name: &str, pairs: &[Text]) -> Result<(), Memory>
    ensures { OnOk result (string_bytes out.new ≡ string_bytes out.old ++ line_text name.now pairs.now) }
{
    let behind = pairs_text(alloc, pairs)?;
    out.push_str(name)?;
    out.push_str(behind.text())?;
    out.push_str("\n")?;
    Ok(())
}

/// What stands between a name and the end of its line.
fn pairs_text(alloc: Global, pairs: &[Text]) -> Result<Text, Memory>
    ensures { IfOk result (λ made. made ≡ pairs_text pairs.now) }
{
    if pairs.is_empty() {
        return text_of(alloc, "");
    }
    let words = with_commas(alloc, pairs)?;
    let mut out = String::new(alloc);
    out.push_str("\t")?;
    out.push_str(words.text())?;
    Ok(Text::from_string(out))
}

/// Adds the texts of roles.
fn push_roles(
    alloc: Global,
    pairs: &mut Vec<Text>,
    conf: &Conf,
    roles: &[Role],
) -> Result<(), Memory>
    ensures { OnOk result (pairs.new.items ≡ pairs.old.items ++ map (role_text conf.now) roles.now) }
{
    for role in roles {
        pairs.push(role_text(alloc, conf, role)?)?;
    }
    Ok(())
}

/// Appends TABs.
fn push_tabs(out: &mut String, depth: u8) -> Result<(), Memory>
    ensures { OnOk result (string_bytes out.new ≡ string_bytes out.old ++ replicate depth 9) }
{
    for _ in 0..depth {
        out.push_str("\t")?;
    }
    Ok(())
}

/// How many ancestors a type has.
#[tactic(auto, unfolding(type_hierarchy::specs::TypeTrees::depth_of))]
fn depth_of(conf: &Conf, place: u16) -> u8
    requires { place < length conf.now.types }
    ensures { result ≡ depth_by (length conf.now.types) conf.now.types place }
{
    match conf.types().depth(TypeId { n: place }) {
        Some(depth) => depth,
        None => unreachable!(),
    }
}

/// Appends the line of a type.
fn push_type(
    alloc: Global,
    out: &mut String,
    conf: &Conf,
    place: u16,
    row: &TypeRow,
) -> Result<(), Memory>
    requires { place < length conf.now.types }
    ensures { OnOk result (string_bytes out.new ≡ string_bytes out.old ++ type_text conf.now (place, row.now)) }
{
    let mut pairs = Vec::new(alloc);
    push_roles(alloc, &mut pairs, conf, conf.roles(TypeId { n: place }))?;
    push_tabs(out, depth_of(conf, place))?;
    out.push_str(if row.usable { "" } else { "!" })?;
    push_line(alloc, out, row.name.text(), pairs.as_slice())
}

/// Appends the line of a type where it is an event type, or where it is none.
fn push_type_where(
    alloc: Global,
    out: &mut String,
    conf: &Conf,
    event: bool,
    place: u16,
    row: &TypeRow,
) -> Result<(), Memory>
    requires { place < length conf.now.types }
    ensures { OnOk result (string_bytes out.new ≡ string_bytes out.old ++ (if (if event then row.now.event else (if row.now.event then false else true)) then type_text conf.now (place, row.now) else [])) }
{
    if row.event == event {
        push_type(alloc, out, conf, place, row)?;
    }
    Ok(())
}

/// Appends the lines of the event types, or of the entity types.
fn push_types(
    alloc: Global,
    out: &mut String,
    conf: &Conf,
    event: bool,
    rows: &[TypeRow],
) -> Result<(), Memory>
    requires within { length rows.now ≤ length conf.now.types }
    requires few { length conf.now.types ≤ 256 }
    ensures { OnOk result (string_bytes out.new ≡ string_bytes out.old ++ flat_map (type_text conf.now) (filter (λ placed. if event then placed.1.event else (if placed.1.event then false else true)) (enumerate_from 0 rows.now))) }
{
    let mut place: u16 = 0;
    for row in rows {
        push_type_where(alloc, out, conf, event, place, row)?;
        place += 1;
    }
    Ok(())
}

/// Appends a line of a relation type.
fn push_arguments(
    alloc: Global,
    out: &mut String,
    conf: &Conf,
    relation: &RelationType,
    line: &Arguments,
) -> Result<(), Memory>
    ensures { OnOk result (string_bytes out.new ≡ string_bytes out.old ++ arguments_text conf.now relation.now line.now) }
{
    let mut pairs = Vec::new(alloc);
    pairs.push(pair_text(alloc, conf, relation.first.text(), &line.first)?)?;
    pairs.push(pair_text(alloc, conf, relation.second.text(), &line.second)?)?;
    push_where(
        alloc,
        &mut pairs,
        relation.equivalence,
        "<REL-TYPE>:symmetric-transitive",
    )?;
    push_line(alloc, out, relation.name.text(), pairs.as_slice())
}

/// Appends the lines of a relation type.
fn push_relation(
    alloc: Global,
    out: &mut String,
    conf: &Conf,
    relation: &RelationType,
) -> Result<(), Memory>
    ensures { OnOk result (string_bytes out.new ≡ string_bytes out.old ++ relation_text conf.now relation.now) }
{
    for line in relation.lines.items() {
        push_arguments(alloc, out, conf, relation, line)?;
    }
    Ok(())
}

/// Appends the lines of relation types.
fn push_relations(
    alloc: Global,
    out: &mut String,
    conf: &Conf,
    relations: &[RelationType],
) -> Result<(), Memory>
    ensures { OnOk result (string_bytes out.new ≡ string_bytes out.old ++ flat_map (relation_text conf.now) relations.now) }
{
    for relation in relations {
        push_relation(alloc, out, conf, relation)?;
    }
    Ok(())
}

/// The kinds of an overlap line.
fn kinds_text(alloc: Global, line: &Overlap) -> Result<Text, Memory>
    ensures { IfOk result (λ made. made ≡ kinds_text line.now) }
{
    let mut words = Vec::new(alloc);
    push_where(alloc, &mut words, line.contain, "contain")?;
    push_where(alloc, &mut words, line.equal, "equal")?;
    push_where(alloc, &mut words, line.cross, "cross")?;
    push_where(alloc, &mut words, line.any, "<ANY>")?;
    joined(alloc, words.as_slice())
}

/// A key and what stands behind it.
fn keyed(alloc: Global, key: &str, value: &Text) -> Result<Text, Memory>
    ensures { IfOk result (λ made. made ≡ key.now ++ value.now) }
{
    let mut out = String::from_str(alloc, key)?;
    out.push_str(value.text())?;
    Ok(Text::from_string(out))
}

/// Appends an overlap line.
fn push_overlap(alloc: Global, out: &mut String, conf: &Conf, line: &Overlap) -> Result<(), Memory>
    ensures { OnOk result (string_bytes out.new ≡ string_bytes out.old ++ overlap_text conf.now line.now) }
{
    let kinds = kinds_text(alloc, line)?;
    let mut pairs = Vec::new(alloc);
    pairs.push(pair_text(alloc, conf, "Arg1", &line.first)?)?;
    pairs.push(pair_text(alloc, conf, "Arg2", &line.second)?)?;
    pairs.push(keyed(alloc, "<OVL-TYPE>:", &kinds)?)?;
    push_line(alloc, out, "<OVERLAP>", pairs.as_slice())
}

/// Appends the overlap lines.
fn push_overlaps(
    alloc: Global,
    out: &mut String,
    conf: &Conf,
    lines: &[Overlap],
) -> Result<(), Memory>
    ensures { OnOk result (string_bytes out.new ≡ string_bytes out.old ++ flat_map (overlap_text conf.now) lines.now) }
{
    for line in lines {
        push_overlap(alloc, out, conf, line)?;
    }
    Ok(())
}

/// The values of an attribute, joined by bars.
fn values_text(alloc: Global, values: &[Name]) -> Result<Text, Memory>
    ensures { IfOk result (λ made. made ≡ join_with_byte 124 values.now) }
{
    let mut words = Vec::new(alloc);
    push_names(alloc, &mut words, values)?;
    joined(alloc, words.as_slice())
}

/// Adds the texts of names.
fn push_names(alloc: Global, words: &mut Vec<Text>, names: &[Name]) -> Result<(), Memory>
    ensures { OnOk result (words.new.items ≡ words.old.items ++ names.now) }
{
    for name in names {
        words.push(text_of(alloc, name.text())?)?;
    }
    Ok(())
}

/// Appends the line of an attribute.
fn push_attribute(
    alloc: Global,
    out: &mut String,
    conf: &Conf,
    attribute: &AttributeType,
) -> Result<(), Memory>
    ensures { OnOk result (string_bytes out.new ≡ string_bytes out.old ++ attribute_text conf.now attribute.now) }
{
    let values = values_text(alloc, attribute.values.items())?;
    let behind = keyed(alloc, "Value:", &values)?;
    let has_values = !attribute.values.items().is_empty();
    let mut pairs = Vec::new(alloc);
    pairs.push(pair_text(alloc, conf, "Arg", &attribute.targets)?)?;
    push_where(alloc, &mut pairs, has_values, behind.text())?;
    push_line(alloc, out, attribute.name.text(), pairs.as_slice())
}

/// Appends the lines of attributes.
fn push_attributes(
    alloc: Global,
    out: &mut String,
    conf: &Conf,
    attributes: &[AttributeType],
) -> Result<(), Memory>
    ensures { OnOk result (string_bytes out.new ≡ string_bytes out.old ++ flat_map (attribute_text conf.now) attributes.now) }
{
    for attribute in attributes {
        push_attribute(alloc, out, conf, attribute)?;
    }
    Ok(())
}

/// The canonical text of a configuration: the four sections, macros written out, one TAB between a name
/// and its pairs. Reading it gives an equal configuration. Cost: the bytes of the text, and for each type
/// the depth of the tree.
#[tactic(auto, unfolding(conf_model::specs::ConfText::conf_text))]
pub fn write_conf(alloc: Global, conf: &Conf) -> Result<Text, Memory>
    ensures text { IfOk result (λ text. text ≡ conf_text conf.now) }
    ensures again { conf_of (conf_text conf.now) ≡ Ok conf.now }
{
    conf.reads_back();
    let rows = conf.types().rows();
    let _count = conf.types().count();
    let mut out = String::from_str(alloc, "[entities]\n")?;
    push_types(alloc, &mut out, conf, false, rows)?;
    out.push_str("[relations]\n")?;
    push_relations(alloc, &mut out, conf, conf.relations())?;
    push_overlaps(alloc, &mut out, conf, conf.overlaps())?;
    out.push_str("[events]\n")?;
    push_types(alloc, &mut out, conf, true, rows)?;
    out.push_str("[attributes]\n")?;
    push_attributes(alloc, &mut out, conf, conf.attributes())?;
    Ok(Text::from_string(out))
}

//! The words of .ann lines.
ghost use Rattle.std.specs.Prelude.{◌≡◌, ◌++◌, ◌+◌, ◌<◌, ◌≤◌, ◌∷◌, [], ℕ, codes, decimal, length, map, slice_index, string_bytes, IfOk, OnOk};
ghost use Rattle.std.specs.List.{All, flat_map};
ghost use Rattle.mark_base.specs.declared.arguments.Arg.{Arg};
ghost use Rattle.mark_base.specs.AnnIds.{spelling_of};
ghost use Rattle.conf_model.specs.Lookups.{role_name, roles_of};
ghost use Rattle.conf_model.specs.ConfText.{type_name_at, relation_name_at};
ghost use Rattle.ann_writer.specs.AnnOf.{attribute_name_at, relation_role_at, value_name_at};
ghost use Rattle.ann_writer.specs.Words.{frag_word, frags_word, id_word, pair_word, reads_as, role_name_at, role_spelling};

use ann_reader::role_read;
use conf_model::Conf;
use itoa::Buffer;
use mark_base::{AnnId, AttrId, Frag, Kind, Memory, RelId, Text, TypeId};
use std::alloc::Global;

/// Appends a number in decimal digits.
fn push_number(out: &mut String, number: u32) -> Result<(), Memory>
    ensures { OnOk result (string_bytes out.new ≡ string_bytes out.old ++ decimal number) }
{
    let mut digits = Buffer::new();
    out.push_str(digits.format(number))?;
    Ok(())
}

/// Appends the ID of a letter and a number.
pub(crate) fn push_spelling(out: &mut String, kind: Kind, number: u32) -> Result<(), Memory>
    ensures { OnOk result (string_bytes out.new ≡ string_bytes out.old ++ spelling_of kind number) }
{
    out.push_str(kind.as_str())?;
    push_number(out, number)
}

/// The ID of a letter and a number.
pub(crate) fn spelling(alloc: Global, kind: Kind, number: u32) -> Result<Text, Memory>
    ensures { IfOk result (λ made. made ≡ spelling_of kind number) }
{
    let mut out = String::new(alloc);
    push_spelling(&mut out, kind, number)?;
    Ok(Text::from_string(out))
}

/// An ID.
pub(crate) fn id_word(alloc: Global, id: AnnId) -> Result<Text, Memory>
    ensures { IfOk result (λ made. made ≡ id_word id) }
{
    spelling(alloc, id.kind, id.number)
}

/// A name and what it stands with.
pub(crate) fn pair_word(alloc: Global, name: &str, value: &str) -> Result<Text, Memory>
    ensures { IfOk result (λ made. made ≡ pair_word name.now value.now) }
{
    let mut out = String::from_str(alloc, name)?;
    out.push_str(":")?;
    out.push_str(value)?;
    Ok(Text::from_string(out))
}

/// Appends a fragment.
fn push_frag(out: &mut String, frag: &Frag) -> Result<(), Memory>
    ensures { OnOk result (string_bytes out.new ≡ string_bytes out.old ++ frag_word frag.now) }
{
    push_number(out, frag.start)?;
    out.push_str(" ")?;
    push_number(out, frag.end)
}

/// Appends fragments, each behind `;`.
fn push_more_frags(out: &mut String, frags: &[Frag]) -> Result<(), Memory>
    ensures { OnOk result (string_bytes out.new ≡ string_bytes out.old ++ flat_map (λ next. codes ";" ++ frag_word next) frags.now) }
{
    for frag in frags {
        out.push_str(";")?;
        push_frag(out, frag)?;
    }
    Ok(())
}

/// Appends fragments with `;` between each two.
pub(crate) fn push_frags(out: &mut String, frags: &[Frag]) -> Result<(), Memory>
    ensures { OnOk result (string_bytes out.new ≡ string_bytes out.old ++ frags_word frags.now) }
{
    if let [frag, more @ ..] = frags {
        push_frag(out, frag)?;
        push_more_frags(out, more)?;
    }
    Ok(())
}

/// The name of a type by its place.
pub(crate) fn type_name(conf: &Conf, id: TypeId) -> &str
    ensures { result.now ≡ type_name_at conf.now id.n }
{
    match conf.types().row(id) {
        Some(row) => row.name.text(),
        None => "",
    }
}

/// The name of a relation type by its place.
pub(crate) fn relation_name(conf: &Conf, id: RelId) -> &str
    ensures { result.now ≡ relation_name_at conf.now id.n }
{
    match conf.relation_name(id) {
        Some(name) => name.text(),
        None => "",
    }
}

/// The name of the first or second role of a relation type.
pub(crate) fn relation_role(conf: &Conf, id: RelId, second: bool) -> &str
    ensures { result.now ≡ relation_role_at conf.now id.n second }
{
    match conf.relation_role(id, second) {
        Some(name) => name.text(),
        None => "",
    }
}

/// The name of an attribute.
pub(crate) fn attribute_name(conf: &Conf, id: AttrId) -> &str
    ensures { result.now ≡ attribute_name_at conf.now id.n }
{
    match conf.attribute_name(id) {
        Some(name) => name.text(),
        None => "",
    }
}

/// The name of a value.
pub(crate) fn value_name(conf: &Conf, id: AttrId, value: u16) -> &str
    ensures { result.now ≡ value_name_at conf.now id.n value }
{
    match conf.value_name(id, value) {
        Some(name) => name.text(),
        None => "",
    }
}

/// The name of a role.
fn role_name(conf: &Conf, event: TypeId, role: u16) -> &str
    ensures { result.now ≡ role_name_at conf.now event.n role }
{
    match conf.role_name(event, role) {
        Some(name) => name.text(),
        None => "",
    }
}

/// Whether a word reads back as a role.
fn reads_as(conf: &Conf, event: TypeId, word: &str, role: u16) -> bool
    ensures { result ≡ reads_as conf.now event.n word.now role }
{
    match role_read(conf, event, word) {
        Some(read) => read == role,
        None => false,
    }
}

/// A name with a number behind it.
fn with_number(alloc: Global, name: &str, number: usize) -> Result<Text, Memory>
    ensures { IfOk result (λ made. made ≡ name.now ++ decimal number) }
{
    let mut out = String::from_str(alloc, name)?;
    out.push_str(number.to_string(alloc)?.as_str())?;
    Ok(Text::from_string(out))
}

/// The name of a role as its k-th argument has it.
pub(crate) fn role_spelling(
    alloc: Global,
    conf: &Conf,
    event: TypeId,
    role: u16,
    k: usize,
) -> Result<Text, Memory>
    ensures { IfOk result (λ made. made ≡ role_spelling conf.now event.n role k) }
{
    let name = role_name(conf, event, role);
    if k > 1 {
        let numbered = with_number(alloc, name, k)?;
        if reads_as(conf, event, numbered.text(), role) {
            return Ok(numbered);
        }
    }
    Text::of(alloc, name)
}

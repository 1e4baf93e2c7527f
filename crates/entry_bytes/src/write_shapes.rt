//! A tag and the fields behind it, in the shapes that entries have.
ghost use Rattle.std.specs.Prelude.{◌≡◌, ◌<◌, ◌^◌, ◌++◌, ◌∷◌, [], length, OnOk};
ghost use Rattle.entry_bytes.specs.Fields.{u32_bytes, u64_bytes, flag, slug_bytes, text_bytes, people_bytes, IsText, IsSlug, ArePeople};

use crate::person::PersonList;
use crate::write_fields::{put_people, put_slug, put_text, put_u32, put_u64};
use mark_base::{Bytes, Memory, Slug, Text};

/// A founding: the text of the configuration, and the people.
pub(crate) fn put_founding(
    out: &mut Vec<u8>,
    tag: u8,
    conf: &Text,
    people: &PersonList,
) -> Result<(), Memory>
    requires conf { length conf.now < 2 ^ 32 }
    requires people { length people.now < 256 }
    ensures bytes { OnOk result (out.new.items ≡ out.old.items ++ (tag ∷ text_bytes conf.now ++ people_bytes people.now)) }
    ensures are { OnOk result (IsText conf.now × ArePeople people.now) }
{
    out.push(tag)?;
    put_text(out, conf)?;
    put_people(out, people)
}

/// A document with its text, added by a person.
pub(crate) fn put_add_text(
    out: &mut Vec<u8>,
    by: &Slug,
    name: &Slug,
    text: &Text,
) -> Result<(), Memory>
    requires { length text.now < 2 ^ 32 }
    ensures bytes { OnOk result (out.new.items ≡ out.old.items ++ (2 ∷ slug_bytes by.now ++ slug_bytes name.now ++ text_bytes text.now)) }
    ensures are { OnOk result (IsSlug by.now × IsSlug name.now × IsText text.now) }
{
    out.push(2)?;
    put_slug(out, by)?;
    put_slug(out, name)?;
    put_text(out, text)
}

/// A change of a document by a person.
pub(crate) fn put_on_document(out: &mut Vec<u8>, tag: u8, by: &Slug, doc: u32) -> Result<(), Memory>
    ensures bytes { OnOk result (out.new.items ≡ out.old.items ++ (tag ∷ slug_bytes by.now ++ u32_bytes doc)) }
    ensures is { OnOk result (IsSlug by.now) }
{
    out.push(tag)?;
    put_slug(out, by)?;
    put_u32(out, doc)
}

/// A change of a person's layer of a document by a person.
pub(crate) fn put_on_layer(
    out: &mut Vec<u8>,
    tag: u8,
    by: &Slug,
    doc: u32,
    who: &Slug,
) -> Result<(), Memory>
    ensures bytes { OnOk result (out.new.items ≡ out.old.items ++ (tag ∷ slug_bytes by.now ++ u32_bytes doc ++ slug_bytes who.now)) }
    ensures are { OnOk result (IsSlug by.now × IsSlug who.now) }
{
    put_on_document(out, tag, by, doc)?;
    put_slug(out, who)
}

/// A commit, with the lines of the layer.
pub(crate) fn put_commit(
    out: &mut Vec<u8>,
    by: &Slug,
    doc: u32,
    hold: u64,
    lines: &Text,
) -> Result<(), Memory>
    requires { length lines.now < 2 ^ 32 }
    ensures bytes { OnOk result (out.new.items ≡ out.old.items ++ (5 ∷ slug_bytes by.now ++ u32_bytes doc ++ u64_bytes hold ++ text_bytes lines.now)) }
    ensures are { OnOk result (IsSlug by.now × IsText lines.now) }
{
    put_on_document(out, 5, by, doc)?;
    put_u64(out, hold)?;
    put_text(out, lines)
}

/// A parked layer, with its commands to the end.
pub(crate) fn put_park(
    out: &mut Vec<u8>,
    by: &Slug,
    doc: u32,
    hold: u64,
    commands: &Bytes,
) -> Result<(), Memory>
    ensures bytes { OnOk result (out.new.items ≡ out.old.items ++ (6 ∷ slug_bytes by.now ++ u32_bytes doc ++ u64_bytes hold ++ commands.now)) }
    ensures is { OnOk result (IsSlug by.now) }
{
    put_on_document(out, 6, by, doc)?;
    put_u64(out, hold)?;
    out.extend_from_slice(commands.items())?;
    Ok(())
}

/// An item of a snapshot, and who decided.
pub(crate) fn put_on_item(
    out: &mut Vec<u8>,
    tag: u8,
    by: &Slug,
    snapshot: u64,
    holder: u8,
    kind: u8,
    number: u32,
) -> Result<(), Memory>
    ensures bytes { OnOk result (out.new.items ≡ out.old.items ++ (tag ∷ slug_bytes by.now ++ u64_bytes snapshot ++ holder ∷ [] ++ kind ∷ [] ++ u32_bytes number)) }
    ensures is { OnOk result (IsSlug by.now) }
{
    out.push(tag)?;
    put_slug(out, by)?;
    put_u64(out, snapshot)?;
    out.push(holder)?;
    out.push(kind)?;
    put_u32(out, number)
}

/// The first piece of a state.
pub(crate) fn put_restored(
    out: &mut Vec<u8>,
    place: u64,
    level: u8,
    documents: u32,
    snapshots: u64,
    conf: &Text,
    people: &PersonList,
) -> Result<(), Memory>
    requires conf { length conf.now < 2 ^ 32 }
    requires people { length people.now < 256 }
    ensures bytes { OnOk result (out.new.items ≡ out.old.items ++ (16 ∷ u64_bytes place ++ level ∷ [] ++ u32_bytes documents ++ u64_bytes snapshots ++ text_bytes conf.now ++ people_bytes people.now)) }
    ensures are { OnOk result (IsText conf.now × ArePeople people.now) }
{
    out.push(16)?;
    put_u64(out, place)?;
    out.push(level)?;
    put_u32(out, documents)?;
    put_u64(out, snapshots)?;
    put_text(out, conf)?;
    put_people(out, people)
}

/// A slug and a text.
pub(crate) fn put_named_text(
    out: &mut Vec<u8>,
    tag: u8,
    name: &Slug,
    text: &Text,
) -> Result<(), Memory>
    requires { length text.now < 2 ^ 32 }
    ensures bytes { OnOk result (out.new.items ≡ out.old.items ++ (tag ∷ slug_bytes name.now ++ text_bytes text.now)) }
    ensures are { OnOk result (IsSlug name.now × IsText text.now) }
{
    out.push(tag)?;
    put_slug(out, name)?;
    put_text(out, text)
}

/// A row of a state.
pub(crate) fn put_row(
    out: &mut Vec<u8>,
    doc: u32,
    who: &Slug,
    revision: u64,
    flags: u8,
) -> Result<(), Memory>
    ensures bytes { OnOk result (out.new.items ≡ out.old.items ++ (18 ∷ u32_bytes doc ++ slug_bytes who.now ++ u64_bytes revision ++ flags ∷ [])) }
    ensures is { OnOk result (IsSlug who.now) }
{
    out.push(18)?;
    put_u32(out, doc)?;
    put_slug(out, who)?;
    put_u64(out, revision)?;
    out.push(flags)?;
    Ok(())
}

/// A text alone.
pub(crate) fn put_lines(out: &mut Vec<u8>, tag: u8, lines: &Text) -> Result<(), Memory>
    requires { length lines.now < 2 ^ 32 }
    ensures bytes { OnOk result (out.new.items ≡ out.old.items ++ (tag ∷ text_bytes lines.now)) }
    ensures is { OnOk result (IsText lines.now) }
{
    out.push(tag)?;
    put_text(out, lines)
}

/// Bytes to the end.
pub(crate) fn put_all(out: &mut Vec<u8>, tag: u8, bytes: &Bytes) -> Result<(), Memory>
    ensures { OnOk result (out.new.items ≡ out.old.items ++ (tag ∷ bytes.now)) }
{
    out.push(tag)?;
    out.extend_from_slice(bytes.items())?;
    Ok(())
}

/// A snapshot of a state.
pub(crate) fn put_snapshot(out: &mut Vec<u8>, doc: u32, layers: u8) -> Result<(), Memory>
    ensures { OnOk result (out.new.items ≡ out.old.items ++ (21 ∷ u32_bytes doc ++ layers ∷ [])) }
{
    out.push(21)?;
    put_u32(out, doc)?;
    out.push(layers)?;
    Ok(())
}

/// A byte alone: a tag, or the last field.
pub(crate) fn put_byte(out: &mut Vec<u8>, byte: u8) -> Result<(), Memory>
    ensures { OnOk result (out.new.items ≡ out.old.items ++ (byte ∷ [])) }
{
    out.push(byte)?;
    Ok(())
}

//! Fields that several kinds of entries share.
ghost use Rattle.std.specs.Prelude.{◌≡◌, IfOk, option_map};
ghost use Rattle.entry_bytes.specs.EntryReading.{founding_at, on_document_at, on_layer_at, on_item_at};

use crate::cursor::Cursor;
use crate::person::PersonList;
use mark_base::{Memory, Slug, Text};
use std::alloc::Global;

/// What a founding has.
#[derive(Drop)]
pub(crate) struct Founding {
    pub conf: Text,
    pub people: PersonList,
}

/// Who made a change, and on which document.
#[derive(Drop)]
pub(crate) struct OnDocument {
    pub by: Slug,
    pub doc: u32,
}

/// Who made a change, and on which layer of a document.
#[derive(Drop)]
pub(crate) struct OnLayer {
    pub by: Slug,
    pub doc: u32,
    pub who: Slug,
}

/// Who decided, and on which item of a snapshot.
#[derive(Drop)]
pub(crate) struct OnItem {
    pub by: Slug,
    pub snapshot: u64,
    pub holder: u8,
    pub kind: u8,
    pub number: u32,
}

/// Takes what a founding has.
#[tactic(auto, unfolding(crate::specs::EntryReading::founding_at))]
pub(crate) fn take_founding(
    alloc: Global,
    cursor: &mut Cursor<'_>,
) -> Result<Option<Founding>, Memory>
    ensures { IfOk result (λ found. founding_at cursor.old ≡ option_map (λ it. ((it.conf, it.people), cursor.new)) found) }
{
    let Some(conf) = cursor.take_text(alloc)? else {
        return Ok(None);
    };
    let Some(people) = cursor.take_people(alloc)? else {
        return Ok(None);
    };
    Ok(Some(Founding { conf, people }))
}

/// Takes who made a change, and on which document.
#[tactic(auto, unfolding(crate::specs::EntryReading::on_document_at))]
pub(crate) fn take_on_document(
    alloc: Global,
    cursor: &mut Cursor<'_>,
) -> Result<Option<OnDocument>, Memory>
    ensures { IfOk result (λ found. on_document_at cursor.old ≡ option_map (λ it. ((it.by, it.doc), cursor.new)) found) }
{
    let Some(by) = cursor.take_slug(alloc)? else {
        return Ok(None);
    };
    let Some(doc) = cursor.take_u32() else {
        return Ok(None);
    };
    Ok(Some(OnDocument { by, doc }))
}

/// Takes who made a change, and on which layer of a document.
#[tactic(auto, unfolding(crate::specs::EntryReading::on_layer_at))]
pub(crate) fn take_on_layer(
    alloc: Global,
    cursor: &mut Cursor<'_>,
) -> Result<Option<OnLayer>, Memory>
    ensures { IfOk result (λ found. on_layer_at cursor.old ≡ option_map (λ it. (((it.by, it.doc), it.who), cursor.new)) found) }
{
    let Some(OnDocument { by, doc }) = take_on_document(alloc, cursor)? else {
        return Ok(None);
    };
    let Some(who) = cursor.take_slug(alloc)? else {
        return Ok(None);
    };
    Ok(Some(OnLayer { by, doc, who }))
}

/// Takes who decided, and on which item of a snapshot.
#[tactic(auto, unfolding(crate::specs::EntryReading::on_item_at))]
pub(crate) fn take_on_item(alloc: Global, cursor: &mut Cursor<'_>) -> Result<Option<OnItem>, Memory>
    ensures { IfOk result (λ found. on_item_at cursor.old ≡ option_map (λ it. (((((it.by, it.snapshot), it.holder), it.kind), it.number), cursor.new)) found) }
{
    let Some(by) = cursor.take_slug(alloc)? else {
        return Ok(None);
    };
    let Some(snapshot) = cursor.take_u64() else {
        return Ok(None);
    };
    let Some(holder) = cursor.take_u8() else {
        return Ok(None);
    };
    let Some(kind) = cursor.take_u8() else {
        return Ok(None);
    };
    let Some(number) = cursor.take_u32() else {
        return Ok(None);
    };
    Ok(Some(OnItem {
        by,
        snapshot,
        holder,
        kind,
        number,
    }))
}

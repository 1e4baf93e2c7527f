//! The rows of items.
ghost use Rattle.std.specs.Prelude.{◌≡◌, ◌++◌, ◌∷◌, [], flat_map, get_or, map, string_bytes, IfOk, OnOk};
ghost use Rattle.items_report.specs.ItemRows.{behind_id, item_fields, item_text, state_of};
ghost use Rattle.items_report.specs.ItemsTable.{row};
ghost use Rattle.items_report.specs.Writing.{IsReady, text_of};

use crate::ann_lines::AnnLines;
use crate::holders::{names_among, spaced};
use crate::table_writer::write_row;
use csv::Writer;
use curator_decisions::{Decisions, Verdict};
use layer_rules::id_text;
use mark_base::Memory;
use std::alloc::Global;
use unanimous_merge::{Item, ItemId};

/// An item by its holder and its ID there.
fn item_text(alloc: Global, names: &[&str], item: ItemId) -> Result<String, Memory>
    ensures { IfOk result (λ text. string_bytes text ≡ item_text (map (λ name. name.now) names.now) item) }
{
    let id = id_text(alloc, item.id)?;
    let mut text = String::new(alloc);
    if let Some(name) = names.get(item.holder as usize) {
        text.push_str(name)?;
    }
    text.push_str("/")?;
    text.push_str(id.text())?;
    Ok(text)
}

/// Whether an item is in.
fn state_of(verdict: Option<Verdict>, all: bool) -> &'static str
    ensures { result.now ≡ state_of verdict all }
{
    match verdict {
        Some(Verdict::Accept) => "accepted",
        Some(Verdict::Reject) => "rejected",
        None => { if all { "unanimous" } else { "undecided" } }
    }
}

/// The line of an item in its holder's file, without its ID.
fn line_of<'f>(id: &[u8], lines: &[AnnLines<'f>], holder: u8) -> &'f [u8]
    ensures { result.now ≡ behind_id id.now (get_or lines.now holder []) }
{
    match lines.get(holder as usize) {
        Some(file) => file.behind(id),
        None => &[],
    }
}

/// Writes the fields of a row.
fn write_fields(
    writer: &mut Writer<Vec<u8>>,
    item: &str,
    line: &[u8],
    holders: &str,
    state: &str,
) -> Result<(), Memory>
    requires { IsReady writer.old }
    ensures ready { OnOk result (IsReady writer.new) }
    ensures written { OnOk result (text_of writer.new ≡ text_of writer.old ++ row (item.now ∷ line.now ∷ holders.now ∷ state.now ∷ [])) }
{
    write_row(
        writer,
        &[item.as_bytes(), line, holders.as_bytes(), state.as_bytes()],
    )
}

/// Writes the row of an item.
fn write_item(
    alloc: Global,
    writer: &mut Writer<Vec<u8>>,
    names: &[&str],
    lines: &[AnnLines],
    decisions: &Decisions,
    item: Item,
) -> Result<(), Memory>
    requires { IsReady writer.old }
    ensures ready { OnOk result (IsReady writer.new) }
    ensures written { OnOk result (text_of writer.new ≡ text_of writer.old
        ++ row (item_fields (map (λ name. name.now) names.now) lines.now decisions.now item)) }
{
    let text = item_text(alloc, names, item.id)?;
    let id = id_text(alloc, item.id.id)?;
    let line = line_of(id.text().as_bytes(), lines, item.id.holder);
    let among = names_among(alloc, names, item.holders)?;
    let holders = spaced(alloc, &among)?;
    let state = state_of(decisions.verdict(item.id), among.len() == names.len());
    write_fields(writer, text.as_str(), line, holders.as_str(), state)
}

/// Writes the rows of items.
pub(crate) fn write_items(
    alloc: Global,
    writer: &mut Writer<Vec<u8>>,
    names: &[&str],
    lines: &[AnnLines],
    decisions: &Decisions,
    items: &[Item],
) -> Result<(), Memory>
    requires { IsReady writer.old }
    ensures ready { OnOk result (IsReady writer.new) }
    ensures written { OnOk result (text_of writer.new ≡ text_of writer.old
        ++ flat_map (λ item. row (item_fields (map (λ name. name.now) names.now) lines.now decisions.now item)) items.now) }
{
    for item in items {
        write_item(alloc, writer, names, lines, decisions, *item)?;
    }
    Ok(())
}

//! The table of the items of a snapshot.
ghost use Rattle.std.specs.Prelude.{◌≡◌, IfOk};
ghost use Rattle.items_report.specs.ItemsTable.{CanBeListed, items_table};

use crate::files::{files, lines_of_files};
use crate::holders::names_of;
use crate::item_row::write_items;
use crate::table_writer::{finish, write_row};
use char_documents::Doc;
use conf_model::Conf;
use csv::Writer;
use curator_decisions::Decisions;
use layer_model::Snapshot;
use mark_base::{Bytes, Memory};
use std::alloc::Global;
use unanimous_merge::items;

/// The items of a snapshot as CSV, a row for each item by holder, then by ID: the item, its line in its holder's .ann
/// file without the ID, the names of all who hold it, and `accepted` or `rejected` by the verdict on it, or else
/// `unanimous` where all hold it and `undecided` where not. The snapshot's layers are well-formed for this text and
/// configuration. Held at a time are the holders' files, a map of the lines of each, and the table.
///
/// Cost, read off the code and not measured: that of `items`, the holders' files, for each of their lines and for each
/// item the logarithm of the number of lines, and the table.
pub fn items_csv(
    alloc: Global,
    snapshot: &Snapshot,
    decisions: &Decisions,
    doc: &Doc,
    conf: &Conf,
) -> Result<Bytes, Memory>
    requires { CanBeListed conf.now doc.now snapshot.now }
    ensures { IfOk result (λ bytes. bytes ≡ items_table conf.now doc.now snapshot.now decisions.now) }
{
    let items = items(alloc, snapshot)?;
    let names = names_of(alloc, snapshot)?;
    let files = files(alloc, snapshot, doc, conf)?;
    let lines = lines_of_files(alloc, &files)?;
    let mut writer = Writer::from_writer(Vec::new(alloc));
    write_row(&mut writer, &[b"item", b"line", b"holders", b"state"])?;
    write_items(alloc, &mut writer, &names, &lines, decisions, &items)?;
    finish(writer)
}

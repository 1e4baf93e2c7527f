//! The curated layer, built.
ghost use Rattle.std.specs.Prelude.{◌≡◌, ◌≤◌, ◌<◌, [], true, filter_map, fold, length, option_map, All, IfOk, IfSome, OnOk};
ghost use Rattle.layer_model.specs.Annotations.{no_marks};
ghost use Rattle.layer_model.specs.Classes.{joined};
ghost use Rattle.layer_model.specs.Layers.{is_of_kind, with_classes, with_mark};
ghost use Rattle.unanimous_merge.specs.Merges.{IsMerged};
ghost use Rattle.unanimous_merge.specs.Readings.{readings};
ghost use Rattle.unanimous_merge.specs.Rows.{AreCoherent};
ghost use Rattle.curator_decisions.specs.Curated.{curated};
ghost use Rattle.curator_decisions.specs.Placing.{class_at, letter_of_entry, taken_at};

use crate::decisions::Decisions;
use crate::numbering::{NumberedEntry, entries_in, ids_by_place, numbered};
use crate::renaming::{all_names, all_new, renamed_mark};
use layer_model::{Class, Layer, Mark, Snapshot};
use mark_base::{AnnId, IdList, Memory};
use std::alloc::Global;
use std::collections::BTreeMap;
use unanimous_merge::Merged;

/// Puts an annotation under an ID, in place of one that stood there.
fn put_over(layer: &mut Layer, id: AnnId, mark: Mark) -> Result<(), Memory>
    requires { is_of_kind id.kind mark ≡ true }
    ensures { OnOk result (layer.new ≡ with_mark layer.old id mark) }
{
    let _stood = layer.take(id);
    layer.put(id, mark)
}

/// The annotation of an item with the new IDs in place of those that it names.
fn taken_mark(
    alloc: Global,
    snapshot: &Snapshot,
    all: &[BTreeMap<u64, Option<AnnId>>],
    one: NumberedEntry,
) -> Result<Option<Mark>, Memory>
    ensures mark { IfOk result (λ mark. option_map (λ m. (one.id, m)) mark ≡ taken_at snapshot.now all.now one) }
    ensures fits { IfOk result (λ mark. IfSome mark (λ m. is_of_kind (letter_of_entry one.entry) m ≡ true)) }
{
    let item = one.entry.item;
    let Some(layer) = snapshot.layer(u32::from(item.holder)) else {
        return Ok(None);
    };
    let Some(names) = all.get(item.holder as usize) else {
        return Ok(None);
    };
    renamed_mark(alloc, names, layer, item.id)
}

/// The annotations of the items.
fn taken_layer(
    alloc: Global,
    snapshot: &Snapshot,
    all: &[BTreeMap<u64, Option<AnnId>>],
    numbered: &[NumberedEntry],
) -> Result<Layer, Memory>
    requires { All (λ one. one.id.kind ≡ letter_of_entry one.entry) numbered.now }
    ensures { IfOk result (λ layer. layer ≡ fold (λ layer entry. with_mark layer entry.0 entry.1) no_marks (filter_map (taken_at snapshot.now all.now) numbered.now)) }
{
    let mut layer = Layer::new(alloc);
    for one in numbered {
        if let Some(mark) = taken_mark(alloc, snapshot, all, *one)? {
            put_over(&mut layer, one.id, mark)?;
        }
    }
    Ok(layer)
}

/// Adds the classes whose members are all in.
fn join_classes(
    alloc: Global,
    layer: &mut Layer,
    names: &BTreeMap<u64, Option<AnnId>>,
    classes: &[Class],
) -> Result<(), Memory>
    requires some { All (λ class. 0 < length class.members) classes.now }
    requires few { length classes.now ≤ 4294967295 }
    requires none { layer.old.classes ≡ [] }
    ensures { OnOk result (layer.new ≡ with_classes layer.old (fold (λ classes class. joined class.kind class.members classes) [] (filter_map (class_at names.now) classes.now))) }
{
    for class in classes {
        if let Some(members) = all_new(alloc, names, class.members.items())? {
            layer.join(class.kind, IdList::from_vec(members))?;
        }
    }
    Ok(())
}

/// The curated layer of a snapshot whose contents are compared.
pub(crate) fn curated_in(
    alloc: Global,
    snapshot: &Snapshot,
    merged: &Merged,
    decisions: &Decisions,
) -> Result<Layer, Memory>
    requires { IsMerged merged.now snapshot.now }
    ensures { IfOk result (λ layer. layer ≡ curated (readings snapshot.now) decisions.now) }
{
    let _holders = snapshot.count();
    let entries = entries_in(alloc, merged, decisions)?;
    let items = numbered(alloc, entries.as_slice())?;
    let ids = ids_by_place(alloc, items.as_slice(), merged.table.count())?;
    let all = all_names(alloc, merged.rows.as_slice(), ids.as_slice())?;
    let mut layer = taken_layer(alloc, snapshot, all.as_slice(), items.as_slice())?;
    join_classes(alloc, &mut layer, &all[0], merged.classes.as_slice())?;
    Ok(layer)
}

impl Decisions {
    /// The curated layer: the items that are in, numbered anew, each letter from 1 in the order of items, `M` as
    /// `A`, and the unanimous classes whose members are all in. The snapshot's layers are well-formed. Cost: the
    /// annotations of the snapshot, each as a look-up in an ordered map, and the items, each as a look-up among
    /// the decisions.
    pub fn curated(&self, snapshot: &Snapshot) -> Result<Layer, Memory>
        requires { AreCoherent snapshot.now }
        ensures { IfOk result (λ layer. layer ≡ curated (readings snapshot.now) self.now) }
    {
        let alloc = self.allocator();
        let merged = Merged::of(alloc, snapshot)?;
        curated_in(alloc, snapshot, &merged, self)
    }
}

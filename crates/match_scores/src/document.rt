//! The layers that stand on one document.
ghost use Rattle.std.specs.Prelude.{◌≡◌, ℕ, ◌+◌, ◌*◌, ◌<◌, ◌≤◌, ◌^◌, length, min, nat_lt, set, replicate, sum_by, Option, Some, None, is_some, IfOk, IfSome, OnOk, OnErr};
ghost use Rattle.layer_model.specs.Coherent.{IsCoherent};
ghost use Rattle.content_keys.specs.Tables.{Starts};
ghost use Rattle.match_scores.specs.declared.sort.Sort.{Sort};
ghost use Rattle.match_scores.specs.Matches.{Part, matched};
ghost use Rattle.match_scores.specs.Standing.{layer_of};
ghost use Rattle.match_scores.specs.Places.{AreCoherent, AreMarked, IsFew, IsMarked, contents_standing, size_of};
ghost use Rattle.match_scores.specs.Counted.{Shifts};
ghost use Rattle.match_scores.specs.Tallies.{IsSquare, cell};

use crate::layer_in_table::{Marks, marks_of};
use crate::tally::Tallies;
use crate::totals::seat;
use content_keys::ContentTable;
use layer_model::Layer;
use mark_base::Memory;
use std::alloc::Global;
use std::marker::Model;

/// The layers that stand on one document, by rater. A contract sees these alone. Their contents share a
/// table, in which each has a place.
#[derive(Drop)]
pub(crate) struct Document {
    layers: Vec<Option<Layer>>,
    table: ContentTable,
    marks: Vec<Option<Marks>>,
}

impl Model for Document {
    ghost use Rattle.std.specs.Prelude.{List, Option};
    ghost use Rattle.std.specs.Coded.{coded_list, coded_option};
    ghost use Rattle.layer_model.specs.Annotations.{Annotations, annotations_code};
    ghost use Rattle.match_scores.specs.Places.{AreMarked};

    ghost Value = { List (Option Annotations) };

    ghost coded = { coded_list (coded_option annotations_code) };

    ghost view = { λ document. document.layers.items };

    ghost invariant = { λ document. AreMarked document.table document.layers.items document.marks.items };
}

/// A list of nothing for each rater.
fn vacant<T: Drop>(alloc: Global, raters: u8) -> Result<Vec<Option<T>>, Memory>
    ensures { IfOk result (λ places. places.items ≡ replicate raters None) }
{
    let mut places: Vec<Option<T>> = Vec::new(alloc);
    for _ in 0..raters {
        places.push(None)?;
    }
    Ok(places)
}

/// Places a layer, or none, in a table.
fn marks_of_one(
    alloc: Global,
    layer: &Option<Layer>,
    table: &mut ContentTable,
) -> Result<Option<Marks>, Memory>
    requires { IfSome layer.now IsCoherent }
    ensures marks { IfOk result (λ marks. IsMarked table.new layer.now marks) }
    ensures grown { Starts table.old table.new }
{
    match layer {
        None => Ok(None),
        Some(layer) => {
            let marks = marks_of(alloc, layer, table)?;
            Ok(Some(marks))
        }
    }
}

/// Places these layers in a table.
fn marks_of_each(
    alloc: Global,
    layers: &[Option<Layer>],
    table: &mut ContentTable,
) -> Result<Vec<Option<Marks>>, Memory>
    requires { AreCoherent layers.now }
    ensures { IfOk result (λ marks. AreMarked table.new layers.now marks.items) }
{
    let mut marks: Vec<Option<Marks>> = Vec::new(alloc);
    for layer in layers {
        let placed = marks_of_one(alloc, layer, table)?;
        marks.push(placed)?;
    }
    Ok(marks)
}

/// Twice the contents of these layers, and 128 more; or the greatest number of the type, where they are more than that.
fn roomy_count(marks: &[Option<Marks>]) -> usize
    ensures { result ≡ min (2 * sum_by size_of marks.now + 128) 18446744073709551615 }
{
    let mut most: usize = 128;
    for one in marks {
        if let Some(one) = one {
            most = most.saturating_add(one.size).saturating_add(one.size);
        }
    }
    most
}

impl Document {
    /// A document without layers.
    pub(crate) fn new(alloc: Global, raters: u8) -> Result<Document, Memory>
        ensures { IfOk result (λ document. document ≡ replicate raters None) }
    {
        let layers = vacant(alloc, raters)?;
        let marks = vacant(alloc, raters)?;
        Ok(Document {
            layers,
            table: ContentTable::new(alloc),
            marks,
        })
    }

    /// Whether so many contents are more than twice those of the layers that stand, and 128 more.
    fn is_crowded(&self, contents: usize) -> bool
        ensures { result ≡ nat_lt (2 * contents_standing self.now + 128) contents }
    {
        contents > roomy_count(self.marks.as_slice())
    }

    /// Lets go of contents that no layer has any more: makes the table anew of those that stand. Want of
    /// memory leaves all as it was. Cost: 20 look-ups for each annotation of the document.
    fn renew(&mut self, alloc: Global) -> Result<(), Memory>
        ensures { self.new ≡ self.old }
    {
        let mut table = ContentTable::new(alloc);
        let marks = marks_of_each(alloc, self.layers.as_slice(), &mut table)?;
        self.table = table;
        self.marks = marks;
        Ok(())
    }

    /// Lets go of contents that no layer has any more, where the table has more than twice those that stand.
    fn make_room(&mut self, alloc: Global) -> Result<(), Memory>
        ensures { self.new ≡ self.old }
    {
        if self.is_crowded(self.table.count()) {
            return self.renew(alloc);
        }
        Ok(())
    }

    /// Puts a rater's layer in the place of the one that stood, and changes the counts by the difference.
    pub(crate) fn post(
        &mut self,
        alloc: Global,
        totals: &mut [Tallies],
        raters: u8,
        rater: u8,
        layer: &Layer,
    ) -> Result<(), Memory>
        requires square { IsSquare raters totals.old }
        requires rater_in { rater < raters }
        requires long { length self.old ≡ raters }
        requires whole { IsCoherent layer.now }
        requires enough { (a b : ℕ) (sort : Sort) (part : Part) → a < b → b < raters → matched sort part (layer_of self.old a) (layer_of self.old b) ≤ cell raters totals.old a b sort part }
        requires room { (a b : ℕ) (sort : Sort) (part : Part) → a < b → b < raters → IsFew layer.now → cell raters totals.old a b sort part + matched sort part (layer_of (set self.old rater (Some layer.now)) a) (layer_of (set self.old rater (Some layer.now)) b) < 2 ^ 64 }
        ensures ok { OnOk result (self.new ≡ set self.old rater (Some layer.now)) }
        ensures err { OnErr result (self.new ≡ self.old) }
        ensures few { OnOk result (IsFew layer.now) }
        ensures shifts { Shifts raters totals.old totals.new self.old self.new }
    {
        let copy = layer.copy()?;
        self.make_room(alloc)?;
        let marks = marks_of(alloc, layer, &mut self.table)?;
        self.table.differ();
        seat(
            totals,
            raters,
            rater,
            self.marks.as_mut_slice(),
            Some(marks),
        );
        self.layers[rater as usize] = Some(copy);
        Ok(())
    }

    /// Takes a rater's layer off, and says whether one stood.
    pub(crate) fn withdraw(&mut self, totals: &mut [Tallies], raters: u8, rater: u8) -> bool
        requires square { IsSquare raters totals.old }
        requires rater_in { rater < raters }
        requires long { length self.old ≡ raters }
        requires enough { (a b : ℕ) (sort : Sort) (part : Part) → a < b → b < raters → matched sort part (layer_of self.old a) (layer_of self.old b) ≤ cell raters totals.old a b sort part }
        requires room { (a b : ℕ) (sort : Sort) (part : Part) → a < b → b < raters → cell raters totals.old a b sort part + matched sort part (layer_of (set self.old rater None) a) (layer_of (set self.old rater None) b) < 2 ^ 64 }
        ensures stood { result ≡ is_some (layer_of self.old rater) }
        ensures gone { self.new ≡ set self.old rater None }
        ensures shifts { Shifts raters totals.old totals.new self.old self.new }
    {
        self.table.differ();
        seat(totals, raters, rater, self.marks.as_mut_slice(), None);
        self.layers[rater as usize].take().is_some()
    }
}

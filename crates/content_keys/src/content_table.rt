//! The contents of several layers in one table.
ghost use Rattle.std.specs.Prelude.{◌≡◌, ◌++◌, ◌+◌, ◌≤◌, ℕ, ◌<◌, [], length, map, All, IfOk, slice_index};
ghost use Rattle.layer_model.specs.Coherent.{IsCoherent};
ghost use Rattle.content_keys.specs.LayerContents.{class_contents_of, contents_of};
ghost use Rattle.content_keys.specs.Nodes.{IsIn};
ghost use Rattle.content_keys.specs.Places.{contents_at};
ghost use Rattle.content_keys.specs.Tables.{AddsOnly, Starts};

use crate::placed_layer::{PlacedLayer, layer_placed_in};
use crate::table::Table;
use layer_model::Layer;
use mark_base::Memory;
use std::alloc::Global;
use std::marker::Model;

/// The contents of layers, each once, by their places from 0. Layers that share a table are compared
/// place by place: two annotations have the same content exactly where they have the same place.
#[derive(Drop)]
pub struct ContentTable {
    table: Table,
}

impl Model for ContentTable {
    ghost use Rattle.std.specs.Prelude.{List, ℕ};
    ghost use Rattle.content_keys.specs.Tables.{values};

    ghost Value = { List ℕ };

    ghost view = { λ contents. values contents.table };
}

impl ContentTable {
    /// A table with no contents.
    pub fn new(alloc: Global) -> ContentTable
        ensures { result ≡ [] }
    {
        ContentTable {
            table: Table::new(alloc),
        }
    }

    /// How many contents the table has.
    pub fn count(&self) -> usize
        ensures { result ≡ length self.now }
    {
        self.table.count()
    }

    /// The places of the annotations of a well-formed layer that have a content, and of its classes.
    /// Contents that the table lacks are added behind its others, which keep their places, and none but those of
    /// the layer, also where memory is wanting. A table of 4,294,967,295 contents takes no more, and answers want
    /// of memory. So a table that is made anew of some layers has their contents and no others.
    /// Cost: 20 look-ups for each annotation, one for each class.
    pub fn place(&mut self, layer: &Layer) -> Result<PlacedLayer, Memory>
        requires { IsCoherent layer.now }
        ensures contents { IfOk result (λ placed. contents_at self.new placed.marks.items ≡ contents_of layer.now) }
        ensures classes { IfOk result (λ placed. map (slice_index self.new) placed.classes.items ≡ class_contents_of layer.now) }
        ensures within { IfOk result (λ placed. All (λ p. p.place < length self.new) placed.marks.items) }
        ensures classes_within { IfOk result (λ placed. All (λ place. place < length self.new) placed.classes.items) }
        ensures grown { Starts self.old self.new }
        ensures only { AddsOnly (λ content. IsIn content (map (λ entry. entry.1) (contents_of layer.now) ++ class_contents_of layer.now)) self.old self.new }
        ensures few { length self.new ≤ length self.old + (length (contents_of layer.now) + length (class_contents_of layer.now)) }
    {
        let alloc = self.table.allocator();
        let placed = layer_placed_in(alloc, layer, &mut self.table);
        self.table.is_table();
        placed
    }

    /// Tells a proof that no content has two places. It does nothing.
    pub fn differ(&self)
        ensures { (i j : ℕ) → i < length self.now → j < length self.now → slice_index self.now i ≡ slice_index self.now j → i ≡ j }
    {
        self.table.is_table();
    }
}

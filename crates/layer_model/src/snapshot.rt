//! A snapshot.
ghost use Rattle.std.specs.Prelude.{◌≡◌, length, map, slice_get};
ghost use Rattle.std.specs.Arc.{arc_value};
ghost use Rattle.std.specs.Option.{option_copied, option_map};
ghost use Rattle.layer_model.specs.Snapshots.{AreHolders, row_of};

use crate::layer::Layer;
use mark_base::Slug;
use std::marker::Model;
use std::sync::Arc;

/// The finished layers of one text at one moment, by the names of their holders, for a curator to
/// compare (WebAnno user guide, "Curation"). There are 2 to 16 of them, and the names strictly ascend.
#[derive(Debug, Drop)]
pub struct Snapshot {
    rows: Vec<(Slug, Arc<Layer>)>,
}

impl Model for Snapshot {
    ghost use Rattle.std.specs.Prelude.{List, ℕ, map};
    ghost use Rattle.std.specs.Coded.{coded×, coded_ℕ, coded_list};
    ghost use Rattle.layer_model.specs.Annotations.{Annotations, annotations_code};
    ghost use Rattle.layer_model.specs.Snapshots.{AreHolders, row_of};

    ghost Value = { List (List ℕ × Annotations) };

    ghost coded = { coded_list (coded× (coded_list coded_ℕ) annotations_code) };

    ghost view = { λ snapshot. map row_of snapshot.rows.items };

    ghost invariant = { λ snapshot. AreHolders (map row_of snapshot.rows.items) };
}

impl Snapshot {
    /// The snapshot of these layers.
    pub fn of(rows: Vec<(Slug, Arc<Layer>)>) -> Snapshot
        requires { AreHolders (map row_of rows.items) }
        ensures { result ≡ map row_of rows.items }
    {
        Snapshot { rows }
    }

    /// How many layers there are.
    pub fn count(&self) -> u32
        ensures count { result ≡ length self.now }
        ensures kept { AreHolders self.now }
    {
        self.rows.len() as u32
    }

    /// The name of the holder of this place, counted from 0.
    pub fn holder(&self, i: u32) -> Option<&Slug>
        ensures { option_copied result ≡ option_map (λ row. row.0) (slice_get self.now i) }
    {
        match self.rows.get(i as usize) {
            Some(row) => Some(&row.0),
            None => None,
        }
    }

    /// The layer of the holder of this place, counted from 0.
    pub fn layer(&self, i: u32) -> Option<&Arc<Layer>>
        ensures { option_map (λ layer. arc_value layer.now) result ≡ option_map (λ row. row.1) (slice_get self.now i) }
    {
        match self.rows.get(i as usize) {
            Some(row) => Some(&row.1),
            None => None,
        }
    }
}

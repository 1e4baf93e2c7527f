//! The counterparts of the annotations of a layer in another.
ghost use Rattle.std.specs.Prelude.{◌≡◌, map};
ghost use Rattle.std.specs.List.Sorted.{IsNonDecreasingBy};
ghost use Rattle.layer_model.specs.Classes.{rank};
ghost use Rattle.content_keys.specs.Counterparts.{counterpart_among};
ghost use Rattle.content_keys.specs.Founds.{IsEndBefore, pair_of};

use layer_model::rank;
use mark_base::AnnId;
use std::marker::Model;

/// An annotation and its counterpart.
#[derive(Clone, Copy)]
pub(crate) struct Found {
    pub id: AnnId,
    pub there: Option<AnnId>,
}

/// The counterpart of each annotation of a layer in another layer: the lowest annotation there with the
/// same content.
#[derive(Drop)]
pub struct Counterparts {
    found: Vec<Found>,
}

impl Model for Counterparts {
    ghost use Rattle.std.specs.Prelude.{List, Option, map};
    ghost use Rattle.std.specs.List.Sorted.{IsNonDecreasingBy};
    ghost use Rattle.layer_model.specs.Classes.{rank};
    ghost use Rattle.std.specs.Coded.{coded_list, coded×, coded_option};
    ghost use Rattle.mark_base.specs.declared.ann_id.AnnId.{AnnId};
    ghost use Rattle.mark_base.specs.contracts.ann_id.AnnId as id_row;
    ghost use Rattle.content_keys.specs.Founds.{pair_of};

    ghost Value = { List (AnnId × Option AnnId) };

    ghost coded = { coded_list (coded× id_row.the_row.coded (coded_option id_row.the_row.coded)) };

    ghost view = { λ counterparts. map pair_of counterparts.found.items };

    ghost invariant = { λ counterparts. IsNonDecreasingBy (λ found. rank found.id) counterparts.found.items };
}

/// Where the annotations end that come before an ID. Cost: the logarithm of their number.
fn end_before(found: &[Found], id: AnnId) -> usize
    requires { IsNonDecreasingBy (λ one. rank one.id) found.now }
    ensures { IsEndBefore found.now id result }
{
    let sought = rank(id);
    found.partition_point(|one| rank(one.id) < sought)
}

impl Counterparts {
    /// These counterparts, of annotations that ascend.
    pub(crate) fn of(found: Vec<Found>) -> Counterparts
        requires { IsNonDecreasingBy (λ one. rank one.id) found.items }
        ensures { result ≡ map pair_of found.items }
    {
        Counterparts { found }
    }

    /// The lowest annotation of the other layer with the same content, and None where none has it. A
    /// note, and an ID that this layer does not have, have no counterpart. It takes no memory. Cost: the
    /// logarithm of the number of annotations of this layer.
    pub fn counterpart(&self, id: AnnId) -> Option<AnnId>
        ensures { result ≡ counterpart_among self.now id }
    {
        let sought = rank(id);
        let at = end_before(self.found.as_slice(), id);
        match self.found.get(at) {
            Some(found) if rank(found.id) == sought => found.there,
            _ => None,
        }
    }
}

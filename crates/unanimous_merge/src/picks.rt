//! What all holders of a snapshot have.
ghost use Rattle.std.specs.Prelude.{◌≡◌, IfOk};
ghost use Rattle.unanimous_merge.specs.Rows.{AreCoherent};
ghost use Rattle.unanimous_merge.specs.Unanimous.{picked};

use crate::merged::Merged;
use crate::shared::shared_ids;
use layer_model::{Class, Snapshot};
use mark_base::{AnnId, Memory};
use std::alloc::Global;
use std::marker::Model;

/// The annotations and classes of the first holder's layer that all holders have, whatever their IDs.
#[derive(Debug, Drop)]
pub struct Picks {
    ids: Vec<AnnId>,
    classes: Vec<Class>,
}

impl Model for Picks {
    ghost use Rattle.unanimous_merge.specs.Unanimous.{Picked, picked_code};

    ghost Value = { Picked };

    ghost coded = { picked_code };

    ghost view = { λ picks. record { ids = picks.ids.items; classes = picks.classes.items } };
}

impl Picks {
    /// These annotations and classes.
    pub(crate) fn of(ids: Vec<AnnId>, classes: Vec<Class>) -> Picks
        ensures { result ≡ record { ids = ids.items; classes = classes.items } }
    {
        Picks { ids, classes }
    }

    /// The IDs that the annotations have in the first holder's layer, by letter, then by number.
    pub fn ids(&self) -> &[AnnId]
        ensures { result.now ≡ self.now.ids }
    {
        self.ids.as_slice()
    }

    /// The classes as the first holder's layer has them, in their order there.
    pub fn classes(&self) -> &[Class]
        ensures { result.now ≡ self.now.classes }
    {
        self.classes.as_slice()
    }
}

/// What all holders of a snapshot of well-formed layers have: the annotations of the first holder whose
/// content stands in every layer, and the classes of the first holder whose set of contents is a class of
/// the type in every layer (WebAnno user guide, "Curation"). Cost: 20 look-ups for each annotation.
pub fn unanimous(alloc: Global, snapshot: &Snapshot) -> Result<Picks, Memory>
    requires { AreCoherent snapshot.now }
    ensures { IfOk result (λ picks. picks ≡ picked snapshot.now) }
{
    let _holders = snapshot.count();
    let merged = Merged::of(alloc, snapshot)?;
    let Merged {
        rows,
        marks,
        classes,
        ..
    } = merged;
    let ids = shared_ids(alloc, rows[0].marks.as_slice(), marks.as_slice())?;
    Ok(Picks::of(ids, classes))
}

//! The finished layers of a document.
ghost use Rattle.std.specs.Prelude.{◌≡◌, ◌++◌, IfOk, OnOk, map, not};
ghost use Rattle.std.specs.List.{filter, filter_map, zip};
ghost use Rattle.std.specs.Option.{option_copied};
ghost use Rattle.layer_model.specs.Snapshots.{row_of};
ghost use Rattle.project_machine.specs.ProjectState.{finished_row, finished_rows};
ghost use Rattle.project_state.specs.Lending.{finished_part};

use crate::document::StoredDocument;
use crate::row::StoredRow;
use crate::state::BookState;
use entry_bytes::Person;
use layer_model::Layer;
use mark_base::{Memory, Slug};
use std::alloc::Global;
use std::sync::Arc;

/// Adds the layer of a row by its holder, where there is one that is finished.
fn push_finished(
    layers: &mut Vec<(Slug, Arc<Layer>)>,
    holder: &Slug,
    row: Option<&StoredRow>,
) -> Result<(), Memory>
    ensures { OnOk result (map row_of layers.new.items ≡ map row_of layers.old.items ++ finished_part holder.now (option_copied row.entry)) }
{
    let Some(row) = row else {
        return Ok(());
    };
    if row.is_finished() {
        let layer = row.layer().clone()?;
        layers.push((holder.copy()?, layer))?;
    }
    Ok(())
}

/// The finished layers of a document by the names of the annotators among some people.
fn finished_of(
    alloc: Global,
    people: &[Person],
    document: &StoredDocument,
) -> Result<Vec<(Slug, Arc<Layer>)>, Memory>
    ensures { IfOk result (λ layers. map row_of layers.items ≡ filter_map finished_row (zip (map (λ person. person.name) (filter (λ person. not person.curator) people.now)) document.now.rows)) }
{
    let mut layers = Vec::new(alloc);
    let mut rater = 0;
    for person in people {
        if !person.curator {
            push_finished(&mut layers, &person.name, document.row(rater))?;
            rater += 1;
        }
    }
    Ok(layers)
}

impl BookState {
    /// The finished layers of a document, by their holders in the order of their names, ignored ones too. Layers are
    /// shared, not copied. Cost: the people.
    #[tactic(auto, using(crate::proofs::StoredLemmas::none_finished_there))]
    pub fn finished_layers(
        &self,
        alloc: Global,
        doc: usize,
    ) -> Result<Vec<(Slug, Arc<Layer>)>, Memory>
        ensures { IfOk result (λ layers. map row_of layers.items ≡ finished_rows self.now.state doc) }
    {
        match self.document_at(doc) {
            Some(document) => finished_of(alloc, self.roster().people(), document),
            None => Ok(Vec::new(alloc)),
        }
    }
}

//! A layer by the places of its contents in a table.
ghost use Rattle.std.specs.Prelude.{◌≡◌, IfOk};
ghost use Rattle.layer_model.specs.Coherent.{IsCoherent};
ghost use Rattle.content_keys.specs.Tables.{Starts};
ghost use Rattle.match_scores.specs.declared.sort.Sort.{Sort};
ghost use Rattle.match_scores.specs.Matches.{Part};
ghost use Rattle.match_scores.specs.Places.{AreMarks, IsFew, met};
ghost use Rattle.match_scores.specs.Tallies.{read};

use crate::places::Places;
use crate::sort::Sort;
use crate::tally::Tallies;
use content_keys::ContentTable;
use layer_model::Layer;
use mark_base::{Kind, Memory};
use std::alloc::Global;

/// The places of the annotations of each sort in a layer, and how many contents of any sort it has.
#[derive(Drop)]
pub(crate) struct Marks {
    pub spans: Places,
    pub events: Places,
    pub relations: Places,
    pub size: usize,
}

/// Tells a proof that a layer has few annotations. It does nothing but count.
fn is_few(layer: &Layer)
    ensures { IsFew layer.now }
{
    let _spans = layer.count(Kind::Text);
    let _events = layer.count(Kind::Event);
    let _relations = layer.count(Kind::Relation);
    let _attributes = layer.count(Kind::Attribute);
    let _legacy = layer.count(Kind::Legacy);
    let _normals = layer.count(Kind::Normal);
}

/// Places the contents of a layer in a table. Cost: 20 look-ups for each annotation, and the table.
pub(crate) fn marks_of(
    alloc: Global,
    layer: &Layer,
    table: &mut ContentTable,
) -> Result<Marks, Memory>
    requires { IsCoherent layer.now }
    ensures marks { IfOk result (λ marks. AreMarks table.new layer.now marks) }
    ensures grown { Starts table.old table.new }
{
    is_few(layer);
    let placed = table.place(layer)?;
    let count = table.count();
    let marks = placed.marks.as_slice();
    let spans = Places::of(alloc, marks, Sort::Spans, count)?;
    let events = Places::of(alloc, marks, Sort::Events, count)?;
    let relations = Places::of(alloc, marks, Sort::Relations, count)?;
    Ok(Marks {
        spans,
        events,
        relations,
        size: marks.len().saturating_add(placed.classes.len()),
    })
}

/// What two layers have in common. Cost: both.
pub(crate) fn tallies_of(first: &Option<Marks>, second: &Option<Marks>) -> Tallies
    ensures { (sort : Sort) (part : Part) → read result sort part ≡ met sort part first.now second.now }
{
    match (first, second) {
        (Some(first), Some(second)) => Tallies {
            spans: first.spans.tally(&second.spans),
            events: first.events.tally(&second.events),
            relations: first.relations.tally(&second.relations),
        },
        _ => Tallies::NONE,
    }
}

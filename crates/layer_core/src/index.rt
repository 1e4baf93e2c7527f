//! The index of a layer: who names whom, and where spans lie.
ghost use Rattle.std.specs.Prelude.{◌≡◌, ◌==◌, ◌++◌, ℕ, map, if◌then◌else◌, ◌∷◌, [], IfOk, OnOk, None, Some};
ghost use Rattle.std.specs.FinMap as finite;
ghost use Rattle.layer_model.specs.declared.mark.Mark.{Mark};
ghost use Rattle.layer_model.specs.Classes.{rank};
ghost use Rattle.layer_rules.specs.MarkRules.{named_by};
ghost use Rattle.layer_rules.specs.LowestFlaw.{HasGoodSpans};
ghost use Rattle.conf_model.specs.Configurations.{Configuration};
ghost use Rattle.layer_core.specs.Namers.{is_but, namers_but};
ghost use Rattle.layer_core.specs.Indexes.{frags_at, HasPairs, HoldsAgain, HoldsNamers, HoldsSpans, id_of_place, is_namer, IsIndex, KeepsOthers, KeepsPairs, letter_at, named_at, namer_at};

use crate::first_annotation::names;
use layer_model::{Event, Layer, Mark, Relation, id_at, ids_of, rank};
use layer_rules::is_id;
use mark_base::{AnnId, Arg, Kind, Memory};
use overlap_rules::SpanIndex;
use std::alloc::Global;
use std::collections::BTreeSet;

/// How many places each letter has among those of all IDs.
const NUMBERS: u64 = 1_000_000_000;

/// Who names whom, and where spans lie. The first number of a pair is the place of an ID among all IDs, the
/// second that of an annotation that names it. What does not name it any more may stand there too.
#[derive(Drop)]
pub(crate) struct Index {
    alloc: Global,
    pub namers: BTreeSet<(u64, u64)>,
    pub spans: SpanIndex,
}

impl Index {
    /// The index of a layer whose spans have fragments in order that do not reach too far. Cost: what the
    /// annotations name and the fragments of the spans, times the logarithm of their number.
    pub(crate) fn of(alloc: Global, layer: &Layer) -> Result<Index, Memory>
        requires { (conf : Configuration) × HasGoodSpans conf layer.now }
        ensures { IfOk result (IsIndex None layer.now) }
    {
        let namers = pairs_of(alloc, layer)?;
        let spans = spans_of(alloc, layer)?;
        Ok(Index {
            alloc,
            namers,
            spans,
        })
    }

    /// The annotations that name the one of an ID, ascending, but the one that is left out. Cost: their number
    /// and what they name, and the logarithm of the number of names.
    pub(crate) fn namers(
        &self,
        alloc: Global,
        layer: &Layer,
        but: Option<AnnId>,
        id: AnnId,
    ) -> Result<Vec<AnnId>, Memory>
        requires { IsIndex but layer.now self.now }
        ensures { IfOk result (λ ids. ids.items ≡ namers_but but layer.now id) }
    {
        layer.keeps();
        let mut ids = Vec::new(alloc);
        let named = rank(id);
        for (_, place) in self.namers.range((named, 0)..(named + 1, 0)) {
            push_namer(&mut ids, layer, but, id, *place)?;
        }
        Ok(ids)
    }

    /// Takes in what stands under an ID of a layer now, or that nothing does, where this stood there before.
    /// After want of memory the index is of no use. Cost: what both name and their fragments, times the
    /// logarithm of the number of names.
    pub(crate) fn take_in(
        &mut self,
        layer: &Layer,
        id: AnnId,
        before: &Option<Mark>,
    ) -> Result<(), Memory>
        requires good { (conf : Configuration) × HasGoodSpans conf layer.now }
        requires index { IsIndex (Some id) layer.now self.old }
        ensures { OnOk result (IsIndex None layer.now self.new) }
    {
        take_in_span(&mut self.spans, layer, id)?;
        take_before(self.alloc, &mut self.namers, rank(id), before)?;
        put_named(self.alloc, &mut self.namers, layer, id)?;
        Ok(())
    }
}

/// The letter of a place among T, E, R, A, M, N and #, from 0.
fn letter_at(place: u64) -> Option<Kind>
    ensures { result ≡ letter_at place }
{
    match place {
        0 => Some(Kind::Text),
        1 => Some(Kind::Event),
        2 => Some(Kind::Relation),
        3 => Some(Kind::Attribute),
        4 => Some(Kind::Legacy),
        5 => Some(Kind::Normal),
        6 => Some(Kind::Note),
        _ => None,
    }
}

/// The ID of a place among all IDs.
fn id_of_place(place: u64) -> Option<AnnId>
    ensures { result ≡ id_of_place place }
{
    match letter_at(place / NUMBERS) {
        Some(kind) => Some(id_at(kind, (place % NUMBERS) as u32)),
        None => None,
    }
}

/// Whether an ID is the one that is left out.
fn is_but(but: Option<AnnId>, other: AnnId) -> bool
    ensures { result ≡ is_but but other }
{
    match but {
        Some(id) => is_id(id, other),
        None => false,
    }
}

/// Whether an annotation is not the one that is left out, and names the one of an ID. Cost: what it names.
fn is_namer(layer: &Layer, but: Option<AnnId>, id: AnnId, other: AnnId) -> bool
    ensures { result ≡ is_namer but layer.now id other }
{
    !is_but(but, other) && names(layer, other, id)
}

/// Appends the annotation of a place, where it names the one of an ID and is not left out.
fn push_namer(
    ids: &mut Vec<AnnId>,
    layer: &Layer,
    but: Option<AnnId>,
    id: AnnId,
    place: u64,
) -> Result<(), Memory>
    ensures { OnOk result (ids.new.items ≡ ids.old.items ++ namer_at but layer.now id place) }
{
    if let Some(other) = id_of_place(place) {
        if is_namer(layer, but, id, other) {
            ids.push(other)?;
        }
    }
    Ok(())
}

/// Appends what arguments lead to.
fn push_targets(ids: &mut Vec<AnnId>, args: &[Arg]) -> Result<(), Memory>
    ensures { OnOk result (ids.new.items ≡ ids.old.items ++ map (λ arg. arg.target) args.now) }
{
    for arg in args {
        ids.push(arg.target)?;
    }
    Ok(())
}

/// One ID alone.
fn only(alloc: Global, id: AnnId) -> Result<Vec<AnnId>, Memory>
    ensures { IfOk result (λ ids. ids.items ≡ id ∷ []) }
{
    let mut ids = Vec::new(alloc);
    ids.push(id)?;
    Ok(ids)
}

/// The IDs that an event names.
fn named_by_event(alloc: Global, event: &Event) -> Result<Vec<AnnId>, Memory>
    ensures { IfOk result (λ ids. ids.items ≡ named_by (Mark.Event event.now)) }
{
    let mut ids = only(alloc, id_at(Kind::Text, event.trigger))?;
    push_targets(&mut ids, event.args.items())?;
    Ok(ids)
}

/// The IDs that a relation names.
fn named_by_relation(alloc: Global, relation: &Relation) -> Result<Vec<AnnId>, Memory>
    ensures { IfOk result (λ ids. ids.items ≡ named_by (Mark.Relation relation.now)) }
{
    let mut ids = only(alloc, relation.first)?;
    ids.push(relation.second)?;
    Ok(ids)
}

/// The IDs that an annotation names. Cost: their number.
fn named_by(alloc: Global, mark: &Mark) -> Result<Vec<AnnId>, Memory>
    ensures { IfOk result (λ ids. ids.items ≡ named_by mark.now) }
{
    match mark {
        Mark::Span(_) => Ok(Vec::new(alloc)),
        Mark::Event(event) => Ok(named_by_event(alloc, event)?),
        Mark::Relation(relation) => Ok(named_by_relation(alloc, relation)?),
        Mark::Attribute(attribute) => Ok(only(alloc, attribute.target)?),
        Mark::Normal(normal) => Ok(only(alloc, normal.target)?),
        Mark::Note(note) => Ok(only(alloc, note.target)?),
    }
}

/// The IDs that the annotation of an ID names, where it is there. Cost: their number, and a look-up in an
/// ordered map.
fn named_at(alloc: Global, layer: &Layer, id: AnnId) -> Result<Vec<AnnId>, Memory>
    ensures { IfOk result (λ ids. ids.items ≡ named_at layer.now id) }
{
    match id.kind {
        Kind::Text => Ok(Vec::new(alloc)),
        Kind::Event => match layer.event(id.number) {
            Some(event) => Ok(named_by_event(alloc, event)?),
            None => Ok(Vec::new(alloc)),
        },
        Kind::Relation => match layer.relation(id.number) {
            Some(relation) => Ok(named_by_relation(alloc, relation)?),
            None => Ok(Vec::new(alloc)),
        },
        Kind::Attribute | Kind::Legacy => match layer.attribute(id) {
            Some(attribute) => Ok(only(alloc, attribute.target)?),
            None => Ok(Vec::new(alloc)),
        },
        Kind::Normal => match layer.normal(id.number) {
            Some(normal) => Ok(only(alloc, normal.target)?),
            None => Ok(Vec::new(alloc)),
        },
        Kind::Note => match layer.note(id.number) {
            Some(note) => Ok(only(alloc, note.target)?),
            None => Ok(Vec::new(alloc)),
        },
    }
}

/// Puts a pair of each of some IDs with the place of what names it. On want of memory some may be put.
fn put_pairs(pairs: &mut BTreeSet<(u64, u64)>, namer: u64, ids: &[AnnId]) -> Result<(), Memory>
    ensures all { OnOk result (HasPairs pairs.new namer ids.now) }
    ensures kept { KeepsPairs pairs.old pairs.new }
{
    for id in ids {
        pairs.insert((rank(*id), namer))?;
    }
    Ok(())
}

/// Takes away the pairs of some IDs with the place of what names them.
fn take_pairs(pairs: &mut BTreeSet<(u64, u64)>, namer: u64, ids: &[AnnId])
    ensures { KeepsOthers namer pairs.old pairs.new }
{
    for id in ids {
        pairs.remove(&(rank(*id), namer));
    }
}

/// Takes away the pairs of what an annotation named before. Cost: their number, times the logarithm of the
/// number of pairs.
fn take_before(
    alloc: Global,
    pairs: &mut BTreeSet<(u64, u64)>,
    namer: u64,
    before: &Option<Mark>,
) -> Result<(), Memory>
    ensures { KeepsOthers namer pairs.old pairs.new }
{
    if let Some(mark) = before {
        let ids = named_by(alloc, mark)?;
        take_pairs(pairs, namer, &ids);
    }
    Ok(())
}

/// Puts the pairs of what the annotation of an ID names. Cost: their number, times the logarithm of the
/// number of pairs.
fn put_named(
    alloc: Global,
    pairs: &mut BTreeSet<(u64, u64)>,
    layer: &Layer,
    id: AnnId,
) -> Result<(), Memory>
    ensures all { OnOk result (HasPairs pairs.new (rank id) (named_at layer.now id)) }
    ensures kept { KeepsPairs pairs.old pairs.new }
{
    let ids = named_at(alloc, layer, id)?;
    put_pairs(pairs, rank(id), &ids)?;
    Ok(())
}

/// The pairs of all annotations of a layer with what they name.
fn pairs_of(alloc: Global, layer: &Layer) -> Result<BTreeSet<(u64, u64)>, Memory>
    ensures { IfOk result (HoldsNamers None layer.now) }
{
    let mut pairs = BTreeSet::new(alloc);
    let ids = ids_of(alloc, layer)?;
    for id in &ids {
        put_named(alloc, &mut pairs, layer, *id)?;
    }
    Ok(pairs)
}

/// The spans of a layer.
fn spans_of(alloc: Global, layer: &Layer) -> Result<SpanIndex, Memory>
    requires { (conf : Configuration) × HasGoodSpans conf layer.now }
    ensures { IfOk result (HoldsSpans layer.now) }
{
    let mut spans = SpanIndex::new(alloc);
    for (number, span) in layer.spans() {
        spans.put(*number, span.frags.items())?;
    }
    Ok(spans)
}

/// Holds the span of a number as it stands in a layer, or none where none does.
fn hold_again(spans: &mut SpanIndex, layer: &Layer, number: u32) -> Result<(), Memory>
    requires { (conf : Configuration) × HasGoodSpans conf layer.now }
    ensures { OnOk result ((n : ℕ) → finite.get spans.new n ≡ (if number == n then frags_at layer.now n else finite.get spans.old n)) }
{
    spans.take(number);
    match layer.span(number) {
        Some(span) => {
            spans.put(number, span.frags.items())?;
            Ok(())
        }
        None => Ok(()),
    }
}

/// Takes in the span of an ID, where the letter is that of spans.
fn take_in_span(spans: &mut SpanIndex, layer: &Layer, id: AnnId) -> Result<(), Memory>
    requires { (conf : Configuration) × HasGoodSpans conf layer.now }
    ensures { OnOk result (HoldsAgain layer.now id spans.old spans.new) }
{
    match id.kind {
        Kind::Text => {
            hold_again(spans, layer, id.number)?;
            Ok(())
        }
        _ => Ok(()),
    }
}

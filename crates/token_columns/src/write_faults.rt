//! What is at fault with a layer that does not fit columns.
ghost use Rattle.std.specs.Prelude.{◌≡◌, ◌+◌, ◌==◌, ◌&&◌, ◌<◌, ◌^◌, find, length, map, not, option_map, IfOk};
ghost use Rattle.std.specs.List.{list_any};
ghost use Rattle.char_documents.specs.Tokens.{tokens_of};
ghost use Rattle.layer_model.specs.Coherent.{is_span_letter};
ghost use Rattle.layer_model.specs.LayerIds.{ids_of};
ghost use Rattle.layer_rules.specs.WellFormed.{IsWellFormed};
ghost use Rattle.token_columns.specs.Fits.{place_of};
ghost use Rattle.token_columns.specs.Labels.{spans_of};
ghost use Rattle.token_columns.specs.WriteFaults.{class_there, earlier, fragmented, is_misnumbered, misnumbered, other_there, out_fault, span_id, unaligned};
ghost use Rattle.token_columns.specs.WriteRuns.{Rises, is_ordered, meet, meets_lower};

use crate::column_fault::ColumnOut;
use crate::run::{Placed, Run};
use char_documents::Doc;
use conf_model::Conf;
use layer_model::{Layer, id_at, ids_of};
use mark_base::{AnnId, Frag, Kind, Memory};
use std::alloc::{AllocError, Global};

/// The ID of a span.
fn span_id(span: Placed) -> AnnId
    ensures { result ≡ span_id span }
{
    id_at(Kind::Text, span.number)
}

/// Whether an ID is that of a span.
fn is_span(id: AnnId) -> bool
    ensures { result ≡ is_span_letter id.kind }
{
    match id.kind {
        Kind::Text => true,
        _ => false,
    }
}

/// The first of some IDs that is of no span.
fn first_other(ids: &[AnnId]) -> Option<AnnId>
    ensures { result ≡ find (λ id. not (is_span_letter id.kind)) ids.now }
{
    for id in ids {
        if !is_span(*id) {
            return Some(*id);
        }
    }
    None
}

/// The lowest annotation that is no span.
fn other_there(alloc: Global, layer: &Layer) -> Result<Option<ColumnOut>, Memory>
    ensures { IfOk result (λ fault. fault ≡ other_there layer.now) }
{
    let ids = ids_of(alloc, layer)?;
    match first_other(&ids) {
        Some(id) => Ok(Some(ColumnOut::OtherThere(id))),
        None => Ok(None),
    }
}

/// Some class.
fn class_there(layer: &Layer) -> Option<ColumnOut>
    ensures { result ≡ class_there layer.now }
{
    if layer.classes().is_empty() {
        None
    } else {
        Some(ColumnOut::ClassThere)
    }
}

/// The lowest span that is not of one fragment.
fn fragmented(spans: &[Placed]) -> Option<ColumnOut>
    ensures { result ≡ fragmented spans.now }
{
    for span in spans {
        if span.pieces != 1 {
            return Some(ColumnOut::Fragmented(span_id(*span)));
        }
    }
    None
}

/// Where tokens start.
fn starts_of(alloc: Global, tokens: &[Frag]) -> Result<Vec<u32>, AllocError>
    ensures { IfOk result (λ starts. starts.items ≡ map (λ token. token.start) tokens.now) }
{
    tokens.iter().map(|token| token.start).collect(alloc)
}

/// Where tokens end.
fn ends_of(alloc: Global, tokens: &[Frag]) -> Result<Vec<u32>, AllocError>
    ensures { IfOk result (λ ends. ends.items ≡ map (λ token. token.end) tokens.now) }
{
    tokens.iter().map(|token| token.end).collect(alloc)
}

/// Whether a place is among places that rise. Cost: the logarithm of their number.
fn is_among(places: &[u32], place: u32) -> bool
    requires { Rises 0 places.now }
    ensures { result ≡ list_any (λ other. other == place) places.now }
{
    places.binary_search(&place).is_ok()
}

/// Whether a span goes from the start of a token to the end of a token.
fn is_aligned(starts: &[u32], ends: &[u32], run: Run) -> bool
    requires starts { Rises 0 starts.now }
    requires ends { Rises 0 ends.now }
    ensures { result ≡ (list_any (λ start. start == run.start) starts.now && list_any (λ end. end == run.end) ends.now) }
{
    is_among(starts, run.start) && is_among(ends, run.end)
}

/// The lowest span that does not go from a token's start to a token's end.
fn unaligned(alloc: Global, doc: &Doc, spans: &[Placed]) -> Result<Option<ColumnOut>, Memory>
    ensures { IfOk result (λ fault. fault ≡ unaligned doc.now spans.now) }
{
    let tokens = doc.tokens();
    let starts = starts_of(alloc, tokens)?;
    let ends = ends_of(alloc, tokens)?;
    for span in spans {
        if !is_aligned(&starts, &ends, span.run) {
            return Ok(Some(ColumnOut::Unaligned(span_id(*span))));
        }
    }
    Ok(None)
}

/// Whether spans rise, none of them empty, and are numbered from 1. Cost: their number.
fn is_ordered(spans: &[Placed]) -> bool
    ensures { result ≡ is_ordered 0 1 spans.now }
{
    let mut low = 0;
    for (place, span) in spans.iter().enumerate() {
        if span.number as usize != place + 1 || span.run.start < low {
            return false;
        }
        if span.run.end <= span.run.start {
            return false;
        }
        low = span.run.end;
    }
    true
}

/// Whether two spans have a character in common.
fn meet(a: Run, b: Run) -> bool
    ensures { result ≡ meet a b }
{
    a.start < b.end && b.start < a.end
}

/// Whether a span has a character in common with one of a lower number.
fn meets_lower(spans: &[Placed], span: Placed) -> bool
    ensures { result ≡ meets_lower spans.now span }
{
    spans.iter().any(|other| other.number < span.number && meet(other.run, span.run))
}

/// The lowest span that has a character in common with a lower one.
fn met(spans: &[Placed]) -> Option<ColumnOut>
    ensures { result ≡ option_map (λ span. ColumnOut.Shared (span_id span)) (find (meets_lower spans.now) spans.now) }
{
    for span in spans {
        if meets_lower(spans, *span) {
            return Some(ColumnOut::Shared(span_id(*span)));
        }
    }
    None
}

/// The place of a span in the order of the starts, from 1.
fn place_of(spans: &[Placed], span: Placed) -> usize
    requires { length spans.now < 2 ^ 62 }
    ensures { result ≡ place_of spans.now span }
{
    spans
        .iter()
        .filter(|other| other.run.start < span.run.start)
        .count()
        + 1
}

/// The one of two spans that starts earlier.
fn earlier(found: Option<Placed>, other: Placed) -> Option<Placed>
    ensures { result ≡ earlier found other }
{
    match found {
        None => Some(other),
        Some(first) => {
            if other.run.start < first.run.start {
                Some(other)
            } else {
                Some(first)
            }
        }
    }
}

/// The first span by start whose number is not its place.
fn misnumbered(spans: &[Placed]) -> Option<ColumnOut>
    requires { length spans.now < 2 ^ 62 }
    ensures { result ≡ misnumbered spans.now }
{
    let mut found = None;
    for span in spans {
        if span.number as usize != place_of(spans, *span) {
            found = earlier(found, *span);
        }
    }
    match found {
        Some(span) => Some(ColumnOut::Numbered(span_id(span))),
        None => None,
    }
}

/// The first fault of a layer that is well-formed for a text, where these are its spans. Cost: the annotations, the
/// tokens, and for each span the logarithm of their number; where the spans are not in their order, also for each
/// span the other spans.
pub(crate) fn out_fault(
    alloc: Global,
    layer: &Layer,
    doc: &Doc,
    conf: &Conf,
    spans: &[Placed],
) -> Result<Option<ColumnOut>, Memory>
    requires well { IsWellFormed conf.now (length doc.now) layer.now }
    requires spans { spans.now ≡ spans_of layer.now }
    ensures { IfOk result (λ fault. fault ≡ out_fault doc.now layer.now) }
{
    layer.keeps();
    if let Some(fault) = other_there(alloc, layer)? {
        return Ok(Some(fault));
    }
    if let Some(fault) = class_there(layer) {
        return Ok(Some(fault));
    }
    if let Some(fault) = fragmented(spans) {
        return Ok(Some(fault));
    }
    let missed = unaligned(alloc, doc, spans)?;
    if let Some(fault) = missed {
        return Ok(Some(fault));
    }
    if is_ordered(spans) {
        return Ok(None);
    }
    if let Some(fault) = met(spans) {
        return Ok(Some(fault));
    }
    Ok(misnumbered(spans))
}

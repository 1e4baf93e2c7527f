//! The labels of tokens by the spans that cover them.
ghost use Rattle.std.specs.Prelude.{◌≡◌, ℕ, ◌<◌, IfOk, length, map, slice_index};
ghost use Rattle.char_documents.specs.Tokens.{tokens_of};
ghost use Rattle.label_tracks.specs.Labels.{labels_of};
ghost use Rattle.label_tracks.specs.Levels.{grouping_of};
ghost use Rattle.label_tracks.specs.Offers.{label_of};

use crate::candidate::Candidate;
use crate::grouping::Groups;
use crate::offers::first_spans;
use crate::row::LabelRow;
use char_documents::Doc;
use conf_model::Conf;
use layer_model::Layer;
use mark_base::Memory;
use std::alloc::Global;

/// The label of what was found for a token.
fn label_of(groups: &Groups, found: Option<Candidate>) -> u8
    ensures { result ≡ label_of groups.now.groups found }
{
    match found {
        Some(first) => groups.group(first.kind),
        None => 0,
    }
}

/// The labels of what was found for the tokens, in their order.
fn labels_by(alloc: Global, groups: &Groups, found: &[Option<Candidate>]) -> Result<Vec<u8>, Memory>
    ensures { IfOk result (λ labels. labels.items ≡ map (label_of groups.now.groups) found.now) }
{
    let mut labels = Vec::with_capacity(alloc, found.len())?;
    for first in found {
        labels.push(label_of(groups, *first))?;
    }
    Ok(labels)
}

/// The labels that a layer gives to the tokens of a document, by the groups of its configuration.
///
/// The label of a token is the group of the type of the first span that covers the token's first
/// character: the one that starts earlier, else ends later, else has the lower type, else the lower
/// number. It is 0 where no span does. Cost: the tokens, and for each fragment those that it covers and
/// the logarithm of their number. It takes sixteen bytes and more a token while it runs.
pub fn row_of(
    alloc: Global,
    layer: &Layer,
    doc: &Doc,
    conf: &Conf,
    groups: &Groups,
) -> Result<LabelRow, Memory>
    requires { groups.now ≡ grouping_of conf.now.types groups.now.level }
    ensures labels { IfOk result (λ row. row ≡ labels_of conf.now.types groups.now.level layer.now doc.now) }
    ensures tokens { IfOk result (λ row. length row ≡ length (tokens_of doc.now)) }
    ensures below { IfOk result (λ row. (i : ℕ) → i < length row → slice_index row i < groups.now.width) }
{
    groups.keeps();
    // A text has at most 200,000 characters, and no more tokens than characters.
    let _most = doc.char_count();
    let found = first_spans(alloc, layer, doc.tokens())?;
    let labels = labels_by(alloc, groups, found.as_slice())?;
    Ok(LabelRow::of(labels))
}

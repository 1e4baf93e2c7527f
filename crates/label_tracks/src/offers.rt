//! The first span that covers each token.
ghost use Rattle.std.specs.Prelude.{◌≡◌, IfOk, None, length, map, replicate};
ghost use Rattle.std.specs.FinMap as finite;
ghost use Rattle.std.specs.List.Sorted.{IsNonDecreasingBy};
ghost use Rattle.overlap_rules.specs.Overlaps.{covers};
ghost use Rattle.label_tracks.specs.Candidates.{first_covering};
ghost use Rattle.label_tracks.specs.Offers.{AreOffered, lies_in};

use crate::candidate::{Candidate, sooner};
use layer_model::Layer;
use mark_base::{Frag, Memory};
use std::alloc::Global;

/// Offers a candidate to the tokens whose first character lies in a fragment. Cost: their number, and
/// the logarithm of the number of tokens.
fn offer_within(tokens: &[Frag], found: &mut [Option<Candidate>], frag: Frag, candidate: Candidate)
    requires same { length found.old ≡ length tokens.now }
    requires ascending { IsNonDecreasingBy (λ token. token.start) tokens.now }
    ensures { AreOffered (lies_in frag) tokens.now candidate found.old found.new }
{
    let from = tokens.partition_point(|token| token.start < frag.start);
    let to = tokens
        .partition_point(|token| token.start < frag.end)
        .max(from);
    for i in from..to {
        found[i] = sooner(found[i], candidate);
    }
}

/// Offers a candidate to the tokens whose first character some fragment covers.
fn offer(tokens: &[Frag], found: &mut [Option<Candidate>], frags: &[Frag], candidate: Candidate)
    requires same { length found.old ≡ length tokens.now }
    requires ascending { IsNonDecreasingBy (λ token. token.start) tokens.now }
    ensures { AreOffered (covers frags.now) tokens.now candidate found.old found.new }
{
    for frag in frags {
        offer_within(tokens, found, *frag, candidate);
    }
}

/// Nothing, for so many tokens.
fn nothing_found(alloc: Global, count: usize) -> Result<Vec<Option<Candidate>>, Memory>
    ensures { IfOk result (λ found. found.items ≡ replicate count None) }
{
    let found = vec![in alloc; None; count]?;
    Ok(found)
}

/// The first span that covers the first character of each token.
pub(crate) fn first_spans(
    alloc: Global,
    layer: &Layer,
    tokens: &[Frag],
) -> Result<Vec<Option<Candidate>>, Memory>
    requires { IsNonDecreasingBy (λ token. token.start) tokens.now }
    ensures { IfOk result (λ found. found.items ≡ map (λ token. first_covering token.start (finite.entries layer.now.spans)) tokens.now) }
{
    layer.keeps();
    let mut found = nothing_found(alloc, tokens.len())?;
    for (number, span) in layer.spans() {
        let candidate = Candidate::of(*number, span);
        offer(tokens, &mut found, span.frags.items(), candidate);
    }
    Ok(found)
}

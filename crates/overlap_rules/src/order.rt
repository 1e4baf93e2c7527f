//! What is asked of the fragments of a span, as tests.
ghost use Rattle.std.specs.Prelude.{◌≡◌};
ghost use Rattle.overlap_rules.specs.Overlaps.{are_ascending, reach};

use mark_base::Frag;

/// Whether no fragment is empty and each starts at or behind the end of the one before it. Cost: their
/// number.
pub fn are_ascending(frags: &[Frag]) -> bool
    ensures { result ≡ are_ascending frags.now }
{
    let mut rest = frags;
    let mut end = 0;
    while let Some((frag, later)) = rest.split_first() {
        if frag.start < end || frag.end <= frag.start {
            return false;
        }
        end = frag.end;
        rest = later;
    }
    true
}

/// How many characters lie between the start of the first fragment and the end of the last: 0 where
/// there is no fragment, or where the last ends before the first starts.
pub fn reach(frags: &[Frag]) -> u32
    ensures { result ≡ reach frags.now }
{
    match (frags.first(), frags.last()) {
        (Some(first), Some(last)) => last.end.saturating_sub(first.start),
        _ => 0,
    }
}

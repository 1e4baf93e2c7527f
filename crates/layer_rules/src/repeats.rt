//! Annotations that stand for the same numbers as one before them.
ghost use Rattle.std.specs.Prelude.{◌≡◌, [], IfOk, map};
ghost use Rattle.layer_rules.specs.Repeats.{repeat_after, shown};

use mark_base::{AnnId, Memory};
use std::alloc::Global;
use std::collections::BTreeMap;

/// An annotation and the numbers that stand for it: two annotations are alike where these are equal.
#[derive(Drop)]
pub(crate) struct KeyedId {
    pub id: AnnId,
    pub key: Vec<u64>,
}

/// Two annotations that are alike: the first of its like, and one that comes again.
#[derive(Clone, Copy)]
pub(crate) struct Repeat {
    pub first: AnnId,
    pub again: AnnId,
}

/// The first annotation that is like one before it. Cost: the numbers of all, times the logarithm of
/// how many annotations there are; no numbers are copied.
pub(crate) fn first_repeat(alloc: Global, all: &[KeyedId]) -> Result<Option<Repeat>, Memory>
    ensures { IfOk result (λ repeat. repeat ≡ repeat_after [] (map shown all.now)) }
{
    let mut seen: BTreeMap<&[u64], AnnId> = BTreeMap::new(alloc);
    for one in all {
        let before = seen.insert(one.key.as_slice(), one.id)?;
        if let Some(first) = before {
            return Ok(Some(Repeat {
                first,
                again: one.id,
            }));
        }
    }
    Ok(None)
}

//! Pairs of a role and an ID, as E and R lines have them.
ghost use Rattle.std.specs.Prelude.{◌≡◌, map, IfOk, option_map};
ghost use Rattle.ann_reader.specs.LineForms.{pair_read, pairs_read};
ghost use Rattle.ann_reader.specs.FormShows.{seen_text, seen_pair};

use crate::line::{before, behind, has_byte};
use crate::line_form::Pair;
use crate::word::words;
use mark_base::Memory;
use std::alloc::Global;

/// A pair, split at its first `:`.
fn pair_read(word: &str) -> Option<Pair>
    ensures { option_map seen_pair result ≡ pair_read word.now }
{
    if !has_byte(word.as_bytes(), b':') {
        return None;
    }
    let role = before(word, b':');
    if role.is_empty() {
        return None;
    }
    Some(Pair {
        role,
        target: behind(word, b':'),
    })
}

/// The pairs of some words, where each is one. Cost: the words.
pub(crate) fn pairs_read<'a>(
    alloc: Global,
    words: &[&'a str],
) -> Result<Option<Vec<Pair<'a>>>, Memory>
    ensures { IfOk result (λ pairs. option_map (λ list. map seen_pair list.items) pairs ≡ pairs_read (map seen_text words.now)) }
{
    let mut pairs = Vec::new(alloc);
    for word in words {
        match pair_read(word) {
            Some(pair) => pairs.push(pair)?,
            None => return Ok(None),
        }
    }
    Ok(Some(pairs))
}

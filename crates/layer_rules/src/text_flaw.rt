//! Passes over a layer, each for one rule.
ghost use Rattle.std.specs.Prelude.{◌≡◌, ◌≤◌, length};
ghost use Rattle.std.specs.Ordering.{nat_cmp};
ghost use Rattle.std.specs.FinMap as finite;
ghost use Rattle.layer_model.specs.declared.mark.Mark.{Mark};
ghost use Rattle.layer_rules.specs.FlawPlaces.{first_place, places};
ghost use Rattle.layer_rules.specs.LayerRules.{bad_text};
ghost use Rattle.layer_rules.specs.WellFormed.{at_bad_text};
ghost use Rattle.layer_rules.specs.LowestFlaw.{first_among};

use crate::bad_texts::{is_bad_entry, is_bad_store, is_bad_text};
use crate::mark_rules::where_so;
use crate::rules_by_kind::Judge;
use layer_model::{Flaw, FlawPlace, Layer, Normal, Note, Rule, id_at};
use mark_base::Kind;
use std::collections::BTreeMap;

/// The flaw of the first annotation of a letter that breaks a rule.
pub(crate) fn first<V, J: Judge<V>>(judge: &J, kind: Kind, map: &BTreeMap<u32, V>) -> Option<Flaw>
    ensures { result ≡ first_among kind (λ _ found. J.told judge.now found) (finite.entries (finite.from_entries {R = nat_cmp} map.now.entries)) }
{
    for (number, found) in map {
        if let Some(rule) = judge.rule(found) {
            let at = FlawPlace::Mark(id_at(kind, *number));
            return Some(Flaw { rule, at });
        }
    }
    None
}

/// The rule on texts.
#[derive(Clone, Copy)]
pub(crate) struct Texts;

impl Judge<Normal> for Texts {
    ghost use Rattle.layer_model.specs.declared.mark.Mark.TheVariants as marked;
    ghost use Rattle.layer_rules.specs.LayerRules.{bad_text};

    ghost told = { λ texts normal. bad_text (marked.Normal normal) };

    fn rule(&self, normal: &Normal) -> Option<Rule> {
        let bad = is_bad_text(normal.text.text())
            || is_bad_store(normal.store.text())
            || is_bad_entry(normal.entry.text());
        where_so(bad, Rule::BadText)
    }
}

impl Judge<Note> for Texts {
    ghost use Rattle.layer_model.specs.declared.mark.Mark.TheVariants as marked;
    ghost use Rattle.layer_rules.specs.LayerRules.{bad_text};

    ghost told = { λ texts note. bad_text (marked.Note note) };

    fn rule(&self, note: &Note) -> Option<Rule> {
        where_so(is_bad_text(note.text.text()), Rule::BadText)
    }
}

/// The flaw of the first normalization or note with a text, a store or an entry that may not stand.
pub(crate) fn text_flaw(layer: &Layer) -> Option<Flaw>
    ensures { result ≡ first_place (at_bad_text layer.now) (places layer.now) }
{
    layer.keeps();
    first(&Texts, Kind::Normal, layer.normals()).or(first(&Texts, Kind::Note, layer.notes()))
}

//! What the definitions of a label say.
ghost use Rattle.std.specs.Prelude.{◌≡◌, ℕ, List, [], ◌∷◌, map};
ghost use Rattle.layer_model.specs.declared.span.Span.{Span};
ghost use Rattle.label_tracks.specs.Candidates.{IsFirst, candidates, first_covering};
ghost use Rattle.label_tracks.specs.Labels.{label_at};
ghost use Rattle.label_tracks.specs.Levels.{grouping_of, rolled};
ghost use Rattle.label_tracks.specs.WorkedLabels.{spans, types};

use conf_model::Conf;
use mark_base::TypeId;

/// The span that labels a character is one of those that cover it, and none of these comes before it;
/// there is none only where no span covers the character.
pub fn no_span_comes_before_the_first()
    ensures { (character : ℕ) (spans : List (ℕ × Span)) → IsFirst (candidates character spans) (first_covering character spans) }
{}

/// With no level, which is 255, each type counts as itself.
#[tactic(auto, unfolding(crate::specs::Levels::rolled))]
pub fn no_level_keeps_types(conf: &Conf, id: TypeId)
    ensures { rolled conf.now.types 255 id.n ≡ id.n }
{
    let _depth = conf.types().depth(id).unwrap_or(0);
}

/// What the definitions give for four types, one of which is not used, and two spans of one text,
/// worked out by hand: the groups with no level and at level 0, and the labels of the characters 0, 2, 4
/// and 6.
pub fn worked_labels()
    ensures groups { grouping_of types 255 ≡ record { level = 255; groups = 0 ∷ 1 ∷ 2 ∷ 3 ∷ []; width = 4 } }
    ensures topmost_groups { grouping_of types 0 ≡ record { level = 0; groups = 0 ∷ 1 ∷ 1 ∷ 2 ∷ []; width = 3 } }
    ensures labels { map (label_at types 255 spans) (0 ∷ 2 ∷ 4 ∷ 6 ∷ []) ≡ 2 ∷ 3 ∷ 2 ∷ 0 ∷ [] }
    ensures topmost_labels { map (label_at types 0 spans) (0 ∷ 2 ∷ 4 ∷ 6 ∷ []) ≡ 1 ∷ 2 ∷ 1 ∷ 0 ∷ [] }
{}

//! The definitions at work on small layers. The function does nothing; its clauses are computed when the
//! crate is checked.
ghost use Rattle.std.specs.Prelude.{◌≡◌, Some, None, pos};
ghost use Rattle.match_scores.specs.declared.sort.Sort.TheVariants as sort;
ghost use Rattle.match_scores.specs.Standing.{line_of, posted};
ghost use Rattle.match_scores.specs.WorkedLayers.{bob, two_layers};

/// What the definitions give for one document on which the first of three annotators has two spans and an
/// event, and the second the same under other IDs, and a span more.
pub fn worked_lines()
    ensures spans { line_of two_layers 0 1 sort.Spans ≡
        record { both = 2; first_only = 0; second_only = 1; score = Some (record { top = pos 4; bottom = pos 5 }) } }
    ensures events { line_of two_layers 0 1 sort.Events ≡
        record { both = 1; first_only = 0; second_only = 0; score = Some (record { top = pos 2; bottom = pos 2 }) } }
    ensures relations { line_of two_layers 0 1 sort.Relations ≡
        record { both = 0; first_only = 0; second_only = 0; score = None } }
    ensures spans_without_a_layer { line_of two_layers 0 2 sort.Spans ≡
        record { both = 0; first_only = 0; second_only = 0; score = None } }
    ensures events_without_a_layer { line_of two_layers 1 2 sort.Events ≡
        record { both = 0; first_only = 0; second_only = 0; score = None } }
    ensures posted_again { posted two_layers 0 1 (Some bob) ≡ two_layers }
    ensures withdrawn { line_of (posted two_layers 0 1 None) 0 1 sort.Spans ≡
        record { both = 0; first_only = 0; second_only = 0; score = None } }
{}

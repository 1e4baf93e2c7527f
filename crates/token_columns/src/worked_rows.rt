//! The definitions at work on small texts. Each function does nothing; its clauses are computed when the crate is
//! checked.
ghost use Rattle.std.specs.Prelude.{◌≡◌, [], ◌∷◌, codes, map, true, false};
ghost use Rattle.char_documents.specs.Tokens.{tokens_from};
ghost use Rattle.token_columns.specs.Columns.{column_line};
ghost use Rattle.token_columns.specs.Fits.{is_aligned, place_of, shares_lower};
ghost use Rattle.token_columns.specs.WorkedColumns.{conf, from_to, place, text, token};

/// The lines of a span over the first two of four tokens, and of none.
pub fn worked_columns()
    ensures tokens { tokens_from 0 text ≡ token 0 3 ∷ token 4 8 ∷ token 9 11 ∷ token 12 15 ∷ [] }
    ensures span { map (column_line conf text (from_to 0 8 ∷ [])) (tokens_from 0 text) ≡ codes "New\tB-Location" ∷ codes "York\tI-Location" ∷ codes "is\tO" ∷ codes "big\tO" ∷ [] }
    ensures none { map (column_line conf text []) (tokens_from 0 text) ≡ codes "New\tO" ∷ codes "York\tO" ∷ codes "is\tO" ∷ codes "big\tO" ∷ [] }
    ensures nothing { map (column_line conf [] []) (tokens_from 0 []) ≡ [] }
{}

/// Spans that go from a token to a token and those that do not, spans that share a token, and the places of spans
/// in the order of their starts.
pub fn worked_spans()
    ensures aligned { map (is_aligned (tokens_from 0 text)) (from_to 0 8 ∷ from_to 0 7 ∷ from_to 1 8 ∷ from_to 4 15 ∷ []) ≡ true ∷ false ∷ false ∷ true ∷ [] }
    ensures shared { map (shares_lower (tokens_from 0 text) (place 1 4 8 ∷ place 2 0 3 ∷ place 3 0 8 ∷ [])) (place 1 4 8 ∷ place 2 0 3 ∷ place 3 0 8 ∷ []) ≡ false ∷ false ∷ true ∷ [] }
    ensures places { map (place_of (place 1 4 8 ∷ place 2 0 3 ∷ place 3 9 11 ∷ [])) (place 1 4 8 ∷ place 2 0 3 ∷ place 3 9 11 ∷ []) ≡ 2 ∷ 1 ∷ 3 ∷ [] }
{}

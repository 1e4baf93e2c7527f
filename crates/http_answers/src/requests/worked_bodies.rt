//! The definitions at work on bodies. The function does nothing; its clauses are computed when the crate is checked.
ghost use Rattle.std.specs.Prelude.{◌≡◌, [], ◌∷◌, codes, Some, None};
ghost use Rattle.mark_base.specs.declared.ann_id.Kind.TheVariants as letter;
ghost use Rattle.mark_base.specs.ReadIds.{id_at};
ghost use Rattle.curator_decisions.specs.declared.verdict.Verdict.TheVariants as verdict;
ghost use Rattle.http_answers.specs.declared.requests.body_fault.BodyFault.TheVariants as fault;
ghost use Rattle.http_answers.specs.Requests.Bodies.{decision_body, decision_of, item_of, text_body, undecision_body};

/// What bodies say: the last value of a repeated key counts, and a further key, a holder that is no slug or an ID that
/// does not read is a bad body.
pub fn examples_of_bodies()
    ensures text { text_body (codes "a b") ≡ Ok (codes "a b") }
    ensures characters { text_body (195 ∷ 169 ∷ []) ≡ Ok (233 ∷ []) }
    ensures no_text { text_body (255 ∷ []) ≡ Err fault.BadBody }
    ensures accept { decision_body (codes "{\"item\":\"ann/T3\",\"verdict\":\"accept\"}") ≡ Some (decision_of (item_of (codes "ann") (id_at letter.Text 3)) verdict.Accept) }
    ensures reject { decision_body (codes "{\"verdict\":\"reject\",\"item\":\"bob/E1\"}") ≡ Some (decision_of (item_of (codes "bob") (id_at letter.Event 1)) verdict.Reject) }
    ensures last_counts { decision_body (codes "{\"item\":\"ann/T3\",\"item\":\"ann/T4\",\"verdict\":\"accept\",\"verdict\":\"reject\"}") ≡ Some (decision_of (item_of (codes "ann") (id_at letter.Text 4)) verdict.Reject) }
    ensures another_word { decision_body (codes "{\"item\":\"ann/T3\",\"verdict\":\"Accept\"}") ≡ None }
    ensures another_field { decision_body (codes "{\"item\":\"ann/T3\",\"verdict\":\"accept\",\"by\":\"cur\"}") ≡ None }
    ensures a_missing_field { decision_body (codes "{\"item\":\"ann/T3\"}") ≡ None }
    ensures no_slug { decision_body (codes "{\"item\":\".a/T3\",\"verdict\":\"accept\"}") ≡ None }
    ensures no_id { decision_body (codes "{\"item\":\"ann/T03\",\"verdict\":\"accept\"}") ≡ None }
    ensures no_slash { decision_body (codes "{\"item\":\"annT3\",\"verdict\":\"accept\"}") ≡ None }
    ensures undecision { undecision_body (codes "{\"item\":\"ann/T3\"}") ≡ Some (item_of (codes "ann") (id_at letter.Text 3)) }
    ensures no_undecision { undecision_body (codes "{\"item\":\"ann/T3\",\"verdict\":\"accept\"}") ≡ None }
{}

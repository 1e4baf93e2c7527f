//! The definition at work on bodies. The function does nothing; its clauses are computed when the crate is
//! checked.
ghost use Rattle.std.specs.Prelude.{◌≡◌, [], ◌∷◌, codes, Some, None, refl};
ghost use Rattle.mark_base.specs.declared.ann_id.Kind.TheVariants as letter;
ghost use Rattle.layer_core.specs.declared.command.Command.TheVariants as ask;
ghost use Rattle.mark_base.specs.ReadIds.{id_at};
ghost use Rattle.command_json.specs.Bodies.{command_of};

/// Commands that bodies spell, and bodies that spell none.
pub fn examples_of_bodies()
    ensures a_span { command_of (codes "{\"do\":\"add-span\",\"type\":\"Person\",\"at\":\"0 5;16 23\"}") ≡ Some (ask.AddSpan (codes "Person") (record { start = 0; end = 5 } ∷ record { start = 16; end = 23 } ∷ [])) }
    ensures an_event { command_of (codes "{\"args\":[\"Who:T1\"],\"do\":\"add-event\",\"trigger\":\"T9\",\"type\":\"Meet\"}") ≡ Some (ask.AddEvent (codes "Meet") (id_at letter.Text 9) (record { role = codes "Who"; target = id_at letter.Text 1 } ∷ [])) }
    ensures no_value { command_of (codes "{\"do\":\"set-attribute\",\"type\":\"Negation\",\"of\":\"E1\"}") ≡ Some (ask.SetAttribute (codes "Negation") (id_at letter.Event 1) None) }
    ensures a_value { command_of (codes "{\"do\":\"set-attribute\",\"type\":\"Confidence\",\"of\":\"E1\",\"value\":\"High\"}") ≡ Some (ask.SetAttribute (codes "Confidence") (id_at letter.Event 1) (Some (codes "High"))) }
    ensures first_colon { command_of (codes "{\"do\":\"set-reference\",\"of\":\"T1\",\"entry\":\"Wiki:a:b\",\"text\":\"\"}") ≡ Some (ask.SetReference (id_at letter.Text 1) (codes "Wiki") (codes "a:b") []) }
    ensures last_counts { command_of (codes "{\"do\":\"purge\",\"id\":\"T1\",\"id\":\"T2\",\"do\":\"delete\"}") ≡ Some (ask.Delete (id_at letter.Text 2)) }
    ensures another_field { command_of (codes "{\"do\":\"delete\",\"id\":\"T1\",\"text\":\"\"}") ≡ None }
    ensures a_missing_field { command_of (codes "{\"do\":\"delete\"}") ≡ None }
    ensures a_leading_zero { command_of (codes "{\"do\":\"delete\",\"id\":\"T01\"}") ≡ None }
    ensures no_colon { command_of (codes "{\"do\":\"set-reference\",\"of\":\"T1\",\"entry\":\"Wiki\",\"text\":\"\"}") ≡ None }
    ensures no_word { command_of (codes "{\"do\":\"load\"}") ≡ None }
    ensures no_object { command_of (codes "[\"delete\",\"T1\"]") ≡ None }
{}

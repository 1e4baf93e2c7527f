//! The bytes of commands at work. The functions do nothing; their clauses are computed when the crate is
//! checked.
ghost use Rattle.std.specs.Prelude.{◌≡◌, ℕ, List, [], ◌∷◌, codes, None, Some};
ghost use Rattle.mark_base.specs.declared.ann_id.Kind.TheVariants as letter;
ghost use Rattle.mark_base.specs.ReadIds.{id_at};
ghost use Rattle.conf_model.specs.Configurations.{Configuration};
ghost use Rattle.layer_core.specs.declared.command.Command.TheVariants as ask;
ghost use Rattle.command_bytes.specs.CommandBytes.{command_bytes, scripts_bytes};
ghost use Rattle.command_bytes.specs.CommandReading.{ann_id_at, name_at, value_at, plain_at};

/// Commands and their bytes.
pub fn examples_of_command_bytes()
    // A span `Person` on the first three characters.
    ensures a_span { (conf : Configuration) (text : List ℕ) → command_bytes conf text (ask.AddSpan (codes "Person") (record { start = 0; end = 3 } ∷ [])) ≡ 1 ∷ 6 ∷ 80 ∷ 101 ∷ 114 ∷ 115 ∷ 111 ∷ 110 ∷ 1 ∷ 0 ∷ 0 ∷ 0 ∷ 0 ∷ 0 ∷ 0 ∷ 0 ∷ 3 ∷ 0 ∷ 0 ∷ 0 ∷ [] }
    // T1 is an `Org`.
    ensures a_type { (conf : Configuration) (text : List ℕ) → command_bytes conf text (ask.RetypeSpan (id_at letter.Text 1) (codes "Org")) ≡ 2 ∷ 0 ∷ 1 ∷ 0 ∷ 0 ∷ 0 ∷ 3 ∷ 79 ∷ 114 ∷ 103 ∷ [] }
    // T258 stands on `0 5;16 23`; numbers have their low byte first.
    ensures fragments { (conf : Configuration) (text : List ℕ) → command_bytes conf text (ask.MoveSpan (id_at letter.Text 258) (record { start = 0; end = 5 } ∷ record { start = 16; end = 23 } ∷ [])) ≡ 3 ∷ 0 ∷ 2 ∷ 1 ∷ 0 ∷ 0 ∷ 2 ∷ 0 ∷ 0 ∷ 0 ∷ 0 ∷ 0 ∷ 0 ∷ 0 ∷ 5 ∷ 0 ∷ 0 ∷ 0 ∷ 16 ∷ 0 ∷ 0 ∷ 0 ∷ 23 ∷ 0 ∷ 0 ∷ 0 ∷ [] }
    // An event `Meet` of T3 with the argument `Who:T1`.
    ensures an_event { (conf : Configuration) (text : List ℕ) → command_bytes conf text (ask.AddEvent (codes "Meet") (id_at letter.Text 3) (record { role = codes "Who"; target = id_at letter.Text 1 } ∷ [])) ≡ 4 ∷ 4 ∷ 77 ∷ 101 ∷ 101 ∷ 116 ∷ 0 ∷ 3 ∷ 0 ∷ 0 ∷ 0 ∷ 1 ∷ 0 ∷ 0 ∷ 0 ∷ 3 ∷ 87 ∷ 104 ∷ 111 ∷ 0 ∷ 1 ∷ 0 ∷ 0 ∷ 0 ∷ [] }
    // E1 has the argument `Who:E2` too.
    ensures an_argument { (conf : Configuration) (text : List ℕ) → command_bytes conf text (ask.AddArg (id_at letter.Event 1) (record { role = codes "Who"; target = id_at letter.Event 2 })) ≡ 5 ∷ 1 ∷ 1 ∷ 0 ∷ 0 ∷ 0 ∷ 3 ∷ 87 ∷ 104 ∷ 111 ∷ 1 ∷ 2 ∷ 0 ∷ 0 ∷ 0 ∷ [] }
    // E1 has the argument `Who:T2` no more.
    ensures no_argument { (conf : Configuration) (text : List ℕ) → command_bytes conf text (ask.RemoveArg (id_at letter.Event 1) (record { role = codes "Who"; target = id_at letter.Text 2 })) ≡ 6 ∷ 1 ∷ 1 ∷ 0 ∷ 0 ∷ 0 ∷ 3 ∷ 87 ∷ 104 ∷ 111 ∷ 0 ∷ 2 ∷ 0 ∷ 0 ∷ 0 ∷ [] }
    // A relation `In` from T1 to T2.
    ensures a_relation { (conf : Configuration) (text : List ℕ) → command_bytes conf text (ask.AddRelation (codes "In") (id_at letter.Text 1) (id_at letter.Text 2)) ≡ 7 ∷ 2 ∷ 73 ∷ 110 ∷ 0 ∷ 1 ∷ 0 ∷ 0 ∷ 0 ∷ 0 ∷ 2 ∷ 0 ∷ 0 ∷ 0 ∷ [] }
    // An attribute `Neg` on E1, without a value.
    ensures an_attribute { (conf : Configuration) (text : List ℕ) → command_bytes conf text (ask.SetAttribute (codes "Neg") (id_at letter.Event 1) None) ≡ 8 ∷ 3 ∷ 78 ∷ 101 ∷ 103 ∷ 1 ∷ 1 ∷ 0 ∷ 0 ∷ 0 ∷ 0 ∷ [] }
    // An attribute `Mood` on R1, with the value `Sure`.
    ensures a_value { (conf : Configuration) (text : List ℕ) → command_bytes conf text (ask.SetAttribute (codes "Mood") (id_at letter.Relation 1) (Some (codes "Sure"))) ≡ 8 ∷ 4 ∷ 77 ∷ 111 ∷ 111 ∷ 100 ∷ 2 ∷ 1 ∷ 0 ∷ 0 ∷ 0 ∷ 1 ∷ 4 ∷ 83 ∷ 117 ∷ 114 ∷ 101 ∷ [] }
    // M7 is taken away.
    ensures no_attribute { (conf : Configuration) (text : List ℕ) → command_bytes conf text (ask.ClearAttribute (id_at letter.Legacy 7)) ≡ 9 ∷ 4 ∷ 7 ∷ 0 ∷ 0 ∷ 0 ∷ [] }
    // T1 and T2 are one class of `Same`.
    ensures a_class { (conf : Configuration) (text : List ℕ) → command_bytes conf text (ask.Equate (codes "Same") (id_at letter.Text 1 ∷ id_at letter.Text 2 ∷ [])) ≡ 10 ∷ 4 ∷ 83 ∷ 97 ∷ 109 ∷ 101 ∷ 2 ∷ 0 ∷ 0 ∷ 0 ∷ 0 ∷ 1 ∷ 0 ∷ 0 ∷ 0 ∷ 0 ∷ 2 ∷ 0 ∷ 0 ∷ 0 ∷ [] }
    // T1 is in no class of `Same`.
    ensures no_class { (conf : Configuration) (text : List ℕ) → command_bytes conf text (ask.Unequate (codes "Same") (id_at letter.Text 1)) ≡ 11 ∷ 4 ∷ 83 ∷ 97 ∷ 109 ∷ 101 ∷ 0 ∷ 1 ∷ 0 ∷ 0 ∷ 0 ∷ [] }
    // A note `Note` on T1 with the text `hi`.
    ensures a_note { (conf : Configuration) (text : List ℕ) → command_bytes conf text (ask.SetNote (id_at letter.Text 1) (codes "Note") (codes "hi")) ≡ 12 ∷ 0 ∷ 1 ∷ 0 ∷ 0 ∷ 0 ∷ 4 ∷ 78 ∷ 111 ∷ 116 ∷ 101 ∷ 2 ∷ 0 ∷ 0 ∷ 0 ∷ 104 ∷ 105 ∷ [] }
    // T1 is `W:Q1`, with no text.
    ensures a_reference { (conf : Configuration) (text : List ℕ) → command_bytes conf text (ask.SetReference (id_at letter.Text 1) (codes "W") (codes "Q1") []) ≡ 13 ∷ 0 ∷ 1 ∷ 0 ∷ 0 ∷ 0 ∷ 1 ∷ 0 ∷ 0 ∷ 0 ∷ 87 ∷ 2 ∷ 0 ∷ 0 ∷ 0 ∷ 81 ∷ 49 ∷ 0 ∷ 0 ∷ 0 ∷ 0 ∷ [] }
    // N1 is taken away.
    ensures a_deletion { (conf : Configuration) (text : List ℕ) → command_bytes conf text (ask.Delete (id_at letter.Normal 1)) ≡ 14 ∷ 5 ∷ 1 ∷ 0 ∷ 0 ∷ 0 ∷ [] }
    // The note of the greatest number is taken away with all that names it.
    ensures a_purge { (conf : Configuration) (text : List ℕ) → command_bytes conf text (ask.Purge (id_at letter.Note 999999999)) ≡ 15 ∷ 6 ∷ 255 ∷ 201 ∷ 154 ∷ 59 ∷ [] }
    // T1 was deleted, and nothing is undone.
    ensures scripts { (conf : Configuration) (text : List ℕ) → scripts_bytes conf text (ask.Delete (id_at letter.Text 1) ∷ []) [] ≡ 1 ∷ 0 ∷ 0 ∷ 0 ∷ 14 ∷ 0 ∷ 1 ∷ 0 ∷ 0 ∷ 0 ∷ 0 ∷ 0 ∷ 0 ∷ 0 ∷ [] }
{}

/// Fields of commands, read from bytes.
pub fn examples_of_command_reading()
    ensures an_id { ann_id_at (1 ∷ 2 ∷ 1 ∷ 0 ∷ 0 ∷ 9 ∷ []) ≡ Some (id_at letter.Event 258, 9 ∷ []) }
    // There are seven letters.
    ensures no_letter { ann_id_at (7 ∷ 1 ∷ 0 ∷ 0 ∷ 0 ∷ []) ≡ None }
    // An ID has at most the number 999,999,999.
    ensures no_number { ann_id_at (0 ∷ 0 ∷ 202 ∷ 154 ∷ 59 ∷ []) ≡ None }
    ensures cut { ann_id_at (0 ∷ 1 ∷ 0 ∷ 0 ∷ []) ≡ None }
    // A short name is not written behind 255.
    ensures short_name { name_at (255 ∷ 2 ∷ 0 ∷ 0 ∷ 0 ∷ 73 ∷ 110 ∷ []) ≡ None }
    ensures no_value { value_at (0 ∷ 9 ∷ []) ≡ Some (None, 9 ∷ []) }
    ensures bad_flag { value_at (2 ∷ 1 ∷ 89 ∷ []) ≡ None }
    ensures a_command { plain_at 9 (3 ∷ 1 ∷ 0 ∷ 0 ∷ 0 ∷ []) ≡ Some (ask.ClearAttribute (id_at letter.Attribute 1), []) }
    ensures no_command { plain_at 17 (3 ∷ 1 ∷ 0 ∷ 0 ∷ 0 ∷ []) ≡ None }
{}

//! The definitions at work on lines. Each function does nothing; its clauses are computed when the crate is
//! checked.
ghost use Rattle.std.specs.Prelude.{◌≡◌, [], ◌∷◌, codes, Some, None, refl};
ghost use Rattle.ann_reader.specs.Lines.{lines_of};
ghost use Rattle.ann_reader.specs.LineForms.{BadForm, TextForm, EventForm, RelationForm, ClassForm, NormalForm, form_of};

/// The lines of a file and their forms.
pub fn examples_of_lines()
    ensures lines { lines_of (codes "T1\n \t\r\n\nE1\r\n") ≡ record { number = 1; bytes = codes "T1" } ∷ record { number = 4; bytes = codes "E1\r" } ∷ [] }
    ensures no_lines { lines_of [] ≡ [] }
    ensures discontinuous { form_of (codes "T1\tLocation 0 5;16 23\tNorth America") ≡ TextForm (codes "T1") (codes "Location") (record { start = 0; end = 5 } ∷ record { start = 16; end = 23 } ∷ []) (codes "North America") }
    ensures one_return { form_of (codes "T1\tLocation 0 8\tNew York\r") ≡ TextForm (codes "T1") (codes "Location") (record { start = 0; end = 8 } ∷ []) (codes "New York") }
    ensures tab_in_text { form_of (codes "T1\tA 0 3\ta\tb") ≡ TextForm (codes "T1") (codes "A") (record { start = 0; end = 3 } ∷ []) (codes "a\tb") }
    ensures leading_zero { form_of (codes "T1\tA 00 3\ta b") ≡ BadForm }
    ensures no_text { form_of (codes "T1\tA 0 3") ≡ BadForm }
    ensures event { form_of (codes "E1\tMeet:T9 Who:T1 Who2:T2 ") ≡ EventForm (codes "E1") (codes "Meet") (codes "T9") (record { role = codes "Who"; target = codes "T1" } ∷ record { role = codes "Who2"; target = codes "T2" } ∷ []) }
    ensures relation { form_of (codes "R1\tLocated Arg1:T1 Arg2:T3\t") ≡ RelationForm (codes "R1") (codes "Located") (record { role = codes "Arg1"; target = codes "T1" }) (record { role = codes "Arg2"; target = codes "T3" }) }
    ensures class { form_of (codes "*\tEquiv T1 T2") ≡ ClassForm (codes "Equiv") (codes "T1" ∷ codes "T2" ∷ []) }
    ensures no_third_field { form_of (codes "N1\tReference T1 Wiki:a:b") ≡ NormalForm (codes "N1") (codes "T1") (codes "Wiki") (codes "a:b") [] }
{}

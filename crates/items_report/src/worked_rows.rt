//! The definitions at work on two small files. The function does nothing; its clauses are computed when the crate is
//! checked.
ghost use Rattle.std.specs.Prelude.{◌≡◌, ℕ, List, [], ◌∷◌, codes};
ghost use Rattle.conf_model.specs.Configurations.{Configuration};
ghost use Rattle.curator_decisions.specs.declared.verdict.Verdict.TheVariants as verdict;
ghost use Rattle.items_report.specs.ItemsTable.{items_table};
ghost use Rattle.items_report.specs.WorkedItems.{shown_row, span_of};

/// The header alone, and the rows of items.
pub fn examples_of_rows()
    ensures no_items { (conf : Configuration) (text : List ℕ) → items_table conf text [] [] ≡ codes "item,line,holders,state\n" }
    ensures unanimous { shown_row [] (span_of 0 1) 3 ≡ codes "ann/T1,Person 0 3\tAnn,ann bob,unanimous\n" }
    ensures undecided { shown_row [] (span_of 1 3) 2 ≡ codes "bob/T3,Location 15 19\tRome,bob,undecided\n" }
    ensures accepted { shown_row ((span_of 1 3, verdict.Accept) ∷ []) (span_of 1 3) 2 ≡ codes "bob/T3,Location 15 19\tRome,bob,accepted\n" }
    ensures rejected { shown_row ((span_of 0 1, verdict.Reject) ∷ []) (span_of 0 1) 3 ≡ codes "ann/T1,Person 0 3\tAnn,ann bob,rejected\n" }
    // Quotes stand where a field has a comma, and double those in it.
    ensures quoted { shown_row [] (span_of 1 4) 2 ≡ codes "bob/T4,\"Location 15 31\tRome, \"\"the city\"\"\",bob,undecided\n" }
{}

//! The definitions at work on refusals and figures. The functions do nothing; their clauses are computed when the crate
//! is checked.
ghost use Rattle.std.specs.Prelude.{◌≡◌, [], ◌∷◌, codes, true, false};
ghost use Rattle.mark_base.specs.declared.ann_id.AnnId.{AnnId};
ghost use Rattle.layer_model.specs.declared.rule.RoleAt.{RoleAt};
ghost use Rattle.layer_model.specs.declared.rule.Rule.TheVariants as rule;
ghost use Rattle.unanimous_merge.specs.declared.item.ItemId.{ItemId};
ghost use Rattle.curator_decisions.specs.declared.decision_fault.DecisionFault.TheVariants as fault;
ghost use Rattle.project_machine.specs.declared.book_refusal.BookRefusal.TheVariants as no;
ghost use Rattle.project_machine.specs.declared.book_refusal.Policy.TheVariants as policy;
ghost use Rattle.http_answers.specs.declared.answer_bodies.message_fault.MessageFault.TheVariants as message;
ghost use Rattle.http_answers.specs.AnswerBodies.JsonAnswers.{docs_value, json, one_number, one_truth, out_value, says, snapped_value};
ghost use Rattle.http_answers.specs.AnswerBodies.Refusals.{book_refusal, fault_answer};

/// Messages that ask nothing.
pub fn examples_of_message_faults()
    ensures no_route { fault_answer message.NoRoute ≡ says 404 (codes "{\"refused\":\"NoRoute\"}") }
    ensures no_method { fault_answer message.NoMethod ≡ says 405 (codes "{\"refused\":\"NoMethod\"}") }
    ensures no_caller { fault_answer message.NoCaller ≡ says 401 (codes "{\"refused\":\"NoCaller\"}") }
    ensures no_desk { fault_answer message.NoDesk ≡ says 409 (codes "{\"refused\":\"NoDesk\"}") }
    ensures desk_held { fault_answer message.DeskHeld ≡ says 409 (codes "{\"refused\":\"DeskHeld\"}") }
    ensures not_yours { fault_answer message.NotYours ≡ says 409 (codes "{\"refused\":\"NotYours\"}") }
    ensures bad_body { fault_answer message.BadBody ≡ says 400 (codes "{\"refused\":\"BadBody\"}") }
    ensures text_too_long { fault_answer message.TextTooLong ≡ says 413 (codes "{\"refused\":\"TextTooLong\"}") }
{}

/// Refusals of a project.
pub fn examples_of_refusals()
    ensures not_on_the_roster { book_refusal (no.NotAllowed policy.Roster) (codes "Roster") ≡ says 401 (codes "{\"of\":\"Roster\",\"refused\":\"NotAllowed\"}") }
    ensures no_annotator { book_refusal (no.NotAllowed policy.Annotator) (codes "Annotator") ≡ says 403 (codes "{\"of\":\"Annotator\",\"refused\":\"NotAllowed\"}") }
    ensures no_curator { book_refusal (no.NotAllowed policy.Curator) (codes "Curator") ≡ says 403 (codes "{\"of\":\"Curator\",\"refused\":\"NotAllowed\"}") }
    ensures another { book_refusal (no.NotAllowed policy.Own) (codes "Own") ≡ says 403 (codes "{\"of\":\"Own\",\"refused\":\"NotAllowed\"}") }
    ensures no_document { book_refusal no.NoDocument [] ≡ says 404 (codes "{\"refused\":\"NoDocument\"}") }
    ensures no_layer { book_refusal no.NoLayer [] ≡ says 404 (codes "{\"refused\":\"NoLayer\"}") }
    ensures no_snapshot { book_refusal no.NoSnapshot [] ≡ says 404 (codes "{\"refused\":\"NoSnapshot\"}") }
    ensures layer_out { book_refusal no.LayerOut [] ≡ says 409 (codes "{\"refused\":\"LayerOut\"}") }
    ensures not_yours { book_refusal no.NotYours [] ≡ says 409 (codes "{\"refused\":\"NotYours\"}") }
    ensures finished { book_refusal no.Finished [] ≡ says 409 (codes "{\"refused\":\"Finished\"}") }
    ensures nothing_committed { book_refusal no.NothingCommitted [] ≡ says 409 (codes "{\"refused\":\"NothingCommitted\"}") }
    ensures not_finished { book_refusal no.NotFinished [] ≡ says 409 (codes "{\"refused\":\"NotFinished\"}") }
    ensures too_few_finished { book_refusal (no.TooFewFinished 1) (codes "1") ≡ says 409 (codes "{\"of\":\"1\",\"refused\":\"TooFewFinished\"}") }
    ensures document_there { book_refusal no.DocumentThere [] ≡ says 409 (codes "{\"refused\":\"DocumentThere\"}") }
    ensures project_full { book_refusal no.ProjectFull [] ≡ says 507 (codes "{\"refused\":\"ProjectFull\"}") }
    ensures entry_too_long { book_refusal (no.EntryTooLong 16777217) (codes "16777217") ≡ says 413 (codes "{\"of\":\"16777217\",\"refused\":\"EntryTooLong\"}") }
    ensures keeper { book_refusal no.Keeper [] ≡ says 500 (codes "{\"refused\":\"Keeper\"}") }
    ensures memory { book_refusal no.Memory [] ≡ says 503 (codes "{\"refused\":\"Memory\"}") }
    ensures already_ignored { book_refusal no.AlreadyIgnored [] ≡ says 409 (codes "{\"refused\":\"AlreadyIgnored\"}") }
    ensures not_ignored { book_refusal no.NotIgnored [] ≡ says 409 (codes "{\"refused\":\"NotIgnored\"}") }
{}

/// Refusals that carry another one: its name is told.
pub fn examples_of_inner_refusals()
    ensures broken { (event : AnnId) (role : RoleAt) → book_refusal (no.Broken (rule.TooFew event role)) (codes "E1 Member") ≡ says 422 (codes "{\"of\":\"E1 Member\",\"refused\":\"TooFew\"}") }
    ensures broken_and_bare { book_refusal (no.Broken rule.BadFragments) [] ≡ says 422 (codes "{\"refused\":\"BadFragments\"}") }
    ensures full_desk { book_refusal (no.Broken rule.DeskFull) [] ≡ says 409 (codes "{\"refused\":\"DeskFull\"}") }
    ensures no_item { book_refusal (no.Decision fault.NoItem) [] ≡ says 404 (codes "{\"refused\":\"NoItem\"}") }
    ensures already_in { book_refusal (no.Decision fault.AlreadyIn) [] ≡ says 409 (codes "{\"refused\":\"AlreadyIn\"}") }
    ensures not_in { book_refusal (no.Decision fault.NotIn) [] ≡ says 409 (codes "{\"refused\":\"NotIn\"}") }
    ensures not_decided { book_refusal (no.Decision fault.NotDecided) [] ≡ says 409 (codes "{\"refused\":\"NotDecided\"}") }
    ensures needs_item { (item : ItemId) → book_refusal (no.Decision (fault.NeedsItem item)) (codes "ann/E1") ≡ says 409 (codes "{\"of\":\"ann/E1\",\"refused\":\"NeedsItem\"}") }
    ensures broken_decision { (id : AnnId) → book_refusal (no.Decision (fault.Broken (rule.OverlapRefused id))) (codes "T1") ≡ says 422 (codes "{\"of\":\"T1\",\"refused\":\"OverlapRefused\"}") }
    ensures quoted { book_refusal no.NoDocument (codes "a\"b") ≡ says 404 (codes "{\"of\":\"a\\\"b\",\"refused\":\"NoDocument\"}") }
{}

/// Figures of what is granted.
pub fn examples_of_figures()
    ensures parked { json 200 (one_truth (codes "parked") true) ≡ says 200 (codes "{\"parked\":true}") }
    ensures reopened { json 200 (one_truth (codes "finished") false) ≡ says 200 (codes "{\"finished\":false}") }
    ensures added { json 201 (one_number (codes "tokens") 4) ≡ says 201 (codes "{\"tokens\":4}") }
    ensures handed_out { json 200 (out_value 0 0 0) ≡ says 200 (codes "{\"done\":0,\"revision\":0,\"undone\":0}") }
    ensures snapped { json 201 (snapped_value 1 2) ≡ says 201 (codes "{\"layers\":2,\"snapshot\":1}") }
    ensures no_documents { json 200 (docs_value []) ≡ says 200 (codes "{\"docs\":[]}") }
    ensures documents { json 200 (docs_value (record { name = codes "x"; characters = 9 } ∷ record { name = codes "y"; characters = 0 } ∷ [])) ≡ says 200 (codes "{\"docs\":[{\"characters\":9,\"name\":\"x\"},{\"characters\":0,\"name\":\"y\"}]}") }
{}

//! The answers to what is granted, at work. The function does nothing; its clauses are computed when the crate is checked.
ghost use Rattle.std.specs.Prelude.{ℕ, ◌≡◌, [], codes, false, true};
ghost use Rattle.project_machine.specs.declared.book_refusal.BookRefusal.TheVariants as no;
ghost use Rattle.project_machine.specs.Requests.{Added, Committed, Decided, Docs, Finished, Ignored, Parked, Refused, Snapped, Taken, View};
ghost use Rattle.http_answers.specs.declared.routes.route.Route.{Route};
ghost use Rattle.http_answers.specs.declared.routes.route.Route.TheVariants as at;
ghost use Rattle.http_answers.specs.declared.routes.route.BookRoute.TheVariants as book;
ghost use Rattle.http_answers.specs.declared.routes.route.SnapshotRoute.TheVariants as snapshot;
ghost use Rattle.http_answers.specs.AnswerBodies.JsonAnswers.{says};
ghost use Rattle.http_answers.specs.Answers.Answers.{answer_on, snapshot_answer};

/// Answers to what is granted, and that the route tells alone how a snapshot is shown.
pub fn examples_of_answers()
    ensures parked { (route : Route) → answer_on route Parked ≡ says 200 (codes "{\"parked\":true}") }
    ensures finished { (route : Route) → answer_on route (Finished true) ≡ says 200 (codes "{\"finished\":true}") }
    ensures reopened { (route : Route) → answer_on route (Finished false) ≡ says 200 (codes "{\"finished\":false}") }
    ensures ignored { (route : Route) → answer_on route (Ignored true) ≡ says 200 (codes "{\"ignored\":true}") }
    ensures no_documents { (route : Route) → answer_on route (Docs []) ≡ says 200 (codes "{\"docs\":[]}") }
    ensures added { (route : Route) → answer_on route (Added 4) ≡ says 201 (codes "{\"tokens\":4}") }
    ensures committed { (route : Route) → answer_on route (Committed 1) ≡ says 200 (codes "{\"revision\":1}") }
    ensures snapped { (route : Route) → answer_on route (Snapped 1 2) ≡ says 201 (codes "{\"layers\":2,\"snapshot\":1}") }
    ensures decided { (route : Route) → answer_on route (Decided 1) ≡ says 200 (codes "{\"decided\":1}") }
    ensures refused { (route : Route) → answer_on route (Refused no.NoDocument []) ≡ says 404 (codes "{\"refused\":\"NoDocument\"}") }
    ensures curated { (number : ℕ) (view : View) → answer_on (at.Book (book.Snapshot snapshot.Curated number)) (Taken view) ≡ snapshot_answer true view }
    ensures items { (number : ℕ) (view : View) → answer_on (at.Book (book.Snapshot snapshot.Items number)) (Taken view) ≡ snapshot_answer false view }
{}

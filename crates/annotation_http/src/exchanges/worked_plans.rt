//! The definitions at work on messages. The functions do nothing; their clauses are computed when the crate is checked.
ghost use Rattle.std.specs.Prelude.{◌≡◌, [], codes, Some, None};
ghost use Rattle.http_wire.specs.Answers.{refusal};
ghost use Rattle.layer_undo.specs.Desks.{DeskState, layer_of};
ghost use Rattle.http_answers.specs.declared.routes.route.Route.TheVariants.{Book, Desk};
ghost use Rattle.http_answers.specs.declared.routes.route.BookRoute.TheVariants.{Project, Document};
ghost use Rattle.http_answers.specs.declared.routes.route.ProjectRoute.TheVariants as project;
ghost use Rattle.http_answers.specs.declared.routes.route.DocumentRoute.TheVariants as document;
ghost use Rattle.http_answers.specs.declared.routes.route.DeskRoute.TheVariants as desk;
ghost use Rattle.project_machine.specs.Requests.{Checkout, Commit, ListDocs};
ghost use Rattle.annotation_http.specs.Exchanges.Connections.{Bare, Holding, Holds, held_as};
ghost use Rattle.annotation_http.specs.Exchanges.Plans.{AsksBook, AtOnce, planned, sent};

/// Messages that ask nothing, by the first test that each fails.
pub fn examples_of_refused_messages()
    ensures no_route { planned Bare (sent None (codes "GET") (codes "/x") []) ≡ AtOnce (refusal 404 (codes "NoRoute")) Bare }
    ensures no_method { planned Bare (sent None (codes "POST") (codes "/docs") []) ≡ AtOnce (refusal 405 (codes "NoMethod")) Bare }
    ensures no_caller { planned Bare (sent None (codes "GET") (codes "/desk") []) ≡ AtOnce (refusal 401 (codes "NoCaller")) Bare }
    ensures no_name { planned Bare (sent (Some (codes ".ann")) (codes "GET") (codes "/desk") []) ≡ AtOnce (refusal 401 (codes "NoCaller")) Bare }
    ensures no_desk { planned Bare (sent (Some (codes "ann")) (codes "GET") (codes "/desk") []) ≡ AtOnce (refusal 409 (codes "NoDesk")) Bare }
    ensures desk_held { (held : Holding) → planned (Holds held) (sent (Some (codes "ann")) (codes "POST") (codes "/docs/x/checkout") []) ≡ AtOnce (refusal 409 (codes "DeskHeld")) (Holds held) }
    ensures not_yours { (state : DeskState) → planned (Holds (held_as (codes "ann") (codes "x") 3 state)) (sent (Some (codes "bob")) (codes "GET") (codes "/desk") []) ≡ AtOnce (refusal 409 (codes "NotYours")) (Holds (held_as (codes "ann") (codes "x") 3 state)) }
{}

/// Messages that ask something of the project.
pub fn examples_of_asking_messages()
    ensures documents { planned Bare (sent (Some (codes "ann")) (codes "GET") (codes "/docs") []) ≡ AsksBook (Book (Project project.Documents)) (codes "ann") ListDocs }
    ensures checkout { planned Bare (sent (Some (codes "ann")) (codes "POST") (codes "/docs/x/checkout") []) ≡ AsksBook (Book (Document document.Checkout (codes "x"))) (codes "ann") (Checkout (codes "x")) }
    ensures commit { (state : DeskState) → planned (Holds (held_as (codes "ann") (codes "x") 3 state)) (sent (Some (codes "ann")) (codes "POST") (codes "/desk/commit") []) ≡ AsksBook (Desk desk.Commit) (codes "ann") (Commit (codes "x") 3 (layer_of state)) }
{}

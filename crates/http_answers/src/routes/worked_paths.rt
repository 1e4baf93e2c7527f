//! The definitions at work on paths. The functions do nothing; their clauses are computed when the crate is checked.
ghost use Rattle.std.specs.Prelude.{◌≡◌, codes, Some, None};
ghost use Rattle.http_answers.specs.declared.routes.found.Found.TheVariants as found;
ghost use Rattle.http_answers.specs.declared.routes.route.Route.TheVariants.{Book, Desk};
ghost use Rattle.http_answers.specs.declared.routes.route.BookRoute.TheVariants.{Project, Document, Layer, Snapshot};
ghost use Rattle.http_answers.specs.declared.routes.route.ProjectRoute.TheVariants as project;
ghost use Rattle.http_answers.specs.declared.routes.route.DocumentRoute.TheVariants as document;
ghost use Rattle.http_answers.specs.declared.routes.route.LayerRoute.TheVariants as layer;
ghost use Rattle.http_answers.specs.declared.routes.route.SnapshotRoute.TheVariants as snapshot;
ghost use Rattle.http_answers.specs.declared.routes.route.DeskRoute.TheVariants as desk;
ghost use Rattle.http_answers.specs.Routes.Found.{found_by};
ghost use Rattle.http_answers.specs.Routes.Segments.{number_read};

/// The routes of the project itself.
pub fn examples_of_project_routes()
    ensures conf { found_by (codes "GET") (codes "/conf") ≡ found.At (Book (Project project.Conf)) }
    ensures documents { found_by (codes "GET") (codes "/docs") ≡ found.At (Book (Project project.Documents)) }
    ensures pairs { found_by (codes "GET") (codes "/agreement/pairs") ≡ found.At (Book (Project project.Pairs)) }
    ensures alpha { found_by (codes "GET") (codes "/agreement/alpha") ≡ found.At (Book (Project project.Alpha)) }
    ensures progress { found_by (codes "GET") (codes "/progress") ≡ found.At (Book (Project project.Progress)) }
    ensures snapshots { found_by (codes "GET") (codes "/snapshots") ≡ found.At (Book (Project project.Snapshots)) }
    ensures roster { found_by (codes "GET") (codes "/roster") ≡ found.At (Book (Project project.Roster)) }
{}

/// The routes on a document.
pub fn examples_of_document_routes()
    ensures read_text { found_by (codes "GET") (codes "/docs/x/text") ≡ found.At (Book (Document document.ReadText (codes "x"))) }
    ensures add_text { found_by (codes "PUT") (codes "/docs/x/text") ≡ found.At (Book (Document document.AddText (codes "x"))) }
    ensures checkout { found_by (codes "POST") (codes "/docs/x/checkout") ≡ found.At (Book (Document document.Checkout (codes "x"))) }
    ensures take_over { found_by (codes "POST") (codes "/docs/x/takeover") ≡ found.At (Book (Document document.TakeOver (codes "x"))) }
    ensures finish { found_by (codes "POST") (codes "/docs/x/finish") ≡ found.At (Book (Document document.Finish (codes "x"))) }
    ensures snap { found_by (codes "POST") (codes "/docs/x/snapshots") ≡ found.At (Book (Document document.Snap (codes "x"))) }
{}

/// The routes on the layer of an annotator.
pub fn examples_of_layer_routes()
    ensures read { found_by (codes "GET") (codes "/docs/x/layers/ann") ≡ found.At (Book (Layer layer.Read (codes "x") (codes "ann"))) }
    ensures reopen { found_by (codes "POST") (codes "/docs/x/layers/ann/reopen") ≡ found.At (Book (Layer layer.Reopen (codes "x") (codes "ann"))) }
    ensures ignore { found_by (codes "POST") (codes "/docs/x/layers/ann/ignore") ≡ found.At (Book (Layer layer.Ignore (codes "x") (codes "ann"))) }
    ensures readmit { found_by (codes "POST") (codes "/docs/x/layers/ann/readmit") ≡ found.At (Book (Layer layer.Readmit (codes "x") (codes "ann"))) }
{}

/// The routes on a snapshot.
pub fn examples_of_snapshot_routes()
    ensures items { found_by (codes "GET") (codes "/snapshots/1/items") ≡ found.At (Book (Snapshot snapshot.Items 1)) }
    ensures curated { found_by (codes "GET") (codes "/snapshots/012/curated") ≡ found.At (Book (Snapshot snapshot.Curated 12)) }
    ensures decide { found_by (codes "POST") (codes "/snapshots/1/decisions") ≡ found.At (Book (Snapshot snapshot.Decide 1)) }
    ensures undecide { found_by (codes "POST") (codes "/snapshots/7/undecisions") ≡ found.At (Book (Snapshot snapshot.Undecide 7)) }
{}

/// The numbers of snapshots, of 1 to 18 digits.
pub fn examples_of_numbers()
    ensures leading_zero { number_read (codes "012") ≡ Some 12 }
    ensures eighteen_digits { number_read (codes "999999999999999999") ≡ Some 999999999999999999 }
    ensures nineteen_digits { number_read (codes "0000000000000000001") ≡ None }
    ensures no_digit { number_read (codes "") ≡ None }
    ensures sign { number_read (codes "+1") ≡ None }
{}

/// The routes of a desk.
pub fn examples_of_desk_routes()
    ensures show { found_by (codes "GET") (codes "/desk") ≡ found.At (Desk desk.Show) }
    ensures carry_out { found_by (codes "POST") (codes "/desk/do") ≡ found.At (Desk desk.Do) }
    ensures undo { found_by (codes "POST") (codes "/desk/undo") ≡ found.At (Desk desk.Undo) }
    ensures redo { found_by (codes "POST") (codes "/desk/redo") ≡ found.At (Desk desk.Redo) }
    ensures load { found_by (codes "POST") (codes "/desk/load") ≡ found.At (Desk desk.Load) }
    ensures commit { found_by (codes "POST") (codes "/desk/commit") ≡ found.At (Desk desk.Commit) }
    ensures park { found_by (codes "POST") (codes "/desk/park") ≡ found.At (Desk desk.Park) }
{}

/// Paths and methods that lead nowhere: what a path names is tested before its method.
pub fn examples_of_lost_paths()
    ensures no_path { found_by (codes "GET") (codes "/x") ≡ found.NoRoute }
    ensures empty { found_by (codes "GET") (codes "") ≡ found.NoRoute }
    ensures slash_behind { found_by (codes "GET") (codes "/docs/") ≡ found.NoRoute }
    ensures no_name { found_by (codes "GET") (codes "/docs//text") ≡ found.NoRoute }
    ensures too_deep { found_by (codes "GET") (codes "/docs/x/y/text") ≡ found.NoRoute }
    ensures no_slug { found_by (codes "GET") (codes "/docs/.x/text") ≡ found.NoRoute }
    ensures no_slug_by_any_method { found_by (codes "DELETE") (codes "/docs/.x/text") ≡ found.NoRoute }
    ensures second_no_slug { found_by (codes "GET") (codes "/docs/x/layers/a%20b") ≡ found.NoRoute }
    ensures no_number { found_by (codes "GET") (codes "/snapshots/1a/items") ≡ found.NoRoute }
    ensures other_method { found_by (codes "GET") (codes "/docs/x/checkout") ≡ found.NoMethod }
    ensures case { found_by (codes "get") (codes "/conf") ≡ found.NoMethod }
    ensures put_elsewhere { found_by (codes "PUT") (codes "/desk") ≡ found.NoMethod }
{}

//! Whether a request holds only what a journal can tell again: it does, but for commands with a list that is too long.
ghost use Rattle.std.specs.Prelude.{◌≡◌, false, true};
ghost use Rattle.entry_bytes.specs.Fields.{IsSlug};
ghost use Rattle.project_machine.specs.RequestValues.{IsAsked, IsDocText};
ghost use Rattle.project_state.specs.Values.{asked_of};

use char_documents::Doc;
use command_bytes::{layer_is_typed, scripts_are_typed};
use mark_base::Slug;
use project_state::Request;

/// Tells a proof that a slug is spelt as one. It does nothing.
fn slug_is(slug: &Slug)
    ensures { IsSlug slug.now }
{
    let _text = slug.text();
}

/// Tells a proof that the text of a document is one. It does nothing.
fn doc_is(doc: &Doc)
    ensures { IsDocText doc.now }
{
    let _few = doc.char_count();
    let _text = doc.text();
}

/// Whether a request can be told by a journal: it can, but for a list of more than 4,294,967,295 items in a command.
/// Cost: the commands of a park, the notes and normalizations of a commit.
pub fn is_typed(request: &Request) -> bool
    ensures typed { result ≡ true → IsAsked (asked_of request.now) }
    ensures other { result ≡ false → IsAsked (asked_of request.now) → ⊥ }
{
    match request {
        Request::ReadConf => true,
        Request::ListDocs => true,
        Request::ReadText { doc } => {
            slug_is(doc);
            true
        }
        Request::AddText { doc, text } => {
            slug_is(doc);
            doc_is(text);
            true
        }
        Request::Checkout { doc } => {
            slug_is(doc);
            true
        }
        Request::TakeOver { doc } => {
            slug_is(doc);
            true
        }
        Request::Commit { doc, hold, layer } => {
            slug_is(doc);
            let _hold = *hold;
            layer_is_typed(layer);
            true
        }
        Request::Park {
            doc,
            hold,
            done,
            undone,
        } => {
            slug_is(doc);
            let _hold = *hold;
            scripts_are_typed(done, undone)
        }
        Request::Finish { doc } => {
            slug_is(doc);
            true
        }
        Request::ReadLayer { doc, who } => {
            slug_is(doc);
            slug_is(who);
            true
        }
        Request::Reopen { doc, who } => {
            slug_is(doc);
            slug_is(who);
            true
        }
        Request::Ignore { doc, who } => {
            slug_is(doc);
            slug_is(who);
            true
        }
        Request::Readmit { doc, who } => {
            slug_is(doc);
            slug_is(who);
            true
        }
        Request::Snap { doc } => {
            slug_is(doc);
            true
        }
        Request::TakeSnapshot { number } => {
            let _number = *number;
            true
        }
        Request::Decide { number, holder, .. } => {
            let _number = *number;
            slug_is(holder);
            true
        }
        Request::Undecide { number, holder, .. } => {
            let _number = *number;
            slug_is(holder);
            true
        }
        Request::Pairs => true,
        Request::Alpha => true,
        Request::Report(_) => true,
    }
}

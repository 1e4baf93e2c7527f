//! All messages of the session, one behind another.
ghost use Rattle.std.specs.Prelude.{◌≡◌, ◌++◌, ◌<◌, OnOk, IfOk};
ghost use Rattle.demo_project.specs.Requests.{bytes_of, demo_input, marks, works};
ghost use Rattle.demo_project.specs.Requests as requests;

use crate::requests::{
    accept, check_out, commit, finish, mark, park, put_text, read_alpha, read_curated, read_pairs,
    snap,
};
use mark_base::{Bytes, Memory};
use std::alloc::Global;

/// How many documents there are.
const DOCUMENTS: u32 = 40;

/// How many annotators work on a document.
const RATERS: u32 = 3;

/// How many words an annotator marks.
const MARKED: u32 = 300;

/// An annotator marks the words of a document, one after another.
fn marks(alloc: Global, input: &mut Vec<u8>, number: u32, rater: u32) -> Result<(), Memory>
    requires { rater < 3 }
    ensures { OnOk result (input.new.items ≡ input.old.items ++ bytes_of (marks number rater)) }
{
    for word in 0..MARKED {
        mark(alloc, input, number, rater, word)?;
    }
    Ok(())
}

/// What an annotator does on a document.
fn works(
    alloc: Global,
    input: &mut Vec<u8>,
    number: u32,
    doc: u32,
    rater: u32,
) -> Result<(), Memory>
    requires { rater < 3 }
    ensures { OnOk result (input.new.items ≡ input.old.items ++ bytes_of (works number doc rater)) }
{
    check_out(alloc, input, doc, rater)?;
    marks(alloc, input, number, rater)?;
    commit(input, rater)?;
    park(input, rater)?;
    finish(alloc, input, doc, rater)?;
    Ok(())
}

/// What the annotators do on a document, one after another.
fn all_work(alloc: Global, input: &mut Vec<u8>, number: u32, doc: u32) -> Result<(), Memory>
    ensures { OnOk result (input.new.items ≡ input.old.items ++ bytes_of (requests.all_work number doc)) }
{
    for rater in 0..RATERS {
        works(alloc, input, number, doc, rater)?;
    }
    Ok(())
}

/// What is done with a document, from its text to its curated layer.
fn serve_doc(alloc: Global, input: &mut Vec<u8>, number: u32, doc: u32) -> Result<(), Memory>
    requires { doc < 40 }
    ensures { OnOk result (input.new.items ≡ input.old.items ++ bytes_of (requests.on_doc number doc)) }
{
    put_text(alloc, input, number, doc)?;
    all_work(alloc, input, number, doc)?;
    snap(alloc, input, doc)?;
    accept(alloc, input, doc)?;
    read_curated(alloc, input, doc)?;
    Ok(())
}

/// The messages of all documents.
fn all_docs(alloc: Global, input: &mut Vec<u8>, number: u32) -> Result<(), Memory>
    ensures { OnOk result (input.new.items ≡ input.old.items ++ bytes_of (requests.on_all_docs number)) }
{
    for doc in 0..DOCUMENTS {
        serve_doc(alloc, input, number, doc)?;
    }
    Ok(())
}

/// All messages of the session.
pub(crate) fn demo_input(alloc: Global, number: u32) -> Result<Bytes, Memory>
    ensures { IfOk result (λ bytes. bytes ≡ demo_input number) }
{
    let mut input = Vec::new(alloc);
    all_docs(alloc, &mut input, number)?;
    read_pairs(&mut input)?;
    read_alpha(&mut input)?;
    Ok(Bytes::from_vec(input))
}

//! The requests of the people, one function a kind.
ghost use Rattle.std.specs.Prelude.{◌≡◌, ◌++◌, ◌<◌, ◌≤◌, OnOk, IfOk, string_bytes};
ghost use Rattle.demo_project.specs.Requests.{bytes_of, accept, check_out, commit, doc_path, finish, mark, mark_body, name_of, park, place_of, put_text, read_alpha, read_curated, read_pairs, shift_of, snap, snapshot_path, type_number};

use crate::letters::text_of;
use crate::sending::send;
use mark_base::Memory;
use std::alloc::Global;

/// The name of an annotator.
fn name_of(rater: u32) -> &'static str
    ensures { result.now ≡ name_of rater }
{
    match rater {
        0 => "ann",
        1 => "bob",
        _ => "cid",
    }
}

/// A path of a document.
fn doc_path(alloc: Global, doc: u32, end: &str) -> Result<String, Memory>
    ensures { IfOk result (λ path. string_bytes path ≡ doc_path doc end.now) }
{
    Ok(format!(in alloc; "/docs/d{doc}{end}")?)
}

/// A path of the snapshot of a document.
fn snapshot_path(alloc: Global, doc: u32, end: &str) -> Result<String, Memory>
    requires { doc < 40 }
    ensures { IfOk result (λ path. string_bytes path ≡ snapshot_path doc end.now) }
{
    let number = doc + 1;
    Ok(format!(in alloc; "/snapshots/{number}{end}")?)
}

/// The curator puts the text of a document.
pub(crate) fn put_text(
    alloc: Global,
    input: &mut Vec<u8>,
    number: u32,
    doc: u32,
) -> Result<(), Memory>
    ensures { OnOk result (input.new.items ≡ input.old.items ++ bytes_of (put_text number doc)) }
{
    let path = doc_path(alloc, doc, "/text")?;
    let text = text_of(alloc, number, doc)?;
    send(input, "cur", "PUT", path.as_str(), text.as_slice())?;
    Ok(())
}

/// An annotator checks a document out.
pub(crate) fn check_out(
    alloc: Global,
    input: &mut Vec<u8>,
    doc: u32,
    rater: u32,
) -> Result<(), Memory>
    ensures { OnOk result (input.new.items ≡ input.old.items ++ bytes_of (check_out doc rater)) }
{
    let path = doc_path(alloc, doc, "/checkout")?;
    send(input, name_of(rater), "POST", path.as_str(), b"")?;
    Ok(())
}

/// By how much the type that an annotator gives a word differs from the type that the word has.
fn shift_of(rater: u32, word: u32) -> u32
    requires { rater < 3 }
    ensures shift { result ≡ shift_of rater word }
    ensures small { result < 3 }
{
    if word % 10 == rater { rater } else { 0 }
}

/// The number of the type that an annotator gives a word.
fn type_number(number: u32, rater: u32, word: u32) -> u64
    requires { rater < 3 }
    ensures { result ≡ type_number number rater word }
{
    (u64::from(word) + u64::from(number) + u64::from(shift_of(rater, word))) % 18
}

/// Where a word stands.
fn place_of(alloc: Global, word: u32) -> Result<String, Memory>
    requires { word < 300 }
    ensures { IfOk result (λ place. string_bytes place ≡ place_of word) }
{
    let start = 5 * word;
    let end = start + 4;
    Ok(format!(in alloc; "{start} {end}")?)
}

/// The body of the request for the span of a word.
fn mark_body(alloc: Global, number: u32, rater: u32, word: u32) -> Result<String, Memory>
    requires rater { rater < 3 }
    requires word { word < 300 }
    ensures { IfOk result (λ body. string_bytes body ≡ mark_body number rater word) }
{
    let place = place_of(alloc, word)?;
    let kind = type_number(number, rater, word);
    Ok(format!(in alloc; "{{\"at\":\"{place}\",\"do\":\"add-span\",\"type\":\"K{kind}\"}}")?)
}

/// An annotator adds the span of a word.
pub(crate) fn mark(
    alloc: Global,
    input: &mut Vec<u8>,
    number: u32,
    rater: u32,
    word: u32,
) -> Result<(), Memory>
    requires rater { rater < 3 }
    requires word { word < 300 }
    ensures { OnOk result (input.new.items ≡ input.old.items ++ bytes_of (mark number rater word)) }
{
    let body = mark_body(alloc, number, rater, word)?;
    send(input, name_of(rater), "POST", "/desk/do", body.as_bytes())?;
    Ok(())
}

/// An annotator commits the layer of the desk.
pub(crate) fn commit(input: &mut Vec<u8>, rater: u32) -> Result<(), Memory>
    ensures { OnOk result (input.new.items ≡ input.old.items ++ bytes_of (commit rater)) }
{
    send(input, name_of(rater), "POST", "/desk/commit", b"")?;
    Ok(())
}

/// An annotator gives the desk up.
pub(crate) fn park(input: &mut Vec<u8>, rater: u32) -> Result<(), Memory>
    ensures { OnOk result (input.new.items ≡ input.old.items ++ bytes_of (park rater)) }
{
    send(input, name_of(rater), "POST", "/desk/park", b"")?;
    Ok(())
}

/// An annotator finishes the layer of a document.
pub(crate) fn finish(alloc: Global, input: &mut Vec<u8>, doc: u32, rater: u32) -> Result<(), Memory>
    ensures { OnOk result (input.new.items ≡ input.old.items ++ bytes_of (finish doc rater)) }
{
    let path = doc_path(alloc, doc, "/finish")?;
    send(input, name_of(rater), "POST", path.as_str(), b"")?;
    Ok(())
}

/// The curator takes a snapshot of a document.
pub(crate) fn snap(alloc: Global, input: &mut Vec<u8>, doc: u32) -> Result<(), Memory>
    ensures { OnOk result (input.new.items ≡ input.old.items ++ bytes_of (snap doc)) }
{
    let path = doc_path(alloc, doc, "/snapshots")?;
    send(input, "cur", "POST", path.as_str(), b"")?;
    Ok(())
}

/// The curator accepts the second span of the first annotator in the snapshot of a document.
pub(crate) fn accept(alloc: Global, input: &mut Vec<u8>, doc: u32) -> Result<(), Memory>
    requires { doc < 40 }
    ensures { OnOk result (input.new.items ≡ input.old.items ++ bytes_of (accept doc)) }
{
    let path = snapshot_path(alloc, doc, "/decisions")?;
    send(
        input,
        "cur",
        "POST",
        path.as_str(),
        b"{\"item\":\"ann/T2\",\"verdict\":\"accept\"}",
    )?;
    Ok(())
}

/// The curator reads the curated layer of the snapshot of a document.
pub(crate) fn read_curated(alloc: Global, input: &mut Vec<u8>, doc: u32) -> Result<(), Memory>
    requires { doc < 40 }
    ensures { OnOk result (input.new.items ≡ input.old.items ++ bytes_of (read_curated doc)) }
{
    let path = snapshot_path(alloc, doc, "/curated")?;
    send(input, "cur", "GET", path.as_str(), b"")?;
    Ok(())
}

/// The curator reads the table of each two annotators.
pub(crate) fn read_pairs(input: &mut Vec<u8>) -> Result<(), Memory>
    ensures { OnOk result (input.new.items ≡ input.old.items ++ bytes_of read_pairs) }
{
    send(input, "cur", "GET", "/agreement/pairs", b"")?;
    Ok(())
}

/// The curator reads the table of all annotators.
pub(crate) fn read_alpha(input: &mut Vec<u8>) -> Result<(), Memory>
    ensures { OnOk result (input.new.items ≡ input.old.items ++ bytes_of read_alpha) }
{
    send(input, "cur", "GET", "/agreement/alpha", b"")?;
    Ok(())
}

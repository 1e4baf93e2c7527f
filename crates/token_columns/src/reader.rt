//! Reading columns.
ghost use Rattle.std.specs.Prelude.{◌≡◌, ◌≤◌, [], None, Ok, length, map, slice_get, slice_index_or, IfOk, IfErr};
ghost use Rattle.std.specs.Str.Lines.{lines};
ghost use Rattle.char_documents.specs.Tokens.{tokens_of};
ghost use Rattle.token_columns.specs.ColumnFiles.{IsColumns};
ghost use Rattle.token_columns.specs.Columns.{token_text};
ghost use Rattle.token_columns.specs.LineShows.{seen_text};
ghost use Rattle.token_columns.specs.ReadColumns.{read_from, read_of, Tells};
ghost use Rattle.token_columns.specs.ReadRuns.{SaysRuns};

use crate::column_fault::{ColumnFault, ColumnWhat};
use crate::layer_runs::layer_of;
use crate::line::{Before, Judged, is_blank, judge};
use crate::run::{Run, begun, close, close_by, opened};
use crate::token_texts::token_texts;
use char_documents::Doc;
use conf_model::Conf;
use layer_model::Layer;
use mark_base::{Frag, Memory, count_line_ends};
use std::alloc::{AllocError, Global};
use std::str;

/// The lines of a text.
fn pieces(alloc: Global, text: &str) -> Result<Vec<&str>, AllocError>
    ensures { IfOk result (λ found. map seen_text found.items ≡ lines text.now) }
{
    text.lines().collect(alloc)
}

/// The lines of a text. Cost: the text.
fn lines(alloc: Global, text: &str) -> Result<Vec<&str>, Memory>
    ensures { IfOk result (λ found. map seen_text found.items ≡ lines text.now) }
{
    Ok(pieces(alloc, text)?)
}

/// The next token, where one is left.
fn next_token(tokens: &[Frag], place: usize) -> Option<Frag>
    ensures { result ≡ slice_get tokens.now place }
{
    match tokens.get(place) {
        Some(token) => Some(*token),
        None => None,
    }
}

/// The text of the next token, or none.
fn next_text<'a>(texts: &[&'a str], place: usize) -> &'a str
    ensures { result.now ≡ slice_index_or (map seen_text texts.now) place [] }
{
    match texts.get(place) {
        Some(text) => *text,
        None => "",
    }
}

/// The spans that lines say, in one pass over them, or the first fault.
fn runs_read(
    alloc: Global,
    doc: &Doc,
    conf: &Conf,
    texts: &[&str],
    lines: &[&str],
) -> Result<Vec<Run>, ColumnFault>
    requires texts { map seen_text texts.now ≡ map (token_text doc.now) (tokens_of doc.now) }
    requires few { length lines.now ≤ 16777217 }
    ensures read { IfOk result (λ runs. SaysRuns (read_from conf.now doc.now 1 [] (tokens_of doc.now) (map seen_text lines.now)) runs.items) }
    ensures few { IfOk result (λ runs. length runs.items ≤ 10000) }
    ensures fault { IfErr result (Tells (read_from conf.now doc.now 1 [] (tokens_of doc.now) (map seen_text lines.now))) }
{
    let tokens = doc.tokens();
    let mut runs = Vec::new(alloc);
    let mut last: Option<Run> = None;
    let mut place: usize = 0;
    let mut number: u32 = 1;
    for line in lines {
        if !is_blank(line.as_bytes()) {
            let before = Before {
                last,
                begun: begun(&runs, last),
                token: next_token(tokens, place),
            };
            match judge(alloc, doc, conf, &before, next_text(texts, place), line)? {
                Judged::Fault(what) => return Err(ColumnFault::At { line: number, what }),
                Judged::Read(label) => {
                    close_by(&mut runs, last, label)?;
                    last = opened(last, tokens[place], label);
                    place += 1;
                }
            }
        }
        number += 1;
    }
    if place < tokens.len() {
        return Err(ColumnFault::At {
            line: number,
            what: ColumnWhat::TooFew,
        });
    }
    close(&mut runs, last)?;
    Ok(runs)
}

/// The layer that a text shows, or its first fault.
fn read_text(alloc: Global, text: &str, doc: &Doc, conf: &Conf) -> Result<Layer, ColumnFault>
    requires { length text.now ≤ 16777216 }
    ensures read { IfOk result (IsColumns conf.now doc.now text.now) }
    ensures fault { IfErr result (Tells (read_from conf.now doc.now 1 [] (tokens_of doc.now) (lines text.now))) }
{
    let texts = token_texts(alloc, doc)?;
    let lines = lines(alloc, text)?;
    let runs = runs_read(alloc, doc, conf, &texts, &lines)?;
    Ok(layer_of(alloc, &runs)?)
}

/// Reads columns, of at most 16,777,216 bytes: the layer that they show for the document. Blank lines, of spaces,
/// TABs and carriage returns alone, are passed over, one carriage return before a line feed is dropped, and the last
/// line feed may be absent. The fault is that of the first line that has one. Memory may run out at any time. Cost:
/// the bytes, the text, and a look-up for each label that begins a span or names another type than the span before it.
#[tactic(auto, unfolding(crate::specs::ReadColumns::read_of))]
pub fn read_columns(
    alloc: Global,
    bytes: &[u8],
    doc: &Doc,
    conf: &Conf,
) -> Result<Layer, ColumnFault>
    requires { length bytes.now ≤ 16777216 }
    ensures read { IfOk result (IsColumns conf.now doc.now bytes.now) }
    ensures fault { IfErr result (Tells (read_of conf.now doc.now bytes.now)) }
{
    match str::from_utf8(bytes) {
        Ok(text) => read_text(alloc, text, doc, conf),
        Err(error) => {
            let valid = error.valid_up_to();
            Err(ColumnFault::At {
                line: count_line_ends(&bytes[..valid]) as u32 + 1,
                what: ColumnWhat::NotUtf8,
            })
        }
    }
}

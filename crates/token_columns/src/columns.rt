//! The columns of a layer as a text.
ghost use Rattle.std.specs.Prelude.{◌≡◌, ◌++◌, codes, length, string_bytes, IfOk, OnOk};
ghost use Rattle.conf_model.specs.ConfText.{type_name_at};
ghost use Rattle.token_columns.specs.Columns.{columns, label_word};
ghost use Rattle.token_columns.specs.Labels.{label_by, runs_of};
ghost use Rattle.token_columns.specs.WriteRuns.{first_at, still, text_from};
ghost use Rattle.char_documents.specs.Tokens.{tokens_of};

use crate::label::Label;
use crate::run::Run;
use crate::token_texts::token_texts;
use char_documents::Doc;
use conf_model::Conf;
use mark_base::{Frag, Memory, TypeId};
use std::alloc::Global;

/// The label of a token that a span covers, or none.
fn label_by(found: Option<Run>, token: Frag) -> Label
    ensures { result ≡ label_by found token }
{
    match found {
        None => Label::Out,
        Some(run) => {
            if run.start == token.start {
                Label::Begin(run.kind)
            } else {
                Label::Inside(run.kind)
            }
        }
    }
}

/// The runs without those in front that end at a character or before.
fn still(runs: &[Run], character: u32) -> &[Run]
    ensures { result.now ≡ still character runs.now }
{
    let mut left = runs;
    while let Some((first, rest)) = left.split_first() {
        if first.end > character {
            return left;
        }
        left = rest;
    }
    left
}

/// The first of some runs, where it starts at a character or before.
fn first_at(runs: &[Run], character: u32) -> Option<Run>
    ensures { result ≡ first_at character runs.now }
{
    match runs {
        [first, ..] => {
            if first.start <= character {
                Some(*first)
            } else {
                None
            }
        }
        [] => None,
    }
}

/// The name of a type by its place.
fn type_name(conf: &Conf, id: TypeId) -> &str
    ensures { result.now ≡ type_name_at conf.now id.n }
{
    match conf.types().row(id) {
        Some(row) => row.name.text(),
        None => "",
    }
}

/// Appends a label.
fn push_label(out: &mut String, conf: &Conf, label: Label) -> Result<(), Memory>
    ensures { OnOk result (string_bytes out.new ≡ string_bytes out.old ++ label_word conf.now label) }
{
    match label {
        Label::Out => out.push_str("O")?,
        Label::Begin(kind) => {
            out.push_str("B-")?;
            out.push_str(type_name(conf, kind))?;
        }
        Label::Inside(kind) => {
            out.push_str("I-")?;
            out.push_str(type_name(conf, kind))?;
        }
    }
    Ok(())
}

/// Appends a line: the text of a token, a TAB and a label.
fn push_line(out: &mut String, conf: &Conf, text: &str, label: Label) -> Result<(), Memory>
    ensures { OnOk result (string_bytes out.new ≡ string_bytes out.old ++ ((text.now ++ codes "\t" ++ label_word conf.now label) ++ codes "\n")) }
{
    out.push_str(text)?;
    out.push_str("\t")?;
    push_label(out, conf, label)?;
    out.push_str("\n")?;
    Ok(())
}

/// The lines of the tokens among some runs, in one pass over both. Cost: the text and the runs.
pub(crate) fn column_text(
    alloc: Global,
    doc: &Doc,
    conf: &Conf,
    runs: &[Run],
) -> Result<String, Memory>
    ensures { IfOk result (λ text. string_bytes text ≡ text_from conf.now doc.now runs.now (tokens_of doc.now)) }
{
    let texts = token_texts(alloc, doc)?;
    let tokens = doc.tokens();
    let mut out = String::new(alloc);
    let mut left = runs;
    for (place, text) in texts.iter().enumerate() {
        let token = tokens[place];
        left = still(left, token.start);
        push_line(
            &mut out,
            conf,
            text,
            label_by(first_at(left, token.start), token),
        )?;
    }
    Ok(out)
}

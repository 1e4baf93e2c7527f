//! The table of scores as CSV.
ghost use Rattle.std.specs.Prelude.{◌≡◌, ◌++◌, ◌<◌, length, map, IfOk, IfSome, OnOk};
ghost use Rattle.kappa_alpha.specs.Figures.{Writable};
ghost use Rattle.agreement_report.specs.Report.{IsReady, figure_fields, row, text_of};
ghost use Rattle.match_scores.specs.ScoreTable.{fields_of, rows_of_one, rows_of_two, score_fields, scores_table, sort_name};

use crate::scores::Scores;
use crate::sort::Sort;
use agreement_report::decimals;
use csv::Writer;
use kappa_alpha::Fraction;
use mark_base::{Bytes, Memory, Slug, Text};
use std::alloc::Global;

/// A score's two numbers and its decimals.
#[derive(Drop)]
struct ScoreTexts {
    top: Text,
    bottom: Text,
    decimals: Text,
}

/// The fields of a score: 0, 0 and `undefined` where there is none.
fn score_texts(alloc: Global, score: Option<Fraction>) -> Result<ScoreTexts, Memory>
    requires { IfSome score (λ f. Writable f) }
    ensures { IfOk result (λ texts. fields_of texts ≡ figure_fields score) }
{
    match score {
        Some(f) => Ok(ScoreTexts {
            top: Text::from_string(f.top.to_string(alloc)?),
            bottom: Text::from_string(f.bottom.to_string(alloc)?),
            decimals: decimals(alloc, f)?,
        }),
        None => Ok(ScoreTexts {
            top: Text::of(alloc, "0")?,
            bottom: Text::of(alloc, "0")?,
            decimals: Text::of(alloc, "undefined")?,
        }),
    }
}

/// The name of a sort.
fn name_of(sort: Sort) -> &'static str
    ensures { result.now ≡ sort_name sort }
{
    match sort {
        Sort::Spans => "spans",
        Sort::Events => "events",
        Sort::Relations => "relations",
    }
}

/// Writes a record. A vector takes all that there is memory for.
fn write_row(writer: &mut Writer<Vec<u8>>, fields: &[&[u8]]) -> Result<(), Memory>
    requires { IsReady writer.old }
    ensures ready { OnOk result (IsReady writer.new) }
    ensures written { OnOk result (text_of writer.new ≡ text_of writer.old ++ row (map (λ f. f.now) fields.now)) }
{
    match writer.write_fields(fields) {
        Ok(()) => Ok(()),
        Err(_) => Err(Memory),
    }
}

/// The bytes that a writer has written.
fn finish(writer: Writer<Vec<u8>>) -> Result<Bytes, Memory>
    ensures { IfOk result (λ bytes. bytes ≡ text_of writer) }
{
    match writer.into_inner() {
        Ok(text) => Ok(Bytes::from_vec(text)),
        Err(_) => Err(Memory),
    }
}

/// Writes the row of two annotators and a sort.
fn write_score(
    alloc: Global,
    writer: &mut Writer<Vec<u8>>,
    names: &[Slug],
    scores: &Scores,
    first: u8,
    second: u8,
    sort: Sort,
) -> Result<(), Memory>
    requires ready { IsReady writer.old }
    requires named { length names.now ≡ scores.now.raters }
    requires apart { first < second }
    requires second_in { second < scores.now.raters }
    ensures ready { OnOk result (IsReady writer.new) }
    ensures written { OnOk result (text_of writer.new ≡ text_of writer.old ++ row (score_fields names.now scores.now first second sort)) }
{
    let line = scores.line(first, second, sort);
    let sort = Text::of(alloc, name_of(sort))?;
    let both = line.both.to_string(alloc)?;
    let first_only = line.first_only.to_string(alloc)?;
    let second_only = line.second_only.to_string(alloc)?;
    let score = score_texts(alloc, line.score)?;
    write_row(
        writer,
        &[
            names[first as usize].text().as_bytes(),
            names[second as usize].text().as_bytes(),
            sort.text().as_bytes(),
            both.as_bytes(),
            first_only.as_bytes(),
            second_only.as_bytes(),
            score.top.text().as_bytes(),
            score.bottom.text().as_bytes(),
            score.decimals.text().as_bytes(),
        ],
    )
}

/// Writes the rows of two annotators.
fn write_two(
    alloc: Global,
    writer: &mut Writer<Vec<u8>>,
    names: &[Slug],
    scores: &Scores,
    first: u8,
    second: u8,
) -> Result<(), Memory>
    requires ready { IsReady writer.old }
    requires named { length names.now ≡ scores.now.raters }
    requires apart { first < second }
    requires second_in { second < scores.now.raters }
    ensures ready { OnOk result (IsReady writer.new) }
    ensures written { OnOk result (text_of writer.new ≡ text_of writer.old ++ rows_of_two names.now scores.now first second) }
{
    write_score(alloc, writer, names, scores, first, second, Sort::Spans)?;
    write_score(alloc, writer, names, scores, first, second, Sort::Events)?;
    write_score(alloc, writer, names, scores, first, second, Sort::Relations)
}

/// Writes the rows of an annotator with each later one.
fn write_later(
    alloc: Global,
    writer: &mut Writer<Vec<u8>>,
    names: &[Slug],
    scores: &Scores,
    first: u8,
) -> Result<(), Memory>
    requires ready { IsReady writer.old }
    requires named { length names.now ≡ scores.now.raters }
    requires first_in { first < scores.now.raters }
    ensures ready { OnOk result (IsReady writer.new) }
    ensures written { OnOk result (text_of writer.new ≡ text_of writer.old ++ rows_of_one names.now scores.now first) }
{
    let raters = scores.raters();
    for second in first + 1..raters {
        write_two(alloc, writer, names, scores, first, second)?;
    }
    Ok(())
}

/// The table of the scores of each two annotators: for each two, in the order of their numbers, a row for spans, one for
/// events and one for relations. `names` are the annotators' by number. A score is written as its two whole numbers, not
/// reduced, and with four decimals cut towards zero. Cost: the table; no layer is looked at.
pub fn scores_csv(alloc: Global, names: &[Slug], scores: &Scores) -> Result<Bytes, Memory>
    requires { length names.now ≡ scores.now.raters }
    ensures { IfOk result (λ bytes. bytes ≡ scores_table names.now scores.now) }
{
    let mut writer = Writer::from_writer(Vec::new(alloc));
    write_row(
        &mut writer,
        &[
            b"first",
            b"second",
            b"sort",
            b"both",
            b"first_only",
            b"second_only",
            b"top",
            b"bottom",
            b"score",
        ],
    )?;
    let raters = scores.raters();
    for first in 0..raters {
        write_later(alloc, &mut writer, names, scores, first)?;
    }
    finish(writer)
}

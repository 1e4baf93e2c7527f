ghost use Rattle.std.specs.Prelude.{◌≡◌, ◌<◌, List, [], ◌++◌, length, map, All, IfOk, OnOk, IfSome};
ghost use Rattle.kappa_alpha.specs.Figures.{Writable};
ghost use Rattle.agreement_report.specs.Report.{IsReady, IsShown, alpha_table, figure_fields, fields_of, pair_fields, pairs_table, row, text_of};

use crate::figure::decimals;
use csv::Writer;
use kappa_alpha::{AlphaLine, Fraction, PairLine};
use mark_base::{Bytes, Memory, Slug, Text};
use std::alloc::Global;

/// A figure's two numbers and its decimals.
#[derive(Drop)]
struct FigureTexts {
    top: Text,
    bottom: Text,
    decimals: Text,
}

/// The fields of a figure: 0, 0 and `undefined` where there is none.
fn figure_texts(alloc: Global, figure: Option<Fraction>) -> Result<FigureTexts, Memory>
    requires { IfSome figure (λ f. Writable f) }
    ensures { IfOk result (λ texts. fields_of texts ≡ figure_fields figure) }
{
    match figure {
        Some(f) => Ok(FigureTexts {
            top: Text::from_string(f.top.to_string(alloc)?),
            bottom: Text::from_string(f.bottom.to_string(alloc)?),
            decimals: decimals(alloc, f)?,
        }),
        None => Ok(FigureTexts {
            top: Text::of(alloc, "0")?,
            bottom: Text::of(alloc, "0")?,
            decimals: Text::of(alloc, "undefined")?,
        }),
    }
}

/// Writes a record. A vector takes all that there is memory for.
fn write_row(writer: &mut Writer<Vec<u8>>, fields: &[&[u8]]) -> Result<(), Memory>
    requires { IsReady writer.old }
    ensures ready { OnOk result (IsReady writer.new) }
    ensures written { OnOk result (text_of writer.new ≡ text_of writer.old ++ row (map (λ f. f.now) fields.now)) }
{
    match writer.write_fields(fields) {
        Ok(()) => Ok(()),
        Err(_) => Err(Memory),
    }
}

/// The bytes that a writer has written.
fn finish(writer: Writer<Vec<u8>>) -> Result<Bytes, Memory>
    ensures { IfOk result (λ bytes. bytes ≡ text_of writer) }
{
    match writer.into_inner() {
        Ok(text) => Ok(Bytes::from_vec(text)),
        Err(_) => Err(Memory),
    }
}

/// Writes the row of two raters.
fn write_pair(
    alloc: Global,
    writer: &mut Writer<Vec<u8>>,
    names: &[Slug],
    line: &PairLine,
) -> Result<(), Memory>
    requires ready { IsReady writer.old }
    requires fits { IsShown (length names.now) line.now }
    ensures ready { OnOk result (IsReady writer.new) }
    ensures written { OnOk result (text_of writer.new ≡
        text_of writer.old ++ row (pair_fields names.now line.now)) }
{
    let units = line.units.to_string(alloc)?;
    let agreed = line.agreed.to_string(alloc)?;
    let figure = figure_texts(alloc, line.kappa)?;
    write_row(
        writer,
        &[
            names[line.first as usize].text().as_bytes(),
            names[line.second as usize].text().as_bytes(),
            units.as_bytes(),
            agreed.as_bytes(),
            figure.top.text().as_bytes(),
            figure.bottom.text().as_bytes(),
            figure.decimals.text().as_bytes(),
        ],
    )
}

/// The table of each two raters, a row for each line in their order, with the raters' names.
///
/// Cost: the length of the table.
pub fn pairs_csv(alloc: Global, names: &[Slug], lines: &[PairLine]) -> Result<Bytes, Memory>
    requires { All (λ line. IsShown (length names.now) line) lines.now }
    ensures { IfOk result (λ bytes. bytes ≡ pairs_table names.now lines.now) }
{
    let mut writer = Writer::from_writer(Vec::new(alloc));
    write_row(
        &mut writer,
        &[
            b"first", b"second", b"units", b"agreed", b"top", b"bottom", b"kappa",
        ],
    )?;
    for line in lines {
        write_pair(alloc, &mut writer, names, line)?;
    }
    finish(writer)
}

/// The table of all raters: one row.
pub fn alpha_csv(alloc: Global, line: &AlphaLine) -> Result<Bytes, Memory>
    requires { IfSome line.now.alpha (λ f. Writable f) }
    ensures { IfOk result (λ bytes. bytes ≡ alpha_table line.now) }
{
    let units = line.units.to_string(alloc)?;
    let values = line.values.to_string(alloc)?;
    let figure = figure_texts(alloc, line.alpha)?;
    let mut writer = Writer::from_writer(Vec::new(alloc));
    write_row(
        &mut writer,
        &[b"units", b"values", b"top", b"bottom", b"alpha"],
    )?;
    write_row(
        &mut writer,
        &[
            units.as_bytes(),
            values.as_bytes(),
            figure.top.text().as_bytes(),
            figure.bottom.text().as_bytes(),
            figure.decimals.text().as_bytes(),
        ],
    )?;
    finish(writer)
}

//! The figures of agreement, as lines of the summary.
ghost use Rattle.std.specs.Prelude.{◌≡◌, ◌++◌, OnOk, length, string_bytes, All};
ghost use Rattle.std.specs.List.{flat_map};
ghost use Rattle.project_machine.specs.History.{after};
ghost use Rattle.agreement_report.specs.Report.{IsShown};
ghost use Rattle.demo_project.specs.Summary.{counted, figure_line, figures_of, pair_text};

use crate::snapshots::read;
use kappa_alpha::{Fraction, PairLine};
use mark_base::{Memory, Slug, Steps};
use project_book::{Book, Reply, Request};
use project_journal::Keeper;
use std::alloc::Global;
use std::sync::ledger::Ledger;

/// Appends a number behind what it counts.
#[tactic(auto, unfolding(crate::specs::Summary::counted))]
pub(crate) fn push_count(lines: &mut String, label: &str, number: u64) -> Result<(), Memory>
    ensures { OnOk result (string_bytes lines.new ≡ string_bytes lines.old ++ counted label.now number) }
{
    lines.push_str(label)?;
    writeln!(lines, "{number}")?;
    Ok(())
}

/// Appends a figure behind whose it is.
#[tactic(auto, unfolding(crate::specs::Summary::figure_line))]
fn push_figure(lines: &mut String, label: &str, figure: Option<Fraction>) -> Result<(), Memory>
    ensures { OnOk result (string_bytes lines.new ≡ string_bytes lines.old ++ figure_line label.now figure) }
{
    match figure {
        Some(f) => {
            let top = f.top;
            let bottom = f.bottom;
            writeln!(lines, "{label} {top}/{bottom}")?;
        }
        None => writeln!(lines, "{label} undefined")?,
    }
    Ok(())
}

/// Appends the kappa of two annotators.
fn push_pair(
    alloc: Global,
    lines: &mut String,
    names: &[Slug],
    line: &PairLine,
) -> Result<(), Memory>
    requires { IsShown (length names.now) line.now }
    ensures { OnOk result (string_bytes lines.new ≡ string_bytes lines.old ++ pair_text names.now line.now) }
{
    let first = names[line.first as usize].text();
    let second = names[line.second as usize].text();
    let label = format!(in alloc; "{first} {second}")?;
    push_figure(lines, label.as_str(), line.kappa)?;
    Ok(())
}

/// Appends the kappa of each two annotators.
fn push_pairs(
    alloc: Global,
    lines: &mut String,
    names: &[Slug],
    pairs: &[PairLine],
) -> Result<(), Memory>
    requires { All (λ line. IsShown (length names.now) line) pairs.now }
    ensures { OnOk result (string_bytes lines.new ≡ string_bytes lines.old ++ flat_map (pair_text names.now) pairs.now) }
{
    for pair in pairs {
        push_pair(alloc, lines, names, pair)?;
    }
    Ok(())
}

/// Appends the figures of a project.
pub(crate) fn push_figures<K: Keeper, G: Ledger>(
    alloc: Global,
    lines: &mut String,
    book: &mut Book<K>,
    caller: &Slug,
    steps: &mut Steps<G>,
) -> Result<(), Memory>
    ensures { OnOk result (string_bytes lines.new ≡ string_bytes lines.old ++ figures_of book.old.log) }
{
    let (names, pairs) = match read(book, caller, Request::Pairs, steps) {
        Reply::Pairs(names, pairs) => (names, pairs),
        _ => return Err(Memory),
    };
    push_pairs(alloc, lines, names.items(), pairs.items())?;
    let Reply::Alpha(line) = read(book, caller, Request::Alpha, steps) else {
        return Err(Memory);
    };
    push_figure(lines, "alpha", line.alpha)?;
    Ok(())
}

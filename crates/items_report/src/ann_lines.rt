//! The lines of an .ann file, found by the IDs before their first TABs.
ghost use Rattle.std.specs.Prelude.{◌≡◌, ◌==◌, ◌≤◌, length, map, IfOk};
ghost use Rattle.std.specs.List.{position_or_len};
ghost use Rattle.items_report.specs.ItemRows.{behind_id, id_in, lines_of, rest_in};
ghost use Rattle.items_report.specs.FoundLines.{FindsLines};

use mark_base::Memory;
use std::alloc::{AllocError, Global};
use std::collections::BTreeMap;
use std::marker::Model;

/// The lines of a file, and what stands behind each ID.
#[derive(Drop)]
pub(crate) struct AnnLines<'f> {
    lines: Vec<&'f [u8]>,
    behind: BTreeMap<&'f [u8], &'f [u8]>,
}

impl<'f> Model for AnnLines<'f> {
    ghost use Rattle.std.specs.Prelude.{List, ℕ, map};
    ghost use Rattle.items_report.specs.FoundLines.{FindsLines};

    ghost Value = { List (List ℕ) };

    ghost view = { λ file. map (λ line. line.now) file.lines.items };

    ghost invariant = { λ file. FindsLines (map (λ line. line.now) file.lines.items) file.behind };
}

/// The lines of a file.
fn lines_of(alloc: Global, file: &[u8]) -> Result<Vec<&[u8]>, AllocError>
    ensures { IfOk result (λ lines. map (λ line. line.now) lines.items ≡ lines_of file.now) }
{
    file.split(|byte| *byte == b'\n').collect(alloc)
}

/// The place of the first TAB of a line, or its length.
fn place_of_tab(line: &[u8]) -> usize
    ensures value { result ≡ position_or_len (λ byte. byte == 9) line.now }
    ensures within { result ≤ length line.now }
{
    for (place, byte) in line.iter().enumerate() {
        if *byte == b'\t' {
            return place;
        }
    }
    line.len()
}

/// What stands before the first TAB of a line.
fn id_in(line: &[u8]) -> &[u8]
    ensures { result.now ≡ id_in line.now }
{
    &line[..place_of_tab(line)]
}

/// What stands behind the first TAB of a line.
fn rest_in(line: &[u8]) -> &[u8]
    ensures { result.now ≡ rest_in line.now }
{
    let place = place_of_tab(line);
    if place == line.len() {
        return &[];
    }
    &line[place + 1..]
}

/// What stands behind each ID in the first line that begins with it: the last line is put down first.
fn behind_ids<'f>(alloc: Global, lines: &[&'f [u8]]) -> Result<BTreeMap<&'f [u8], &'f [u8]>, Memory>
    ensures { IfOk result (FindsLines (map (λ line. line.now) lines.now)) }
{
    let mut behind = BTreeMap::new(alloc);
    let mut left = lines.len();
    while left > 0 {
        left -= 1;
        let line = lines[left];
        behind.insert(id_in(line), rest_in(line))?;
    }
    Ok(behind)
}

impl<'f> AnnLines<'f> {
    /// The lines of a file. Cost: its bytes, and for each line the logarithm of their number.
    pub(crate) fn of(alloc: Global, file: &'f [u8]) -> Result<AnnLines<'f>, Memory>
        ensures { IfOk result (λ lines. lines ≡ lines_of file.now) }
    {
        let lines = lines_of(alloc, file)?;
        let behind = behind_ids(alloc, &lines)?;
        Ok(AnnLines { lines, behind })
    }

    /// What stands behind an ID in its line. Cost: the logarithm of the number of lines.
    pub(crate) fn behind(&self, id: &[u8]) -> &'f [u8]
        ensures { result.now ≡ behind_id id.now self.now }
    {
        match self.behind.get(id) {
            Some(rest) => rest,
            None => &[],
        }
    }
}

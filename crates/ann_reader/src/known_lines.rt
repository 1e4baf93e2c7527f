//! The lines of a file, with the line of each ID.
ghost use Rattle.std.specs.Prelude.{◌≡◌, map, IfOk, option_map};
ghost use Rattle.ann_reader.specs.LineForms.{head_field};
ghost use Rattle.mark_base.specs.ReadIds.{id_read};
ghost use Rattle.ann_reader.specs.LineFaults.{headed_by};
ghost use Rattle.ann_reader.specs.LineShows.{seen_line};
ghost use Rattle.ann_reader.specs.KnownLines.{FindsHeads};

use crate::line::{Line, before, without_end};
use crate::line_form::begins_two;
use crate::word::first_byte;
use layer_model::rank;
use mark_base::{AnnId, Memory};
use std::alloc::Global;
use std::collections::BTreeMap;
use std::marker::Model;

/// The lines of a file in their order, and the number of the first line of each ID.
#[derive(Drop)]
pub(crate) struct KnownLines<'a> {
    lines: Vec<Line<'a>>,
    heads: BTreeMap<u64, u32>,
}

impl<'a> Model for KnownLines<'a> {
    ghost use Rattle.std.specs.Prelude.{List, map};
    ghost use Rattle.ann_reader.specs.Lines.{Line};
    ghost use Rattle.ann_reader.specs.LineShows.{seen_line};
    ghost use Rattle.ann_reader.specs.KnownLines.{FindsHeads};

    ghost Value = { List Line };

    ghost view = { λ known. map seen_line known.lines.items };

    ghost invariant = { λ known. FindsHeads (map seen_line known.lines.items) known.heads };
}

/// The first field of a line, as it counts for the IDs of a file: what a line of two fields drops at its
/// end is no part of it.
fn head_field(line: &str) -> &str
    ensures { result.now ≡ head_field line.now }
{
    if begins_two(first_byte(line.as_bytes())) {
        before(without_end(line), b'\t')
    } else {
        before(line, b'\t')
    }
}

/// The ID that the first field of a line spells.
fn head_of(line: &Line) -> Option<AnnId>
    ensures { result ≡ id_read (head_field line.now.text.now) }
{
    AnnId::read(head_field(line.text).as_bytes())
}

/// The number of the first line of each ID.
fn gather_heads(alloc: Global, lines: &[Line]) -> Result<BTreeMap<u64, u32>, Memory>
    ensures { IfOk result (FindsHeads (map seen_line lines.now)) }
{
    let mut heads = BTreeMap::new(alloc);
    for line in lines {
        if let Some(id) = head_of(line) {
            if let Some(first) = heads.insert(rank(id), line.number)? {
                heads.insert(rank(id), first)?;
            }
        }
    }
    Ok(heads)
}

impl<'a> KnownLines<'a> {
    /// These lines. Cost: the number of lines times its logarithm, and their lengths.
    pub fn of(alloc: Global, lines: Vec<Line<'a>>) -> Result<KnownLines<'a>, Memory>
        ensures { IfOk result (λ known. known ≡ map seen_line lines.entry.items) }
    {
        let heads = gather_heads(alloc, &lines)?;
        Ok(KnownLines { lines, heads })
    }

    /// The lines in their order.
    pub fn lines(&self) -> &[Line<'a>]
        ensures { map seen_line result.now ≡ self.now }
    {
        self.lines.as_slice()
    }

    /// The number of the first line whose first field is the ID. Cost: as the look-up of an ordered map.
    pub fn head(&self, id: AnnId) -> Option<u32>
        ensures { result ≡ option_map (λ line. line.number) (headed_by id self.now) }
    {
        self.heads.get(&rank(id)).copied()
    }
}

//! The .ann files of the holders of a snapshot.
ghost use Rattle.std.specs.Prelude.{◌≡◌, map, IfOk};
ghost use Rattle.items_report.specs.ItemRows.{lines_of};
ghost use Rattle.items_report.specs.ItemsTable.{CanBeListed, files_of};

use crate::ann_lines::AnnLines;
use ann_writer::ann_bytes;
use char_documents::Doc;
use conf_model::Conf;
use layer_model::Snapshot;
use mark_base::{Bytes, Memory};
use std::alloc::Global;

/// The files of the holders of a snapshot.
pub(crate) fn files(
    alloc: Global,
    snapshot: &Snapshot,
    doc: &Doc,
    conf: &Conf,
) -> Result<Vec<Bytes>, Memory>
    requires { CanBeListed conf.now doc.now snapshot.now }
    ensures { IfOk result (λ files. files.items ≡ files_of conf.now doc.now snapshot.now) }
{
    let mut files = Vec::new(alloc);
    for i in 0..snapshot.count() {
        match snapshot.layer(i) {
            Some(layer) => files.push(ann_bytes(alloc, layer, doc, conf)?)?,
            None => unreachable!(),
        }
    }
    Ok(files)
}

/// The lines of files. Cost: their bytes, and for each line the logarithm of the number of its file's.
pub(crate) fn lines_of_files(alloc: Global, files: &[Bytes]) -> Result<Vec<AnnLines<'_>>, Memory>
    ensures { IfOk result (λ all. all.items ≡ map lines_of files.now) }
{
    let mut all = Vec::new(alloc);
    for file in files {
        all.push(AnnLines::of(alloc, file.items())?)?;
    }
    Ok(all)
}

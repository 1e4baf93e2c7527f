//! Layers that are read from .ann files.
ghost use Rattle.std.specs.Prelude.{IfOk};
ghost use Rattle.layer_model.specs.Coherent.{IsCoherent};

use ann_reader::read_ann;
use annotation_conf::read_conf;
use char_documents::Doc;
use layer_model::Layer;
use layer_rules::well_formed_layers_cohere;
use std::alloc::Global;
use std::test::Fail;

const CONF: &str =
    "[entities]\nPerson\nLocation\n[relations]\nNear\tArg1:<ENTITY>, Arg2:<ENTITY>\nSame\tArg1:<ENTITY>, Arg2:<ENTITY>, <REL-TYPE>:symmetric-transitive\n[events]\nMeet\tWho*:Person\n[attributes]\n";

const TEXT: &str = "Ann met Bob in Rome.";

/// The layer of a file.
pub(crate) fn layer_of(alloc: Global, ann: &str) -> Result<Layer, Fail>
    ensures { IfOk result IsCoherent }
{
    let conf = read_conf(alloc, CONF.as_bytes())?;
    let doc = Doc::new(alloc, TEXT)?;
    if ann.len() > 16_777_216 {
        return Err(Fail::new("too long"));
    }
    let layer = read_ann(alloc, ann.as_bytes(), &doc, &conf)?;
    layer.keeps();
    well_formed_layers_cohere();
    Ok(layer)
}

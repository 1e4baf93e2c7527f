//! The layer that lines say.
ghost use Rattle.std.specs.Prelude.{◌≡◌, ◌<◌, length, option_map, OnOk, IfSome};
ghost use Rattle.ann_reader.specs.AnnFaults.{with_read, with_said, with_form};
ghost use Rattle.ann_reader.specs.LineTypes.{HasTypes};
ghost use Rattle.ann_reader.specs.FormShows.{NamesSome, seen_form, seen_said};
ghost use Rattle.layer_model.specs.Layers.{is_of_kind};
ghost use Rattle.ann_reader.specs.LineIds.{own_id};

use crate::declared_names::LineTypes;
use crate::line_form::Form;
use crate::line_meaning::{Said, mark_of, said_of};
use conf_model::Conf;
use layer_model::{Layer, Mark};
use mark_base::{AnnId, Kind, Memory};
use std::alloc::Global;

/// Whether a mark is of the sort that stands under a letter.
fn is_of_kind(kind: Kind, mark: &Mark) -> bool
    ensures { result ≡ is_of_kind kind mark.now }
{
    match mark {
        Mark::Span(_) => kind == Kind::Text,
        Mark::Event(_) => kind == Kind::Event,
        Mark::Relation(_) => kind == Kind::Relation,
        Mark::Attribute(_) => matches!(kind, Kind::Attribute | Kind::Legacy),
        Mark::Normal(_) => kind == Kind::Normal,
        Mark::Note(_) => kind == Kind::Note,
    }
}

/// Puts an annotation where it was read and its ID is free.
fn put_read(layer: &mut Layer, id: Option<AnnId>, mark: Option<Mark>) -> Result<(), Memory>
    ensures { OnOk result (layer.new ≡ with_read layer.old id mark) }
{
    let (Some(id), Some(mark)) = (id, mark) else {
        return Ok(());
    };
    if layer.has(id) || !is_of_kind(id.kind, &mark) {
        return Ok(());
    }
    layer.put(id, mark)
}

/// Joins a class that was said.
fn join_said(layer: &mut Layer, said: Option<Said>) -> Result<(), Memory>
    requires some { IfSome said (λ one. 0 < length one.members) }
    requires few { length layer.old.classes < 4294967295 }
    ensures { OnOk result (layer.new ≡ with_said layer.old (option_map seen_said said)) }
{
    match said {
        None => Ok(()),
        Some(said) => layer.join(said.kind, said.members),
    }
}

/// Adds what a line says, whose own ID is read already. Its fragments are not copied.
pub(crate) fn add_line(
    alloc: Global,
    conf: &Conf,
    layer: &mut Layer,
    form: Form,
    own: Option<AnnId>,
    types: &LineTypes,
) -> Result<(), Memory>
    requires own { own ≡ own_id (seen_form form) }
    requires typed { HasTypes conf.now (seen_form form) types.now }
    requires few { length layer.old.classes < 4294967295 }
    requires some { NamesSome (seen_form form) }
    ensures { OnOk result (layer.new ≡ with_form conf.now layer.old (seen_form form.entry)) }
{
    let said = said_of(alloc, conf, &form, types)?;
    let mark = mark_of(alloc, conf, form, types)?;
    put_read(layer, own, mark)?;
    join_said(layer, said)
}

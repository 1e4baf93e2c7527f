//! The layer of some spans.
ghost use Rattle.std.specs.Prelude.{◌≡◌, ◌≤◌, ◌<◌, ◌+◌, length, IfOk, OnOk};
ghost use Rattle.layer_model.specs.Annotations.{no_marks};
ghost use Rattle.token_columns.specs.ReadRuns.{put_from, span_of};

use crate::run::Run;
use layer_model::{Layer, Mark, Span, id_at};
use mark_base::{Frag, FragList, Kind, Memory};
use std::alloc::Global;

/// The span of a run.
fn span_of(alloc: Global, run: &Run) -> Result<Span, Memory>
    ensures { IfOk result (λ span. span ≡ span_of run.now) }
{
    let frag = Frag {
        start: run.start,
        end: run.end,
    };
    let mut frags = Vec::new(alloc);
    frags.push(frag)?;
    Ok(Span {
        kind: run.kind,
        frags: FragList::from_vec(frags),
    })
}

/// The layer of some spans, numbered from 1 in their order. Cost: their number and its logarithm.
pub(crate) fn layer_of(alloc: Global, runs: &[Run]) -> Result<Layer, Memory>
    requires { length runs.now ≤ 10000 }
    ensures { IfOk result (λ layer. layer ≡ put_from no_marks 1 runs.now) }
{
    let mut layer = Layer::new(alloc);
    let mut number: u32 = 1;
    for run in runs {
        layer.put(id_at(Kind::Text, number), Mark::Span(span_of(alloc, run)?))?;
        number += 1;
    }
    Ok(layer)
}

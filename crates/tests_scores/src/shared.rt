//! A call of `unanimous_merge` that no command makes: what all holders of a snapshot have.
ghost use Rattle.std.specs.Prelude.{IfOk};
ghost use Rattle.unanimous_merge.specs.Rows.{AreCoherent};

use crate::files::layer_of;
use layer_model::Snapshot;
use mark_base::{AnnId, Slug};
use std::alloc::Global;
use std::cmp::Ordering;
use std::sync::Arc;
use std::test::Fail;
use unanimous_merge::unanimous;

/// Three persons, of whom two are one class.
const ANN: &str = "T1\tPerson 0 3\tAnn\nT2\tPerson 4 7\tmet\nT3\tPerson 8 11\tBob\n*\tSame T1 T3\n";

/// Two of them under other IDs, and the class.
const BOB: &str = "T5\tPerson 8 11\tBob\nT6\tPerson 0 3\tAnn\n*\tSame T5 T6\n";

/// The snapshot of the layers of two files.
fn snapshot_of(alloc: Global, ann: &str, bob: &str) -> Result<Snapshot, Fail>
    ensures { IfOk result (λ snapshot. AreCoherent snapshot) }
{
    let first = Slug::new(alloc, "ann")?;
    let second = Slug::new(alloc, "bob")?;
    let Ordering::Less = first.cmp(&second) else {
        return Err(Fail::new("the names do not ascend"));
    };
    let ours = Arc::new(alloc, layer_of(alloc, ann)?)?;
    let others = Arc::new(alloc, layer_of(alloc, bob)?)?;
    let rows = vec![in alloc; (first, ours), (second, others)]?;
    Ok(Snapshot::of(rows))
}

/// Whether these are the IDs of some names.
fn are_named(ids: &[AnnId], names: &[&str]) -> bool {
    ids.len() == names.len()
        && ids
            .iter()
            .zip(names.iter())
            .all(|(id, name)| AnnId::read(name.as_bytes()) == Some(*id))
}

#[test]
fn what_both_have_is_unanimous(rt: HostRuntime) -> Result<(), Fail> {
    let snapshot = snapshot_of(rt.alloc(), ANN, BOB)?;
    let picks = unanimous(rt.alloc(), &snapshot)?;
    assert!(rt; are_named(picks.ids(), &["T1", "T3"]));
    let [class] = picks.classes() else {
        return Err(Fail::new("there is one class"));
    };
    assert!(rt; are_named(class.members.items(), &["T1", "T3"]));
    Ok(())
}

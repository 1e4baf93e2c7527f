//! Calls of `content_keys` that no command makes: the counterparts of a layer's annotations in another.
ghost use Rattle.layer_model.specs.Coherent.{IsCoherent};

use crate::files::layer_of;
use content_keys::{Counterparts, Keys};
use layer_model::Layer;
use mark_base::AnnId;
use std::alloc::Global;
use std::test::Fail;

/// Two persons who meet, a class of both, and a normalization of one.
const ANN: &str =
    "T1\tPerson 0 3\tAnn\nT2\tPerson 8 11\tBob\nT3\tMeet 4 7\tmet\nE1\tMeet:T3 Who:T1 Who2:T2\n*\tSame T1 T2\nN1\tReference T1 W:1\ta\n";

/// The same under other IDs, with the normalization twice, and a place.
const BOB: &str =
    "T8\tMeet 4 7\tmet\nE6\tMeet:T8 Who:T5 Who2:T4\nT4\tPerson 0 3\tAnn\nT5\tPerson 8 11\tBob\n*\tSame T5 T4\nN9\tReference T4 W:1\ta\nN7\tReference T4 W:1\ta\nT9\tLocation 15 19\tRome\n";

/// The counterparts of the annotations of a layer in another.
fn counterparts(alloc: Global, layer: &Layer, other: &Layer) -> Result<Counterparts, Fail>
    requires ours { IsCoherent layer.now }
    requires others { IsCoherent other.now }
{
    let ours = Keys::of(alloc, layer)?;
    let others = Keys::of(alloc, other)?;
    Ok(ours.toward(&others)?)
}

/// Whether the annotation of an ID has this counterpart, or none.
fn stands_for(found: &Counterparts, id: &str, there: Option<&str>) -> Result<bool, Fail> {
    let Some(id) = AnnId::read(id.as_bytes()) else {
        return Err(Fail::new("no ID"));
    };
    let there = match there {
        Some(there) => AnnId::read(there.as_bytes()),
        None => None,
    };
    Ok(found.counterpart(id) == there)
}

/// Whether each of these has its counterpart, or none.
fn all_stand_for(found: &Counterparts, wanted: &[(&str, Option<&str>)]) -> Result<bool, Fail> {
    for (id, there) in wanted.iter() {
        if !stands_for(found, id, *there)? {
            return Ok(false);
        }
    }
    Ok(true)
}

/// The counterparts of the annotations of one file in another.
fn counterparts_of(alloc: Global, ann: &str, other: &str) -> Result<Counterparts, Fail> {
    let layer = layer_of(alloc, ann)?;
    let others = layer_of(alloc, other)?;
    counterparts(alloc, &layer, &others)
}

/// What the first file's annotations are in the second.
const THERE: &[(&str, Option<&str>)] = &[
    ("T1", Some("T4")),
    ("T2", Some("T5")),
    ("T3", Some("T8")),
    ("E1", Some("E6")),
    ("N1", Some("N7")),
    ("T4", None),
    ("E2", None),
    ("R1", None),
    ("A1", None),
    ("N2", None),
    ("#1", None),
];

#[test]
fn the_lowest_with_the_same_content_is_found(rt: HostRuntime) -> Result<(), Fail> {
    let found = counterparts_of(rt.alloc(), ANN, BOB)?;
    assert!(rt; all_stand_for(&found, THERE)?);
    Ok(())
}

#[test]
fn what_is_nowhere_else_has_no_counterpart(rt: HostRuntime) -> Result<(), Fail> {
    let found = counterparts_of(rt.alloc(), BOB, ANN)?;
    assert!(rt; all_stand_for(&found, &[("N9", Some("N1")), ("T9", None)])?);
    Ok(())
}

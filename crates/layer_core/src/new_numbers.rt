//! The number of a new annotation.
ghost use Rattle.std.specs.Prelude.{◌≡◌};
ghost use Rattle.layer_model.specs.Layers.{has_number};
ghost use Rattle.layer_core.specs.MadeLayers.{free_number, new_number};

use layer_model::{Layer, id_at};
use mark_base::{AnnId, Kind};

/// Whether a layer has an annotation of a letter and a number.
fn has_number(layer: &Layer, kind: Kind, number: u32) -> bool
    ensures { result ≡ has_number layer.now kind number }
{
    layer.keeps();
    if number > AnnId::GREATEST {
        return false;
    }
    layer.has(id_at(kind, number))
}

/// The lowest number of a letter from 1 on that no annotation has.
fn free_number(layer: &Layer, kind: Kind) -> u32
    ensures { result ≡ free_number layer.now kind }
{
    layer.keeps();
    let end = layer.count(kind) + 2;
    for number in 1..end {
        if !has_number(layer, kind, number) {
            return number;
        }
    }
    0
}

/// The number of a new annotation of a letter.
pub(crate) fn new_number(layer: &Layer, kind: Kind) -> u32
    ensures { result ≡ new_number layer.now kind }
{
    layer.keeps();
    match layer.greatest(kind) {
        Some(number) => {
            if number == AnnId::GREATEST {
                free_number(layer, kind)
            } else {
                number + 1
            }
        }
        None => 1,
    }
}

//! A content in a table.
ghost use Rattle.std.specs.Prelude.{◌≡◌, ◌++◌, IfOk, OnOk};
ghost use Rattle.content_keys.specs.Tables.{flat, links};

use crate::word::Word;
use mark_base::Memory;
use std::alloc::Global;
use std::marker::Model;

/// A content of a table: its own numbers, the places that it names in order, and the bag of roles and
/// places, ascending.
#[derive(Drop)]
pub(crate) struct Shape {
    pub own: Vec<u64>,
    pub named: Vec<u32>,
    pub bag: Vec<(u32, u32)>,
}

impl Model for Shape {
    ghost use Rattle.std.specs.Prelude.{ℕ};
    ghost use Rattle.content_keys.specs.Nodes.{Node, node_code};

    ghost Value = { Node ℕ };

    ghost coded = { node_code };

    ghost view = { λ shape. record { own = shape.own.items; named = shape.named.items; bag = shape.bag.items } };
}

fn push_all(out: &mut Vec<u64>, numbers: &[u64]) -> Result<(), Memory>
    ensures { OnOk result (out.new.items ≡ out.old.items ++ numbers.now) }
{
    for number in numbers {
        out.push(*number)?;
    }
    Ok(())
}

fn push_places(out: &mut Vec<u64>, places: &[u32]) -> Result<(), Memory>
    ensures { OnOk result (out.new.items ≡ out.old.items ++ places.now) }
{
    for place in places {
        out.push(u64::from(*place))?;
    }
    Ok(())
}

fn push_links(out: &mut Vec<u64>, bag: &[(u32, u32)]) -> Result<(), Memory>
    ensures { OnOk result (out.new.items ≡ out.old.items ++ links bag.now) }
{
    for &(role, place) in bag {
        out.push(u64::from(role))?;
        out.push(u64::from(place))?;
    }
    Ok(())
}

/// The content as one list of numbers. Cost: its parts.
pub(crate) fn word_of(alloc: Global, shape: &Shape) -> Result<Word, Memory>
    ensures { IfOk result (λ word. word ≡ flat shape.now) }
{
    let mut out: Vec<u64> = Vec::new(alloc);
    out.push(shape.own.len() as u64)?;
    push_all(&mut out, shape.own.as_slice())?;
    out.push(shape.named.len() as u64)?;
    push_places(&mut out, shape.named.as_slice())?;
    push_links(&mut out, shape.bag.as_slice())?;
    Ok(Word::of(out))
}

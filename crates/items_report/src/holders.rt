//! The holders of a snapshot, and those of an item.
ghost use Rattle.std.specs.Prelude.{◌≡◌, ◌++◌, codes, flat_map, map, string_bytes, IfOk, OnOk};
ghost use Rattle.items_report.specs.ItemRows.{names_among, spaced};
ghost use Rattle.items_report.specs.ItemsTable.{names_of};

use layer_model::Snapshot;
use mark_base::Memory;
use std::alloc::Global;

/// The names of the holders of a snapshot.
pub(crate) fn names_of(alloc: Global, snapshot: &Snapshot) -> Result<Vec<&str>, Memory>
    ensures { IfOk result (λ names. map (λ name. name.now) names.items ≡ names_of snapshot.now) }
{
    let mut names = Vec::new(alloc);
    for i in 0..snapshot.count() {
        match snapshot.holder(i) {
            Some(holder) => names.push(holder.text())?,
            None => unreachable!(),
        }
    }
    Ok(names)
}

/// The names whose bits are set, the lowest bit for the first name.
pub(crate) fn names_among<'n>(
    alloc: Global,
    names: &[&'n str],
    bits: u16,
) -> Result<Vec<&'n str>, Memory>
    ensures { IfOk result (λ among. map (λ name. name.now) among.items ≡ names_among (map (λ name. name.now) names.now) bits) }
{
    let mut among = Vec::new(alloc);
    let mut left = bits;
    for name in names {
        if left % 2 == 1 {
            among.push(*name)?;
        }
        left /= 2;
    }
    Ok(among)
}

/// Appends names, each behind a space.
fn push_more(out: &mut String, names: &[&str]) -> Result<(), Memory>
    ensures { OnOk result (string_bytes out.new ≡ string_bytes out.old ++ flat_map (λ other. codes " " ++ other) (map (λ name. name.now) names.now)) }
{
    for name in names {
        out.push_str(" ")?;
        out.push_str(name)?;
    }
    Ok(())
}

/// Names with one space between each two.
pub(crate) fn spaced(alloc: Global, names: &[&str]) -> Result<String, Memory>
    ensures { IfOk result (λ text. string_bytes text ≡ spaced (map (λ name. name.now) names.now)) }
{
    let mut out = String::new(alloc);
    if let [name, more @ ..] = names {
        out.push_str(name)?;
        push_more(&mut out, more)?;
    }
    Ok(out)
}

//! The rows of types.
ghost use Rattle.std.specs.Prelude.{◌≡◌, ◌+◌, ◌-◌, ◌==◌, ◌≤◌, ◌++◌, [], None, All, length, map, IfOk, option_map, vec_len, if◌then◌else◌};
ghost use Rattle.std.specs.BTreeMap.{get};
ghost use Rattle.std.specs.Ordering.{nat_cmp};
ghost use Rattle.conf_model.specs.ConfOf.{rows_from};
ghost use Rattle.mark_base.specs.Names.{name_fault};
ghost use Rattle.type_hierarchy.specs.TypeFaults.{fault_of};
ghost use Rattle.annotation_conf.specs.BuildTold.{bare_type, parent_by, IsTypeNamed};

use crate::build_roles::name_of;
use crate::file::TypeLine;
use mark_base::{Memory, TypeId};
use std::alloc::Global;
use std::collections::BTreeMap;
use type_hierarchy::{TypeRow, Types, TypesFault};

/// The parent of a line of this depth: the last line that stands one less deep.
fn parent_of(last: &BTreeMap<usize, u16>, depth: usize) -> Option<TypeId>
    ensures { result ≡ parent_by last.now depth }
{
    if depth == 0 {
        return None;
    }
    match last.get(&(depth - 1)) {
        Some(place) => Some(TypeId { n: *place }),
        None => None,
    }
}

/// The row of a type line.
fn row(
    alloc: Global,
    last: &BTreeMap<usize, u16>,
    event: bool,
    line: &TypeLine,
) -> Result<TypeRow, Memory>
    requires { name_fault line.now.name ≡ None }
    ensures { IfOk result (λ row. row ≡ record { name = line.now.name; parent = parent_by last.now line.now.depth; usable = line.now.usable; event = event }) }
{
    Ok(TypeRow {
        name: name_of(alloc, line.name.text())?,
        parent: parent_of(last, line.depth),
        usable: line.usable,
        event,
    })
}

/// The rows of type lines behind others.
pub fn type_rows(
    alloc: Global,
    mut rows: Vec<TypeRow>,
    event: bool,
    lines: &[TypeLine],
) -> Result<Vec<TypeRow>, Memory>
    requires few { vec_len rows + length lines.now ≤ 65535 }
    requires named { All IsTypeNamed lines.now }
    ensures { IfOk result (λ all. all.items ≡ rows.items ++ rows_from (length rows.items) event [] (map bare_type lines.now)) }
{
    let mut last: BTreeMap<usize, u16> = BTreeMap::new(alloc);
    for line in lines {
        let place = rows.len() as u16;
        rows.push(row(alloc, &last, event, line)?)?;
        last.insert(line.depth, place)?;
    }
    Ok(rows)
}

/// The tree of rows that are one, as those of a file without fault are.
pub fn tree_of(alloc: Global, rows: Vec<TypeRow>) -> Result<Types, Memory>
    requires few { vec_len rows ≤ 65536 }
    requires sound { fault_of rows.items ≡ None }
    ensures { IfOk result (λ types. types ≡ rows.items) }
{
    match Types::new(alloc, rows) {
        Ok(types) => Ok(types),
        Err(TypesFault::Memory) => Err(Memory),
        Err(TypesFault::NameTwice(_)) => unreachable!(),
        Err(TypesFault::BadParent(_)) => unreachable!(),
        Err(TypesFault::TooMany) => unreachable!(),
    }
}

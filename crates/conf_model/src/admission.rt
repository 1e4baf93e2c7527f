//! What may stand in a place.
ghost use Rattle.std.specs.Prelude.{◌≡◌, ◌||◌, ◌&&◌, ◌==◌, false, slice_get, if◌then◌else◌};
ghost use Rattle.std.specs.Option.{option_map_or};
ghost use Rattle.std.specs.List.{list_any};
ghost use Rattle.type_hierarchy.specs.TypeTrees.{is_under};
ghost use Rattle.conf_model.specs.Configurations.{admits, admits_relation};

use crate::{Alternatives, Arguments, RelationType};
use mark_base::{RelId, TypeId};
use type_hierarchy::Types;

/// Whether a type is of a sort that is named.
fn has_sort(types: &Types, named: &Alternatives, id: TypeId) -> bool
    ensures { result ≡ option_map_or (λ row. named.now.any || (if row.event then named.now.event else named.now.entity)) (slice_get types.now id.n) false }
{
    match types.row(id) {
        Some(row) => {
            if row.event {
                named.any || named.event
            } else {
                named.any || named.entity
            }
        }
        None => false,
    }
}

/// Whether a type is one of some types or a descendant of one.
fn is_under_any(types: &Types, places: &[u16], id: TypeId) -> bool
    ensures { result ≡ list_any (λ place. is_under types.now id (record { n = place })) places.now }
{
    places
        .iter()
        .any(|place| types.under(id, TypeId { n: *place }))
}

/// Whether a place is among some places.
fn is_among(places: &[u16], wanted: u16) -> bool
    ensures { result ≡ list_any (λ place. place == wanted) places.now }
{
    places.iter().any(|place| *place == wanted)
}

/// Whether a type may stand in a place: it is of a sort that is named, or is a named type or a descendant
/// of one. Cost: the number of named types times the depth of the tree.
pub(crate) fn admits(types: &Types, named: &Alternatives, id: TypeId) -> bool
    ensures { result ≡ admits types.now named.now id }
{
    has_sort(types, named, id) || is_under_any(types, named.bound.items(), id)
}

/// Whether a relation type may stand in a place.
pub(crate) fn admits_relation(named: &Alternatives, id: RelId) -> bool
    ensures { result ≡ admits_relation named.now id.n }
{
    let by_sort = named.relation || named.any;
    by_sort || is_among(named.between.items(), id.n)
}

/// Whether a line admits these types as its two arguments.
fn line_admits(types: &Types, line: &Arguments, first: TypeId, second: TypeId) -> bool
    ensures { result ≡ (admits types.now line.now.first first && admits types.now line.now.second second) }
{
    admits(types, &line.first, first) && admits(types, &line.second, second)
}

/// Whether some line admits these types as its two arguments.
fn some_line_admits(types: &Types, lines: &[Arguments], first: TypeId, second: TypeId) -> bool
    ensures { result ≡ list_any (λ line. admits types.now line.first first && admits types.now line.second second) lines.now }
{
    lines
        .iter()
        .any(|line| line_admits(types, line, first, second))
}

/// Whether some line admits this type as its first argument.
fn some_line_admits_first(types: &Types, lines: &[Arguments], first: TypeId) -> bool
    ensures { result ≡ list_any (λ line. admits types.now line.first first) lines.now }
{
    lines.iter().any(|line| admits(types, &line.first, first))
}

/// Whether some line of the relation type at a place admits these types as its two arguments.
pub(crate) fn relation_admits(
    types: &Types,
    relations: &[RelationType],
    id: RelId,
    first: TypeId,
    second: TypeId,
) -> bool
    ensures { result ≡ option_map_or (λ relation. list_any (λ line. admits types.now line.first first && admits types.now line.second second) relation.lines) (slice_get relations.now id.n) false }
{
    match relations.get(usize::from(id.n)) {
        Some(relation) => some_line_admits(types, relation.lines.items(), first, second),
        None => false,
    }
}

/// Whether some line of the relation type at a place admits this type as its first argument.
pub(crate) fn relation_admits_first(
    types: &Types,
    relations: &[RelationType],
    id: RelId,
    first: TypeId,
) -> bool
    ensures { result ≡ option_map_or (λ relation. list_any (λ line. admits types.now line.first first) relation.lines) (slice_get relations.now id.n) false }
{
    match relations.get(usize::from(id.n)) {
        Some(relation) => some_line_admits_first(types, relation.lines.items(), first),
        None => false,
    }
}

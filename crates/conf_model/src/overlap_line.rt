//! Lines that allow overlaps of spans.
ghost use Rattle.std.specs.Prelude.{◌≡◌, ◌&&◌};
ghost use Rattle.std.specs.List.{list_any};
ghost use Rattle.conf_model.specs.Configurations.{admits};
ghost use Rattle.conf_model.specs.Lookups.{is_apart, turned, has_kind, allows_either};

use crate::Alternatives;
use crate::admission::admits;
use mark_base::{OvlKind, TypeId};
use type_hierarchy::Types;

/// Which overlaps two spans of these types may have: the first contains the second, they are equal,
/// they cross, or any of all.
#[derive(Debug, Drop)]
pub struct Overlap {
    pub first: Alternatives,
    pub second: Alternatives,
    pub contain: bool,
    pub equal: bool,
    pub cross: bool,
    pub any: bool,
}

/// Whether two spans have no character in common.
pub(crate) fn is_apart(kind: OvlKind) -> bool
    ensures { result ≡ is_apart kind }
{
    match kind {
        OvlKind::Apart => true,
        OvlKind::Equal => false,
        OvlKind::Contains => false,
        OvlKind::Inside => false,
        OvlKind::Cross => false,
    }
}

/// The kind of overlap the other way round.
fn turned(kind: OvlKind) -> OvlKind
    ensures { result ≡ turned kind }
{
    match kind {
        OvlKind::Apart => OvlKind::Apart,
        OvlKind::Equal => OvlKind::Equal,
        OvlKind::Contains => OvlKind::Inside,
        OvlKind::Inside => OvlKind::Contains,
        OvlKind::Cross => OvlKind::Cross,
    }
}

/// Whether a line has the kind in which its first span lies to its second.
fn has_kind(line: &Overlap, kind: OvlKind) -> bool
    ensures { result ≡ has_kind line.now kind }
{
    match kind {
        OvlKind::Apart => true,
        OvlKind::Equal => line.any || line.equal,
        OvlKind::Contains => line.any || line.contain,
        OvlKind::Inside => line.any,
        OvlKind::Cross => line.any || line.cross,
    }
}

/// Whether a line allows two spans of these types, the first as `Arg1`.
fn line_allows(types: &Types, line: &Overlap, a: TypeId, b: TypeId, kind: OvlKind) -> bool
    ensures { result ≡ (admits types.now line.now.first a && admits types.now line.now.second b && has_kind line.now kind) }
{
    admits(types, &line.first, a) && admits(types, &line.second, b) && has_kind(line, kind)
}

/// Whether a line allows two spans of these types, either as `Arg1`.
fn line_allows_either(types: &Types, line: &Overlap, a: TypeId, b: TypeId, kind: OvlKind) -> bool
    ensures { result ≡ allows_either types.now line.now a b kind }
{
    line_allows(types, line, a, b, kind) || line_allows(types, line, b, a, turned(kind))
}

/// Whether some line allows two spans of these types, either as `Arg1`.
pub(crate) fn some_line_allows(
    types: &Types,
    lines: &[Overlap],
    a: TypeId,
    b: TypeId,
    kind: OvlKind,
) -> bool
    ensures { result ≡ list_any (λ line. allows_either types.now line a b kind) lines.now }
{
    lines
        .iter()
        .any(|line| line_allows_either(types, line, a, b, kind))
}

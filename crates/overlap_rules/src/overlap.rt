//! The kind of overlap of two spans.
ghost use Rattle.std.specs.Prelude.{◌≡◌, IsTrue};
ghost use Rattle.overlap_rules.specs.Overlaps.{are_ascending, has_all, kind_of, shares};

use mark_base::{Frag, OvlKind};

/// Whether two spans have a character in common. Each step leaves behind the fragment that ends first.
fn shares(a: &[Frag], b: &[Frag]) -> bool
    requires first { IsTrue (are_ascending a.now) }
    requires second { IsTrue (are_ascending b.now) }
    ensures { result ≡ shares a.now b.now }
{
    let mut left = a;
    let mut right = b;
    while let (Some((one, lefts)), Some((other, rights))) = (
        left.split_first(),
        right.split_first(),
    ) {
        if one.end <= other.start {
            left = lefts;
        } else if other.end <= one.start {
            right = rights;
        } else {
            return true;
        }
    }
    false
}

/// Whether the first span has each character of the second. The characters before `next` were found,
/// so fragments of the first that end where the next one starts cover what lies across them.
fn has_all(a: &[Frag], b: &[Frag]) -> bool
    requires first { IsTrue (are_ascending a.now) }
    requires second { IsTrue (are_ascending b.now) }
    ensures { result ≡ has_all a.now b.now }
{
    let mut left = a;
    let mut sought = b;
    let mut next = 0;
    while let Some((frag, later)) = sought.split_first() {
        let start = frag.start.max(next);
        if frag.end <= start {
            sought = later;
            continue;
        }
        let Some((cover, lefts)) = left.split_first() else {
            return false;
        };
        if start < cover.start {
            return false;
        }
        next = cover.end.max(start);
        left = lefts;
    }
    true
}

/// How the characters of the first span lie to those of the second: the kinds of overlap of the brat
/// configuration manual, where `contain` has two directions. Both spans are lists of fragments that are
/// not empty, in ascending order, where one may end where the next starts: the fragments 0 to 5 and 5
/// to 8 have the same characters as 0 to 8. Cost: the number of fragments of both.
pub fn kind_of(a: &[Frag], b: &[Frag]) -> OvlKind
    requires first { IsTrue (are_ascending a.now) }
    requires second { IsTrue (are_ascending b.now) }
    ensures { result ≡ kind_of a.now b.now }
{
    if !shares(a, b) {
        return OvlKind::Apart;
    }
    match (has_all(a, b), has_all(b, a)) {
        (true, true) => OvlKind::Equal,
        (true, false) => OvlKind::Contains,
        (false, true) => OvlKind::Inside,
        (false, false) => OvlKind::Cross,
    }
}

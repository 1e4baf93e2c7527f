//! Where the numbers of spans stand: beside each bucket of characters that a span covers something of, and beside
//! each in which one of its fragments begins.
ghost use Rattle.std.specs.Prelude.{◌≡◌, ◌<◌, ◌-◌, OnOk};
ghost use Rattle.overlap_rules.specs.Overlaps.{covers};
ghost use Rattle.overlap_rules.specs.Buckets.{begins, bucket_of, Keeps, KeepsOthers, HasBetween, IsBeside};

use mark_base::{Frag, Memory};
use std::collections::BTreeSet;

/// How many characters a bucket has.
pub const WIDTH: u32 = 64;

/// Numbers beside buckets.
pub type Places = BTreeSet<(u32, u32)>;

/// The bucket of a fragment's first character.
pub fn first_bucket(frag: &Frag) -> u32
    ensures { result ≡ bucket_of frag.now.start }
{
    frag.start / WIDTH
}

/// The bucket of a fragment's last character.
pub fn last_bucket(frag: &Frag) -> u32
    ensures bucket { result ≡ bucket_of (frag.now.end - 1) }
    ensures fits { result < 67108864 }
{
    frag.end.saturating_sub(1) / WIDTH
}

/// Puts a number beside each bucket from the first to the last of them. On want of memory some may be
/// put.
pub fn put_between(places: &mut Places, number: u32, first: u32, last: u32) -> Result<(), Memory>
    requires { last < 67108864 }
    ensures all { OnOk result (HasBetween places.new number first last) }
    ensures kept { Keeps places.old places.new }
{
    for bucket in first..last + 1 {
        places.insert((bucket, number))?;
    }
    Ok(())
}

/// Takes a number away from each bucket from the first to the last of them.
pub fn take_between(places: &mut Places, number: u32, first: u32, last: u32)
    requires { last < 67108864 }
    ensures { KeepsOthers number places.old places.new }
{
    for bucket in first..last + 1 {
        places.remove(&(bucket, number));
    }
}

/// Puts a number beside each bucket that fragments meet. On want of memory some may be put.
pub fn put_near(places: &mut Places, number: u32, frags: &[Frag]) -> Result<(), Memory>
    ensures all { OnOk result (IsBeside covers places.new number frags.now) }
    ensures kept { Keeps places.old places.new }
{
    for frag in frags {
        put_between(places, number, first_bucket(frag), last_bucket(frag))?;
    }
    Ok(())
}

/// Takes a number away from each bucket that fragments meet.
pub fn take_near(places: &mut Places, number: u32, frags: &[Frag])
    ensures { KeepsOthers number places.old places.new }
{
    for frag in frags {
        take_between(places, number, first_bucket(frag), last_bucket(frag));
    }
}

/// Puts a number beside each bucket in which a fragment begins. On want of memory some may be put.
pub fn put_starts(places: &mut Places, number: u32, frags: &[Frag]) -> Result<(), Memory>
    ensures all { OnOk result (IsBeside begins places.new number frags.now) }
    ensures kept { Keeps places.old places.new }
{
    for frag in frags {
        places.insert((first_bucket(frag), number))?;
    }
    Ok(())
}

/// Takes a number away from each bucket in which a fragment begins.
pub fn take_starts(places: &mut Places, number: u32, frags: &[Frag])
    ensures { KeepsOthers number places.old places.new }
{
    for frag in frags {
        places.remove(&(first_bucket(frag), number));
    }
}
